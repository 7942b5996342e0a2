// The functions over span records for a program that has its records in an array, and beside it how many they
// are: the first `count` of them are lent, or all where there are no more, so that nothing is asked.
ghost use Rattle.std.specs.Prelude.{length, take};
ghost use Rattle.outcome.specs.Outcome.{Exports, Finds};
ghost use Rattle.blocks.specs.Blocks.{blocks_found};
ghost use Rattle.intelhex.specs.Hex.{hex_outcome};
ghost use Rattle.annotated.specs.Annotated.{annotated_outcome};
ghost use Rattle.spans.specs.Spans.{offsets_of, sizes_of};
ghost use Rattle.of_spans.specs.Records.{record_spans};

use bitvec::Image;
use listing::FormatAnnotatedOptions;
use outcome::{Export, Refusal};
use sources::Sources;
use spans::Span;

// How many records an array has: two more than a list may have, so that a program can lend one that is too long.
const ROOM: usize = 4098;

// The blocks of the first `count` records, as `of_spans::get_blocks` gives them.
pub fn get_blocks(
    spans: [Span; 4098],
    count: usize,
    block_offsets: &mut [u32],
    block_sizes: &mut [u32],
) -> Result<usize, Refusal>
    ensures { Finds (blocks_found (offsets_of (take count spans)) (sizes_of (take count spans)) (length block_offsets.old) (length block_sizes.old)) result block_offsets.old block_offsets.new block_sizes.old block_sizes.new }
{
    crate::get_blocks(&spans[..count.min(ROOM)], block_offsets, block_sizes)
}

// The Intel HEX export of the first `count` records, as `of_spans::format_intelhex` gives it.
pub fn format_intelhex(
    image: Image,
    spans: [Span; 4098],
    count: usize,
    address_unit: usize,
    out: &mut [u8],
) -> Export
    ensures { Exports (hex_outcome image.entry.bytes.now image.entry.len (offsets_of (take count spans)) (sizes_of (take count spans)) address_unit (length out.old)) result out.old out.new }
{
    crate::format_intelhex(image, &spans[..count.min(ROOM)], address_unit, out)
}

// The listing of the first `count` records, as `of_spans::format_annotated` gives it.
pub fn format_annotated(
    image: Image,
    spans: [Span; 4098],
    count: usize,
    sources: Sources,
    options: FormatAnnotatedOptions,
    out: &mut [u8],
) -> Export
    ensures { Exports (annotated_outcome image.entry.bytes.now image.entry.len options (record_spans (take count spans)) sources.entry.firmware.now sources.entry.protocol.now (length out.old)) result out.old out.new }
{
    crate::format_annotated(image, &spans[..count.min(ROOM)], sources, options, out)
}
