// Exporters over a slice of span records (document 01, "Forms to follow"): each copies the numbers of the
// records, and calls the core on these.
#![tactic(auto)]

ghost use Rattle.std.specs.Prelude.{◌≡◌, length};
ghost use Rattle.outcome.specs.Outcome.{Exports, Finds};
ghost use Rattle.blocks.specs.Blocks.{blocks_of, blocks_found};
ghost use Rattle.intelhex.specs.Hex.{hex_outcome};
ghost use Rattle.intelhex.specs.TwoImages.{AgreeOn, SameAnswers, Sized};
ghost use Rattle.annotated.specs.Annotated.{annotated_outcome};
ghost use Rattle.spans.specs.Spans.{offsets_of, sizes_of};
ghost use Rattle.of_spans.specs.Records.{record_spans};

use bitvec::Image;
use intelhex::Both;
use listing::{FormatAnnotatedOptions, SpanColumns};
use outcome::{Export, Refusal};
use sources::Sources;
use spans::Span;
use spans::columns::{Columns, ListingColumns};

pub mod arrays;

// The blocks of the lent records, their offsets and sizes at the fronts of two slices.
pub fn get_blocks(
    spans: &[Span],
    block_offsets: &mut [u32],
    block_sizes: &mut [u32],
) -> Result<usize, Refusal>
    ensures { Finds (blocks_found (offsets_of spans.now) (sizes_of spans.now) (length block_offsets.old) (length block_sizes.old)) result block_offsets.old block_offsets.new block_sizes.old block_sizes.new }
{
    let columns = Columns::copy(spans);
    blocks::get_blocks(
        &columns.offsets[..columns.count],
        &columns.sizes[..columns.count],
        block_offsets,
        block_sizes,
    )
}

// Intel HEX records of the blocks that the lent records make, and the end record.
pub fn format_intelhex(image: Image, spans: &[Span], address_unit: usize, out: &mut [u8]) -> Export
    ensures { Exports (hex_outcome image.entry.bytes.now image.entry.len (offsets_of spans.now) (sizes_of spans.now) address_unit (length out.old)) result out.old out.new }
{
    let columns = Columns::copy(spans);
    intelhex::format_intelhex(
        image,
        &columns.offsets[..columns.count],
        &columns.sizes[..columns.count],
        address_unit,
        out,
    )
}

// Exports two images with the lent records: the promise of each export, and demand 3 as
// `intelhex::format_both` has it, its blocks those of the records.
pub fn format_both(
    first: Image,
    second: Image,
    spans: &[Span],
    unit: usize,
    out: &mut [u8],
    out2: &mut [u8],
) -> Both
    ensures first { Exports (hex_outcome first.entry.bytes.now first.entry.len (offsets_of spans.now) (sizes_of spans.now) unit (length out.old)) result.first out.old out.new }
    ensures second { Exports (hex_outcome second.entry.bytes.now second.entry.len (offsets_of spans.now) (sizes_of spans.now) unit (length out2.old)) result.second out2.old out2.new }
    ensures rule { Sized first.entry → Sized second.entry → length out.old ≡ length out2.old → SameAnswers result.first result.second out.new out2.new (AgreeOn (blocks_of (offsets_of spans.now) (sizes_of spans.now)) first.entry second.entry) }
{
    let columns = Columns::copy(spans);
    intelhex::format_both(
        first,
        second,
        &columns.offsets[..columns.count],
        &columns.sizes[..columns.count],
        unit,
        out,
        out2,
    )
}

// The listing of the lent records.
pub fn format_annotated(
    image: Image,
    spans: &[Span],
    sources: Sources,
    options: FormatAnnotatedOptions,
    out: &mut [u8],
) -> Export
    ensures { Exports (annotated_outcome image.entry.bytes.now image.entry.len options (record_spans spans.now) sources.entry.firmware.now sources.entry.protocol.now (length out.old)) result out.old out.new }
{
    let columns = Columns::copy(spans);
    let others = ListingColumns::copy(spans);
    let lent = SpanColumns {
        offsets: &columns.offsets[..columns.count],
        sizes: &columns.sizes[..columns.count],
        addrs: &others.addrs[..others.count],
        files: &others.files[..others.count],
        starts: &others.starts[..others.count],
        ends: &others.ends[..others.count],
    };
    annotated::format_annotated(image, lent, sources, options, out)
}
