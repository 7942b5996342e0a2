// `format_intelhex`: the blocks of the lent spans, and then their text.
ghost use Rattle.std.specs.Prelude.{◌≡◌, false, ◌≤◌, length};
ghost use Rattle.outcome.specs.Outcome.{refused, Exports};
ghost use Rattle.span_list.specs.Range.{long_list, spans_checked};
ghost use Rattle.blocks.specs.Blocks.{blocks_of};
ghost use Rattle.hex_records.specs.Plan.{hex_plan};
ghost use Rattle.intelhex.specs.Hex.{plan_outcome, hex_outcome};
ghost use Rattle.intelhex.specs.InnerLent.{plan_of};

use crate::low::low;
use crate::plan::{AddressUnit, HexPlan, hex_length};
use crate::text::write_hex;
use bitvec::Image;
use blocks::get_blocks;
use outcome::{Export, Refusal};
use span_list::SpanList;

// The text of a plan, or refusal 5 or 8.
#[tactic(auto, unfolding(crate::specs::Hex::plan_outcome))]
fn format_plan(image: Image, plan: HexPlan, out: &mut [u8]) -> Export
    requires { length plan.blocks.offsets.now ≤ 4096 }
    ensures { Exports (plan_outcome image.entry.bytes.now image.entry.len (plan_of plan.entry) (length out.old)) result out.old out.new }
{
    let low_plan = low(plan).ok_or(Refusal::AddressRange)?;
    let needed = hex_length(plan.blocks.sizes);
    if out.len() < needed {
        return Err(Refusal::NoRoom(needed));
    }
    Ok(write_hex(out, image, low_plan))
}

// The text of the blocks that the spans make, or refusal 3, 5 or 8. The blocks are made in two arrays
// that have a place for each span, unless there are too many spans: the smaller N is, the less memory
// is set to zero.
fn format_blocks<const N: usize>(
    image: Image,
    offsets: &[u32],
    sizes: &[u32],
    unit: AddressUnit,
    out: &mut [u8],
) -> Export
    requires places { N ≤ 4096 }
    requires room { long_list offsets.now sizes.now ≡ false → length offsets.now ≤ N }
    ensures { Exports (spans_checked refused offsets.now sizes.now (plan_outcome image.entry.bytes.now image.entry.len (hex_plan unit.bits (blocks_of offsets.now sizes.now)) (length out.old))) result out.old out.new }
{
    let mut block_offsets = [0u32; N];
    let mut block_sizes = [0u32; N];
    let count = get_blocks(offsets, sizes, &mut block_offsets, &mut block_sizes)?;
    let blocks = SpanList {
        offsets: &block_offsets[..count],
        sizes: &block_sizes[..count],
    };
    format_plan(image, HexPlan { blocks, unit }, out)
}

// Intel HEX records of the blocks that the spans make, and the end record. A span is an offset, with
// 4294967295 for an absent one, and a size, in two slices of one length. They are two slices here, and
// no list, since the C interface lends them so: that they have one length is still to be seen.
#[tactic(auto, using(outcome::proofs::Outcome::inside, span_list::proofs::Good::short_list), unfolding(crate::specs::Hex::hex_outcome))]
pub fn format_intelhex(
    image: Image,
    offsets: &[u32],
    sizes: &[u32],
    address_unit: usize,
    out: &mut [u8],
) -> Export
    ensures { Exports (hex_outcome image.entry.bytes.now image.entry.len offsets.now sizes.now address_unit (length out.old)) result out.old out.new }
{
    let image = image.good().ok_or(Refusal::ImageSize)?.image;
    let unit = AddressUnit::new(address_unit).ok_or(Refusal::OptionRange)?;
    if offsets.len() <= 64 {
        return format_blocks::<64>(image, offsets, sizes, unit, out);
    }
    format_blocks::<4096>(image, offsets, sizes, unit, out)
}
