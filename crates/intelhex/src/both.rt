// Two images exported with the same spans, unit and room length: demand 3 as one contract.
ghost use Rattle.std.specs.Prelude.{◌≡◌, length};
ghost use Rattle.outcome.specs.Outcome.{Exports};
ghost use Rattle.blocks.specs.Blocks.{blocks_of};
ghost use Rattle.intelhex.specs.Hex.{hex_outcome};
ghost use Rattle.intelhex.specs.TwoImages.{AgreeOn, SameAnswers, Sized};

use crate::hex::format_intelhex;
use bitvec::Image;
use outcome::Export;

// The answers of two exports.
#[derive(Clone, Copy)]
pub struct Both {
    pub first: Export,
    pub second: Export,
}

// Exports two images. Where both pass the size check and the rooms have one length, whatever they
// held, both are refused with one number and value, or their texts have one length and are equal
// exactly when the images agree on every bit of every block.
pub fn format_both(
    first: Image,
    second: Image,
    offsets: &[u32],
    sizes: &[u32],
    unit: usize,
    out: &mut [u8],
    out2: &mut [u8],
) -> Both
    ensures first { Exports (hex_outcome first.entry.bytes.now first.entry.len offsets.now sizes.now unit (length out.old)) result.first out.old out.new }
    ensures second { Exports (hex_outcome second.entry.bytes.now second.entry.len offsets.now sizes.now unit (length out2.old)) result.second out2.old out2.new }
    ensures rule { Sized first.entry → Sized second.entry → length out.old ≡ length out2.old → SameAnswers result.first result.second out.new out2.new (AgreeOn (blocks_of offsets.now sizes.now) first.entry second.entry) }
{
    let one = format_intelhex(first, offsets, sizes, unit, out);
    let two = format_intelhex(second, offsets, sizes, unit, out2);
    Both {
        first: one,
        second: two,
    }
}
