// The text of a plan: a block is cut from its own start into bytes and these into records of 32, the last
// shorter.
ghost use Rattle.std.specs.Prelude.{◌≡◌, false, ◌+◌, ◌<◌, ◌≤◌, length};
ghost use mathlib.Core.List.{flat_map};
ghost use Rattle.bitvec.specs.Size.{ceil_div};
ghost use Rattle.output.specs.Writes.{Writes};
ghost use Rattle.hex_records.specs.Plan.{chunk_at, too_high};
ghost use Rattle.hex_records.specs.Text.{record_text, hex_text};
ghost use Rattle.hex_records.specs.InnerLent.{chunk_of};
ghost use Rattle.intelhex.specs.InnerLent.{block_of, records_of, plan_of};

use crate::low::LowPlan;
use crate::plan::{AddressUnit, HexPlan, record_count};
use bitvec::{BitOffset, Image};
use blocks::Block;
use hex_records::{DataRecord, put_record};
use output::put_all;

// A block whose records have addresses of at most 65,535.
#[derive(Clone, Copy)]
struct LowBlock {
    block: Block,
    unit: AddressUnit,
    ghost low: { too_high (records_of block unit) ≡ false },
}

impl LowBlock {
    // Record `n`.
    #[tactic(auto, using(bitvec::proofs::Size::ceil_most, bitvec::proofs::Size::ceil_inside))]
    fn record(self, n: usize) -> DataRecord
        requires { n < ceil_div (ceil_div self.block.size 8) 32 }
        ensures { chunk_of result ≡ chunk_at self.unit.bits (block_of self.block) n }
    {
        let from = BitOffset::from(self.block.offset).plus(256 * n);
        DataRecord {
            from,
            address: from.address(self.unit.bits),
            count: (self.block.bytes() - 32 * n).min(32),
        }
    }
}

// Writes the records of a block.
fn put_records(out: &mut [u8], at: usize, image: Image, block: LowBlock) -> usize
    requires { at + length (flat_map (record_text image.bytes.now image.len) (records_of block.block block.unit)) ≤ length out.old }
    ensures { Writes (flat_map (record_text image.entry.bytes.now image.entry.len) (records_of block.block block.unit)) out.old at out.new result }
{
    let mut next = at;
    // The loop counts, since a record is made from its number.
    for n in 0..record_count(block.block) {
        next = put_record(out, next, image, block.record(n));
    }
    next
}

// Writes the records of the blocks and the end record.
pub fn write_hex(out: &mut [u8], image: Image, plan: LowPlan) -> usize
    requires { length (hex_text image.bytes.now image.len (plan_of plan.plan)) ≤ length out.old }
    ensures { Writes (hex_text image.entry.bytes.now image.entry.len (plan_of plan.entry.plan)) out.old 0 out.new result }
{
    let HexPlan { blocks, unit } = plan.plan;
    let mut next: usize = 0;
    for (&offset, &size) in blocks.offsets.iter().zip(blocks.sizes) {
        let block = LowBlock {
            block: Block { offset, size },
            unit,
        };
        next = put_records(out, next, image, block);
    }
    put_all(out, next, b":00000001FF")
}
