// Refusal 5: plans with an address that is too high, and those without.
ghost use Rattle.std.specs.Prelude.{◌≡◌, true, false, MatchOption};
ghost use Rattle.hex_records.specs.Plan.{too_high};
ghost use Rattle.intelhex.specs.InnerLent.{records_of, plan_of};

use crate::plan::{AddressUnit, HexPlan, record_count};
use bitvec::BitOffset;
use blocks::Block;

// The highest address that a record can have.
const MAX_ADDRESS: usize = 65535;

// A plan whose records have addresses of at most 65,535.
#[derive(Clone, Copy)]
pub struct LowPlan<'a> {
    pub plan: HexPlan<'a>,
    pub ghost low: { too_high (plan_of plan) ≡ false },
}

// Whether the address of a record of a block is too high: that of the last one is the highest.
fn block_high(block: Block, unit: AddressUnit) -> bool
    ensures { result ≡ too_high (records_of block unit) }
{
    let Some(last) = record_count(block).checked_sub(1) else {
        return false;
    };
    let from = BitOffset::from(block.offset).plus(256 * last);
    MAX_ADDRESS < from.address(unit.bits).0
}

// The plan, where no address of a record is above 65,535, the cause of refusal 5.
pub fn low<'a>(plan: HexPlan<'a>) -> Option<LowPlan<'a>>
    ensures { MatchOption result (too_high (plan_of plan.entry) ≡ true) (λ l. l.plan ≡ plan.entry) }
{
    let HexPlan { blocks, unit } = plan;
    let high = blocks.offsets.iter().zip(blocks.sizes).any(|(&offset, &size)| block_high(
        Block { offset, size },
        unit,
    ));
    if high {
        return None;
    }
    Some(LowPlan { plan })
}
