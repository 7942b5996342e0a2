// What is to be written: the blocks of a file and the unit of its addresses; and how long its text is, of which
// nothing need be written.
ghost use Rattle.std.specs.Prelude.{◌≡◌, true, false, List, ℕ, ◌+◌, ◌*◌, ◌<◌, ◌≤◌, length, MatchOption};
ghost use Rattle.bitvec.specs.Size.{ceil_div};
ghost use Rattle.outcome.specs.Outcome.{outside};
ghost use Rattle.hex_records.specs.Plan.{hex_plan, blocks_at};
ghost use Rattle.hex_records.specs.Text.{hex_text};

use bitvec::parts;
use blocks::Block;
use outcome::outside;
use span_list::SpanList;

// How many bits one address stands for.
#[derive(Clone, Copy)]
pub struct AddressUnit {
    pub bits: usize,
    pub ghost positive: { 0 < bits },
}

impl AddressUnit {
    // The unit of an export: 1 to 64.
    #[tactic(auto, using(outcome::proofs::Outcome::inside))]
    pub fn new(bits: usize) -> Option<AddressUnit>
        ensures { MatchOption result (outside 1 64 bits ≡ true) (λ u. (u.bits ≡ bits) × (outside 1 64 bits ≡ false)) }
    {
        if outside(1, 64, bits) {
            return None;
        }
        Some(AddressUnit { bits })
    }
}

// The blocks of a file, and the unit of its addresses.
#[derive(Clone, Copy)]
pub struct HexPlan<'a> {
    pub blocks: SpanList<'a>,
    pub unit: AddressUnit,
}

// How many records a block has, of 32 bytes each, the last one shorter.
#[tactic(auto, using(bitvec::proofs::Size::ceil_most))]
pub fn record_count(block: Block) -> usize
    ensures { result ≡ ceil_div (ceil_div block.size 8) 32 }
{
    parts(block.bytes(), 32)
}

// The length of the records of a block: 12 characters for each, and 2 for each byte. Of the size alone: a
// length has no offset, which a `Block` would ask for.
#[tactic(auto, using(bitvec::proofs::Size::ceil_most))]
fn block_length(size: u32) -> usize
    ensures { result ≡ 12 * ceil_div (ceil_div size 8) 32 + 2 * ceil_div size 8 }
{
    let count = parts(size as usize, 8);
    12 * parts(count, 32) + 2 * count
}

// The length of the text of blocks of these sizes, wherever they are and whatever the image holds.
pub fn hex_length(sizes: &[u32]) -> usize
    requires { length sizes.now ≤ 4096 }
    ensures { (bytes : List ℕ) (len unit : ℕ) (offsets : List ℕ) → length offsets ≡ length sizes.now → length (hex_text bytes len (hex_plan unit (blocks_at offsets sizes.now))) ≡ result }
{
    let records: usize = sizes.iter().map(|&size| block_length(size)).sum();
    records + 11
}
