// The blocks of a span list (document 01, module 7): the spans in order make blocks, which are closed
// one after the other, first to count them, and then to store them where there is room for all. The blocks are
// given as two slices, since document 01 lends them so.
#![tactic(auto)]

ghost use Rattle.std.specs.Prelude.{◌≡◌, [], ◌^◌, ◌≤◌, ◌<◌, length, set};
ghost use Rattle.bitvec.specs.Size.{ceil_div};
ghost use Rattle.outcome.specs.Outcome.{Finds};
ghost use Rattle.ordering.specs.Order.{in_order};
ghost use Rattle.blocks.specs.Blocks.{closed, blocks_of, blocks_found};
ghost use Rattle.blocks.specs.InnerStores.{Stores};

use ordering::ABSENT;
use outcome::Refusal;
use span_list::{GoodSpans, SpanList};

// A block: the offset of its first bit, and how many bits it has.
#[derive(Clone, Copy)]
pub struct Block {
    pub offset: u32,
    pub size: u32,
}

impl Block {
    // How many bytes it has, counted up to whole ones from its own start.
    pub fn bytes(self) -> usize
        ensures { result ≡ ceil_div self.size 8 }
    {
        bitvec::parts(self.size as usize, 8)
    }
}

// Stores a number, where there is a place for it.
fn store(out: &mut [u32], at: usize, number: u32)
    ensures { out.new ≡ set out.old at number }
{
    if at < out.len() {
        out[at] = number;
    }
}

// Closes a block: it is stored behind the others, where there is a place for it, and counted, unless its
// size is 0.
#[tactic(auto, unfolding(crate::specs::Blocks::closed))]
fn close(block_offsets: &mut [u32], block_sizes: &mut [u32], count: usize, block: Block) -> usize
    requires { count < 2 ^ 32 }
    ensures { Stores (closed block.offset block.size []) count block_offsets.old block_offsets.new block_sizes.old block_sizes.new result }
{
    if block.size == 0 {
        return count;
    }
    store(block_offsets, count, block.offset);
    store(block_sizes, count, block.size);
    count + 1
}

// The blocks of good spans whose places are given in order, at the fronts of two slices, as many as these
// have places for, and how many there are. Before the first span a block of size 0 at offset 0 is running,
// which makes no difference: a span at offset 0 joins it as it would open a block, and any other drops it. No
// block ends where an absent offset would be, so that a span which joins need not be tested for it.
#[tactic(auto, using(crate::proofs::Closing::place_below))]
fn close_all(
    spans: GoodSpans,
    places: &[u32],
    block_offsets: &mut [u32],
    block_sizes: &mut [u32],
) -> usize
    requires { places.now ≡ in_order spans.list.offsets.now }
    ensures { Stores (blocks_of spans.entry.list.offsets.now spans.entry.list.sizes.now) 0 block_offsets.old block_offsets.new block_sizes.old block_sizes.new result }
{
    let SpanList { offsets, sizes } = spans.list;
    let mut block = Block { offset: 0, size: 0 };
    let mut count: usize = 0;
    for &place in places {
        let offset = offsets[place as usize];
        let size = sizes[place as usize];
        if offset == block.offset + block.size {
            block.size += size;
        } else if offset != ABSENT {
            count = close(block_offsets, block_sizes, count, block);
            block = Block { offset, size };
        }
    }
    close(block_offsets, block_sizes, count, block)
}

// The blocks of at most N good spans, as `get_blocks` gives them. They are counted, stored nowhere, where a
// slice has no place for each span, so that its room may be short; no list has more blocks than spans.
// N is bounded as in `ordering::order_within`.
fn find_within<const N: usize>(
    spans: GoodSpans,
    block_offsets: &mut [u32],
    block_sizes: &mut [u32],
) -> Result<usize, Refusal>
    requires { (length spans.list.offsets.now ≤ N) × (N ≤ 4096) }
    ensures { Finds (blocks_found spans.entry.list.offsets.now spans.entry.list.sizes.now (length block_offsets.old) (length block_sizes.old)) result block_offsets.old block_offsets.new block_sizes.old block_sizes.new }
{
    let n = spans.list.offsets.len();
    let mut places = [0u32; N];
    ordering::order_within::<N>(spans.list.offsets, &mut places);
    let places = &places[..n];
    if block_offsets.len() < n || block_sizes.len() < n {
        let count = close_all(spans, places, &mut [], &mut []);
        if block_offsets.len() < count || block_sizes.len() < count {
            return Err(Refusal::NoRoom(count));
        }
    }
    Ok(close_all(spans, places, block_offsets, block_sizes))
}

// The blocks of the lent spans, their offsets and sizes at the fronts of two slices: how many there
// are, or refusal 3 with its place, or refusal 8 with how many there are. Up to 64 spans have a small array
// of places, since clearing one of 4,096 took longer than exporting a small image (the target of Intel HEX is
// 30 times the speed of the Rust).
pub fn get_blocks(
    offsets: &[u32],
    sizes: &[u32],
    block_offsets: &mut [u32],
    block_sizes: &mut [u32],
) -> Result<usize, Refusal>
    ensures { Finds (blocks_found offsets.now sizes.now (length block_offsets.old) (length block_sizes.old)) result block_offsets.old block_offsets.new block_sizes.old block_sizes.new }
{
    let spans = GoodSpans::new(offsets, sizes)?;
    if offsets.len() <= 64 {
        return find_within::<64>(spans, block_offsets, block_sizes);
    }
    find_within::<4096>(spans, block_offsets, block_sizes)
}
