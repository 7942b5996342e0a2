// The contents of a span: its digits, with a space between groups, and a point for each digit that is
// not within the image.

ghost use Rattle.std.specs.Prelude.{◌≡◌, List, [], ◌∷◌, ◌++◌, ℕ, ◌+◌, ◌%◌, ◌≤◌, ◌<◌, ◌^◌, length};
ghost use Rattle.output.specs.Pieces.{leading};
ghost use Rattle.output.specs.Writes.{Writes};
ghost use Rattle.listing.specs.Listing.{content_digit, contents};
ghost use Rattle.listing.specs.InnerLine.{gap, digits_from};

use crate::ListingOptions;
use bitvec::{BitOffset, Image};
use digit_groups::{DigitGroups, PutGroup, put_groups, put_part};
use numbers::DigitWidth;

// Stores the digit of `width` from `from` on, or a point where one of its bits is past the image's end.
fn put_content_digit(
    out: &mut [u8],
    at: usize,
    image: Image,
    width: DigitWidth,
    from: BitOffset,
) -> usize
    requires { (from.0 + width.bits < 2 ^ 64) × (at < length out.old) }
    ensures { Writes (content_digit image.entry.bytes.now image.entry.len width.bits from.0 ∷ []) out.old at out.new result }
{
    if image.len < from.0 + width.bits {
        return output::put(out, at, b'.');
    }
    digits::put_digit(out, at, image, width, from)
}

// Stores what stands before digit `k`, which is at place `turn` of its group. The place is counted, so
// that no division is made for a digit.
fn put_gap(out: &mut [u8], at: usize, group: usize, k: usize, turn: usize) -> usize
    requires { (turn ≡ k % group) × (at + length (leading (gap group) k) ≤ length out.old) }
    ensures { Writes (leading (gap group) k) out.old at out.new result }
{
    if k == 0 || turn != 0 {
        return at;
    }
    output::put(out, at, b' ')
}

// Stores `count` digits of a span that starts at `from`, from digit `first` on, which begins a group.
fn put_content_digits(
    out: &mut [u8],
    at: usize,
    image: Image,
    options: ListingOptions,
    from: BitOffset,
    first: usize,
    count: usize,
) -> usize
    requires group { first % options.given.digits_per_group ≡ 0 }
    requires small { (from.0 < 2 ^ 32) × (first + count ≤ 2 ^ 32) }
    requires room { at + length (digits_from options image from.0 first count) ≤ length out.old }
    ensures { Writes (digits_from options image.entry from.0 first count) out.old at out.new result }
{
    let width = options.width;
    let group = options.given.digits_per_group;
    let mut turn = 0;
    let mut next = at;
    // By numbers: the place of a digit and the space before it are found by its number.
    for j in 0..count {
        let k = first + j;
        next = put_gap(out, next, group, k, turn);
        next = put_content_digit(out, next, image, width, from.plus(k * width.bits));
        turn += 1;
        if turn == group {
            turn = 0;
        }
    }
    next
}

// What writes a group of the contents: a space before each but the first.
struct SpacedGroups;

impl PutGroup for SpacedGroups {
    ghost every = { λ _. 1 };

    ghost text = { λ _ k digits. leading (gap 1) k ++ digits };

    fn every(&self) -> usize {
        1
    }

    fn put_group(&self, out: &mut [u8], at: usize, k: usize, turn: usize, digits: &[u8]) -> usize {
        let next = put_gap(out, at, 1, k, turn);
        put_part(out, next, digits)
    }
}

// Stores the contents of a span. Of many digits those groups that the image has whole are cut from runs.
pub fn put_contents(
    out: &mut [u8],
    at: usize,
    image: Image,
    options: ListingOptions,
    offset: u32,
    size: u32,
) -> usize
    requires { at + length (contents options.given image.bytes.now image.len offset size) ≤ length out.old }
    ensures { Writes (contents options.given image.entry.bytes.now image.entry.len offset size) out.old at out.new result }
{
    let width = options.width;
    let group = options.given.digits_per_group;
    let from = BitOffset::from(offset);
    let count = bitvec::parts(size as usize, width.bits);
    if count <= 16 {
        return put_content_digits(out, at, image, options, from, 0, count);
    }
    let inside = image.len.saturating_sub(from.0) / (group * width.bits);
    let whole = inside.min(count / group);
    let groups = DigitGroups {
        image,
        width,
        from,
        size: group,
    };
    let next = put_groups(out, at, groups, &SpacedGroups, whole);
    let done = whole * group;
    put_content_digits(out, next, image, options, from, done, count - done)
}

// The length of the contents of a span.
pub fn contents_length(options: ListingOptions, size: u32) -> usize
    ensures { ((bytes : List ℕ) (len offset : ℕ) → length (contents options.given bytes len offset size) ≡ result) × (result < 2 ^ 34) }
{
    let count = bitvec::parts(size as usize, options.width.bits);
    count.saturating_sub(1) / options.given.digits_per_group + count
}
