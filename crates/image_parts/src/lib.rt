// An image cut into parts of one width, the last one perhaps shorter, and the text of its parts: the
// digits of each, and what stands behind them.
#![tactic(auto)]

ghost use Rattle.std.specs.Prelude.{◌≡◌, true, false, IfSome, MatchOption, List, ◌++◌, ℕ, cond, ◌+◌, ◌-◌, ◌*◌, ◌/◌, ◌%◌, ◌≤◌, ◌<◌, ◌^◌, eqb, length};
ghost use Rattle.bitvec.specs.Size.{ceil_div};
ghost use Rattle.output.specs.Writes.{Writes};
ghost use Rattle.outcome.specs.Outcome.{outside};
ghost use Rattle.image_parts.specs.InnerParts.{parts_text, Runs};

use bitvec::{BitOffset, GoodImage};
use digit_groups::{DigitGroups, PutGroup};
use digits::ByteDigits;
use numbers::DigitWidth;
use outcome::outside;

// An image and the width of its parts, in bits.
#[derive(Clone, Copy)]
pub struct ImageParts<'a> {
    pub good: GoodImage<'a>,
    pub width: usize,
    pub ghost in_range: { (0 < width) × (width ≤ 4096) },
}

// What stands behind the digits of a part.
pub trait PartTail {
    // Its text, by the bit where the part ends.
    ghost tail: { Self → ℕ → List ℕ };

    // Stores it.
    fn put_tail(&self, out: &mut [u8], at: usize, end: BitOffset) -> usize
        requires { at + length (tail self.now end.0) ≤ length out.old }
        ensures { Writes (tail self.now end.0) out.old at out.new result };
}

impl<'a> ImageParts<'a> {
    // The parts of an export, of 1 to 4,096 bits each.
    #[tactic(auto, using(outcome::proofs::Outcome::inside))]
    pub fn new(good: GoodImage<'a>, width: usize) -> Option<ImageParts<'a>>
        ensures { MatchOption result (outside 1 4096 width ≡ true) (λ p. (p.good ≡ good.entry) × (p.width ≡ width) × (outside 1 4096 width ≡ false)) }
    {
        if outside(1, 4096, width) {
            return None;
        }
        Some(ImageParts { good, width })
    }
}

// What writes whole parts as groups of digits: behind a group stands what stands behind a part.
#[derive(Drop)]
struct WholeParts<'a, T> {
    tail: &'a T,
    width: usize,
    ghost small: { width ≤ 4096 },
}

impl<'a, T: PartTail> PutGroup for WholeParts<'a, T> {
    ghost every = { λ parts. 1 };

    ghost text = { λ parts k digits. digits ++ T.tail parts.tail.now (k * parts.width + parts.width) };

    fn every(&self) -> usize {
        1
    }

    fn put_group(&self, out: &mut [u8], at: usize, k: usize, turn: usize, digits: &[u8]) -> usize {
        let next = digit_groups::put_part(out, at, digits);
        let end = BitOffset(k * self.width + self.width);
        self.tail.put_tail(out, next, end)
    }
}

// The digits of a whole part, if all have as many bits, and are no more than a group may have.
#[tactic(auto, using(crate::proofs::Runs::runs_binary, crate::proofs::Runs::runs_whole, crate::proofs::Runs::runs_short))]
fn part_digits(kind: ByteDigits, width: usize) -> Option<DigitWidth>
    requires { (0 < width) × (width ≤ 4096) }
    ensures { IfSome result (λ w. Runs kind width w.bits) }
{
    match kind {
        ByteDigits::Binary if width <= 1024 => Some(DigitWidth::BINARY),
        ByteDigits::Hex if width % 4 == 0 => Some(DigitWidth::HEX),
        ByteDigits::Hex if width < 4 => Some(DigitWidth { bits: width }),
        _ => None,
    }
}

// Stores the text of the parts that the image fills, whose digits have one width: those of many parts
// are made at once.
fn put_whole_parts<T: PartTail>(
    out: &mut [u8],
    at: usize,
    kind: ByteDigits,
    parts: ImageParts,
    digit: DigitWidth,
    tail: &T,
) -> usize
    requires runs { Runs kind parts.width digit.bits }
    requires room { at + length (parts_text kind parts.good.image.bytes.now parts.good.image.len parts.width (T.tail tail.now) (parts.good.image.len / parts.width)) ≤ length out.old }
    ensures { Writes (parts_text kind parts.entry.good.image.bytes.now parts.entry.good.image.len parts.entry.width (T.tail tail.now) (parts.entry.good.image.len / parts.entry.width)) out.old at out.new result }
{
    let image = parts.good.image;
    let width = parts.width;
    let groups = DigitGroups {
        image,
        width: digit,
        from: BitOffset(0),
        size: width / digit.bits,
    };
    digit_groups::put_groups(
        out,
        at,
        groups,
        &WholeParts { tail, width },
        image.len / width,
    )
}

// Stores the text of the parts: the whole ones as groups of digits, where their digits have one width,
// and the others one by one. The offset of a part is computed from its number.
pub fn put_parts<T: PartTail>(
    out: &mut [u8],
    at: usize,
    kind: ByteDigits,
    parts: ImageParts,
    tail: &T,
) -> usize
    requires { at + length (parts_text kind parts.good.image.bytes.now parts.good.image.len parts.width (T.tail tail.now) (ceil_div parts.good.image.len parts.width)) ≤ length out.old }
    ensures { Writes (parts_text kind parts.entry.good.image.bytes.now parts.entry.good.image.len parts.entry.width (T.tail tail.now) (ceil_div parts.entry.good.image.len parts.entry.width)) out.old at out.new result }
{
    let image = parts.good.image;
    let (first, mut next) = match part_digits(kind, parts.width) {
        Some(digit) => (
            image.len / parts.width,
            put_whole_parts(out, at, kind, parts, digit, tail),
        ),
        None => (0, at),
    };
    for i in first..bitvec::parts(image.len, parts.width) {
        let from = i * parts.width;
        let count = parts.width.min(image.len - from);
        next = digits::put_line(out, next, kind, image, BitOffset(from), count);
        next = tail.put_tail(out, next, BitOffset(from + count));
    }
    next
}

// The length of a text with one piece for each part of `width` bits: `full` for a whole part, `last`
// for a short last one.
pub fn parts_length(len: usize, width: usize, full: usize, last: usize) -> usize
    requires { (0 < width) × (len < 2 ^ 31) × (full < 2 ^ 31) × (last < 2 ^ 31) }
    ensures { result ≡ len / width * full + cond (eqb (len % width) 0) 0 last }
{
    let behind = if len % width == 0 { 0 } else { last };
    len / width * full + behind
}
