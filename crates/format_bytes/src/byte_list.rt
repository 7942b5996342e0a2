// The list of an image's bytes that both formats are: its length, and what writes it. A line has
// sixteen bytes.
ghost use Rattle.std.specs.Prelude.{◌≡◌, true, false, List, ◌++◌, ℕ, ◌+◌, ◌*◌, ◌≤◌, ◌<◌, ◌^◌, length, MatchOption};
ghost use Rattle.bitvec.specs.Bits.{byte_at};
ghost use Rattle.bitvec.specs.Size.{ceil_div};
ghost use Rattle.output.specs.Pieces.{pieces, leading, every};
ghost use Rattle.output.specs.Writes.{Writes};
ghost use Rattle.format_bytes.specs.Bytes.{bad_radix, byte_in, byte_list};
ghost use Rattle.format_bytes.specs.InnerRadix.{radix_number};

use bitvec::{BitOffset, GoodImage};
use numbers::Letters;

// The radix of a list's bytes.
#[derive(Clone, Copy)]
pub enum ByteRadix {
    Decimal,
    Hex,
}

impl ByteRadix {
    // The radix that a number names. Any but 10 and 16 is outside its range.
    #[tactic(auto, unfolding(crate::specs::Bytes::bad_radix))]
    pub fn new(number: usize) -> Option<ByteRadix>
        ensures { MatchOption result (bad_radix number ≡ true) (λ r. (radix_number r ≡ number) × (bad_radix number ≡ false)) }
    {
        match number {
            10 => Some(ByteRadix::Decimal),
            16 => Some(ByteRadix::Hex),
            _ => None,
        }
    }
}

// A list of an image's bytes: in what radix they are, and what stands between two.
#[derive(Clone, Copy)]
pub struct ByteList<'a> {
    pub good: GoodImage<'a>,
    pub radix: ByteRadix,
    pub separator: &'a [u8],
}

// How a line of the list starts.
pub trait LineStart: Copy {
    // What the line of byte k starts with.
    ghost line_start: { Self → ℕ → List ℕ };

    // Stores what the line of byte `k` starts with.
    fn put_start(self, out: &mut [u8], at: usize, k: usize) -> usize
        requires { at + length (line_start self k) ≤ length out.old }
        ensures { Writes (line_start self k) out.old at out.new result };
}

// The length of a byte in a radix.
#[tactic(auto, using(crate::proofs::Lengths::decimal_length, crate::proofs::Lengths::decimal_small, crate::proofs::Lengths::hex_length))]
fn byte_length(radix: ByteRadix, byte: u8) -> usize
    ensures { (result ≡ length (byte_in (radix_number radix) byte)) × (result ≤ 4) }
{
    match radix {
        ByteRadix::Decimal => numbers::decimal_count(byte),
        ByteRadix::Hex => 4,
    }
}

// The length of all bytes in a radix, without what stands between them.
#[tactic(auto, using(bitvec::proofs::Size::ceil_most))]
fn bytes_length(good: GoodImage, radix: ByteRadix) -> usize
    ensures { (result ≡ length (pieces (λ k. byte_in (radix_number radix) (byte_at good.entry.image.bytes.now good.entry.image.len k)) (ceil_div good.entry.image.len 8))) × (result < 2 ^ 32) }
{
    let mut total = 0;
    for k in 0..bitvec::parts(good.image.len, 8) {
        let byte = good.image.read_byte(BitOffset(k * 8));
        total += byte_length(radix, byte);
    }
    total
}

// The length of the list of all bytes whose separator has the length `separator` and whose lines
// start with texts of the length `start`.
#[tactic(auto, using(bitvec::proofs::Size::ceil_most))]
pub fn list_length(good: GoodImage, radix: ByteRadix, separator: usize, start: usize) -> usize
    requires { (separator ≤ 2 ^ 16) × (start ≤ 2 ^ 16) }
    ensures length { (s : List ℕ) (line : ℕ → List ℕ) → length s ≡ separator → ((k : ℕ) → k < ceil_div good.entry.image.len 8 → length (line k) ≡ start) → length (byte_list (radix_number radix) s line good.entry.image.bytes.now good.entry.image.len) ≡ result }
    ensures few { result < 2 ^ 60 }
{
    let count = bitvec::parts(good.image.len, 8);
    let between = output::between_length(count, 16, separator + start, separator);
    between + bytes_length(good, radix)
}

// Stores a byte in a radix. The choice is made for each byte: to make it once, each radix would be a type
// with a trait and its law, and be no plainer.
#[tactic(auto, using(crate::proofs::Lengths::decimal_length, crate::proofs::Lengths::hex_length, output::proofs::Writes::writes_length))]
fn put_byte_in(out: &mut [u8], at: usize, radix: ByteRadix, byte: u8) -> usize
    requires { at + length (byte_in (radix_number radix) byte) ≤ length out.old }
    ensures { Writes (byte_in (radix_number radix) byte) out.old at out.new result }
{
    match radix {
        ByteRadix::Decimal => numbers::put_decimal(out, at, byte),
        ByteRadix::Hex => {
            let next = output::put_all(out, at, b"0x");
            numbers::put_byte(out, next, Letters::Lower, byte)
        }
    }
}

// Stores what stands before byte `k`: the separator, and at a multiple of sixteen what a line starts
// with.
#[tactic(auto, using(output::proofs::Writes::writes_nothing), unfolding(output::specs::Pieces::leading, output::specs::Pieces::every))]
fn put_before_byte<S: LineStart>(
    out: &mut [u8],
    at: usize,
    separator: &[u8],
    start: S,
    k: usize,
) -> usize
    requires { at + length (leading (λ i. separator.now ++ every 16 i (S.line_start start i)) k) ≤ length out.old }
    ensures { Writes (leading (λ i. separator.now ++ every 16 i (S.line_start start i)) k) out.old at out.new result }
{
    if k == 0 {
        return at;
    }
    let next = output::put_text(out, at, separator);
    if k % 16 != 0 {
        return next;
    }
    start.put_start(out, next, k)
}

// Stores the list.
#[tactic(auto, using(bitvec::proofs::Size::ceil_most))]
pub fn put_list<S: LineStart>(out: &mut [u8], at: usize, list: ByteList, start: S) -> usize
    requires { at + length (byte_list (radix_number list.radix) list.separator.now (S.line_start start) list.good.image.bytes.now list.good.image.len) ≤ length out.old }
    ensures { Writes (byte_list (radix_number list.entry.radix) list.entry.separator.now (S.line_start start) list.entry.good.image.bytes.now list.entry.good.image.len) out.old at out.new result }
{
    let image = list.good.image;
    let mut next = at;
    for k in 0..bitvec::parts(image.len, 8) {
        next = put_before_byte(out, next, list.separator, start, k);
        let byte = image.read_byte(BitOffset(k * 8));
        next = put_byte_in(out, next, list.radix, byte);
    }
    next
}
