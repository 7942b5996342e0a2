// One line of the dump of an image (document 01, module 6): its address, its bytes in digits and its
// bytes as characters.

ghost use Rattle.std.specs.Prelude.{cond, ◌≡◌, [], ◌∷◌, List, ℕ, ◌+◌, ◌*◌, ◌≤◌, ◌<◌, ◌^◌, length};
ghost use Rattle.output.specs.Writes.{Writes};
ghost use Rattle.numbers.specs.Digits.{digit_count};
ghost use Rattle.digits.specs.Bytes.{digits_per_byte, digit_bits};
ghost use Rattle.format_dump.specs.Dump.{dump_digit, char_of, dump_char, dump_byte, digit_column, char_column, dump_line};

use bitvec::{BitOffset, Image};
use digits::ByteDigits;
use numbers::{DigitWidth, Letters, Radix};

// A line: `count` bytes of an image from byte `first` on, in digits of one kind.
#[derive(Clone, Copy)]
pub struct DumpLine<'a> {
    pub image: Image<'a>,
    pub kind: ByteDigits,
    pub first: usize,
    pub count: usize,
    pub ghost low: { first < 2 ^ 32 },
    pub ghost few: { count ≤ 64 },
}

// Stores a digit, a point where its first bit is past the end.
#[tactic(auto, unfolding(crate::specs::Dump::dump_digit))]
fn put_dump_digit(
    out: &mut [u8],
    at: usize,
    image: Image,
    width: DigitWidth,
    from: BitOffset,
) -> usize
    requires { (from.0 + width.bits < 2 ^ 64) × (at < length out.old) }
    ensures { Writes (dump_digit image.entry.bytes.now image.entry.len width.bits from.0 ∷ []) out.old at out.new result }
{
    if image.len <= from.0 {
        return output::put(out, at, b'.');
    }
    digits::put_digit(out, at, image, width, from)
}

// One of two characters.
fn choose(test: bool, yes: u8, no: u8) -> u8
    ensures { result ≡ cond test yes no }
{
    if test { yes } else { no }
}

// The character that a byte is printed as: one choice after the other, so that no branch goes by the byte,
// which a processor would foresee wrongly.
fn char_of(byte: u8) -> u8
    ensures { result ≡ char_of byte }
{
    let mut shown = choose(byte == b'|', b'.', byte);
    shown = choose(byte < b' ', b'.', shown);
    shown = choose(127 < byte, b'.', shown);
    shown = choose(byte == b'\n', b' ', shown);
    shown = choose(byte == b'\r', b' ', shown);
    shown = choose(byte == b'\t', b' ', shown);
    choose(byte == b' ', b' ', shown)
}

// The character of a byte of the image, a point where its first bit is past the end.
#[tactic(auto, unfolding(crate::specs::Dump::dump_char))]
fn dump_char(image: Image, from: BitOffset) -> u8
    requires { from.0 + 8 < 2 ^ 64 }
    ensures { result ≡ dump_char image.entry.bytes.now image.entry.len from.0 }
{
    if image.len <= from.0 {
        return b'.';
    }
    char_of(image.read_byte(from))
}

// The length of a line of `count` bytes whose address is filled to `address` digits.
#[tactic(auto, using(crate::proofs::Lengths::line_length))]
pub fn line_length(kind: ByteDigits, count: usize, address: usize) -> usize
    requires { (count ≤ 64) × (1 ≤ address) × (address < 2 ^ 16) }
    ensures { (bytes : List ℕ) (len first : ℕ) → digit_count 16 first ≤ address → length (dump_line bytes len (digit_bits kind) count address first) ≡ result }
{
    let gaps = output::between_length(count, 4, 1, 0);
    address + gaps + count * (kind.per_byte() + 2) + 9
}

impl<'a> DumpLine<'a> {
    ghost use Rattle.format_dump.specs.InnerTexts.{written_line};

    // Stores the byte of the image from a bit on, in digits, and a space. The digits of a byte that is
    // whole are stored at once: one by one a bindump takes more than twice as long.
    fn put_dump_byte(self, out: &mut [u8], at: usize, from: BitOffset) -> usize
        requires { (from.0 + 8 < 2 ^ 64) × (at + (digits_per_byte self.kind + 1) ≤ length out.old) }
        ensures { Writes (dump_byte self.entry.image.bytes.now self.entry.image.len (digit_bits self.entry.kind) from.0) out.old at out.new result }
    {
        if from.0 + 8 <= self.image.len {
            let next = digits::put_byte_digits(out, at, self.kind, self.image.read_byte(from));
            return output::put(out, next, b' ');
        }
        let width = self.kind.width();
        let mut next = at;
        for j in 0..self.kind.per_byte() {
            next = put_dump_digit(out, next, self.image, width, from.plus(j * width.bits));
        }
        output::put(out, next, b' ')
    }

    // Stores its bytes in digits, each behind what stands between it and the one before it.
    fn put_digit_column(self, out: &mut [u8], at: usize) -> usize
        requires { at + length (digit_column self.image.bytes.now self.image.len (digit_bits self.kind) self.first self.count) ≤ length out.old }
        ensures { Writes (digit_column self.entry.image.bytes.now self.entry.image.len (digit_bits self.entry.kind) self.entry.first self.entry.count) out.old at out.new result }
    {
        let mut next = at;
        for j in 0..self.count {
            next = output::put_between(out, next, 4, j, b' ');
            next = self.put_dump_byte(out, next, BitOffset((self.first + j) * 8));
        }
        next
    }

    // Stores its bytes as characters.
    fn put_char_column(self, out: &mut [u8], at: usize) -> usize
        requires { at + self.count ≤ length out.old }
        ensures { Writes (char_column self.entry.image.bytes.now self.entry.image.len self.entry.first self.entry.count) out.old at out.new result }
    {
        let mut next = at;
        for j in 0..self.count {
            let c = dump_char(self.image, BitOffset((self.first + j) * 8));
            next = output::put(out, next, c);
        }
        next
    }

    // Stores it, its address filled to `address` digits.
    #[tactic(auto, using(crate::proofs::Lengths::line_written))]
    pub fn put_line(self, out: &mut [u8], at: usize, address: usize) -> usize
        requires fits { digit_count 16 self.first ≤ address }
        requires room { at + length (written_line self address) ≤ length out.old }
        ensures { Writes (written_line self.entry address) out.old at out.new result }
    {
        let mut next = output::put(out, at, b' ');
        next = numbers::put_column(
            out,
            next,
            Letters::Lower,
            self.first as u64,
            Radix::HEX,
            b'0',
            address,
        );
        next = output::put_all(out, next, b" | ");
        next = self.put_digit_column(out, next);
        next = output::put_all(out, next, b"| ");
        next = self.put_char_column(out, next);
        output::put_all(out, next, b" |\n")
    }
}
