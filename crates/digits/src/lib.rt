// The digits of an image, written as text: bytes in digits, runs of digits of one width, and lines in
// hexadecimal whose first digit may be short.
#![tactic(auto)]

ghost use Rattle.std.specs.Prelude.{MatchOption, IfSome, ◌≡◌, ◌≢◌, [], ◌∷◌, ◌+◌, ◌*◌, ◌/◌, ◌≤◌, ◌<◌, ◌^◌, min, length};
ghost use Rattle.output.specs.Writes.{Writes};
ghost use Rattle.digits.specs.Bytes.{base_bits, digits_per_byte, digit_bits, byte_digits};
ghost use Rattle.digits.specs.InnerRun.{run_of};
ghost use Rattle.digits.specs.Run.{digit_at, run, short_digit, hex_line, line_text};

use bitvec::{BitOffset, Image, WholeBytes};
use digit_run::DigitRun;
use numbers::{DigitWidth, Letters};

mod digit_run;

// How many bits a digit has in base 2, 4, 8, 16 or 32; any other number is no base.
#[tactic(auto, unfolding(crate::specs::Bytes::base_bits))]
pub fn base_bits(base: usize) -> Option<DigitWidth>
    ensures { MatchOption result (base_bits base ≡ 0) (λ w. (w.bits ≡ base_bits base) × (0 < w.bits)) }
{
    let bits = match base {
        2 => 1,
        4 => 2,
        8 => 3,
        16 => 4,
        32 => 5,
        _ => return None,
    };
    Some(DigitWidth { bits })
}

// How a byte is written: a digit for each bit, or two hexadecimal digits.
#[derive(Clone, Copy)]
pub enum ByteDigits {
    Binary,
    Hex,
}

impl ByteDigits {
    // The digits of a number of bits, where a byte has a whole number of them and they have a
    // function of their own.
    pub fn with_bits(bits: usize) -> Option<ByteDigits>
        ensures { MatchOption result ((kind : ByteDigits) → bits ≢ digit_bits kind) (λ kind. bits ≡ digit_bits kind) }
    {
        match bits {
            1 => Some(ByteDigits::Binary),
            4 => Some(ByteDigits::Hex),
            _ => None,
        }
    }

    // How many bits a digit has.
    pub fn width(self) -> DigitWidth
        ensures { result.bits ≡ digit_bits self }
    {
        match self {
            ByteDigits::Binary => DigitWidth::BINARY,
            ByteDigits::Hex => DigitWidth::HEX,
        }
    }

    // How many digits a byte has.
    pub fn per_byte(self) -> usize
        ensures { result ≡ digits_per_byte self }
    {
        match self {
            ByteDigits::Binary => 8,
            ByteDigits::Hex => 2,
        }
    }
}

// Stores a byte in digits. The compiler takes this choice out of the loops that it stands in, so that a
// type for each kind would be no faster, and want a trait.
pub fn put_byte_digits(out: &mut [u8], at: usize, kind: ByteDigits, byte: u8) -> usize
    requires { at + digits_per_byte kind ≤ length out.old }
    ensures { Writes (byte_digits kind byte) out.old at out.new result }
{
    match kind {
        ByteDigits::Binary => numbers::put_bits(out, at, byte),
        ByteDigits::Hex => numbers::put_byte(out, at, Letters::Lower, byte),
    }
}

// Stores the digit of `width` from `from` on.
pub fn put_digit(
    out: &mut [u8],
    at: usize,
    image: Image,
    width: DigitWidth,
    from: BitOffset,
) -> usize
    requires { (from.0 + width.bits < 2 ^ 64) × (at < length out.old) }
    ensures { Writes (digit_at image.entry.bytes.now image.entry.len width.bits from.0 ∷ []) out.old at out.new result }
{
    let digit = image.read_bits(from, width.bits);
    output::put(out, at, numbers::digit_char(Letters::Lower, digit))
}

// Stores the digits of a run one by one.
fn put_each(out: &mut [u8], at: usize, digits: DigitRun) -> usize
    requires { at + digits.count ≤ length out.old }
    ensures { Writes (run_of digits.entry) out.old at out.new result }
{
    let mut next = at;
    // The places are computed: a step of no bits is none of `step_by`.
    for k in 0..digits.count {
        let from = digits.from.plus(k * digits.width.bits);
        next = put_digit(out, next, digits.image, digits.width, from);
    }
    next
}

// Stores whole bytes of an image in digits, of which none is tested.
fn put_whole_bytes(out: &mut [u8], at: usize, kind: ByteDigits, bytes: WholeBytes) -> usize
    requires { at + bytes.count * digits_per_byte kind ≤ length out.old }
    ensures { Writes (run bytes.entry.image.bytes.now bytes.entry.image.len (digit_bits kind) (bytes.entry.first * 8) (bytes.entry.count * digits_per_byte kind)) out.old at out.new result }
{
    let mut next = at;
    for &byte in bytes.slice() {
        next = put_byte_digits(out, next, kind, byte);
    }
    next
}

// The whole bytes of the image that a run begins with, at most `most`, where it begins with a byte of the
// image or at its end.
fn leading_bytes<'a>(digits: DigitRun<'a>, most: usize) -> Option<WholeBytes<'a>>
    ensures { IfSome result (λ b. (b.image ≡ digits.entry.image) × (b.first * 8 ≡ digits.entry.from.0) × (b.count ≤ most)) }
{
    if digits.from.shift() != 0 {
        return None;
    }
    let first = digits.from.byte();
    let rest = digits.image.whole_bytes().checked_sub(first)?;
    Some(WholeBytes {
        image: digits.image,
        first,
        count: most.min(rest),
    })
}

// Stores the digits of a run that `count` times eight bits make: whole bytes of the image in a loop of
// their own, and bits across two bytes or behind the image.
#[tactic(auto, using(crate::proofs::Run::bytes_few))]
fn put_bytes(out: &mut [u8], at: usize, kind: ByteDigits, digits: DigitRun, count: usize) -> usize
    requires { (digits.width.bits ≡ digit_bits kind) × (count * digits_per_byte kind ≤ digits.count) × (at + digits.count ≤ length out.old) }
    ensures { Writes (run digits.entry.image.bytes.now digits.entry.image.len digits.entry.width.bits digits.entry.from.0 (count * digits_per_byte kind)) out.old at out.new result }
{
    let (first, mut next) = match leading_bytes(digits, count) {
        Some(bytes) => (bytes.count, put_whole_bytes(out, at, kind, bytes)),
        None => (0, at),
    };
    for k in first..count {
        let byte = digits.image.read_byte(digits.from.plus(k * 8));
        next = put_byte_digits(out, next, kind, byte);
    }
    next
}

// Stores a run of binary or hexadecimal digits: eight or two at once, and then those that are left.
#[tactic(auto, using(crate::proofs::Run::whole_digits, crate::proofs::Run::run_length))]
fn put_by_bytes(out: &mut [u8], at: usize, kind: ByteDigits, digits: DigitRun) -> usize
    requires { (digits.width.bits ≡ digit_bits kind) × (at + digits.count ≤ length out.old) }
    ensures { Writes (run_of digits.entry) out.old at out.new result }
{
    let per = kind.per_byte();
    let count = digits.count / per;
    let next = put_bytes(out, at, kind, digits, count);
    put_each(out, next, digits.behind(count * per))
}

// Stores `count` digits of `width`, from `from` on. It takes the parts of a run and not the run: its
// callers have them apart, and would make one at each call.
pub fn put_run(
    out: &mut [u8],
    at: usize,
    image: Image,
    width: DigitWidth,
    from: BitOffset,
    count: usize,
) -> usize
    requires { (from.0 + count * width.bits < 2 ^ 64) × (at + count ≤ length out.old) }
    ensures { Writes (run image.entry.bytes.now image.entry.len width.bits from.0 count) out.old at out.new result }
{
    let digits = DigitRun {
        image,
        width,
        from,
        count,
    };
    match ByteDigits::with_bits(width.bits) {
        Some(kind) => put_by_bytes(out, at, kind, digits),
        None => put_each(out, at, digits),
    }
}

// Stores the digit of `width` from `from` on: no bits make no digit.
fn put_short(out: &mut [u8], at: usize, image: Image, width: DigitWidth, from: BitOffset) -> usize
    requires { (from.0 + width.bits < 2 ^ 64) × (at + min 1 width.bits ≤ length out.old) }
    ensures { Writes (short_digit image.entry.bytes.now image.entry.len width.bits from.0) out.old at out.new result }
{
    if width.bits == 0 {
        return at;
    }
    put_digit(out, at, image, width, from)
}

// Stores `count` bits from `from` on in hexadecimal, the first digit short where `count` is not a
// multiple of 4.
pub fn put_hex_line(out: &mut [u8], at: usize, image: Image, from: BitOffset, count: usize) -> usize
    requires { (from.0 + count < 2 ^ 64) × (at + (count + 3) / 4 ≤ length out.old) }
    ensures { Writes (hex_line image.entry.bytes.now image.entry.len from.0 count) out.old at out.new result }
{
    let short = count % 4;
    let next = put_short(out, at, image, DigitWidth { bits: short }, from);
    put_run(
        out,
        next,
        image,
        DigitWidth::HEX,
        from.plus(short),
        count / 4,
    )
}

// Stores `count` bits from `from` on as a line of digits of one kind.
#[tactic(auto, using(crate::proofs::Run::line_digits), unfolding(crate::specs::Run::line_text, bitvec::specs::Size::ceil_div))]
pub fn put_line(
    out: &mut [u8],
    at: usize,
    kind: ByteDigits,
    image: Image,
    from: BitOffset,
    count: usize,
) -> usize
    requires { (from.0 + count < 2 ^ 64) × (at + length (line_text kind image.bytes.now image.len from.0 count) ≤ length out.old) }
    ensures { Writes (line_text kind image.entry.bytes.now image.entry.len from.0 count) out.old at out.new result }
{
    match kind {
        ByteDigits::Binary => put_run(out, at, image, DigitWidth::BINARY, from, count),
        ByteDigits::Hex => put_hex_line(out, at, image, from, count),
    }
}
