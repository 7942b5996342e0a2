// Digits and numbers as text, written into the output buffer.
#![tactic(auto)]

ghost use Rattle.std.specs.Int.{w64, to_le_bytes};
ghost use Rattle.std.specs.Prelude.{◌≡◌, ◌+◌, ◌≤◌, ◌<◌, max, length};
ghost use Rattle.output.specs.Writes.{Writes};
ghost use Rattle.numbers.specs.declared.Letters.TheVariants.{Lower};
ghost use Rattle.numbers.specs.Digits.{letter_ten, digit_char, byte_text, digits_of, digit_count, number_text, padded};

use output::{put, put_fill};

// The letters of the digits above nine.
#[derive(Clone, Copy)]
pub enum Letters {
    Lower,
    Upper,
}

// How many bits a digit has: at most 5, since no base is above 32.
#[derive(Clone, Copy)]
pub struct DigitWidth {
    pub bits: usize,
    pub ghost few: { bits ≤ 5 },
}

impl DigitWidth {
    pub const BINARY: DigitWidth = DigitWidth { bits: 1 };

    pub const HEX: DigitWidth = DigitWidth { bits: 4 };
}

// The radix of a number that is written: 2 to 36.
#[derive(Clone, Copy)]
pub struct Radix {
    pub value: u64,
    ghost in_range: { (2 ≤ value) × (value ≤ 36) },
}

impl Radix {
    pub const DECIMAL: Radix = Radix { value: 10 };

    pub const HEX: Radix = Radix { value: 16 };

    // The radix of a number in the range.
    pub fn new(value: u64) -> Radix
        requires { (2 ≤ value) × (value ≤ 36) }
        ensures { result.value ≡ value }
    {
        Radix { value }
    }
}

fn letter_ten(letters: Letters) -> u8
    ensures { result ≡ letter_ten letters }
{
    match letters {
        Letters::Lower => b'a',
        Letters::Upper => b'A',
    }
}

// The character of a digit below 36: `char::from_digit` has small letters alone.
#[tactic(auto, using(crate::proofs::Digits::letter_small), unfolding(crate::specs::Digits::digit_char))]
pub fn digit_char(letters: Letters, digit: u8) -> u8
    requires { digit < 36 }
    ensures { result ≡ digit_char letters digit }
{
    if digit < 10 {
        return b'0' + digit;
    }
    letter_ten(letters) + (digit - 10)
}

// Stores a byte as two hexadecimal digits.
#[tactic(auto, using(output::proofs::Writes::writes_then), unfolding(crate::specs::Digits::byte_text))]
pub fn put_byte(out: &mut [u8], at: usize, letters: Letters, byte: u8) -> usize
    requires { at + 2 ≤ length out.old }
    ensures { Writes (byte_text letters byte) out.old at out.new result }
{
    let next = put(out, at, digit_char(letters, byte / 16));
    put(out, next, digit_char(letters, byte % 16))
}

// The bits of a byte as binary digits, one in each byte of a word, the first digit lowest: seven by a
// product that moves each bit to the end of a byte, and the last one by a shift.
fn digit_word(byte: u8) -> u64
    ensures { to_le_bytes w64 result ≡ digits_of 1 8 byte }
{
    let bits = byte as u64;
    let seven = ((bits * 0x40_2010_0804_0201) >> 7) & 0x1_0101_0101_0101;
    let ones = seven | ((bits & 1) << 56);
    ones | 0x3030_3030_3030_3030
}

// Stores a byte as eight binary digits: those of a word, so that the compiler makes one store of them.
pub fn put_bits(out: &mut [u8], at: usize, byte: u8) -> usize
    requires { at + 8 ≤ length out.old }
    ensures { Writes (digits_of 1 8 byte) out.old at out.new result }
{
    output::put_all(out, at, &digit_word(byte).to_le_bytes())
}

// How many decimal digits a byte has. Beside `digit_count`, which divides in a loop: by comparisons the
// compiler counts many bytes at once.
#[tactic(auto, using(crate::proofs::Digits::count_last, crate::proofs::Decimal::count_two, crate::proofs::Decimal::count_three))]
pub fn decimal_count(byte: u8) -> usize
    ensures { result ≡ digit_count 10 byte }
{
    match byte {
        0..=9 => 1,
        10..=99 => 2,
        _ => 3,
    }
}

// Stores a byte in decimal, with no padding. Each of the three digits is stored, at a place that
// the next one takes where it is not to be seen, so that no branch goes by the byte.
#[tactic(auto, using(crate::proofs::Decimal::tens_place, crate::proofs::Decimal::ones_place, crate::proofs::Digits::count_some))]
pub fn put_decimal(out: &mut [u8], at: usize, byte: u8) -> usize
    requires { at + digit_count 10 byte ≤ length out.old }
    ensures { Writes (number_text Lower 10 byte) out.old at out.new result }
{
    let hundreds = byte / 100;
    let tens = byte / 10;
    let middle = at + usize::from(99 < byte);
    let last = middle + usize::from(9 < byte);
    out[at] = b'0' + hundreds;
    out[middle] = b'0' + (tens - hundreds * 10);
    out[last] = b'0' + (byte - tens * 10);
    last + 1
}

// How many digits `value` has in a radix.
#[tactic(auto, using(crate::proofs::Digits::count_power))]
pub fn digit_count(value: u64, radix: u64) -> usize
    requires { 2 ≤ radix }
    ensures { result ≡ digit_count radix value }
{
    value.max(1).ilog(radix) as usize + 1
}

// Stores a number so that it ends before `end`, and answers where it begins. The last digit is found
// first, so the digits are stored from the back; the loop goes by what is left of the number. Letters,
// value and radix are apart: at most callers two of them are constants, and a struct would be made for
// each call.
#[tactic(auto, using(crate::proofs::Digits::smaller, crate::proofs::Digits::remainder_small))]
fn put_before(out: &mut [u8], end: usize, letters: Letters, value: u64, radix: Radix) -> usize
    requires { (digit_count radix.value value ≤ end) × (end ≤ length out.old) }
    ensures { Writes (number_text letters radix.value value) out.old result out.new end }
{
    let mut place = end;
    let mut rest = value;
    while radix.value <= rest {
        place -= 1;
        let digit = (rest % radix.value) as u8;
        out[place] = digit_char(letters, digit);
        rest /= radix.value;
    }
    place -= 1;
    let first = rest as u8;
    out[place] = digit_char(letters, first);
    place
}

// Stores a number whose digits fit in a width, filled on its left to it. The digits are stored from
// the back, so that they need not be counted.
pub fn put_column(
    out: &mut [u8],
    at: usize,
    letters: Letters,
    value: u64,
    radix: Radix,
    fill: u8,
    width: usize,
) -> usize
    requires { (digit_count radix.value value ≤ width) × (at + width ≤ length out.old) }
    ensures { Writes (padded fill width (number_text letters radix.value value)) out.old at out.new result }
{
    let end = at + width;
    let first = put_before(out, end, letters, value, radix);
    put_fill(out, at, fill, first - at);
    end
}

// Stores a number, filled on its left to a width.
#[tactic(auto, using(crate::proofs::Digits::padded_wider))]
pub fn put_padded(
    out: &mut [u8],
    at: usize,
    letters: Letters,
    value: u64,
    radix: Radix,
    fill: u8,
    width: usize,
) -> usize
    requires { at + max width (digit_count radix.value value) ≤ length out.old }
    ensures { Writes (padded fill width (number_text letters radix.value value)) out.old at out.new result }
{
    let width = width.max(digit_count(value, radix.value));
    put_column(out, at, letters, value, radix, fill, width)
}

// Stores a number, with no padding.
#[tactic(auto, using(crate::proofs::Digits::padded_none))]
pub fn put_number(out: &mut [u8], at: usize, letters: Letters, value: u64, radix: Radix) -> usize
    requires { at + digit_count radix.value value ≤ length out.old }
    ensures { Writes (number_text letters radix.value value) out.old at out.new result }
{
    let width = digit_count(value, radix.value);
    put_column(out, at, letters, value, radix, b' ', width)
}

// Stores a text, filled with spaces on its left to a width.
pub fn put_right(out: &mut [u8], at: usize, s: &[u8], width: usize) -> usize
    requires { at + max width (length s.now) ≤ length out.old }
    ensures { Writes (padded 32 width s.now) out.old at out.new result }
{
    let next = put_fill(out, at, b' ', width.saturating_sub(s.len()));
    output::put_all(out, next, s)
}
