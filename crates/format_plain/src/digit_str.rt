// The digits of an image (the Rust's `format_str`, `format_binstr` and `format_hexstr`).
ghost use Rattle.std.specs.Prelude.{length};
ghost use Rattle.outcome.specs.Outcome.{Exports};
ghost use Rattle.format_plain.specs.Str.{str_outcome};

use bitvec::{BitOffset, Image};
use numbers::DigitWidth;
use outcome::{Export, Refusal};

// Digits of 1 to 5 bits, the last one filled with zeros. The range is tested here: a `DigitWidth` may
// have no bits, so that its maker would have another range.
#[tactic(auto, using(bitvec::proofs::Size::ceil_reach, outcome::proofs::Outcome::inside, outcome::proofs::Outcome::exports_text, outcome::proofs::Outcome::exports_no_room, crate::proofs::Lengths::str_length), unfolding(crate::specs::Str::str_outcome, crate::specs::Str::str_text))]
pub fn format_str(image: Image, bits_per_digit: usize, out: &mut [u8]) -> Export
    ensures { Exports (str_outcome image.entry.bytes.now image.entry.len bits_per_digit (length out.old)) result out.old out.new }
{
    let image = image.good().ok_or(Refusal::ImageSize)?.image;
    if outcome::outside(1, 5, bits_per_digit) {
        return Err(Refusal::OptionRange);
    }
    let count = bitvec::parts(image.len, bits_per_digit);
    if out.len() < count {
        return Err(Refusal::NoRoom(count));
    }
    let width = DigitWidth {
        bits: bits_per_digit,
    };
    Ok(digits::put_run(out, 0, image, width, BitOffset(0), count))
}

// One digit for each bit. This and the next are exporters of document 01 by these names.
pub fn format_binstr(image: Image, out: &mut [u8]) -> Export
    ensures { Exports (str_outcome image.entry.bytes.now image.entry.len 1 (length out.old)) result out.old out.new }
{
    format_str(image, 1, out)
}

// Hexadecimal digits.
pub fn format_hexstr(image: Image, out: &mut [u8]) -> Export
    ensures { Exports (str_outcome image.entry.bytes.now image.entry.len 4 (length out.old)) result out.old out.new }
{
    format_str(image, 4, out)
}
