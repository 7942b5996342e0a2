// The memory initialization file (document 01, module 5; the Rust's `format_mif`). It answers a text
// and its length, or refusal 1, 4 or 8.
#![tactic(auto)]

ghost use Rattle.std.specs.Prelude.{◌≡◌, ◌+◌, ◌-◌, ◌≤◌, ◌<◌, ◌^◌, length};
ghost use Rattle.bitvec.specs.Size.{ceil_div};
ghost use Rattle.output.specs.Pieces.{pieces};
ghost use Rattle.output.specs.Writes.{Writes};
ghost use Rattle.outcome.specs.Outcome.{Exports};
ghost use Rattle.numbers.specs.Digits.{digit_count};
ghost use Rattle.format_mif.specs.Mif.{mif_line, mif_text, mif_outcome};

use bitvec::{BitOffset, GoodImage, Image};
use numbers::{Letters, Radix};
use outcome::{Export, Refusal};

// A file: an image, how many bytes it has, and how many digits the addresses have.
#[derive(Clone, Copy)]
struct Mif<'a> {
    good: GoodImage<'a>,
    count: usize,
    width: usize,
    ghost all: { count ≡ ceil_div good.image.len 8 },
    ghost few: { count < 2 ^ 32 },
    ghost last: { width ≡ digit_count 16 (count - 1) },
}

impl<'a> Mif<'a> {
    // The length of its text.
    #[tactic(auto, using(crate::proofs::Lengths::counts_below))]
    fn length(self) -> usize
        ensures { result ≡ length (mif_text self.entry.good.image.bytes.now self.entry.good.image.len) }
    {
        let depth = numbers::digit_count(self.count as u64, 10);
        depth + self.count * (self.width + 7) + 79
    }

    // Stores the line of byte `k`.
    #[tactic(auto, using(crate::proofs::Lengths::mif_line_length, numbers::proofs::Digits::padded_length, numbers::proofs::Digits::number_length), unfolding(numbers::specs::Digits::byte_text))]
    fn put_line(self, out: &mut [u8], at: usize, k: usize) -> usize
        requires inside { k < self.count }
        requires room { at + length (mif_line self.good.image.bytes.now self.good.image.len self.width k) ≤ length out.old }
        ensures { Writes (mif_line self.entry.good.image.bytes.now self.entry.good.image.len self.entry.width k) out.old at out.new result }
    {
        let letters = Letters::Upper;
        let byte = self.good.image.read_byte(BitOffset(k * 8));
        let mut next = output::put(out, at, b' ');
        next = numbers::put_column(out, next, letters, k as u64, Radix::HEX, b' ', self.width);
        next = output::put_all(out, next, b": ");
        next = numbers::put_byte(out, next, letters, byte);
        output::put_all(out, next, b";\n")
    }

    // Stores all lines.
    fn put_lines(self, out: &mut [u8], at: usize) -> usize
        requires { at + length (pieces (mif_line self.good.image.bytes.now self.good.image.len self.width) self.count) ≤ length out.old }
        ensures { Writes (pieces (mif_line self.entry.good.image.bytes.now self.entry.good.image.len self.entry.width) self.entry.count) out.old at out.new result }
    {
        let mut next = at;
        for k in 0..self.count {
            next = self.put_line(out, next, k);
        }
        next
    }

    // Stores its text.
    #[tactic(auto, using(crate::proofs::Lengths::mif_parts, numbers::proofs::Digits::number_length))]
    fn write(self, out: &mut [u8]) -> usize
        requires { length (mif_text self.good.image.bytes.now self.good.image.len) ≤ length out.old }
        ensures { Writes (mif_text self.entry.good.image.bytes.now self.entry.good.image.len) out.old 0 out.new result }
    {
        let count = self.count as u64;
        let mut next = output::put_all(out, 0, b"DEPTH = ");
        next = numbers::put_number(out, next, Letters::Lower, count, Radix::DECIMAL);
        next = output::put_all(
            out,
            next,
            b";\nWIDTH = 8;\nADDRESS_RADIX = HEX;\nDATA_RADIX = HEX;\n\nCONTENT\nBEGIN\n",
        );
        next = self.put_lines(out, next);
        output::put_all(out, next, b"END;")
    }
}

// A line for each byte of an image that is not empty.
#[tactic(auto, using(outcome::proofs::Outcome::exports_text, outcome::proofs::Outcome::exports_no_room), unfolding(bitvec::specs::Size::ceil_div, crate::specs::Mif::mif_outcome))]
pub fn format_mif(image: Image, out: &mut [u8]) -> Export
    ensures { Exports (mif_outcome image.entry.bytes.now image.entry.len (length out.old)) result out.old out.new }
{
    let good = image.good().ok_or(Refusal::ImageSize)?;
    if image.len == 0 {
        return Err(Refusal::EmptyImage);
    }
    let count = bitvec::parts(image.len, 8);
    let width = numbers::digit_count((count - 1) as u64, 16);
    let file = Mif { good, count, width };
    let needed = file.length();
    if out.len() < needed {
        return Err(Refusal::NoRoom(needed));
    }
    Ok(file.write(out))
}
