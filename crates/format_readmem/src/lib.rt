// The memory files of Verilog (document 01, module 3; the Rust's `format_readmemb` and
// `format_readmemh`). Each answers a text and its length, or refusal 1, 2 or 8.
#![tactic(auto)]

ghost use Rattle.std.specs.Prelude.{◌≡◌, ◌+◌, length};
ghost use Rattle.output.specs.Ascii.{ascii};
ghost use Rattle.outcome.specs.Outcome.{Exports};
ghost use Rattle.format_readmem.specs.Readmem.{readmem_text, readmem_outcome, readmemb_outcome, readmemh_outcome};

use bitvec::{BitOffset, Image};
use digits::ByteDigits;
use image_parts::{ImageParts, PartTail};
use outcome::{Export, Refusal};

// What stands behind a line: a newline.
struct Newline;

impl PartTail for Newline {
    ghost tail = { λ line end. ascii "\n" };

    fn put_tail(&self, out: &mut [u8], at: usize, end: BitOffset) -> usize {
        output::put(out, at, b'\n')
    }
}

// The length of the file.
#[tactic(auto, using(crate::proofs::Lengths::digit_some, crate::proofs::Lengths::digits_most, crate::proofs::Lengths::readmem_length))]
fn file_length(kind: ByteDigits, parts: ImageParts) -> usize
    ensures { result ≡ length (readmem_text kind parts.entry.good.image.bytes.now parts.entry.good.image.len parts.entry.width) }
{
    let len = parts.good.image.len;
    let digit = kind.width().bits;
    let full = bitvec::parts(parts.width, digit) + 1;
    let last = bitvec::parts(len % parts.width, digit) + 1;
    image_parts::parts_length(len, parts.width, full, last)
}

// The file of one kind: a digit for each bit, or hexadecimal digits.
#[tactic(auto, using(outcome::proofs::Outcome::exports_text, outcome::proofs::Outcome::exports_no_room, crate::proofs::Lengths::readmem_parts), unfolding(crate::specs::Readmem::readmem_outcome))]
fn format_readmem(kind: ByteDigits, image: Image, width: usize, out: &mut [u8]) -> Export
    ensures { Exports (readmem_outcome kind image.entry.bytes.now image.entry.len width (length out.old)) result out.old out.new }
{
    let good = image.good().ok_or(Refusal::ImageSize)?;
    let parts = ImageParts::new(good, width).ok_or(Refusal::OptionRange)?;
    let needed = file_length(kind, parts);
    if out.len() < needed {
        return Err(Refusal::NoRoom(needed));
    }
    Ok(image_parts::put_parts(out, 0, kind, parts, &Newline))
}

// The file that `$readmemb` reads: lines of 1 to 4,096 bits.
pub fn format_readmemb(image: Image, width: usize, out: &mut [u8]) -> Export
    ensures { Exports (readmemb_outcome image.entry.bytes.now image.entry.len width (length out.old)) result out.old out.new }
{
    format_readmem(ByteDigits::Binary, image, width, out)
}

// The file that `$readmemh` reads: lines of 1 to 4,096 bits, in hexadecimal.
pub fn format_readmemh(image: Image, width: usize, out: &mut [u8]) -> Export
    ensures { Exports (readmemh_outcome image.entry.bytes.now image.entry.len width (length out.old)) result out.old out.new }
{
    format_readmem(ByteDigits::Hex, image, width, out)
}
