// The image file of Logisim (document 01, module 5; the Rust's `format_logisim`). It answers a text
// and its length, or refusal 1, 2 or 8.
#![tactic(auto)]

ghost use Rattle.std.specs.Prelude.{◌≡◌, List, ℕ, ◌++◌, ◌+◌, ◌*◌, ◌/◌, ◌%◌, ◌≤◌, ◌<◌, ◌^◌, eqb, length};
ghost use Rattle.output.specs.Ascii.{ascii};
ghost use Rattle.output.specs.Pieces.{every};
ghost use Rattle.output.specs.Writes.{Writes};
ghost use Rattle.outcome.specs.Outcome.{Exports};
ghost use Rattle.format_logisim.specs.Logisim.{chunk_text, logisim_text, logisim_outcome};
ghost use Rattle.format_logisim.specs.InnerBreaks.{breaks};

use bitvec::{BitOffset, Image};
use digits::ByteDigits;
use image_parts::{ImageParts, PartTail};
use outcome::{Export, Refusal};

// What stands behind a chunk: a space, and perhaps a newline.
struct ChunkTail;

impl PartTail for ChunkTail {
    ghost tail = { λ chunk end. ascii " " ++ every 16 (end / 8) (ascii "\n") };

    fn put_tail(&self, out: &mut [u8], at: usize, end: BitOffset) -> usize {
        let next = output::put(out, at, b' ');
        output::put_every(out, next, 16, end.byte(), b'\n')
    }
}

// Whether a newline follows the chunk that ends at a bit.
fn ends_line(end: usize) -> bool
    ensures { result ≡ eqb (end / 8 % 16) 0 }
{
    end / 8 % 16 == 0
}

// The length of a chunk of `count` bits from `from` on, whatever the image.
fn chunk_length(from: usize, count: usize) -> usize
    requires { (from < 2 ^ 32) × (count ≤ 4096) }
    ensures { (bytes : List ℕ) (len : ℕ) → length (chunk_text bytes len from count) ≡ result }
{
    let digits = bitvec::parts(count, 4);
    if ends_line(from + count) {
        return digits + 2;
    }
    digits + 1
}

// How many newlines follow the first `count` chunks of `width` bits.
fn breaks(width: usize, count: usize) -> usize
    requires { (width ≤ 4096) × (count ≤ 128) }
    ensures { (result ≡ breaks width count) × (result ≤ count) }
{
    let mut total = 0;
    // Tried: `(0..count).filter(..).count()`, whose proof did not close: the check knows the calls of the
    // closure, and not that their number is the sum.
    for k in 0..count {
        total += ends_line(k * width + width) as usize;
    }
    total
}

// The length of the chunks that the image fills. Where newlines follow is the same for each 128 chunks.
fn whole_length(parts: ImageParts) -> usize
    ensures { result ≡ parts.entry.good.image.len / parts.entry.width * ((parts.entry.width + 3) / 4 + 1) + breaks parts.entry.width (parts.entry.good.image.len / parts.entry.width) }
{
    let width = parts.width;
    let count = parts.good.image.len / width;
    let digits = bitvec::parts(width, 4);
    let lines = count / 128 * breaks(width, 128);
    count * (digits + 1) + (lines + breaks(width, count % 128))
}

// The length of the file.
fn file_length(parts: ImageParts) -> usize
    ensures { result ≡ length (logisim_text parts.entry.good.image.bytes.now parts.entry.good.image.len parts.entry.width) }
{
    let len = parts.good.image.len;
    let rest = len % parts.width;
    let whole = 9 + whole_length(parts);
    if rest == 0 {
        return whole;
    }
    whole + chunk_length(len - rest, rest)
}

// Stores the file.
fn put_file(out: &mut [u8], parts: ImageParts) -> usize
    requires { length (logisim_text parts.good.image.bytes.now parts.good.image.len parts.width) ≤ length out.old }
    ensures { Writes (logisim_text parts.entry.good.image.bytes.now parts.entry.good.image.len parts.entry.width) out.old 0 out.new result }
{
    let next = output::put_all(out, 0, b"v2.0 raw\n");
    image_parts::put_parts(out, next, ByteDigits::Hex, parts, &ChunkTail)
}

// Chunks of 1 to 4,096 bits in hexadecimal.
#[tactic(auto, using(outcome::proofs::Outcome::exports_text, outcome::proofs::Outcome::exports_no_room), unfolding(crate::specs::Logisim::logisim_outcome))]
pub fn format_logisim(image: Image, bits_per_chunk: usize, out: &mut [u8]) -> Export
    ensures { Exports (logisim_outcome image.entry.bytes.now image.entry.len bits_per_chunk (length out.old)) result out.old out.new }
{
    let good = image.good().ok_or(Refusal::ImageSize)?;
    let parts = ImageParts::new(good, bits_per_chunk).ok_or(Refusal::OptionRange)?;
    let needed = file_length(parts);
    if out.len() < needed {
        return Err(Refusal::NoRoom(needed));
    }
    Ok(put_file(out, parts))
}
