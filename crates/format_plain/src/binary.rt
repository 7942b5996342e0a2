// The binary file of an image (the Rust's `format_binary`).
ghost use Rattle.std.specs.Prelude.{◌≡◌, [], ◌∷◌, ◌*◌, ◌≤◌, length};
ghost use Rattle.std.specs.Result.{result_map_both};
ghost use Rattle.bitvec.specs.Bits.{byte_at};
ghost use Rattle.bitvec.specs.Size.{ceil_div};
ghost use Rattle.output.specs.Pieces.{pieces};
ghost use Rattle.output.specs.Writes.{Writes};
ghost use Rattle.outcome.specs.Outcome.{Exports};
ghost use Rattle.format_plain.specs.Binary.{binary_text, binary_outcome, padding_told, padded_in};

use bitvec::{BitOffset, GoodImage, Image};
use outcome::Refusal;

// The text of `format_binary`: its length, and whether padding was added, where the Rust warns. No
// Option: each text has both, which document 01 returns beside one another.
#[derive(Clone, Copy)]
pub struct Binary {
    pub length: usize,
    pub padded: bool,
}

// Stores bytes as they stand. A function for its promise, in which the proofs of its caller speak.
fn put_lent(bytes: &[u8], out: &mut [u8]) -> usize
    requires { length bytes.now ≤ length out.old }
    ensures { Writes (pieces (λ k. byte_at bytes.now (8 * length bytes.now) k ∷ []) (length bytes.now)) out.old 0 out.new result }
{
    output::put_all(out, 0, bytes)
}

// Stores the bytes: the whole ones, and then a last one that the image fills in part.
fn write_binary(image: GoodImage, out: &mut [u8]) -> usize
    requires { ceil_div image.image.len 8 ≤ length out.old }
    ensures { Writes (binary_text image.entry.image.bytes.now image.entry.image.len) out.old 0 out.new result }
{
    let image = image.image;
    let whole = image.len / 8;
    let next = put_lent(&image.bytes[..whole], out);
    if image.len % 8 == 0 {
        return next;
    }
    let last = image.read_byte(BitOffset(whole * 8));
    output::put(out, next, last)
}

// The image's bytes, the last one filled with zeros.
#[tactic(auto, using(outcome::proofs::Outcome::exports_text, outcome::proofs::Outcome::exports_no_room, outcome::proofs::Outcome::room_short, outcome::proofs::Outcome::room_enough, crate::proofs::Lengths::binary_length), unfolding(crate::specs::Binary::binary_outcome))]
pub fn format_binary(image: Image, out: &mut [u8]) -> Result<Binary, Refusal>
    ensures exports { Exports (binary_outcome image.entry.bytes.now image.entry.len (length out.old)) (result_map_both (λ b. b.length) (λ r. r) result) out.old out.new }
    ensures padding { padding_told result ≡ padded_in (binary_outcome image.entry.bytes.now image.entry.len (length out.old)) image.entry.len }
{
    let image = image.good().ok_or(Refusal::ImageSize)?;
    let len = image.image.len;
    let count = bitvec::parts(len, 8);
    if out.len() < count {
        return Err(Refusal::NoRoom(count));
    }
    Ok(Binary {
        length: write_binary(image, out),
        padded: len % 8 != 0,
    })
}
