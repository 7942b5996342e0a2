// The bytes of an image as an array of C (document 01, module 4; the Rust's `format_c_array`). It
// answers a text and its length, or refusal 1, 2, 4 or 8.
ghost use Rattle.std.specs.Prelude.{◌≡◌, List, ◌++◌, ℕ, ◌+◌, ◌≤◌, length};
ghost use Rattle.output.specs.Ascii.{ascii};
ghost use Rattle.output.specs.Writes.{Writes};
ghost use Rattle.outcome.specs.Outcome.{Exports};
ghost use Rattle.format_bytes.specs.InnerRadix.{radix_number};
ghost use Rattle.format_bytes.specs.CArray.{address_comment, address_width, c_array_text, c_array_outcome};

use crate::byte_list::{ByteList, ByteRadix, LineStart, list_length, put_list};
use bitvec::{GoodImage, Image};
use numbers::{Letters, Radix};
use outcome::{Export, Refusal};

// A line starts with the newline and a comment that has the address in `width` digits.
#[derive(Clone, Copy)]
struct Comment {
    width: usize,
}

// Stores the comment with the address `k`.
#[tactic(auto, using(crate::proofs::Lengths::comment_length, numbers::proofs::Digits::number_length, numbers::proofs::Digits::padded_length))]
fn put_comment(out: &mut [u8], at: usize, width: usize, k: usize) -> usize
    requires { at + length (address_comment width k) ≤ length out.old }
    ensures { Writes (address_comment width k) out.old at out.new result }
{
    let mut next = output::put_all(out, at, b"\t/* 0x");
    next = numbers::put_padded(out, next, Letters::Lower, k as u64, Radix::HEX, b'0', width);
    output::put_all(out, next, b" */ ")
}

impl LineStart for Comment {
    ghost line_start = { λ start k. ascii "\n" ++ address_comment start.width k };

    fn put_start(self, out: &mut [u8], at: usize, k: usize) -> usize {
        let next = output::put(out, at, b'\n');
        put_comment(out, next, self.width, k)
    }
}

// An array: an image, the radix of its bytes, and how many digits the addresses have.
#[derive(Clone, Copy)]
struct CArray<'a> {
    good: GoodImage<'a>,
    radix: ByteRadix,
    width: usize,
    ghost last: { width ≡ address_width good.image.len },
}

impl<'a> CArray<'a> {
    // The length of its text.
    #[tactic(auto, using(crate::proofs::Lengths::width_few))]
    fn length(self) -> usize
        ensures { result ≡ length (c_array_text (radix_number self.entry.radix) self.entry.good.image.bytes.now self.entry.good.image.len) }
    {
        let list = list_length(self.good, self.radix, 2, self.width + 11);
        list + self.width + 44
    }

    // Stores its text.
    #[tactic(auto, using(crate::proofs::Lengths::c_array_parts))]
    fn write(self, out: &mut [u8]) -> usize
        requires { length (c_array_text (radix_number self.radix) self.good.image.bytes.now self.good.image.len) ≤ length out.old }
        ensures { Writes (c_array_text (radix_number self.entry.radix) self.entry.good.image.bytes.now self.entry.good.image.len) out.old 0 out.new result }
    {
        let width = self.width;
        let list = ByteList {
            good: self.good,
            radix: self.radix,
            separator: b", ",
        };
        let mut next = output::put_all(out, 0, b"const unsigned char data[] = {\n");
        next = put_comment(out, next, width, 0);
        next = put_list(out, next, list, Comment { width });
        output::put_all(out, next, b"\n};")
    }
}

// The bytes in radix 10 or 16 of an image that is not empty, sixteen a line behind their address.
#[tactic(auto, using(outcome::proofs::Outcome::exports_text, outcome::proofs::Outcome::exports_no_room), unfolding(bitvec::specs::Size::ceil_div, crate::specs::CArray::c_array_outcome))]
pub fn format_c_array(image: Image, radix: usize, out: &mut [u8]) -> Export
    ensures { Exports (c_array_outcome image.entry.bytes.now image.entry.len radix (length out.old)) result out.old out.new }
{
    let good = image.good().ok_or(Refusal::ImageSize)?;
    let radix = ByteRadix::new(radix).ok_or(Refusal::OptionRange)?;
    if image.len == 0 {
        return Err(Refusal::EmptyImage);
    }
    let count = bitvec::parts(image.len, 8);
    let array = CArray {
        good,
        radix,
        width: numbers::digit_count((count - 1) as u64, 16),
    };
    let needed = array.length();
    if out.len() < needed {
        return Err(Refusal::NoRoom(needed));
    }
    Ok(array.write(out))
}
