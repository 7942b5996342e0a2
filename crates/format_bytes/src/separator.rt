// The list of an image's bytes with a separator (document 01, module 4; the Rust's
// `format_separator`). It answers a text and its length, or refusal 1, 2 or 8.
ghost use Rattle.std.specs.Prelude.{List, ℕ, ◌+◌, ◌≤◌, length};
ghost use Rattle.output.specs.Ascii.{ascii};
ghost use Rattle.output.specs.Writes.{Writes};
ghost use Rattle.outcome.specs.Outcome.{Exports};
ghost use Rattle.format_bytes.specs.Separator.{separator_outcome};

use crate::byte_list::{ByteList, ByteRadix, LineStart, list_length, put_list};
use bitvec::Image;
use outcome::{Export, Refusal};

// A line starts with the newline alone.
#[derive(Clone, Copy)]
struct Newline;

impl LineStart for Newline {
    ghost line_start = { λ start k. ascii "\n" };

    fn put_start(self, out: &mut [u8], at: usize, k: usize) -> usize {
        output::put(out, at, b'\n')
    }
}

// The bytes in radix 10 or 16, with a separator of at most 256 bytes and sixteen bytes a line.
#[tactic(auto, using(outcome::proofs::Outcome::short), unfolding(crate::specs::Separator::separator_outcome))]
pub fn format_separator(image: Image, radix: usize, separator: &[u8], out: &mut [u8]) -> Export
    ensures { Exports (separator_outcome image.entry.bytes.now image.entry.len radix separator.now (length out.old)) result out.old out.new }
{
    let good = image.good().ok_or(Refusal::ImageSize)?;
    let radix = ByteRadix::new(radix).ok_or(Refusal::OptionRange)?;
    if outcome::too_long(separator) {
        return Err(Refusal::OptionRange);
    }
    let needed = list_length(good, radix, separator.len(), 1);
    if out.len() < needed {
        return Err(Refusal::NoRoom(needed));
    }
    let list = ByteList {
        good,
        radix,
        separator,
    };
    Ok(put_list(out, 0, list, Newline))
}
