// The dump of an image (document 01, module 6; the Rust's `format_dump`): addresses, digits and
// characters, line by line. It answers a text and its length, or refusal 1, 2 or 8.
#![tactic(auto)]

ghost use Rattle.std.specs.Prelude.{◌≡◌, true, false, ◌-◌, ◌*◌, ◌≤◌, ◌<◌, length, MatchOption};
ghost use Rattle.output.specs.Writes.{Writes};
ghost use Rattle.outcome.specs.Outcome.{Exports};
ghost use Rattle.numbers.specs.Digits.{digit_count};
ghost use Rattle.digits.specs.Bytes.{digit_bits};
ghost use Rattle.format_dump.specs.Dump.{in_range, dump_lines, dump_outcome, bindump, hexdump};

use bitvec::{GoodImage, Image};
use digits::ByteDigits;
use line::DumpLine;
use outcome::{Export, Refusal};

mod line;

// What a dump looks like: the bits of a digit, those of a byte, and the bytes of a line.
#[derive(Clone, Copy)]
pub struct DumpOptions {
    pub digit_bits: usize,
    pub byte_bits: usize,
    pub bytes_per_line: usize,
}

impl DumpOptions {
    // The two presets of document 01. One digit for each bit, 8 bytes a line.
    pub const BINDUMP: DumpOptions = DumpOptions {
        digit_bits: 1,
        byte_bits: 8,
        bytes_per_line: 8,
    };

    // Hexadecimal digits, 16 bytes a line.
    pub const HEXDUMP: DumpOptions = DumpOptions {
        digit_bits: 4,
        byte_bits: 8,
        bytes_per_line: 16,
    };

    // Whether the options are in their range; where not, the answer is refusal 2.
    #[tactic(auto, unfolding(crate::specs::Dump::in_range))]
    pub fn in_range(options: DumpOptions) -> bool
        ensures { result ≡ in_range options }
    {
        (options.digit_bits == 1 || options.digit_bits == 4)
            && options.byte_bits == 8
            && !outcome::outside(1, 64, options.bytes_per_line)
    }
}

// How many lines of `count` bytes an image has, as the definition counts them: `div_ceil` of the whole bytes,
// at least 1, is another formula, and no plainer beside that one.
#[tactic(auto, unfolding(crate::specs::Dump::dump_lines))]
fn dump_lines(good: GoodImage, count: usize) -> usize
    requires { (0 < count) × (count ≤ 64) }
    ensures { result ≡ dump_lines good.entry.image.len count }
{
    let bits = good.image.len;
    if bits < 8 {
        return 1;
    }
    (bits + 8 * (count - 1)) / (8 * count)
}

// A dump: an image, the kind of its digits, the bytes of a line, how many lines there are, and how many
// digits an address has.
#[derive(Clone, Copy)]
struct Dump<'a> {
    good: GoodImage<'a>,
    kind: ByteDigits,
    count: usize,
    lines: usize,
    address: usize,
    ghost few: { (0 < count) × (count ≤ 64) },
    ghost counted: { lines ≡ dump_lines good.image.len count },
    ghost filled: { address ≡ digit_count 16 ((lines - 1) * count) },
}

impl<'a> Dump<'a> {
    ghost use Rattle.format_dump.specs.InnerTexts.{text_of};

    // The dump of an image with some options, where they are in their range.
    #[tactic(auto, using(crate::proofs::Range::kind_none, crate::proofs::Range::bytes_few, crate::proofs::Lengths::lines_few))]
    fn new(good: GoodImage<'a>, options: DumpOptions) -> Option<Dump<'a>>
        ensures { MatchOption result (in_range options ≡ false) (λ d. (in_range options ≡ true) × (d.good ≡ good.entry) × (digit_bits d.kind ≡ options.digit_bits) × (d.count ≡ options.bytes_per_line)) }
    {
        let kind = ByteDigits::with_bits(options.digit_bits)?;
        if !DumpOptions::in_range(options) {
            return None;
        }
        let count = options.bytes_per_line;
        let lines = dump_lines(good, count);
        Some(Dump {
            good,
            kind,
            count,
            lines,
            address: numbers::digit_count(((lines - 1) * count) as u64, 16),
        })
    }

    // The length of its text.
    fn length(self) -> usize
        ensures { result ≡ length (text_of self.entry) }
    {
        self.lines * line::line_length(self.kind, self.count, self.address)
    }

    // Stores its text. A line begins at the byte that its number says.
    fn write(self, out: &mut [u8]) -> usize
        requires { length (text_of self) ≤ length out.old }
        ensures { Writes (text_of self.entry) out.old 0 out.new result }
    {
        let mut next = 0;
        for k in 0..self.lines {
            let line = DumpLine {
                image: self.good.image,
                kind: self.kind,
                first: k * self.count,
                count: self.count,
            };
            next = line.put_line(out, next, self.address);
        }
        next
    }
}

// The dump with any options.
#[tactic(auto, using(outcome::proofs::Outcome::exports_text, outcome::proofs::Outcome::exports_no_room), unfolding(crate::specs::Dump::dump_outcome))]
pub fn format_dump(image: Image, options: DumpOptions, out: &mut [u8]) -> Export
    ensures { Exports (dump_outcome image.entry.bytes.now image.entry.len options (length out.old)) result out.old out.new }
{
    let good = image.good().ok_or(Refusal::ImageSize)?;
    let dump = Dump::new(good, options).ok_or(Refusal::OptionRange)?;
    let needed = dump.length();
    if out.len() < needed {
        return Err(Refusal::NoRoom(needed));
    }
    Ok(dump.write(out))
}

// One digit for each bit, 8 bytes a line: document 01 has a function for each preset.
pub fn format_bindump(image: Image, out: &mut [u8]) -> Export
    ensures { Exports (dump_outcome image.entry.bytes.now image.entry.len bindump (length out.old)) result out.old out.new }
{
    format_dump(image, DumpOptions::BINDUMP, out)
}

// Hexadecimal digits, 16 bytes a line.
pub fn format_hexdump(image: Image, out: &mut [u8]) -> Export
    ensures { Exports (dump_outcome image.entry.bytes.now image.entry.len hexdump (length out.old)) result out.old out.new }
{
    format_dump(image, DumpOptions::HEXDUMP, out)
}
