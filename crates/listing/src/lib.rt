// The parts of the annotated listing (document 01, module 9; the Rust's `format_annotated`): its spans,
// its options, the widths of its columns, its heading, and the line of a span. A caller has shown that
// there is room.
#![tactic(auto)]

ghost use Rattle.std.specs.Prelude.{◌≡◌, ◌≢◌, true, false, not, ◌||◌, eqb, ◌+◌, ◌≤◌, ◌<◌, max, length, get_or, MatchOption};
ghost use Rattle.std.specs.Option.{ForSome};
ghost use Rattle.output.specs.Writes.{Writes};
ghost use Rattle.digits.specs.Bytes.{base_bits};
ghost use Rattle.numbers.specs.Digits.{digit_count, padded};
ghost use Rattle.ordering.specs.Order.{absent, offset_from};
ghost use Rattle.listing.specs.Listing.{lent, location_from, unequal, out_of_range, bad_annotated, content_need, addr_title, wider, widths_of, heading};

use bitvec::BitOffset;
pub use line::SpanLine;
use numbers::{DigitWidth, Letters, Radix};
use sources::NO_LOCATION;

mod contents;
mod line;

// The spans of a listing, a column for each number of a span, as the C interface lends them; their lengths
// may differ.
#[derive(Clone, Copy)]
pub struct SpanColumns<'a> {
    pub offsets: &'a [u32],
    pub sizes: &'a [u32],
    pub addrs: &'a [u64],
    pub files: &'a [u8],
    pub starts: &'a [u64],
    pub ends: &'a [u64],
}

// A part of a source text: its file, by its number, and a start and an end there. `spans::Location` has no
// file, which document 01's record has beside it.
#[derive(Clone, Copy)]
pub struct Location {
    pub file: u8,
    pub start: u64,
    pub end: u64,
}

// A span of a listing. An offset that is there has not the number of an absent one.
#[derive(Clone, Copy)]
pub struct ListedSpan {
    pub offset: Option<u32>,
    pub size: u32,
    pub addr: u64,
    pub location: Option<Location>,
    pub ghost there: { ForSome offset (λ n. n ≢ absent) },
}

// Spans whose columns are of one length.
#[derive(Clone, Copy)]
pub struct ListedSpans<'a> {
    pub columns: SpanColumns<'a>,
    pub ghost same_sizes: { length columns.sizes.now ≡ length columns.offsets.now },
    pub ghost same_addrs: { length columns.addrs.now ≡ length columns.offsets.now },
    pub ghost same_files: { length columns.files.now ≡ length columns.offsets.now },
    pub ghost same_starts: { length columns.starts.now ≡ length columns.offsets.now },
    pub ghost same_ends: { length columns.ends.now ≡ length columns.offsets.now },
}

impl<'a> SpanColumns<'a> {
    // The location of the span at a place, where its start is not the number of none.
    #[tactic(auto, unfolding(crate::specs::Listing::location_from))]
    fn location(self, place: usize) -> Option<Location>
        requires { (place < length self.files.now) × (place < length self.starts.now) × (place < length self.ends.now) }
        ensures { result ≡ location_from (get_or self.entry.files.now place 0) (get_or self.entry.starts.now place 0) (get_or self.entry.ends.now place 0) }
    {
        let location = Location {
            file: self.files[place],
            start: self.starts[place],
            end: self.ends[place],
        };
        (location.start != NO_LOCATION).then_some(location)
    }
}

impl<'a> ListedSpans<'a> {
    // The spans of the lent columns, or none where these are not of one length, a cause of refusal 3.
    #[tactic(auto, unfolding(crate::specs::Listing::unequal))]
    pub fn new(columns: SpanColumns<'a>) -> Option<ListedSpans<'a>>
        ensures { MatchOption result (unequal (lent columns.entry) || not (eqb (length columns.entry.offsets.now) (length columns.entry.sizes.now)) ≡ true) (λ s. s.columns ≡ columns.entry) }
    {
        let count = columns.offsets.len();
        if count != columns.addrs.len()
            || count != columns.files.len()
            || count != columns.starts.len()
            || count != columns.ends.len()
            || count != columns.sizes.len()
        {
            return None;
        }
        Some(ListedSpans { columns })
    }

    // The span at a place.
    pub fn span(self, place: usize) -> ListedSpan
        requires { place < length self.columns.offsets.now }
        ensures offset { result.offset ≡ offset_from (get_or self.entry.columns.offsets.now place 0) }
        ensures size { result.size ≡ get_or self.entry.columns.sizes.now place 0 }
        ensures addr { result.addr ≡ get_or self.entry.columns.addrs.now place 0 }
        ensures location { result.location ≡ location_from (get_or self.entry.columns.files.now place 0) (get_or self.entry.columns.starts.now place 0) (get_or self.entry.columns.ends.now place 0) }
    {
        ListedSpan {
            offset: ordering::offset_of(self.columns.offsets[place]),
            size: self.columns.sizes[place],
            addr: self.columns.addrs[place],
            location: self.columns.location(place),
        }
    }
}

// The options of a listing. The label switch is 0 for off and 1 for on: a number, since the C interface
// lends it.
#[derive(Clone, Copy)]
pub struct FormatAnnotatedOptions {
    pub base: usize,
    pub addr_base: usize,
    pub digits_per_group: usize,
    pub display_labels: u8,
}

// Options that are in their range, with the width of a digit and the radix of the addresses.
#[derive(Clone, Copy)]
pub struct ListingOptions {
    pub given: FormatAnnotatedOptions,
    pub width: DigitWidth,
    pub radix: Radix,
    pub ghost in_range: { bad_annotated given ≡ false },
    pub ghost bits: { width.bits ≡ base_bits given.base },
    pub ghost some: { 0 < width.bits },
    pub ghost group: { (0 < given.digits_per_group) × (given.digits_per_group ≤ 64) },
    pub ghost addresses: { radix.value ≡ given.addr_base },
}

// The widths of the columns: the position's byte and its bit, the logical address, and the contents.
#[derive(Clone, Copy)]
pub struct Widths {
    pub outp: usize,
    pub outp_bit: usize,
    pub addr: usize,
    pub content: usize,
}

// What the lines of a listing have in common: its options, and the widths of its columns. These are
// narrow, so that a length can be counted.
#[derive(Clone, Copy)]
pub struct Layout {
    pub options: ListingOptions,
    pub widths: Widths,
    pub ghost narrow: { widths.outp + widths.outp_bit + widths.addr + widths.content ≤ 516 },
}

// Whether an option but the base is outside its range.
#[tactic(auto, unfolding(crate::specs::Listing::out_of_range))]
fn out_of_range(options: FormatAnnotatedOptions) -> bool
    ensures { result ≡ out_of_range options }
{
    outcome::outside(2, 36, options.addr_base)
        || outcome::outside(1, 64, options.digits_per_group)
        || 1 < options.display_labels
}

impl ListingOptions {
    // The options, or none where one of them is outside its range, the cause of refusal 2.
    #[tactic(auto, using(crate::proofs::Columns::bad_base, crate::proofs::Columns::bad_other, crate::proofs::Columns::none_bad, crate::proofs::Columns::radix_inside, crate::proofs::Columns::group_inside))]
    pub fn new(options: FormatAnnotatedOptions) -> Option<ListingOptions>
        ensures { MatchOption result (bad_annotated options ≡ true) (λ o. o.given ≡ options) }
    {
        let width = digits::base_bits(options.base)?;
        if out_of_range(options) {
            return None;
        }
        let radix = Radix::new(options.addr_base as u64);
        Some(ListingOptions {
            given: options,
            width,
            radix,
        })
    }

    // What the contents of a span of `size` bits ask of the width of their column: 0, which widens no
    // column, where they ask for nothing.
    fn content_need(self, size: u32) -> usize
        ensures { (result ≡ content_need self.given size) × (result ≤ 324) }
    {
        let group = self.given.digits_per_group;
        let digits = bitvec::parts(size as usize, self.width.bits);
        let wide = digits + digits / group;
        if wide < 2 || (group + 1) * 5 < wide {
            return 0;
        }
        wide - 1
    }
}

// The length of the title of the column of addresses.
fn title_length(radix: Radix) -> usize
    ensures { (result ≡ length (addr_title radix.value)) × (result ≤ 14) }
{
    if radix.value == 16 {
        return 4;
    }
    12 + numbers::digit_count(radix.value, 10)
}

// Stores the title of the column of addresses.
fn put_title(out: &mut [u8], at: usize, radix: Radix, width: usize) -> usize
    requires { at + max width (length (addr_title radix.value)) ≤ length out.old }
    ensures { Writes (padded 32 width (addr_title radix.value)) out.old at out.new result }
{
    if radix.value == 16 {
        return numbers::put_right(out, at, b"addr", width);
    }
    let free = width.saturating_sub(title_length(radix));
    let mut next = output::put_fill(out, at, b' ', free);
    next = output::put_all(out, next, b"addr (base ");
    next = numbers::put_number(out, next, Letters::Lower, radix.value, Radix::DECIMAL);
    output::put_all(out, next, b")")
}

impl Layout {
    // The widths with one span more.
    fn wider(self, offset: u32, size: u32, addr: u64) -> Widths
        ensures widths { result ≡ wider self.options.given self.widths offset size addr }
        ensures position { (result.outp ≤ max self.widths.outp 64) × (result.outp_bit ≤ max self.widths.outp_bit 64) }
        ensures others { (result.addr ≤ max self.widths.addr 64) × (result.content ≤ max self.widths.content 324) }
    {
        let Layout { options, widths } = self;
        let radix = options.radix.value;
        let from = BitOffset::from(offset);
        let byte = numbers::digit_count(from.byte() as u64, radix);
        let bit = numbers::digit_count(from.shift() as u64, radix);
        let address = numbers::digit_count(addr, radix);
        let content = options.content_need(size);
        Widths {
            outp: widths.outp.max(byte),
            outp_bit: widths.outp_bit.max(bit),
            addr: widths.addr.max(address),
            content: widths.content.max(content),
        }
    }

    // The length of the heading.
    pub fn heading_length(self) -> usize
        ensures { (result ≡ length (heading self.options.given self.widths)) × (result ≤ 700) }
    {
        let Layout { options, widths } = self;
        let outp = (widths.outp + widths.outp_bit + 1).max(4);
        let addr = widths.addr.max(title_length(options.radix));
        let base = numbers::digit_count(options.given.base as u64, 10);
        21 + outp + addr + base
    }

    // Stores the heading.
    pub fn put_heading(self, out: &mut [u8]) -> usize
        requires { length (heading self.options.given self.widths) ≤ length out.old }
        ensures { Writes (heading self.options.given self.widths) out.old 0 out.new result }
    {
        let Layout { options, widths } = self;
        let mut next = output::put(out, 0, b' ');
        next = numbers::put_right(out, next, b"outp", widths.outp + widths.outp_bit + 1);
        next = output::put_all(out, next, b" | ");
        next = put_title(out, next, options.radix, widths.addr);
        next = output::put_all(out, next, b" | data (base ");
        let base = options.given.base as u64;
        next = numbers::put_number(out, next, Letters::Lower, base, Radix::DECIMAL);
        output::put_all(out, next, b")\n\n")
    }
}

// The widths over all spans that have an offset. The loop counts places, since one place is that of
// three numbers: three iterators in step are no plainer.
pub fn column_widths(options: ListingOptions, spans: ListedSpans) -> Widths
    ensures measured { let c = spans.entry.columns in result ≡ widths_of options.given c.offsets.now c.sizes.now c.addrs.now (length c.offsets.now) }
    ensures narrow { result.outp + result.outp_bit + result.addr + result.content ≤ 516 }
{
    let SpanColumns {
        offsets,
        sizes,
        addrs,
        ..
    } = spans.columns;
    let title = title_length(options.radix);
    let mut widths = Widths {
        outp: 2,
        outp_bit: 1,
        addr: title,
        content: options.given.digits_per_group,
    };
    for (p, &number) in offsets.iter().enumerate() {
        if let Some(offset) = ordering::offset_of(number) {
            widths = Layout { options, widths }.wider(offset, sizes[p], addrs[p]);
        }
    }
    widths
}
