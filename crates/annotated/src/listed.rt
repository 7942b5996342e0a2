// The listing of spans none of which has a fault: its heading, and the lines of those that are shown, in
// the order of their offsets.

ghost use Rattle.std.specs.Prelude.{◌≡◌, List, [], ◌+◌, ◌≤◌, ◌<◌, ◌^◌, length, MatchOption};
ghost use Rattle.output.specs.Writes.{Writes};
ghost use Rattle.outcome.specs.Outcome.{in_room, Exports};
ghost use Rattle.ordering.specs.Order.{in_order};
ghost use Rattle.listing.specs.Listing.{lent, widths_of};
ghost use Rattle.listing.specs.InnerLine.{line_of};
ghost use Rattle.annotated.specs.Annotated.{span_fault};

use crate::faults::{excerpt_at, shown};
use bitvec::Image;
use listing::{Layout, ListedSpans, SpanLine};
use outcome::{Export, Refusal};
use sources::Sources;

// What a listing shows: at most 4,096 spans, none of them with a fault, in columns as wide as their
// numbers ask, and texts of at most 1,048,576 bytes.
#[derive(Clone, Copy)]
pub struct Listed<'a> {
    pub image: Image<'a>,
    pub layout: Layout,
    pub spans: ListedSpans<'a>,
    pub sources: Sources<'a>,
    pub ghost few: { length spans.columns.offsets.now ≤ 4096 },
    pub ghost wide: { layout.widths ≡ widths_of layout.options.given spans.columns.offsets.now spans.columns.sizes.now spans.columns.addrs.now (length spans.columns.offsets.now) },
    pub ghost short_firmware: { length sources.firmware.now ≤ 1048576 },
    pub ghost short_protocol: { length sources.protocol.now ≤ 1048576 },
    pub ghost sound: { span_fault layout.options.given (lent spans.columns) sources.firmware.now sources.protocol.now ≡ length spans.columns.offsets.now },
}

// A place is below the number of spans, which each function asks: a type of such a place would hold the
// spans once more.
impl<'a> Listed<'a> {
    ghost use Rattle.annotated.specs.InnerListed.{shown_line, shown_lines, shown_text};

    // The line of the span at a place, or none where the span is hidden.
    fn line(self, place: usize) -> Option<SpanLine<'a>>
        requires { place < length self.spans.columns.offsets.now }
        ensures { MatchOption result (shown_line self.entry place ≡ []) (λ s. (line_of s ≡ shown_line self.entry place) × (length s.excerpt.now ≤ 1048576)) }
    {
        let span = self.spans.span(place);
        if !shown(self.layout.options.given, span.size) {
            return None;
        }
        let excerpt = excerpt_at(self.sources, span.location)?;
        Some(SpanLine {
            image: self.image,
            layout: self.layout,
            span,
            excerpt,
        })
    }

    // The length of the line of the span at a place, 0 where it is hidden.
    fn shown_length(self, place: usize) -> usize
        requires { place < length self.spans.columns.offsets.now }
        ensures { (result ≡ length (shown_line self.entry place)) × (result < 2 ^ 35) }
    {
        match self.line(place) {
            Some(line) => line.length(),
            None => 0,
        }
    }

    // Stores the line of the span at a place, and nothing where it is hidden.
    fn put_shown(self, out: &mut [u8], at: usize, place: usize) -> usize
        requires place { place < length self.spans.columns.offsets.now }
        requires room { at + length (shown_line self place) ≤ length out.old }
        ensures { Writes (shown_line self.entry place) out.old at out.new result }
    {
        match self.line(place) {
            Some(line) => line.put(out, at),
            None => at,
        }
    }

    // The length of the lines of the spans, whose places in order are lent.
    fn lines_length(self, places: &[u32]) -> usize
        requires { places.now ≡ in_order self.spans.columns.offsets.now }
        ensures { (result ≡ length (shown_lines self.entry)) × (result ≤ 2 ^ 47) }
    {
        let mut needed = 0;
        for &place in places {
            needed += self.shown_length(place as usize);
        }
        needed
    }

    // Stores the lines of the spans, whose places in order are lent.
    fn put_shown_lines(self, out: &mut [u8], at: usize, places: &[u32]) -> usize
        requires places { places.now ≡ in_order self.spans.columns.offsets.now }
        requires room { at + length (shown_lines self) ≤ length out.old }
        ensures { Writes (shown_lines self.entry) out.old at out.new result }
    {
        let mut next = at;
        for &place in places {
            next = self.put_shown(out, next, place as usize);
        }
        next
    }

    // The listing, where the places of the spans in order are lent, or refusal 8.
    fn list_in_order(self, places: &[u32], out: &mut [u8]) -> Export
        requires { places.now ≡ in_order self.spans.columns.offsets.now }
        ensures { Exports (in_room (length out.old) (shown_text self.entry)) result out.old out.new }
    {
        let lines = self.lines_length(places);
        let needed = self.layout.heading_length() + lines;
        if out.len() < needed {
            return Err(Refusal::NoRoom(needed));
        }
        let next = self.layout.put_heading(out);
        Ok(self.put_shown_lines(out, next, places))
    }

    // The listing of at most N spans, or refusal 8. N is bounded as in `ordering::order_within`.
    fn list_within<const N: usize>(self, out: &mut [u8]) -> Export
        requires { (length self.spans.columns.offsets.now ≤ N) × (N ≤ 4096) }
        ensures { Exports (in_room (length out.old) (shown_text self.entry)) result out.old out.new }
    {
        let offsets = self.spans.columns.offsets;
        let mut places = [0u32; N];
        ordering::order_within::<N>(offsets, &mut places);
        self.list_in_order(&places[..offsets.len()], out)
    }

    // The listing, or refusal 8. For few spans less memory is set to zero, and the stack is a third, as in
    // `blocks::get_blocks`.
    pub fn list(self, out: &mut [u8]) -> Export
        ensures { Exports (in_room (length out.old) (shown_text self.entry)) result out.old out.new }
    {
        if self.spans.columns.offsets.len() <= 64 {
            return self.list_within::<64>(out);
        }
        self.list_within::<4096>(out)
    }
}
