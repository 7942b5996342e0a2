// The spans that a listing cannot show, refusal 7, and the excerpts of those that it can.

ghost use Rattle.std.specs.Prelude.{◌≡◌, true, false, ◌||◌, ltb, ℕ, ◌<◌, length, MatchOption};
ghost use Rattle.ordering.specs.Order.{offset_from};
ghost use Rattle.sources.specs.Sources.{source, excerpt_of};
ghost use Rattle.listing.specs.Listing.{lent, location_from, shown};
ghost use Rattle.annotated.specs.Annotated.{misplaced, faulty, span_fault};

use listing::{FormatAnnotatedOptions, ListedSpan, ListedSpans, Location};
use sources::Sources;

// Whether a span is shown.
#[tactic(auto, unfolding(listing::specs::Listing::shown))]
pub fn shown(options: FormatAnnotatedOptions, size: u32) -> bool
    ensures { result ≡ shown options size }
{
    options.display_labels != 0 || size != 0
}

// Whether a location is in none of the texts.
fn in_no_text(sources: Sources, location: Location) -> bool
    ensures { result ≡ (ltb 1 location.file || (ltb location.end location.start || ltb (length (source sources.entry.firmware.now sources.entry.protocol.now location.file)) location.end)) }
{
    1 < location.file
        || location.end < location.start
        || (sources.source_length(location.file) as u64) < location.end
}

// The excerpt at a location, or none where no text has it.
pub fn excerpt_at<'a>(sources: Sources<'a>, location: Option<Location>) -> Option<&'a [u8]>
    ensures { let f = sources.entry.firmware.now in let p = sources.entry.protocol.now in (file start end : ℕ) → location ≡ location_from file start end
        → MatchOption result (misplaced f p file start end ≡ true) (λ t. (misplaced f p file start end ≡ false) × (t.now ≡ excerpt_of f p file start end)) }
{
    let location = location?;
    if in_no_text(sources, location) {
        return None;
    }
    let Location { file, start, end } = location;
    Some(sources.excerpt(file, start as usize, end as usize))
}

// Whether a span is shown and cannot be.
fn faulty(options: FormatAnnotatedOptions, sources: Sources, span: ListedSpan) -> bool
    ensures { (number file start end : ℕ) → span.offset ≡ offset_from number → span.location ≡ location_from file start end → result ≡ faulty options sources.entry.firmware.now sources.entry.protocol.now number span.size file start end }
{
    let ListedSpan {
        offset,
        size,
        location,
        ..
    } = span;
    shown(options, size)
        && (excerpt_at(sources, location).is_none() || offset.is_none() && size != 0)
}

// The place of the first span that is shown and cannot be.
pub fn span_fault(
    options: FormatAnnotatedOptions,
    spans: ListedSpans,
    sources: Sources,
) -> Option<usize>
    ensures { let offsets = spans.entry.columns.offsets.now in let fault = span_fault options (lent spans.entry.columns) sources.entry.firmware.now sources.entry.protocol.now in MatchOption result (fault ≡ length offsets) (λ p. (p < length offsets) × (p ≡ fault)) }
{
    // By places: a span's numbers are in six columns.
    for p in 0..spans.columns.offsets.len() {
        if faulty(options, sources, spans.span(p)) {
            return Some(p);
        }
    }
    None
}
