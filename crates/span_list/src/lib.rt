// The list of spans that is lent, as two slices of numbers, and its range: refusal 3 of document 01.
#![tactic(auto)]

ghost use Rattle.std.specs.Prelude.{◌≡◌, false, ◌≤◌, ◌<◌, length, MatchOption, MatchResult};
ghost use Rattle.span_list.specs.Range.{long_list, bad_span, fault_at, IsCause};

use bitvec::MAX_BITS;
use ordering::ABSENT;
use outcome::Refusal;

// How many spans a list has at most. Document 01 returns this number for a list that is long, or whose
// slices are not of one length.
pub const MAX_SPANS: usize = 4096;

// The spans of a list: the offsets, with 4294967295 for an absent one, and the sizes. Two slices, since
// document 01 and the C interface lend them so.
#[derive(Clone, Copy)]
pub struct SpanList<'a> {
    pub offsets: &'a [u32],
    pub sizes: &'a [u32],
    pub ghost same_length: { length sizes.now ≡ length offsets.now },
}

// A list in its range: at most 4,096 spans, none of them bad.
#[derive(Clone, Copy)]
pub struct GoodSpans<'a> {
    pub list: SpanList<'a>,
    pub ghost few: { length list.offsets.now ≤ 4096 },
    pub ghost short: { long_list list.offsets.now list.sizes.now ≡ false },
    pub ghost good: { fault_at list.offsets.now list.sizes.now ≡ length list.offsets.now },
}

impl<'a> GoodSpans<'a> {
    // The lent spans, where they are in their range, or refusal 3: its place is that of the first bad
    // span, or the number of a long list.
    #[tactic(auto, unfolding(crate::specs::Range::long_list))]
    pub fn new(offsets: &'a [u32], sizes: &'a [u32]) -> Result<GoodSpans<'a>, Refusal>
        ensures { MatchResult result (λ s. (s.list.offsets.now ≡ offsets.now) × (s.list.sizes.now ≡ sizes.now)) (λ e. IsCause offsets.now sizes.now e) }
    {
        if MAX_SPANS < offsets.len() || offsets.len() != sizes.len() {
            return Err(Refusal::SpanRange(MAX_SPANS));
        }
        let list = SpanList { offsets, sizes };
        match fault_at(list) {
            Some(place) => Err(Refusal::SpanRange(place)),
            None => Ok(GoodSpans { list }),
        }
    }
}

// Whether a span is bad, the second cause.
#[tactic(auto, unfolding(crate::specs::Range::bad_span))]
fn bad_span(offset: u32, size: u32) -> bool
    ensures { result ≡ bad_span offset size }
{
    MAX_BITS < offset as usize + size as usize && offset != ABSENT
}

// Whether a span is bad. No exit is in the loop, so that the compiler makes vector code of it: few lists have
// a bad span, and long ones are looked at in half the time.
fn some_bad(spans: SpanList<'_>) -> bool
    ensures { result ≡ false → fault_at spans.entry.offsets.now spans.entry.sizes.now ≡ length spans.entry.offsets.now }
{
    let mut bad = false;
    for (k, &offset) in spans.offsets.iter().enumerate() {
        bad |= bad_span(offset, spans.sizes[k]);
    }
    bad
}

// The place of the first bad span.
fn fault_at(spans: SpanList<'_>) -> Option<usize>
    ensures { MatchOption result (fault_at spans.entry.offsets.now spans.entry.sizes.now ≡ length spans.entry.offsets.now) (λ p. (p < length spans.entry.offsets.now) × (p ≡ fault_at spans.entry.offsets.now spans.entry.sizes.now)) }
{
    if !some_bad(spans) {
        return None;
    }
    spans
        .offsets
        .iter()
        .zip(spans.sizes)
        .position(|(&offset, &size)| bad_span(offset, size))
}
