// The annotated listing (document 01, module 9; the Rust's `format_annotated`): position, logical
// address, contents and source excerpt of each span. It answers a text and its length, or refusal 1, 2,
// 3, 6, 7 or 8.
#![tactic(auto)]

ghost use Rattle.std.specs.Prelude.{◌≤◌, length};
ghost use Rattle.outcome.specs.Outcome.{Exports};
ghost use Rattle.listing.specs.Listing.{lent};
ghost use Rattle.annotated.specs.Annotated.{listed_outcome, annotated_outcome};

use bitvec::Image;
use listed::Listed;
use listing::{FormatAnnotatedOptions, Layout, ListedSpans, ListingOptions, SpanColumns};
use outcome::{Export, Refusal};
use sources::Sources;
use span_list::{GoodSpans, MAX_SPANS};

mod faults;
mod listed;

// The listing of spans in their range, or refusal 6, 7 or 8.
fn format_listed(
    image: Image,
    options: ListingOptions,
    spans: ListedSpans,
    sources: Sources,
    out: &mut [u8],
) -> Export
    requires { length spans.columns.offsets.now ≤ 4096 }
    ensures { Exports (listed_outcome image.entry.bytes.now image.entry.len options.given (lent spans.entry.columns) sources.entry.firmware.now sources.entry.protocol.now (length out.old)) result out.old out.new }
{
    if sources::bad_text(sources.firmware) || sources::bad_text(sources.protocol) {
        return Err(Refusal::SourceText);
    }
    if let Some(place) = faults::span_fault(options.given, spans, sources) {
        return Err(Refusal::SpanFault(place));
    }
    let widths = listing::column_widths(options, spans);
    let layout = Layout { options, widths };
    let listed = Listed {
        image,
        layout,
        spans,
        sources,
    };
    listed.list(out)
}

// The listing of the lent spans. A span is an offset, with 4294967295 for an absent one, a size, a
// logical address, a file, and a start and an end there, in six columns of one length.
#[tactic(auto, unfolding(crate::specs::Annotated::annotated_outcome))]
pub fn format_annotated(
    image: Image,
    spans: SpanColumns,
    sources: Sources,
    options: FormatAnnotatedOptions,
    out: &mut [u8],
) -> Export
    ensures { Exports (annotated_outcome image.entry.bytes.now image.entry.len options (lent spans.entry) sources.entry.firmware.now sources.entry.protocol.now (length out.old)) result out.old out.new }
{
    let image = image.good().ok_or(Refusal::ImageSize)?;
    let options = ListingOptions::new(options).ok_or(Refusal::OptionRange)?;
    let spans = ListedSpans::new(spans).ok_or(Refusal::SpanRange(MAX_SPANS))?;
    // That the list is in its range is all that is used of it, and by the proof alone: its numbers are in
    // the columns, whose lengths it compares once more.
    let list = GoodSpans::new(spans.columns.offsets, spans.columns.sizes)?;
    format_listed(image.image, options, spans, sources, out)
}
