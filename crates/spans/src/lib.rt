// The span record (document 01, "What an exporter is lent"; the Rust's `BitVecSpan`), and the records
// of a slice as columns of numbers, which is how the core takes them.
#![tactic(auto)]

ghost use Rattle.std.specs.Prelude.{◌≡◌};
ghost use Rattle.ordering.specs.Order.{offset_from};
ghost use Rattle.spans.specs.Spans.{offset_number, start_number, end_number, location_from};

pub mod columns;

use ordering::ABSENT;
use sources::NO_LOCATION;

// A start and an end in a source text.
#[derive(Clone, Copy, PartialEq, Eq)]
pub struct Location {
    pub start: u64,
    pub end: u64,
}

// A span: where it stands in the image, its size in bits, its logical address, and the part of a
// source text that it comes from.
#[derive(Clone, Copy, PartialEq, Eq)]
pub struct Span {
    pub offset: Option<u32>,
    pub size: u32,
    pub addr: u64,
    pub file_handle: u8,
    pub location: Option<Location>,
}

// The location that two numbers of the core stand for.
#[tactic(auto, unfolding(crate::specs::Spans::location_from))]
fn location_of(start: u64, end: u64) -> Option<Location>
    ensures { result ≡ location_from start end }
{
    (start != NO_LOCATION).then_some(Location { start, end })
}

impl Span {
    // The record of the core's numbers.
    pub fn new(offset: u32, size: u32, addr: u64, file_handle: u8, start: u64, end: u64) -> Span
        ensures { result ≡ record { offset = offset_from offset; size = size; addr = addr; file_handle = file_handle; location = location_from start end } }
    {
        let offset = ordering::offset_of(offset);
        let location = location_of(start, end);
        Span {
            offset,
            size,
            addr,
            file_handle,
            location,
        }
    }

    // The offset as the core's number. A present one that would read as absent is one below it,
    // which is too large too.
    pub fn offset_number(self) -> u32
        ensures { result ≡ offset_number self.offset }
    {
        self.offset.map_or(ABSENT, |bits| bits.min(ABSENT - 1))
    }

    // The start as the core's number.
    pub fn start(self) -> u64
        ensures { result ≡ start_number self.location }
    {
        self.location.map_or(NO_LOCATION, |location| location.start)
    }

    // The end as the core's number.
    pub fn end(self) -> u64
        ensures { result ≡ end_number self.location }
    {
        self.location.map_or(NO_LOCATION, |location| location.end)
    }
}
