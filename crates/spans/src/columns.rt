// The numbers of the first records of a slice, in columns: at most one record more than a span list
// may have, by which the core tells that a list is too long. The columns are fields of two structs,
// their numbers at the fronts of arrays: a generic struct may hold no array of its type parameter.
ghost use Rattle.std.specs.Prelude.{◌≡◌, ◌≤◌, min, length, map};
ghost use lib.Seq.{paste};
ghost use Rattle.spans.specs.InnerCopies.{copied_column};
ghost use Rattle.spans.specs.Spans.{offsets_of, sizes_of, addrs_of, files_of, starts_of, ends_of};

use crate::Span;

// How many records a column has room for.
const ROOM: usize = 4097;

// Copies a number of each record to the front of a column, as far as it has room.
fn copy_column<T: Copy, F: Fn(Span) -> T>(spans: &[Span], column: &mut [T], number: F)
    requires { F.IsAlwaysCallable number }
    ensures { (w : Span → T) → ((s : Span) (r : T) → F.post number s r → r ≡ w s) → column.new ≡ paste column.old 0 (map w spans.now) (min (length spans.now) (length column.old)) }
{
    let count = spans.len().min(column.len());
    // By places: what is written through `iter_mut` of the column in step is not known to the proof.
    for (i, &span) in spans[..count].iter().enumerate() {
        column[i] = number(span);
    }
}

// The offsets and sizes.
#[derive(Drop)]
pub struct Columns {
    pub offsets: [u32; 4097],
    pub sizes: [u32; 4097],
    pub count: usize,
    pub ghost room: { (count ≤ length offsets) × (count ≤ length sizes) },
}

impl Columns {
    // Copies those of records.
    pub fn copy(spans: &[Span]) -> Columns
        ensures offsets { result.offsets ≡ copied_column spans.now (offsets_of spans.now) }
        ensures sizes { result.sizes ≡ copied_column spans.now (sizes_of spans.now) }
        ensures count { result.count ≡ min (length spans.now) 4097 }
    {
        let mut offsets: [u32; 4097] = [0; 4097];
        let mut sizes: [u32; 4097] = [0; 4097];
        copy_column(spans, &mut offsets, |span| span.offset_number());
        copy_column(spans, &mut sizes, |span| span.size);
        Columns {
            offsets,
            sizes,
            count: spans.len().min(ROOM),
        }
    }
}

// The other numbers of the same records, which the listing needs too.
#[derive(Drop)]
pub struct ListingColumns {
    pub addrs: [u64; 4097],
    pub files: [u8; 4097],
    pub starts: [u64; 4097],
    pub ends: [u64; 4097],
    pub count: usize,
    pub ghost room: { (count ≤ length addrs) × (count ≤ length files) × (count ≤ length starts) × (count ≤ length ends) },
}

impl ListingColumns {
    // Copies the logical addresses, files, starts and ends of records.
    pub fn copy(spans: &[Span]) -> ListingColumns
        ensures addrs { result.addrs ≡ copied_column spans.now (addrs_of spans.now) }
        ensures files { result.files ≡ copied_column spans.now (files_of spans.now) }
        ensures starts { result.starts ≡ copied_column spans.now (starts_of spans.now) }
        ensures ends { result.ends ≡ copied_column spans.now (ends_of spans.now) }
        ensures count { result.count ≡ min (length spans.now) 4097 }
    {
        let mut addrs: [u64; 4097] = [0; 4097];
        let mut files: [u8; 4097] = [0; 4097];
        let mut starts: [u64; 4097] = [0; 4097];
        let mut ends: [u64; 4097] = [0; 4097];
        copy_column(spans, &mut addrs, |span| span.addr);
        copy_column(spans, &mut files, |span| span.file_handle);
        copy_column(spans, &mut starts, |span| span.start());
        copy_column(spans, &mut ends, |span| span.end());
        ListingColumns {
            addrs,
            files,
            starts,
            ends,
            count: spans.len().min(ROOM),
        }
    }
}
