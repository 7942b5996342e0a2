// The spans of a row, `(A,B,..)(A,B,..)` or `-`: columns of their numbers, and records.
ghost use Rattle.std.specs.Prelude.{◌≤◌};

use crate::row::{longer, number_or, value};
use ordering::ABSENT;
use spans::{Location, Span};

// The most spans of a list: one more than are looked at, and two more than a list may have.
pub(crate) const MOST: usize = 4098;

// The number of `-`: no offset, no location.
const NONE: u64 = u64::MAX;

// A number of each span, at the front of an array.
#[derive(Drop)]
pub(crate) struct Numbers {
    pub(crate) all: [u64; MOST],
    pub(crate) count: usize,
    pub(crate) ghost few: { count ≤ 4098 },
}

// Number `k` of each span of a list. One that is left out shortens the column.
pub(crate) fn column(list: &[u8], k: usize) -> Numbers {
    let mut all = [0; MOST];
    let mut count: usize = 0;
    let mut field: usize = 0;
    let mut number = 0;
    let mut empty = true;
    for &letter in list {
        if letter == b' ' || MOST <= count {
            break;
        }
        if letter == b',' || letter == b')' {
            if field == k && !empty {
                all[count] = number;
                count += 1;
            }
            field = field.saturating_add(1);
        } else {
            number = if letter == b'-' {
                NONE
            } else {
                longer(number, letter)
            };
            empty = false;
        }
        if letter == b'(' {
            field = 0;
        }
        if letter == b'(' || letter == b',' {
            number = 0;
            empty = true;
        }
    }
    Numbers {
        all,
        count: count.min(MOST),
    }
}

// Number `k` of each span of a row. That of the last one stands again up to the row's `count`.
pub(crate) fn span_column(row: &[u8], k: usize) -> Numbers {
    let mut found = column(value(row, b"spans="), k);
    let count = number_or(row, b"count=", found.count).min(MOST);
    if 0 < found.count {
        let last = found.all[found.count - 1];
        for place in found.count..count {
            found.all[place] = last;
        }
        found.count = count;
    }
    found
}

// A number of 32 bits; an offset that is absent is the one that says so.
fn word(number: u64) -> u32 {
    number.min(u64::from(ABSENT)) as u32
}

fn byte(number: u64) -> u8 {
    number.min(255) as u8
}

// A column as numbers of 32 bits.
pub(crate) fn words(column: &Numbers) -> [u32; MOST] {
    let mut words = [0; MOST];
    for place in 0..MOST {
        words[place] = word(column.all[place]);
    }
    words
}

// A column as numbers of 8 bits.
pub(crate) fn small(column: &Numbers) -> [u8; MOST] {
    let mut small = [0; MOST];
    for place in 0..MOST {
        small[place] = byte(column.all[place]);
    }
    small
}

fn record(offset: u64, size: u64, addr: u64, file: u64, start: u64, end: u64) -> Span {
    Span {
        offset: if offset == NONE {
            None
        } else {
            Some(word(offset))
        },
        size: word(size),
        addr,
        file_handle: byte(file),
        location: if start == NONE {
            None
        } else {
            Some(Location { start, end })
        },
    }
}

// The spans of a row as records. A span of two numbers has zeros for the others.
pub(crate) fn records(row: &[u8]) -> [Span; MOST] {
    let offsets = span_column(row, 0).all;
    let sizes = span_column(row, 1).all;
    let addrs = span_column(row, 2).all;
    let files = span_column(row, 3).all;
    let starts = span_column(row, 4).all;
    let ends = span_column(row, 5).all;
    let mut records = [record(0, 0, 0, 0, 0, 0); MOST];
    for k in 0..MOST {
        records[k] = record(offsets[k], sizes[k], addrs[k], files[k], starts[k], ends[k]);
    }
    records
}
