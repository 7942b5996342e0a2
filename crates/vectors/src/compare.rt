// Whether a row comes out: whether the call gives the row's answer in each of its rooms, and leaves what
// it may not write as it was.
use crate::call::export;
use crate::exporter::Exporter;
use crate::row::{LONGEST, begins, bytes, has, number, number_or, value};
use crate::span_row::{column, records, span_column};
use bitvec::Image;
use of_spans::arrays;
use outcome::{Answer, Export};

// What stands in a buffer before a call, of bytes and of numbers.
const OLD: u8 = 90;

const OLD_NUMBER: u32 = 7;

// How long a slice of blocks is.
const BLOCKS: usize = 8;

// Whether the answer is the row's refusal; or its text of `length` bytes where the room holds it, and else
// refusal 8.
fn answers(export: Export, row: &[u8], length: usize, room: usize) -> bool {
    let answer = Answer::from(export);
    if has(row, b"refused=") {
        return answer.number as usize == number(row, b"refused=")
            && answer.value == number_or(row, b"value=", 0);
    }
    answer.number == (if length <= room { 0 } else { 8 }) && answer.value == length
}

// Whether a buffer has the text at its front, if it was written, and its old contents behind it.
fn holds(out: &[u8; LONGEST], text: &[u8], written: bool) -> bool {
    for place in 0..LONGEST {
        let due = if written && place < text.len() {
            text[place]
        } else {
            OLD
        };
        if out[place] != due {
            return false;
        }
    }
    true
}

// Whether a call into a room of `room` bytes comes out.
fn export_agrees(
    exporter: Exporter,
    row: &[u8],
    over_records: bool,
    image: Image,
    text: &[u8],
    room: usize,
) -> bool {
    let mut out = [OLD; LONGEST];
    let room = room.min(LONGEST);
    let answer = export(exporter, row, over_records, image, &mut out[..room]);
    let written = answer.is_ok();
    answers(answer, row, text.len(), room) && holds(&out, text, written)
}

// Whether the call comes out in the row's room, or in one that the text fills, in one a byte shorter, or
// of none where the text is empty, and in a large one.
fn exports_agree(exporter: Exporter, row: &[u8], over_records: bool) -> bool {
    let lent = bytes(row, b"image=", number_or(row, b"zeros=", 0));
    let image = Image::new(lent.slice(), number(row, b"bits="));
    let due = bytes(row, b"text=", 0);
    let text = due.slice();
    let n = text.len();
    let first = number_or(row, b"room=", n);
    let second = number_or(row, b"room=", n.saturating_sub(1));
    let last = number_or(row, b"room=", LONGEST);
    export_agrees(exporter, row, over_records, image, text, first)
        && export_agrees(exporter, row, over_records, image, text, second)
        && export_agrees(exporter, row, over_records, image, text, last)
}

// Whether the binary file of a row says of its padding what the row says, if it does.
fn padding_agrees(row: &[u8]) -> bool {
    let said = value(row, b"padded=");
    let lent = bytes(row, b"image=", 0);
    let mut out = [OLD; LONGEST];
    let answer = format_plain::format_binary(
        Image::new(lent.slice(), number(row, b"bits=")),
        &mut out,
    );
    let padded = answer.is_ok_and(|binary| binary.padded);
    said.is_empty() || padded == begins(said, b"1")
}

// Whether a slice has number `k` of each of the row's blocks at its front, and what stood there behind
// them.
fn holds_blocks(found: &[u32; BLOCKS], row: &[u8], k: usize) -> bool {
    let due = column(value(row, b"blocks="), k);
    for place in 0..BLOCKS {
        let number = if place < due.count {
            due.all[place]
        } else {
            u64::from(OLD_NUMBER)
        };
        if u64::from(found[place]) != number {
            return false;
        }
    }
    true
}

// Whether the blocks of the row's spans, which are lent as records, are the row's.
fn blocks_agree(row: &[u8]) -> bool {
    let room = number(row, b"room=").min(BLOCKS);
    let mut offsets = [OLD_NUMBER; BLOCKS];
    let mut sizes = [OLD_NUMBER; BLOCKS];
    let answer = arrays::get_blocks(
        records(row),
        span_column(row, 0).count,
        &mut offsets[..room],
        &mut sizes[..room],
    );
    let count = column(value(row, b"blocks="), 0).count;
    answers(answer, row, count, room)
        && holds_blocks(&offsets, row, 0)
        && holds_blocks(&sizes, row, 1)
}

// Whether a row comes out, its spans lent as numbers or as records.
fn agrees(exporter: Exporter, row: &[u8], over_records: bool) -> bool {
    match exporter {
        Exporter::Blocks => blocks_agree(row),
        Exporter::Binary => padding_agrees(row) && exports_agree(exporter, row, over_records),
        _ => exports_agree(exporter, row, over_records),
    }
}

// Whether a row comes out. Its spans are lent as numbers and then as records, unless it says which.
pub(crate) fn comes_out(exporter: Exporter, row: &[u8]) -> bool {
    if has(row, b"as=records") {
        return agrees(exporter, row, true);
    }
    if has(row, b"as=numbers") || !has(row, b"spans=") {
        return agrees(exporter, row, false);
    }
    agrees(exporter, row, false) && agrees(exporter, row, true)
}
