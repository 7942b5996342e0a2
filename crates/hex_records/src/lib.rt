// A record of an Intel HEX file (document 01, module 8), which is a line. The crate `intelhex` cuts blocks
// into records.
#![tactic(auto)]

ghost use Rattle.std.specs.Prelude.{◌≡◌, ℕ, ◌+◌, ◌*◌, ◌/◌, ◌%◌, ◌^◌, ◌<◌, ◌≤◌, [], ◌∷◌, ◌++◌, length};
ghost use Rattle.bitvec.specs.Bits.{bits_at};
ghost use Rattle.output.specs.Ascii.{ascii};
ghost use Rattle.output.specs.Writes.{Writes};
ghost use Rattle.hex_records.specs.Text.{total, hex_bytes, record_text};
ghost use Rattle.hex_records.specs.InnerLent.{chunk_of, data_of};

use bitvec::Image;
use numbers::{Letters, put_byte};
use output::put;

mod data_record;

pub use data_record::DataRecord;

// Writes what stands before a record's data: the colon, the number of data bytes, the address and the type.
#[tactic(auto, using(output::proofs::Writes::writes_length), unfolding(numbers::specs::Digits::byte_text))]
fn put_head(out: &mut [u8], at: usize, data_record: DataRecord) -> usize
    requires { at + 9 ≤ length out.old }
    ensures { Writes (ascii ":" ++ hex_bytes (data_record.count ∷ data_record.address.0 / 256 ∷ data_record.address.0 % 256 ∷ 0 ∷ [])) out.old at out.new result }
{
    let [high, low] = data_record.address_bytes();
    let mark = put(out, at, b':');
    let length = put_byte(out, mark, Letters::Upper, data_record.count as u8);
    let first = put_byte(out, length, Letters::Upper, high);
    let second = put_byte(out, first, Letters::Upper, low);
    put_byte(out, second, Letters::Upper, 0)
}

// Writes what `byte_at` reads, the data of a record from byte 0 on, and adds them to `sum`, modulo 256. The loop
// counts, since `byte_at` is asked by number.
fn put_data_bytes<F: Fn(usize) -> u8>(
    out: &mut [u8],
    at: usize,
    image: Image,
    data_record: DataRecord,
    byte_at: F,
    sum: u8,
) -> u8
    requires read { (k : ℕ) → k < data_record.count → F.pre byte_at k }
    requires bytes { (k byte : ℕ) → k < data_record.count → F.post byte_at k byte → byte ≡ bits_at image.bytes.now image.len (data_record.from.0 + 8 * k) 8 }
    requires room { at + 2 * data_record.count ≤ length out.old }
    ensures sum { result ≡ (sum + total (data_of image.entry data_record)) % 256 }
    ensures written { Writes (hex_bytes (data_of image.entry data_record)) out.old at out.new (at + 2 * data_record.count) }
{
    let mut added = sum;
    let mut next = at;
    for k in 0..data_record.count {
        let byte = byte_at(k);
        next = put_byte(out, next, Letters::Upper, byte);
        added = added.wrapping_add(byte);
    }
    added
}

// Writes the data of a record, and adds them to `sum`, modulo 256. They are read with no test for each where
// they and a byte behind them are in the image: a test for each takes five times as long.
fn put_data(out: &mut [u8], at: usize, image: Image, data_record: DataRecord, sum: u8) -> u8
    requires { at + 2 * data_record.count ≤ length out.old }
    ensures sum { result ≡ (sum + total (data_of image.entry data_record)) % 256 }
    ensures written { Writes (hex_bytes (data_of image.entry data_record)) out.old at out.new (at + 2 * data_record.count) }
{
    let DataRecord { from, count, .. } = data_record;
    let first = from.byte();
    if from.0 + 8 * count <= image.len && first + count < image.bytes.len() {
        let across = |k: usize| image.read_across(first + k, from.shift(), 8);
        return put_data_bytes(out, at, image, data_record, across, sum);
    }
    let any = |k: usize| image.read_byte(from.plus(8 * k));
    put_data_bytes(out, at, image, data_record, any, sum)
}

// Writes one record.
#[tactic(auto, using(output::proofs::Writes::writes_length, crate::proofs::Text::hex_length), unfolding(numbers::specs::Digits::byte_text))]
pub fn put_record(out: &mut [u8], at: usize, image: Image, data_record: DataRecord) -> usize
    requires { at + (12 + 2 * data_record.count) ≤ length out.old }
    ensures { Writes (record_text image.entry.bytes.now image.entry.len (chunk_of data_record)) out.old at out.new result }
{
    let data = put_head(out, at, data_record);
    let sum = put_data(out, data, image, data_record, data_record.head_sum());
    let check = 0u8.wrapping_sub(sum);
    let end = put_byte(out, data + 2 * data_record.count, Letters::Upper, check);
    put(out, end, b'\n')
}
