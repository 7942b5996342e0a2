// The exporters for C and Rust, under the names that include/riceshoal.h declares. A slice is a
// pointer and a length. A function returns the number of the refusal, 0 for a text, and stores the
// length of the text or the value that comes with the refusal. An image is a slice and a bit length, and
// strings, columns and options are a parameter each, since the C interface lends them so.
#![tactic(auto, using(crate::proofs::Returns::gives))]

ghost use Rattle.std.specs.Prelude.{◌≡◌, length};
ghost use Rattle.outcome.specs.Outcome.{answer_of};
ghost use Rattle.intelhex.specs.Hex.{hex_outcome};
ghost use Rattle.format_plain.specs.Binary.{binary_outcome, padded_in};
ghost use Rattle.format_plain.specs.Str.{str_outcome};
ghost use Rattle.format_readmem.specs.Readmem.{readmemb_outcome, readmemh_outcome};
ghost use Rattle.format_bytes.specs.Separator.{separator_outcome};
ghost use Rattle.format_bytes.specs.CArray.{c_array_outcome};
ghost use Rattle.format_list.specs.List.{list_outcome};
ghost use Rattle.format_mif.specs.Mif.{mif_outcome};
ghost use Rattle.format_logisim.specs.Logisim.{logisim_outcome};
ghost use Rattle.format_dump.specs.Dump.{dump_outcome};
ghost use Rattle.listing.specs.Listing.{spans_of};
ghost use Rattle.annotated.specs.Annotated.{annotated_outcome};
ghost use Rattle.capi.specs.Returns.{Returns, flag};

use bitvec::Image;
use format_dump::DumpOptions;
use format_list::{FormatListOptions, ListStrings};
use listing::{FormatAnnotatedOptions, SpanColumns};
use outcome::{Answer, Export};
use sources::Sources;

// Stores the value of an answer and returns its number.
fn give(export: Export, value: &mut u64) -> u32
    ensures { (result ≡ (answer_of export).number) × (value.new ≡ (answer_of export).value) }
{
    let answer = Answer::from(export);
    *value = answer.value as u64;
    answer.number
}

#[unsafe(no_mangle)]
pub extern "C" fn riceshoal_format_binary(
    image: &[u8],
    bits: usize,
    out: &mut [u8],
    value: &mut u64,
    padded: &mut u8,
) -> u32
    ensures exports { Returns (binary_outcome image.now bits (length out.old)) result value.new out.old out.new }
    ensures padding { padded.new ≡ flag (padded_in (binary_outcome image.now bits (length out.old)) bits) }
{
    let made = format_plain::format_binary(Image::new(image, bits), out);
    *padded = made.is_ok_and(|binary| binary.padded) as u8;
    give(made.map(|binary| binary.length), value)
}

#[unsafe(no_mangle)]
pub extern "C" fn riceshoal_format_str(
    image: &[u8],
    bits: usize,
    bits_per_digit: usize,
    out: &mut [u8],
    value: &mut u64,
) -> u32
    ensures { Returns (str_outcome image.now bits bits_per_digit (length out.old)) result value.new out.old out.new }
{
    give(
        format_plain::format_str(Image::new(image, bits), bits_per_digit, out),
        value,
    )
}

#[unsafe(no_mangle)]
pub extern "C" fn riceshoal_format_readmemb(
    image: &[u8],
    bits: usize,
    width: usize,
    out: &mut [u8],
    value: &mut u64,
) -> u32
    ensures { Returns (readmemb_outcome image.now bits width (length out.old)) result value.new out.old out.new }
{
    give(
        format_readmem::format_readmemb(Image::new(image, bits), width, out),
        value,
    )
}

#[unsafe(no_mangle)]
pub extern "C" fn riceshoal_format_readmemh(
    image: &[u8],
    bits: usize,
    width: usize,
    out: &mut [u8],
    value: &mut u64,
) -> u32
    ensures { Returns (readmemh_outcome image.now bits width (length out.old)) result value.new out.old out.new }
{
    give(
        format_readmem::format_readmemh(Image::new(image, bits), width, out),
        value,
    )
}

#[unsafe(no_mangle)]
pub extern "C" fn riceshoal_format_separator(
    image: &[u8],
    bits: usize,
    radix: usize,
    separator: &[u8],
    out: &mut [u8],
    value: &mut u64,
) -> u32
    ensures { Returns (separator_outcome image.now bits radix separator.now (length out.old)) result value.new out.old out.new }
{
    give(
        format_bytes::format_separator(Image::new(image, bits), radix, separator, out),
        value,
    )
}

#[unsafe(no_mangle)]
pub extern "C" fn riceshoal_format_c_array(
    image: &[u8],
    bits: usize,
    radix: usize,
    out: &mut [u8],
    value: &mut u64,
) -> u32
    ensures { Returns (c_array_outcome image.now bits radix (length out.old)) result value.new out.old out.new }
{
    give(
        format_bytes::format_c_array(Image::new(image, bits), radix, out),
        value,
    )
}

#[unsafe(no_mangle)]
pub extern "C" fn riceshoal_format_list(
    image: &[u8],
    bits: usize,
    base: usize,
    digits_per_group: usize,
    groups_per_group2: usize,
    before: &[u8],
    after: &[u8],
    between: &[u8],
    between2: &[u8],
    out: &mut [u8],
    value: &mut u64,
) -> u32
    ensures { Returns (list_outcome image.now bits (record { base = base; digits_per_group = digits_per_group; groups_per_group2 = groups_per_group2 }) before.now after.now between.now between2.now (length out.old)) result value.new out.old out.new }
{
    let options = FormatListOptions {
        base,
        digits_per_group,
        groups_per_group2,
    };
    let strings = ListStrings {
        before,
        after,
        between,
        between2,
    };
    give(
        format_list::format_list(Image::new(image, bits), options, strings, out),
        value,
    )
}

#[unsafe(no_mangle)]
pub extern "C" fn riceshoal_format_mif(
    image: &[u8],
    bits: usize,
    out: &mut [u8],
    value: &mut u64,
) -> u32
    ensures { Returns (mif_outcome image.now bits (length out.old)) result value.new out.old out.new }
{
    give(format_mif::format_mif(Image::new(image, bits), out), value)
}

#[unsafe(no_mangle)]
pub extern "C" fn riceshoal_format_logisim(
    image: &[u8],
    bits: usize,
    bits_per_chunk: usize,
    out: &mut [u8],
    value: &mut u64,
) -> u32
    ensures { Returns (logisim_outcome image.now bits bits_per_chunk (length out.old)) result value.new out.old out.new }
{
    give(
        format_logisim::format_logisim(Image::new(image, bits), bits_per_chunk, out),
        value,
    )
}

#[unsafe(no_mangle)]
pub extern "C" fn riceshoal_format_dump(
    image: &[u8],
    bits: usize,
    digit_bits: usize,
    byte_bits: usize,
    bytes_per_line: usize,
    out: &mut [u8],
    value: &mut u64,
) -> u32
    ensures { Returns (dump_outcome image.now bits (record { digit_bits = digit_bits; byte_bits = byte_bits; bytes_per_line = bytes_per_line }) (length out.old)) result value.new out.old out.new }
{
    let options = DumpOptions {
        digit_bits,
        byte_bits,
        bytes_per_line,
    };
    give(
        format_dump::format_dump(Image::new(image, bits), options, out),
        value,
    )
}

#[unsafe(no_mangle)]
pub extern "C" fn riceshoal_format_intelhex(
    image: &[u8],
    bits: usize,
    offsets: &[u32],
    sizes: &[u32],
    address_unit: usize,
    out: &mut [u8],
    value: &mut u64,
) -> u32
    ensures { Returns (hex_outcome image.now bits offsets.now sizes.now address_unit (length out.old)) result value.new out.old out.new }
{
    give(
        intelhex::format_intelhex(Image::new(image, bits), offsets, sizes, address_unit, out),
        value,
    )
}

#[unsafe(no_mangle)]
pub extern "C" fn riceshoal_format_annotated(
    image: &[u8],
    bits: usize,
    offsets: &[u32],
    sizes: &[u32],
    addrs: &[u64],
    files: &[u8],
    starts: &[u64],
    ends: &[u64],
    firmware: &[u8],
    protocol: &[u8],
    base: usize,
    addr_base: usize,
    digits_per_group: usize,
    display_labels: u8,
    out: &mut [u8],
    value: &mut u64,
) -> u32
    ensures { Returns
        (annotated_outcome image.now bits (record { base = base; addr_base = addr_base; digits_per_group = digits_per_group; display_labels = display_labels })
        (spans_of offsets.now sizes.now addrs.now files.now starts.now ends.now) firmware.now protocol.now (length out.old))
        result value.new out.old out.new }
{
    let options = FormatAnnotatedOptions {
        base,
        addr_base,
        digits_per_group,
        display_labels,
    };
    let spans = SpanColumns {
        offsets,
        sizes,
        addrs,
        files,
        starts,
        ends,
    };
    let sources = Sources { firmware, protocol };
    give(
        annotated::format_annotated(Image::new(image, bits), spans, sources, options, out),
        value,
    )
}
