// The call that a row names: its exporter with its options, strings and spans.
use crate::exporter::Exporter;
use crate::row::{bytes, number};
use crate::span_row::{records, small, span_column, words};
use bitvec::Image;
use format_dump::DumpOptions;
use format_list::{FormatListOptions, ListStrings};
use listing::{FormatAnnotatedOptions, SpanColumns};
use of_spans::arrays;
use outcome::Export;
use sources::Sources;

fn binary(image: Image, out: &mut [u8]) -> Export {
    format_plain::format_binary(image, out).map(|binary| binary.length)
}

fn separator(row: &[u8], image: Image, out: &mut [u8]) -> Export {
    let radix = number(row, b"radix=");
    let separator = bytes(row, b"separator=", 0);
    format_bytes::format_separator(image, radix, separator.slice(), out)
}

fn list(row: &[u8], image: Image, out: &mut [u8]) -> Export {
    let options = FormatListOptions {
        base: number(row, b"base="),
        digits_per_group: number(row, b"digits_per_group="),
        groups_per_group2: number(row, b"groups_per_group2="),
    };
    let before = bytes(row, b"before=", 0);
    let after = bytes(row, b"after=", 0);
    let between = bytes(row, b"between=", 0);
    let between2 = bytes(row, b"between2=", 0);
    let strings = ListStrings {
        before: before.slice(),
        after: after.slice(),
        between: between.slice(),
        between2: between2.slice(),
    };
    format_list::format_list(image, options, strings, out)
}

fn dump(row: &[u8], image: Image, out: &mut [u8]) -> Export {
    let options = DumpOptions {
        digit_bits: number(row, b"digit_bits="),
        byte_bits: number(row, b"byte_bits="),
        bytes_per_line: number(row, b"bytes_per_line="),
    };
    format_dump::format_dump(image, options, out)
}

fn intelhex(row: &[u8], over_records: bool, image: Image, out: &mut [u8]) -> Export {
    let unit = number(row, b"address_unit=");
    let offsets = span_column(row, 0);
    if over_records {
        return arrays::format_intelhex(image, records(row), offsets.count, unit, out);
    }
    let sizes = span_column(row, 1);
    let offset_words = words(&offsets);
    let size_words = words(&sizes);
    intelhex::format_intelhex(
        image,
        &offset_words[..offsets.count],
        &size_words[..sizes.count],
        unit,
        out,
    )
}

fn annotated_of_numbers(
    row: &[u8],
    image: Image,
    sources: Sources,
    options: FormatAnnotatedOptions,
    out: &mut [u8],
) -> Export {
    let offsets = span_column(row, 0);
    let sizes = span_column(row, 1);
    let addrs = span_column(row, 2);
    let files = span_column(row, 3);
    let starts = span_column(row, 4);
    let ends = span_column(row, 5);
    let offset_words = words(&offsets);
    let size_words = words(&sizes);
    let file_bytes = small(&files);
    let columns = SpanColumns {
        offsets: &offset_words[..offsets.count],
        sizes: &size_words[..sizes.count],
        addrs: &addrs.all[..addrs.count],
        files: &file_bytes[..files.count],
        starts: &starts.all[..starts.count],
        ends: &ends.all[..ends.count],
    };
    annotated::format_annotated(image, columns, sources, options, out)
}

fn annotated(row: &[u8], over_records: bool, image: Image, out: &mut [u8]) -> Export {
    let options = FormatAnnotatedOptions {
        base: number(row, b"base="),
        addr_base: number(row, b"addr_base="),
        digits_per_group: number(row, b"digits_per_group="),
        display_labels: number(row, b"display_labels=").min(255) as u8,
    };
    let firmware = bytes(row, b"firmware=", 0);
    let protocol = bytes(row, b"protocol=", 0);
    let sources = Sources {
        firmware: firmware.slice(),
        protocol: protocol.slice(),
    };
    if !over_records {
        return annotated_of_numbers(row, image, sources, options, out);
    }
    let count = span_column(row, 0).count;
    arrays::format_annotated(image, records(row), count, sources, options, out)
}

// The export that a row names, its spans lent as numbers or as records.
pub(crate) fn export(
    exporter: Exporter,
    row: &[u8],
    over_records: bool,
    image: Image,
    out: &mut [u8],
) -> Export {
    match exporter {
        Exporter::Binary => binary(image, out),
        Exporter::Str => format_plain::format_str(image, number(row, b"bits_per_digit="), out),
        Exporter::Binstr => format_plain::format_binstr(image, out),
        Exporter::Hexstr => format_plain::format_hexstr(image, out),
        Exporter::Readmemb => format_readmem::format_readmemb(image, number(row, b"width="), out),
        Exporter::Readmemh => format_readmem::format_readmemh(image, number(row, b"width="), out),
        Exporter::Separator => separator(row, image, out),
        Exporter::CArray => format_bytes::format_c_array(image, number(row, b"radix="), out),
        Exporter::List => list(row, image, out),
        Exporter::Mif => format_mif::format_mif(image, out),
        Exporter::Logisim => {
            format_logisim::format_logisim(image, number(row, b"bits_per_chunk="), out)
        }
        Exporter::Dump => dump(row, image, out),
        Exporter::Bindump => format_dump::format_bindump(image, out),
        Exporter::Hexdump => format_dump::format_hexdump(image, out),
        Exporter::Intelhex => intelhex(row, over_records, image, out),
        // The blocks are no text: `compare` calls for them.
        Exporter::Blocks => Ok(0),
        Exporter::Annotated => annotated(row, over_records, image, out),
    }
}
