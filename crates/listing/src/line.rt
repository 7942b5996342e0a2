// The line of a span: its position, its logical address, its contents and its excerpt.

ghost use Rattle.std.specs.Prelude.{◌≡◌, ◌≢◌, ◌+◌, ◌≤◌, ◌<◌, ◌^◌, length, unwrap_or};
ghost use Rattle.output.specs.Writes.{Writes};
ghost use Rattle.ordering.specs.Order.{absent};
ghost use Rattle.listing.specs.Listing.{wider};

use crate::contents::{contents_length, put_contents};
use crate::{Layout, ListedSpan};
use bitvec::{BitOffset, Image};
use numbers::Letters;
use ordering::ABSENT;

// A span of a listing, with its excerpt. Its columns are as wide as its numbers: it makes them no wider
// where it has an offset.
#[derive(Clone, Copy)]
pub struct SpanLine<'a> {
    pub image: Image<'a>,
    pub layout: Layout,
    pub span: ListedSpan,
    pub excerpt: &'a [u8],
    pub ghost fits: { unwrap_or span.offset absent ≢ absent → wider layout.options.given layout.widths (unwrap_or span.offset absent) span.size span.addr ≡ layout.widths },
}

impl<'a> SpanLine<'a> {
    ghost use Rattle.listing.specs.InnerLine.{position_of, address_of, column_of, line_of};

    // Stores the position of the span: its byte and the bit in it, or dashes where its offset is absent.
    fn put_position(self, out: &mut [u8], at: usize) -> usize
        requires { at + length (position_of self) ≤ length out.old }
        ensures { Writes (position_of self.entry) out.old at out.new result }
    {
        let Layout { options, widths } = self.layout;
        let mut next = output::put(out, at, b' ');
        let Some(offset) = self.span.offset else {
            next = numbers::put_right(out, next, b"--", widths.outp);
            next = output::put(out, next, b':');
            return numbers::put_right(out, next, b"-", widths.outp_bit);
        };
        let from = BitOffset::from(offset);
        let byte = from.byte() as u64;
        let bit = from.shift() as u64;
        let radix = options.radix;
        let lower = Letters::Lower;
        next = numbers::put_column(out, next, lower, byte, radix, b' ', widths.outp);
        next = output::put(out, next, b':');
        numbers::put_column(out, next, lower, bit, radix, b' ', widths.outp_bit)
    }

    // The length of the position.
    fn position_length(self) -> usize
        ensures { (result ≡ length (position_of self.entry)) × (result ≤ 600) }
    {
        let widths = self.layout.widths;
        match self.span.offset {
            Some(_) => 2 + widths.outp + widths.outp_bit,
            None => 2 + widths.outp.max(2) + widths.outp_bit.max(1),
        }
    }

    // Stores the logical address of the span. Its column is as wide as it, but where the span has no
    // offset.
    fn put_address(self, out: &mut [u8], at: usize) -> usize
        requires { at + length (address_of self) ≤ length out.old }
        ensures { Writes (address_of self.entry) out.old at out.new result }
    {
        let width = self.address_length();
        let radix = self.layout.options.radix;
        numbers::put_column(out, at, Letters::Lower, self.span.addr, radix, b' ', width)
    }

    // The length of the logical address.
    fn address_length(self) -> usize
        ensures { result ≡ length (address_of self.entry) }
    {
        let Layout { options, widths } = self.layout;
        match self.span.offset {
            Some(_) => widths.addr,
            None => widths
                .addr
                .max(numbers::digit_count(self.span.addr, options.radix.value)),
        }
    }

    // Stores the contents of the span at the left of their column. Those of a span without an offset are
    // defined too, at the number of none.
    fn put_content(self, out: &mut [u8], at: usize) -> usize
        requires { at + length (column_of self) ≤ length out.old }
        ensures { Writes (column_of self.entry) out.old at out.new result }
    {
        let Layout { options, widths } = self.layout;
        let size = self.span.size;
        let from = self.span.offset.unwrap_or(ABSENT);
        let next = put_contents(out, at, self.image, options, from, size);
        let fill = widths
            .content
            .saturating_sub(contents_length(options, size));
        output::put_fill(out, next, b' ', fill)
    }

    // The length of the line.
    pub fn length(self) -> usize
        requires { length self.excerpt.now ≤ 1048576 }
        ensures { (result ≡ length (line_of self.entry)) × (result < 2 ^ 35) }
    {
        let Layout { options, widths } = self.layout;
        let position = self.position_length();
        let address = self.address_length();
        let content = widths.content.max(contents_length(options, self.span.size));
        position + address + content + self.excerpt.len() + 10
    }

    // Stores the line.
    pub fn put(self, out: &mut [u8], at: usize) -> usize
        requires { at + length (line_of self) ≤ length out.old }
        ensures { Writes (line_of self.entry) out.old at out.new result }
    {
        let mut next = self.put_position(out, at);
        next = output::put_all(out, next, b" | ");
        next = self.put_address(out, next);
        next = output::put_all(out, next, b" | ");
        next = self.put_content(out, next);
        next = output::put_all(out, next, b" ; ");
        next = output::put_all(out, next, self.excerpt);
        output::put(out, next, b'\n')
    }
}
