// The image: bytes and a bit length (document 01, module 1). Bit 0 is the top bit of byte 0, and
// every bit at or past the bit length reads as zero, also in a half-used last byte and past the
// bytes. The Rust's BitVec holds its length; here both are lent, as one value.
#![tactic(auto)]

ghost use Rattle.std.specs.Prelude.{◌≡◌, true, false, MatchOption, ◌+◌, ◌*◌, ◌/◌, ◌%◌, ◌≤◌, ◌<◌, ◌^◌, min, length, take, drop};
ghost use Rattle.bitvec.specs.Bits.{bit_at, bits_at};
ghost use Rattle.bitvec.specs.Size.{bad_size, ceil_div};

// The largest image, in bits.
pub const MAX_BITS: usize = 16777216;

// Where a bit is: document 01's bit offset.
#[derive(Clone, Copy)]
pub struct BitOffset(pub usize);

// A bit offset divided by the address unit, rounded down: document 01's unit address.
#[derive(Clone, Copy)]
pub struct UnitAddress(pub usize);

impl BitOffset {
    // The offset so many bits behind.
    pub fn plus(self, bits: usize) -> BitOffset
        requires { self.0 + bits < 2 ^ 64 }
        ensures { result.0 ≡ self.0 + bits }
    {
        BitOffset(self.0 + bits)
    }

    // The byte that holds this bit.
    pub fn byte(self) -> usize
        ensures { result ≡ self.0 / 8 }
    {
        self.0 / 8
    }

    // How many bits of that byte are before this one.
    pub fn shift(self) -> usize
        ensures { result ≡ self.0 % 8 }
    {
        self.0 % 8
    }

    // The address of the unit that holds this bit.
    pub fn address(self, unit: usize) -> UnitAddress
        requires { 0 < unit }
        ensures { result.0 ≡ self.0 / unit }
    {
        UnitAddress(self.0 / unit)
    }
}

impl From<u32> for BitOffset {
    ghost from_gives = { λ offset b. b.0 ≡ offset };

    fn from(offset: u32) -> BitOffset {
        BitOffset(offset as usize)
    }
}

// An image as it is lent: its bytes, and how many bits it has.
#[derive(Clone, Copy)]
pub struct Image<'a> {
    pub bytes: &'a [u8],
    pub len: usize,
}

// An image that has passed the size check.
#[derive(Clone, Copy)]
pub struct GoodImage<'a> {
    pub image: Image<'a>,
    pub ghost good: { bad_size image.bytes.now image.len ≡ false },
    pub ghost few: { image.len ≤ 16777216 },
    pub ghost inside: { image.len ≤ 8 * length image.bytes.now },
}

impl<'a> Image<'a> {
    pub fn new(bytes: &'a [u8], len: usize) -> Image<'a>
        ensures { (result.bytes.now ≡ bytes.now) × (result.len ≡ len) }
    {
        Image { bytes, len }
    }

    // The size check, the cause of refusal 1: whether the bit length is above the largest image or
    // above 8 times the bytes.
    #[tactic(auto, using(crate::proofs::Size::few_bytes), unfolding(crate::specs::Size::bad_size))]
    pub fn bad_size(self) -> bool
        ensures { result ≡ bad_size self.entry.bytes.now self.entry.len }
    {
        MAX_BITS < self.len || self.bytes.len() < self.len.div_ceil(8)
    }

    // The image, where it passes the size check.
    #[tactic(auto, using(crate::proofs::Size::size_good))]
    pub fn good(self) -> Option<GoodImage<'a>>
        ensures { MatchOption result (bad_size self.entry.bytes.now self.entry.len ≡ true) (λ g. g.image ≡ self.entry) }
    {
        if self.bad_size() {
            return None;
        }
        Some(GoodImage { image: self })
    }

    // How many of its bytes are whole: within the bit length, and lent.
    pub fn whole_bytes(self) -> usize
        ensures { result ≡ min (self.entry.len / 8) (length self.entry.bytes.now) }
    {
        self.bytes.len().min(self.len / 8)
    }

    // The bit at `offset`, 0 or 1.
    #[tactic(auto, using(crate::proofs::Bits::bit_past, crate::proofs::Bits::bit_inside))]
    pub fn read_bit(self, offset: BitOffset) -> u8
        ensures { result ≡ bit_at self.entry.bytes.now self.entry.len offset.0 }
    {
        if self.len <= offset.0 {
            return 0;
        }
        let byte = self.bytes.get(offset.byte()).map_or(0, |&byte| byte);
        let shift = (7 - offset.shift()) as u8;
        (byte >> shift) % 2
    }

    // The digit that `width` bits from `offset` on make, read bit by bit. The number of a turn is
    // itself added to the offset.
    #[tactic(auto, using(crate::proofs::Bits::bits_none, crate::proofs::Bits::bits_next, crate::proofs::Bits::bits_seven, crate::proofs::Bits::bit_small))]
    fn read_each(self, offset: BitOffset, width: usize) -> u8
        requires { (width ≤ 8) × (offset.0 + width < 2 ^ 64) }
        ensures { result ≡ bits_at self.entry.bytes.now self.entry.len offset.0 width }
    {
        let mut digit: u8 = 0;
        for k in 0..width {
            digit = digit * 2 + self.read_bit(offset.plus(k));
        }
        digit
    }

    // The digit that `width` bits make behind the first `shift` bits of byte `at`, where they are
    // within the bit length and the byte behind is there. Byte and shift are apart: a loop adds to the
    // byte alone, and finds the shift once.
    #[tactic(auto, using(crate::proofs::Words::bits_across))]
    pub fn read_across(self, at: usize, shift: usize, width: usize) -> u8
        requires inside { (at * 8 + shift + width ≤ self.len) × (at + 1 < length self.bytes.now) }
        requires small { (shift ≤ 8) × (width ≤ 8) }
        ensures { result ≡ bits_at self.entry.bytes.now self.entry.len (at * 8 + shift) width }
    {
        let first = self.bytes[at];
        let second = self.bytes[at + 1];
        let pair = u16::from_be_bytes([first, second]) as u32;
        let behind = (16 - (shift + width)) as u32;
        let base: u32 = 1 << width as u32;
        ((pair >> behind) % base) as u8
    }

    // The digit that `width` bits from `offset` on make, at most eight of them. The width is a number:
    // a type of at most eight would be made at each call, from widths that have types of their own.
    pub fn read_bits(self, offset: BitOffset, width: usize) -> u8
        requires { (width ≤ 8) × (offset.0 + width < 2 ^ 64) }
        ensures { result ≡ bits_at self.entry.bytes.now self.entry.len offset.0 width }
    {
        if self.len < offset.0 + width || self.bytes.len() <= offset.byte() + 1 {
            return self.read_each(offset, width);
        }
        self.read_across(offset.byte(), offset.shift(), width)
    }

    // The whole byte from `offset` on. It is put into its callers: a loop over bytes takes half as long again
    // with a call in it.
    #[inline(always)]
    #[tactic(auto, using(crate::proofs::Words::byte_from))]
    pub fn read_byte(self, offset: BitOffset) -> u8
        requires { offset.0 + 8 < 2 ^ 64 }
        ensures { result ≡ bits_at self.entry.bytes.now self.entry.len offset.0 8 }
    {
        if offset.shift() != 0 {
            return self.read_bits(offset, 8);
        }
        if self.len < offset.0 + 8 || self.bytes.len() <= offset.byte() {
            return self.read_each(offset, 8);
        }
        self.bytes[offset.byte()]
    }
}

// Bytes of an image that are whole: within the bit length, and lent.
#[derive(Clone, Copy)]
pub struct WholeBytes<'a> {
    pub image: Image<'a>,
    pub first: usize,
    pub count: usize,
    pub ghost inside: { ((first + count) * 8 ≤ image.len) × (first + count ≤ length image.bytes.now) },
}

impl<'a> WholeBytes<'a> {
    // These bytes, as they are lent.
    pub fn slice(self) -> &'a [u8]
        ensures { result.now ≡ take self.entry.count (drop self.entry.first self.entry.image.bytes.now) }
    {
        &self.image.bytes[self.first..self.first + self.count]
    }
}

// How many parts of `width` bits an image of `len` bits has, the last one perhaps shorter: the
// library's quotient, whose promise here is the definition of which the laws of parts speak.
#[tactic(auto, using(crate::proofs::Size::ceil_rounded))]
pub fn parts(len: usize, width: usize) -> usize
    requires { (0 < width) × (len + width ≤ 2 ^ 64) }
    ensures { result ≡ ceil_div len width }
{
    len.div_ceil(width)
}
