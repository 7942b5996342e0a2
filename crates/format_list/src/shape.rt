// The list as a value: its image and its options, which are in their range.

ghost use Rattle.std.specs.Prelude.{◌≡◌, ◌≤◌, ◌<◌, length};
ghost use Rattle.digits.specs.Bytes.{base_bits};

use crate::{FormatListOptions, ListStrings};
use bitvec::GoodImage;
use numbers::DigitWidth;

// Options and strings that are in their range, with the digits of the base.
#[derive(Clone, Copy)]
pub struct ListOptions<'a> {
    pub given: FormatListOptions,
    pub strings: ListStrings<'a>,
    pub width: DigitWidth,
    ghost bits: { (width.bits ≡ base_bits given.base) × (0 < width.bits) },
    ghost digits: { (0 < given.digits_per_group) × (given.digits_per_group ≤ 64) },
    ghost place: { 0 < length strings.between2.now → 0 < given.groups_per_group2 },
    ghost outer: { (length strings.before.now ≤ 256) × (length strings.after.now ≤ 256) },
    ghost inner: { (length strings.between.now ≤ 256) × (length strings.between2.now ≤ 256) },
}

// The groups of a list.
#[derive(Clone, Copy)]
pub struct ListGroups<'a> {
    pub good: GoodImage<'a>,
    pub options: ListOptions<'a>,
}
