// Digits in groups of one size.

ghost use Rattle.std.specs.Prelude.{◌≤◌, ◌<◌};

use bitvec::{BitOffset, Image};
use numbers::DigitWidth;

// Digits of an image in groups: `size` digits of `width` each a group, from the bit `from` on.
#[derive(Clone, Copy)]
pub struct DigitGroups<'a> {
    pub image: Image<'a>,
    pub width: DigitWidth,
    pub from: BitOffset,
    pub size: usize,
    pub ghost small: { (0 < size) × (size ≤ 1024) },
}
