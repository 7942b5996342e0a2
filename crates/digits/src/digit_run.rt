// A run of digits as one value.

ghost use Rattle.std.specs.Prelude.{◌≡◌, ◌+◌, ◌-◌, ◌*◌, ◌≤◌, ◌<◌, ◌^◌};

use bitvec::{BitOffset, Image};
use numbers::DigitWidth;

// `count` digits of an image, from `from` on.
#[derive(Clone, Copy)]
pub struct DigitRun<'a> {
    pub image: Image<'a>,
    pub width: DigitWidth,
    pub from: BitOffset,
    pub count: usize,
    pub ghost short: { from.0 + count * width.bits < 2 ^ 64 },
}

impl<'a> DigitRun<'a> {
    // The digits behind the first `count`.
    pub fn behind(self, count: usize) -> DigitRun<'a>
        requires { count ≤ self.count }
        ensures rest { (result.image ≡ self.entry.image) × (result.width ≡ self.entry.width) × (result.from.0 ≡ self.entry.from.0 + count * self.entry.width.bits) × (result.count ≡ self.entry.count - count) }
    {
        DigitRun {
            image: self.image,
            width: self.width,
            from: self.from.plus(count * self.width.bits),
            count: self.count - count,
        }
    }
}
