// A record that is to be written, and the sum of the bytes before its data.
ghost use Rattle.std.specs.Prelude.{◌≡◌, ◌+◌, ◌*◌, ◌/◌, ◌%◌, ◌^◌, ◌<◌, ◌≤◌, [], ◌∷◌};
ghost use Rattle.hex_records.specs.Text.{total};

use bitvec::{BitOffset, UnitAddress};

// A data record: the offset of its first bit, its address, and how many bytes it has.
#[derive(Clone, Copy)]
pub struct DataRecord {
    pub from: BitOffset,
    pub address: UnitAddress,
    pub count: usize,
    pub ghost low: { address.0 ≤ 65535 },
    pub ghost few: { count ≤ 255 },
    pub ghost near: { from.0 + 8 * count + 8 < 2 ^ 64 },
}

impl DataRecord {
    // Its address in two bytes, the upper one first.
    pub fn address_bytes(self) -> [u8; 2]
        ensures { result ≡ self.address.0 / 256 ∷ self.address.0 % 256 ∷ [] }
    {
        (self.address.0 as u16).to_be_bytes()
    }

    // The sum, modulo 256, of the three bytes before its data that are not always zero.
    #[tactic(auto, unfolding(crate::specs::Text::total))]
    pub fn head_sum(self) -> u8
        ensures { result ≡ total (self.count ∷ self.address.0 / 256 ∷ self.address.0 % 256 ∷ 0 ∷ []) % 256 }
    {
        let count = self.count as u8;
        let [high, low] = self.address_bytes();
        count.wrapping_add(high).wrapping_add(low)
    }
}
