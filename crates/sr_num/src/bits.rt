ghost use Rattle.std.specs.Prelude.{◌≡◌, ℤ, pos, ◌<◌, Some};
ghost use Rattle.sr_num.specs.Bits.{to_int32, to_uint32, shift_count, bitwise_and, bitwise_or, bitwise_xor, bitwise_not, left_shift, signed_right_shift, unsigned_right_shift};

use crate::Num;

impl Num {
    /// ToUint32 (ECMA-262 7.1.7): the integer modulo 2^32, and 0 for NaN.
    #[tactic(auto, unfolding(crate::specs::Bits::to_uint32))]
    fn to_uint32(self) -> u32
        ensures { result ≡ to_uint32 self }
    {
        match self.get() {
            None => 0,
            Some(v) => v.rem_euclid(1 << 32) as u32,
        }
    }

    /// ToInt32 (ECMA-262 7.1.6): the integer modulo 2^32, from -2^31 on, and 0 for NaN.
    #[tactic(auto, unfolding(crate::specs::Bits::to_int32))]
    fn to_int32(self) -> i32
        ensures { result ≡ to_int32 self }
    {
        let low = i64::from(self.to_uint32());
        if low >= 1 << 31 {
            (low - (1 << 32)) as i32
        } else {
            low as i32
        }
    }

    /// How far a shift by this number goes: its count modulo 32.
    fn shift_count(self) -> u32
        ensures count { result ≡ shift_count self }
        ensures bound { result < 32 }
    {
        self.to_uint32() % 32
    }

    /// `self & r` (ECMA-262 6.1.6.1.17).
    #[tactic(auto, unfolding(crate::specs::Bits::bitwise_and))]
    pub fn and(self, r: Num) -> Num
        ensures { result ≡ bitwise_and self r }
    {
        Num::of_int32(self.to_int32() & r.to_int32())
    }

    /// `self | r` (ECMA-262 6.1.6.1.19).
    #[tactic(auto, unfolding(crate::specs::Bits::bitwise_or))]
    pub fn or(self, r: Num) -> Num
        ensures { result ≡ bitwise_or self r }
    {
        Num::of_int32(self.to_int32() | r.to_int32())
    }

    /// `self ^ r` (ECMA-262 6.1.6.1.18).
    #[tactic(auto, unfolding(crate::specs::Bits::bitwise_xor))]
    pub fn xor(self, r: Num) -> Num
        ensures { result ≡ bitwise_xor self r }
    {
        Num::of_int32(self.to_int32() ^ r.to_int32())
    }

    /// `~self` (ECMA-262 6.1.6.1.2).
    #[tactic(auto, unfolding(crate::specs::Bits::bitwise_not))]
    pub fn not(self) -> Num
        ensures { result ≡ bitwise_not self }
    {
        Num::of_int32(!self.to_int32())
    }

    /// `self << r` (ECMA-262 6.1.6.1.9).
    #[tactic(auto, unfolding(crate::specs::Bits::left_shift))]
    pub fn shl(self, r: Num) -> Num
        ensures { result ≡ left_shift self r }
    {
        Num::of_int32(self.to_int32() << r.shift_count())
    }

    /// `self >> r` (ECMA-262 6.1.6.1.10).
    #[tactic(auto, unfolding(crate::specs::Bits::signed_right_shift))]
    pub fn shr(self, r: Num) -> Num
        ensures { result ≡ signed_right_shift self r }
    {
        Num::of_int32(self.to_int32() >> r.shift_count())
    }

    /// `self >>> r` (ECMA-262 6.1.6.1.11).
    #[tactic(auto, unfolding(crate::specs::Bits::unsigned_right_shift))]
    pub fn ushr(self, r: Num) -> Num
        ensures { result ≡ unsigned_right_shift self r }
    {
        Num::of_uint32(self.to_uint32() >> r.shift_count())
    }
}
