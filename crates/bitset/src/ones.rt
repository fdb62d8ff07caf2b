// The bits of a word that are set, from the lowest up.
ghost use Rattle.std.specs.Prelude.{◌≡◌, ◌-◌, ◌^◌, ◌≤◌, ◌<◌};

use super::set::lowest_bit;

// Those from bit `at` on: bit b of the word is bit b - at of `left`.
#[derive(Drop)]
pub struct Ones {
    pub left: u64,
    pub at: usize,
    pub ghost within: { at ≤ 64 },
    pub ghost room: { left < 2 ^ (64 - at) },
}

impl Iterator for Ones {
    type Item = usize;

    ghost use Rattle.std.specs.Iterator.{at_most};
    ghost use Rattle.bitset.specs.Bits.{OnesStep};

    ghost next_gives = { OnesStep };

    ghost remaining = { λ s. at_most (64 - s.at) };

    fn next(&mut self) -> Option<usize> {
        if self.left == 0 {
            return None;
        }
        let zeros = lowest_bit(self.left);
        let bit = self.at + zeros;
        self.left = (self.left >> zeros) / 2;
        self.at = bit + 1;
        Some(bit)
    }
}
