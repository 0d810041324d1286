//! A stream of numbers from a seed: the same seed, the same stream.
ghost use Rattle.std.specs.Prelude.{◌≡◌, ◌<◌};

/// The numbers that are most likely to show a fault.
const CORNERS: [i32; 8] = [i32::MIN, i32::MAX, -1, 0, 1, 2, i32::MIN + 1, -2];

/// The generator splitmix64, whose state is one word.
#[derive(Clone, Copy)]
pub struct Random {
    state: u64,
}

impl Random {
    pub fn new(seed: u64) -> Random {
        Random { state: seed }
    }

    /// The next word, each bit as likely set as not.
    fn word(&mut self) -> u64 {
        self.state = self.state.wrapping_add(0x9e37_79b9_7f4a_7c15);
        let mixed = (self.state ^ (self.state >> 30)).wrapping_mul(0xbf58_476d_1ce4_e5b9);
        let mixed = (mixed ^ (mixed >> 27)).wrapping_mul(0x94d0_49bb_1331_11eb);
        mixed ^ (mixed >> 31)
    }

    /// A number below the bound; 0 where the bound is 0.
    pub fn below(&mut self, bound: u32) -> u32
        ensures below { 0 < bound → result < bound }
        ensures none_below { bound ≡ 0 → result ≡ 0 }
    {
        if bound == 0 {
            return 0;
        }
        (self.word() % u64::from(bound)) as u32
    }

    /// An index of a list that is so long; 0 where it is empty.
    pub fn index(&mut self, length: usize) -> usize
        ensures below { 0 < length → result < length }
        ensures none_below { length ≡ 0 → result ≡ 0 }
    {
        if length == 0 {
            return 0;
        }
        (self.word() % length as u64) as usize
    }

    /// Yes so many times in a hundred.
    pub fn chance(&mut self, in_a_hundred: u32) -> bool {
        self.below(100) < in_a_hundred
    }

    /// One of the choices.
    pub fn choice<T: Copy>(&mut self, choices: &[T]) -> Option<T> {
        let index = self.index(choices.len());
        choices.get(index).copied()
    }

    /// A byte.
    pub fn byte(&mut self) -> u8 {
        (self.word() & 0xff) as u8
    }

    /// Any number.
    pub fn any_number(&mut self) -> i32 {
        ((self.word() & 0xffff_ffff) as u32).cast_signed()
    }

    /// A number: a small one mostly, often a corner.
    pub fn number(&mut self) -> i32 {
        match self.below(10) {
            0..6 => self.below(17) as i32 - 5,
            6..9 => self.choice(&CORNERS).unwrap_or(0),
            _ => self.any_number(),
        }
    }
}

#[cfg(test)]
mod tests {
    use super::*;

    // The first words that the generator's authors print for this seed.
    #[test]
    fn words_are_splitmix64(rt: HostRuntime) {
        let mut random = Random::new(1_234_567);
        let words = [random.word(), random.word(), random.word()];
        assert_eq!(rt;
            words,
            [
                6_457_827_717_110_365_317,
                3_203_168_211_198_807_973,
                9_817_491_932_198_370_423
            ]
        );
    }
}
