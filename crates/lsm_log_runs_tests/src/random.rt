// The numbers that scripts are drawn by.
use std::test::Fail;

/// A generator of numbers, splitmix64: its seed alone determines them.
#[derive(Drop, Debug)]
pub struct Random {
    state: u64,
}

impl Random {
    pub fn new(seed: u64) -> Random {
        Random { state: seed }
    }

    /// The next number.
    pub fn draw(&mut self) -> u64 {
        self.state = self.state.wrapping_add(0x9e37_79b9_7f4a_7c15);
        let mixed = (self.state ^ (self.state >> 30)).wrapping_mul(0xbf58_476d_1ce4_e5b9);
        let mixed = (mixed ^ (mixed >> 27)).wrapping_mul(0x94d0_49bb_1331_11eb);
        mixed ^ (mixed >> 31)
    }

    /// A number below this one, 0 for 0.
    pub fn below(&mut self, count: u64) -> u64 {
        self.draw().checked_rem(count).unwrap_or(0)
    }

    /// Whether one of so many cases is met.
    pub fn one_in(&mut self, count: u64) -> bool {
        self.below(count) == 0
    }
}

/// The first numbers of the seed 1234567, as the generator's reference gives them.
const FIRST: [u64; 3] = [
    6_457_827_717_110_365_317,
    3_203_168_211_198_807_973,
    9_817_491_932_198_370_423,
];

#[test]
fn numbers_are_those_of_splitmix64(rt: HostRuntime) -> Result<(), Fail> {
    let mut random = Random::new(1_234_567);
    for wanted in FIRST {
        let drawn = random.draw();
        assert_eq!(rt; drawn, wanted);
    }
    Ok(())
}
