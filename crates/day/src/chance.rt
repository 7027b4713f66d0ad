//! Numbers that look random and are the same in each run.
ghost use Rattle.std.specs.Prelude.{◌<◌};

/// A fixed sequence of numbers, by xorshift: the same seed gives the same day. From the seed 0 only zeros follow.
#[derive(Drop)]
pub struct Chance {
    state: u64,
}

impl Chance {
    pub fn new(seed: u64) -> Chance {
        Chance { state: seed }
    }

    /// A number below a limit.
    pub(crate) fn below(&mut self, limit: usize) -> usize
        requires { 0 < limit }
        ensures { result < limit }
    {
        let mut x = self.state;
        x ^= x << 13;
        x ^= x >> 7;
        x ^= x << 17;
        self.state = x;
        // The low bits are the least even.
        (x >> 24) as usize % limit
    }

    /// Whether something happens that happens in so many of a thousand cases.
    pub fn happens(&mut self, in_a_thousand: usize) -> bool {
        self.below(1000) < in_a_thousand
    }

    /// One of the values of a byte but 0.
    pub fn sum(&mut self) -> u8 {
        (self.below(255) + 1) as u8
    }

    /// Any value of a byte.
    pub fn byte(&mut self) -> u8 {
        self.below(256) as u8
    }
}
