//! Numbers that look like chance, the same in each run.

/// A generator of numbers (xorshift, Marsaglia 2003), from a state other than 0.
#[derive(Clone, Copy)]
pub(crate) struct Chance {
    state: u64,
}

impl Chance {
    /// The numbers of a seed.
    pub(crate) fn of(seed: u32) -> Chance {
        Chance {
            state: (u64::from(seed) << 32) | 0x9e37_79b9,
        }
    }

    /// A number below a limit.
    pub(crate) fn below(&mut self, limit: u32) -> u32 {
        let mut state = self.state;
        state ^= state << 13;
        state ^= state >> 7;
        state ^= state << 17;
        self.state = state;
        ((state >> 40) % u64::from(limit.max(1))) as u32
    }

    /// True once in so many times.
    pub(crate) fn once_in(&mut self, times: u32) -> bool {
        self.below(times) == 0
    }
}
