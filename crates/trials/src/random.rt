//! Numbers that look random and are the same in every run.

ghost use Rattle.std.specs.Prelude.{◌<◌, ◌≤◌, ◌≢◌};

/// A generator of 64 bits by shifts and exclusive or.
#[derive(Drop)]
pub struct Random {
    state: u64,
}

impl Random {
    /// A generator that starts from a seed. Its state is never 0.
    pub(crate) fn from_seed(seed: u64) -> Self {
        Random { state: seed | 1 }
    }

    fn next(&mut self) -> u64 {
        let mut x = self.state;
        x ^= x << 13;
        x ^= x >> 7;
        x ^= x << 17;
        self.state = x;
        x.wrapping_mul(0x2545_f491_4f6c_dd1d)
    }

    /// A number below `count`, and 0 where that is 0.
    // No `Option`: no caller draws from nothing, and each would have to say so.
    pub(crate) fn below(&mut self, count: usize) -> usize
        ensures below { 1 ≤ count → result < count }
        ensures within { result ≤ count }
    {
        if count == 0 {
            return 0;
        }
        ((self.next() >> 32) % count as u64) as usize
    }

    /// One of `count` numbers from `least` upwards.
    pub(crate) fn upwards(&mut self, least: i32, count: u8) -> i32 {
        least.saturating_add(self.below(usize::from(count)) as i32)
    }

    /// Two different numbers, below `count` where that is 2 or more.
    pub(crate) fn two_below(&mut self, count: usize) -> (usize, usize)
        ensures there { 2 ≤ count → (result.0 < count) × (result.1 < count) }
        ensures differ { result.0 ≢ result.1 }
    {
        let one = self.below(count);
        let other = self.below(count.saturating_sub(1));
        if other < one {
            (one, other)
        } else {
            (one, other.saturating_add(1))
        }
    }
}
