//! The first value of a column at which a total is reached, found by jumps.

ghost use Rattle.std.specs.Prelude.{◌≡◌, ℕ, ◌*◌, ◌<◌, ◌≤◌, length, ℤ, pos, negsuc, ◌-ℤ◌, ◌≤ℤ◌, ◌<ℤ◌, unsigned_abs};
ghost use Rattle.totals.specs.Reaching.{Value, Near, Reachable, Least, limited, limits, still_rises, reach_of, moving_of, Moderate, Next};

/// A sum has at most so many summands.
pub const MOST_SUMMANDS: usize = 31;

// That a number is a value is asked of each caller: the numbers are ends of windows that are known to be lawful, and go on as ends.

/// What one column leaves a summand: at most its top, and at most the column's value plus the way.
#[derive(Clone, Copy)]
pub struct Limit {
    pub top: i32,
    pub way: i32,
}

/// How far a total reaches, and how many of its summands still rise.
#[derive(Clone, Copy)]
pub struct Reached {
    pub sum: i64,
    pub moving: u64,
}

/// The limits of the summands of a total: a top and a way for each.
// Two rows: the tops are the same for every column that a trim cuts, and only the ways are filled for each.
#[derive(Clone, Copy)]
pub(crate) struct Limits<'a> {
    pub(crate) tops: &'a [i32],
    pub(crate) ways: &'a [i32],
    ghost even: { length ways.now ≡ length tops.now },
    ghost few: { length tops.now ≤ 31 },
    ghost reachable: { Reachable (limits tops.now ways.now) },
}

impl Limit {
    /// What one summand adds when the column stands at `v`.
    fn reach(self, v: i32) -> Reached
        requires top { Value self.top }
        requires way { Near self.way }
        requires value { Value v }
        ensures sum { result.sum ≡ limited self v }
        ensures moving { result.moving ≡ still_rises self v }
        ensures few { result.moving ≤ 1 }
        ensures low { negsuc 89999999 ≤ℤ result.sum }
        ensures high { result.sum ≤ℤ pos 30000000 }
    {
        let up = v + self.way;
        let moving = u64::from(up < self.top);
        Reached {
            sum: i64::from(self.top.min(up)),
            moving,
        }
    }
}

/// The least number of steps after which `moving` summands can make up the deficit.
fn jump(deficit: u64, moving: u64) -> u64
    requires missing { 0 < deficit }
    requires near { deficit ≤ 10000000000 }
    requires moving { 0 < moving }
    requires few { moving ≤ 31 }
    ensures some { 0 < result }
    ensures enough { deficit ≤ result * moving }
    ensures short { (t : ℕ) → t < result → t * moving < deficit }
{
    deficit.div_ceil(moving)
}

/// The value after a jump from `v`: before it the total is still too small. It is not beyond `last`.
fn next(v: i32, last: i32, deficit: i64, moving: u64) -> i32
    requires value { Value v }
    requires last { Value last }
    requires order { v ≤ℤ last }
    requires missing { pos 0 <ℤ deficit }
    requires near { deficit ≤ℤ pos 10000000000 }
    requires moving { 0 < moving }
    requires few { moving ≤ 31 }
    requires reached { deficit ≤ℤ pos (unsigned_abs (last -ℤ v) * moving) }
    ensures { Next v last deficit moving result }
{
    v + jump(deficit as u64, moving) as i32
}

impl<'a> Limits<'a> {
    /// How far the total reaches when the column stands at `v`.
    fn reach(&self, v: i32) -> Reached
        requires { Value v }
        ensures sum { result.sum ≡ reach_of (limits self.now.tops.now self.now.ways.now) v }
        ensures moving { result.moving ≡ moving_of (limits self.now.tops.now self.now.ways.now) v }
        ensures moderate { Moderate result.sum }
    {
        let mut sum = 0;
        let mut moving = 0;
        for (a, top) in self.tops.iter().enumerate() {
            let way = self.ways[a];
            let one = Limit { top: *top, way }.reach(v);
            sum += one.sum;
            moving += one.moving;
        }
        Reached { sum, moving }
    }

    /// The first value from `first` on at which the total reaches the goal. It is reached at `last`.
    pub(crate) fn least_reaching(&self, goal: i64, first: i32, last: i32) -> i32
        requires first { Value first }
        requires last { Value last }
        requires order { first ≤ℤ last }
        requires reached { goal ≤ℤ reach_of (limits self.now.tops.now self.now.ways.now) last }
        ensures least { Least (limits self.now.tops.now self.now.ways.now) goal first result }
        ensures upto { result ≤ℤ last }
    {
        let mut v = first;
        let mut at = self.reach(v);
        while at.sum < goal {
            v = next(v, last, goal - at.sum, at.moving);
            at = self.reach(v);
        }
        v
    }
}
