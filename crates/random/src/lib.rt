// Numbers that look random and are the same in each run, for the programs that make networks.
//
// An inner crate: its functions are called by these programs alone, so they may require what those know.
#![tactic(auto)]

ghost use Rattle.std.specs.Prelude.{◌≡◌, ◌<◌, pos, negsuc, ◌+ℤ◌, ◌-ℤ◌, ◌≤ℤ◌};
ghost use Rattle.random.specs.Draws.{advanced, drawn, drawn_between};

const FACTOR: u64 = 6_364_136_223_846_793_005;

const SUMMAND: u64 = 1_442_695_040_888_963_407;

// A source of numbers: each draw advances its state.
#[derive(Drop)]
pub struct Random {
    pub state: u64,
}

impl Random {
    // A source that begins with a seed.
    pub fn new(seed: u64) -> Random
        ensures { result.state ≡ seed }
    {
        Random { state: seed }
    }

    // A number below a limit.
    pub fn below(&mut self, limit: u64) -> u64
        requires { 0 < limit }
        ensures state { self.new.state ≡ advanced self.old.state }
        ensures value { result ≡ drawn (advanced self.old.state) limit }
        ensures limit { result < limit }
    {
        self.state = self.state.wrapping_mul(FACTOR).wrapping_add(SUMMAND);
        (self.state >> 33) % limit
    }

    // A place in a list of a length.
    pub fn place(&mut self, length: usize) -> usize
        requires { 0 < length }
        ensures state { self.new.state ≡ advanced self.old.state }
        ensures value { result ≡ drawn (advanced self.old.state) length }
        ensures limit { result < length }
    {
        // usize and u64 have no From into each other; the proof shows that both casts keep the number
        self.below(length as u64) as usize
    }

    // A number from `low` to `high`.
    pub fn between(&mut self, low: i64, high: i64) -> i64
        requires from { negsuc 999999 ≤ℤ low }
        requires order { low ≤ℤ high }
        requires to { high ≤ℤ pos 1000000 }
        ensures state { self.new.state ≡ advanced self.old.state }
        ensures value { result ≡ drawn_between (advanced self.old.state) low high }
        ensures low { low ≤ℤ result }
        ensures high { result ≤ℤ high }
    {
        // the count is above 0 and at most 2,000,000, so the proof shows that both casts keep the number
        low + self.below((high - low + 1) as u64) as i64
    }
}
