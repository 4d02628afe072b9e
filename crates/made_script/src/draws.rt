//! Numbers that are drawn.
ghost use Rattle.std.specs.Prelude.{◌≡◌, ◌<◌, ◌/◌, ◌^◌};
ghost use Rattle.made_script.specs.Draws.{drawn, next, place_drawn};

/// A source of numbers: a linear congruential generator modulo 2^64, with Knuth's constants for his MMIX.
#[derive(Debug, Drop)]
pub struct Draws {
    pub state: u64,
}

/// The state after this one.
fn after(state: u64) -> u64
    ensures { result ≡ next state }
{
    state
        .wrapping_mul(6_364_136_223_846_793_005)
        .wrapping_add(1_442_695_040_888_963_407)
}

/// The upper 31 bits of a state.
fn upper_bits(state: u64) -> u32
    ensures { result ≡ state / 2 ^ 33 }
{
    (state >> 33) as u32
}

impl Draws {
    /// A number below `limit`, at least 1: the state moves on first, and its upper 31 bits decide.
    pub fn below(&mut self, limit: u32) -> u32
        requires { 0 < limit }
        ensures state { self.new.state ≡ next self.old.state }
        ensures value { result ≡ drawn self.new.state limit }
        ensures within { result < limit }
    {
        self.state = after(self.state);
        upper_bits(self.state) % limit
    }

    /// A place within 1,000 diagram units of 0.
    pub fn place(&mut self) -> i32
        ensures state { self.new.state ≡ next self.old.state }
        ensures value { result ≡ place_drawn self.new.state }
    {
        self.below(2001) as i32 - 1000
    }
}
