//! Arcs of a list of separations.
ghost use Rattle.std.specs.Prelude.{◌≡◌, ◌≤◌, nat_abs};

use units::Sep;

/// A separation of a list taken forwards, from left to right, or, where it is exact, taken back with its gap negated.
#[derive(Clone, Copy, Debug, PartialEq, Eq)]
pub struct CycleArc {
    /// The number of the separation in its list.
    pub sep: u16,
    /// Whether it is taken back, from right to left.
    pub back: bool,
}

impl CycleArc {
    ghost use Rattle.units.specs.Separation.{separation_at};
    ghost use Rattle.cycle_test.specs.Cycle.{IsArc, start_of, end_of, gap_of};

    /// The variable that it leaves.
    pub(crate) fn start(self, seps: &[Sep]) -> u16
        requires { IsArc seps.now self }
        ensures { result ≡ start_of seps.now self }
    {
        let sep = seps[self.sep as usize];
        if self.back { sep.right } else { sep.left }
    }

    /// The variable that it reaches.
    pub(crate) fn end(self, seps: &[Sep]) -> u16
        requires { IsArc seps.now self }
        ensures { result ≡ end_of seps.now self }
    {
        let sep = seps[self.sep as usize];
        if self.back { sep.left } else { sep.right }
    }

    /// Its gap in diagram units, negated where it is taken back.
    pub(crate) fn gap(self, seps: &[Sep]) -> i32
        requires arc { IsArc seps.now self }
        requires near { nat_abs (separation_at seps.now self.sep).gap ≤ 1000000 }
        ensures { result ≡ gap_of seps.now self }
    {
        let gap = seps[self.sep as usize].gap;
        if self.back { -gap } else { gap }
    }
}
