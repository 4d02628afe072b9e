//! A list of arcs that contracts see as a list.
ghost use Rattle.std.specs.Prelude.{◌≡◌};

use cycle_test::CycleArc;
use std::marker::Model;

/// Arcs of a list of separations, in order. Contracts see the list.
#[derive(Debug, Drop)]
pub struct Walk {
    arcs: Vec<CycleArc>,
}

impl Model for Walk {
    ghost use Rattle.std.specs.Prelude.{List};
    ghost use Rattle.cycle_test.specs.declared.arc.CycleArc.{CycleArc};

    ghost Value = { List CycleArc };

    ghost view = { λ a. a.arcs.items };
}

impl Walk {
    /// The walk of these arcs.
    pub fn of(arcs: Vec<CycleArc>) -> Walk
        ensures { result ≡ arcs.items }
    {
        Walk { arcs }
    }

    /// The arcs, in order.
    pub fn arcs(&self) -> &[CycleArc]
        ensures { result.now ≡ self.now }
    {
        self.arcs.as_slice()
    }
}

impl PartialEq for Walk {
    ghost use Rattle.edit_rules.specs.Walks.{same_arc};
    ghost use Rattle.std.specs.Cmp.{partial_equiv_from_equiv};
    ghost use Rattle.std.specs.Cmp.Lexicographic.{pointwise, lists_equiv};
    ghost use Rattle.std.specs.Cmp.Rules.{comparing};
    ghost use Rattle.std.proofs.Common.{rules};

    ghost eq = { pointwise same_arc };

    ghost laws = { partial_equiv_from_equiv (lists_equiv (Prim.search (comparing, rules))) };

    fn eq(&self, other: &Walk) -> bool {
        self.arcs() == other.arcs()
    }
}
