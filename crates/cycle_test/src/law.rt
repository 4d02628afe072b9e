//! The feasibility law, of definitions alone.
ghost use Rattle.cycle_test.specs.Feasibility.{NeverBoth, OneOfBoth};

/// The feasibility law: each list of separations has whole places that satisfy it, or a positive cycle, and never
/// both. Where a positive cycle exists, not even places in fractions satisfy the list. The call does nothing; its
/// contract is the law.
pub fn feasibility_law()
    ensures never_both { NeverBoth }
    ensures one_of_both { OneOfBoth }
{}
