//! A law about the definitions alone.
ghost use Rattle.std.specs.Prelude.{ℕ, ℤ, Bool, IsTrue};
ghost use Rattle.solver_law.specs.State.{Givens, Point, IsState, mix};

/// **The law of sums**: sums of states are states. So a state in which the active separations are tight may slide along a
/// direction, a state over 0, and stays one.
pub fn sum_law()
    ensures { (p : Givens) (on pushed : ℕ → Bool) (c t : ℤ) (a b : Point)
        → IsState p (λ k. IsTrue (on k)) (λ k. IsTrue (pushed k)) a → IsState p (λ k. IsTrue (on k)) (λ k. IsTrue (pushed k)) b
        → IsState p (λ k. IsTrue (on k)) (λ k. IsTrue (pushed k)) (mix c a t b) }
{}
