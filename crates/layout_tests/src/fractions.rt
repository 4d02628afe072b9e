//! What fractions come to, by hand: the sign goes with the numerator, floors go down.
use frac128::Frac;
use std::cmp::Ordering;

// Expected values by hand: the sign goes with the numerator, floors go down.
#[test]
fn keeps_values(rt: HostRuntime) {
    let half = Frac::of(-4, 8);
    let reduced = half.reduced();
    assert!(rt; (reduced.num(), reduced.den()) == (-1, 2));
    assert!(rt; half.compare(&reduced) == Ordering::Equal);
    assert!(rt; half.compare(&Frac::of(-1, 3)) == Ordering::Less);
    assert!(rt; half.floor() == -1 && Frac::of(20004, 1001).floor() == 19);
    assert!(rt; Frac::of(0, 7).is_zero() && !half.is_zero());
    assert!(rt; reduced.is_lowest() && !half.is_lowest());
}
