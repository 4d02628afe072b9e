//! The table of certificates: one separation of two variables, shown or not.
use crate::made_problems::{exactly, least, problem_of};
use frac128::Frac;
use multiplier_check::{Certificate, floor_law, shows};
use std::alloc::{AllocError, Global};
use std::test::Fail;
use units::{Problem, Sequence};

// Two variables of weight 1, desired at 0 and at the given place, the second 20 behind the first.
fn problem(alloc: Global, second: i64, exact: bool) -> Result<Problem, Fail> {
    let sep = if exact {
        exactly(0, 1, 20)
    } else {
        least(0, 1, 20)
    };
    problem_of(alloc, &[1, 1], &[0, second], &[sep])
}

fn certificate(
    alloc: Global,
    first: Frac,
    second: Frac,
    multiplier: Option<Frac>,
) -> Result<Certificate, AllocError> {
    let mut multipliers = Vec::new(alloc);
    if let Some(multiplier) = multiplier {
        multipliers.push(multiplier)?;
    }
    Ok(Certificate {
        places: Sequence::of(vec![in alloc; first, second]?),
        multipliers: Sequence::of(multipliers),
    })
}

#[test]
fn certificate_table(rt: HostRuntime) -> Result<(), Fail> {
    floor_law();
    let alloc = rt.alloc();
    let near = problem(alloc, 4, false)?;
    let far = problem(alloc, 50, false)?;
    let exact = problem(alloc, 50, true)?;
    let whole = |n: i128| Frac::of(n, 1);
    // The problem, the two places, the multiplier, and whether the certificate shows the projection.
    let rows = [
        (&near, whole(-8), whole(12), Some(whole(16)), true),
        (&near, whole(-8), whole(12), Some(whole(0)), false),
        (&near, whole(-9), whole(11), Some(whole(16)), false),
        (&near, Frac::of(-16, 2), whole(12), Some(whole(16)), false),
        (&near, whole(-8), whole(12), None, false),
        (&far, whole(15), whole(35), Some(whole(-30)), false),
        (&exact, whole(15), whole(35), Some(whole(-30)), true),
    ];
    for (problem, first, second, multiplier, shown) in rows {
        let certificate = certificate(alloc, first, second, multiplier)?;
        assert_eq!(rt; shows(problem, &certificate), shown);
    }
    Ok(())
}
