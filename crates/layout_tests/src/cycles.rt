//! Worked lists of separations, whose answers are known from elsewhere.
use crate::made_problems::{are_sound, exactly, least};
use cycle_test::{CycleArc, Verdict, test};
use std::alloc::Global;
use std::test::Fail;
use units::Sep;

/// What the gaps of the arcs add up to.
fn gap_sum(seps: &[Sep], arcs: &[CycleArc]) -> Option<i64> {
    let mut sum: i64 = 0;
    for arc in arcs {
        let gap = i64::from(seps.get(arc.sep as usize)?.gap);
        sum = sum.wrapping_add(if arc.back { -gap } else { gap });
    }
    Some(sum)
}

/// Whether the places are these, less the first one.
fn are(found: &[i64], wanted: &[i64]) -> bool {
    let Some(first) = found.first() else {
        return wanted.is_empty();
    };
    if found.len() != wanted.len() {
        return false;
    }
    for (place, want) in found.iter().zip(wanted) {
        if place.wrapping_sub(*first) != *want {
            return false;
        }
    }
    true
}

/// Checks the answer to a list: these places, less the first one, or a cycle of so many arcs whose gaps have this sum.
fn row(
    alloc: Global,
    n: u16,
    seps: &[Sep],
    places: &[i64],
    count: usize,
    sum: i64,
) -> Result<(), Fail> {
    if n > 258 || seps.len() > 2048 || !are_sound(n, seps) {
        return Err("a list within the bounds".into());
    }
    let right = match test(alloc, n, seps)? {
        Verdict::Places(found) => count == 0 && are(found.as_slice(), places),
        Verdict::Cycle(arcs) => {
            arcs.len() == count && gap_sum(seps, arcs.as_slice()) == Some(sum)
        }
    };
    if !right {
        return Err("another answer".into());
    }
    Ok(())
}

#[test]
fn worked_lists(rt: HostRuntime) -> Result<(), Fail> {
    let tight_cycle = [least(0, 1, 10), least(1, 0, -10)];
    let positive_cycle = [least(0, 1, 10), least(1, 0, -9)];
    // Three boxes of 40 in a row and a rigid page round them, whose edges are the variables 3 and 4.
    let mut rigid_page = [
        least(0, 1, 40),
        least(1, 2, 40),
        least(3, 0, 0),
        least(0, 4, 40),
        least(3, 1, 0),
        least(1, 4, 40),
        least(3, 2, 0),
        least(2, 4, 40),
        least(3, 4, 0),
        exactly(3, 4, 100),
    ];
    let narrow_page = rigid_page;
    rigid_page[9].gap = 120;
    let alloc = rt.alloc();
    row(alloc, 0, &[], &[], 0, 0)?;
    row(alloc, 2, &tight_cycle, &[0, 10], 0, 0)?;
    row(alloc, 2, &positive_cycle, &[], 2, 1)?;
    row(alloc, 5, &narrow_page, &[], 5, 20)?;
    row(alloc, 5, &rigid_page, &[0, 40, 80, 0, 120], 0, 0)
}
