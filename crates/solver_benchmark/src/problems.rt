//! A problem as text: the numbers of variables and of separations, then for each variable its weight and desired place, then for
//! each separation its left and right end, its gap, and 1 where it is exact, else 0; and then the numbers of separations from
//! which the solver starts, if there are any.
ghost use Rattle.std.specs.Prelude.{◌≤◌, ◌≡◌, nat_abs, IsTrue, All, length};
ghost use Rattle.units.specs.Problem.{IsSeparation};

use std::alloc::{AllocError, Global};
use units::{Problem, Sep};

/// The whole numbers of the text, None where a word isn't one.
fn numbers_of(alloc: Global, text: &str) -> Result<Option<Vec<i64>>, AllocError> {
    let mut numbers = Vec::new(alloc);
    for word in text.split_whitespace() {
        let Ok(number) = word.parse::<i64>() else {
            return Ok(None);
        };
        numbers.push(number)?;
    }
    Ok(Some(numbers))
}

/// The weights and the desired places of a problem.
#[derive(Drop)]
struct Variables {
    weights: Vec<u32>,
    desired: Vec<i64>,
}

/// The variables that the numbers list, None where there are not as many or a weight is out of range.
fn variables_of(alloc: Global, numbers: &[i64]) -> Result<Option<Variables>, AllocError> {
    let mut weights = Vec::new(alloc);
    let mut desired = Vec::new(alloc);
    for pair in numbers.chunks(2) {
        let [weight, place] = pair else {
            return Ok(None);
        };
        let Ok(weight) = u32::try_from(*weight) else {
            return Ok(None);
        };
        weights.push(weight)?;
        desired.push(*place)?;
    }
    Ok(Some(Variables { weights, desired }))
}

/// The separation of four numbers, None where one is out of range.
fn separation_of(numbers: &[i64]) -> Option<Sep> {
    let [left, right, gap, exact] = numbers else {
        return None;
    };
    Some(Sep {
        left: u16::try_from(*left).ok()?,
        right: u16::try_from(*right).ok()?,
        gap: i32::try_from(*gap).ok()?,
        exact: *exact == 1,
    })
}

/// The separations that the numbers list, None where one is out of range.
fn separations_of(alloc: Global, numbers: &[i64]) -> Result<Option<Vec<Sep>>, AllocError> {
    let mut separations = Vec::new(alloc);
    for four in numbers.chunks(4) {
        let Some(separation) = separation_of(four) else {
            return Ok(None);
        };
        separations.push(separation)?;
    }
    Ok(Some(separations))
}

/// Whether the weights are those of a problem.
fn are_weights(weights: &[u32]) -> bool
    ensures { IsTrue result → All (λ w. (1 ≤ w) × (w ≤ 1000)) weights.now }
{
    weights.iter().all(|weight| 1 <= *weight && *weight <= 1000)
}

/// Whether the desired places are those of a problem.
fn are_near(desired: &[i64]) -> bool
    ensures { IsTrue result → All (λ d. nat_abs d ≤ 2000000) desired.now }
{
    desired
        .iter()
        .all(|place| -2_000_000 <= *place && *place <= 2_000_000)
}

/// Whether the separations are those of a problem with so many variables.
fn are_sound(count: u16, separations: &[Sep]) -> bool
    ensures { IsTrue result → All (λ separation. IsSeparation count separation) separations.now }
{
    separations.iter().all(|separation| {
        separation.left < count
            && separation.right < count
            && separation.left != separation.right
            && -1_000_000 <= separation.gap
            && separation.gap <= 1_000_000
    })
}

/// The problem of these lists, None where they aren't within its bounds.
fn bounded(
    alloc: Global,
    weights: &[u32],
    desired: &[i64],
    separations: &[Sep],
) -> Result<Option<Problem>, AllocError> {
    if desired.len() > 258 || separations.len() > 2048 {
        return Ok(None);
    }
    if weights.len() != desired.len() {
        return Ok(None);
    }
    if !are_weights(weights) {
        return Ok(None);
    }
    if !are_near(desired) {
        return Ok(None);
    }
    if !are_sound(desired.len() as u16, separations) {
        return Ok(None);
    }
    Ok(Some(Problem::new(
        weights.to_vec(alloc)?,
        desired.to_vec(alloc)?,
        separations.to_vec(alloc)?,
    )))
}

/// The numbers of separations from which to start, None where one is out of range.
fn hint_of(alloc: Global, numbers: &[i64]) -> Result<Option<Vec<u16>>, AllocError> {
    let mut hint = Vec::new(alloc);
    for number in numbers {
        let Ok(number) = u16::try_from(*number) else {
            return Ok(None);
        };
        hint.push(number)?;
    }
    Ok(Some(hint))
}

/// A problem, and the numbers of separations from which the solver starts.
#[derive(Drop)]
pub struct Posed {
    pub problem: Problem,
    pub hint: Vec<u16>,
}

/// What the text spells, None where it spells no problem within its bounds.
pub fn spelled(alloc: Global, text: &str) -> Result<Option<Posed>, AllocError> {
    let Some(numbers) = numbers_of(alloc, text)? else {
        return Ok(None);
    };
    let [count, many, rest @ ..] = numbers.as_slice() else {
        return Ok(None);
    };
    let Ok(count) = u16::try_from(*count) else {
        return Ok(None);
    };
    let Ok(many) = u16::try_from(*many) else {
        return Ok(None);
    };
    let behind_variables = 2 * count as usize;
    let end = behind_variables + 4 * many as usize;
    if rest.len() < end {
        return Ok(None);
    }
    let Some(variables) = variables_of(alloc, &rest[..behind_variables])? else {
        return Ok(None);
    };
    let Some(separations) = separations_of(alloc, &rest[behind_variables..end])? else {
        return Ok(None);
    };
    let Some(hint) = hint_of(alloc, &rest[end..])? else {
        return Ok(None);
    };
    match bounded(alloc, &variables.weights, &variables.desired, &separations)? {
        Some(problem) => Ok(Some(Posed { problem, hint })),
        None => Ok(None),
    }
}
