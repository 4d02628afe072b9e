//! A problem taken apart into its components.
ghost use Rattle.std.specs.Prelude.{◌≡◌, ◌<◌, ◌≤◌, ◌++◌, All, IfOk, OnOk, length};
ghost use Rattle.units.specs.Problem.{IsBounded};
ghost use Rattle.axis_project.specs.Components.{component, AreKeys};
ghost use Rattle.axis_project.specs.Apart.{IsTakenApart, components, problems};

use crate::joining::parts;
use crate::keys::{Keys, keys_of, ranks, renumbered, separation_keys, those};
use std::alloc::Global;
use units::{Memory, Problem, Sep};

/// A problem taken apart: each variable has a key, both ends of each separation have one, and the variables and separations of
/// a key are its component.
#[derive(Drop)]
pub(crate) struct Apart {
    /// The key of each variable.
    pub(crate) keys: Vec<u16>,
    /// All keys are below.
    pub(crate) count: u16,
    /// The number of each variable among those of its key.
    pub(crate) ranks: Vec<u16>,
    /// The key of each separation.
    pub(crate) separation_keys: Vec<u16>,
    /// The number of each separation among those of its key.
    pub(crate) separation_ranks: Vec<u16>,
    /// The separations, between the numbers of their ends.
    pub(crate) renumbered: Vec<Sep>,
}

/// A component, and the numbers of its separations that a hint has.
#[derive(Drop)]
pub(crate) struct Component {
    pub(crate) problem: Problem,
    pub(crate) hint: Vec<u16>,
}

/// The keys of the variables of a problem: those of one part have one key.
fn keyed(alloc: Global, problem: &Problem) -> Result<Keys, Memory>
    ensures keys { IfOk result (λ keys. AreKeys problem.now keys.of_variables.items) }
    ensures below { IfOk result (λ keys. All (λ key. key < keys.count) keys.of_variables.items) }
{
    let count = problem.desired().len() as u16;
    let parts = parts(alloc, count, problem.seps())?;
    keys_of(alloc, &parts)
}

/// The problem, taken apart.
pub(crate) fn taken_apart(alloc: Global, problem: &Problem) -> Result<Apart, Memory>
    ensures apart { IfOk result (IsTakenApart problem.now) }
    ensures bounded { IsBounded problem.now }
{
    let seps = problem.seps();
    let Keys {
        of_variables: keys,
        count,
    } = keyed(alloc, problem)?;
    let ranks_of_variables = ranks(alloc, &keys, count)?;
    let separation_keys = separation_keys(alloc, &keys, seps)?;
    let separation_ranks = ranks(alloc, &separation_keys, count)?;
    let renumbered = renumbered(alloc, &ranks_of_variables, seps)?;
    Ok(Apart {
        keys,
        count,
        ranks: ranks_of_variables,
        separation_keys,
        separation_ranks,
        renumbered,
    })
}

/// What of a hint speaks of separations that have this key, by their numbers among them.
fn hinted(alloc: Global, apart: &Apart, hint: &[u16], key: u16) -> Result<Vec<u16>, Memory>
    requires { length apart.now.separation_ranks.items ≡ length apart.now.separation_keys.items }
{
    let mut list = Vec::new(alloc);
    for at in 0..hint.len() {
        let number = usize::from(hint[at]);
        if number < apart.separation_keys.len() && apart.separation_keys[number] == key {
            list.push(apart.separation_ranks[number])?;
        }
    }
    Ok(list)
}

/// The component of a key.
fn component_problem(
    alloc: Global,
    problem: &Problem,
    apart: &Apart,
    key: u16,
) -> Result<Problem, Memory>
    requires { IsTakenApart problem.now apart.now }
    ensures { IfOk result (λ part. part ≡ component problem.now apart.now.keys.items key) }
{
    let weights = those(alloc, &apart.keys, key, problem.weights())?;
    let desired = those(alloc, &apart.keys, key, problem.desired())?;
    let separations = those(alloc, &apart.separation_keys, key, &apart.renumbered)?;
    Ok(Problem::new(weights, desired, separations))
}

/// Adds the components of a problem to a list, in the order of their keys.
pub(crate) fn add_components(
    alloc: Global,
    problem: &Problem,
    apart: &Apart,
    hint: &[u16],
    list: &mut Vec<Component>,
) -> Result<(), Memory>
    requires { IsTakenApart problem.now apart.now }
    ensures { OnOk result (problems list.new.items ≡ problems list.old.items ++ components problem.now apart.now.keys.items apart.now.count) }
{
    for key in 0..apart.count {
        let part = component_problem(alloc, problem, apart, key)?;
        let numbers = hinted(alloc, apart, hint, key)?;
        list.push(Component {
            problem: part,
            hint: numbers,
        })?;
    }
    Ok(())
}
