//! Keys of variables and separations, by which a problem is taken apart.
ghost use Rattle.std.specs.Prelude.{◌≡◌, ◌<◌, ◌≤◌, ◌+◌, ℕ, All, IfOk, length, map, replicate, slice_index, slice_index_or, slice_set};
ghost use Rattle.units.specs.Problem.{IsSeparation};
ghost use Rattle.axis_project.specs.Components.{those, separation_keys};
ghost use Rattle.axis_project.specs.Apart.{KeepTogether, AreRanks, renumbered_by};

use std::alloc::Global;
use units::{Memory, Sep};

/// A number for each part of an axis, counted in the order of their least variables, and for each variable that of its part.
#[derive(Drop)]
pub(crate) struct Keys {
    /// By the number of the variable.
    pub(crate) of_variables: Vec<u16>,
    /// How many numbers there are.
    pub(crate) count: u16,
}

/// The key of a variable: that of the least variable of its part or, for this one itself, a new one.
fn key_of(keys: &Vec<u16>, part: u16, new: u16) -> u16
    ensures { result ≡ slice_index_or keys.now.items part new }
{
    if usize::from(part) < keys.len() {
        keys[part as usize]
    } else {
        new
    }
}

/// The keys of variables, which have the parts that are given.
pub(crate) fn keys_of(alloc: Global, parts: &[u16]) -> Result<Keys, Memory>
    requires few { length parts.now ≤ 258 }
    requires least { (v : ℕ) → v < length parts.now → slice_index parts.now v ≤ v }
    ensures as_long { IfOk result (λ keys. length keys.of_variables.items ≡ length parts.now) }
    ensures below { IfOk result (λ keys. All (λ key. key < keys.count) keys.of_variables.items) }
    ensures together { IfOk result (λ keys. KeepTogether parts.now keys.of_variables.items) }
{
    let mut keys = Vec::with_capacity(alloc, parts.len())?;
    let mut count = 0;
    for var in 0..parts.len() {
        let key = key_of(&keys, parts[var], count);
        count = u16::max(count, key + 1);
        keys.push(key)?;
    }
    Ok(Keys {
        of_variables: keys,
        count,
    })
}

/// So many zeros.
fn zeros(alloc: Global, count: u16) -> Result<Vec<u16>, Memory>
    ensures { IfOk result (λ zeros. zeros.items ≡ replicate count 0) }
{
    let mut zeros = Vec::with_capacity(alloc, count as usize)?;
    for _ in 0..count {
        zeros.push(0)?;
    }
    Ok(zeros)
}

/// The count of a key, which is then one more.
fn count_on(counts: &mut Vec<u16>, key: u16) -> u16
    requires within { key < length counts.old.items }
    requires room { slice_index counts.old.items key ≤ 2048 }
    ensures value { result ≡ slice_index counts.old.items key }
    ensures after { counts.new.items ≡ slice_set counts.old.items key (slice_index counts.old.items key + 1) }
{
    let count = counts[key as usize];
    counts[key as usize] = count + 1;
    count
}

/// The number of each element among those of its key.
pub(crate) fn ranks(alloc: Global, keys: &[u16], count: u16) -> Result<Vec<u16>, Memory>
    requires few { length keys.now ≤ 2048 }
    requires below { All (λ key. key < count) keys.now }
    ensures { IfOk result (λ ranks. AreRanks keys.now ranks.items) }
{
    let mut counts = zeros(alloc, count)?;
    let mut ranks = Vec::with_capacity(alloc, keys.len())?;
    for at in 0..keys.len() {
        ranks.push(count_on(&mut counts, keys[at]))?;
    }
    Ok(ranks)
}

/// The elements that have this key, in order.
pub(crate) fn those<T: Copy>(
    alloc: Global,
    keys: &[u16],
    key: u16,
    items: &[T],
) -> Result<Vec<T>, Memory>
    requires { length keys.now ≡ length items.now }
    ensures { IfOk result (λ list. list.items ≡ those key keys.now items.now) }
{
    let mut list = Vec::new(alloc);
    for at in 0..keys.len() {
        if keys[at] == key {
            list.push(items[at])?;
        }
    }
    Ok(list)
}

/// The key of each separation: that of its left end.
pub(crate) fn separation_keys(alloc: Global, keys: &[u16], seps: &[Sep]) -> Result<Vec<u16>, Memory>
    requires { All (λ separation. IsSeparation (length keys.now) separation) seps.now }
    ensures { IfOk result (λ list. list.items ≡ separation_keys keys.now seps.now) }
{
    let mut list = Vec::with_capacity(alloc, seps.len())?;
    for at in 0..seps.len() {
        list.push(keys[seps[at].left as usize])?;
    }
    Ok(list)
}

/// The separation between the numbers of its ends.
fn renumbered_one(ranks: &[u16], sep: Sep) -> Sep
    requires left { sep.left < length ranks.now }
    requires right { sep.right < length ranks.now }
    ensures { result ≡ renumbered_by ranks.now sep }
{
    Sep {
        left: ranks[sep.left as usize],
        right: ranks[sep.right as usize],
        gap: sep.gap,
        exact: sep.exact,
    }
}

/// The separations between the numbers of their ends.
pub(crate) fn renumbered(alloc: Global, ranks: &[u16], seps: &[Sep]) -> Result<Vec<Sep>, Memory>
    requires { All (λ separation. IsSeparation (length ranks.now) separation) seps.now }
    ensures { IfOk result (λ list. list.items ≡ map (renumbered_by ranks.now) seps.now) }
{
    let mut list = Vec::with_capacity(alloc, seps.len())?;
    for at in 0..seps.len() {
        list.push(renumbered_one(ranks, seps[at]))?;
    }
    Ok(list)
}
