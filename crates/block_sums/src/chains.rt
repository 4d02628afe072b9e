//! Where each variable stands among the ends of the active separations.
ghost use Rattle.std.specs.Prelude.{◌≡◌, ◌<◌, ◌≤◌, length, IfOk};
ghost use Rattle.std.specs.List.{All};
ghost use Rattle.block_sums.specs.Ends.{end_of, AreChains};

use std::alloc::{AllocError, Global};
use units::Sep;

/// For each variable the last active separation that it ends, and for each active separation the one before it with the same
/// end. Both are places in the active list, counted from 1; 0 says that there is none.
#[derive(Drop)]
pub struct Chains {
    /// By the number of the variable.
    pub lasts: Vec<usize>,
    /// By the place in the active list.
    pub befores: Vec<usize>,
}

/// One end of a separation.
pub fn end_of(sep: &Sep, right: bool) -> u16
    ensures { result ≡ end_of sep.now right }
{
    if right { sep.right } else { sep.left }
}

/// The chains of the left or of the right ends.
pub fn chain(
    alloc: Global,
    count: usize,
    seps: &[Sep],
    active: &[u16],
    right: bool,
) -> Result<Chains, AllocError>
    requires below { All (λ k. k < length seps.now) active.now }
    requires ends { All (λ sep. (sep.left < count) × (sep.right < count)) seps.now }
    requires short { count ≤ 258 }
    ensures { IfOk result (λ chains. AreChains seps.now active.now right count chains) }
{
    let mut lasts: Vec<usize> = vec![in alloc; 0; count]?;
    let mut befores: Vec<usize> = Vec::with_capacity(alloc, active.len())?;
    for number in active {
        let end = end_of(&seps[*number as usize], right) as usize;
        befores.push(lasts[end])?;
        lasts[end] = befores.len();
    }
    Ok(Chains { lasts, befores })
}
