//! Certificates of components, put together.
ghost use Rattle.std.specs.Prelude.{◌≡◌, ◌<◌, ◌+◌, ℕ, IfOk, length, slice_index};
ghost use Rattle.multiplier_check.specs.Certificate.{fraction_at, IsCertificate};
ghost use Rattle.multiplier_check.specs.Placement.{IsProjection};
ghost use Rattle.axis_project.specs.Apart.{IsTakenApart};
ghost use Rattle.axis_project.specs.Gather.{half_of, certificate_at, IsGathered, AreShownFrom};

use crate::apart::Apart;
use frac128::Frac;
use multiplier_check::Certificate;
use std::alloc::Global;
use units::{Memory, Problem, Sequence};

/// One of the two lists of a certificate.
#[derive(Clone, Copy)]
pub(crate) enum Half {
    Places,
    Multipliers,
}

/// The list of the certificate.
fn half_of(certificate: &Certificate, half: Half) -> &[Frac]
    ensures { result.now ≡ half_of half certificate.now }
{
    match half {
        Half::Places => certificate.places.as_slice(),
        Half::Multipliers => certificate.multipliers.as_slice(),
    }
}

/// The fraction of a rank.
fn fraction_of(certificate: &Certificate, half: Half, rank: u16) -> Frac
    requires { rank < length (half_of half certificate.now) }
    ensures { result ≡ fraction_at (half_of half certificate.now) rank }
{
    half_of(certificate, half)[rank as usize]
}

/// The fractions of variables or separations with these keys and ranks, from the certificates of the keys, which stand from `first`
/// on.
fn gathered(
    alloc: Global,
    keys: &[u16],
    ranks: &[u16],
    certificates: &[Certificate],
    first: usize,
    half: Half,
) -> Result<Vec<Frac>, Memory>
    requires as_long { length ranks.now ≡ length keys.now }
    requires enough { (v : ℕ) → v < length keys.now → first + slice_index keys.now v < length certificates.now }
    requires within { (v : ℕ) → v < length keys.now → slice_index ranks.now v < length (half_of half (certificate_at certificates.now (first + slice_index keys.now v))) }
    ensures { IfOk result (λ list. IsGathered keys.now ranks.now (λ key. half_of half (certificate_at certificates.now (first + key))) list.items) }
{
    let mut list = Vec::with_capacity(alloc, keys.len())?;
    for at in 0..keys.len() {
        let certificate = &certificates[first + usize::from(keys[at])];
        list.push(fraction_of(certificate, half, ranks[at]))?;
    }
    Ok(list)
}

/// The certificate of the whole problem. Those of its components stand from `first` on, in the order of their keys.
pub(crate) fn together(
    alloc: Global,
    problem: &Problem,
    apart: &Apart,
    certificates: &[Certificate],
    first: usize,
) -> Result<Certificate, Memory>
    requires apart { IsTakenApart problem.now apart.now }
    requires shown { AreShownFrom problem.now apart.now.keys.items apart.now.count first certificates.now }
    ensures shows { IfOk result (IsCertificate problem.now) }
    ensures projection { IfOk result (λ certificate. IsProjection problem.now certificate.places) }
{
    // Asked for what its type keeps, which the proof needs.
    let _seps = problem.seps();
    let places = gathered(
        alloc,
        &apart.keys,
        &apart.ranks,
        certificates,
        first,
        Half::Places,
    )?;
    let multipliers = gathered(
        alloc,
        &apart.separation_keys,
        &apart.separation_ranks,
        certificates,
        first,
        Half::Multipliers,
    )?;
    Ok(Certificate {
        places: Sequence::of(places),
        multipliers: Sequence::of(multipliers),
    })
}
