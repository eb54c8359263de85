// The cuts where the ranges of operators begin and end.

ghost use Rattle.std.specs.Prelude.{
  ◌≡◌,
  ◌+◌,
  ◌∷◌,
  ◌++◌,
  [],
  nat_lt,
  option_map,
  if◌then◌else◌,
  IfOk,
  None,
  Some,
};
ghost use Rattle.pep_version.specs.Order.{without_dev, without_post};
ghost use Rattle.pep_clause.specs.Cut.{IsCut};
ghost use Rattle.specifiers.specs.Admits.{compatible_prefix};
ghost use Rattle.pep_clause.specs.OperatorTable.{after_last_dev, done, greater_from, last, less_to, matching_to, next};
ghost use Rattle.pep_clause.specs.OperatorTable.{next_phase, prefix_end, raised};
ghost use Rattle.pep_clause.specs.Ends.{begin_cut, end_cut};

use crate::cut::Cut;
use pep_version::{Phase, Version};
use specifiers::{Begin, End};
use std::alloc::{AllocError, Global};

// The number above, unless this is the largest.
fn next_number(n: u64) -> Option<u64>
    ensures { result ≡ (if nat_lt n last then Some (n + 1) else None) }
{
    n.checked_add(1)
}

// The cut directly after all pre-releases of the phase: before the first of the next phase, or
// before the release.
fn next_phase(alloc: Global, version: &Version, phase: Phase) -> Result<Cut, AllocError>
    ensures place { IfOk result (λ c.
        c ≡ next_phase phase (without_dev (without_post version.now))) }
    ensures spelled { IfOk result (λ c. IsCut c) }
{
    match phase {
        Phase::Alpha => {
            Cut::before_suffixed(alloc, version, Some((Phase::Beta, 0)), None, Some(0))
        }
        Phase::Beta => Cut::before_suffixed(alloc, version, Some((Phase::Rc, 0)), None, Some(0)),
        Phase::Rc => Cut::before_suffixed(alloc, version, None, None, None),
    }
}

// The cut directly after a pre-release and its post-releases, or past everything of a release.
fn done(alloc: Global, version: &Version) -> Result<Cut, AllocError>
    ensures place { IfOk result (λ c. c ≡ done version.now) }
    ensures spelled { IfOk result (λ c. IsCut c) }
{
    let Some((phase, number)) = version.pre() else {
        return Cut::past(alloc, version);
    };
    match next_number(number) {
        Some(n) => Cut::before_suffixed(alloc, version, Some((phase, n)), None, Some(0)),
        None => next_phase(alloc, version, phase),
    }
}

// The cut directly after a version whose developmental release number is the largest.
fn after_last_dev(alloc: Global, version: &Version) -> Result<Cut, AllocError>
    ensures place { IfOk result (λ c. c ≡ after_last_dev version.now.pre version.now.post
        version.now) }
    ensures spelled { IfOk result (λ c. IsCut c) }
{
    match (version.pre(), version.post()) {
        (None, None) => {
            Cut::before_suffixed(alloc, version, Some((Phase::Alpha, 0)), None, Some(0))
        }
        (None, Some(n)) => Cut::before_suffixed(alloc, version, None, Some(n), None),
        (Some(pre), post) => Cut::before_suffixed(alloc, version, Some(pre), post, None),
    }
}

// The cut directly after a version without a label and all its labels: where `<=` ends (PEP 440,
// "Inclusive ordered comparison").
fn next(alloc: Global, version: &Version) -> Result<Cut, AllocError>
    ensures place { IfOk result (λ c. c ≡ next version.now) }
    ensures spelled { IfOk result (λ c. IsCut c) }
{
    let (pre, post) = (version.pre(), version.post());
    if let Some(dev) = version.dev() {
        return match next_number(dev) {
            Some(n) => Cut::before_suffixed(alloc, version, pre, post, Some(n)),
            None => after_last_dev(alloc, version),
        };
    }
    let Some(number) = post else {
        return Cut::before_suffixed(alloc, version, pre, Some(0), Some(0));
    };
    match next_number(number) {
        Some(n) => Cut::before_suffixed(alloc, version, pre, Some(n), Some(0)),
        None => done(alloc, version),
    }
}

// Where `>` begins (PEP 440, "Exclusive ordered comparison").
fn greater_from(alloc: Global, version: &Version) -> Result<Cut, AllocError>
    ensures place { IfOk result (λ c. c ≡ greater_from version.now) }
    ensures spelled { IfOk result (λ c. IsCut c) }
{
    if version.post().is_none() && version.dev().is_none() {
        done(alloc, version)
    } else {
        next(alloc, version)
    }
}

// Where `<` ends: a version that is no pre-release leaves its own pre-releases out (PEP 440,
// "Exclusive ordered comparison").
fn less_to(alloc: Global, version: &Version) -> Result<Cut, AllocError>
    ensures place { IfOk result (λ c. c ≡ less_to version.now) }
    ensures spelled { IfOk result (λ c. IsCut c) }
{
    if version.is_pre() {
        Cut::before(alloc, version).map_err(|_| AllocError)
    } else {
        Cut::before_suffixed(alloc, version, version.pre(), version.post(), Some(0))
    }
}

// Where `==` ends (PEP 440, "Version matching").
fn matching_to(alloc: Global, version: &Version) -> Result<Cut, AllocError>
    ensures place { IfOk result (λ c. c ≡ matching_to version.now) }
    ensures spelled { IfOk result (λ c. IsCut c) }
{
    if version.label().is_empty() {
        next(alloc, version)
    } else {
        Cut::after(alloc, version)
    }
}

// The number above the rightmost that is not the largest, and the numbers in front of that one.
fn raised(release: &[u64]) -> Option<(&[u64], u64)>
    ensures { option_map (λ p. p.0.now ++ (p.1 ∷ [])) result ≡ raised release.now }
{
    let mut rest = release;
    while let [front @ .., number] = rest {
        if let Some(n) = next_number(*number) {
            return Some((front, n));
        }
        rest = front;
    }
    None
}

/// The cut directly after all versions with this epoch whose release begins with these numbers (PEP
/// 440, "Version matching").
pub(crate) fn prefix_end(alloc: Global, epoch: u64, release: &[u64]) -> Result<Cut, AllocError>
    ensures place { IfOk result (λ c. c ≡ prefix_end (record {
      epoch = epoch;
      release =
          release.now;
    })) }
    ensures spelled { IfOk result (λ c. IsCut c) }
{
    if let Some((front, number)) = raised(release) {
        let mut numbers = Vec::from_slice(alloc, front)?;
        numbers.push(number)?;
        return Cut::before_dev(alloc, epoch, numbers.as_slice());
    }
    match next_number(epoch) {
        Some(n) => Cut::before_dev(alloc, n, &[0]),
        None => Ok(Cut::end()),
    }
}

// Behind all versions that begin with the release but its last number (PEP 440, "Compatible release").
fn behind_prefix(alloc: Global, version: &Version) -> Result<Cut, AllocError>
    ensures place { IfOk result (λ c. c ≡ prefix_end (compatible_prefix version.now)) }
    ensures spelled { IfOk result (λ c. IsCut c) }
{
    let release = version.release();
    prefix_end(alloc, version.epoch(), &release[..release.len() - 1])
}

/// The cut where the versions begin that the clause of an operator and this version speaks of.
pub(crate) fn begin_cut(alloc: Global, begin: Begin, version: &Version) -> Result<Cut, AllocError>
    ensures place { IfOk result (λ c. c ≡ begin_cut begin version.now) }
    ensures spelled { IfOk result (λ c. IsCut c) }
{
    match begin {
        Begin::Least => Ok(Cut::least()),
        Begin::Version => Cut::before(alloc, version).map_err(|_| AllocError),
        Begin::Greater => greater_from(alloc, version),
    }
}

/// The cut where they end.
pub(crate) fn end_cut(alloc: Global, end: End, version: &Version) -> Result<Cut, AllocError>
    ensures place { IfOk result (λ c. c ≡ end_cut end version.now) }
    ensures spelled { IfOk result (λ c. IsCut c) }
{
    match end {
        End::Version => next(alloc, version),
        End::Matching => matching_to(alloc, version),
        End::Less => less_to(alloc, version),
        End::Prefix => behind_prefix(alloc, version),
        End::All => Ok(Cut::end()),
    }
}
