// Which versions a clause admits.

ghost use Rattle.std.specs.Prelude.{◌≡◌, ◌≢◌, ◌||◌, if◌then◌else◌, not, true};
ghost use Rattle.pep_version.specs.Order.{public_version, version_cmp};
ghost use Rattle.specifiers.specs.Admits.{
  admits,
  begins_padded,
  compatible_prefix,
  has_prefix,
  is_post_release_of,
  is_pre_release_of,
  says,
};
ghost use Rattle.specifiers.specs.Clause.{prefix_clause, prefix_of, version_clause};
ghost use Rattle.specifiers.specs.Operator.{leaves_out, of_prefix, of_version, takes_label};
ghost use Rattle.specifiers.specs.Way.Ends.{is_before_end, is_behind_begin, is_between, order_to};
ghost use Rattle.texts.specs.Lists.{is_empty};

use crate::clause::read::version_fault;
use crate::clause::{Clause, Operand};
use crate::fault::ClauseFault;
use crate::op::{Begin, End, Op};
use pep_version::Version;
use std::alloc::Global;
use std::cmp::Ordering;

// How the version without its local version label stands to the other.
fn public_order(version: &Version, other: &Version) -> Ordering
    ensures { result ≡ version_cmp (public_version version.now) other.now }
{
    version.order_with(version.pre(), version.post(), version.dev(), other)
}

// How the other stands to the version without its local version label.
fn order_to_public(other: &Version, version: &Version) -> Ordering
    ensures { result ≡ version_cmp other.now (public_version version.now) }
{
    public_order(version, other).reverse()
}

// Whether the version is a pre-release of the other (PEP 440, "Exclusive ordered comparison").
fn is_pre_release_of(version: &Version, other: &Version) -> bool
    ensures { result ≡ is_pre_release_of version.now other.now }
{
    let without_dev = version.order_with(version.pre(), version.post(), None, other);
    if without_dev == Ordering::Equal {
        return true;
    }
    version.pre().is_some() && version.order_with(None, None, None, other) == Ordering::Equal
}

// Whether the version is a post-release of the other (PEP 440, "Exclusive ordered comparison").
fn is_post_release_of(version: &Version, other: &Version) -> bool
    ensures { result ≡ is_post_release_of version.now other.now }
{
    version.post().is_some()
        && version.order_with(version.pre(), None, None, other) == Ordering::Equal
}

// Whether the release, padded with zeros, begins with these numbers.
fn begins_padded(numbers: &[u64], release: &[u64]) -> bool
    ensures { result ≡ begins_padded numbers.now release.now }
{
    'numbers: for i in 0..numbers.len() {
        if numbers[i] != release.get(i).copied().unwrap_or(0) {
            return false;
        }
    }
    true
}

// Whether the version has this epoch, and its release begins with these numbers (PEP 440, "Version
// matching").
fn has_prefix(epoch: u64, numbers: &[u64], version: &Version) -> bool
    ensures { result ≡ has_prefix (record { epoch = epoch; release = numbers.now }) version.now }
{
    version.epoch() == epoch && begins_padded(numbers, version.release())
}

// How the version stands to the clause's, its label apart where the clause has none (PEP 440, "Version matching").
fn order_to_wanted(version: &Version, wanted: &Version) -> Ordering
    ensures { result ≡ order_to wanted.now version.now }
{
    if wanted.label().is_empty() {
        public_order(version, wanted)
    } else {
        version.order_to(wanted)
    }
}

// `==` and `.*` (PEP 440, "Version matching").
fn matches_prefix(prefix: &Version, version: &Version) -> bool
    ensures { result ≡ has_prefix (prefix_of prefix.now) version.now }
{
    has_prefix(prefix.epoch(), prefix.release(), version)
}

// Whether the version begins with the release of a clause of `~=` but its last number (PEP 440, "Compatible release").
fn has_compatible_prefix(wanted: &Version, version: &Version) -> bool
    ensures { result ≡ has_prefix (compatible_prefix wanted.now) version.now }
{
    let [numbers @ .., _] = wanted.release() else {
        unreachable!();
    };
    has_prefix(wanted.epoch(), numbers, version)
}

// `<` (PEP 440, "Exclusive ordered comparison").
fn is_less(wanted: &Version, version: &Version) -> bool
    ensures { result ≡ is_before_end End.Less wanted.now version.now }
{
    public_order(version, wanted) == Ordering::Less
        && (wanted.is_pre() || !is_pre_release_of(version, wanted))
}

// `>` (PEP 440, "Exclusive ordered comparison").
fn is_greater(wanted: &Version, version: &Version) -> bool
    ensures { result ≡ is_behind_begin Begin.Greater wanted.now version.now }
{
    order_to_public(wanted, version) == Ordering::Less
        && (wanted.post().is_some() || !is_post_release_of(version, wanted))
}

// Whether the version is behind the place where the versions begin that an operator and the wanted one speak of.
fn is_behind_begin(begin: Begin, wanted: &Version, version: &Version) -> bool
    ensures { result ≡ is_behind_begin begin wanted.now version.now }
{
    match begin {
        Begin::Least => true,
        Begin::Version => order_to_wanted(version, wanted) != Ordering::Less,
        Begin::Greater => is_greater(wanted, version),
    }
}

// Whether a version that is behind that place is also before the place where those end.
fn is_before_end(end: End, wanted: &Version, version: &Version) -> bool
    ensures { result ≡ is_before_end end wanted.now version.now }
{
    match end {
        End::Version => public_order(version, wanted) != Ordering::Greater,
        End::Matching => order_to_wanted(version, wanted) != Ordering::Greater,
        End::Less => is_less(wanted, version),
        End::Prefix => has_compatible_prefix(wanted, version),
        End::All => true,
    }
}

// Whether the version is behind the first place and before the second.
fn is_between(begin: Begin, end: End, wanted: &Version, version: &Version) -> bool
    ensures { result ≡ is_between begin end wanted.now version.now }
{
    is_behind_begin(begin, wanted, version) && is_before_end(end, wanted, version)
}

// What a clause says of a version, where its operator and operand speak of it or don't.
fn said(op: Op, spoken_of: bool) -> bool
    ensures { result ≡ (if leaves_out op then not spoken_of else spoken_of) }
{
    spoken_of != op.leaves_out()
}

// Whether the clause of an operator and a version admits another version; `===` has no such clause.
fn admits_version(op: Op, wanted: &Version, version: &Version) -> bool
    requires { takes_label op || is_empty wanted.now.label ≡ true }
    ensures { op ≢ Op.Exact → result ≡ admits (of_version op wanted.now) version.now }
{
    let between = is_between(op.begin(), op.end(), wanted, version);
    said(op, between)
}

// What the clause of an operator and a version says of another version; nothing where they make no
// clause.
fn admitted_by(op: Op, wanted: &Version, version: &Version) -> Option<bool>
    ensures { result ≡ says (version_clause op wanted.now) version.now }
{
    match version_fault(op, wanted) {
        Some(_) => None,
        None => Some(admits_version(op, wanted, version)),
    }
}

// Whether the clause of an operator and a prefix admits a version.
fn admits_prefix(op: Op, prefix: &Version, version: &Version) -> bool
    ensures { result ≡ admits (of_prefix op (prefix_of prefix.now)) version.now }
{
    said(op, matches_prefix(prefix, version))
}

// What the clause of an operator and a prefix says of a version; nothing where they make no clause.
fn admitted_by_prefix(op: Op, prefix: &Version, version: &Version) -> Option<bool>
    ensures { result ≡ says (prefix_clause op (prefix_of prefix.now)) version.now }
{
    if !op.takes_prefix() {
        return None;
    }
    Some(admits_prefix(op, prefix, version))
}

impl Clause {
    ghost use Rattle.std.specs.Prelude.{◌≡◌, ◌≢◌, ℕ, IfErr, IfOk, IsOk, List, None};
    ghost use Rattle.specifiers.specs.Admits.{SaysOf, admits};
    ghost use Rattle.specifiers.specs.Clause.{IsClauseOf, demanded_text};
    ghost use Rattle.specifiers.specs.Operator.{operator};

    /// Whether the clause admits the version (PEP 440, "Version specifiers"). The version's local
    /// version label counts where the clause has a label itself ("Version matching") and with `===`,
    /// which compares texts ("Arbitrary equality"). The only fault is `NoMemory`, for a clause with
    /// `===`: the others ask for no memory.
    pub fn admits(&self, alloc: Global, version: &Version) -> Result<bool, ClauseFault>
        ensures admits { IfOk result (λ b. b ≡ admits self.now version.now) }
        ensures no_fault { demanded_text self.now ≡ None → IsOk result }
        ensures faults { IfErr result (λ e. e ≡ ClauseFault.NoMemory) }
    {
        let op = self.op();
        let truth = match self.operand() {
            Operand::Version(wanted) => admits_version(op, wanted, version),
            Operand::Prefix(prefix) => admits_prefix(op, prefix, version),
            Operand::Text(text) => version.text(alloc)?.as_str() == text.as_str(),
        };
        Ok(truth)
    }

    /// What the clause of this operator, with the version or prefix that this clause of `==` has, says
    /// of a version, as [`Clause::admits`] does (PEP 440, "Version specifiers"); nothing where the
    /// operator and the text make no clause (see [`Clause::of`]), and where this is no clause of `==`
    /// or the operator is `===`. Nothing is read or copied, and no memory is asked for. Public for the
    /// crate of markers.
    pub fn admits_by(&self, op: Op, version: &Version) -> Option<bool>
        ensures says { (text : List ℕ) → IsClauseOf Op.Equal text self.now → op ≢ Op.Exact →
            SaysOf op text version.now result }
        ensures exact { op ≡ Op.Exact → result ≡ None }
        ensures other { ¬ (operator self.now ≡ Op.Equal) → result ≡ None }
    {
        if self.op() != Op::Equal {
            return None;
        }
        match self.operand() {
            Operand::Version(wanted) => admitted_by(op, wanted, version),
            Operand::Prefix(prefix) => admitted_by_prefix(op, prefix, version),
            Operand::Text(_) => None,
        }
    }
}
