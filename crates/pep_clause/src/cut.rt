// Cuts: positions in the order of versions.

mod read;
mod text;

ghost use Rattle.std.specs.Prelude.{
  ◌≡◌,
  ◌<◌,
  ◌↔◌,
  length,
  refl,
  IfErr,
  IfOk,
  IfSome,
  IsTrue,
};
ghost use Rattle.std.specs.Cmp.{
  eq_by_cmp_equiv,
  partial_equiv_from_equiv,
  partial_order_from_total,
};
ghost use Rattle.std.specs.Ordering.{as_partial_cmp, eq_by_cmp, is_le};
ghost use Rattle.std.specs.declared.cmp.Ordering.TheVariants.{Less, Equal, Greater};
ghost use Rattle.pep_version.specs.Order.{place_of};
ghost use Rattle.pep_version.specs.Version.{IsVersion};
ghost use Rattle.pep_clause.specs.Cut.{
  IsCut,
  after,
  before,
  cut_cmp,
  end,
  is_under,
  least,
};
ghost use Rattle.pep_clause.specs.CutBytes.{cut_bytes};
ghost use Rattle.pep_clause.specs.CutOrder.{LiesIn, LiesStrictlyIn, SameUnder};
ghost use Rattle.pep_clause.specs.CutView.{CutReadsBack, cut_at};
ghost use Rattle.pep_clause.specs.Laws.{cut_total};
ghost use Rattle.pep_clause.specs.OperatorTable.{before_dev, before_place, past_release};

use crate::packed_cut::{CUT_ROOM, PackedCut};
use pep_version::{Key, KeyBytes, Phase, Version};
use specifiers::ClauseFault;
use std::alloc::{AllocError, Global};
use std::cmp::Ordering;
use std::marker::Model;

/// A cut is a place in the order of versions (PEP 440, "Summary of permitted suffixes and relative
/// ordering"), between those under it and the others: directly before a version and all that are
/// the same in order, directly after them, past everything of a release, or the end of all
/// versions.
///
/// A cut is held as a packed cut, or as bytes whose byte order is the order of cuts.
#[derive(Drop)]
pub struct Cut {
    form: Form,
}

// A cut that could be packed may be held as its bytes all the same.
#[derive(Drop)]
enum Form {
    Small(PackedCut),
    Large(Box<KeyBytes>),
}

impl Model for Cut {
    ghost use Rattle.pep_clause.specs.Cut.{Cut};
    ghost use Rattle.pep_clause.specs.CutView.{IsForm, form_cut};

    ghost Value = { Cut };

    ghost view = { λ a. form_cut a.form };

    ghost invariant = { λ a. IsForm a.form };
}

impl Cut {
    /// The cut directly before a version and all that are the same in order (PEP 440, "Inclusive
    /// ordered comparison"). The only fault is `NoMemory`.
    pub fn before(alloc: Global, version: &Version) -> Result<Cut, ClauseFault>
        ensures place { IfOk result (λ c. c ≡ before (place_of version.now)) }
        ensures spelled { IfOk result (λ c. IsCut c) }
        ensures faults { IfErr result (λ e. e ≡ ClauseFault.NoMemory) }
    {
        Ok(Cut::before_suffixed(alloc, version, version.pre(), version.post(), version.dev())?)
    }

    // The cut that is packed.
    fn small(cut: PackedCut) -> Cut
        requires { IsCut cut }
        ensures { result ≡ cut }
    {
        Cut {
            form: Form::Small(cut),
        }
    }

    // The cut with these bytes.
    fn large(alloc: Global, bytes: KeyBytes) -> Result<Cut, AllocError>
        requires { CutReadsBack bytes.items }
        ensures same { IfOk result (λ c. c ≡ cut_at bytes.items) }
        ensures spelled { IfOk result (λ c. IsCut c) }
    {
        Ok(Cut {
            form: Form::Large(Box::new(alloc, bytes)?),
        })
    }

    /// The cut that is packed. Public for the crates above alone.
    pub fn of_packed(cut: PackedCut) -> Cut
        ensures same { result ≡ cut }
        ensures spelled { IsCut result }
    {
        // Its clauses tell that the cut is in its one spelling.
        let _ = cut.cmp(&cut);
        Cut::small(cut)
    }

    /// The same cut packed, if it is held so. Public for the crates above alone.
    pub fn packed(&self) -> Option<PackedCut>
        ensures same { IfSome result (λ p. p ≡ self.now) }
    {
        match &self.form {
            Form::Small(cut) => Some(*cut),
            Form::Large(_) => None,
        }
    }

    // The cut directly before the version at this place, whose bytes are the key's.
    fn before_key(alloc: Global, key: Key) -> Result<Cut, AllocError>
        requires version { IsVersion key }
        requires own_place { place_of key ≡ key }
        ensures place { IfOk result (λ c. c ≡ before key) }
        ensures spelled { IfOk result (λ c. IsCut c) }
    {
        Cut::large(alloc, key.into_bytes())
    }

    /// The cut directly before the version with these suffixes in place of its own.
    pub(crate) fn before_suffixed(
        alloc: Global,
        version: &Version,
        pre: Option<(Phase, u64)>,
        post: Option<u64>,
        dev: Option<u64>,
    ) -> Result<Cut, AllocError>
        ensures place { IfOk result (λ c. c ≡ before_place (record version.now {
          pre = pre;
          post =
              post;
          dev = dev;
        })) }
        ensures spelled { IfOk result (λ c. IsCut c) }
    {
        if let Some(cut) = PackedCut::before(version, pre, post, dev) {
            return Ok(Cut::small(cut));
        }
        let key = Key::with_suffixes(alloc, version, pre, post, dev).map_err(|_| AllocError)?;
        Cut::before_key(alloc, key)
    }

    /// The cut before the first developmental release of a release, and so before all its
    /// pre-releases.
    pub(crate) fn before_dev(alloc: Global, epoch: u64, release: &[u64]) -> Result<Cut, AllocError>
        requires { 0 < length release.now }
        ensures place { IfOk result (λ c. c ≡ before_dev epoch release.now) }
        ensures spelled { IfOk result (λ c. IsCut c) }
    {
        if let Some(cut) = PackedCut::before_dev(epoch, release) {
            return Ok(Cut::small(cut));
        }
        let key = Key::of_release(alloc, epoch, release, Some(0)).map_err(|_| AllocError)?;
        Cut::before_key(alloc, key)
    }

    /// The cut directly after a version with a label and all that are the same in order.
    pub(crate) fn after(alloc: Global, version: &Version) -> Result<Cut, AllocError>
        requires { 0 < length version.now.label }
        ensures place { IfOk result (λ c. c ≡ after (place_of version.now)) }
        ensures spelled { IfOk result (λ c. IsCut c) }
    {
        let Ok(key) = Key::of(alloc, version) else {
            return Err(AllocError);
        };
        let mut bytes = key.into_bytes();
        bytes.push(0)?;
        Cut::large(alloc, bytes)
    }

    /// The cut past everything of a version's release.
    pub(crate) fn past(alloc: Global, version: &Version) -> Result<Cut, AllocError>
        ensures place { IfOk result (λ c. c ≡ past_release version.now) }
        ensures spelled { IfOk result (λ c. IsCut c) }
    {
        let (epoch, release) = (version.epoch(), version.release());
        if let Some(cut) = PackedCut::past(epoch, release) {
            return Ok(Cut::small(cut));
        }
        let Ok(key) = Key::of_release(alloc, epoch, release, None) else {
            return Err(AllocError);
        };
        let mut bytes = key.into_bytes();
        // behind its release the key of a final release has four bytes
        bytes.truncate(bytes.len() - 4);
        bytes.push(0x60)?;
        Cut::large(alloc, bytes)
    }

    /// The end of all versions.
    pub fn end() -> Cut
        ensures { result ≡ end }
    {
        Cut::of_packed(PackedCut::end())
    }

    /// The cut under all versions.
    pub fn least() -> Cut
        ensures { result ≡ least }
    {
        Cut::of_packed(PackedCut::least())
    }

    /// Whether the version at this place is under the cut.
    pub(crate) fn is_above(&self, key: &Key) -> bool
        ensures { result ≡ is_under self.now key.now }
    {
        let mut room = [0; CUT_ROOM];
        key.bytes().cmp(self.bytes(&mut room)) == Ordering::Less
    }

    /// The bytes of the cut: those of the key of its version (see `Key::bytes`), for `after` with a 0
    /// behind them; for `past` those of the release and 0x60; for the end nine bytes 0xff. A
    /// version lies under a cut exactly if the bytes of its key are below these in byte order. They
    /// may be written into the room.
    pub fn bytes<'a>(&'a self, room: &'a mut [u8; CUT_ROOM]) -> &'a [u8]
        ensures bytes { result.now ≡ cut_bytes self.now }
        ensures spelled { IsCut self.now }
    {
        match &self.form {
            Form::Small(cut) => cut.bytes(room),
            Form::Large(bytes) => bytes.as_slice(),
        }
    }

    /// An equal cut in storage of its own. The only fault is `NoMemory`.
    pub fn copied(&self, alloc: Global) -> Result<Cut, ClauseFault>
        ensures same { IfOk result (λ c. c ≡ self.now) }
        ensures spelled { IsCut self.now }
        ensures faults { IfErr result (λ e. e ≡ ClauseFault.NoMemory) }
    {
        match &self.form {
            Form::Small(cut) => Ok(Cut::small(*cut)),
            Form::Large(bytes) => {
                let copy = KeyBytes::from_slice(alloc, bytes.as_slice())?;
                Ok(Cut::large(alloc, copy)?)
            }
        }
    }

    /// How the cuts stand: two packed ones as their numbers, others as their bytes.
    pub(crate) fn order_to(&self, other: &Cut) -> Ordering
        ensures order { result ≡ cut_cmp self.now other.now }
        ensures spelled { IsCut self.now }
        ensures other_spelled { IsCut other.now }
    {
        match (&self.form, &other.form) {
            (Form::Small(cut), Form::Small(other)) => cut.cmp(other),
            (Form::Large(bytes), Form::Large(other)) => bytes.as_slice().cmp(other.as_slice()),
            _ => self.order_of_bytes(other),
        }
    }

    // The same, as their bytes, which are written where a cut is packed.
    #[inline(never)]
    fn order_of_bytes(&self, other: &Cut) -> Ordering
        ensures order { result ≡ cut_cmp self.now other.now }
        ensures spelled { IsCut self.now }
        ensures other_spelled { IsCut other.now }
    {
        let mut room = [0; CUT_ROOM];
        let mut other_room = [0; CUT_ROOM];
        self.bytes(&mut room).cmp(other.bytes(&mut other_room))
    }
}

impl PartialEq for Cut {
    ghost eq = { eq_by_cmp cut_cmp };

    ghost laws = { partial_equiv_from_equiv (eq_by_cmp_equiv cut_total) };

    /// Whether the same versions lie under both.
    fn eq(&self, other: &Cut) -> bool
        ensures test { result ≡ eq_by_cmp cut_cmp self.now other.now }
        ensures same { IsTrue result ↔ SameUnder self.now other.now }
        ensures one { IsTrue result ↔ (self.now ≡ other.now) }
    {
        self.cmp(other) == Ordering::Equal
    }
}

impl Eq for Cut {
    ghost laws = { eq_by_cmp_equiv cut_total };
}

impl PartialOrd for Cut {
    ghost partial_cmp = { as_partial_cmp cut_cmp };

    ghost laws = { partial_order_from_total cut_total };

    fn partial_cmp(&self, other: &Cut) -> Option<Ordering> {
        Some(self.cmp(other))
    }
}

impl Ord for Cut {
    ghost cmp = { cut_cmp };

    ghost total = { cut_total };

    ghost matches_partial_cmp = { λ a b. refl };

    ghost matches_eq = { λ a b. refl };

    /// One cut is less exactly if less lies under it, and two are equal exactly if the same
    /// versions lie under both.
    fn cmp(&self, other: &Cut) -> Ordering
        ensures order { result ≡ cut_cmp self.now other.now }
        ensures within { IsTrue (is_le result) ↔ LiesIn self.now other.now }
        ensures less { (result ≡ Less) ↔ LiesStrictlyIn self.now other.now }
        ensures greater { (result ≡ Greater) ↔ LiesStrictlyIn other.now self.now }
        ensures same { (result ≡ Equal) ↔ SameUnder self.now other.now }
        ensures one { (result ≡ Equal) ↔ (self.now ≡ other.now) }
    {
        self.order_to(other)
    }
}
