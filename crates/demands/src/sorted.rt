//! Values in the order of their texts, each once.

ghost use Rattle.std.specs.Prelude.{◌≡◌, ◌++◌, ⊤, All, List, ℕ, IfErr, IfOk, OnOk, [], map};
ghost use Rattle.std.specs.Cmp.Lexicographic.{slice_cmp};
ghost use Rattle.std.specs.Ordering.{nat_cmp};
ghost use Rattle.pep_require.specs.Requirement.{IsAscending};
ghost use Rattle.pep_require.specs.Way.Collected.{collected_texts};

use crate::fault::TableFault;
use crate::join::Join;
use pep_marker::Name;
use std::alloc::{AllocError, Global};
use std::marker::Model;
use texts::Arena;

/// What is kept in the order of its text.
pub trait Kept: Ord + Drop {
    /// The text of the value.
    ghost text: { Self → List ℕ };

    /// Holds of every value.
    ghost is_value: { Self → Type 0 } = { λ _. ⊤ };

    /// Holds of the texts of which `of_text` makes a value.
    ghost is_text: { List ℕ → Type 0 } = { λ _. ⊤ };

    /// The text.
    fn as_text(&self) -> &str
        ensures { result.now ≡ text self.now };

    /// Does nothing. Its clause tells that what holds of every value holds of this one.
    fn as_value(&self)
        ensures { is_value self.now };

    /// An equal value in storage of its own. The only fault is `NoMemory`, 42.
    fn kept(&self, alloc: Global) -> Result<Self, TableFault>
        ensures same { IfOk result (λ r. text r ≡ text self.now) }
        ensures value { is_value self.now }
        ensures faults { IfErr result (λ e. e ≡ TableFault.NoMemory) };

    /// The value with this text. The only fault is `NoMemory`, 42.
    fn of_text(alloc: Global, spelled: &str) -> Result<Self, TableFault>
        requires { is_text spelled.now }
        ensures same { IfOk result (λ r. text r ≡ spelled.now) }
        ensures faults { IfErr result (λ e. e ≡ TableFault.NoMemory) };

    /// Values are compared by their texts.
    ghost order: { (x y : Self) → Self.cmp x y ≡ slice_cmp nat_cmp (text x) (text y) };
}

impl Kept for Name {
    ghost use Rattle.std.specs.Prelude.{refl};
    ghost use Rattle.pep_marker.specs.Name.{IsNormalName};

    ghost text = { λ n. n };

    ghost is_value = { IsNormalName };

    ghost is_text = { IsNormalName };

    ghost order = { λ x y. refl };

    fn as_text(&self) -> &str {
        self.text()
    }

    fn as_value(&self) {
        // Its clause tells that the name is normalized.
        let _ = self.text();
    }

    fn kept(&self, alloc: Global) -> Result<Name, TableFault> {
        match self.copied(alloc) {
            Ok(name) => Ok(name),
            Err(_) => Err(TableFault::NoMemory),
        }
    }

    fn of_text(alloc: Global, spelled: &str) -> Result<Name, TableFault> {
        match Name::read(alloc, spelled) {
            Ok(name) => Ok(name),
            Err(_) => Err(TableFault::NoMemory),
        }
    }
}

impl Kept for String {
    ghost use Rattle.std.specs.Prelude.{refl, string_bytes};

    ghost text = { λ x. string_bytes x };

    ghost order = { λ x y. refl };

    fn as_text(&self) -> &str {
        self.as_str()
    }

    fn as_value(&self) {}

    fn kept(&self, alloc: Global) -> Result<String, TableFault> {
        Ok(String::from_str(alloc, self.as_str())?)
    }

    fn of_text(alloc: Global, spelled: &str) -> Result<String, TableFault> {
        Ok(String::from_str(alloc, spelled)?)
    }
}

/// Values in the order of their texts, each once. Clauses see the texts.
#[derive(Drop)]
pub struct Sorted<T: Kept> {
    items: Vec<T>,
}

impl<T: Kept> Model for Sorted<T> {
    ghost use Rattle.std.specs.Prelude.{List, ℕ, map};
    ghost use Rattle.pep_require.specs.Requirement.{IsAscending};

    ghost Value = { List (List ℕ) };

    ghost view = { λ s. map T.text s.items.items };

    ghost invariant = { λ s. IsAscending (map T.text s.items.items) };
}

// Puts copies of the values behind the others.
fn push_copies<T: Kept>(alloc: Global, items: &mut Vec<T>, values: &[T]) -> Result<(), AllocError>
    ensures { OnOk result (map T.text items.new.items
        ≡ map T.text items.old.items ++ map T.text values.now) }
{
    for value in values {
        items.push(value.kept(alloc).map_err(|_| AllocError)?)?;
    }
    Ok(())
}

// Puts the values in the order of their texts, and keeps each once.
fn put_in_order<T: Kept>(items: &mut Vec<T>)
    ensures { map T.text items.new.items ≡ collected_texts (map T.text items.old.items) }
{
    items.sort_unstable();
    items.dedup();
}

impl<T: Kept> Sorted<T> {
    /// No value.
    pub fn new(alloc: Global) -> Self
        ensures { result ≡ [] }
    {
        Sorted {
            items: Vec::new(alloc),
        }
    }

    /// These values, which are in the order of their texts, each once. Public for the crate of
    /// tables, which reads them so.
    pub fn of_ascending(items: Vec<T>) -> Self
        requires { IsAscending (map T.text items.items) }
        ensures { result ≡ map T.text items.items }
    {
        Sorted { items }
    }

    /// The values with these texts, which are in order, each once.
    pub(crate) fn of_texts(alloc: Global, texts: &Arena) -> Result<Self, AllocError>
        requires ascending { IsAscending texts.now }
        requires texts { All T.is_text texts.now }
        ensures { IfOk result (λ s. s ≡ texts.now) }
    {
        let mut items = Vec::with_capacity(alloc, texts.len())?;
        for i in 0..texts.len() {
            items.push(T::of_text(alloc, texts.text(i)).map_err(|_| AllocError)?)?;
        }
        Ok(Sorted { items })
    }

    /// The values.
    pub fn items(&self) -> &[T]
        ensures texts { map T.text result.now ≡ self.now }
        ensures ascending { IsAscending self.now }
    {
        self.items.as_slice()
    }

    /// Equal values in storage of their own. The only fault is `NoMemory`, 42.
    pub fn copied(&self, alloc: Global) -> Result<Self, TableFault>
        ensures same { IfOk result (λ s. s ≡ self.now) }
        ensures faults { IfErr result (λ e. e ≡ TableFault.NoMemory) }
    {
        let mut items = Vec::with_capacity(alloc, self.items.len())?;
        for item in &self.items {
            items.push(item.kept(alloc)?)?;
        }
        Ok(Sorted { items })
    }
}

impl<T: Kept> Join for Sorted<T> {
    ghost use Rattle.pep_require.specs.Requirement.{IsAscending};
    ghost use Rattle.demands.specs.Join.{IsUnion};
    ghost use Rattle.demands.specs.JoinLaws.{IsJoin-IsUnion};

    ghost is_value = { IsAscending };

    ghost joins = { IsUnion };

    ghost laws = { IsJoin-IsUnion };

    fn joined(&self, alloc: Global, other: &Self) -> Result<Self, TableFault> {
        // Their clauses tell that the texts are in order.
        let (_, more) = (self.items(), other.items());
        let mut items = self.copied(alloc)?.items;
        push_copies(alloc, &mut items, more)?;
        put_in_order(&mut items);
        Ok(Sorted::of_ascending(items))
    }
}
