//! What is gathered of each name.

ghost use Rattle.std.specs.Prelude.{◌≡◌, ◌<◌, ◌∷◌, [], IfOk, IfSome, List, OnOk, length, ℕ};
ghost use Rattle.std.specs.Iterator.{YieldsFirst, item_count};
ghost use Rattle.pep_marker.specs.Name.{normalized};
ghost use Rattle.demands.specs.Join.{JoinsTables};
ghost use Rattle.demands.specs.Table.{IsValidEntry, names};
ghost use Rattle.pep_table.specs.Way.Gathered.{IsAt, IsValidNamed, OpensPlace, log_table};

use crate::keys::count_repeats;
use crate::ordered::{is_ascending, ordered, place_among, put_in_order};
use arrayvec::ArrayString;
use demands::{Entry, LineDemands, PackageDemands};
use pep_marker::{Name, WrittenName};
use std::alloc::{AllocError, Global};
use std::marker::Model;
use std::{mem, vec};
use text_memory::{OfText, TextMemory};

// How many names are remembered at most.
const MOST: usize = 65_536;
// How many bytes a remembered name has at most, as it is written.
const LONGEST: usize = 40;
// The log isn't put in order before there are so many entries ..
const FEWEST: usize = 32_768;
// .. or so many, if a quarter of them repeat a name: such names fall together in the memory, or are long.
const FEWEST_REPEATED: usize = 4_096;

/// A name as it is written, with the place of an entry of the name.
#[derive(Drop)]
struct KnownName {
    text: ArrayString<LONGEST>,
    place: usize,
}

impl OfText for KnownName {
    ghost text = { λ k. k.text.bytes };

    fn text(&self) -> &[u8] {
        self.text.as_str().as_bytes()
    }
}

/// A log of what is demanded. A name that is remembered goes on in its entry, and another one begins a new entry, even
/// where the name has one. When the log has doubled, or early if many names repeat, it is put in order, and the entries
/// of a name are joined. If a
/// quarter of them had one already, names are also looked for among those in order from then on. So names that fall
/// together in the memory cost no more than that. Clauses see the list of the entries.
#[derive(Drop)]
pub(crate) struct Gathered {
    log: Vec<(Name, PackageDemands)>,
    // Among so many at the front, which are in order, names are looked for.
    ordered: usize,
    known: TextMemory<KnownName>,
    // At this length, the log is put in order, below `FEWEST` only if many names repeat.
    room: usize,
}

impl Model for Gathered {
    ghost use Rattle.std.specs.Prelude.{All};
    ghost use Rattle.demands.specs.Table.{TableParts, names};
    ghost use Rattle.pep_table.specs.Way.Gathered.{IsValidLog};
    ghost use Rattle.pep_table.specs.Way.KnownNames.{IsKnown};

    ghost Value = { TableParts };

    ghost view = { λ g. g.log.items };

    ghost invariant = { λ g. IsValidLog g.log.items × All (IsKnown (names g.log.items)) g.known };
}

// So many names at most have so many entries, if a quarter of the entries repeat a name.
fn few_names(entries: usize) -> usize {
    entries / 4 * 3
}

impl Gathered {
    /// Nothing is demanded.
    pub(crate) fn new(alloc: Global) -> Gathered
        ensures { result ≡ [] }
    {
        Gathered {
            log: Vec::new(alloc),
            ordered: 0,
            known: TextMemory::new(alloc, MOST),
            room: FEWEST_REPEATED,
        }
    }

    // The place of an entry of the name, if it is remembered as it is written.
    #[inline(always)]
    fn known_place(&self, name: &WrittenName) -> Option<usize>
        ensures { IfSome result (IsAt (names self.now) name.now) }
    {
        let known = self.known.find(name.text().as_bytes())?;
        Some(known.place)
    }

    // Remembers a text, whose name has an entry at the place.
    fn remember_text(
        &mut self,
        alloc: Global,
        text: ArrayString<LONGEST>,
        place: usize,
    ) -> Result<(), AllocError>
        requires { IsAt (names self.old) (normalized text.bytes) place }
        ensures { self.new ≡ self.old }
    {
        self.known.put(alloc, KnownName { text, place })
    }

    // Remembers the name as it is written with the place of its entry, if that is short.
    fn remember(
        &mut self,
        alloc: Global,
        name: &WrittenName,
        place: usize,
    ) -> Result<(), AllocError>
        requires { IsAt (names self.old) name.now place }
        ensures { self.new ≡ self.old }
    {
        match ArrayString::from(name.text()) {
            Ok(text) => self.remember_text(alloc, text, place),
            Err(_) => Ok(()),
        }
    }

    // Puts the log in order, with one entry a name. The places are others then, so no name is remembered.
    fn join_log(&mut self, alloc: Global) -> Result<(), AllocError>
        ensures { OnOk result (log_table self.new ≡ log_table self.old) }
    {
        self.known = TextMemory::new(alloc, MOST);
        let most = few_names(self.log.len());
        let log = mem::replace(&mut self.log, Vec::new(alloc));
        self.log = put_in_order(alloc, log)?;
        if self.ordered > 0 || self.log.len() <= most {
            self.ordered = self.log.len();
        }
        Ok(())
    }

    // Whether at least a quarter of the entries would stand behind another one of their name.
    fn has_repeats(&self, alloc: Global) -> Result<bool, AllocError> {
        let repeats = count_repeats(alloc, self.log.as_slice())?;
        Ok(self.log.len().saturating_sub(repeats) <= few_names(self.log.len()))
    }

    // Puts the log in order, if it has doubled, or if it is short and has many repeats.
    fn make_room(&mut self, alloc: Global) -> Result<(), AllocError>
        ensures { OnOk result (log_table self.new ≡ log_table self.old) }
    {
        if self.log.len() < self.room {
            return Ok(());
        }
        if self.log.len() < FEWEST && !self.has_repeats(alloc)? {
            self.room = FEWEST;
            return Ok(());
        }
        if !is_ascending(self.log.as_slice()) {
            self.join_log(alloc)?;
        }
        self.room = FEWEST.max(self.log.len().saturating_mul(2));
        Ok(())
    }

    // Puts an entry behind the others, and gives its place.
    fn append(&mut self, name: Name, demands: PackageDemands) -> Result<usize, AllocError>
        requires { IsValidNamed (name, demands) }
        ensures joined { IfOk result (λ _.
            JoinsTables (log_table self.old) ((name, demands) ∷ []) (log_table self.new)) }
        ensures place { IfOk result (IsAt (names self.new) name) }
    {
        let place = self.log.len();
        self.log.push((name, demands))?;
        Ok(place)
    }

    // The same of a log that is put in order first, if it has doubled.
    fn push(
        &mut self,
        alloc: Global,
        name: Name,
        demands: PackageDemands,
    ) -> Result<usize, AllocError>
        requires { IsValidNamed (name, demands) }
        ensures joined { IfOk result (λ _.
            JoinsTables (log_table self.old) ((name, demands) ∷ []) (log_table self.new)) }
        ensures place { IfOk result (IsAt (names self.new) name) }
    {
        self.make_room(alloc)?;
        self.append(name, demands)
    }

    // The place of an entry of the name, if it is found among those in order.
    fn ordered_place(&self, name: &Name) -> Option<usize>
        ensures { IfSome result (IsAt (names self.now) name.now) }
    {
        let count = self.ordered.min(self.log.len());
        let (front, _) = self.log.as_slice().split_at(count);
        place_among(front, name)
    }

    // The place of an entry of the name: one in order, or else a new one that demands nothing.
    fn found_or_begun(&mut self, alloc: Global, name: Name) -> Result<usize, AllocError>
        ensures { IfOk result (OpensPlace self.old name self.new) }
    {
        if let Some(place) = self.ordered_place(&name) {
            return Ok(place);
        }
        self.push(alloc, name, PackageDemands::bare())
    }

    // The place of an entry of a name that isn't remembered. If it is short, it is from then on, as it is normalized.
    fn begin(&mut self, alloc: Global, name: Name) -> Result<usize, AllocError>
        ensures { IfOk result (OpensPlace self.old name self.new) }
    {
        let text = ArrayString::from(name.text()).ok();
        let place = self.found_or_begun(alloc, name)?;
        if let Some(text) = text {
            self.remember_text(alloc, text, place)?;
        }
        Ok(place)
    }

    // The place of an entry of a name in its normalized form.
    fn normal_place(&mut self, alloc: Global, name: Name) -> Result<usize, AllocError>
        ensures { IfOk result (OpensPlace self.old name self.new) }
    {
        match self.known_place(&name.written()) {
            Some(place) => Ok(place),
            None => self.begin(alloc, name),
        }
    }

    // The place of an entry of a name that isn't remembered as it is written.
    fn other_place(&mut self, alloc: Global, name: &WrittenName) -> Result<usize, AllocError>
        ensures { IfOk result (OpensPlace self.old name.now self.new) }
    {
        let kept = name.kept(alloc)?;
        if kept.text() == name.text() {
            return self.begin(alloc, kept);
        }
        let place = self.normal_place(alloc, kept)?;
        self.remember(alloc, name, place)?;
        Ok(place)
    }

    // The place of an entry of the name of a line.
    #[inline(always)]
    fn place(&mut self, alloc: Global, name: &WrittenName) -> Result<usize, AllocError>
        ensures { IfOk result (OpensPlace self.old name.now self.new) }
    {
        if let Some(place) = self.known_place(name) {
            return Ok(place);
        }
        self.other_place(alloc, name)
    }

    // Takes what a line demands into the entry at a place.
    #[inline(always)]
    fn narrow(
        &mut self,
        alloc: Global,
        place: usize,
        line: &mut LineDemands,
    ) -> Result<(), AllocError>
        requires { place < length self.old }
        ensures joined { OnOk result ((name : List ℕ) → IsAt (names self.old) name place
            → JoinsTables (log_table self.old) ((name, line.old) ∷ []) (log_table self.new)) }
        ensures valid { IsValidEntry line.old }
    {
        let demands = &mut self.log[place].1;
        let Ok(()) = demands.take_line(alloc, line) else {
            // They may lack what they had.
            *demands = PackageDemands::bare();
            return Err(AllocError);
        };
        Ok(())
    }

    /// Takes what an entry demands of the package with this name.
    pub(crate) fn join(&mut self, alloc: Global, name: Name, entry: Entry) -> Result<(), AllocError>
        ensures { OnOk result
            (JoinsTables (log_table self.old) ((name, entry) ∷ []) (log_table self.new)) }
    {
        // Its clause tells that the name is in its normalized form.
        let _ = name.text();
        let mut demands = PackageDemands::bare();
        demands.join(alloc, entry)?;
        self.push(alloc, name, demands)?;
        Ok(())
    }

    /// Takes what a line demands of the package with this name. The line may be anything until it is cleared.
    #[inline(always)]
    pub(crate) fn take_line(
        &mut self,
        alloc: Global,
        name: &WrittenName,
        line: &mut LineDemands,
    ) -> Result<(), AllocError>
        ensures { OnOk result
            (JoinsTables (log_table self.old) ((name.now, line.old) ∷ []) (log_table self.new)) }
    {
        // Its clause tells that the name is in its normalized form.
        let _ = name.text();
        let place = self.place(alloc, name)?;
        self.narrow(alloc, place, line)
    }

    /// The names in order, with what is demanded of them.
    pub(crate) fn into_entries(self, alloc: Global) -> Result<GatheredEntries, AllocError>
        ensures { IfOk result (λ entries. entries ≡ log_table self) }
    {
        let Gathered {
            log,
            ordered: _,
            known,
            room: _,
        } = self;
        // No name is looked for any more, and putting the log in order takes memory.
        drop(known);
        let log = ordered(alloc, log)?;
        Ok(GatheredEntries {
            left: log.into_iter(),
        })
    }
}

/// The names that are left, in order, each with what is demanded of it. Clauses see the list of them.
#[derive(Drop)]
pub(crate) struct GatheredEntries {
    left: vec::IntoIter<(Name, PackageDemands)>,
}

impl Model for GatheredEntries {
    ghost use Rattle.std.specs.Prelude.{◌≡◌, length};
    ghost use Rattle.std.specs.Vec.Iter.{into_iter_items, into_iter_len};
    ghost use Rattle.demands.specs.Table.{TableParts};

    ghost Value = { TableParts };

    ghost view = { λ g. into_iter_items g.left };

    ghost invariant = { λ g. into_iter_len g.left ≡ length (into_iter_items g.left) };
}

impl GatheredEntries {
    /// How many are left.
    pub(crate) fn len(&self) -> usize
        ensures { result ≡ length self.now }
    {
        self.left.len()
    }
}

impl Iterator for GatheredEntries {
    type Item = (Name, PackageDemands);

    ghost next_gives = { YieldsFirst (λ left. left) };

    ghost remaining = { item_count (λ left. left) };

    fn next(&mut self) -> Option<(Name, PackageDemands)> {
        self.left.next()
    }
}
