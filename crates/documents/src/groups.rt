//! Dependency groups of project files (PyPA "Dependency Groups", PEP 735).

ghost use Rattle.std.specs.Prelude.{
  ◌≡◌,
  ◌⊎◌,
  ◌≤◌,
  ◌+◌,
  Err,
  IfErr,
  IfOk,
  None,
  Ok,
  OnOk,
  Some,
  bytes_eq,
  false,
  map,
  option_and_then,
  true,
};
ghost use Rattle.std.specs.List.{list_any};
ghost use Rattle.toml.specs.Data.{as_table};
ghost use Rattle.toml.specs.View.{table_view, view};
ghost use Rattle.documents.specs.Groups.{
  all_different,
  group_at,
  group_member,
  groups_in,
  groups_of,
  included_name,
};
ghost use Rattle.documents.specs.GroupWalk.{
  ComesTo,
  going,
  group_step,
  open_group,
  refused,
  step,
  take_member,
  size_of,
};
ghost use Rattle.documents.specs.Way.GroupViews.{arrays_at, group_view, left_of, walk_view, walk_with};
ghost use Rattle.documents.specs.Texts.{lent_texts};

use crate::document::name_in;
use faults::Cause;
use pep_marker::Name;
use std::alloc::Global;
use std::collections::{BTreeMap, BTreeSet};
use toml::{Table, Value};

// A group's name and array, or what is left of the array.
#[derive(Drop)]
struct Group<'a> {
    name: Name,
    values: &'a [Value],
}

// How far the walk through the groups is.
#[derive(Drop)]
struct GroupWalk<'a> {
    // The groups that are being walked, with what is left of their arrays: the one that was included
    // last stands last.
    active: Vec<Group<'a>>,
    // The arrays that the walk hasn't come to.
    unopened: BTreeMap<Name, &'a [Value]>,
    // The groups that were walked to their end.
    closed: BTreeSet<Name>,
    texts: Vec<&'a str>,
}

// The name in a table whose one key is `include-group`.
fn included_name(alloc: Global, value: &Value) -> Result<Name, Cause>
    ensures ok { IfOk result (λ name.
        option_and_then included_name (as_table (view value.now)) ≡ Some name) }
    ensures refused { IfErr result (λ cause. (cause ≡ Cause.NoMemory)
        ⊎ ((cause ≡ Cause.WrongShape)
        × (option_and_then included_name (as_table (view value.now)) ≡ None))) }
{
    let Some(table) = value.as_table() else {
        return Err(Cause::WrongShape);
    };
    if table.len() != 1 {
        return Err(Cause::WrongShape);
    }
    let Some(found) = table.get("include-group") else {
        return Err(Cause::WrongShape);
    };
    let Some(text) = found.as_str() else {
        return Err(Cause::WrongShape);
    };
    name_in(alloc, text)
}

// Whether a group of this name is being walked.
fn is_active(active: &[Group], name: &Name) -> bool
    ensures { result ≡ list_any (λ g. bytes_eq g.name name.now) active.now }
{
    active.iter().any(|group| group.name == *name)
}

impl<'a> GroupWalk<'a> {
    // A group is included: it is walked next, unless it was walked before.
    fn enter(&mut self, name: &Name) -> Result<(), Cause>
        ensures ok { OnOk result
            (open_group (walk_view self.old) name.now ≡ going (walk_view self.new)) }
        ensures less { OnOk result (left_of self.new ≤ left_of self.old) }
        ensures refused { IfErr result (λ cause. (cause ≡ Cause.NoMemory)
            ⊎ (open_group (walk_view self.old) name.now ≡ refused cause)) }
    {
        if let Some((name, values)) = self.unopened.remove_entry(name) {
            self.active.push(Group { name, values })?;
            return Ok(());
        }
        if self.closed.contains(name) {
            return Ok(());
        }
        if is_active(self.active.as_slice(), name) {
            return Err(Cause::GroupCycle);
        }
        Err(Cause::NoGroup)
    }

    // The next value of the group's array that was included last.
    fn take(&mut self, alloc: Global, value: &'a Value) -> Result<(), Cause>
        ensures ok { OnOk result (take_member (walk_view self.old) (group_member (view value.now))
            ≡ going (walk_view self.new)) }
        ensures less { OnOk result (left_of self.new ≤ left_of self.old) }
        ensures refused { IfErr result (λ cause. (cause ≡ Cause.NoMemory)
            ⊎ (take_member (walk_view self.old) (group_member (view value.now)) ≡ refused cause)) }
    {
        if let Some(text) = value.as_str() {
            self.texts.push(text)?;
            return Ok(());
        }
        let name = included_name(alloc, value)?;
        self.enter(&name)
    }

    // A step of the walk in the group that was included last, which was taken out.
    fn go_on(&mut self, alloc: Global, group: Group<'a>) -> Result<(), Cause>
        ensures ok { OnOk result
            (step (walk_with self.old (group_view group.entry)) ≡ going (walk_view self.new)) }
        ensures less { OnOk result (left_of self.new + 1 ≤ left_of self.old
            + (size_of (group_view group.entry).1 + 1)) }
        ensures refused { IfErr result (λ cause. (cause ≡ Cause.NoMemory)
            ⊎ (step (walk_with self.old (group_view group.entry)) ≡ refused cause)) }
    {
        let Some((first, rest)) = group.values.split_first() else {
            self.closed.insert(group.name)?;
            return Ok(());
        };
        self.active.push(Group {
            name: group.name,
            values: rest,
        })?;
        self.take(alloc, first)
    }

    // The texts to which the walk comes.
    fn finish(self, alloc: Global) -> Result<Vec<&'a str>, Cause>
        ensures ok { IfOk result (λ texts.
            ComesTo (step (walk_view self.entry)) (Ok (lent_texts texts.items))) }
        ensures refused { IfErr result (λ cause. (cause ≡ Cause.NoMemory)
            ⊎ ComesTo (step (walk_view self.entry)) (Err cause)) }
    {
        let mut walk = self;
        while let Some(group) = walk.active.pop() {
            walk.go_on(alloc, group)?;
        }
        Ok(walk.texts)
    }
}

// The groups of a table: arrays under keys that are names.
fn groups_of<'a>(alloc: Global, table: &'a Table) -> Result<Vec<Group<'a>>, Cause>
    ensures ok { IfOk result (λ groups.
        groups_of (table_view table.now) ≡ Some (map group_view groups.items)) }
    ensures refused { IfErr result (λ cause. (cause ≡ Cause.NoMemory)
        ⊎ ((cause ≡ Cause.WrongShape) × (groups_of (table_view table.now) ≡ None))) }
{
    let mut groups = Vec::with_capacity(alloc, table.len())?;
    for (key, value) in table.iter() {
        let name = name_in(alloc, key)?;
        let Some(array) = value.as_array() else {
            return Err(Cause::WrongShape);
        };
        groups.push(Group {
            name,
            values: array.as_slice(),
        })?;
    }
    Ok(groups)
}

// Their arrays, where no two of them have one name.
fn arrays_of<'a>(
    alloc: Global,
    groups: Vec<Group<'a>>,
) -> Result<BTreeMap<Name, &'a [Value]>, Cause>
    ensures ok { IfOk result (λ arrays.
        (all_different (map group_view groups.entry.items) ≡ true)
        × (arrays_at arrays ≡ group_at (map group_view groups.entry.items))) }
    ensures refused { IfErr result (λ cause. (cause ≡ Cause.NoMemory)
        ⊎ ((cause ≡ Cause.EqualGroups)
        × (all_different (map group_view groups.entry.items) ≡ false))) }
{
    let mut arrays = BTreeMap::new(alloc);
    for group in groups {
        if arrays.insert(group.name, group.values)?.is_some() {
            return Err(Cause::EqualGroups);
        }
    }
    Ok(arrays)
}

/// The texts of a dependency group of the document, in the order of the walk through the groups that
/// it includes.
pub(crate) fn group_texts<'a>(
    alloc: Global,
    document: &'a Table,
    group: &Name,
) -> Result<Vec<&'a str>, Cause>
    ensures ok { IfOk result (λ texts. ComesTo
        (group_step group.now (groups_in (table_view document.now)))
        (Ok (lent_texts texts.items))) }
    ensures refused { IfErr result (λ cause. (cause ≡ Cause.NoMemory)
        ⊎ ComesTo (group_step group.now (groups_in (table_view document.now))) (Err cause)) }
{
    let Some(found) = document.get("dependency-groups") else {
        return Err(Cause::NoGroup);
    };
    let Some(table) = found.as_table() else {
        return Err(Cause::WrongShape);
    };
    let groups = groups_of(alloc, table)?;
    let unopened = arrays_of(alloc, groups)?;
    let mut walk = GroupWalk {
        active: Vec::new(alloc),
        unopened,
        closed: BTreeSet::new(alloc),
        texts: Vec::new(alloc),
    };
    walk.enter(group)?;
    walk.finish(alloc)
}
