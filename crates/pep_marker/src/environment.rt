//! Variables of environment markers, and the texts that an environment gives them (PEP 508,
//! "Environment Markers").

ghost use Rattle.std.specs.Prelude.{◌≡◌, ◌⊎◌, ◌<◌, IfErr, IfOk, None, Some, length};
ghost use Rattle.std.specs.Option.{option_map};
ghost use Rattle.pep_marker.specs.Environment.{
  IsEnvironment,
  environment_of,
  is_required,
  pairs_fault,
  place,
  value_at,
  value_of,
  variable_name,
  variable_of,
  variables,
};
ghost use Rattle.pep_marker.specs.Pairs.{pair_texts};
ghost use Rattle.pep_marker.specs.Way.Slots.{HoldsValues, slot_texts};

use crate::fault::MarkerFault;
use crate::slots::{Slots, free_variable, missing};
use crate::value::Value;
use std::alloc::{AllocError, Global};
use std::fmt;
use std::marker::Model;

/// A variable of environment markers (PEP 508, "Environment Markers").
#[derive(Clone, Copy, Debug, PartialEq, Eq)]
pub enum Variable {
    OsName,
    SysPlatform,
    PlatformMachine,
    PlatformPythonImplementation,
    PlatformRelease,
    PlatformSystem,
    PlatformVersion,
    PythonVersion,
    PythonFullVersion,
    ImplementationName,
    ImplementationVersion,
    Extra,
}

// How many variables there are.
pub(crate) const VARIABLES: usize = 12;

// Each variable with its name, at its place in the order of `Variable`.
pub(crate) static NAMED: [(Variable, &str); VARIABLES] = [
    (Variable::OsName, "os_name"),
    (Variable::SysPlatform, "sys_platform"),
    (Variable::PlatformMachine, "platform_machine"),
    (
        Variable::PlatformPythonImplementation,
        "platform_python_implementation",
    ),
    (Variable::PlatformRelease, "platform_release"),
    (Variable::PlatformSystem, "platform_system"),
    (Variable::PlatformVersion, "platform_version"),
    (Variable::PythonVersion, "python_version"),
    (Variable::PythonFullVersion, "python_full_version"),
    (Variable::ImplementationName, "implementation_name"),
    (Variable::ImplementationVersion, "implementation_version"),
    (Variable::Extra, "extra"),
];

impl Variable {
    /// The variable that is written so in a marker, with regard to case.
    pub fn of_name(name: &[u8]) -> Option<Variable>
        ensures { result ≡ variable_of name.now }
    {
        NAMED
            .iter()
            .find(|named| named.1.as_bytes() == name)
            .map(|named| named.0)
    }

    /// The variable as it is written in a marker, such as `python_version`.
    pub fn name(self) -> &'static str
        ensures { result.now ≡ variable_name self }
    {
        NAMED[self.place()].1
    }

    // Whether an environment has to give the variable.
    pub(crate) fn is_required(self) -> bool
        ensures { result ≡ is_required self }
    {
        !matches!(self, Variable::Extra)
    }

    // The place of the variable in the order of `Variable`.
    pub(crate) fn place(self) -> usize
        ensures place { result ≡ place self }
        ensures within { result < length variables }
    {
        self as usize
    }
}

impl fmt::Display for Variable {
    ghost output = { λ v. Some (variable_name v) };

    fn fmt<W: fmt::Write>(&self, f: &mut fmt::Formatter<W>) -> fmt::Result {
        f.write_str(self.name())
    }
}

/// The texts of the variables of markers (PEP 508, "Environment Markers"): each variable but
/// `extra` is given one, and `extra` is the empty text where none is given.
#[derive(Debug, Drop)]
pub struct Environment {
    // The value of each variable at its place.
    values: Vec<Value>,
}

impl Model for Environment {
    ghost use Rattle.std.specs.Prelude.{◌≡◌, length};
    ghost use Rattle.pep_marker.specs.Environment.{EnvironmentParts, IsEnvironment, variables};

    ghost Value = { EnvironmentParts };

    ghost view = { λ e. record { texts = e.values.items } };

    ghost invariant = { λ e. (length e.values.items ≡ length variables)
        × IsEnvironment (record { texts = e.values.items }) };
}

impl Environment {
    /// The environment of pairs of a variable's name and its text. The pairs may come in any order.
    ///
    /// The pairs are checked in turn, each first for its name, which is a variable's (22
    /// `UnknownVariable`) and no earlier pair's (24 `RepeatedVariable`), and then for its text,
    /// which holds none of the characters U+0000 to U+001F and no U+007F (25 `BadValue`). Then
    /// each variable but `extra` has to be given (23 `MissingVariable`, with the first that is
    /// not, in the order of `Variable`). Memory may run out, 29.
    pub fn of(alloc: Global, pairs: &[(&str, &str)]) -> Result<Environment, MarkerFault>
        ensures accepted { IfOk result (λ e. pairs_fault (pair_texts pairs.now) ≡ None) }
        ensures value { IfOk result (λ e. e ≡ environment_of (pair_texts pairs.now)) }
        ensures faults { IfErr result (λ e. (pairs_fault (pair_texts pairs.now) ≡ Some e)
            ⊎ (e ≡ MarkerFault.NoMemory)) }
    {
        let mut slots = [None; VARIABLES];
        for (name, text) in pairs {
            let variable = free_variable(&slots, name, text)?;
            slots[variable.place()] = Some(*text);
        }
        if let Some(variable) = missing(&slots) {
            return Err(MarkerFault::MissingVariable(variable));
        }
        Ok(Environment::of_slots(alloc, &slots)?)
    }

    // The environment of the texts in the slots.
    fn of_slots(alloc: Global, slots: &Slots<'_>) -> Result<Environment, AllocError>
        requires { HoldsValues slots.now }
        ensures { IfOk result (λ e. e.texts ≡ slot_texts slots.now) }
    {
        let mut values = Vec::with_capacity(alloc, slots.len())?;
        for slot in slots {
            values.push(Value::of(alloc, slot.unwrap_or(""))?)?;
        }
        Ok(Environment { values })
    }

    /// The text of the variable of this name; nothing where no variable has the name.
    pub fn value(&self, variable: &str) -> Option<&str>
        ensures { option_map (λ t. t.now) result ≡ value_at self.now variable.now }
    {
        Some(self.known(Variable::of_name(variable.as_bytes())?).text())
    }

    // What is known of the text of a variable.
    pub(crate) fn known(&self, variable: Variable) -> &Value
        ensures value { result.now ≡ value_of self.now variable }
        ensures environment { IsEnvironment self.now }
    {
        &self.values[variable.place()]
    }
}
