//! The lines in front of a table's text, which name the environment in which the table was made.

ghost use Rattle.std.specs.Prelude.{◌≡◌, ◌++◌, ◌≤◌, ◌↔◌, IfErr, IfOk, IsTrue, MatchOption, OnOk, ℕ};
ghost use Rattle.std.specs.Prelude.{List, length, map, string_bytes, true};
ghost use Rattle.texts.specs.Lines.{line, written};
ghost use Rattle.pep_marker.specs.Environment.{IsEnvironment, is_value, variables};
ghost use Rattle.pep_marker.specs.Header.{FindsHeader, header, header_line, header_value, named_line};
ghost use Rattle.pep_marker.specs.Way.HeaderLines.{FindsLines, IsHeaderValue, IsWithin, found_behind};

use crate::environment::{Environment, NAMED, Variable};
use crate::fault::MarkerFault;
use crate::normal::Normal;
use crate::slots::is_value;
use std::alloc::{AllocError, Global};

/// The header that stands in front of a text, as [`Environment::header`] writes one, seen from an environment.
#[derive(Clone, Copy, Debug)]
pub enum HeaderIn<'a> {
    /// No header begins there.
    Missing,
    /// The header of the environment, and the text behind it.
    Own(&'a str),
    /// That of another environment: the number of the first line that differs, counted from 1, and
    /// the text behind the header.
    Other(usize, &'a str),
    /// A header begins, and no environment has it: the text from the first line that can't stand
    /// there (which line that is, tests show).
    Bad(&'a str),
}

// The text of a variable on its line, which has no line feed.
fn value_on<'a>(variable: Variable, text: &'a str) -> Option<&'a str>
    ensures { MatchOption result ((x : List ℕ) → ¬ (text.now ≡ named_line variable x))
        (λ x. text.now ≡ named_line variable x.now) }
{
    let named = text.strip_prefix("env ")?;
    let behind = named.strip_prefix(variable.name())?;
    behind.strip_prefix("=")
}

// Whether a header may have the text of the variable.
fn is_header_value(alloc: Global, variable: Variable, text: &str) -> Result<bool, AllocError>
    ensures { IfOk result (λ is. IsTrue is ↔ IsHeaderValue variable text.now) }
{
    if !is_value(text.as_bytes()) {
        return Ok(false);
    }
    match variable {
        Variable::Extra => Ok(Normal::of(alloc, text)?.as_str() == text),
        _ => Ok(true),
    }
}

// The text of the variable on the first line, and the text behind the line, if a header may have
// this line.
fn value_in<'a>(
    alloc: Global,
    variable: Variable,
    text: &'a str,
) -> Result<Option<(&'a str, &'a str)>, AllocError>
    ensures { IfOk result (λ found. MatchOption found
        ((x behind : List ℕ) → IsHeaderValue variable x
        → ¬ (text.now ≡ line (named_line variable x) ++ behind))
        (λ r. IsHeaderValue variable r.0.now
        × (text.now ≡ line (named_line variable r.0.now) ++ r.1.now))) }
{
    let Some((first, behind)) = text.split_once('\n') else {
        return Ok(None);
    };
    let Some(value) = value_on(variable, first) else {
        return Ok(None);
    };
    if is_header_value(alloc, variable, value)? {
        Ok(Some((value, behind)))
    } else {
        Ok(None)
    }
}

// What is found where a line stands in front of it, which is the one that is due or another.
fn found_behind<'a>(is_due: bool, found: HeaderIn<'a>) -> HeaderIn<'a>
    requires { IsWithin (length variables) found }
    ensures { result ≡ found_behind is_due found.entry }
{
    match found {
        HeaderIn::Own(_) if is_due => found,
        HeaderIn::Other(number, behind) if is_due => HeaderIn::Other(number + 1, behind),
        HeaderIn::Own(behind) | HeaderIn::Other(_, behind) => HeaderIn::Other(1, behind),
        HeaderIn::Bad(_) | HeaderIn::Missing => found,
    }
}

impl Environment {
    /// The lines that stand in front of the text of a table that was made in the environment, each
    /// ended by a line feed: `pep-table 2`, then for each variable in the order of `Variable`
    /// `env NAME=TEXT`. Of `extra` the text is its normal form (PEP 503, "Normalized Names"), which
    /// is all that markers see of it. The only fault is `NoMemory`, 29.
    pub fn header(&self, alloc: Global) -> Result<String, MarkerFault>
        ensures text { IfOk result (λ text. string_bytes text ≡ header self.now) }
        ensures faults { IfErr result (λ e. e ≡ MarkerFault.NoMemory) }
    {
        let mut text = String::from_str(alloc, "pep-table 2\n")?;
        self.push_variables(&mut text, &NAMED)?;
        Ok(text)
    }

    // Appends the line of each variable.
    fn push_variables(
        &self,
        text: &mut String,
        named: &[(Variable, &str)],
    ) -> Result<(), AllocError>
        ensures { OnOk result (string_bytes text.new ≡ string_bytes text.old
            ++ written (map (λ r. header_line self.now r.0) named.now)) }
    {
        for (variable, _) in named {
            text.push_str("env ")?;
            text.push_str(variable.name())?;
            text.push_str("=")?;
            text.push_str(self.header_value(*variable))?;
            text.push_str("\n")?;
        }
        Ok(())
    }

    // What a header says of a variable.
    fn header_value(&self, variable: Variable) -> &str
        ensures value { result.now ≡ header_value self.now variable }
        ensures environment { IsEnvironment self.now }
    {
        let value = self.known(variable);
        match variable {
            Variable::Extra => value.normal(),
            _ => value.text(),
        }
    }

    /// Reads the header in front of a text, as [`Environment::header`] writes one, and compares it with that of this
    /// environment. It tells whether a printed table was made in this environment:
    ///
    /// - [`HeaderIn::Missing`]: the text doesn't begin with the line `pep-table 2`, so it has no header, as the lines
    ///   of a table alone have none.
    /// - [`HeaderIn::Own`]: this environment's header stands there. The text behind it is given.
    /// - [`HeaderIn::Other`]: another environment's header stands there. The number of its first line that differs
    ///   from this environment's is given, counted from 1, and the text behind the header.
    /// - [`HeaderIn::Bad`]: the line `pep-table 2` stands there, but no environment has the header that it begins. The
    ///   text from the first line that can't stand there is given.
    ///
    /// The only fault is lack of memory, 29.
    pub fn header_in<'a>(&self, alloc: Global, text: &'a str) -> Result<HeaderIn<'a>, MarkerFault>
        ensures found { IfOk result (FindsHeader self.now text.now) }
        ensures environment { IsEnvironment self.now }
        ensures faults { IfErr result (λ e. e ≡ MarkerFault.NoMemory) }
    {
        // Its clause tells that the texts make an environment.
        let _ = self.known(Variable::Extra);
        let Some(behind) = text.strip_prefix("pep-table 2\n") else {
            return Ok(HeaderIn::Missing);
        };
        Ok(found_behind(true, self.variables_in(alloc, &NAMED, behind)?))
    }

    // What stands in front of a text where the lines of these variables are due.
    fn variables_in<'a>(
        &self,
        alloc: Global,
        named: &[(Variable, &str)],
        text: &'a str,
    ) -> Result<HeaderIn<'a>, AllocError>
        requires { length named.now ≤ length variables }
        ensures found { IfOk result (FindsLines self.now (map (λ r. r.0) named.now) text.now) }
        ensures within { IfOk result (IsWithin (length named.now)) }
    {
        let [(variable, _), others @ ..] = named else {
            return Ok(HeaderIn::Own(text));
        };
        let Some((value, behind)) = value_in(alloc, *variable, text)? else {
            return Ok(HeaderIn::Bad(text));
        };
        let is_due = value == self.header_value(*variable);
        Ok(found_behind(is_due, self.variables_in(alloc, others, behind)?))
    }
}
