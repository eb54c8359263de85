// How a clause is written.

use crate::clause::{Clause, Operand};
use crate::fault::ClauseFault;
use std::alloc::Global;

impl Clause {
    ghost use Rattle.std.specs.Prelude.{◌≡◌, IfErr, IfOk, option_map, string_bytes};
    ghost use Rattle.specifiers.specs.Clause.{clause_text, demanded_text};

    /// The clause as it is written (PEP 440, "Version specifiers"): the operator, and the normal
    /// text of its version, the release with its epoch and `.*`, or the text of `===`. The only
    /// fault is `NoMemory`.
    pub fn text(&self, alloc: Global) -> Result<String, ClauseFault>
        ensures text { IfOk result (λ t. string_bytes t ≡ clause_text self.now) }
        ensures faults { IfErr result (λ e. e ≡ ClauseFault.NoMemory) }
    {
        let mut text = String::from_str(alloc, self.op().text())?;
        match self.operand() {
            Operand::Version(version) => text.push_str(version.text(alloc)?.as_str())?,
            Operand::Prefix(version) => {
                text.push_str(version.text(alloc)?.as_str())?;
                text.push_str(".*")?;
            }
            Operand::Text(demanded) => text.push_str(demanded.as_str())?,
        }
        Ok(text)
    }

    /// The text of a clause with `===`, in lower case (PEP 440, "Arbitrary equality").
    pub fn exact_text(&self) -> Option<&str>
        ensures { option_map (λ t. t.now) result ≡ demanded_text self.now }
    {
        match self.operand() {
            Operand::Text(text) => Some(text.as_str()),
            _ => None,
        }
    }
}
