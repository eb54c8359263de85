// The texts that pairs of a name and a text give the variables of markers.

ghost use Rattle.std.specs.Prelude.{◌≡◌, ◌&&◌, None, Some, IfErr, IfOk, IsTrue, find, is_none};
ghost use Rattle.pep_marker.specs.Environment.{is_required, is_value, variable_of, variables};
ghost use Rattle.pep_marker.specs.Way.Slots.{slot, slot_fault};

use crate::environment::{NAMED, VARIABLES, Variable};
use crate::fault::MarkerFault;

// What a variable is given stands at its place in the order of `Variable`.
pub(crate) type Slots<'a> = [Option<&'a str>; VARIABLES];

// Whether a text may be the value of a variable: it holds no control character of ASCII.
pub(crate) fn is_value(text: &[u8]) -> bool
    ensures { result ≡ is_value text.now }
{
    text.iter().all(|b| 31 < *b && *b != 127)
}

// The first variable that an environment has to give and whose slot is empty.
pub(crate) fn missing(slots: &Slots<'_>) -> Option<Variable>
    ensures { result
        ≡ find (λ v. is_required v && is_none (slot slots.now v)) variables }
{
    NAMED
        .iter()
        .find(|named| named.0.is_required() && slots[named.0.place()].is_none())
        .map(|named| named.0)
}

// The variable of a pair that may stand after those that filled the slots.
pub(crate) fn free_variable(
    slots: &Slots<'_>,
    name: &str,
    text: &str,
) -> Result<Variable, MarkerFault>
    ensures variable { IfOk result (λ v. variable_of name.now ≡ Some v) }
    ensures free { IfOk result (λ v. slot slots.now v ≡ None) }
    ensures value { IfOk result (λ v. IsTrue (is_value text.now)) }
    ensures refused { IfErr result (λ e. slot_fault slots.now (name.now, text.now) ≡ Some e) }
{
    let Some(variable) = Variable::of_name(name.as_bytes()) else {
        return Err(MarkerFault::UnknownVariable);
    };
    if slots[variable.place()].is_some() {
        return Err(MarkerFault::RepeatedVariable);
    }
    if !is_value(text.as_bytes()) {
        return Err(MarkerFault::BadValue);
    }
    Ok(variable)
}
