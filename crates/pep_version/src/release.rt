// Releases: numbers with a dot between each two.

ghost use Rattle.std.specs.Prelude.{map, IsTrue};
ghost use Rattle.std.specs.List.{list_all};
ghost use Rattle.std.specs.Str.Parse.{digits_value};
ghost use Rattle.pep_version.specs.Way.Numbers.{NumbersOf};
ghost use Rattle.pep_version.specs.Spelling.{dotted_parts, is_number};

use crate::fault::VersionFault;
use crate::number::number;
use std::alloc::Global;
use texts::first_part;

/// The numbers of a release.
pub(crate) fn release_numbers(alloc: Global, text: &[u8]) -> Result<Vec<u64>, VersionFault>
    requires { IsTrue (list_all is_number (dotted_parts text.now)) }
    ensures { NumbersOf (map (digits_value 10) (dotted_parts text.now)) result }
{
    // As much room as pushing the first number would make.
    let mut numbers = Vec::with_capacity(alloc, 4)?;
    let mut rest = Some(text);
    while let Some(text) = rest {
        let (digits, after) = first_part(text, b'.');
        let Some(n) = number(digits) else {
            return Err(VersionFault::NumberTooLarge);
        };
        numbers.push(n)?;
        rest = after;
    }
    Ok(numbers)
}
