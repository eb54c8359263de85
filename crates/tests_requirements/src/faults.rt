//! Faults of requirement lines with their codes and their texts.

use pep_clause::ClauseFault;
use pep_marker::MarkerFault;
use pep_require::RequireFault;

/// Faults of requirement lines, each with its code, the code inside it and its text.
pub const REQUIRE_FAULTS: [(RequireFault, &str); 10] = [
    (RequireFault::BadName, "31 not a name"),
    (RequireFault::BadExtras, "32 not a list of extras"),
    (
        RequireFault::BadClause(ClauseFault::OneNumber),
        "33 15 a faulty clause: `~=` wants two release numbers or more",
    ),
    (RequireFault::BadUrl, "34 not a URL"),
    (
        RequireFault::BadMarker(MarkerFault::TooDeep),
        "35 27 a faulty marker: a marker that is too deep or too long",
    ),
    (RequireFault::Trailing, "36 something else follows"),
    (RequireFault::OptionLine, "37 an option"),
    (RequireFault::LineTooLong, "38 a line that is too long"),
    (RequireFault::UrlOverflow, "39 a URL that is too long"),
    (RequireFault::NoMemory, "40 out of memory"),
];
