//! The environment of the program where none is handed in.

ghost use Rattle.std.specs.Prelude.{◌≡◌, IfOk};
ghost use Rattle.pep_tool.specs.Standard.{standard_environment};

use pep_marker::{Environment, MarkerFault};
use std::alloc::{AllocError, Global};

// Its variables and their texts.
const STANDARD: [(&str, &str); 11] = [
    ("os_name", "posix"),
    ("sys_platform", "linux"),
    ("platform_machine", "x86_64"),
    ("platform_python_implementation", "CPython"),
    ("platform_release", "6.1.0-18-amd64"),
    ("platform_system", "Linux"),
    ("platform_version", "#1 SMP"),
    ("python_version", "3.9"),
    ("python_full_version", "3.9.18"),
    ("implementation_name", "cpython"),
    ("implementation_version", "3.9.18"),
];

/// CPython 3.9.18 on a machine with Linux and an x86-64 processor, and no extra.
pub(crate) fn standard_environment(alloc: Global) -> Result<Environment, AllocError>
    ensures { IfOk result (λ e. e ≡ standard_environment) }
{
    match Environment::of(alloc, &STANDARD) {
        Ok(environment) => Ok(environment),
        Err(MarkerFault::NoMemory) => Err(AllocError),
        Err(_) => unreachable!(),
    }
}
