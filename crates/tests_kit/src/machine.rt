//! A machine on which markers are judged. It isn't that of the program where no environment is handed
//! in, so that a test shows which of the two counts.

/// The pairs of an environment, in the order of the variables.
pub const MACHINE: [(&str, &str); 11] = [
    ("os_name", "posix"),
    ("sys_platform", "linux"),
    ("platform_machine", "aarch64"),
    ("platform_python_implementation", "CPython"),
    ("platform_release", "6.8.0-1010-raspi"),
    ("platform_system", "Linux"),
    ("platform_version", "#11-Ubuntu SMP"),
    ("python_version", "3.9"),
    ("python_full_version", "3.9.18"),
    ("implementation_name", "cpython"),
    ("implementation_version", "3.9.18"),
];

/// What stands in front of the lines of a table that was made in this environment.
pub const MACHINE_HEADER: &str = "\
    pep-table 2\n\
    env os_name=posix\n\
    env sys_platform=linux\n\
    env platform_machine=aarch64\n\
    env platform_python_implementation=CPython\n\
    env platform_release=6.8.0-1010-raspi\n\
    env platform_system=Linux\n\
    env platform_version=#11-Ubuntu SMP\n\
    env python_version=3.9\n\
    env python_full_version=3.9.18\n\
    env implementation_name=cpython\n\
    env implementation_version=3.9.18\n\
    env extra=\n\
    ";

/// What stands in front of the lines of a table that a run without words prints.
pub const STANDARD_HEADER: &str = "\
    pep-table 2\nenv os_name=posix\nenv sys_platform=linux\nenv platform_machine=x86_64\n\
    env platform_python_implementation=CPython\nenv platform_release=6.1.0-18-amd64\n\
    env platform_system=Linux\nenv platform_version=#1 SMP\nenv python_version=3.9\n\
    env python_full_version=3.9.18\nenv implementation_name=cpython\n\
    env implementation_version=3.9.18\nenv extra=\n";
