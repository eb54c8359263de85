//! Environment files: what the variables are read as, and which is told to be missing.

use crate::tests::lines::expect_row;
use pep_marker::Environment;
use pep_tool::environment_of;
use std::alloc::{AllocError, Global};
use std::process::Abort;
use tests_kit::MACHINE;

// What a variable is read as.
fn value_of(
    alloc: Global,
    environment: &Environment,
    variable: &str,
) -> Result<String, AllocError> {
    match environment.value(variable) {
        Some(text) => format!(in alloc; "= {text}"),
        None => String::from_str(alloc, "none"),
    }
}

// The same, or what the file is refused for.
fn value_line(rt: &(impl Abort + AllocGlobal), file: &str, variable: &str) -> String {
    let line = match environment_of(rt.alloc(), file.as_bytes()) {
        Ok(environment) => value_of(rt.alloc(), &environment, variable),
        Err(fault) => format!(in rt.alloc(); "{fault}"),
    };
    line.expect(rt, "room for a line")
}

// Appends a variable.
fn push_variable(rt: &(impl Abort + AllocGlobal), file: &mut String, variable: &str, value: &str) {
    let line = format!(in rt.alloc(); "\n{variable} = '{value}'").expect(rt, "room for a line");
    file.push_str(line.as_str()).expect(rt, "room for a line");
}

// A text, and behind it the variables of the machine but this one.
fn file(rt: &(impl Abort + AllocGlobal), text: &str, left_out: &str) -> String {
    let mut file = String::from_str(rt.alloc(), text).expect(rt, "room for a text");
    for &(variable, value) in &MACHINE {
        if variable != left_out {
            push_variable(rt, &mut file, variable, value);
        }
    }
    file
}

// The extra, which may be missing, and names that no variable has.
const OTHERS: [(&str, &str); 8] = [
    ("extra", "= "),
    ("", "none"),
    ("os.name", "none"),
    ("OS_NAME", "none"),
    ("python_implementation", "none"),
    ("extras", "none"),
    ("dependency_groups", "none"),
    ("os_name ", "none"),
];

// The variables of the machine have their values.
fn expect_machine(rt: &(impl Abort + AllocGlobal), file: &str) {
    for &(variable, value) in &MACHINE {
        let found = value_line(rt, file, variable);
        assert!(rt; found.as_str().strip_prefix("= ") == Some(value));
    }
}

#[test]
fn values(rt: HostRuntime) {
    let file = file(&rt, "", "");
    expect_machine(&rt, file.as_str());
    for &(name, want) in &OTHERS {
        let found = value_line(&rt, file.as_str(), name);
        expect_row(&rt, name, found.as_str(), want);
    }
}

// The front of a file, a variable that stands nowhere else, and what it is read as.
const FORMS: [(&str, &str, &str); 16] = [
    ("extra = \"dev-tools\"", "extra", "= dev-tools"),
    ("extra = 'Dev_Tools'", "extra", "= Dev_Tools"),
    ("extra = ' a b '", "extra", "=  a b "),
    ("extra = ''", "extra", "= "),
    ("\u{feff}# x\nextra = 'x'", "extra", "= x"),
    ("os_name = 'nt'", "os_name", "= nt"),
    ("os_name = ''", "os_name", "= "),
    ("\"os_name\" = 'n\"t'", "os_name", "= n\"t"),
    ("'os_name' = \"n't\\\\\"", "os_name", "= n't\\"),
    ("\"\\u006fs_name\" = \"n\\u0074\"", "os_name", "= nt"),
    ("os_name = '''\nnt'''", "os_name", "= nt"),
    ("os_name = \"\"\"\r\nn\\\r\n  t\"\"\"", "os_name", "= nt"),
    (
        "# x\r\n\r\n\t python_version\t= '3.10' # y\r",
        "python_version",
        "= 3.10",
    ),
    ("os_name = '#1; \"x\"'", "os_name", "= #1; \"x\""),
    // Of the characters that aren't printed, U+0000 to U+001F and U+007F alone are refused.
    (
        "platform_release = \" ~\\u0080\u{e9}\\U0001F600\"",
        "platform_release",
        "=  ~\u{80}\u{e9}\u{1f600}",
    ),
    ("implementation_name = 'x'", "implementation_name", "= x"),
];

// What a variable is read as that stands in the text alone.
fn form_line(rt: &(impl Abort + AllocGlobal), text: &str, variable: &str) -> String {
    let file = file(rt, text, variable);
    value_line(rt, file.as_str(), variable)
}

#[test]
fn forms(rt: HostRuntime) {
    for &(text, variable, want) in &FORMS {
        let found = form_line(&rt, text, variable);
        expect_row(&rt, text, found.as_str(), want);
    }
}

// What is told of a missing variable, before its name and behind it.
const FRONT: &str = "environment: a faulty environment: the variable `";

const BACK: &str = "` is missing";

// The variable that is told to be missing.
fn missing(told: &str) -> Option<&str> {
    told.strip_prefix(FRONT)?.strip_suffix(BACK)
}

#[test]
fn missing_variables(rt: HostRuntime) {
    for &(variable, _) in &MACHINE {
        let found = form_line(&rt, "extra = ''", variable);
        assert!(rt; missing(found.as_str()) == Some(variable));
    }
}

// Files, and the first missing variable in the order of the variables.
const FIRST_MISSING: [(&str, &str); 3] = [
    ("", "os_name"),
    ("os_name = ''\npython_version = ''", "sys_platform"),
    ("implementation_version = ''\nextra = ''", "os_name"),
];

#[test]
fn first_missing_variables(rt: HostRuntime) {
    for &(file, variable) in &FIRST_MISSING {
        let found = value_line(&rt, file, "");
        assert!(rt; missing(found.as_str()) == Some(variable));
    }
}
