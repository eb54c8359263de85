//! Markers: which texts are read, how they are written, and what they say in an environment.

use crate::tests::lines::{
    expect, expect_lines, expect_none, expect_own_lines, expect_row, long_text,
};
use pep_marker::{Environment, JudgedMarkers, Marker, MarkerFault};
use std::alloc::{AllocError, Global};
use std::process::Abort;
use tests_kit::{Kind, MACHINE, first_difference_from};

const VARIABLES: [&str; 12] = [
    "os_name",
    "sys_platform",
    "platform_machine",
    "platform_python_implementation",
    "platform_release",
    "platform_system",
    "platform_version",
    "python_version",
    "python_full_version",
    "implementation_name",
    "implementation_version",
    "extra",
];

const OPERATORS: [&str; 10] = [
    "~=", "==", "!=", "<=", ">=", "<", ">", "===", "in", "not in",
];

// What each marker says on the machine.
const TRUTHS: [(&str, &str); 33] = [
    ("python_version < \"3.10\"", "true"),
    ("\"3.8\" <= python_version", "true"),
    ("\"18446744073709551616\" < python_version", "true"),
    ("\"3.9.0\" == python_version", "true"),
    ("\"3.9+x\" == python_version", "true"),
    ("\"3.9.0\" === python_version", "false"),
    ("\"3.9.*\" == python_version", "false"),
    ("\"3.9rc1\" < python_version", "false"),
    ("\"3.10\" ~= python_version", "true"),
    ("\"3.9.1\" ~= python_full_version", "false"),
    ("python_version < python_full_version", "true"),
    ("python_full_version ~= python_version", "true"),
    ("\"4\" > os_name", "false"),
    ("python_version == \"3.*\"", "true"),
    ("python_version in \"3.8 3.9\"", "true"),
    ("\"lin\" in sys_platform", "true"),
    ("sys_platform in \"lin\"", "false"),
    ("sys_platform === \"LINUX\"", "true"),
    ("sys_platform < \"m\"", "true"),
    ("platform_release >= \"6\"", "true"),
    ("extra == \"\"", "true"),
    (
        "os_name == \"nt\" and os_name == \"nt\" or os_name == \"posix\"",
        "true",
    ),
    (
        "os_name == \"nt\" and (os_name == \"nt\" or os_name == \"posix\")",
        "false",
    ),
    ("os_name not  in \"posix nt\"", "false"),
    // Beside `python_version`, which is 3.9, operators and texts that make a clause are compared as
    // versions, and the others as texts.
    ("python_version == \"3.9.0\"", "true"),
    ("python_version === \"3.9.0\"", "false"),
    ("python_version == \" v3.9\t\"", "true"),
    ("python_version != \"3.*\"", "false"),
    ("python_version >= \"3.*\"", "true"),
    ("python_version >= \"10.*\"", "true"),
    ("python_version >= \"10.0+x\"", "true"),
    ("python_version > \"18446744073709551615\"", "false"),
    ("python_version > \"18446744073709551616\"", "true"),
];

const UNDEFINED: [&str; 9] = [
    "extra ~= \"1.0\"",
    "sys_platform ~= \"1.0\"",
    "\"1.0\" ~= sys_platform",
    "python_version ~= \"3\"",
    "python_version ~= \"18446744073709551616.0\"",
    "\"dog\" ~= \"fred\"",
    "os_name == \"zz\" and \"dog\" ~= \"fred\"",
    "\"dog\" ~= \"fred\" and os_name == \"zz\"",
    "os_name == \"posix\" or \"dog\" ~= \"fred\"",
];

// Markers, and how they are written.
const TEXTS: [(&str, &str); 17] = [
    ("((\"a\"==\"a\"))", "\"a\" == \"a\""),
    (
        "os_name=='x' or (os_name=='y' and extra=='z')",
        "os_name == \"x\" or os_name == \"y\" and extra == \"z\"",
    ),
    (
        "os_name not  in \"posix nt\"",
        "os_name not in \"posix nt\"",
    ),
    (
        "('a'<'b' or 'c'>'d') and 'e'!='f'",
        "(\"a\" < \"b\" or \"c\" > \"d\") and \"e\" != \"f\"",
    ),
    (
        "'a'<'b' and ('c'>'d' or 'e'!='f')",
        "\"a\" < \"b\" and (\"c\" > \"d\" or \"e\" != \"f\")",
    ),
    (
        "'a'<'b' and ('c'>'d' and 'e'!='f')",
        "\"a\" < \"b\" and (\"c\" > \"d\" and \"e\" != \"f\")",
    ),
    (
        "'a'<'b' or ('c'>'d' or 'e'!='f')",
        "\"a\" < \"b\" or (\"c\" > \"d\" or \"e\" != \"f\")",
    ),
    (
        "('a'<'b' and 'c'>'d') and 'e'!='f'",
        "\"a\" < \"b\" and \"c\" > \"d\" and \"e\" != \"f\"",
    ),
    (
        "('a'<'b' or 'c'>'d') or 'e'!='f'",
        "\"a\" < \"b\" or \"c\" > \"d\" or \"e\" != \"f\"",
    ),
    (
        "('a'<'b' and 'c'>'d') or 'e'!='f'",
        "\"a\" < \"b\" and \"c\" > \"d\" or \"e\" != \"f\"",
    ),
    (
        "'a'<'b' and (((('c'>'d')))) and ('e'!='f')",
        "\"a\" < \"b\" and \"c\" > \"d\" and \"e\" != \"f\"",
    ),
    ("'a \"b\"' == \"c 'd'\"", "'a \"b\"' == \"c 'd'\""),
    ("'' == \"\"", "\"\" == \"\""),
    ("'(a\tand' in ' \u{e9}#'", "\"(a\tand\" in \" \u{e9}#\""),
    (
        "os_name=='x'and'a'in'b'or'c'not in'd'",
        "os_name == \"x\" and \"a\" in \"b\" or \"c\" not in \"d\"",
    ),
    (
        "\t  os_name \t == 'x'  \tand\t( 'a'\tin  'b' \t) \t",
        "os_name == \"x\" and \"a\" in \"b\"",
    ),
    ("'a' not\t \tin 'b'  ", "\"a\" not in \"b\""),
];

const FAULTY: [&str; 34] = [
    "",
    "  \t",
    "not",
    "os_name not",
    "os_name not \"x\"",
    "os_name notin \"x\"",
    "os_name=\"x",
    "os_name==\"x",
    "os_name == 'x\"",
    "os_name == \"a\" or",
    "or os_name == \"a\"",
    "os_name == \"a\" and or os_name == \"a\"",
    "os_name == \"a\" os_name == \"a\"",
    "os_name",
    "os_name == os_name ==",
    "\"a\" \"b\"",
    "os_name == \"a\nb\"",
    "os_name == 'a\rb'",
    "os_name\n== \"a\"",
    "\u{a0}os_name == \"a\"",
    "os_name not_in \"x\"",
    "os_name inn \"x\"",
    "os_name IN \"x\"",
    "OS_NAME == \"x\"",
    "\"a\" == \"b\" and1 \"c\" == \"d\"",
    "\"a\" == \"b\" AND \"c\" == \"d\"",
    "os.name == \"x\"",
    "python_implementation == \"x\"",
    "os_name = \"x\"",
    "os_name == = \"x\"",
    "(\"a\" == \"b\"",
    "\"a\" == \"b\")",
    "()",
    "(\"a\") == \"b\"",
];

// The code of a fault.
fn refusal(fault: MarkerFault) -> &'static str {
    match fault {
        MarkerFault::BadMarker => "refused 26",
        MarkerFault::TooDeep => "refused 27",
        MarkerFault::Undefined => "refused 28",
        _ => "refused",
    }
}

// A truth, or why there is none.
fn word_of(truth: Result<bool, MarkerFault>) -> &'static str {
    match truth {
        Ok(true) => "true",
        Ok(false) => "false",
        Err(fault) => refusal(fault),
    }
}

fn text_of(alloc: Global, text: &str) -> Result<String, MarkerFault> {
    Marker::read(alloc, text)?.text(alloc)
}

// The text of the marker that a text is read as, or why there is none.
struct Text;

impl Kind for Text {
    type Fault = AllocError;

    fn line(&self, alloc: Global, row: &str) -> Result<String, AllocError> {
        match text_of(alloc, row) {
            Ok(text) => Ok(text),
            Err(fault) => String::from_str(alloc, refusal(fault)),
        }
    }
}

fn truth_of(alloc: Global, environment: &Environment, text: &str) -> Result<bool, MarkerFault> {
    Marker::read(alloc, text)?.holds(alloc, environment)
}

fn expect_truth(
    rt: &(impl Abort + AllocGlobal),
    environment: &Environment,
    text: &str,
    want: &str,
) {
    let truth = truth_of(rt.alloc(), environment, text);
    expect_row(rt, text, word_of(truth), want);
}

fn expect_truths(
    rt: &(impl Abort + AllocGlobal),
    environment: &Environment,
    rows: &[(&str, &str)],
) {
    for &(text, want) in rows {
        expect_truth(rt, environment, text, want);
    }
}

/// The environment of the machine.
pub(crate) fn machine(rt: &(impl Abort + AllocGlobal)) -> Environment {
    Environment::of(rt.alloc(), &MACHINE).expect(rt, "the machine")
}

#[test]
fn truths(rt: HostRuntime) {
    let machine = machine(&rt);
    expect_truths(&rt, &machine, &TRUTHS);
    for text in &UNDEFINED {
        expect_truth(&rt, &machine, text, "refused 28");
    }
}

// The memory says of a text what is wanted, and says so again.
fn expect_judged(
    rt: &(impl Abort + AllocGlobal),
    markers: &mut JudgedMarkers<'_>,
    text: &str,
    want: &str,
) {
    expect_row(rt, text, word_of(markers.judge(rt.alloc(), text)), want);
    expect_row(rt, text, word_of(markers.judge(rt.alloc(), text)), want);
}

// By `==` where the number is even, which holds of one, and else by `!=`, which holds.
fn expect_micro(rt: &(impl Abort + AllocGlobal), markers: &mut JudgedMarkers<'_>, micro: u32) {
    let is_even = micro % 2 == 0;
    let operator = if is_even { "==" } else { "!=" };
    let want = if is_even && micro != 18 {
        "false"
    } else {
        "true"
    };
    let text = format!(in rt.alloc(); "python_full_version {operator} '3.9.{micro}'");
    let text = text.expect(rt, "room for a marker");
    expect_judged(rt, markers, text.as_str(), want);
}

// Five thousand markers in two rounds, where a memory has 4,096 places, so that some are shared.
#[test]
fn more_markers_than_are_remembered(rt: HostRuntime) {
    let machine = machine(&rt);
    let mut markers = JudgedMarkers::new(rt.alloc(), &machine);
    for round in 0..10_000u32 {
        expect_micro(&rt, &mut markers, round % 5_000);
    }
}

// Asserts that the memory tells the truth of each marker on the machine.
fn expect_truths_judged(rt: &(impl Abort + AllocGlobal), markers: &mut JudgedMarkers<'_>) {
    for &(text, truth) in &TRUTHS {
        expect_judged(rt, markers, text, truth);
    }
}

// The memory says of each text without a truth that it has none.
fn expect_undefined_judged(rt: &(impl Abort + AllocGlobal), markers: &mut JudgedMarkers<'_>) {
    for text in &UNDEFINED {
        expect_judged(rt, markers, text, "refused 28");
    }
}

// A marker of 21 comparisons, the last of which doesn't hold.
fn long_marker(rt: &(impl Abort + AllocGlobal)) -> String {
    long_text(rt, "(", "os_name == 'posix' and ", 20, "os_name == 'nt')")
}

#[test]
fn remembered_markers(rt: HostRuntime) {
    let machine = machine(&rt);
    let mut markers = JudgedMarkers::new(rt.alloc(), &machine);
    expect_truths_judged(&rt, &mut markers);
    expect_undefined_judged(&rt, &mut markers);
    expect_judged(&rt, &mut markers, long_marker(&rt).as_str(), "false");
    expect_judged(&rt, &mut markers, "os_name = 'nt'", "refused 26");
}

const WITH_EXTRA: [(&str, &str); 4] = [
    ("extra == \"Dev_Tools\"", "true"),
    ("\"DEV.-tools\" == extra", "true"),
    ("extra == \"\"", "false"),
    ("extra == \"dev\"", "false"),
];

fn machine_with_extra(rt: &(impl Abort + AllocGlobal)) -> Environment {
    let copied = Vec::from_slice(rt.alloc(), &MACHINE);
    let mut pairs = copied.expect(rt, "the pairs of the machine");
    pairs
        .push(("extra", "dev-tools"))
        .expect(rt, "room for a pair");
    Environment::of(rt.alloc(), &pairs).expect(rt, "an environment")
}

#[test]
fn truth_with_extra(rt: HostRuntime) {
    expect_truths(&rt, &machine_with_extra(&rt), &WITH_EXTRA);
}

#[test]
fn texts(rt: HostRuntime) -> Result<(), AllocError> {
    expect_lines(&rt, &Text, &TEXTS);
    expect_own_lines(&rt, &Text, &UNDEFINED);
    let found = first_difference_from(rt.alloc(), &Text, &FAULTY, "refused 26")?;
    expect_none(&rt, found);
    Ok(())
}

// Whether the text of a marker is its own text.
fn is_stable(alloc: Global, text: &str) -> Result<bool, MarkerFault> {
    let once = text_of(alloc, text)?;
    Ok(text_of(alloc, once.as_str())? == once)
}

// The text of each marker is its own text.
fn expect_stable(rt: &(impl Abort + AllocGlobal), rows: &[(&str, &str)]) {
    for &(text, _) in rows {
        let stable = is_stable(rt.alloc(), text).expect(rt, "the text of a marker");
        expect(rt, text, stable);
    }
}

#[test]
fn texts_of_texts(rt: HostRuntime) {
    expect_stable(&rt, &TEXTS);
    expect_stable(&rt, &TRUTHS);
}

fn expect_operator(rt: &(impl Abort + AllocGlobal), variable: &str, operator: &str) {
    let left = format!(in rt.alloc(); "{variable} {operator} \"1.0\"");
    expect_own_lines(rt, &Text, &[left.expect(rt, "room for a marker").as_str()]);
    let right = format!(in rt.alloc(); "\"1.0\" {operator} {variable}");
    expect_own_lines(rt, &Text, &[right.expect(rt, "room for a marker").as_str()]);
}

#[test]
fn variables_and_operators(rt: HostRuntime) {
    for variable in &VARIABLES {
        for operator in &OPERATORS {
            expect_operator(&rt, variable, operator);
        }
    }
}

// ---- long and deep markers

// A comparison in so many parentheses.
fn in_parentheses(rt: &(impl Abort + AllocGlobal), count: usize) -> String {
    let text = long_text(rt, "", "(", count, "'a'=='a'");
    long_text(rt, text.as_str(), ")", count, "")
}

#[test]
fn open_parentheses(rt: HostRuntime) {
    for &(count, want) in &[(64, "\"a\" == \"a\""), (65, "refused 27")] {
        let text = in_parentheses(&rt, count);
        expect_lines(&rt, &Text, &[(text.as_str(), want)]);
    }
}

// What stands in front, what is repeated and how often, what stands behind, and whether all is a marker.
type Long<'a> = (&'a str, &'a str, usize, &'a str, &'a str);

const DEEP: [Long; 3] = [
    ("", "('a'=='a') or ", 65, "'a'=='a'", "read"),
    ("", "(", 64, "+", "refused 26"),
    ("", "(", 65, "+", "refused 27"),
];

// What begins no marker, however deep the parentheses behind it.
const NO_MARKERS: [&str; 5] = ["+", "and ", "'a' ", "'a'=='a' ", "(or "];

const COMPARISONS: [Long; 20] = [
    ("", "'a'=='a' or ", 1023, "'a'=='a'", "read"),
    ("", "'a'=='a' or ", 1024, "'a'=='a'", "refused 27"),
    ("", "'a'=='a' or ", 1024, "'a'=='a' +", "refused 27"),
    ("", "'a'=='a' or ", 1024, "('a'=='a'", "refused 27"),
    ("", "'a'=='a' or ", 1024, "'a'=='a' or or", "refused 27"),
    ("", "'a'=='a' and ", 1023, "'a'=='a'", "read"),
    ("", "'a'=='a' and ", 1024, "'a'=='a'", "refused 27"),
    ("", "'a'=='a' and ", 1024, "'a'=='a' +", "refused 27"),
    ("", "'a'=='a' and ", 1024, "('a'=='a'", "refused 27"),
    ("", "'a'=='a' and ", 1024, "'a'=='a' or or", "refused 27"),
    ("", "'a'=='a' or ", 1024, "", "refused 26"),
    ("", "'a'=='a' or ", 1024, "'a'", "refused 26"),
    ("", "'a'=='a' or ", 1024, "'a'==", "refused 26"),
    ("", "'a'=='a' or ", 1024, "'a'==)", "refused 26"),
    ("", "'a'=='a' or ", 1024, "'a' 'a'", "refused 26"),
    ("", "'a'=='a' or ", 1024, "+", "refused 26"),
    ("", "'a'=='a' or ", 1024, "or 'a'=='a'", "refused 26"),
    ("+", "'a'=='a' or ", 1024, "'a'=='a'", "refused 26"),
    ("'a'== or ", "'a'=='a' or ", 1024, "'a'=='a'", "refused 26"),
    (") ", "'a'=='a' or ", 1024, "'a'=='a'", "refused 26"),
];

// Whether the text is a marker, or why not.
fn reading_word(alloc: Global, text: &str) -> &'static str {
    match Marker::read(alloc, text) {
        Ok(_) => "read",
        Err(fault) => refusal(fault),
    }
}

fn expect_reading(rt: &(impl Abort + AllocGlobal), row: Long) {
    let (front, part, count, behind, want) = row;
    let text = long_text(rt, front, part, count, behind);
    expect_row(rt, front, reading_word(rt.alloc(), text.as_str()), want);
}

fn expect_readings(rt: &(impl Abort + AllocGlobal), rows: &[Long]) {
    for row in rows {
        expect_reading(rt, *row);
    }
}

#[test]
fn long_and_deep_texts(rt: HostRuntime) {
    expect_readings(&rt, &DEEP);
    expect_readings(&rt, &COMPARISONS);
    for front in &NO_MARKERS {
        expect_reading(&rt, (*front, "(", 65, "+", "refused 26"));
    }
}

#[test]
fn truth_of_many_comparisons(rt: HostRuntime) {
    let machine = machine(&rt);
    for &(behind, truth) in &[("os_name=='posix'", "true"), ("os_name=='nt'", "false")] {
        let text = long_text(&rt, "", "python_version>='3' and ", 1023, behind);
        expect_truth(&rt, &machine, text.as_str(), truth);
    }
}
