//! Each kind of clash, claims that don't count, and places.

use crate::tests::lines::expect_row;
use crate::tests::shown::{Part, clashes_lines, why_line};
use inputs::Kind;
use std::test::Fail;

// A table's entry of the machine, behind its header.
const TABLE: Part = (
    Kind::Table,
    "pep-table 2\nenv os_name=posix\nenv sys_platform=linux\nenv platform_machine=aarch64\n\
     env platform_python_implementation=CPython\nenv platform_release=6.8.0-1010-raspi\n\
     env platform_system=Linux\nenv platform_version=#11-Ubuntu SMP\nenv python_version=3.9\n\
     env python_full_version=3.9.18\nenv implementation_name=cpython\nenv implementation_version=3.9.18\n\
     env extra=\nattrs open\n  extra flask\n  range before 1 to end\nflask open\n  range before 2 to end\n",
);

const LINES: Part = (
    Kind::Table,
    "env open\n  range before 1 to end\nflask conflict\n  url https://a.example/\n  \
     url https://b.example/\n  range before 0.dev0 to end\n",
);

// The inputs, the name, and the line.
const ROWS: [(&str, &[Part], &str, &str); 27] = [
    ("no claim", &[(Kind::List, "django\n")], "flask", "open"),
    (
        "claims of the last of six inputs",
        &[
            (Kind::List, "django\n"),
            (Kind::List, "django\n"),
            (Kind::List, "django\n"),
            (Kind::List, "django\n"),
            (Kind::List, "flask<1\n"),
            (Kind::List, "flask>=2\n"),
        ],
        "flask",
        "none | 5:1 flask<1 * | 6:1 flask>=2 *",
    ),
    (
        "a table's entry behind five claims",
        &[
            (
                Kind::List,
                "flask>=0.1\nflask>=0.2\nflask>=0.3\nflask>=0.4\nflask<1\n",
            ),
            TABLE,
        ],
        "flask",
        "none | 1:1 flask>=0.1 | 1:2 flask>=0.2 | 1:3 flask>=0.3 | 1:4 flask>=0.4 | 1:5 flask<1 * \
         | 2:17 flask open\n  range before 2 to end\n *",
    ),
    (
        "two bounds, behind a comment",
        &[(
            Kind::List,
            "# comment\n\nflask>=2.0\nFlask[async]<3\nflask<1.5\ndjango\n",
        )],
        "flask",
        "none | 1:3 flask>=2.0 * | 1:4 flask[async]<3 | 1:5 flask<1.5 *",
    ),
    (
        "bounds, and a != that closes the gap",
        &[(
            Kind::List,
            "flask>=2.0\nflask!=2.0.*\nflask>=1\nflask<2.1\n",
        )],
        "flask",
        "none | 1:1 flask>=2.0 * | 1:2 flask!=2.0.* * | 1:3 flask>=1 | 1:4 flask<2.1 *",
    ),
    (
        "prefixes that cover a range piece by piece",
        &[(
            Kind::List,
            "flask==2.*\nflask!=2.0.*\nflask!=2.1.*\nflask<2.2\nflask!=2.3.*\n",
        )],
        "flask",
        "none | 1:1 flask==2.* * | 1:2 flask!=2.0.* * | 1:3 flask!=2.1.* * | 1:4 flask<2.2 * | 1:5 flask!=2.3.*",
    ),
    (
        "a bound that a cover takes, though the prefixes are enough",
        &[(Kind::List, "flask>=2.0\nflask!=2.*\nflask==2.*\n")],
        "flask",
        "none | 1:1 flask>=2.0 | 1:2 flask!=2.* * | 1:3 flask==2.* *",
    ),
    (
        "an epoch, whose cuts have no places",
        &[(
            Kind::List,
            "flask!=1!0.*\nflask>=1!1.0\nflask!=1!1.*\nflask<1!2\n",
        )],
        "flask",
        "none | 1:1 flask!=1!0.* | 1:2 flask>=1!1.0 * | 1:3 flask!=1!1.* * | 1:4 flask<1!2 *",
    ),
    (
        "a clause without a place behind one that has two",
        &[(Kind::List, "flask>=1.0\nflask!=1.*,>0.5\nflask<2\n")],
        "flask",
        "none | 1:1 flask>=1.0 * | 1:2 flask!=1.*,>0.5 * | 1:3 flask<2 *",
    ),
    (
        "a != that closes the gap between an entry and a bound",
        &[TABLE, (Kind::List, "flask!=3.*\nflask<3\nflask!=2.*\n")],
        "flask",
        "none | 1:17 flask open\n  range before 2 to end\n * | 2:1 flask!=3.* | 2:2 flask<3 * | 2:3 flask!=2.* *",
    ),
    (
        "two demanded texts",
        &[(Kind::List, "flask===1.0\nflask===1.0\nflask===2.0\n")],
        "flask",
        "none | 1:1 flask===1.0 * | 1:2 flask===1.0 | 1:3 flask===2.0 *",
    ),
    (
        "a text and a bound",
        &[(Kind::List, "flask===1.0\nflask<3\nflask>=2\n")],
        "flask",
        "none | 1:1 flask===1.0 * | 1:2 flask<3 | 1:3 flask>=2 *",
    ),
    (
        "a text, and a clause that closes no gap but leaves its version out",
        &[(
            Kind::List,
            "flask!=2.*\nflask>=0.5\nflask===1.0\nflask!=1.0\nflask<1.5\n",
        )],
        "flask",
        "none | 1:1 flask!=2.* | 1:2 flask>=0.5 | 1:3 flask===1.0 * | 1:4 flask!=1.0 * | 1:5 flask<1.5",
    ),
    (
        "three URLs",
        &[(
            Kind::List,
            "flask @ https://a.example/\nflask @ https://a.example/\n\
             flask @ https://b.example/\nflask @ https://c.example/\n",
        )],
        "flask",
        "conflict | 1:1 flask @ https://a.example/ * | 1:2 flask @ https://a.example/ \
         | 1:3 flask @ https://b.example/ * | 1:4 flask @ https://c.example/",
    ),
    (
        "an entry against a list",
        &[TABLE, (Kind::List, "flask<1\n")],
        "flask",
        "none | 1:17 flask open\n  range before 2 to end\n * | 2:1 flask<1 *",
    ),
    (
        "an entry with two URLs",
        &[(Kind::List, "flask\n"), LINES],
        "flask",
        "conflict | 1:1 flask | 2:3 flask conflict\n  url https://a.example/\n  \
         url https://b.example/\n  range before 0.dev0 to end\n *",
    ),
    (
        "an entry named as a line of a header begins",
        &[LINES],
        "env",
        "open | 1:1 env open\n  range before 1 to end\n",
    ),
    (
        "a marker that doesn't hold",
        &[(
            Kind::List,
            "flask>=2; os_name == 'nt'\nflask<1\nflask>=1.5 ; os_name == 'posix'\n",
        )],
        "flask",
        "none | 1:2 flask<1 * | 1:3 flask>=1.5 ; os_name == \"posix\" *",
    ),
    (
        "extras never clash",
        &[(Kind::List, "flask[a]\nflask[b]\n")],
        "flask",
        "open | 1:1 flask[a] | 1:2 flask[b]",
    ),
    (
        "a requirement that clashes with itself",
        &[(Kind::List, "flask>=1\nflask>=2,<1\nflask<0.5\n")],
        "flask",
        "none | 1:1 flask>=1 | 1:2 flask>=2,<1 * | 1:3 flask<0.5",
    ),
    (
        "texts of a project file",
        &[
            (
                Kind::Project,
                "project.dependencies = ['django', 'flask>=2', 'flask<4']",
            ),
            (Kind::List, "\r\n  flask<1  \r\n"),
        ],
        "flask",
        "none | 1:2 flask>=2 * | 1:3 flask<4 | 2:2 flask<1 *",
    ),
    (
        "a name that another begins with",
        &[(Kind::List, "flask-sqlalchemy<1\nflask>1\n")],
        "flask",
        "open | 1:2 flask>1",
    ),
    ("an empty list", &[(Kind::List, "")], "flask", "open"),
    ("no input", &[], "flask", "open"),
    (
        "an undefined marker of another name",
        &[(Kind::List, "flask\ndjango; extra < '1'\n")],
        "flask",
        "open | 1:1 flask",
    ),
    (
        "a faulty line of another name",
        &[(Kind::List, "flask\n"), (Kind::List, "flask\ndjango<\n")],
        "flask",
        "refused input 2 line 2 code 57 33 12\n",
    ),
    (
        "a claim twice",
        &[(Kind::List, "flask<1\nflask<1\nflask>2\nflask>2\n")],
        "flask",
        "none | 1:1 flask<1 * | 1:2 flask<1 | 1:3 flask>2 * | 1:4 flask>2",
    ),
];

#[test]
fn worked(rt: HostRuntime) -> Result<(), Fail> {
    for &(row, parts, name, want) in &ROWS {
        let line = why_line(rt.alloc(), parts, name)?;
        expect_row(&rt, row, line.as_str(), want);
    }
    Ok(())
}

// The inputs, and the lines of the packages that aren't open.
const ALL: [(&str, &[Part], &str); 4] = [
    ("all open", &[(Kind::List, "flask>=2\ndjango\n"), TABLE], ""),
    (
        "two of four",
        &[
            (Kind::List, "flask>=2\nzope<1\nattrs<2\nflask<1\n"),
            (Kind::List, "zope>1\ndjango\n"),
        ],
        "flask none | 1:1 flask>=2 * | 1:4 flask<1 *\nzope none | 1:2 zope<1 * | 2:1 zope>1 *\n",
    ),
    (
        "four of six, over a list, a project file and tables",
        &[
            (
                Kind::List,
                "# comment\nflask<1\nzope>=2 ; os_name == 'nt'\nattrs<1\r\nzope>=2\n\ndjango\nenv<1\nb\n",
            ),
            (
                Kind::Project,
                "project.dependencies = ['zope<1', 'attrs', 'flask<3', 'zope!=3']",
            ),
            TABLE,
            LINES,
        ],
        "attrs none | 1:4 attrs<1 * | 2:2 attrs | 3:14 attrs open\n  extra flask\n  range before 1 to end\n *\n\
         env none | 1:8 env<1 * | 4:1 env open\n  range before 1 to end\n *\n\
         flask conflict | 1:2 flask<1 | 2:3 flask<3 | 3:17 flask open\n  range before 2 to end\n \
         | 4:3 flask conflict\n  url https://a.example/\n  url https://b.example/\n  \
         range before 0.dev0 to end\n *\n\
         zope none | 1:5 zope>=2 * | 2:1 zope<1 * | 2:4 zope!=3\n",
    ),
    (
        "a table and a faulty line",
        &[LINES, (Kind::List, "flask<\n")],
        "refused input 2 line 1 code 57 33 12\n",
    ),
];

#[test]
fn all(rt: HostRuntime) -> Result<(), Fail> {
    for &(row, parts, want) in &ALL {
        let lines = clashes_lines(rt.alloc(), parts)?;
        expect_row(&rt, row, lines.as_str(), want);
    }
    Ok(())
}
