//! The worked rows of accepted inputs, in memory.

use super::files_end;
use rt_cases::{
    ABC, ALL, FOUR, LARGE, LOOSE, MARY, ONE, ONES, REG, SCHEMA, SCHOOL, SOME, STUDENT, TABLE, files,
};
use std::alloc::Global;
use std::process::Abort;

/// One row for each x that is in a and in b or c.
pub(super) const MEET: &str = "SELECT x FROM a INTERSECT (SELECT x FROM b UNION SELECT x FROM c)";

/// The same answer, by another query.
pub(super) const MEETS: &str =
    "SELECT x FROM a INTERSECT SELECT x FROM b UNION SELECT x FROM a INTERSECT SELECT x FROM c";

// Whether the two queries end with this status and write just this text.
fn pair_ends(
    rt: &impl Abort,
    alloc: Global,
    schema: &str,
    tables: &[(&str, &str)],
    queries: (&str, &str),
    status: u8,
    out: &str,
) -> bool {
    let (query1, query2) = queries;
    let mut files = files(alloc, schema, tables, query1, query2).expect(rt, "memory");
    files.piece(7);
    files_end(rt, alloc, files, &FOUR, status, out, "")
}

/// Whether each pair of queries ends with its status and writes just its text.
pub(super) fn all_end(
    rt: &impl Abort,
    alloc: Global,
    schema: &str,
    tables: &[(&str, &str)],
    cases: &[(&str, &str, u8, &str)],
) -> bool {
    let mut good = true;
    for (query1, query2, status, out) in cases {
        good = pair_ends(rt, alloc, schema, tables, (query1, query2), *status, out) && good;
    }
    good
}

const STUDENTS: [(&str, &[(&str, &str)], &[(&str, &str, u8, &str)]); 3] = [
    (
        SCHOOL,
        &[STUDENT, REG],
        &[
            (ONE, SOME, 1, MARY),
            (
                "SELECT r.name FROM reg r WHERE r.dept = 'CS'",
                "SELECT r.name FROM reg r WHERE r.dept = 'CS' AND r.grade > 80",
                1,
                "witness: 2\nstudent 1: 'Mary', 'CS'\nreg 2: 'Mary', 230, 'CS', 75\nonly query 1: 1\n  'Mary'\nonly query 2: 0\nboth: 0\n",
            ),
            (
                "SELECT s.name FROM student s JOIN reg r ON s.name = r.name",
                "SELECT s.name FROM reg r JOIN student s ON r.name = s.name",
                0,
                "agree\n",
            ),
            (
                "SELECT d.n FROM (SELECT name AS n, grade AS g FROM reg) AS d WHERE d.g BETWEEN 80 AND 95",
                "SELECT name FROM reg WHERE grade IN (90)",
                0,
                "agree\n",
            ),
            (
                "SELECT s.name FROM student s WHERE EXISTS (SELECT * FROM reg r WHERE r.name = s.name AND r.grade > 80)",
                "SELECT name FROM reg WHERE grade > 80",
                0,
                "agree\n",
            ),
            (
                "SELECT name FROM student WHERE name IN (SELECT name FROM reg WHERE name IS NULL)",
                "SELECT name FROM student WHERE name <> name",
                0,
                "agree\n",
            ),
        ],
    ),
    (
        LOOSE,
        &[STUDENT, REG],
        &[(
            "SELECT r.name FROM reg r WHERE r.dept = 'CS'",
            "SELECT r.name FROM reg r WHERE r.dept = 'CS' AND r.grade > 80",
            1,
            "witness: 1\nreg 2: 'Mary', 230, 'CS', 75\nonly query 1: 1\n  'Mary'\nonly query 2: 0\nboth: 0\n",
        )],
    ),
    (
        SCHOOL,
        &[
            ("d/student.csv", "name,major\n"),
            ("d/reg.csv", "name,course,dept,grade\n"),
        ],
        &[(ONE, SOME, 0, "agree\n")],
    ),
];

#[test]
fn students(rt: HostRuntime) {
    for (schema, tables, cases) in &STUDENTS {
        assert!(rt; all_end(&rt, rt.alloc(), schema, tables, cases), "{schema}");
    }
}

const RULES_AND_NULLS: [(&str, &[(&str, &str)], &[(&str, &str, u8, &str)]); 8] = [
    (
        "CREATE TABLE t (a INTEGER); CREATE TABLE u (b INTEGER);",
        &[("d/t.csv", "a\n1\n"), ("d/u.csv", "b\n\"\"\n")],
        &[(
            "SELECT a FROM t WHERE a NOT IN (SELECT b FROM u)",
            "SELECT a FROM t WHERE NOT EXISTS (SELECT * FROM u WHERE b = a)",
            1,
            "witness: 2\nt 1: 1\nu 1: NULL\nonly query 1: 0\nonly query 2: 1\n  1\nboth: 0\n",
        )],
    ),
    (
        "CREATE TABLE t (a INTEGER); CREATE TABLE u (b INTEGER);",
        &[("d/t.csv", "a\n1\n"), ("d/u.csv", "b\n")],
        &[(
            "SELECT a FROM t WHERE a NOT IN (SELECT b FROM u)",
            "SELECT a FROM t WHERE NOT EXISTS (SELECT * FROM u WHERE b = a)",
            0,
            "agree\n",
        )],
    ),
    (
        "CREATE TABLE p (k INTEGER PRIMARY KEY, v INTEGER);",
        &[("d/p.csv", "k,v\n1,1\n1,2\n")],
        &[(
            "SELECT x.k FROM p x, p y WHERE x.k = y.k AND x.v < y.v",
            "SELECT k FROM p WHERE k <> k",
            0,
            "agree\n",
        )],
    ),
    (
        "CREATE TABLE emp (id INTEGER PRIMARY KEY, boss INTEGER REFERENCES emp);",
        &[("d/emp.csv", "id,boss\n1,2\n2,1\n")],
        &[(
            "SELECT id FROM emp",
            "SELECT id FROM emp WHERE id <> id",
            1,
            "witness: 2\nemp 1: 1, 2\nemp 2: 2, 1\nonly query 1: 2\n  1\n  2\nonly query 2: 0\nboth: 0\n",
        )],
    ),
    (
        "CREATE TABLE emp (id INTEGER PRIMARY KEY, boss INTEGER REFERENCES emp);",
        &[("d/emp.csv", "id,boss\n1,\n")],
        &[(
            "SELECT id FROM emp",
            "SELECT id FROM emp WHERE id <> id",
            1,
            "witness: 1\nemp 1: 1, NULL\nonly query 1: 1\n  1\nonly query 2: 0\nboth: 0\n",
        )],
    ),
    (
        "CREATE TABLE n (a INTEGER NOT NULL, b INTEGER);",
        &[("d/n.csv", "a,b\n,5\n7,\n")],
        &[(
            "SELECT b FROM n",
            "SELECT b FROM n WHERE b <> b",
            1,
            "witness: 1\nn 2: 7, NULL\nonly query 1: 1\n  NULL\nonly query 2: 0\nboth: 0\n",
        )],
    ),
    (
        "CREATE TABLE n (a INTEGER NOT NULL, b INTEGER);",
        &[("d/n.csv", "a,b\n,5\n")],
        &[(
            "SELECT b FROM n",
            "SELECT b FROM n WHERE b <> b",
            0,
            "agree\n",
        )],
    ),
    (
        "CREATE TABLE w (a INTEGER);",
        &[("d/w.csv", "a\n-9223372036854775808\n")],
        &[(
            "SELECT a*a+1 FROM w",
            "SELECT a*a FROM w",
            1,
            "witness: 1\nw 1: -9223372036854775808\nonly query 1: 1\n  85070591730234615865843651857942052865\nonly query 2: 1\n  85070591730234615865843651857942052864\nboth: 0\n",
        )],
    ),
];

#[test]
fn rules_and_nulls(rt: HostRuntime) {
    for (schema, tables, cases) in &RULES_AND_NULLS {
        assert!(rt; all_end(&rt, rt.alloc(), schema, tables, cases), "{schema}");
    }
}

const SETS_AND_FILES: [(&str, &[(&str, &str)], &[(&str, &str, u8, &str)]); 7] = [
    (
        ABC,
        &ONES,
        &[
            (
                "SELECT x FROM a EXCEPT SELECT x FROM b UNION SELECT x FROM c",
                "(SELECT x FROM a EXCEPT SELECT x FROM b) UNION SELECT x FROM c",
                0,
                "agree\n",
            ),
            (
                "SELECT x FROM a EXCEPT SELECT x FROM b UNION SELECT x FROM c",
                "SELECT x FROM a EXCEPT (SELECT x FROM b UNION SELECT x FROM c)",
                1,
                "witness: 1\nc 1: 1\nonly query 1: 1\n  1\nonly query 2: 0\nboth: 0\n",
            ),
            (MEET, MEETS, 0, "agree\n"),
        ],
    ),
    (
        SCHEMA,
        &[TABLE],
        &[
            (ALL, "SELECT * FROM t WHERE a >= 2;", 0, "agree\n"),
            (
                ALL,
                LARGE,
                1,
                "witness: 1\nt 2: 2, 20\nonly query 1: 1\n  2, 20\nonly query 2: 0\nboth: 0\n",
            ),
        ],
    ),
    (
        SCHEMA,
        &[("d/t.csv", "a,b\n")],
        &[(ALL, LARGE, 0, "agree\n")],
    ),
    (
        "\u{feff}CREATE TABLE t (a INTEGER, b INTEGER)",
        &[("d/t.csv", "\u{feff}A , b\n 1 ,+2\n\n3,4\n")],
        &[(
            "SELECT * FROM t -- all\n",
            "SELECT * FROM t WHERE a > 1",
            1,
            "witness: 1\nt 1: 1, 2\nonly query 1: 1\n  1, 2\nonly query 2: 0\nboth: 0\n",
        )],
    ),
    (
        "CREATE TABLE p (k INTEGER PRIMARY KEY, up INTEGER REFERENCES p);",
        &[("d/p.csv", "k,up\n1,2\n2,\n")],
        &[(
            "SELECT * FROM p WHERE k > 0",
            "SELECT * FROM p WHERE k > 1",
            1,
            "witness: 2\np 1: 1, 2\np 2: 2, NULL\nonly query 1: 1\n  1, 2\nonly query 2: 0\nboth: 1\n  2, NULL\n",
        )],
    ),
    (
        "CREATE TABLE p (k INTEGER PRIMARY KEY, up INTEGER REFERENCES p);",
        &[("d/p.csv", "k,up\n1,2\n")],
        &[(
            "SELECT * FROM p WHERE k > 0",
            "SELECT * FROM p WHERE k > 1",
            0,
            "agree\n",
        )],
    ),
    (
        "CREATE TABLE p (k INTEGER PRIMARY KEY, up INTEGER REFERENCES p);",
        &[("d/p.csv", "k,up\n1,2\n1,\n")],
        &[(
            "SELECT * FROM p WHERE k > 0",
            "SELECT * FROM p WHERE k > 1",
            1,
            "witness: 1\np 2: 1, NULL\nonly query 1: 1\n  1, NULL\nonly query 2: 0\nboth: 0\n",
        )],
    ),
];

#[test]
fn sets_and_files(rt: HostRuntime) {
    for (schema, tables, cases) in &SETS_AND_FILES {
        assert!(rt; all_end(&rt, rt.alloc(), schema, tables, cases), "{schema}");
    }
}
