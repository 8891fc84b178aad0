//! Checks and functional dependencies, in memory.

use super::worked::all_end;

const PAIRS: [(&str, &str); 1] = [("d/g.csv", "k,v\n1,1\n1,2\n")];

const TWICE: &str = "SELECT x.k FROM g x, g y WHERE x.k = y.k AND x.v < y.v";

const CHECKS: [(&str, &[(&str, &str)], &[(&str, &str, u8, &str)]); 4] = [
    (
        "CREATE TABLE g (k INTEGER, v INTEGER, DEPENDENCY (k) DETERMINES (v));",
        &PAIRS,
        &[(TWICE, "SELECT k FROM g WHERE k <> k", 0, "agree\n")],
    ),
    (
        "CREATE TABLE g (k INTEGER, v INTEGER, DEPENDENCY (v) DETERMINES (k));",
        &PAIRS,
        &[(
            TWICE,
            "SELECT k FROM g WHERE k <> k",
            1,
            "witness: 2\ng 1: 1, 1\ng 2: 1, 2\nonly query 1: 1\n  1\nonly query 2: 0\nboth: 0\n",
        )],
    ),
    (
        "CREATE TABLE h (a INTEGER CHECK (a > 0), b INTEGER);",
        &[("d/h.csv", "a,b\n-1,5\n,6\n3,7\n")],
        &[(
            "SELECT b FROM h",
            "SELECT b FROM h WHERE b <> b",
            1,
            "witness: 1\nh 2: NULL, 6\nonly query 1: 1\n  6\nonly query 2: 0\nboth: 0\n",
        )],
    ),
    (
        "CREATE TABLE h (dependency INTEGER, CHECK (dependency BETWEEN 0 AND 100 OR dependency IN (-1)));",
        &[("d/h.csv", "dependency\n-2\n101\n")],
        &[(
            "SELECT dependency FROM h",
            "SELECT dependency FROM h WHERE dependency <> dependency",
            0,
            "agree\n",
        )],
    ),
];

#[test]
fn checks_and_dependencies(rt: HostRuntime) {
    for (schema, tables, cases) in &CHECKS {
        assert!(rt; all_end(&rt, rt.alloc(), schema, tables, cases), "{schema}");
    }
}
