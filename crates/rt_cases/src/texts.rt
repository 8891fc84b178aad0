//! Schemas, tables and queries that several tests read, and a witness.

/// One table of two columns.
pub const SCHEMA: &str = "CREATE TABLE t (a INTEGER, b INTEGER);";

/// Three rows of it.
pub const TABLE: (&str, &str) = ("d/t.csv", "a,b\n1,10\n2,20\n3,30\n");

/// Two of the three rows.
pub const ALL: &str = "SELECT * FROM t WHERE a > 1";

/// One of the three rows.
pub const LARGE: &str = "SELECT * FROM t WHERE a > 2";

/// Students and their registrations, which refer to them.
pub const SCHOOL: &str = "CREATE TABLE student (name TEXT PRIMARY KEY, major TEXT);\n\
    CREATE TABLE reg (name TEXT REFERENCES student, course INTEGER, dept TEXT, grade INTEGER, PRIMARY KEY (name, course));";

/// The same without the foreign key.
pub const LOOSE: &str = "CREATE TABLE student (name TEXT PRIMARY KEY, major TEXT);\n\
    CREATE TABLE reg (name TEXT, course INTEGER, dept TEXT, grade INTEGER, PRIMARY KEY (name, course));";

/// Two students.
pub const STUDENT: (&str, &str) = ("d/student.csv", "name,major\nMary,CS\nJohn,ECON\n");

/// Three registrations of them.
pub const REG: (&str, &str) = (
    "d/reg.csv",
    "name,course,dept,grade\nMary,216,CS,100\nMary,230,CS,75\nJohn,316,CS,90\n",
);

/// The students with one course of CS.
pub const ONE: &str =
    "SELECT s.name FROM student s, reg r WHERE s.name = r.name AND r.dept = 'CS' EXCEPT SELECT s.name FROM student s, reg r1, reg r2 WHERE s.name = r1.name AND s.name = r2.name AND r1.course <> r2.course AND r1.dept = 'CS' AND r2.dept = 'CS'";

/// The students with a course of CS.
pub const SOME: &str =
    "SELECT s.name FROM student s, reg r WHERE s.name = r.name AND r.dept = 'CS'";

/// The text of the smallest counterexample of `ONE` and `SOME` over these rows.
pub const MARY: &str =
    "witness: 3\nstudent 1: 'Mary', 'CS'\nreg 1: 'Mary', 216, 'CS', 100\nreg 2: 'Mary', 230, 'CS', 75\nonly query 1: 0\nonly query 2: 1\n  'Mary'\nboth: 0\n";

/// Three tables of one column.
pub const ABC: &str =
    "CREATE TABLE a (x INTEGER); CREATE TABLE b (x INTEGER); CREATE TABLE c (x INTEGER)";

/// One row in each of them.
pub const ONES: [(&str, &str); 3] = [
    ("d/a.csv", "x\n1\n"),
    ("d/b.csv", "x\n1\n"),
    ("d/c.csv", "x\n1\n"),
];

/// Two rows in each of them.
pub const TWOS: [(&str, &str); 3] = [
    ("d/a.csv", "x\n1\n2\n"),
    ("d/b.csv", "x\n1\n2\n"),
    ("d/c.csv", "x\n1\n2\n"),
];
