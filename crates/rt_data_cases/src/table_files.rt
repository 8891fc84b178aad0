//! Table files: records, errors and their order, the limit of rows, and the generated input.

use rt_ddl::read_schema;
use rt_load::{LoadFault, Made, load, made};
use rt_schema::{Given, Schema};
use rt_value::{Bytes, Value};
use std::alloc::Global;
use std::process::Abort;

const TEXTS: &str = "CREATE TABLE t (a TEXT, b TEXT);";

const WHOLES: &str = "CREATE TABLE t (a INTEGER, b INTEGER);";

// The rows of a file for the one table of a schema, as a text, or why the file is refused.
fn read(rt: &impl Abort, alloc: Global, schema: &str, file: &[u8]) -> Result<String, LoadFault> {
    let schema = read_schema(alloc, schema.as_bytes()).expect(rt, "a schema");
    let text = read_rows(rt, alloc, &schema, file);
    drop(schema);
    text
}

fn read_rows(
    rt: &impl Abort,
    alloc: Global,
    schema: &Schema,
    file: &[u8],
) -> Result<String, LoadFault> {
    let mut given = Given::new(alloc, schema).expect(rt, "memory");
    assert!(rt; !schema.tables().is_empty() && given.table(0).is_empty());
    let text = match load(alloc, schema, 0, file, &mut given) {
        Ok(()) => Ok(shown(rt, alloc, &given)),
        Err(fault) => Err(fault),
    };
    drop(given);
    text
}

fn cell(rt: &impl Abort, alloc: Global, value: &Value) -> String {
    match value {
        Value::Null => format!(in alloc; "|NULL"),
        Value::Int(n) => format!(in alloc; "|{n}"),
        Value::Text(t) => format!(in alloc; "|{}", t.as_str()),
    }
    .expect(rt, "memory")
}

// The values of all rows, each after a `|`, and each row after a `;`.
fn shown(rt: &impl Abort, alloc: Global, given: &Given) -> String {
    let mut text = String::new(alloc);
    for rows in given.tables() {
        for row in rows.as_slice() {
            text.push_str(";").expect(rt, "memory");
            for value in row.as_slice() {
                let cell = cell(rt, alloc, value);
                text.push_str(cell.as_str()).expect(rt, "memory");
            }
        }
    }
    text
}

fn is_read(rt: &impl Abort, alloc: Global, schema: &str, file: &[u8], want: &str) -> bool {
    match read(rt, alloc, schema, file) {
        Ok(text) => text.as_str() == want,
        Err(_) => false,
    }
}

fn is_refused(rt: &impl Abort, alloc: Global, schema: &str, file: &[u8], want: LoadFault) -> bool {
    match read(rt, alloc, schema, file) {
        Ok(_) => false,
        Err(fault) => fault == want,
    }
}

const RECORDS: [(&str, &str); 7] = [
    ("a,b\n\"x\"\"y\",z\n", ";|x\"y|z"),
    ("a,b\n\"x\ny\",\"z,\"\n", ";|x\ny|z,"),
    ("a,b\r1,2\r3,4\r", ";|1|2;|3|4"),
    ("a,b\r\n1,2\r\n3,4", ";|1|2;|3|4"),
    ("a,b\nx\"y,z\"\n", ";|x\"y|z\""),
    ("\na,b\n\n1,2\n\r\n\n3,4\n\n", ";|1|2;|3|4"),
    ("a,b\n x ,\n\"\",y", ";| x |NULL;|NULL|y"),
];

#[test]
fn records_are_those_of_rfc_4180(rt: HostRuntime) {
    let alloc = rt.alloc();
    for (file, want) in &RECORDS {
        assert!(rt; is_read(&rt, alloc, TEXTS, file.as_bytes(), want), "{file}");
    }
    let file = b"A , b\n 1 ,+2\n\n3,4\n-9223372036854775808,\n";
    let want = ";|1|2;|3|4;|-9223372036854775808|NULL";
    assert!(rt; is_read(&rt, alloc, WHOLES, file.as_slice(), want));
}

const FAULTS: [(&str, LoadFault); 6] = [
    ("", LoadFault::BadHeader),
    ("\u{feff}a,b\n", LoadFault::BadHeader),
    ("b,a\n1", LoadFault::BadHeader),
    ("a,b\n1\nx,y\n", LoadFault::FieldCount(2)),
    ("a,b\n1,2\n\n1,x\n", LoadFault::BadInteger(3, 2)),
    ("a,b\n9223372036854775808,x\n", LoadFault::BadInteger(2, 1)),
];

#[test]
fn the_first_fault_decides(rt: HostRuntime) {
    let alloc = rt.alloc();
    for (file, want) in &FAULTS {
        assert!(rt;
            is_refused(&rt, alloc, WHOLES, file.as_bytes(), *want),
            "{file}"
        );
    }
    let file = b"a,b\nx,y\xff\n";
    assert!(rt; is_refused(&rt, alloc, TEXTS, file, LoadFault::BadText(2, 2)));
}

// Row 2,001 is refused, and the error after it is not reached.
#[test]
fn row_2001_is_one_too_many(rt: HostRuntime) {
    let alloc = rt.alloc();
    let mut file = String::new(alloc);
    file.push_str("a,b\n").expect(&rt, "memory");
    for _ in 0..2001 {
        file.push_str("1,1\n").expect(&rt, "memory");
    }
    file.push_str("1\n").expect(&rt, "memory");
    let bytes = file.as_str().as_bytes();
    assert!(rt; is_refused(&rt, alloc, WHOLES, bytes, LoadFault::TooManyRows));
    drop(file);
}

const MADE_SCHEMA: &str = "CREATE TABLE student (id INTEGER PRIMARY KEY);\n\
    CREATE TABLE reg (id INTEGER REFERENCES student, num INTEGER, dept TEXT, PRIMARY KEY (id, num));\n\
    CREATE TABLE room (num INTEGER PRIMARY KEY, id INTEGER REFERENCES student);\n";

const MADE_STUDENTS: &str = "id\n1\n2\n3\n";

const MADE_REG: &str = "id,num,dept\n1,1,CS\n1,4,MA\n2,2,CS\n2,5,MA\n3,3,CS\n3,6,CS\n";

const MADE_ROOMS: &str = "num,id\n1,1\n2,2\n3,3\n4,1\n5,2\n6,3\n";

const MADE_LEFT: &str = "SELECT id FROM reg WHERE dept = 'CS'\n";

const MADE_RIGHT: &str =
    "SELECT id FROM reg WHERE dept = 'CS' EXCEPT SELECT r.id FROM reg r, reg s WHERE r.id = s.id AND r.num < s.num AND r.dept = 'CS' AND s.dept = 'CS'\n";

fn is(bytes: &Bytes, text: &str) -> bool {
    bytes.as_slice() == text.as_bytes()
}

fn are_files(files: &[Bytes]) -> bool {
    match files {
        [students, reg, rooms] => {
            is(students, MADE_STUDENTS) && is(reg, MADE_REG) && is(rooms, MADE_ROOMS)
        }
        _ => false,
    }
}

fn are_texts(made: &Made) -> bool {
    is(&made.schema, MADE_SCHEMA)
        && are_files(made.files.as_slice())
        && is(&made.query1, MADE_LEFT)
        && is(&made.query2, MADE_RIGHT)
}

#[test]
fn generated_texts(rt: HostRuntime) {
    let made = made(rt.alloc(), 3).expect(&rt, "memory");
    let found = are_texts(&made);
    drop(made);
    assert!(rt; found);
}
