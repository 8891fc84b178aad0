//! The generated input of `made N`: its texts are written line by line, and each is the one of
//! `specs/Made.antt`.

ghost use Rattle.std.specs.Prelude.{◌≡◌, ◌≤◌, ◌∷◌, ◌++◌, [], IfOk, OnOk};
ghost use Rattle.rt_load.specs.Made as spec;

use crate::input::Made;
use rt_value::{Bytes, List, NoMemory};
use std::alloc::Global;

const SCHEMA: &str =
    "CREATE TABLE student (id INTEGER PRIMARY KEY);\nCREATE TABLE reg (id INTEGER REFERENCES student, num INTEGER, dept TEXT, PRIMARY KEY (id, num));\nCREATE TABLE room (num INTEGER PRIMARY KEY, id INTEGER REFERENCES student);\n";

const QUERY1: &str = "SELECT id FROM reg WHERE dept = 'CS'\n";

const QUERY2: &str =
    "SELECT id FROM reg WHERE dept = 'CS' EXCEPT SELECT r.id FROM reg r, reg s WHERE r.id = s.id AND r.num < s.num AND r.dept = 'CS' AND s.dept = 'CS'\n";

/// The input for `n` students with 5 * n rows: two courses and two rooms for each. The queries
/// differ just on students of whom two courses of CS are kept; every third student has two. For
/// n = 3 the courses are 1,1,CS 1,4,MA 2,2,CS 2,5,MA 3,3,CS 3,6,CS.
pub fn made(alloc: Global, n: u64) -> Result<Made, NoMemory>
    requires { (1 ≤ n) × (n ≤ 400) }
    ensures { IfOk result (λ texts. texts ≡ spec.made n) }
{
    let files = files(alloc, n)?;
    let schema = List::from_slice(alloc, SCHEMA.as_bytes())?;
    let query1 = List::from_slice(alloc, QUERY1.as_bytes())?;
    let query2 = List::from_slice(alloc, QUERY2.as_bytes())?;
    Ok(Made {
        schema,
        files,
        query1,
        query2,
    })
}

fn files(alloc: Global, n: u64) -> Result<List<Bytes>, NoMemory>
    requires { (1 ≤ n) × (n ≤ 400) }
    ensures { IfOk result (λ files. files ≡ spec.student_file n ∷ spec.reg_file n ∷ spec.room_file n ∷ []) }
{
    let mut files = List::new(alloc);
    files.push(student_file(alloc, n)?)?;
    files.push(reg_file(alloc, n)?)?;
    files.push(room_file(alloc, n)?)?;
    Ok(files)
}

fn student_file(alloc: Global, n: u64) -> Result<Bytes, NoMemory>
    requires { n ≤ 400 }
    ensures { IfOk result (λ text. text ≡ spec.student_file n) }
{
    let mut text = List::from_slice(alloc, b"id\n")?;
    for i in 0..n {
        put_student(alloc, &mut text, i + 1)?;
    }
    Ok(text)
}

fn put_student(alloc: Global, text: &mut Bytes, i: u64) -> Result<(), NoMemory>
    ensures { OnOk result (text.new ≡ text.old ++ spec.student_line i) }
{
    let line = format!(in alloc; "{i}\n")?;
    text.extend(line.as_str().as_bytes())
}

fn reg_file(alloc: Global, n: u64) -> Result<Bytes, NoMemory>
    requires { n ≤ 400 }
    ensures { IfOk result (λ text. text ≡ spec.reg_file n) }
{
    let mut text = List::from_slice(alloc, b"id,num,dept\n")?;
    for i in 0..n {
        put_courses(alloc, &mut text, n, i + 1)?;
    }
    Ok(text)
}

fn put_courses(alloc: Global, text: &mut Bytes, n: u64, i: u64) -> Result<(), NoMemory>
    requires { (n ≤ 400) × (i ≤ 400) }
    ensures { OnOk result (text.new ≡ text.old ++ spec.reg_lines n i) }
{
    let department = if i % 3 == 0 { "CS" } else { "MA" };
    let lines = format!(in alloc; "{i},{i},CS\n{i},{},{department}\n", n + i)?;
    text.extend(lines.as_str().as_bytes())
}

fn room_file(alloc: Global, n: u64) -> Result<Bytes, NoMemory>
    requires { (1 ≤ n) × (n ≤ 400) }
    ensures { IfOk result (λ text. text ≡ spec.room_file n) }
{
    let mut text = List::from_slice(alloc, b"num,id\n")?;
    for j in 0..2 * n {
        put_room(alloc, &mut text, n, j + 1)?;
    }
    Ok(text)
}

fn put_room(alloc: Global, text: &mut Bytes, n: u64, j: u64) -> Result<(), NoMemory>
    requires { (1 ≤ n) × (n ≤ 400) × (1 ≤ j) }
    ensures { OnOk result (text.new ≡ text.old ++ spec.room_line n j) }
{
    let line = format!(in alloc; "{j},{}\n", (j - 1) % n + 1)?;
    text.extend(line.as_str().as_bytes())
}
