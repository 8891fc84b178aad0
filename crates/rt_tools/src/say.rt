//! The texts of grades and of what stops a call. `specs/Texts.antt` has them byte by byte.

ghost use Rattle.std.specs.Prelude.{◌≡◌, ◌++◌, IfOk, OnOk};
ghost use Rattle.rt_tools.specs.Texts as spec;

use rt_grade::{Grade, GradeFault};
use rt_input::fault_text;
use rt_value::{Bytes, List, NoMemory, Txt};
use std::alloc::Global;

/// The text for arguments that are no command.
pub const USAGE: &str =
    "usage: ratest_plus row ROW ARGS\n       ratest_plus grade SCHEMA DATADIR REFERENCE LIST [--conflicts N] [--work N]\n";

fn put_grade(alloc: Global, text: &mut Bytes, grade: &Grade) -> Result<(), NoMemory>
    ensures { OnOk result (text.new ≡ text.old ++ spec.grade_text grade.now) }
{
    match grade {
        Grade::Agree => text.extend(b"agree"),
        Grade::Witness(keep) => {
            let size = keep.size();
            let words = format!(in alloc; "witness {size}")?;
            text.extend(words.as_str().as_bytes())
        }
        Grade::Undecided(_) => text.extend(b"undecided"),
        Grade::Refused(_, fault) => {
            text.extend(b"refused: ")?;
            text.extend(fault_text(alloc, fault)?.as_slice())
        }
        Grade::Work(work) => {
            let words = format!(in alloc; "work {work}")?;
            text.extend(words.as_str().as_bytes())
        }
        Grade::TooLong => text.extend(b"too long"),
    }
}

fn put_line(alloc: Global, text: &mut Bytes, path: &Txt, grade: &Grade) -> Result<(), NoMemory>
    ensures { OnOk result (text.new ≡ text.old ++ spec.grade_line path.now grade.now) }
{
    text.extend(path.as_bytes())?;
    text.extend(b": ")?;
    put_grade(alloc, text, grade)?;
    text.push(b'\n')
}

fn put_lines(
    alloc: Global,
    text: &mut Bytes,
    paths: &[Txt],
    grades: &[Grade],
) -> Result<(), NoMemory>
    ensures { OnOk result (text.new ≡ text.old ++ spec.grade_lines paths.now grades.now) }
{
    'lines: for (path, grade) in paths.iter().zip(grades) {
        put_line(alloc, text, path, grade)?;
    }
    Ok(())
}

/// The grades, one a line after its path, and then their number.
pub(crate) fn grades_text(alloc: Global, paths: &[Txt], grades: &[Grade]) -> Result<Bytes, NoMemory>
    ensures { IfOk result (λ text. text ≡ spec.grades_text paths.now grades.now) }
{
    let mut text = List::new(alloc);
    put_lines(alloc, &mut text, paths, grades)?;
    let count = grades.len();
    let last = format!(in alloc; "graded: {count}\n")?;
    text.extend(last.as_str().as_bytes())?;
    Ok(text)
}

/// The line of what stops a call that grades. Empty for an outcome of `ratest`.
pub(crate) fn fault_line(alloc: Global, fault: &GradeFault) -> Result<Bytes, NoMemory>
    ensures { IfOk result (λ text. text ≡ spec.fault_line fault.now) }
{
    let line = match fault {
        GradeFault::BadList(at) => format!(in alloc; "ratest: list: not UTF-8 at byte {at}\n")?,
        GradeFault::TooManyPaths => {
            String::from_str(alloc, "ratest: limit: more than 256 paths\n")?
        }
        GradeFault::ListLong => {
            String::from_str(alloc, "ratest: limit: list is longer than 4194304 bytes\n")?
        }
        GradeFault::FileRead(name) => {
            let name = name.as_str();
            format!(in alloc; "ratest: cannot read {name}\n")?
        }
        GradeFault::Verdict(_) => String::new(alloc),
    };
    List::from_slice(alloc, line.as_str().as_bytes())
}
