//! Which rows of the generated inputs can matter: each third student, who has two registrations of
//! one department, with these.

use crate::choices::accepted;
use rt_annot::goal;
use rt_cases::words;
use rt_formula::Dag;
use rt_input::{Input, read_input};
use rt_io::MemFiles;
use rt_rules::cone;
use rt_value::{Keep, List};
use std::alloc::Global;
use std::process::Abort;

fn places_of(rt: &impl Abort, alloc: Global, keep: &Keep) -> List<usize> {
    let mut places = List::new(alloc);
    for (place, inside) in keep.as_slice().iter().enumerate() {
        if *inside {
            places.push(place).expect(rt, "memory");
        }
    }
    places
}

// The rows of an input that can matter.
fn rows_of(rt: &impl Abort, alloc: Global, input: &Input) -> Keep {
    let schema = input.schema();
    let given = input.given();
    let mut dag = Dag::new(alloc, given.total()).expect(rt, "memory");
    let aim = goal(alloc, &mut dag, schema, given, input.left(), input.right()).expect(
        rt, "memory",
    );
    let rows = cone(alloc, &dag, aim.differs, schema, given).expect(rt, "memory");
    drop(dag);
    rows
}

// The generated input of so many students.
fn generated(rt: &impl Abort, alloc: Global, students: &str) -> Option<Input> {
    let command = words(alloc, &["made", students]).expect(rt, "memory");
    let mut none = MemFiles::new(alloc);
    let read = read_input(alloc, command.as_slice(), &mut none);
    drop(command);
    drop(none);
    accepted(read)
}

fn are_places(rt: &impl Abort, alloc: Global, input: Input, wanted: &[usize]) -> bool {
    let rows = rows_of(rt, alloc, &input);
    drop(input);
    let places = places_of(rt, alloc, &rows);
    drop(rows);
    let found = places.as_slice() == wanted;
    drop(places);
    found
}

// Whether just the rows at these places of a generated input can matter.
fn has_places(rt: &impl Abort, alloc: Global, students: &str, wanted: &[usize]) -> bool {
    match generated(rt, alloc, students) {
        Some(input) => are_places(rt, alloc, input, wanted),
        None => false,
    }
}

#[test]
fn rows_that_can_matter(rt: HostRuntime) {
    let alloc = rt.alloc();
    assert!(rt; has_places(&rt, alloc, "3", &[2, 7, 8]));
    let six = [
        2, 5, 8, 11, 14, 17, 24, 25, 30, 31, 36, 37, 42, 43, 48, 49, 54, 55,
    ];
    assert!(rt; has_places(&rt, alloc, "20", six.as_slice()));
}
