//! The command of `ratest`, read and checked: four paths or a generated input, and two limits.

use rt_value::{List, Txt};
use std::marker::Model;

/// What the arguments of the command line ask for: two queries over the files of the four paths, or
/// over a generated input. Contracts see a command whose numbers are in their ranges.
#[derive(Debug)]
pub struct Words {
    /// The schema's file, the folder of the tables' files, and the files of query 1 and of query
    /// 2; none where the input is generated.
    pub paths: List<Txt>,
    /// The budget of conflicts for each round of the search: from 1 to 10,000,000.
    pub conflicts: Option<u64>,
    /// The most work that the queries may be: from 1 to 32,000,000.
    pub work_limit: u64,
    /// The number of students of the generated input: from 1 to 400.
    pub made: Option<u64>,
}

impl Drop for Words {
    fn drop(self) {
        let Words {
            paths: _,
            conflicts: _,
            work_limit: _,
            made: _,
        } = self;
    }
}

impl Model for Words {
    ghost use Rattle.rt_io.specs.Ranges.{Command, IsInRange};

    ghost Value = { Command };

    ghost view = { λ w. record { paths = w.paths; conflicts = w.conflicts; work_limit = w.work_limit; made = w.made } };

    ghost invariant = { λ w. IsInRange (record { paths = w.paths; conflicts = w.conflicts; work_limit = w.work_limit; made = w.made }) };
}
