//! The checker's lines, some with a shorter line of the same literals for reading. Only `brief_at`
//! shows the shorter one; contracts see the lines as they were pushed.

ghost use Rattle.std.specs.Prelude.{◌≡◌, ◌<◌, ◌∷◌, ◌++◌, [], length, OnOk, OnErr};
ghost use Rattle.rt_clause.specs.Lists.{line_at};
ghost use Rattle.rt_derive.specs.Alike.{Alike};

use rt_clause::{Clauses, Lit, ThinClause};
use rt_value::NoMemory;
use std::alloc::Global;
use std::collections::BTreeMap;
use std::marker::Model;

/// Lines in order, which contracts see as a list. For a line in which literals are repeated, one
/// with the same literals, each once, can be kept too: it is shorter to read.
#[derive(Drop)]
pub(crate) struct Store {
    lines: Clauses,
    brief: BTreeMap<usize, ThinClause>,
    alloc: Global,
}

impl Model for Store {
    ghost use Rattle.std.specs.Prelude.{List};
    ghost use Rattle.rt_clause.specs.Literal.{Literal};
    ghost use Rattle.rt_derive.specs.Alike.{AreBrief};

    ghost Value = { List (List Literal) };

    ghost view = { λ s. s.lines };

    ghost invariant = { λ s. AreBrief s.lines s.brief };
}

impl Store {
    /// No lines, which takes no memory.
    pub(crate) fn new(alloc: Global) -> Store
        ensures { result ≡ [] }
    {
        Store {
            lines: Clauses::new(alloc),
            brief: BTreeMap::new(alloc),
            alloc,
        }
    }

    /// The number of lines.
    pub(crate) fn len(&self) -> usize
        ensures { result ≡ length self.now }
    {
        self.lines.len()
    }

    /// The line at `i`, counted from 0, as it was pushed.
    pub(crate) fn at(&self, i: usize) -> &[Lit]
        requires { i < length self.now }
        ensures { result.now ≡ line_at self.now i }
    {
        self.lines.at(i)
    }

    /// The literals of the line at `i`, each once where a shorter line is kept.
    pub(crate) fn brief_at(&self, i: usize) -> &[Lit]
        requires { i < length self.now }
        ensures { Alike result.now (line_at self.now i) }
    {
        match self.brief.get(&i) {
            Some(line) => line.lits(),
            None => self.lines.at(i),
        }
    }

    /// Puts a copy of the line at the end. After an error the lines are as before.
    pub(crate) fn push(&mut self, lits: &[Lit]) -> Result<(), NoMemory>
        ensures ok { OnOk result (self.new ≡ self.old ++ lits.now ∷ []) }
        ensures err { OnErr result (self.new ≡ self.old) }
    {
        self.lines.push(lits)
    }

    /// Keeps a shorter line with the same literals for the line at `i`.
    pub(crate) fn keep_brief(&mut self, i: usize, lits: &[Lit]) -> Result<(), NoMemory>
        requires known { i < length self.old }
        requires alike { Alike lits.now (line_at self.old i) }
        ensures { self.new ≡ self.old }
    {
        let line = ThinClause::of(self.alloc, lits)?;
        self.brief.insert(i, line)?;
        Ok(())
    }
}
