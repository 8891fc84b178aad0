//! What is kept of a subquery's rows for all its uses: whether there are any, and their first
//! values. EXISTS and IN read no more.

ghost use Rattle.std.specs.Prelude.{◌≡◌, ◌∷◌, [], IfOk, List, Bool};
ghost use Rattle.rt_value.specs.declared.value.Value.{Value};
ghost use Rattle.rt_value.specs.Value.{value_eq, null_truth};
ghost use Rattle.rt_schema.specs.Given.{Rows};
ghost use Rattle.rt_algebra.specs.Answer.{is_yes};
ghost use Rattle.rt_formula.specs.Shared.{IsGrown};
ghost use Rattle.rt_formula.specs.Groups.{group_at, nodes_where};
ghost use Rattle.rt_noted.specs.Entries.{rows_at};
ghost use Rattle.rt_noted.specs.Annotated.{AreNoted, IsGate, entries_of};
ghost use Rattle.rt_noted.specs.Known.{first_of, among_test, sought_test, IsOver, Tells};

use crate::gate::TruthNodes;
use crate::member::exists;
use rt_formula::{Dag, Groups, Node, Noted};
use rt_value::{NoMemory, Row, Value};
use std::alloc::Global;

/// What EXISTS and IN need of the annotated rows of a query. `some` says whether there is a row,
/// `null` whether one begins with NULL, and `groups` has the nodes of the rows by their first
/// value.
pub struct Found {
    pub some: TruthNodes,
    pub null: Node,
    pub groups: Groups,
}

impl Drop for Found {
    fn drop(self) {
        let Found {
            some: _,
            null: _,
            groups: _,
        } = self;
    }
}

fn is_null(value: &Value) -> bool
    ensures { result ≡ is_yes (null_truth value.now) }
{
    matches!(value, Value::Null)
}

fn single(alloc: Global, value: &Value) -> Result<Row, NoMemory>
    ensures { IfOk result (λ r. r ≡ value.now ∷ []) }
{
    let mut row = Row::new(alloc);
    row.push(value.copy(alloc)?)?;
    Ok(row)
}

// The first value of a row alone, NULL where it has none.
fn first(alloc: Global, row: &Row) -> Result<Row, NoMemory>
    ensures { IfOk result (λ r. r ≡ first_of row.now ∷ []) }
{
    match row.as_slice().first() {
        None => single(alloc, &Value::Null),
        Some(value) => single(alloc, value),
    }
}

// The nodes of the rows by their first value.
fn by_first(alloc: Global, rows: &[Noted]) -> Result<Groups, NoMemory>
    ensures { IfOk result (λ g. (x : Value) → group_at g (x ∷ []) ≡ nodes_where (λ r. value_eq x (first_of r)) rows.now) }
{
    let mut groups = Groups::new(alloc);
    for noted in rows {
        let row = first(alloc, &noted.row)?;
        let node = noted.node;
        groups.put(&Noted { row, node })?;
    }
    Ok(groups)
}

impl Found {
    /// What EXISTS and IN need of these rows.
    pub fn of(alloc: Global, dag: &mut Dag, rows: &[Noted]) -> Result<Found, NoMemory>
        requires { AreNoted dag.old rows.now }
        ensures grown { IsGrown dag.old dag.new }
        ensures tells { IfOk result (λ f. Tells dag.new f (λ s. rows_at s (entries_of dag.old rows.now))) }
    {
        let some = exists(alloc, dag, rows)?;
        let groups = by_first(alloc, rows)?;
        let nothing = single(alloc, &Value::Null)?;
        let null = dag.any(groups.get(&nothing))?;
        Ok(Found { some, null, groups })
    }

    /// Whether there is a row, or whether the value that is sought is among the rows.
    pub fn gate(
        &self,
        alloc: Global,
        dag: &mut Dag,
        sought: Option<&Value>,
    ) -> Result<TruthNodes, NoMemory>
        requires { IsOver dag.old self.now }
        ensures grown { IsGrown dag.old dag.new }
        ensures gate { IfOk result (λ g. (answer : List Bool → Rows) → Tells dag.old self.now answer → IsGate dag.new g (sought_test sought.entry answer)) }
    {
        match sought {
            Some(x) => self.member(alloc, dag, x),
            None => Ok(self.some),
        }
    }

    fn member(&self, alloc: Global, dag: &mut Dag, x: &Value) -> Result<TruthNodes, NoMemory>
        requires { IsOver dag.old self.now }
        ensures grown { IsGrown dag.old dag.new }
        ensures gate { IfOk result (λ g. (answer : List Bool → Rows) → Tells dag.old self.now answer → IsGate dag.new g (among_test x.now answer)) }
    {
        if is_null(x) {
            let yes = dag.no();
            let no = self.some.no;
            return Ok(TruthNodes { yes, no });
        }
        let row = single(alloc, x)?;
        let yes = dag.any(self.groups.get(&row))?;
        drop(row);
        let some = dag.any(&[yes, self.null])?;
        let no = dag.not(some)?;
        Ok(TruthNodes { yes, no })
    }
}
