//! The clauses of a formula, node by node, oldest first. A marked node gets the next variable as
//! its name; `not` takes its child's name negated, and a row its own variable.

ghost use Rattle.std.specs.Prelude.{◌≡◌, ℕ, ◌+◌, ◌≤◌, ◌<◌, ◌^◌, List as Seq, [], ◌∷◌, ◌++◌, Bool, true, false, map, length, IfOk};
ghost use Rattle.std.specs.List.{All as Each};
ghost use Rattle.rt_clause.specs.Lists.{AreBelow, Determined};
ghost use Rattle.rt_clause.specs.Models.{IsModel, lit_true};
ghost use Rattle.rt_clause.specs.Gates.{gate, AgreeBelow, Extends};
ghost use Rattle.rt_formula.specs.Shared.{Fits, val};
ghost use Rattle.rt_formula.specs.Under.{AreUnder};
ghost use Rattle.rt_clausify.specs.Written.{name_at, named_by, with_entry, with_node, written};

use rt_clause::{Adds, Lit, MOST_VARIABLES, Named, gate};
use rt_formula::{Dag, Entry, Node, under};
use rt_value::{Keep, List, NoMemory};
use std::alloc::Global;

// The literals of some nodes, or their negations.
fn literals(alloc: Global, of: &[Node], names: &List<Lit>, on: bool) -> Result<Vec<Lit>, NoMemory>
    requires { Each (λ k. k < length names.now) of.now }
    ensures { IfOk result (λ v. v.items ≡ map (named_by names.now on) of.now) }
{
    let mut lits: Vec<Lit> = Vec::new(alloc);
    for k in of {
        let lit = name(names, k.number());
        lits.push(if on { lit } else { lit.negated() })?;
    }
    Ok(lits)
}

// The literal of a node.
fn name(names: &List<Lit>, at: usize) -> Lit
    requires { at < length names.now }
    ensures { result ≡ name_at names.now at }
{
    names.as_slice()[at]
}

// Names a node by a new variable. Where `on` is true, it is true exactly where all of the literals
// are; else exactly where one of them is not.
fn name_gate<A: Adds>(
    alloc: Global,
    names: &mut List<Lit>,
    next: usize,
    on: bool,
    lits: &[Lit],
    to: &mut A,
) -> Result<usize, NoMemory>
    requires { next < 2 ^ 61 }
    ensures names { IfOk result (λ n. names.new ≡ names.old ++ record { var = next; on = true } ∷ []) }
    ensures next { IfOk result (λ n. n ≡ next + 1) }
    ensures lines { IfOk result (λ n. A.lines to.new ≡ A.lines to.old ++ gate (record { var = next; on = on }) lits.now) }
{
    names.push(Lit::of(next, true))?;
    gate(alloc, Lit::of(next, on), lits, to)?;
    Ok(next + 1)
}

// Names the next node, and answers with the next unused variable.
fn write_entry<A: Adds>(
    alloc: Global,
    entry: &Entry,
    names: &mut List<Lit>,
    next: usize,
    to: &mut A,
) -> Result<usize, NoMemory>
    requires next { next < 2 ^ 61 }
    requires fits { Fits next (length names.old) entry.now }
    ensures { IfOk result (λ n. written names.new n (A.lines to.new) ≡ with_entry (written names.old next (A.lines to.old)) entry.now) }
{
    match entry {
        Entry::Yes => name_gate(alloc, names, next, true, &[], to),
        Entry::No => name_gate(alloc, names, next, false, &[], to),
        Entry::Row(v) => {
            names.push(Lit::of(*v, true))?;
            Ok(next)
        }
        Entry::Not(a) => {
            let lit = name(names, a.number());
            names.push(lit.negated())?;
            Ok(next)
        }
        Entry::All(of) => {
            let lits = literals(alloc, of.as_slice(), names, true)?;
            name_gate(alloc, names, next, true, lits.as_slice(), to)
        }
        Entry::Any(of) => {
            let lits = literals(alloc, of.as_slice(), names, false)?;
            name_gate(alloc, names, next, false, lits.as_slice(), to)
        }
    }
}

// Names the next node where it is marked; else it gets a literal that nothing reads.
fn write_node<A: Adds>(
    alloc: Global,
    marked: bool,
    entry: &Entry,
    names: &mut List<Lit>,
    next: usize,
    to: &mut A,
) -> Result<usize, NoMemory>
    requires next { next < 2 ^ 61 }
    requires fits { Fits next (length names.old) entry.now }
    ensures { IfOk result (λ n. written names.new n (A.lines to.new) ≡ with_node marked (written names.old next (A.lines to.old)) entry.now) }
{
    if marked {
        write_entry(alloc, entry, names, next, to)
    } else {
        names.push(Lit::of(0, false))?;
        Ok(next)
    }
}

// The number of nodes up to and with the goal.
fn after(dag: &Dag, goal: Node) -> usize
    requires { goal < length dag.now.entries }
    ensures { result ≡ goal + 1 }
{
    let _len = dag.len();
    goal.number() + 1
}

// Adds the clauses of each marked gate, and the goal as a unit.
fn write_marked<A: Adds>(
    alloc: Global,
    dag: &Dag,
    goal: Node,
    marks: &Keep,
    to: &mut A,
) -> Result<Named, NoMemory>
    requires goal { goal < length dag.now.entries }
    requires under { AreUnder dag.now goal marks.now }
    requires empty { A.lines to.old ≡ [] }
    ensures rows { IfOk result (λ named. named.rows ≡ dag.now.rows) }
    ensures wide { IfOk result (λ named. dag.now.rows ≤ named.next) }
    ensures below { IfOk result (λ named. AreBelow named.next (A.lines to.new)) }
    ensures complete { IfOk result (λ named. (keep : Seq Bool) → length keep ≡ dag.now.rows → val dag.now keep goal ≡ true
        → (bools : Seq Bool) × (length bools ≡ named.next) × AgreeBelow dag.now.rows keep bools × IsModel (A.lines to.new) bools) }
    ensures sound { IfOk result (λ named. (keep : Seq Bool) (bools : Seq Bool) → AgreeBelow dag.now.rows keep bools → IsModel (A.lines to.new) bools → val dag.now keep goal ≡ true) }
    ensures determined { IfOk result (λ named. Determined (A.lines to.new) dag.now.rows named.next) }
    ensures literal { IfOk result (λ named. (bools : Seq Bool) → IsModel (A.lines to.new) bools → lit_true bools named.goal ≡ true) }
{
    let _marked = marks.len();
    let mut names: List<Lit> = List::new(alloc);
    let mut next = dag.rows();
    let end = after(dag, goal);
    for i in 0..end {
        if next >= MOST_VARIABLES {
            return Err(NoMemory);
        }
        next = write_node(alloc, marks.is(i), dag.entry(i), &mut names, next, to)?;
    }
    let lit = name(&names, goal.number());
    let line = [lit];
    to.add(line.as_slice())?;
    Ok(Named::of(dag.rows(), next, lit))
}

/// Adds the clauses of each gate under the goal, and the goal as a unit clause. It answers with
/// the numbering of the variables: row r is variable r, and the gates follow. After an error some
/// clauses may have been added.
///
/// `any` over rows 0 and 1, whose variable is 2, as the goal:
///     (2, not 0)   (2, not 1)   (not 2, 0, 1)   (2)
pub fn clausify<A: Adds>(
    alloc: Global,
    dag: &Dag,
    goal: Node,
    to: &mut A,
) -> Result<Named, NoMemory>
    requires goal { goal < length dag.now.entries }
    requires empty { A.lines to.old ≡ [] }
    ensures rows { IfOk result (λ named. named.rows ≡ dag.now.rows) }
    ensures wide { IfOk result (λ named. dag.now.rows ≤ named.next) }
    ensures below { IfOk result (λ named. AreBelow named.next (A.lines to.new)) }
    ensures complete { IfOk result (λ named. (keep : Seq Bool) → length keep ≡ dag.now.rows → val dag.now keep goal ≡ true
        → (bools : Seq Bool) × (length bools ≡ named.next) × AgreeBelow dag.now.rows keep bools × IsModel (A.lines to.new) bools) }
    ensures sound { IfOk result (λ named. (keep : Seq Bool) (bools : Seq Bool) → AgreeBelow dag.now.rows keep bools → IsModel (A.lines to.new) bools → val dag.now keep goal ≡ true) }
    ensures determined { IfOk result (λ named. Determined (A.lines to.new) dag.now.rows named.next) }
    ensures literal { IfOk result (λ named. (bools : Seq Bool) → IsModel (A.lines to.new) bools → lit_true bools named.goal ≡ true) }
{
    let marks = under(alloc, dag, goal)?;
    write_marked(alloc, dag, goal, &marks, to)
}
