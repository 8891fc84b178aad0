//! The public solver: lines are added, and `solve` and `seek` search over them.

ghost use Rattle.std.specs.Prelude.{◌≡◌, ◌≤◌, ◌<◌, Bool, true, false, [], ◌∷◌, ◌++◌, length, max, Some, None, IfSome, IfOk, IsErr, IsTrue, OnOk, OnErr};
ghost use Rattle.std.specs.Option.{option_to_list};
ghost use Rattle.rt_solver.specs.Search.{HasValues};
ghost use Rattle.rt_solver.specs.Solving.{reach, width, variables, HasSearched};
ghost use Rattle.rt_solver.specs.State.{has_failed};
ghost use Rattle.rt_solver.specs.Fixed.{IsInOrder};
ghost use Rattle.rt_solver.specs.Answers.{Reads, IsFound, IsUnspent, IsBegun, IsReplied, IsReply};
ghost use Rattle.rt_solver.specs.declared.order.Order.TheVariants.{Fixed};

use crate::base::Base;
use crate::decider::Decider;
use crate::order::Order;
use crate::search::{Ending, run};
use crate::walk::Walk;
use rt_clause::{Adds, Lines, Lit};
use rt_store::{Step, Trail, Why};
use rt_value::{Keep, List, NoMemory};
use std::alloc::Global;
use std::marker::Model;

/// What a call of `solve` found: a model with one Bool a variable; a refuting line among the lines;
/// or as many fresh clauses as the budget allows, without the assumption's negation.
#[derive(Drop)]
pub enum Found {
    Model(Keep),
    Refuted,
    Spent(List<List<Lit>>),
}

const MOST_SEARCHED: usize = 1 << 62;

/// A solver over lines that check what it derives. Contracts see the lines, and whether an earlier
/// call ran out of memory. It counts the clauses that were added, up to the type's greatest value.
#[derive(Drop)]
pub struct Solver<L: Lines + Drop> {
    base: Base<L>,
    decider: Decider,
    failed: bool,
    added: u64,
    alloc: Global,
}

impl<L: Lines + Drop> Model for Solver<L> {
    ghost use Rattle.std.specs.Prelude.{Bool};
    ghost use Rattle.std.specs.Coded.{coded×, coded_bool};

    ghost Value = { L × Bool };

    ghost coded = { coded× L.code coded_bool };

    ghost view = { λ s. (s.base.0, s.failed) };
}

// One more than the greatest variable that a call speaks of.
fn variables_of(first: usize, width: usize, assume: &Option<Lit>) -> usize
    ensures { result ≡ reach (max first width) (option_to_list assume.now) }
{
    let least = first.max(width);
    match assume {
        None => least,
        Some(a) => {
            let lit = *a;
            least.max(lit.var() + 1)
        }
    }
}

// The trail before a search.
fn begun(alloc: Global, vars: usize, assume: &Option<Lit>) -> Result<Trail, NoMemory>
    requires { IfSome assume.now (λ a. a.var < vars) }
    ensures { IfOk result (λ trail. IsBegun vars assume.now trail) }
{
    let mut trail = Trail::new(alloc, vars)?;
    if let Some(a) = assume {
        trail.push(Step {
            lit: *a,
            why: Why::Assumed,
        });
    }
    Ok(trail)
}

// The values of the variables.
fn values(alloc: Global, trail: &Trail) -> Result<Keep, NoMemory>
    requires { HasValues trail.now.vars trail.now.steps }
    ensures len { IfOk result (λ bools. length bools ≡ trail.now.vars) }
    ensures reads { IfOk result (λ bools. Reads trail.now.vars trail.now.steps bools) }
{
    let mut bools = Keep::all(alloc, 0, false)?;
    for v in 0..trail.vars() {
        bools.push(trail.value(v).unwrap_or(false))?;
    }
    Ok(bools)
}

// Searches over as many variables as the call speaks of. Without a model for the question, it may
// answer `None`.
fn find<L: Lines + Drop>(
    alloc: Global,
    base: &mut Base<L>,
    decider: &mut Decider,
    assume: &Option<Lit>,
    first: usize,
    budget: Option<u64>,
    order: Order,
    question: &Option<Lit>,
) -> Result<Option<Found>, NoMemory>
    requires budget { IfSome budget (λ b. 1 ≤ b) }
    requires asked { IfSome question.now (λ a. a.var < first) }
    requires free { order ≡ Fixed → question.now ≡ None }
    ensures searched { HasSearched (L.lines base.old.0) (L.lines base.new.0) (L.derived base.old.0) (L.derived base.new.0) assume.now question.now first (variables (L.lines base.old.0) assume.now first) }
    ensures found { IfOk result (λ found. IfSome found (IsFound (L.lines base.old.0) (L.lines base.new.0) assume.now first (variables (L.lines base.old.0) assume.now first) budget)) }
    ensures order { IfOk result (λ found. IfSome found (IsInOrder order (L.lines base.old.0) assume.now first)) }
    ensures replied { IfOk result (IsReplied (L.lines base.new.0) assume.now question.now) }
    ensures unspent { IfOk result (λ found. IfSome found (IsUnspent (L.lines base.old.0) (L.lines base.new.0) budget)) }
{
    let vars = variables_of(first, base.vars(), assume);
    if vars > MOST_SEARCHED {
        return Err(NoMemory);
    }
    let mut trail = begun(alloc, vars, assume)?;
    decider.begin(vars, order.bound(first))?;
    let mut walk = Walk::new(alloc, vars)?;
    let found = match run(
        alloc, base, assume, first, budget, order, decider, &mut trail, &mut walk, question,
    )? {
        Ending::Whole => Some(Found::Model(values(alloc, &trail)?)),
        Ending::Refuted => Some(Found::Refuted),
        Ending::Spent(list) => Some(Found::Spent(list)),
        Ending::Missed => None,
    };
    Ok(found)
}

impl<L: Lines + Drop> Solver<L> {
    /// A solver over no lines yet. That takes no memory so far.
    pub fn new(alloc: Global, lines: L) -> Result<Solver<L>, NoMemory>
        requires { L.lines lines ≡ [] }
        ensures { IfOk result (λ solver. solver ≡ (lines, false)) }
    {
        Ok(Solver {
            base: Base::new(alloc, lines),
            decider: Decider::new(alloc),
            failed: false,
            added: 0,
            alloc,
        })
    }

    /// How many clauses were added, in calls that did not fail.
    pub fn added(&self) -> u64 {
        self.added
    }

    /// How many clauses were learned, one in each conflict.
    pub fn conflicts(&self) -> u64 {
        self.decider.conflicts()
    }

    /// The lines, given and derived, oldest first.
    pub fn lines(&self) -> &L
        ensures { result.now ≡ self.now.0 }
    {
        self.base.lines()
    }

    /// Searches for a model of the lines and of `assume`, over the variables below `first`, those of
    /// the lines and that of `assume`. Those below `first` are decided before others, as the order
    /// says. Learned clauses are over variables below `first` and over decisions. A budget is the
    /// number of clauses after which the search gives up; without one it ends by itself.
    pub fn solve(
        &mut self,
        assume: Option<Lit>,
        first: usize,
        budget: Option<u64>,
        order: Order,
    ) -> Result<Found, NoMemory>
        requires { IfSome budget (λ b. 1 ≤ b) }
        ensures searched { HasSearched (L.lines self.old.0) (L.lines self.new.0) (L.derived self.old.0) (L.derived self.new.0) assume None first (variables (L.lines self.old.0) assume first) }
        ensures found { IfOk result (λ found. IsFound (L.lines self.old.0) (L.lines self.new.0) assume first (variables (L.lines self.old.0) assume first) budget found) }
        ensures order { IfOk result (λ found. IsInOrder order (L.lines self.old.0) assume first found) }
        ensures unspent { IfOk result (λ found. IsUnspent (L.lines self.old.0) (L.lines self.new.0) budget found) }
        ensures failed { IsTrue (has_failed self.old) → IsErr result }
        ensures fails { OnErr result (IsTrue (has_failed self.new)) }
        ensures works { OnOk result (has_failed self.new ≡ false) }
    {
        if self.failed {
            return Err(NoMemory);
        }
        self.failed = true;
        let found = find(
            self.alloc,
            &mut self.base,
            &mut self.decider,
            &assume,
            first,
            budget,
            order,
            &None,
        )?;
        self.failed = false;
        match found {
            Some(found) => Ok(found),
            None => unreachable!(),
        }
    }

    /// As `solve` without a budget, for a model at which the question is true too. The question is
    /// decided first, and so the learned clauses hold whether it is true or not: they serve the next
    /// question under the same assumption. After `None` the lines deny it: one of them says that it is
    /// false where what is assumed is true, or it is the negation of that.
    pub fn seek(
        &mut self,
        assume: Option<Lit>,
        question: Lit,
        first: usize,
    ) -> Result<Option<Keep>, NoMemory>
        requires { question.var < first }
        ensures searched { HasSearched (L.lines self.old.0) (L.lines self.new.0) (L.derived self.old.0) (L.derived self.new.0) assume (Some question) first (variables (L.lines self.old.0) assume first) }
        ensures sought { IfOk result (IsReply (L.lines self.new.0) assume question (variables (L.lines self.old.0) assume first)) }
        ensures failed { IsTrue (has_failed self.old) → IsErr result }
        ensures fails { OnErr result (IsTrue (has_failed self.new)) }
        ensures works { OnOk result (has_failed self.new ≡ false) }
    {
        if self.failed {
            return Err(NoMemory);
        }
        self.failed = true;
        let found = find(
            self.alloc,
            &mut self.base,
            &mut self.decider,
            &assume,
            first,
            None,
            Order::Free,
            &Some(question),
        )?;
        self.failed = false;
        match found {
            Some(Found::Model(model)) => Ok(Some(model)),
            Some(Found::Refuted) => Ok(None),
            Some(Found::Spent(_)) => unreachable!(),
            None => Ok(None),
        }
    }
}

impl<L: Lines + Drop> Adds for Solver<L> {
    ghost lines = { λ s. L.lines s.0 };

    ghost derived = { λ s. L.derived s.0 };

    /// Adds a given clause at the end of the lines.
    fn add(&mut self, lits: &[Lit]) -> Result<(), NoMemory>
        ensures lines { OnOk result (L.lines self.new.0 ≡ L.lines self.old.0 ++ lits.now ∷ []) }
        ensures derived { OnOk result (L.derived self.new.0 ≡ L.derived self.old.0 ++ false ∷ []) }
        ensures err_lines { OnErr result (L.lines self.new.0 ≡ L.lines self.old.0) }
        ensures err_derived { OnErr result (L.derived self.new.0 ≡ L.derived self.old.0) }
        ensures failed { IsTrue (has_failed self.old) → IsErr result }
        ensures fails { OnErr result (IsTrue (has_failed self.new)) }
        ensures works { OnOk result (has_failed self.new ≡ false) }
    {
        if self.failed {
            return Err(NoMemory);
        }
        self.failed = true;
        self.base.add(self.alloc, lits)?;
        self.added = self.added.saturating_add(1);
        self.failed = false;
        Ok(())
    }
}
