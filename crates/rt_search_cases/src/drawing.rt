//! A formula as a test draws it, node by node.

ghost use Rattle.std.specs.Prelude.{◌≤◌, ◌<◌, ◌^◌, IfSome, length};

use rt_clause::{Adds, Lit};
use rt_clausify::clausify;
use rt_derive::Checker;
use rt_formula::{Dag, Node};
use rt_search::{Searched, smallest_counted};
use rt_solver::{Found, Order, Solver};
use rt_value::Keep;
use std::alloc::Global;
use std::process::Abort;

/// What a step draws. Older nodes are named by the numbers of their steps, counted from 0.
#[derive(Clone, Copy)]
pub enum Step<'a> {
    Yes,
    No,
    Row(usize),
    Not(usize),
    All(&'a [usize]),
    Any(&'a [usize]),
}

/// A formula, and the node of each step. When out of memory, its calls end the process.
#[derive(Drop)]
pub struct Drawing {
    dag: Dag,
    nodes: Vec<Node>,
    alloc: Global,
}

impl Drawing {
    /// A formula over so many rows, without steps.
    pub fn new(rt: &impl Abort, alloc: Global, rows: usize) -> Drawing
        requires { rows ≤ 2000 }
    {
        Drawing {
            dag: Dag::new(alloc, rows).expect(rt, "memory"),
            nodes: Vec::new(alloc),
            alloc,
        }
    }

    /// The number of nodes of the formula.
    pub fn len(&self) -> usize
        ensures { result < 2 ^ 60 }
    {
        self.dag.len()
    }

    /// The number of a step's node.
    pub fn number(&self, step: usize) -> usize {
        self.node(step).number()
    }

    // Where there is no such step, the node that is always true.
    fn node(&self, step: usize) -> Node
        ensures { result < length self.now.dag.entries }
    {
        match self.nodes.get(step) {
            Some(node) if node.number() < self.dag.len() => *node,
            _ => self.dag.yes(),
        }
    }

    fn nodes_of(&self, rt: &impl Abort, steps: &[usize]) -> Vec<Node> {
        let mut nodes = Vec::new(self.alloc);
        for step in steps {
            nodes.push(self.node(*step)).expect(rt, "memory");
        }
        nodes
    }

    fn all(&mut self, rt: &impl Abort, of: &[usize]) -> Node {
        let nodes = self.nodes_of(rt, of);
        if nodes.iter().all(|node| node.number() < self.dag.len()) {
            return self.dag.all(&nodes).expect(rt, "memory");
        }
        self.dag.yes()
    }

    fn any(&mut self, rt: &impl Abort, of: &[usize]) -> Node {
        let nodes = self.nodes_of(rt, of);
        if nodes.iter().all(|node| node.number() < self.dag.len()) {
            return self.dag.any(&nodes).expect(rt, "memory");
        }
        self.dag.yes()
    }

    fn row(&mut self, rt: &impl Abort, row: usize) -> Node {
        if row < self.dag.rows() {
            return self.dag.row(row).expect(rt, "memory");
        }
        self.dag.yes()
    }

    /// Draws a node, and gives the number of its step.
    pub fn draw(&mut self, rt: &impl Abort, step: Step) -> usize {
        let node = match step {
            Step::Yes => self.dag.yes(),
            Step::No => self.dag.no(),
            Step::Row(row) => self.row(rt, row),
            Step::Not(of) => {
                let node = self.node(of);
                self.dag.not(node).expect(rt, "memory")
            }
            Step::All(of) => self.all(rt, of),
            Step::Any(of) => self.any(rt, of),
        };
        let number = self.nodes.len();
        self.nodes.push(node).expect(rt, "memory");
        number
    }

    /// Draws one node after the other, and gives the number of the last step.
    pub fn draw_all(&mut self, rt: &impl Abort, steps: &[Step]) -> usize {
        let mut last = 0;
        for step in steps {
            last = self.draw(rt, *step);
        }
        last
    }

    /// A row or another one, the negation of that or the other one, and so on, so many times.
    /// Gives the steps of the gates.
    pub fn ladder(&mut self, rt: &impl Abort, rungs: usize) -> Vec<usize> {
        let mut gates = Vec::new(self.alloc);
        let mut last = self.draw(rt, Step::Row(0));
        for _ in 0..rungs {
            let other = self.draw(rt, Step::Row(1));
            let either = self.draw(rt, Step::Any(&[last, other]));
            gates.push(either).expect(rt, "memory");
            last = self.draw(rt, Step::Not(either));
        }
        gates
    }

    /// The value of a step's node where just these rows are kept.
    pub fn value(&self, rt: &impl Abort, step: usize, kept: &[usize]) -> bool {
        let mut keep = Keep::all(self.alloc, self.dag.rows(), false).expect(rt, "memory");
        for row in kept {
            if *row < keep.len() {
                keep.set(*row, true);
            }
        }
        assert!(rt; keep.len() == self.dag.rows());
        self.dag.value(self.node(step), &keep).expect(rt, "memory")
    }

    /// The number of variables of the clauses of a goal.
    pub fn variables(&self, rt: &impl Abort, goal: usize) -> usize {
        let mut checker = Checker::new(self.alloc);
        let named = clausify(self.alloc, &self.dag, self.node(goal), &mut checker);
        named.expect(rt, "memory").next()
    }

    /// Whether the clauses of a goal have a model that keeps just these of the first two rows.
    pub fn has_model(&self, rt: &impl Abort, goal: usize, kept: [bool; 2]) -> bool {
        let mut solver = Solver::new(self.alloc, Checker::new(self.alloc)).expect(rt, "memory");
        let named = clausify(self.alloc, &self.dag, self.node(goal), &mut solver);
        let rows = named.expect(rt, "memory").rows();
        for row in 0..2 {
            solver.add(&[Lit::of(row, kept[row])]).expect(rt, "memory");
        }
        let found = solver.solve(None, rows, None, Order::Free);
        drop(solver);
        matches!(&found.expect(rt, "memory"), Found::Model(_))
    }

    /// What the search finds where each row is in the cone.
    pub fn search(&self, rt: &impl Abort, goal: usize, budget: Option<u64>) -> Searched
        requires { IfSome budget (λ b. 1 ≤ b) }
    {
        let all = Keep::all(self.alloc, self.dag.rows(), true).expect(rt, "memory");
        smallest_counted(self.alloc, &self.dag, self.node(goal), &all, budget).expect(rt, "memory")
    }
}
