//! The two nodes of a condition, and how conditions are put together in three-valued logic
//! (ISO/IEC 9075-2, boolean value expression).

ghost use Rattle.std.specs.Prelude.{◌≡◌, ◌<◌, ◌++◌, ◌∷◌, [], List, Bool, true, false, not, ◌&&◌, IfOk, OnOk, length};
ghost use Rattle.std.specs.List.{list_all, list_any};
ghost use Rattle.rt_formula.specs.Shared.{val, IsGrown};
ghost use Rattle.rt_noted.specs.Entries.{constant};
ghost use Rattle.rt_noted.specs.Annotated.{AreNodes, IsNode, IsGate, deciding, gates_joined};

use rt_formula::{Dag, Node};
use rt_value::{List, NoMemory, Truth};

/// A condition: where it is true, and where it is false. It is unknown where both nodes are false.
#[derive(Clone, Copy)]
pub struct TruthNodes {
    pub yes: Node,
    pub no: Node,
}

/// The nodes of several conditions.
pub struct TruthLists {
    pub yes: List<Node>,
    pub no: List<Node>,
}

impl Drop for TruthLists {
    fn drop(self) {
        let TruthLists { yes: _, no: _ } = self;
    }
}

impl TruthLists {
    /// Puts one more condition at the end.
    pub fn push(&mut self, gate: TruthNodes) -> Result<(), NoMemory>
        ensures yes { OnOk result (self.new.yes ≡ self.old.yes ++ gate.yes ∷ []) }
        ensures no { OnOk result (self.new.no ≡ self.old.no ++ gate.no ∷ []) }
    {
        self.yes.push(gate.yes)?;
        self.no.push(gate.no)
    }
}

/// A condition that no choice of rows changes.
pub fn constant(dag: &Dag, truth: Truth) -> TruthNodes
    ensures { IsGate dag.now result (constant truth) }
{
    match truth {
        Truth::Yes => TruthNodes {
            yes: dag.yes(),
            no: dag.no(),
        },
        Truth::No => TruthNodes {
            yes: dag.no(),
            no: dag.yes(),
        },
        Truth::Unknown => TruthNodes {
            yes: dag.no(),
            no: dag.no(),
        },
    }
}

/// Whether a node is the one that is false at every choice.
pub fn is_never(dag: &Dag, node: Node) -> bool
    ensures { result ≡ true → (s : List Bool) → val dag.now s node ≡ false }
{
    node == dag.no()
}

/// Whether a node is the one that is true at every choice.
pub fn is_always(dag: &Dag, node: Node) -> bool
    ensures { result ≡ true → (s : List Bool) → val dag.now s node ≡ true }
{
    node == dag.yes()
}

/// The node that is true where both are.
pub fn both(dag: &mut Dag, a: Node, b: Node) -> Result<Node, NoMemory>
    requires a { a < length dag.old.entries }
    requires b { b < length dag.old.entries }
    ensures grown { IsGrown dag.old dag.new }
    ensures node { IfOk result (λ n. IsNode dag.new n (λ s. val dag.old s a && val dag.old s b)) }
{
    dag.all(&[a, b])
}

/// How conditions are put together. `All` (AND) is true where all are true and false where one is
/// false. `Any` (OR) is true where one is true and false where all are false.
#[derive(Clone, Copy)]
pub enum Junction {
    All,
    Any,
}

impl Junction {
    /// The node of a condition that decides all of them if it is always true: for AND the one that
    /// says that the condition is false.
    pub fn deciding(&self, gate: &TruthNodes) -> Node
        ensures { result ≡ deciding self.now gate.now }
    {
        match self {
            Junction::All => gate.no,
            Junction::Any => gate.yes,
        }
    }

    /// The conditions together.
    pub fn of(&self, dag: &mut Dag, gates: &TruthLists) -> Result<TruthNodes, NoMemory>
        requires yes { AreNodes dag.old gates.now.yes }
        requires no { AreNodes dag.old gates.now.no }
        ensures grown { IsGrown dag.old dag.new }
        ensures gate { IfOk result (λ g. IsGate dag.new g (gates_joined self.now dag.old gates.now)) }
    {
        match self {
            Junction::All => all(dag, gates),
            Junction::Any => any(dag, gates),
        }
    }
}

// True where all are true, false where one is false.
fn all(dag: &mut Dag, gates: &TruthLists) -> Result<TruthNodes, NoMemory>
    requires yes { AreNodes dag.old gates.now.yes }
    requires no { AreNodes dag.old gates.now.no }
    ensures grown { IsGrown dag.old dag.new }
    ensures gate { IfOk result (λ g. IsGate dag.new g (λ s. list_all (val dag.old s) gates.now.yes, λ s. list_any (val dag.old s) gates.now.no)) }
{
    let yes = dag.all(gates.yes.as_slice())?;
    let no = dag.any(gates.no.as_slice())?;
    Ok(TruthNodes { yes, no })
}

// True where one is true, false where all are false.
fn any(dag: &mut Dag, gates: &TruthLists) -> Result<TruthNodes, NoMemory>
    requires yes { AreNodes dag.old gates.now.yes }
    requires no { AreNodes dag.old gates.now.no }
    ensures grown { IsGrown dag.old dag.new }
    ensures gate { IfOk result (λ g. IsGate dag.new g (λ s. list_any (val dag.old s) gates.now.yes, λ s. list_all (val dag.old s) gates.now.no)) }
{
    let yes = dag.any(gates.yes.as_slice())?;
    let no = dag.all(gates.no.as_slice())?;
    Ok(TruthNodes { yes, no })
}

/// True where one of the nodes is, else false.
pub fn either(dag: &mut Dag, nodes: &[Node]) -> Result<TruthNodes, NoMemory>
    requires { AreNodes dag.old nodes.now }
    ensures grown { IsGrown dag.old dag.new }
    ensures gate { IfOk result (λ g. IsGate dag.new g (λ s. list_any (val dag.old s) nodes.now, λ s. not (list_any (val dag.old s) nodes.now))) }
{
    let yes = dag.any(nodes)?;
    let no = dag.not(yes)?;
    Ok(TruthNodes { yes, no })
}
