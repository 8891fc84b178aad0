//! What a cell holds, and its comparisons. The order of `Ord` is the one of data, in which NULL
//! has a place; `compare` and `null_truth` are those of a condition, with three truth values.

ghost use Rattle.std.specs.Prelude.{◌≡◌, IfOk};
ghost use Rattle.std.specs.Cmp.{partial_order_from_own_ties};
ghost use Rattle.std.specs.Ordering.{as_partial_cmp};
ghost use Rattle.std.specs.Cmp.Rules.{comparing};
ghost use Rattle.std.proofs.Common.{rules};
ghost use Rattle.rt_value.specs.Value.{value_eq, value_cmp, value_truth, op_truth, null_truth};
ghost use Rattle.rt_value.specs.Order.{value_eq_equiv, value_cmp_total, value_ties};

use crate::no_memory::NoMemory;
use crate::truth::Truth;
use crate::txt::Txt;
use std::alloc::Global;
use std::cmp::Ordering;

/// A value of a column. As data NULL equals NULL and comes first, then whole numbers by size,
/// then texts by bytes; `compare` is the comparison of SQL.
#[derive(Debug)]
pub enum Value {
    Null,
    Int(i128),
    Text(Txt),
}

impl Drop for Value {
    fn drop(self) {
        match self {
            Value::Null => {}
            Value::Int(_) => {}
            Value::Text(_) => {}
        }
    }
}

/// The six comparisons of SQL.
#[derive(Clone, Copy, PartialEq, Eq, Debug)]
pub enum Op {
    Eq,
    Ne,
    Lt,
    Le,
    Gt,
    Ge,
}

fn op_truth(op: Op, order: Ordering) -> Truth
    ensures { result ≡ op_truth op order }
{
    let holds = match op {
        Op::Eq => order == Ordering::Equal,
        Op::Ne => order != Ordering::Equal,
        Op::Lt => order == Ordering::Less,
        Op::Le => order != Ordering::Greater,
        Op::Gt => order == Ordering::Greater,
        Op::Ge => order != Ordering::Less,
    };
    if holds { Truth::Yes } else { Truth::No }
}

/// The comparison of SQL (ISO/IEC 9075-2, comparison predicate): unknown where either is NULL.
pub fn compare(a: &Value, b: &Value, op: Op) -> Truth
    ensures { result ≡ value_truth op a.now b.now }
{
    match (a, b) {
        (Value::Null, _) | (_, Value::Null) => Truth::Unknown,
        _ => op_truth(op, a.cmp(b)),
    }
}

/// IS NULL (ISO/IEC 9075-2, null predicate), which is never unknown.
pub fn null_truth(value: &Value) -> Truth
    ensures { result ≡ null_truth value.now }
{
    match value {
        Value::Null => Truth::Yes,
        _ => Truth::No,
    }
}

impl Value {
    /// The same value; a text shares its bytes.
    pub fn copy(&self, alloc: Global) -> Result<Value, NoMemory>
        ensures { IfOk result (λ v. v ≡ self.now) }
    {
        match self {
            Value::Null => Ok(Value::Null),
            Value::Int(n) => Ok(Value::Int(*n)),
            Value::Text(t) => Ok(Value::Text(t.copy(alloc)?)),
        }
    }
}

impl PartialEq for Value {
    ghost eq = { value_eq };

    ghost laws = { Prim.search (comparing, rules, value_eq_equiv) };

    fn eq(&self, other: &Value) -> bool {
        match (self, other) {
            (Value::Null, Value::Null) => true,
            (Value::Int(x), Value::Int(y)) => *x == *y,
            (Value::Text(s), Value::Text(t)) => *s == *t,
            _ => false,
        }
    }
}

impl Eq for Value {
    ghost laws = { Prim.search (comparing, rules, value_eq_equiv) };
}

impl Ord for Value {
    ghost cmp = { value_cmp };

    ghost total = { value_cmp_total };

    ghost matches_partial_cmp = { Prim.search (comparing, rules) };

    ghost matches_eq = { value_ties };

    fn cmp(&self, other: &Value) -> Ordering {
        match (self, other) {
            (Value::Null, Value::Null) => Ordering::Equal,
            (Value::Null, _) => Ordering::Less,
            (Value::Int(_), Value::Null) => Ordering::Greater,
            (Value::Int(x), Value::Int(y)) => x.cmp(y),
            (Value::Int(_), Value::Text(_)) => Ordering::Less,
            (Value::Text(s), Value::Text(t)) => s.cmp(t),
            (Value::Text(_), _) => Ordering::Greater,
        }
    }
}

impl PartialOrd for Value {
    ghost partial_cmp = { as_partial_cmp value_cmp };

    ghost laws = { partial_order_from_own_ties (Prim.search (comparing, rules, value_cmp_total)) value_ties };

    fn partial_cmp(&self, other: &Value) -> Option<Ordering> {
        Some(self.cmp(other))
    }
}
