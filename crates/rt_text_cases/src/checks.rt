//! The checks and dependencies of a table as a short text, for tests. Columns are given by their
//! numbers and conditions in square brackets; `!` is NOT, `&` is AND and `|` is OR.

use crate::told::Report;
use rt_schema::{Check, CheckAtom, CheckLeaf, CheckPart, Depend, Rule, Side};
use rt_value::{Op, Value};

fn side(out: &mut Report, side: &Side) {
    match side {
        Side::Column(column) => {
            out.put("#");
            out.put_number(*column as i128);
        }
        Side::Constant(Value::Null) => out.put("N"),
        Side::Constant(Value::Int(number)) => out.put_number(*number),
        Side::Constant(Value::Text(text)) => out.put_quoted(text.as_str()),
    }
}

fn sign(op: Op) -> &'static str {
    match op {
        Op::Eq => "=",
        Op::Ne => "<>",
        Op::Lt => "<",
        Op::Le => "<=",
        Op::Gt => ">",
        Op::Ge => ">=",
    }
}

// Two sides with the sign between them.
fn pair(out: &mut Report, left: &Side, sign: &str, right: &Side) {
    side(out, left);
    out.put(sign);
    side(out, right);
}

fn sides(out: &mut Report, sides: &[Side]) {
    for item in sides {
        out.put(" ");
        side(out, item);
    }
}

fn leaf(out: &mut Report, leaf: &CheckLeaf) {
    match leaf {
        CheckLeaf::Cmp(op, left, right) => pair(out, left, sign(*op), right),
        CheckLeaf::IsNull(left) => {
            side(out, left);
            out.put(" null");
        }
        CheckLeaf::Between(left, low, high) => {
            pair(out, left, " between ", low);
            out.put(" ");
            side(out, high);
        }
        CheckLeaf::OneOf(left, items) => {
            side(out, left);
            out.put(" in");
            sides(out, items.as_slice());
        }
    }
}

fn atom(out: &mut Report, atom: &CheckAtom) {
    if atom.not {
        out.put("!");
    }
    leaf(out, &atom.of);
}

fn part(out: &mut Report, part: &CheckPart) {
    for (at, item) in part.all.as_slice().iter().enumerate() {
        if 0 < at {
            out.put(" & ");
        }
        atom(out, item);
    }
}

fn check(out: &mut Report, check: &Check) {
    out.put("[");
    for (at, item) in check.any.as_slice().iter().enumerate() {
        if 0 < at {
            out.put(" | ");
        }
        part(out, item);
    }
    out.put("]");
}

fn numbers(out: &mut Report, numbers: &[usize]) {
    for number in numbers {
        out.put(" ");
        out.put_number(*number as i128);
    }
}

fn depend(out: &mut Report, depend: &Depend) {
    out.put("[");
    numbers(out, depend.from.as_slice());
    out.put(" ->");
    numbers(out, depend.to.as_slice());
    out.put("]");
}

/// Puts the checks and dependencies at the end of the text, and a dot for each other rule.
pub(crate) fn rules(out: &mut Report, rules: &[Rule]) {
    for rule in rules {
        match rule {
            Rule::Check(item) => check(out, item),
            Rule::Depend(item) => depend(out, item),
            _ => out.put("."),
        }
    }
}
