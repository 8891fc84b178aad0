//! A tree as a short text, for tests: `<` and `>` around a chain, `{` and `}` around a condition.

use crate::told::Report;
use rt_token::Name;
use rt_tree::{
    Alias, Atom, Base, Chain, ChainLink, Cond, Conj, Factor, Item, Items, Join, Leaf, Meet,
    MeetLink, Mul, Neg, Op, Pick, Primary, Source, Sql, Sum, SumLink,
};

fn name(out: &mut Report, name: &Name) {
    out.put(name.text.as_str());
}

fn flag(out: &mut Report, stands: bool, text: &str) {
    if stands {
        out.put(text);
    }
}

fn alias(out: &mut Report, alias: &Alias) {
    out.put(if alias.as_word { ":as " } else { ":" });
    name(out, &alias.name);
}

fn maybe_alias(out: &mut Report, found: &Option<Alias>) {
    if let Some(found) = found {
        alias(out, found);
    }
}

#[cycle(sum_shape)]
fn leaf(out: &mut Report, leaf: &Leaf) {
    match leaf {
        Leaf::Number(number) => out.put_number(*number),
        Leaf::Str(text) => out.put_quoted(text.as_str()),
        Leaf::Null => out.put("N"),
        Leaf::Col(Some(table), column) => {
            name(out, table);
            out.put(".");
            name(out, column);
        }
        Leaf::Col(None, column) => name(out, column),
        Leaf::Paren(inner) => {
            out.put("(");
            sum(out, inner.get());
            out.put(")");
        }
    }
}

#[cycle(sum_shape)]
fn factor(out: &mut Report, factor: &Factor) {
    for _ in 0..factor.minuses {
        out.put("-");
    }
    leaf(out, &factor.of);
}

#[cycle(sum_shape)]
fn mul(out: &mut Report, mul: &Mul) {
    factor(out, &mul.head);
    for more in mul.tail.as_slice() {
        out.put("*");
        factor(out, more);
    }
}

#[cycle(sum_shape)]
fn sum_link(out: &mut Report, link: &SumLink) {
    out.put(if link.minus { "-" } else { "+" });
    mul(out, &link.of);
}

#[cycle(sum_shape)]
fn sum(out: &mut Report, sum: &Sum) {
    mul(out, &sum.head);
    for link in sum.tail.as_slice() {
        sum_link(out, link);
    }
}

fn item(out: &mut Report, item: &Item) {
    match item {
        Item::All(table) => {
            name(out, table);
            out.put(".*");
        }
        Item::One(one, alias) => {
            sum(out, one);
            maybe_alias(out, alias);
        }
    }
}

fn items(out: &mut Report, items: &Items) {
    match items {
        Items::Star => out.put("*"),
        Items::Some(head, tail) => {
            item(out, head);
            for more in tail.as_slice() {
                out.put(",");
                item(out, more);
            }
        }
    }
}

fn sign(op: Op) -> &'static str {
    match op {
        Op::Eq => "=",
        Op::Ne => "<>",
        Op::Lt => "<",
        Op::Le => "<=",
        Op::Gt => ">",
        Op::Ge => ">=",
    }
}

// A sum, `!` where it says so, and the sign.
fn start(out: &mut Report, left: &Sum, not: bool, sign: &str) {
    sum(out, left);
    flag(out, not, "!");
    out.put(sign);
}

// Two sums with the sign between them.
fn pair(out: &mut Report, left: &Sum, sign: &str, right: &Sum) {
    start(out, left, false, sign);
    sum(out, right);
}

fn sums(out: &mut Report, head: &Sum, tail: &[Sum]) {
    sum(out, head);
    for more in tail {
        out.put(",");
        sum(out, more);
    }
}

#[cycle(chain_shape)]
fn atom(out: &mut Report, atom: &Atom) {
    match atom {
        Atom::Cmp(left, op, right) => pair(out, left, sign(*op), right),
        Atom::IsNull(left, not) => start(out, left, *not, "?"),
        Atom::InChain(left, not, inner) => {
            start(out, left, *not, "@");
            chain(out, inner.get());
        }
        Atom::InList(left, not, head, tail) => {
            start(out, left, *not, "@[");
            sums(out, head, tail.as_slice());
            out.put("]");
        }
        Atom::Between(left, not, low, high) => {
            start(out, left, *not, "~");
            pair(out, low, ",", high);
        }
        Atom::Exists(inner) => {
            out.put("#");
            chain(out, inner.get());
        }
        Atom::Paren(inner) => cond(out, inner.get()),
    }
}

#[cycle(chain_shape)]
fn neg(out: &mut Report, neg: &Neg) {
    for _ in 0..neg.nots {
        out.put("!");
    }
    atom(out, &neg.atom);
}

#[cycle(chain_shape)]
fn conj(out: &mut Report, conj: &Conj) {
    neg(out, &conj.head);
    for more in conj.tail.as_slice() {
        out.put("&");
        neg(out, more);
    }
}

#[cycle(chain_shape)]
fn cond(out: &mut Report, cond: &Cond) {
    out.put("{");
    conj(out, &cond.head);
    for more in cond.tail.as_slice() {
        out.put("|");
        conj(out, more);
    }
    out.put("}");
}

#[cycle(chain_shape)]
fn base(out: &mut Report, base: &Base) {
    match base {
        Base::Named(table, alias) => {
            name(out, table);
            maybe_alias(out, alias);
        }
        Base::Sub(inner, found) => {
            chain(out, inner.get());
            alias(out, found);
        }
    }
}

#[cycle(chain_shape)]
fn join(out: &mut Report, join: &Join) {
    match join {
        Join::Plain(table, on) => {
            out.put("J");
            base(out, table);
            cond(out, on);
        }
        Join::Inner(table, on) => {
            out.put("N");
            base(out, table);
            cond(out, on);
        }
        Join::Cross(table) => {
            out.put("X");
            base(out, table);
        }
    }
}

#[cycle(chain_shape)]
fn source(out: &mut Report, source: &Source) {
    base(out, &source.head);
    for more in source.joins.as_slice() {
        join(out, more);
    }
}

#[cycle(chain_shape)]
fn pick(out: &mut Report, pick: &Pick) {
    out.put(if pick.distinct { "Sd " } else { "S " });
    items(out, &pick.items);
    out.put(" F ");
    source(out, &pick.head);
    for more in pick.tail.as_slice() {
        out.put(",");
        source(out, more);
    }
    if let Some(found) = &pick.cond {
        cond(out, found);
    }
}

#[cycle(chain_shape)]
fn primary(out: &mut Report, primary: &Primary) {
    match primary {
        Primary::One(one) => pick(out, one.get()),
        Primary::Paren(inner) => chain(out, inner.get()),
    }
}

#[cycle(chain_shape)]
fn meet_link(out: &mut Report, link: &MeetLink) {
    out.put(if link.distinct { " Id " } else { " I " });
    primary(out, &link.of);
}

#[cycle(chain_shape)]
fn meet(out: &mut Report, meet: &Meet) {
    primary(out, &meet.head);
    for link in meet.tail.as_slice() {
        meet_link(out, link);
    }
}

#[cycle(chain_shape)]
fn chain_link(out: &mut Report, link: &ChainLink) {
    out.put(if link.except { " E" } else { " U" });
    out.put(if link.distinct { "d " } else { " " });
    meet(out, &link.of);
}

#[cycle(chain_shape)]
fn chain(out: &mut Report, chain: &Chain) {
    out.put("<");
    meet(out, &chain.head);
    for link in chain.tail.as_slice() {
        chain_link(out, link);
    }
    out.put(">");
}

/// Puts the short text of a tree at the end.
pub(crate) fn shape(out: &mut Report, sql: &Sql) {
    chain(out, &sql.chain);
    flag(out, sql.semi, ";");
}
