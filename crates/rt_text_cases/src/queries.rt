//! Parsing queries: one text for each rule of the grammar, errors and their places, and the limits
//! of nesting.

use crate::shape::shape;
use crate::told::Report;
use rt_sql::{SqlFault, parse};
use rt_token::tokens;
use rt_tree::Sql;
use std::alloc::Global;
use std::process::Abort;

fn parsed(rt: &impl Abort, alloc: Global, text: &str) -> Result<Sql, SqlFault> {
    let tokens = tokens(alloc, text.as_bytes()).expect(rt, "tokens");
    let parsed = parse(alloc, tokens.as_slice());
    drop(tokens);
    parsed
}

fn put_fault(out: &mut Report, fault: &SqlFault) {
    match fault {
        SqlFault::Unsupported(word, at) => {
            out.put("no ");
            out.put(word.as_str());
            out.put(" ");
            out.put_number(*at as i128);
        }
        SqlFault::TooDeep => out.put("deep"),
        SqlFault::Syntax(at) => {
            out.put("syntax ");
            out.put_number(*at as i128);
        }
        SqlFault::NoMemory => out.put("memory"),
    }
}

// Puts the tree's short text, or the error.
fn put_read(rt: &impl Abort, alloc: Global, out: &mut Report, text: &str) {
    match parsed(rt, alloc, text) {
        Ok(sql) => {
            shape(out, &sql);
            drop(sql);
        }
        Err(fault) => {
            put_fault(out, &fault);
            drop(fault);
        }
    }
}

fn is_told(rt: &impl Abort, alloc: Global, text: &str, wanted: &str) -> bool {
    let mut out = Report::new(alloc);
    put_read(rt, alloc, &mut out, text);
    out.is(wanted)
}

// Texts of the grammar, the tree that each has, and with each a text that has none: a syntax error.
const RULES: [(&str, &str, &str); 25] = [
    ("SELECT a FROM t;", "<S a F t>;", "SELECT a FROM t;;"),
    (
        "SELECT x FROM a EXCEPT SELECT x FROM b UNION SELECT x FROM c",
        "<S x F a E S x F b U S x F c>",
        "SELECT x FROM a UNION",
    ),
    (
        "SELECT a FROM t EXCEPT DISTINCT SELECT b FROM u",
        "<S a F t Ed S b F u>",
        "SELECT a FROM t DISTINCT EXCEPT SELECT b FROM u",
    ),
    (
        "SELECT a FROM t UNION SELECT b FROM u INTERSECT DISTINCT SELECT c FROM v",
        "<S a F t U S b F u Id S c F v>",
        "SELECT a FROM t INTERSECT INTERSECT SELECT b FROM u",
    ),
    (
        "SELECT c FROM v EXCEPT (SELECT a FROM t UNION SELECT b FROM u)",
        "<S c F v E <S a F t U S b F u>>",
        "(SELECT a FROM t",
    ),
    (
        "SELECT DISTINCT a FROM t WHERE a = 1",
        "<Sd a F t{a=1}>",
        "SELECT a WHERE a = 1",
    ),
    ("SELECT * FROM t", "<S * F t>", "SELECT *, a FROM t"),
    (
        "SELECT t.*, a AS b, c d FROM t",
        "<S t.*,a:as b,c:d F t>",
        "SELECT a b c FROM t",
    ),
    (
        "SELECT a FROM t x, u AS y",
        "<S a F t:x,u:as y>",
        "SELECT a FROM t,",
    ),
    (
        "SELECT a FROM (SELECT b FROM u) v",
        "<S a F <S b F u>:v>",
        "SELECT a FROM (SELECT b FROM u)",
    ),
    (
        "SELECT a FROM t JOIN u ON a = b",
        "<S a F tJu{a=b}>",
        "SELECT a FROM t JOIN u",
    ),
    (
        "SELECT a FROM t INNER JOIN u ON a = b, v",
        "<S a F tNu{a=b},v>",
        "SELECT a FROM t INNER u ON a = b",
    ),
    (
        "SELECT a FROM t CROSS JOIN u",
        "<S a F tXu>",
        "SELECT a FROM t CROSS JOIN u ON a = b",
    ),
    (
        "SELECT a FROM t WHERE NOT a = 1 AND b = 2 OR c = 3",
        "<S a F t{!a=1&b=2|c=3}>",
        "SELECT a FROM t WHERE AND a = 1",
    ),
    (
        "SELECT a FROM t WHERE a <> 1 OR a < 2 OR a <= 3 OR a > 4 OR a >= 5",
        "<S a F t{a<>1|a<2|a<=3|a>4|a>=5}>",
        "SELECT a FROM t WHERE a = 1 = 2",
    ),
    (
        "SELECT a FROM t WHERE a IS NULL OR b IS NOT NULL",
        "<S a F t{a?|b!?}>",
        "SELECT a FROM t WHERE a NOT IS NULL",
    ),
    (
        "SELECT a FROM t WHERE a NOT IN ((SELECT b FROM u) UNION SELECT c FROM v)",
        "<S a F t{a!@<<S b F u> U S c F v>}>",
        "SELECT a FROM t WHERE a IN SELECT b FROM u",
    ),
    (
        "SELECT a FROM t WHERE a IN ((1), 'x', NULL)",
        "<S a F t{a@[(1),'x',N]}>",
        "SELECT a FROM t WHERE a IN ()",
    ),
    (
        "SELECT a FROM t WHERE a NOT BETWEEN 1 AND 2 AND b = 3",
        "<S a F t{a!~1,2&b=3}>",
        "SELECT a FROM t WHERE a BETWEEN 1 OR 2",
    ),
    (
        "SELECT a FROM t WHERE NOT NOT EXISTS (SELECT * FROM u)",
        "<S a F t{!!#<S * F u>}>",
        "SELECT a FROM t WHERE EXISTS t",
    ),
    (
        "SELECT a FROM t WHERE (a > 1)",
        "<S a F t{{a>1}}>",
        "SELECT a FROM t WHERE (a)",
    ),
    (
        "SELECT a FROM t WHERE (a + 1) * 2 > 3 OR ((a) = 1)",
        "<S a F t{(a+1)*2>3|{(a)=1}}>",
        "SELECT a FROM t WHERE (a > 1) = 2",
    ),
    (
        "SELECT a + 1 - b * - - 2 FROM t",
        "<S a+1-b*--2 F t>",
        "SELECT a + FROM t",
    ),
    (
        "SELECT t.a, 'it''s', NULL FROM t",
        "<S t.a,'it's',N F t>",
        "SELECT t.a.b FROM t",
    ),
    (
        "SELECT \"a b\" FROM \"select\"",
        "<S a b F select>",
        "SELECT select FROM t",
    ),
];

#[test]
fn reads_each_rule(rt: HostRuntime) {
    for (text, wanted, other) in &RULES {
        assert!(rt; is_told(&rt, rt.alloc(), text, wanted), "{text}");
        assert!(rt; ends(&rt, rt.alloc(), other) == Ending::Syntax, "{other}");
    }
}

#[test]
fn tells_faults(rt: HostRuntime) {
    for (text, wanted) in &[
        ("", "syntax 0"),
        ("SELECT name FROM", "syntax 16"),
        ("SELECT a FROM t WHERE a = 1 2", "syntax 28"),
        ("SELECT count(*) FROM reg", "no count 7"),
        ("SELECT a FROM t UNION ALL SELECT f(a) FROM t", "no all 22"),
        ("WITH t AS (SELECT a FROM t) SELECT a FROM t", "no with 0"),
        ("SELECT \"f\"(a) FROM t", "syntax 10"),
    ] {
        assert!(rt; is_told(&rt, rt.alloc(), text, wanted), "{text}");
    }
}

// `open` so many times, the middle, and `close` as many times.
fn nested(
    rt: &impl Abort,
    alloc: Global,
    front: &str,
    open: &str,
    times: usize,
    middle: &str,
    close: &str,
) -> String {
    let mut text = String::from_str(alloc, front).expect(rt, "memory");
    for _ in 0..times {
        text.push_str(open).expect(rt, "memory");
    }
    text.push_str(middle).expect(rt, "memory");
    for _ in 0..times {
        text.push_str(close).expect(rt, "memory");
    }
    text
}

// How a text ends.
#[derive(Clone, Copy, PartialEq, Eq)]
enum Ending {
    Read,
    TooDeep,
    Syntax,
    Other,
}

fn ends(rt: &impl Abort, alloc: Global, text: &str) -> Ending {
    let parsed = parsed(rt, alloc, text);
    let ending = match &parsed {
        Ok(_) => Ending::Read,
        Err(SqlFault::TooDeep) => Ending::TooDeep,
        Err(SqlFault::Syntax(_)) => Ending::Syntax,
        Err(_) => Ending::Other,
    };
    drop(parsed);
    ending
}

fn nested_ends(
    rt: &impl Abort,
    alloc: Global,
    front: &str,
    open: &str,
    times: usize,
    middle: &str,
    close: &str,
) -> Ending {
    let text = nested(rt, alloc, front, open, times, middle, close);
    let ending = ends(rt, alloc, text.as_str());
    drop(text);
    ending
}

// Whether the text is read with so many nests, and too deep with one more.
fn is_deepest(
    rt: &impl Abort,
    alloc: Global,
    front: &str,
    open: &str,
    times: usize,
    middle: &str,
    close: &str,
) -> bool {
    let read = nested_ends(rt, alloc, front, open, times, middle, close);
    let more = nested_ends(
        rt,
        alloc,
        front,
        open,
        times.saturating_add(1),
        middle,
        close,
    );
    read == Ending::Read && more == Ending::TooDeep
}

// Texts before what is nested, what opens a nest, how many nests a query may have, what is in the
// innermost one, and what closes each.
const DEEPEST: [(&str, &str, usize, &str, &str); 5] = [
    ("SELECT a FROM t WHERE ", "(", 64, "a = 1", ")"),
    ("SELECT a FROM t WHERE ", "NOT ", 8, "a = 1", ""),
    ("SELECT a FROM t WHERE ", "- ", 8, "a > 1", ""),
    (
        "",
        "SELECT a FROM t WHERE a IN (",
        63,
        "SELECT a FROM t",
        ")",
    ),
    ("", "(", 64, "SELECT a FROM t", ")"),
];

#[test]
fn counts_nesting(rt: HostRuntime) {
    let alloc = rt.alloc();
    for (front, open, times, middle, close) in &DEEPEST {
        assert!(rt;
            is_deepest(&rt, alloc, front, open, *times, middle, close),
            "{open}"
        );
    }
}

// Four MiB of one condition.
#[test]
fn reads_a_long_condition(rt: HostRuntime) {
    let front = "SELECT a FROM t WHERE a=1 ";
    let read = nested_ends(&rt, rt.alloc(), front, "OR a=1 ", 599_182, "", "");
    assert!(rt; read == Ending::Read);
}

// `a` in sixty parentheses, between two texts.
fn sixty(rt: &impl Abort, alloc: Global, front: &str, back: &str) -> String {
    let mut text = nested(rt, alloc, front, "(", 60, "a", ")");
    text.push_str(back).expect(rt, "memory");
    text
}

// The parentheses are those of a sum, as the comparison after the last one says.
#[test]
fn reads_a_sum_in_sixty_parentheses(rt: HostRuntime) {
    let alloc = rt.alloc();
    let text = sixty(&rt, alloc, "SELECT a FROM t WHERE ", " > 1");
    let wanted = sixty(&rt, alloc, "<S a F t{", ">1}>");
    let found = is_told(&rt, alloc, text.as_str(), wanted.as_str());
    drop(text);
    drop(wanted);
    assert!(rt; found);
}
