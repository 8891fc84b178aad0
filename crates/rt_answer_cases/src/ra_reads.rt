//! What the reader of algebra texts takes and refuses, with the byte of each error.

use rt_ra::parse_ra;
use rt_ra_tree::RaFault;
use rt_token::tokens;
use std::alloc::Global;
use std::process::Abort;

#[derive(Clone, Copy, PartialEq, Eq)]
enum Reading {
    Formed,
    Deep,
    Syntax(usize),
    Other,
}

fn answer_of(rt: &impl Abort, alloc: Global, text: &str) -> Reading {
    let tokens = tokens(alloc, text.as_bytes()).expect(rt, "tokens");
    let parsed = parse_ra(alloc, tokens.as_slice());
    drop(tokens);
    let told = match &parsed {
        Ok(_) => Reading::Formed,
        Err(RaFault::TooDeep) => Reading::Deep,
        Err(RaFault::Syntax(at)) => Reading::Syntax(*at),
        Err(_) => Reading::Other,
    };
    drop(parsed);
    told
}

// The word of an operator that isn't reserved is a name if no parenthesis follows it. A quoted
// one is always.
#[test]
fn reads_each_rule(rt: HostRuntime) {
    for text in &[
        "u;",
        "\"u\"",
        "select(t, a = -1 AND b IS NOT NULL AND 2 <> b)",
        "select(t, a <= b AND a IS NULL AND 'x' < a)",
        "PROJECT(rename(t, (semi, \"semi\")), (a))",
        "rename(t, (divide, \"join\"))",
        "divide",
        "semi(semi, \"join\")",
        "cross(anti(a, b), leftjoin(join(c, d), divide(e, f)))",
        "union(except(a, b), intersect(c, d));",
    ] {
        assert!(rt;
            answer_of(&rt, rt.alloc(), text) == Reading::Formed,
            "{text}"
        );
    }
}

#[test]
fn refuses_other_texts(rt: HostRuntime) {
    for (text, at) in &[
        ("", 0usize),
        ("join", 0),
        ("\"semi\"(t, u)", 6),
        ("semi(t)", 6),
        ("project(t, ())", 12),
        ("select(t, a = - 'x')", 16),
        ("select(t, a = 1 OR a = 2)", 16),
        ("t;;", 2),
    ] {
        assert!(rt;
            answer_of(&rt, rt.alloc(), text) == Reading::Syntax(*at),
            "{text}"
        );
    }
}

// 64 open parentheses, and 8 words whose operators repeat their operands, are not too deep.
#[test]
fn refuses_what_is_too_deep(rt: HostRuntime) {
    for (text, wanted) in &[
        (
            "((((((((((((((((((((((((((((((((((((((((((((((((((((((((((((((((",
            Reading::Syntax(0),
        ),
        (
            "(((((((((((((((((((((((((((((((((((((((((((((((((((((((((((((((((",
            Reading::Deep,
        ),
        (
            "divide divide divide divide leftjoin leftjoin leftjoin leftjoin \"divide\" u",
            Reading::Syntax(7),
        ),
        (
            "divide divide divide divide leftjoin leftjoin leftjoin leftjoin divide u",
            Reading::Deep,
        ),
    ] {
        assert!(rt; answer_of(&rt, rt.alloc(), text) == *wanted, "{text}");
    }
}
