//! The lexer: each kind of token with its place, and the leftmost error.

use crate::told::Report;
use rt_token::{LexFault, Sym, Token, TokenKind, tokens};
use std::alloc::Global;
use std::process::Abort;

fn fault_of(alloc: Global, text: &[u8]) -> Option<LexFault> {
    match tokens(alloc, text) {
        Ok(_) => None,
        Err(fault) => Some(fault),
    }
}

#[test]
fn faults_are_the_leftmost(rt: HostRuntime) {
    let table = &[
        ("SELECT 'abc", LexFault::OpenText(7)),
        ("SELECT a/2 FROM t", LexFault::BadByte(8)),
        (
            "SELECT 170141183460469231731687303715884105728",
            LexFault::BigNumber(7),
        ),
        (
            "170141183460469231731687303715884105728x",
            LexFault::BigNumber(0),
        ),
        ("'a''", LexFault::OpenText(0)),
        ("\"\"\"", LexFault::OpenText(0)),
        ("\"\" ", LexFault::BadByte(0)),
        ("a /* b */ /* c", LexFault::OpenComment(10)),
        ("12x 'a", LexFault::BadByte(2)),
    ];
    for (text, want) in table {
        assert!(rt;
            fault_of(rt.alloc(), text.as_bytes()) == Some(*want),
            "{text}"
        );
    }
    assert!(rt; fault_of(rt.alloc(), b"a\xff'") == Some(LexFault::NotUtf8(1)));
}

fn sign(sym: Sym) -> &'static str {
    match sym {
        Sym::Left => "(",
        Sym::Right => ")",
        Sym::Comma => ",",
        Sym::Dot => ".",
        Sym::Semi => ";",
        Sym::Star => "*",
        Sym::Plus => "+",
        Sym::Minus => "-",
        Sym::Eq => "=",
        Sym::Ne => "<>",
        Sym::Lt => "<",
        Sym::Le => "<=",
        Sym::Gt => ">",
        Sym::Ge => ">=",
    }
}

fn put_kind(out: &mut Report, kind: &TokenKind) {
    match kind {
        TokenKind::Word(word) => out.put(word.as_str()),
        TokenKind::Quoted(name) => {
            out.put("\"");
            out.put(name.as_str());
            out.put("\"");
        }
        TokenKind::Number(number) => out.put_number(*number),
        TokenKind::Str(text) => out.put_quoted(text.as_str()),
        TokenKind::Sym(sym) => out.put(sign(*sym)),
    }
}

// Each token, and the bytes that it was read from.
fn put_tokens(out: &mut Report, tokens: &[Token]) {
    for token in tokens {
        put_kind(out, &token.kind);
        out.put(" ");
        out.put_number(token.span.from as i128);
        out.put("-");
        out.put_number(token.span.to as i128);
        out.put("|");
    }
}

fn are_read(rt: &impl Abort, alloc: Global, text: &str, wanted: &str) -> bool {
    let tokens = tokens(alloc, text.as_bytes()).expect(rt, "tokens");
    let mut out = Report::new(alloc);
    put_tokens(&mut out, tokens.as_slice());
    drop(tokens);
    out.is(wanted)
}

#[test]
fn each_kind_of_token(rt: HostRuntime) {
    for (text, wanted) in &[
        ("", ""),
        ("SELECT a.b", "select 0-6|a 7-8|. 8-9|b 9-10|"),
        (
            "\"A\"\"b\" 'it''s' ''",
            "\"A\"b\" 0-6|'it's' 7-14|'' 15-17|",
        ),
        (
            "(),.;*+-=<><<=>>=!=",
            "( 0-1|) 1-2|, 2-3|. 3-4|; 4-5|* 5-6|+ 6-7|- 7-8|= 8-9|<> 9-11|< 11-12|<= 12-14|> 14-15|>= 15-17|<> 17-19|",
        ),
        (
            "007 170141183460469231731687303715884105727",
            "7 0-3|170141183460469231731687303715884105727 4-43|",
        ),
        (" -- a\n_x /* b\n*/\t\ry2\u{c}", "_x 6-8|y2 18-20|"),
        ("a--b", "a 0-1|"),
        ("a/* * / */b", "a 0-1|b 10-11|"),
        ("- -", "- 0-1|- 2-3|"),
    ] {
        assert!(rt; are_read(&rt, rt.alloc(), text, wanted), "{text}");
    }
}
