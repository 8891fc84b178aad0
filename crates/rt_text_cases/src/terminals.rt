//! From tokens to terminals, and the places of syntax errors.

use rt_token::{Fixed, ReadFault, Terminal, name, syntax_place, terminals, tokens};
use rt_value::List;
use std::alloc::Global;
use std::process::Abort;

fn marked(rt: &impl Abort, alloc: Global, text: &str) -> Result<List<Terminal>, ReadFault> {
    let tokens = tokens(alloc, text.as_bytes()).expect(rt, "tokens");
    let marked = terminals(alloc, tokens.as_slice());
    drop(tokens);
    marked
}

// Whether they are three: a name, quoted or not, a reserved word and a number.
fn are_three(alloc: Global, terminals: &[Terminal], quoted: bool) -> Result<bool, ReadFault> {
    let (name, rest) = name(alloc, terminals)?;
    Ok(match rest {
        [Terminal::Fixed(Fixed::Select), Terminal::Number(7)] => {
            name.text.as_str() == "a" && name.quoted == quoted
        }
        _ => false,
    })
}

// Whether the text has three terminals: a name, a reserved word and a number.
fn is_read(rt: &impl Abort, alloc: Global, text: &str) -> Result<bool, ReadFault> {
    let terminals = marked(rt, alloc, text)?;
    let found = are_three(alloc, terminals.as_slice(), text.starts_with('"'));
    drop(terminals);
    found
}

#[test]
fn reads_names_words_and_numbers(rt: HostRuntime) {
    for (text, wanted) in &[
        ("A select 7", Ok(true)),
        ("\"a\" SELECT 7", Ok(true)),
        ("\"A\" SELECT 7", Ok(false)),
        ("a order 7", Err(ReadFault::Syntax(2))),
        ("select a 7", Err(ReadFault::Syntax(3))),
    ] {
        assert!(rt; is_read(&rt, rt.alloc(), text) == *wanted, "{text}");
    }
}

#[test]
fn tells_places(rt: HostRuntime) {
    let tokens = tokens(rt.alloc(), b"a b c").expect(&rt, "tokens");
    for (left, place) in &[(0, 5), (1, 4), (2, 2), (3, 0), (4, 5)] {
        assert!(rt; syntax_place(tokens.as_slice(), *left) == *place);
    }
}
