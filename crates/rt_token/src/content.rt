//! The content of words, texts and quoted names, copied out of the text they are read from.

ghost use Rattle.std.specs.Prelude.{◌≡◌, ◌≤◌, ◌<◌, ◌+◌, ◌-◌, length, drop, take, map, IfOk, IfSome};
ghost use Rattle.std.specs.Char.{to_ascii_lowercase};
ghost use Rattle.std.specs.List.{between};
ghost use Rattle.std.specs.Str.{IsCharBoundary};
ghost use Rattle.rt_token.specs.Lexed as spec;

use crate::bytes::{byte_at, plain_len, rest};
use rt_value::{NoMemory, Txt};
use std::alloc::Global;

/// The bytes of a range, with the letters of ASCII in lower case.
pub(crate) fn lower_case(alloc: Global, text: &str, from: usize, to: usize) -> Result<Txt, NoMemory>
    requires order { from ≤ to }
    requires start { IsCharBoundary text.now from }
    requires end { IsCharBoundary text.now to }
    ensures { IfOk result (λ t. t ≡ map to_ascii_lowercase (take (to - from) (drop from text.now))) }
{
    let folded = text[from..to].to_ascii_lowercase(alloc)?;
    Txt::from_string(alloc, folded)
}

/// The content from `from` up to the closing quote, each doubled quote read as one, and the number
/// of bytes up to and with that quote. None: there is no closing quote.
pub(crate) fn closing(
    alloc: Global,
    quote: u8,
    text: &str,
    from: usize,
) -> Result<Option<(Txt, usize)>, NoMemory>
    requires ascii { (0 < quote) × (quote < 128) }
    requires start { IsCharBoundary text.now from }
    ensures value { IfOk result (λ o. o ≡ spec.closing quote (drop from text.now)) }
    ensures within { IfOk result (λ o. IfSome o (λ p. from + p.1 ≤ length text.now)) }
{
    let bytes = text.as_bytes();
    let mut content = String::new(alloc);
    let mut start = from;
    'runs: loop {
        let end = start + plain_len(quote, rest(bytes, start));
        if end == bytes.len() {
            return Ok(None);
        }
        content.push_str(&text[start..end])?;
        if byte_at(bytes, end + 1) != quote {
            let content = Txt::from_string(alloc, content)?;
            return Ok(Some((content, end + 1 - from)));
        }
        content.push(char::from(quote))?;
        start = end + 2;
    }
}
