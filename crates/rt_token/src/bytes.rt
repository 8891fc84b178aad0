//! Classes of bytes, and how many bytes of a class a text begins with. Loops are private to this
//! module: `lexeme` knows them by their values alone.

ghost use Rattle.std.specs.Prelude.{◌≡◌, ◌≤◌, ◌==◌, length, not, drop, slice_index, IfSome};
ghost use Rattle.std.specs.Char.{is_ascii_digit};
ghost use Rattle.std.specs.List.{prefix_len};
ghost use Rattle.rt_token.specs.Lexed as spec;

/// Whether the byte is a space, a tab, LF, CR or a form feed.
pub(crate) fn is_space(b: u8) -> bool
    ensures { result ≡ spec.is_space b }
{
    b == b' ' || b == b'\t' || b == b'\n' || b == b'\r' || b == 12
}

/// Whether the byte is a letter of ASCII or `_`.
pub(crate) fn is_letter(b: u8) -> bool
    ensures { result ≡ spec.is_letter b }
{
    b.is_ascii_alphabetic() || b == b'_'
}

fn is_word_byte(b: u8) -> bool
    ensures { result ≡ spec.is_word_byte b }
{
    b.is_ascii_alphanumeric() || b == b'_'
}

/// The byte at a place, or 0 past the end.
pub(crate) fn byte_at(z: &[u8], at: usize) -> u8
    ensures { result ≡ slice_index z.now at }
{
    if at < z.len() { z[at] } else { 0 }
}

/// The bytes from a place on.
pub(crate) fn rest(z: &[u8], at: usize) -> &[u8]
    requires { at ≤ length z.now }
    ensures { result.now ≡ drop at z.now }
{
    z.split_at(at).1
}

/// How many letters, digits and `_` there are at the front.
pub(crate) fn word_len(z: &[u8]) -> usize
    ensures value { result ≡ prefix_len spec.is_word_byte z.now }
    ensures within { result ≤ length z.now }
{
    let mut n = 0;
    while n < z.len() && is_word_byte(z[n]) {
        n += 1;
    }
    n
}

/// How many digits there are at the front.
pub(crate) fn digits_len(z: &[u8]) -> usize
    ensures value { result ≡ prefix_len is_ascii_digit z.now }
    ensures within { result ≤ length z.now }
{
    let mut n = 0;
    while n < z.len() && z[n].is_ascii_digit() {
        n += 1;
    }
    n
}

/// How many bytes there are before the line's end.
pub(crate) fn line_len(z: &[u8]) -> usize
    ensures value { result ≡ prefix_len spec.is_before_line_end z.now }
    ensures within { result ≤ length z.now }
{
    let mut n = 0;
    while n < z.len() && z[n] != b'\n' {
        n += 1;
    }
    n
}

/// How many bytes there are before the first quote.
pub(crate) fn plain_len(quote: u8, z: &[u8]) -> usize
    ensures value { result ≡ prefix_len (λ c. not (c == quote)) z.now }
    ensures within { result ≤ length z.now }
{
    let mut n = 0;
    while n < z.len() && z[n] != quote {
        n += 1;
    }
    n
}

/// How many bytes there are up to and with the first `*/`.
pub(crate) fn comment_end(text: &[u8]) -> Option<usize>
    ensures value { result ≡ spec.comment_end text.now }
    ensures within { IfSome result (λ n. n ≤ length text.now) }
{
    let mut n = 0;
    let mut z = text;
    while let [c, d, ..] = z {
        if *c == b'*' && *d == b'/' {
            return Some(n + 2);
        }
        n += 1;
        z = &z[1..];
    }
    None
}
