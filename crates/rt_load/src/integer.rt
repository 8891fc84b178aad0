//! Whole numbers as the fields of INTEGER columns write them (ISO/IEC 9075-2, 5.3 <signed numeric
//! literal>).

ghost use Rattle.std.specs.Prelude.{◌≡◌, ◌<◌, ◌==◌, ◌||◌};
ghost use Rattle.rt_load.specs.Integer as spec;

use rt_value::{all_digits, decimal_up_to};

fn is_blank(b: u8) -> bool
    ensures { result ≡ spec.is_blank b }
{
    b == b' ' || b == b'\t'
}

/// The bytes without the spaces and tabs around them.
pub(crate) fn trimmed(bytes: &[u8]) -> &[u8]
    ensures { result.now ≡ spec.trimmed bytes.now }
{
    trimmed_end(trimmed_start(bytes))
}

fn trimmed_start(bytes: &[u8]) -> &[u8]
    ensures { result.now ≡ spec.without_blanks bytes.now }
{
    let mut rest = bytes;
    while let [b, more @ ..] = rest
        && is_blank(*b)
    {
        rest = more;
    }
    rest
}

fn trimmed_end(bytes: &[u8]) -> &[u8]
    ensures { result.now ≡ spec.trimmed_end bytes.now }
{
    let mut to = bytes.len();
    while to > 0 && is_blank(bytes[to - 1]) {
        to -= 1;
    }
    &bytes[..to]
}

/// The number that a field without blanks around it writes, or None where it writes none from
/// -2^63 to 2^63 - 1.
pub(crate) fn integer_of(field: &[u8]) -> Option<i128>
    ensures { result ≡ spec.integer field.now }
{
    match field {
        [b'-', digits @ ..] => signed_of(true, digits),
        [b'+', digits @ ..] => signed_of(false, digits),
        digits => signed_of(false, digits),
    }
}

fn signed_of(minus: bool, digits: &[u8]) -> Option<i128>
    ensures { result ≡ spec.signed minus digits.now }
{
    if digits.is_empty() || !all_digits(digits) {
        return None;
    }
    if minus {
        let n = decimal_up_to(digits, 1 << 63)?;
        Some(-(n as i128))
    } else {
        let n = decimal_up_to(digits, (1 << 63) - 1)?;
        Some(n as i128)
    }
}
