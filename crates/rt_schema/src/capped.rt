//! Arithmetic on counts of work that stops at 2^127 - 1 and never overflows.

ghost use Rattle.std.specs.Prelude.{◌≡◌, ◌+◌, ◌*◌};
ghost use Rattle.rt_schema.specs.Capped.{capped};

// Where a count of work stops.
const MOST: u128 = (1 << 127) - 1;

/// The sum of two counts of work, or 2^127 - 1 where it is more.
pub fn capped_add(a: u128, b: u128) -> u128
    ensures { result ≡ capped (a + b) }
{
    match a.checked_add(b) {
        Some(sum) => sum.min(MOST),
        None => MOST,
    }
}

/// The product of two counts of work, or 2^127 - 1 where it is more.
pub fn capped_mul(a: u128, b: u128) -> u128
    ensures { result ≡ capped (a * b) }
{
    match a.checked_mul(b) {
        Some(product) => product.min(MOST),
        None => MOST,
    }
}
