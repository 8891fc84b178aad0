//! How many variables the counter takes for the most rows.

use rt_clause::{Lit, Named};
use rt_derive::Checker;
use rt_totalizer::count;

#[test]
fn two_thousand_rows(rt: HostRuntime) {
    let mut checker = Checker::new(rt.alloc());
    let mut named = Named::of(2_000, 2_000, Lit::of(0, true));
    let counter = count(rt.alloc(), 400, &mut named, &mut checker).expect(&rt, "memory");
    assert!(rt; counter.outs.len() == 400);
    // The rows, and one variable that is always true. 166 blocks of twelve rows have 12 + 2 * 6 + 4 * 3
    // + 4 * 2 = 44 outputs each, and the last one, of eight rows, 8 + 2 * 4 + 4 * 2 = 24. Each block but
    // the first is added to those before it, up to 400: 12 * (2 + .. + 33) = 6,720, and 134 times 400.
    assert!(rt; named.next() == 2_001 + 166 * 44 + 24 + 6_720 + 134 * 400);
}
