//! Arithmetic of values.

use rt_value::{Value, add, mul, sub};

#[test]
fn a_sum_a_difference_and_a_product(rt: HostRuntime) {
    let seven = Value::Int(7);
    let less = Value::Int(-2);
    assert!(rt; add(&seven, &less) == Value::Int(5));
    assert!(rt; sub(&seven, &less) == Value::Int(9));
    assert!(rt; mul(&seven, &less) == Value::Int(-14));
}

#[test]
fn null_makes_null(rt: HostRuntime) {
    let seven = Value::Int(7);
    assert!(rt; add(&Value::Null, &seven) == Value::Null);
    assert!(rt; sub(&seven, &Value::Null) == Value::Null);
    assert!(rt; mul(&Value::Null, &Value::Null) == Value::Null);
}
