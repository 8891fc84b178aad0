//! Addition, subtraction and multiplication of SQL, in which NULL with anything is NULL.
//! A caller shows that the result fits `i128`; nothing here is checked at run time.

ghost use Rattle.std.specs.Prelude.{◌≡◌, ◌+ℤ◌, ◌-ℤ◌, ◌*ℤ◌};
ghost use Rattle.rt_value.specs.Arith.{arith, CanArith};

use crate::value::Value;

/// The sum, and NULL where either is NULL. The sum has to fit 128 bits.
pub fn add(a: &Value, b: &Value) -> Value
    requires { CanArith ◌+ℤ◌ a.now b.now }
    ensures { result ≡ arith ◌+ℤ◌ a.now b.now }
{
    match (a, b) {
        (Value::Int(x), Value::Int(y)) => Value::Int(*x + *y),
        _ => Value::Null,
    }
}

/// The difference, and NULL where either is NULL. The difference has to fit 128 bits.
pub fn sub(a: &Value, b: &Value) -> Value
    requires { CanArith ◌-ℤ◌ a.now b.now }
    ensures { result ≡ arith ◌-ℤ◌ a.now b.now }
{
    match (a, b) {
        (Value::Int(x), Value::Int(y)) => Value::Int(*x - *y),
        _ => Value::Null,
    }
}

/// The product, and NULL where either is NULL. The product has to fit 128 bits.
pub fn mul(a: &Value, b: &Value) -> Value
    requires { CanArith ◌*ℤ◌ a.now b.now }
    ensures { result ≡ arith ◌*ℤ◌ a.now b.now }
{
    match (a, b) {
        (Value::Int(x), Value::Int(y)) => Value::Int(*x * *y),
        _ => Value::Null,
    }
}
