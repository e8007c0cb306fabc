// The operators on values. Each result equals a definition of the calculus.
#![tactic(auto)]

ghost use Rattle.std.specs.Prelude.{◌≡◌, nat_abs};
ghost use Rattle.calculus.specs.Values.{truth_of, number_of, ranged};
ghost use Rattle.calculus.specs.Operators.{unary_of, binary_of};
ghost use Rattle.operators.specs.Kinds.{operator};

use answers::{Cause, Side};
use calculus::{Binary, Unary, Value};
use record::{KIND_ADD, KIND_AND, KIND_EQUAL, KIND_SUBTRACT};

// A yes/no itself; of a number, no.
pub fn truth_of(v: Value) -> bool
    ensures { result ≡ truth_of v }
{
    match v {
        Value::Truth(b) => b,
        Value::Number(_) => false,
    }
}

// A number itself; of a yes/no, 0.
fn number_of(v: Value) -> i64
    ensures { result ≡ number_of v }
{
    match v {
        Value::Truth(_) => 0,
        Value::Number(n) => i64::from(n),
    }
}

// How far a number is from 0.
pub fn magnitude(n: i32) -> u64
    ensures { result ≡ nat_abs n }
{
    u64::from(n.unsigned_abs())
}

// The number, or the side on which it is out of range.
fn in_range(z: i64) -> Result<Value, Cause>
    ensures { result ≡ ranged z }
{
    match i32::try_from(z) {
        Ok(n) => Ok(Value::Number(n)),
        Err(_) if z < 0 => Err(Cause::OutOfRange(Side::Below)),
        Err(_) => Err(Cause::OutOfRange(Side::Above)),
    }
}

// The operator of a kind with two operands.
#[tactic(auto, unfolding(crate::specs::Kinds::operator))]
pub fn operator_of(kind: u8) -> Binary
    ensures { result ≡ operator kind }
{
    match kind {
        KIND_AND => Binary::And,
        KIND_ADD => Binary::Add,
        KIND_SUBTRACT => Binary::Subtract,
        KIND_EQUAL => Binary::Equal,
        // Less: no other kind has two operands.
        _ => Binary::Less,
    }
}

// An operator on values.
pub fn apply_unary(op: Unary, v: Value) -> Result<Value, Cause>
    ensures { result ≡ unary_of op v }
{
    match op {
        Unary::Not => Ok(Value::Truth(!truth_of(v))),
        Unary::Negate => in_range(-number_of(v)),
    }
}

pub fn apply_binary(op: Binary, v: Value, w: Value) -> Result<Value, Cause>
    ensures { result ≡ binary_of op v w }
{
    let x = number_of(v);
    let y = number_of(w);
    match op {
        Binary::And => Ok(Value::Truth(truth_of(v) & truth_of(w))),
        Binary::Add => in_range(x + y),
        Binary::Subtract => in_range(x - y),
        Binary::Equal => Ok(Value::Truth(v == w)),
        Binary::Less => Ok(Value::Truth(x < y)),
    }
}
