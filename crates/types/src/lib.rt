// Types of values: of a type byte, and of what the operators take and give.
#![tactic(auto)]

ghost use Rattle.std.specs.Prelude.{◌≡◌};
ghost use Rattle.book.specs.Syntax.{type_of};
ghost use Rattle.book.specs.Typing.{unary_type, operand_type};

use book::ValueType;
use calculus::{Binary, Unary};

// The type of a type byte.
pub fn type_of(b: u8) -> ValueType
    ensures { result ≡ type_of b }
{
    if b == 1 {
        ValueType::YesNo
    } else {
        ValueType::Numeric
    }
}

// What a unary operator takes and gives.
pub fn unary_type(op: Unary) -> ValueType
    ensures { result ≡ unary_type op }
{
    match op {
        Unary::Not => ValueType::YesNo,
        Unary::Negate => ValueType::Numeric,
    }
}

// What a binary operator takes, its left operand's type given.
pub fn operand_type(op: Binary, left: ValueType) -> ValueType
    ensures { result ≡ operand_type op left }
{
    match op {
        Binary::And => ValueType::YesNo,
        Binary::Add | Binary::Subtract | Binary::Less => ValueType::Numeric,
        Binary::Equal => left,
    }
}
