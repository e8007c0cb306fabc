// A variable, a joined value and an outcome as one number, a cell; slices of cells hold the variables of a scope.
#![tactic(auto)]

ghost use Rattle.std.specs.Prelude.{◌≡◌};
ghost use Rattle.cells.specs.Cells.{given_of, given_at, held};
ghost use Rattle.cells.specs.Codec.{value_cell, value_of, cause_of};
ghost use Rattle.cells.specs.Joining.{joined_of, join_cell};

use answers::{Cause, Side};
use calculus::{Joined, Value};
use integers::{bits_of, number_of};

// The cells in their order, a tag times 2 ^ 32: a value is below MANY, and what is not below EMPTY is an end with its cause.
pub const NOTHING: u64 = 0;

pub const NO: u64 = 4294967296;

pub const YES: u64 = 8589934592;

// Of the number 0: the bits of another are added.
pub const ZERO: u64 = 12884901888;

pub const MANY: u64 = 25769803776;

pub const EMPTY: u64 = 30064771072;

pub const CONFLICT: u64 = 34359738368;

pub const ABOVE: u64 = 38654705664;

pub const BELOW: u64 = 42949672960;

// The most variables of a scope: its cells.
pub const VARIABLES: usize = 32;

// The cell of a value.
#[tactic(auto, unfolding(crate::specs::Codec::value_cell))]
pub fn cell_of(v: Value) -> u64
    ensures { result ≡ value_cell v }
{
    match v {
        Value::Truth(b) => if b { YES } else { NO },
        Value::Number(n) => ZERO + (bits_of(n) as u64),
    }
}

// The cause of an end's cell.
#[tactic(auto, unfolding(crate::specs::Codec::cause_of))]
pub fn cause_of(c: u64) -> Cause
    ensures { result ≡ cause_of c }
{
    if c < CONFLICT {
        return Cause::Empty;
    }
    if c < ABOVE {
        return Cause::Conflict;
    }
    if c < BELOW {
        return Cause::OutOfRange(Side::Above);
    }
    Cause::OutOfRange(Side::Below)
}

// What a value's cell holds.
#[tactic(auto, unfolding(crate::specs::Codec::value_of))]
pub fn value_in(c: u64) -> Value
    ensures { result ≡ value_of c }
{
    if c < ZERO {
        return Value::Truth(c == YES);
    }
    Value::Number(number_of((c % 4294967296) as u32))
}

// What a variable's cell holds.
#[tactic(auto, unfolding(crate::specs::Cells::given_of))]
fn given_of(c: u64) -> Option<Value>
    ensures { result ≡ given_of c }
{
    if c == NOTHING {
        return None;
    }
    Some(value_in(c))
}

// What the cell at a place holds; past the end nothing.
#[tactic(auto, using(std::proofs::lemmas::Option::gets), unfolding(crate::specs::Cells::given_at, crate::specs::Cells::given_of))]
pub fn given_at(cells: &[u64], at: usize) -> Option<Value>
    ensures { result ≡ given_at cells.now at }
{
    given_of(*cells.get(at)?)
}

// What a variable holds; where it is not set, no.
pub fn value_of(g: Option<Value>) -> Value
    ensures { result ≡ held g }
{
    g.unwrap_or(Value::Truth(false))
}

// What a joined cell holds.
#[tactic(auto, unfolding(crate::specs::Joining::joined_of))]
pub fn joined_of(c: u64) -> Joined
    ensures { result ≡ joined_of c }
{
    if c == NOTHING {
        return Joined::Nothing;
    }
    if c < MANY {
        return Joined::One(value_in(c));
    }
    Joined::Many
}

// What two found exceptions come to together, the left one found first: the nine cases of nothing, a value and many on each side, by the left
// side. The definition `join` has those without many first.
pub fn join(a: u64, b: u64) -> u64
    ensures { result ≡ join_cell a b }
{
    match (joined_of(a), joined_of(b)) {
        (Joined::Nothing, Joined::Nothing) => NOTHING,
        (Joined::Nothing, Joined::One(_)) => b,
        (Joined::Nothing, Joined::Many) => MANY,
        (Joined::One(_), Joined::Nothing) => a,
        (Joined::One(_), Joined::One(_)) => MANY, // where figure 10 raises
        (Joined::One(_), Joined::Many) => MANY,
        (Joined::Many, Joined::Nothing) => MANY,
        (Joined::Many, Joined::One(_)) => MANY,
        (Joined::Many, Joined::Many) => MANY,
    }
}
