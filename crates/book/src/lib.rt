// The syntax of a book, decoded from its records. Its definitions stand in specs/, laws about them in proofs/.
#![tactic(auto)]

ghost use Rattle.std.specs.Prelude.{◌≡◌};
ghost use Rattle.book.specs.Syntax.{type_byte};

use calculus::{Binary, Unary};

// "type: 1 yes/no, 2 number"
#[derive(Clone, Copy, PartialEq, Eq)]
pub enum ValueType {
    YesNo,
    Numeric,
}

impl From<ValueType> for u8 {
    ghost from_gives = { λ t b. b ≡ type_byte t };

    fn from(t: ValueType) -> u8 {
        match t {
            ValueType::YesNo => 1,
            ValueType::Numeric => 2,
        }
    }
}

// A variable of a scope.
#[derive(Clone, Copy)]
pub struct Variable {
    pub holds: ValueType,
}

// A node of a scope. Its numbers are those of variables, sub-scopes and nodes of the scope, as the book has them.
#[derive(Clone, Copy)]
pub enum Node {
    Constant(bool),
    Number(i32),
    Own(u8),
    Called(u8, u8),
    Empty(ValueType),
    Conflict(ValueType),
    Unary(Unary, u8),
    Binary(Binary, u8, u8),
    Choice(u8, u8, u8),
    Default(u8, u8, u8, u8, u8),
}

// What a clause gives: a definition the value of a node, a rule no or yes.
#[derive(Clone, Copy)]
pub enum Consequence {
    Of(u8),
    Fixed(bool),
}

// What a clause is about: a variable of the scope itself (sub-scope 255) or of a sub-scope.
#[derive(Clone, Copy, PartialEq, Eq)]
pub struct Target {
    pub sub: u8,
    pub variable: u8,
}

// A definition or a rule. Parent 255: none. Condition 255: always.
#[derive(Clone, Copy)]
pub struct Clause {
    pub target: Target,
    pub parent: u8,
    pub condition: u8,
    pub consequence: Consequence,
}

// What has been read: the stage of the last record, and the records counted in the book and in its last scope.
#[derive(Clone, Copy)]
pub struct Tally {
    pub stage: usize,
    pub scopes: usize,
    pub variables: usize,
    pub subs: usize,
    pub nodes: usize,
    pub clauses: usize,
}
