// The values and outcomes of the calculus.
#![tactic(auto)]

// A yes/no, or a number of 32 bits.
#[derive(Clone, Copy, PartialEq, Eq)]
pub enum Value {
    Truth(bool),
    Number(i32),
}

// What exceptions come to where none is conflict or out of range: no value, one, or more.
#[derive(Clone, Copy)]
pub enum Joined {
    Nothing,
    One(Value),
    Many,
}

#[derive(Clone, Copy)]
pub enum Unary {
    Not,
    Negate,
}

#[derive(Clone, Copy)]
pub enum Binary {
    And,
    Add,
    Subtract,
    Equal,
    Less,
}
