// The trial strips a to m, each a book of one scope that the engine evaluates: a line each, its letter and what it gives.
#![tactic(auto)]

use engine::{Answer, Refusal, evaluate, refusal_number};
use integers::number_at;
use std::io;

// Each book: a scope with one number variable; the nodes of the strip, a line each; the variable's definition, by the last node. "big is
// 2,147,483,647".

// a [ | yes : 5]: yes; 5; a default without exceptions.
const A: [u8; 22] = *b"\x01\x02\x02\
    \x04\x01\
    \x05\x00\x00\x00\x05\
    \x12\xFF\xFF\xFF\x00\x01\
    \x13\xFF\x00\xFF\xFF\x02";

// b [ | no : 5]: no; 5; a default without exceptions.
const B: [u8; 22] = *b"\x01\x02\x02\
    \x04\x00\
    \x05\x00\x00\x00\x05\
    \x12\xFF\xFF\xFF\x00\x01\
    \x13\xFF\x00\xFF\xFF\x02";

// c [7 | no : 5]: 7; no; 5; a default with one exception.
const C: [u8; 27] = *b"\x01\x02\x02\
    \x05\x00\x00\x00\x07\
    \x04\x00\
    \x05\x00\x00\x00\x05\
    \x12\x00\xFF\xFF\x01\x02\
    \x13\xFF\x00\xFF\xFF\x03";

// d [empty, 7 | yes : 5]: empty; 7; yes; 5; a default with two exceptions.
const D: [u8; 29] = *b"\x01\x02\x02\
    \x08\x02\
    \x05\x00\x00\x00\x07\
    \x04\x01\
    \x05\x00\x00\x00\x05\
    \x12\x00\x01\xFF\x02\x03\
    \x13\xFF\x00\xFF\xFF\x04";

// e [7, 7 | yes : 5]: 7; 7; yes; 5; a default with two exceptions.
const E: [u8; 32] = *b"\x01\x02\x02\
    \x05\x00\x00\x00\x07\
    \x05\x00\x00\x00\x07\
    \x04\x01\
    \x05\x00\x00\x00\x05\
    \x12\x00\x01\xFF\x02\x03\
    \x13\xFF\x00\xFF\xFF\x04";

// f [empty | empty : 5]: an empty number; an empty yes/no; 5; a default with one exception.
const F: [u8; 24] = *b"\x01\x02\x02\
    \x08\x02\
    \x08\x01\
    \x05\x00\x00\x00\x05\
    \x12\x00\xFF\xFF\x01\x02\
    \x13\xFF\x00\xFF\xFF\x03";

// g [[ | no : 1] | yes : 2]: no; 1; the inner default; yes; 2; the outer default, whose exception it is.
const G: [u8; 35] = *b"\x01\x02\x02\
    \x04\x00\
    \x05\x00\x00\x00\x01\
    \x12\xFF\xFF\xFF\x00\x01\
    \x04\x01\
    \x05\x00\x00\x00\x02\
    \x12\x02\xFF\xFF\x03\x04\
    \x13\xFF\x00\xFF\xFF\x05";

// h [conflict, big+1 | yes : 5]: conflict; big; 1; their sum; yes; 5; a default with two exceptions.
const H: [u8; 37] = *b"\x01\x02\x02\
    \x09\x02\
    \x05\x7F\xFF\xFF\xFF\
    \x05\x00\x00\x00\x01\
    \x0D\x01\x02\
    \x04\x01\
    \x05\x00\x00\x00\x05\
    \x12\x00\x03\xFF\x04\x05\
    \x13\xFF\x00\xFF\xFF\x06";

// i [1, 2, big+1 | yes : 5]: 1; 2; big; 1; the sum of these two; yes; 5; a default with three exceptions.
const I: [u8; 45] = *b"\x01\x02\x02\
    \x05\x00\x00\x00\x01\
    \x05\x00\x00\x00\x02\
    \x05\x7F\xFF\xFF\xFF\
    \x05\x00\x00\x00\x01\
    \x0D\x02\x03\
    \x04\x01\
    \x05\x00\x00\x00\x05\
    \x12\x00\x01\x04\x05\x06\
    \x13\xFF\x00\xFF\xFF\x07";

// j empty + conflict: empty; conflict; their sum.
const J: [u8; 16] = *b"\x01\x02\x02\
    \x08\x02\
    \x09\x02\
    \x0D\x00\x01\
    \x13\xFF\x00\xFF\xFF\x02";

// k conflict + empty: conflict; empty; their sum.
const K: [u8; 16] = *b"\x01\x02\x02\
    \x09\x02\
    \x08\x02\
    \x0D\x00\x01\
    \x13\xFF\x00\xFF\xFF\x02";

// l negate -2,147,483,648: the number; its negation.
const L: [u8; 16] = *b"\x01\x02\x02\
    \x05\x80\x00\x00\x00\
    \x0B\x00\
    \x13\xFF\x00\xFF\xFF\x01";

// l (big-1)+1: big-1; 1; their sum.
const L_TOO: [u8; 22] = *b"\x01\x02\x02\
    \x05\x7F\xFF\xFF\xFE\
    \x05\x00\x00\x00\x01\
    \x0D\x00\x01\
    \x13\xFF\x00\xFF\xFF\x02";

// m given 9 where the definition is conflict: conflict.
const M: [u8; 11] = *b"\x01\x02\x02\
    \x09\x02\
    \x13\xFF\x00\xFF\xFF\x00";

// The variable is 9.
const GIVEN: [u8; 6] = *b"\x02\x00\x00\x00\x00\x09";

// A space, and the variable's value or why it has none.
fn print_answer(rt: &impl Print, a: Result<Answer, Refusal>, results: &[u8]) -> io::Result<()> {
    match a {
        Ok(Answer::Values(_, _)) => print!(rt; " {}", number_at(results, 2)),
        Ok(Answer::Ended(c, _)) => print!(rt; " {c}"),
        // Never met: each book is accepted.
        Err(r) => print!(rt; " refused {}", refusal_number(r)),
    }
}

// Scope 0 of a book, with inputs.
fn print_evaluated(rt: &impl Print, book: &[u8], inputs: &[u8]) -> io::Result<()> {
    let mut results = [0u8; 6];
    let answer = evaluate(book, 0, inputs, &mut results);
    print_answer(rt, answer, &results)
}

// A line: the letter, and what its book gives with nothing given.
fn print_strip(rt: &impl Print, letter: &str, book: &[u8]) -> io::Result<()> {
    print!(rt; "{letter}")?;
    print_evaluated(rt, book, b"")?;
    println!(rt)
}

// Strips a to i: defaults.
fn print_defaults(rt: &impl Print) -> io::Result<()> {
    print_strip(rt, "a", &A)?;
    print_strip(rt, "b", &B)?;
    print_strip(rt, "c", &C)?;
    print_strip(rt, "d", &D)?;
    print_strip(rt, "e", &E)?;
    print_strip(rt, "f", &F)?;
    print_strip(rt, "g", &G)?;
    print_strip(rt, "h", &H)?;
    print_strip(rt, "i", &I)
}

// Strips j to m: operators, and a given variable.
fn print_operators(rt: &impl Print) -> io::Result<()> {
    print_strip(rt, "j", &J)?;
    print_strip(rt, "k", &K)?;
    print!(rt; "l")?;
    print_evaluated(rt, &L, b"")?;
    print_evaluated(rt, &L_TOO, b"")?;
    println!(rt)?;
    print!(rt; "m")?;
    print_evaluated(rt, &M, &GIVEN)?;
    println!(rt)
}

// A write that fails ends it with an error.
fn main(rt: HostRuntime) -> io::Result<()> {
    print_defaults(&rt)?;
    print_operators(&rt)
}
