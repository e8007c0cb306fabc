// Evaluates standard input: book length (2 bytes, high first), book, scope byte, inputs. Prints the outcome and the count of scopes
// entered, then number and value of each variable.
#![tactic(auto)]

ghost use Rattle.std.specs.Prelude.{◌<◌};

use engine::{Answer, Refusal, evaluate, refusal_number};
use integers::{distance_at, number_at};
use slices::{byte_at, part_of};
use std::env::{Env, FillError};
use std::io::{self, Read};

// The longest book that two bytes can announce, the scope, and one byte more of inputs than a good list can have.
const MOST: u64 = 65731;

// A line with the variable's number and value, from a result record.
fn print_result(rt: &impl Print, record: &[u8]) -> io::Result<()> {
    let variable = byte_at(record, 1);
    if byte_at(record, 0) == 2 {
        return println!(rt; "{variable} {}", number_at(record, 2));
    }
    let word = if byte_at(record, 2) == 1 { "yes" } else { "no" };
    println!(rt; "{variable} {word}")
}

// The bytes of the result record at the front: six of a number, three of a yes/no.
fn record_length(results: &[u8]) -> usize
    ensures { 0 < result }
{
    if byte_at(results, 0) == 2 { 6 } else { 3 }
}

// A line for each result record. How long a record is stands in its first byte, so this is no loop over an index.
fn print_results(rt: &impl Print, results: &[u8]) -> io::Result<()> {
    let mut rest = results;
    while !rest.is_empty() {
        print_result(rt, rest)?;
        rest = part_of(rest, record_length(rest), rest.len());
    }
    Ok(())
}

// "outcome and count, then number and value of each variable"; "Other first lines: `conflict N`, `range N`, `refused R`", and in place of
// `range N` it is `above N` or `below N`.
fn print_answer(rt: &impl Print, a: Result<Answer, Refusal>, results: &[u8]) -> io::Result<()> {
    match a {
        Ok(Answer::Values(count, length)) => {
            println!(rt; "value {count}")?;
            print_results(rt, part_of(results, 0, length))
        }
        Ok(Answer::Ended(c, count)) => println!(rt; "{c} {count}"),
        Err(r) => println!(rt; "refused {}", refusal_number(r)),
    }
}

// "evaluates standard input: book length (2 bytes, high first), book, scope byte, inputs"; "Missing bytes print `refused 1`": those of length,
// book or scope.
fn run(rt: &impl Print, input: &[u8]) -> io::Result<()> {
    let length = distance_at(input, 0);
    if input.len() < 3 || input.len() - 3 < length {
        return println!(rt; "refused 1");
    }
    let book = part_of(input, 2, length);
    let scope = byte_at(input, length + 2) as usize;
    let inputs = part_of(input, length + 3, 193);
    let mut results = [0u8; 192];
    let answer = evaluate(book, scope, inputs, &mut results);
    print_answer(rt, answer, &results)
}

// `std::env::args` is no plainer: it copies each argument to the heap, and fails where one is not UTF-8.
fn has_arguments(rt: &impl Env) -> bool {
    let mut first = [0u8; 1];
    !matches!(rt.arg(1, &mut first), Err(FillError::NotPresent))
}

// With arguments it says on standard error what it reads, and ends well. A read or a write that fails ends it with an error.
fn main(rt: HostRuntime) -> io::Result<()> {
    if has_arguments(&rt) {
        return eprintln!(rt;
            "rulerun takes no arguments: it reads book length, book, scope and inputs from standard input"
        );
    }
    let mut input = Vec::new(rt.alloc());
    rt.stdin().take(MOST).read_to_end(&mut input)?;
    run(&rt, &input)
}
