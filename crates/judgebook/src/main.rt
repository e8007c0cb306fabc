// Judges the book on standard input: prints `accepted N`, the number of its scopes, or `refused R`, the number of the first fault.
#![tactic(auto)]

use answers::Fault;
use judge::judge;
use numbers::fault_number;
use std::env::{Env, FillError};
use std::io::{self, Read};

// One byte more than a book may have is read: a longer one is refused whatever follows.
const MOST: u64 = 32769;

// `std::env::args` is no plainer: it copies each argument to the heap, and fails where one is not UTF-8.
fn has_arguments(rt: &impl Env) -> bool {
    let mut first = [0u8; 1];
    !matches!(rt.arg(1, &mut first), Err(FillError::NotPresent))
}

fn print_judged(rt: &impl Print, j: Result<usize, Fault>) -> io::Result<()> {
    match j {
        Ok(n) => println!(rt; "accepted {n}"),
        Err(f) => println!(rt; "refused {}", fault_number(f)),
    }
}

// With arguments it says on standard error what it reads, and ends well. A read or a write that fails ends it with an error.
fn main(rt: HostRuntime) -> io::Result<()> {
    if has_arguments(&rt) {
        return eprintln!(rt; "judgebook takes no arguments: it reads a book from standard input");
    }
    let mut book = Vec::new(rt.alloc());
    rt.stdin().take(MOST).read_to_end(&mut book)?;
    print_judged(&rt, judge(&book))
}
