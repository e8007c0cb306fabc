// The answers of the services as numbers: the paper's number of a fault, of a refusal and of an outcome, and a whole answer as one number.
#![tactic(auto)]

ghost use Rattle.std.specs.Prelude.{◌≡◌, Ok};
ghost use Rattle.answers.specs.Numbers.{fault_number, refusal_number, cause_number, judged_numbers, produced_numbers, answer_numbers};
ghost use Rattle.numbers.specs.Packed.{packed, wrapped};

use answers::{Answer, Cause, Fault, Refusal, Side};

// The paper's number of a fault.
pub fn fault_number(f: Fault) -> u8
    ensures { result ≡ fault_number f }
{
    match f {
        Fault::Truncated => 1,
        Fault::UnknownKind => 2,
        Fault::OutOfOrder => 3,
        Fault::LimitExceeded => 4,
        Fault::InvalidByte => 5,
        Fault::DanglingReference => 6,
        Fault::SharedNode => 7,
        Fault::TypeMismatch => 8,
        Fault::MixedClauses => 9,
        Fault::ScopeCycle => 10,
        Fault::WeightExceeded => 11,
        Fault::DependencyCycle => 12,
    }
}

// The paper's number of a refusal.
pub fn refusal_number(r: Refusal) -> u8
    ensures { result ≡ refusal_number r }
{
    match r {
        Refusal::Book(f) => fault_number(f),
        Refusal::NoSuchScope => 13,
        Refusal::BadInput => 14,
        Refusal::BufferTooSmall => 15,
        Refusal::BadCode => 16,
        Refusal::Stuck => 17,
        Refusal::BadChoice => 18,
    }
}

// The number of an outcome without values.
pub fn cause_number(c: Cause) -> u8
    ensures { result ≡ cause_number c }
{
    match c {
        Cause::Empty => 1,
        Cause::Conflict => 2,
        Cause::OutOfRange(Side::Above) => 3,
        Cause::OutOfRange(Side::Below) => 4,
    }
}

// The number of the outcome in an answer: 0 for values, and with a refusal.
pub fn answer_outcome(a: Result<Answer, Refusal>) -> u8
    ensures { result ≡ (answer_numbers a).outcome }
{
    match a {
        Ok(Answer::Values(_, _)) | Err(_) => 0,
        Ok(Answer::Ended(c, _)) => cause_number(c),
    }
}

// The length of the results in an answer: 0 without values.
pub fn answer_length(a: Result<Answer, Refusal>) -> usize
    ensures { result ≡ (answer_numbers a).length }
{
    match a {
        Ok(Answer::Values(_, l)) => l,
        Ok(Answer::Ended(_, _)) | Err(_) => 0,
    }
}

// The numbers of an answer as one: from the highest byte on, one byte of refusal, one of outcome, two of count and four of length. A count
// and a length are taken modulo the room of their places.
fn pack(refusal: u8, outcome: u8, count: usize, length: usize) -> u64
    ensures { result ≡ packed (wrapped (record { refusal = refusal; outcome = outcome; count = count; length = length })) }
{
    let count_part = ((count % 65536) as u64) * 4294967296;
    let length_part = (length % 4294967296) as u64;
    u64::from(refusal) * 72057594037927936
        + u64::from(outcome) * 281474976710656
        + count_part
        + length_part
}

// What compiling or tabulating answers, as one number.
pub fn pack_produced(p: Result<usize, Refusal>) -> u64
    ensures { result ≡ packed (wrapped (produced_numbers p)) }
{
    match p {
        Ok(n) => pack(0, 0, 0, n),
        Err(r) => pack(refusal_number(r), 0, 0, 0),
    }
}

// What judging answers, as one number.
pub fn pack_judged(j: Result<usize, Fault>) -> u64
    ensures { result ≡ packed (wrapped (judged_numbers j)) }
{
    pack_produced(j.map_err(Refusal::Book))
}

// What a run that is not refused answers, as one number.
fn pack_run(a: Answer) -> u64
    ensures { result ≡ packed (wrapped (answer_numbers (Ok a))) }
{
    match a {
        Answer::Values(n, l) => pack(0, 0, n, l),
        Answer::Ended(c, n) => pack(0, cause_number(c), n, 0),
    }
}

// What evaluating or running answers, as one number.
pub fn pack_answer(a: Result<Answer, Refusal>) -> u64
    ensures { result ≡ packed (wrapped (answer_numbers a)) }
{
    match a {
        Ok(run) => pack_run(run),
        Err(r) => pack(refusal_number(r), 0, 0, 0),
    }
}
