// Input lists: "Inputs are records too". A list is read into cells that are unset.
#![tactic(auto)]

ghost use Rattle.std.specs.Prelude.{◌≡◌, ◌≤◌, length, replicate, map};
ghost use Rattle.cells.specs.Cells.{given_of};
ghost use Rattle.book.specs.Decode.{scopes_of};
ghost use Rattle.book.specs.References.{scope_at};
ghost use Rattle.lists.specs.Inputs.{input_length, input_type, input_value, cannot_give, bad_record};
ghost use Rattle.lists.specs.Reading.{malformed, typed, Reading};

use book::ValueType;
use calculus::Value;
use cells::{cell_of, given_at};
use index::IndexedBook;
use integers::number_at;
use signatures::fill_types;
use slices::byte_at;
use types::type_of;

// How many bytes follow the kind of an input record; 0: no such kind, as in the definition. `read_by` would only have to unwrap an Option.
fn input_length(kind: u8) -> usize
    ensures { result ≡ input_length kind }
{
    match kind {
        1 => 2,
        2 => 5,
        _ => 0,
    }
}

// The type of an input record.
fn input_type(kind: u8) -> ValueType
    ensures { result ≡ input_type kind }
{
    if kind == 1 {
        ValueType::YesNo
    } else {
        ValueType::Numeric
    }
}

// The value of an input record, by its kind and the bytes after it.
fn input_value(kind: u8, rest: &[u8]) -> Value
    ensures { result ≡ input_value kind rest.now }
{
    if kind == 1 {
        Value::Truth(byte_at(rest, 1) == 1)
    } else {
        Value::Number(number_at(rest, 1))
    }
}

// Whether an input record is of no known kind, is truncated, or has a yes/no other than 0 and 1.
#[tactic(auto, unfolding(lists::specs::Reading::malformed))]
fn is_malformed(kind: u8, rest: &[u8]) -> bool
    ensures { result ≡ malformed kind rest.now }
{
    let length = input_length(kind);
    length == 0 || rest.len() < length || (kind == 1 && 1 < byte_at(rest, 1))
}

// Whether a variable cannot be given a value of a type, by the type bytes and the cells so far: there is none, it is of another type, or it is given.
pub fn cannot_give(types: &[u8], given: &[u64], t: ValueType, v: u8) -> bool
    ensures { result ≡ cannot_give (typed types.now) (map given_of given.now) t v }
{
    let at = v as usize;
    let Some(b) = types.get(at) else {
        return true;
    };
    t != type_of(*b) || given_at(given, at).is_some()
}

// Whether an input record is bad, by the type bytes, its kind, the bytes after it and the cells so far.
#[tactic(auto, using(lists::proofs::Reading::tests))]
fn is_bad(types: &[u8], given: &[u64], kind: u8, rest: &[u8]) -> bool
    ensures { result ≡ bad_record (typed types.now) (map given_of given.now) kind rest.now }
{
    is_malformed(kind, rest) || cannot_give(types, given, input_type(kind), byte_at(rest, 0))
}

// Reads the inputs into cells that are unset, by one type byte for each variable; whether the list is good.
pub fn read_by(types: &[u8], inputs: &[u8], given: &mut [u64]) -> bool
    requires types_len_bound { length types.now ≤ 32 }
    requires given_value { given.old ≡ replicate 32 0 }
    ensures { Reading (typed types.now) inputs.now result given.new }
{
    let mut at: usize = 0;
    // No index loop: the position moves by a record's length.
    while at < inputs.len() {
        let kind = inputs[at];
        let start = at + 1;
        let rest = &inputs[start..];
        if is_bad(types, given, kind, rest) {
            return false;
        }
        let v = byte_at(rest, 0) as usize;
        given[v] = cell_of(input_value(kind, rest));
        at = start + input_length(kind);
    }
    true
}

// Reads the inputs of scope i into cells that are unset; whether the list is good.
pub fn read_inputs(book: &IndexedBook, i: usize, inputs: &[u8], given: &mut [u64]) -> bool
    requires { given.old ≡ replicate 32 0 }
    ensures { Reading (scope_at (scopes_of book.now.bytes.now) i).variables inputs.now result given.new }
{
    let mut types = [0u8; 32];
    let n = fill_types(book, i, &mut types);
    read_by(&types[..n], inputs, given)
}
