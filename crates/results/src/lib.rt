// Results: "the same records, all variables of the scope in number order". Their length, and writing them from cells.
#![tactic(auto)]

ghost use Rattle.std.specs.Prelude.{◌≡◌, ◌+◌, ◌≤◌, length};
ghost use Rattle.book.specs.Decode.{scopes_of};
ghost use Rattle.book.specs.References.{scope_at};
ghost use Rattle.lists.specs.Results.{result_size, result_length, result_record};
ghost use Rattle.lists.specs.Results.{results as results·of};
ghost use Rattle.lists.specs.Reading.{typed};
ghost use Rattle.lists.specs.Writing.{result_length_at, result_memory, values_of, written, Typed, Put};

use book::ValueType;
use calculus::Value;
use cells::{given_at, value_of};
use index::IndexedBook;
use integers::put_number;
use signatures::fill_types;
use slices::put_byte;
use types::type_of;

// "3 bytes a yes/no, 6 a number"
fn result_size(t: ValueType) -> usize
    ensures { result ≡ result_size t }
{
    match t {
        ValueType::YesNo => 3,
        ValueType::Numeric => 6,
    }
}

// The length of the results, by one type byte for each variable.
pub fn length_by(types: &[u8]) -> usize
    requires { length types.now ≤ 32 }
    ensures { result ≡ result_length (typed types.now) }
{
    types.iter().map(|t| result_size(type_of(*t))).sum()
}

// The length of the results of scope i.
#[tactic(auto, unfolding(lists::specs::Writing::result_length_at))]
pub fn result_length(book: &IndexedBook, i: usize) -> usize
    ensures { result ≡ result_length_at (scopes_of book.now.bytes.now) i }
{
    let mut types = [0u8; 32];
    let n = fill_types(book, i, &mut types);
    length_by(&types[..n])
}

// Writes the record of variable v at a position; the position after it.
fn put_result(results: &mut [u8], at: usize, v: u8, value: Value) -> usize
    requires { at + length (result_record v value) ≤ length results.old }
    ensures { Put results.old at (result_record v value) result results.new }
{
    match value {
        Value::Truth(b) => {
            put_byte(results, at, 1);
            put_byte(results, at + 1, v);
            put_byte(results, at + 2, u8::from(b));
            at + 3
        }
        Value::Number(n) => {
            put_byte(results, at, 2);
            put_byte(results, at + 1, v);
            put_number(results, at + 2, n);
            at + 6
        }
    }
}

// Writes the results: a record for each of n variables, from the cells that hold their values.
pub fn write_by(n: usize, own: &[u64], results: &mut [u8])
    requires n_bound { n ≤ 32 }
    requires n_in_bounds { length (results·of (values_of own.now n)) ≤ length results.old }
    ensures { results.new ≡ written (values_of own.now n) results.old }
{
    let mut at = 0;
    for v in 0..n {
        at = put_result(results, at, v as u8, value_of(given_at(own, v)));
    }
}

// Writes the results of scope i: a record for each of its variables, from the cells that hold their values.
#[tactic(auto, using(lists::proofs::Values::typed_length), unfolding(lists::specs::Writing::result_length_at, lists::specs::Writing::result_memory))]
pub fn write_results(book: &IndexedBook, i: usize, own: &[u64], results: &mut [u8])
    requires typed { Typed (scope_at (scopes_of book.now.bytes.now) i).variables own.now }
    requires i_in_bounds { result_length_at (scopes_of book.now.bytes.now) i ≤ length results.old }
    ensures { results.new ≡ result_memory (scopes_of book.now.bytes.now) i own.now results.old }
{
    write_by(book.variable_count(i), own, results);
}
