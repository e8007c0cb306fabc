// The directory of a code's blocks, as specs/Layout.antt sets it out: where each number stands, and its readers.
#![tactic(auto)]

ghost use Rattle.std.specs.Prelude.{◌≡◌, ◌-◌, ◌<◌, ◌≤◌, length, get_or, List, SomeIff};
ghost use Rattle.book.specs.Syntax.{type_of};
ghost use Rattle.book.specs.declared.Variable.{Variable};
ghost use Rattle.lists.specs.Reading.{Filled};
ghost use Rattle.directory.specs.Layout.{place_in, begin_in, end_in, body_in, block_weight, variables_in, sub_scopes_in, block_in, type_in, Declares};

use book::ValueType;
use slices::part_of;
use types::type_of;

// The places of 32 scopes, then a row for each block.
pub const PLACES: usize = 32;

pub const ROW: usize = 45;

// In a directory, of the first row: where a block's instructions begin and end, its weight, its variables and sub-scopes, the blocks of these, and
// the type bytes of the variables.
pub const BEGIN: usize = 32;

pub const END: usize = 33;

pub const WEIGHT: usize = 34;

pub const VARIABLES: usize = 35;

pub const SUB_SCOPES: usize = 36;

pub const BLOCKS: usize = 37;

pub const TYPES: usize = 45;

// A number, or 0 past the end.
fn entry_at(directory: &[usize], i: usize) -> usize
    ensures { result ≡ get_or directory.now i 0 }
{
    directory.get(i).copied().unwrap_or(0)
}

// The block of a scope, if it has one.
pub fn place_of(directory: &[usize], scope: usize) -> Option<usize>
    ensures { SomeIff result (0 < place_in directory.now scope) (place_in directory.now scope - 1) }
{
    if scope < PLACES {
        return entry_at(directory, scope).checked_sub(1);
    }
    None
}

// The instructions of block p.
pub fn body_of<'a>(code: &'a [u8], directory: &[usize], p: usize) -> &'a [u8]
    requires { (p < 32) × (begin_in directory.now p ≤ end_in directory.now p) }
    ensures { result.now ≡ body_in code.now directory.now p }
{
    let begin = entry_at(directory, p * ROW + BEGIN);
    let end = entry_at(directory, p * ROW + END);
    part_of(code, begin, end - begin)
}

// The weight of block p.
pub fn weight_of(directory: &[usize], p: usize) -> usize
    requires { p < 32 }
    ensures { result ≡ block_weight directory.now p }
{
    entry_at(directory, p * ROW + WEIGHT)
}

// The number of variables of block p.
pub fn variables_in(directory: &[usize], p: usize) -> usize
    requires { p < 32 }
    ensures { result ≡ variables_in directory.now p }
{
    entry_at(directory, p * ROW + VARIABLES)
}

// The number of sub-scopes of block p.
pub fn sub_scopes_in(directory: &[usize], p: usize) -> usize
    requires { p < 32 }
    ensures { result ≡ sub_scopes_in directory.now p }
{
    entry_at(directory, p * ROW + SUB_SCOPES)
}

// The block of sub-scope k of block p.
pub fn block_of(directory: &[usize], p: usize, k: usize) -> usize
    requires { (p < 32) × (k < 256) }
    ensures { result ≡ block_in directory.now p k }
{
    entry_at(directory, p * ROW + BLOCKS + k)
}

// The type byte of variable x of block p.
fn type_byte(directory: &[usize], p: usize, x: usize) -> u8
    requires { (p < 32) × (x < 256) }
    ensures { type_of result ≡ type_in directory.now p x }
{
    (entry_at(directory, p * ROW + TYPES + x) % 256) as u8
}

// The type of variable x of block p.
pub fn type_at(directory: &[usize], p: usize, x: usize) -> ValueType
    requires { (p < 32) × (x < 256) }
    ensures { result ≡ type_in directory.now p x }
{
    type_of(type_byte(directory, p, x))
}

// Fills in the type bytes of block p's variables; their number.
pub fn fill_types(directory: &[usize], p: usize, types: &mut [u8]) -> usize
    requires { (p < 32) × (variables_in directory.now p ≤ 32) × (length types.old ≡ 32) }
    ensures { (vs : List Variable) → Declares directory.now p vs → Filled vs result types.new }
{
    let count = variables_in(directory, p);
    for v in 0..count {
        types[v] = type_byte(directory, p, v);
    }
    count
}
