// The service that runs a scope of code, judging it first.
#![tactic(auto)]

ghost use Rattle.std.specs.Prelude.{◌≡◌, true, ℕ, ◌<◌, ◌≤◌, length};
ghost use Rattle.runner.specs.Rows.{begins_at, beginnings_in};
ghost use Rattle.directory.specs.Layout.{place_in};
ghost use Rattle.directory.specs.Tabled.{Room};
ghost use Rattle.runner.specs.Service.{Ready, Asked, Replied, Runs};

use answers::{Answer, Refusal};
use blocks::{Halt, run_cells};
use directory::{fill_types, place_of};
use inputs::read_by;
use record::KIND_SCOPE;
use results::{length_by, write_by};
use slices::{byte_at, part_of};
use verifier::verify;

// Runs block p, whose variables have these type bytes, with what is given, and writes the results.
fn run_block(
    code: &[u8],
    directory: &[usize],
    p: usize,
    types: &[u8],
    given: &[u64],
    results: &mut [u8],
) -> Result<Answer, Refusal>
    requires { Asked code.now directory.now p types.now given.now results.old }
    ensures { Replied code.now p given.now results.old result results.new }
{
    let mut own = [0u64; 32];
    match run_cells(code, directory, p, given, &mut own) {
        Ok(count) => {
            write_by(types.len(), &own, results);
            Ok(Answer::Values(count, length_by(types)))
        }
        Err(Halt::Ended(c, count)) => Ok(Answer::Ended(c, count)),
        Err(Halt::Stuck) => Err(Refusal::Stuck),
        // Never met: a run that has no room is made again with room that always suffices.
        Err(Halt::NoRoom) => Err(Refusal::Stuck),
    }
}

// Runs a scope of accepted code, by its directory.
fn run_accepted(
    code: &[u8],
    directory: &[usize],
    scope: usize,
    inputs: &[u8],
    results: &mut [u8],
) -> Result<Answer, Refusal>
    requires { Ready code.now directory.now }
    ensures { Runs code.now scope inputs.now results.old result results.new }
{
    let Some(p) = place_of(directory, scope) else {
        return Err(Refusal::NoSuchScope);
    };
    let mut bytes = [0u8; 32];
    let count = fill_types(directory, p, &mut bytes);
    let types = part_of(&bytes, 0, count);
    let mut given = [0u64; 32];
    if !read_by(types, inputs, &mut given) {
        return Err(Refusal::BadInput);
    }
    let length = length_by(types);
    if results.len() < length {
        return Err(Refusal::BufferTooSmall);
    }
    run_block(code, directory, p, types, &given, results)
}

// Judges code, in a directory in which nothing stands yet, and runs a scope of it.
fn run_in(
    code: &[u8],
    directory: &mut [usize],
    scope: usize,
    inputs: &[u8],
    results: &mut [u8],
) -> Result<Answer, Refusal>
    requires { Room code.now directory.old × ((i : ℕ) → place_in directory.old i ≡ 0) }
    ensures { Runs code.now scope inputs.now results.old result results.new }
{
    match verify(code, directory) {
        Some(_) => run_accepted(code, directory, scope, inputs, results),
        None => Err(Refusal::BadCode),
    }
}

// Whether the byte at a position may begin a block: the one behind it then is the number of a scope.
fn may_begin(code: &[u8], at: usize) -> bool
    requires { at < 128 }
    ensures { result ≡ begins_at code.now at }
{
    byte_at(code, at) == KIND_SCOPE && byte_at(code, at + 1) < 32
}

// How many bytes of short code may begin a block.
fn beginnings(code: &[u8]) -> usize
    requires { length code.now < 128 }
    ensures { result ≡ beginnings_in code.now }
{
    let mut count = 0;
    for at in 0..code.len() {
        if may_begin(code, at) {
            count += 1;
        }
    }
    count
}

// Whether code is seen to have at most 4 blocks: it is short, and few of its bytes may begin one. Such code needs a directory of 4 rows only.
fn has_few_blocks(code: &[u8]) -> bool
    ensures { result ≡ true → beginnings_in code.now ≤ 4 }
{
    code.len() < 128 && beginnings(code) <= 4
}

// Runs a scope of code with an input list. The results are written only where the run ends in values.
pub fn run(code: &[u8], scope: usize, inputs: &[u8], results: &mut [u8]) -> Result<Answer, Refusal>
    ensures { Runs code.now scope inputs.now results.old result results.new }
{
    if has_few_blocks(code) {
        let mut few = [0usize; 212];
        return run_in(code, &mut few, scope, inputs, results);
    }
    let mut all = [0usize; 1472];
    run_in(code, &mut all, scope, inputs, results)
}
