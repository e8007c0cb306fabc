// The services as functions that C and Rust can call. A slice is passed as a pointer and a length.
#![tactic(auto)]

ghost use Rattle.std.specs.Prelude.{◌≡◌, length};
ghost use Rattle.book.specs.Judge.{judge as Judge·judge};
ghost use Rattle.answers.specs.Numbers.{judged_numbers};
ghost use Rattle.numbers.specs.Packed.{Says};
ghost use Rattle.capi.specs.Packed.{PackedCompilation, PackedEvaluation, PackedRun, PackedTabulation};

use engine::{compile, evaluate, judge, run, tabulate};
use numbers::{pack_answer, pack_judged, pack_produced};

// Judges a book: refusal * 2^56 + number of scopes.
#[unsafe(no_mangle)]
pub extern "C" fn engine_judge(book: &[u8]) -> u64
    ensures { Says (judged_numbers (Judge·judge book.now)) result }
{
    pack_judged(judge(book))
}

// Compiles a book: refusal * 2^56 + length of the code; a refusal leaves every byte of the memory as it was.
#[unsafe(no_mangle)]
pub extern "C" fn engine_compile(book: &[u8], code: &mut [u8]) -> u64
    ensures { PackedCompilation book.now code.old result code.new }
{
    pack_produced(compile(book, code))
}

// Evaluates a scope: refusal * 2^56 + outcome * 2^48 + count * 2^32 + length; results are written where the run ends in values.
#[unsafe(no_mangle)]
pub extern "C" fn engine_evaluate(
    book: &[u8],
    scope: usize,
    inputs: &[u8],
    results: &mut [u8],
) -> u64
    ensures { PackedEvaluation book.now scope inputs.now results.old result results.new }
{
    pack_answer(evaluate(book, scope, inputs, results))
}

// Runs a scope of code, judging the code first: as engine_evaluate.
#[unsafe(no_mangle)]
pub extern "C" fn engine_run(code: &[u8], scope: usize, inputs: &[u8], results: &mut [u8]) -> u64
    ensures { PackedRun code.now scope inputs.now results.old result results.new }
{
    pack_answer(run(code, scope, inputs, results))
}

// Tabulates a scope for the chosen variables with a fixed input list: refusal * 2^56 + length of the table; a refusal leaves every byte of the
// memory as it was.
#[unsafe(no_mangle)]
pub extern "C" fn engine_tabulate(
    book: &[u8],
    scope: usize,
    chosen: &[u8],
    inputs: &[u8],
    table: &mut [u8],
) -> u64
    ensures { PackedTabulation book.now scope chosen.now inputs.now table.old result table.new }
{
    pack_produced(tabulate(book, scope, chosen, inputs, table))
}
