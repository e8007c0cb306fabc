// Evaluating a scope of a book: the service.
#![tactic(auto)]

ghost use Rattle.scan.specs.Filling.{Unfilled};
ghost use Rattle.links.specs.Links.{Blanks};
ghost use Rattle.loaded.specs.Loaded.{Replied};
ghost use Rattle.evaluator.specs.Service.{Tabled, Asked, Evaluated};

use answers::{Answer, Refusal};
use cells::VARIABLES;
use index::IndexedBook;
use inputs::read_inputs;
use judge::load;
use links::fill_all_links;
use loaded::run_loaded;
use results::result_length;
use scan::has_few_scopes;

// Runs scope i of an accepted book with what is given, and writes the results. No link is set yet. Few rows are kept where there are few
// scopes.
fn run_in(
    book: &IndexedBook,
    orders: &[u8],
    i: usize,
    given: &[u64],
    links: &mut [u8],
    results: &mut [u8],
) -> Result<Answer, Refusal>
    requires asked { Asked book.now.bytes.now book.now.index.now orders.now book.now.scopes i given.now results.old }
    requires blanks { Blanks book.now.bytes.now book.now.index.now book.now.scopes links.old }
    ensures { Replied book.now.bytes.now i given.now results.old result results.new }
{
    fill_all_links(book, links);
    if book.scopes <= 1 {
        let mut row = [0u64; 33];
        return run_loaded(book, links, orders, i, given, &mut row, results);
    }
    if book.scopes <= 8 {
        let mut few = [0u64; 264];
        return run_loaded(book, links, orders, i, given, &mut few, results);
    }
    let mut all = [0u64; 1056];
    run_loaded(book, links, orders, i, given, &mut all, results)
}

// Runs scope i of an accepted book with what is given, and writes the results: with few links where there are few scopes.
fn run(
    book: &IndexedBook,
    orders: &[u8],
    i: usize,
    given: &[u64],
    results: &mut [u8],
) -> Result<Answer, Refusal>
    requires { Asked book.now.bytes.now book.now.index.now orders.now book.now.scopes i given.now results.old }
    ensures { Replied book.now.bytes.now i given.now results.old result results.new }
{
    if book.scopes <= 1 {
        let mut row = [255u8; 834];
        return run_in(book, orders, i, given, &mut row, results);
    }
    if book.scopes <= 8 {
        let mut few = [255u8; 6672];
        return run_in(book, orders, i, given, &mut few, results);
    }
    let mut all = [255u8; 26688];
    run_in(book, orders, i, given, &mut all, results)
}

// Evaluates scope i of an accepted book.
fn evaluate_accepted(
    book: &IndexedBook,
    orders: &[u8],
    i: usize,
    inputs: &[u8],
    results: &mut [u8],
) -> Result<Answer, Refusal>
    requires { Tabled book.now.bytes.now book.now.index.now orders.now book.now.scopes }
    ensures { Evaluated book.now.bytes.now i inputs.now results.old result results.new }
{
    if book.scopes <= i {
        return Err(Refusal::NoSuchScope);
    }
    let mut given = [0u64; VARIABLES];
    if !read_inputs(book, i, inputs, &mut given) {
        return Err(Refusal::BadInput);
    }
    let length = result_length(book, i);
    if results.len() < length {
        return Err(Refusal::BufferTooSmall);
    }
    run(book, orders, i, &given, results)
}

// Evaluates a scope of a book with an empty index.
fn evaluate_in(
    book: &[u8],
    index: &mut [u16],
    scope: usize,
    inputs: &[u8],
    results: &mut [u8],
) -> Result<Answer, Refusal>
    requires { Unfilled book.now index.old }
    ensures { Evaluated book.now scope inputs.now results.old result results.new }
{
    let mut blocks = [0u8; 32];
    let mut weights = [0u16; 32];
    let mut orders = [0u8; 1280];
    let scopes = load(book, index, &mut blocks, &mut weights, &mut orders)?;
    let indexed = IndexedBook {
        bytes: book,
        index,
        scopes,
    };
    evaluate_accepted(&indexed, &orders, scope, inputs, results)
}

// Evaluates a scope of a book with an input list. The results are written only where the run ends in values.
pub fn evaluate(
    book: &[u8],
    scope: usize,
    inputs: &[u8],
    results: &mut [u8],
) -> Result<Answer, Refusal>
    ensures { Evaluated book.now scope inputs.now results.old result results.new }
{
    if has_few_scopes(book) {
        let mut few = [0u16; 3472];
        return evaluate_in(book, &mut few, scope, inputs, results);
    }
    let mut all = [0u16; 13504];
    evaluate_in(book, &mut all, scope, inputs, results)
}
