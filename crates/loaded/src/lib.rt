// A loaded book is one that is accepted, with its index, the links of its clauses and the orders of its steps: preparing it, and running a scope
// of it.
#![tactic(auto)]

ghost use Rattle.scopes.specs.Known.{Known};
ghost use Rattle.loaded.specs.Loaded.{Unprepared, Prepared, RunsLoaded, Replied};

use answers::{Answer, Fault, Refusal};
use cells::VARIABLES;
use index::IndexedBook;
use judge::load;
use links::fill_all_links;
use results::{result_length, write_results};
use scopes::enter;

// Loads a book with the links of its clauses: judges it, and fills the tables of an accepted one. They are lent empty.
pub fn prepare(
    book: &[u8],
    index: &mut [u16],
    links: &mut [u8],
    orders: &mut [u8],
) -> Result<usize, Fault>
    requires { Unprepared book.now index.old links.old orders.old }
    ensures { Prepared book.now index.new links.new orders.new result }
{
    let mut blocks = [0u8; 32];
    let mut weights = [0u16; 32];
    let scopes = load(book, index, &mut blocks, &mut weights, orders)?;
    let indexed = IndexedBook {
        bytes: book,
        index,
        scopes,
    };
    fill_all_links(&indexed, links);
    Ok(scopes)
}

// Runs scope i of a loaded book on given cells, and writes the results where the run ends in values. What is known of scopes that are
// entered with nothing given speaks of the book alone, so it may be kept from run to run.
pub fn run_loaded(
    book: &IndexedBook,
    links: &[u8],
    orders: &[u8],
    i: usize,
    given: &[u64],
    memo: &mut [u64],
    results: &mut [u8],
) -> Result<Answer, Refusal>
    requires { RunsLoaded book.now.bytes.now book.now.index.now links.now orders.now i given.now memo.old results.old }
    ensures replied { Replied book.now.bytes.now i given.now results.old result results.new }
    ensures known { Known book.now.bytes.now memo.new }
{
    let mut own = [0u64; VARIABLES];
    match enter(book, links, orders, i, given, &mut own, memo) {
        Ok(count) => {
            let length = result_length(book, i);
            write_results(book, i, &own, results);
            Ok(Answer::Values(count, length))
        }
        Err(e) => Ok(Answer::Ended(e.cause, e.count)),
    }
}
