// Entering a scope of a book: its steps are run in their order, each call in cells of its own.
#![tactic(auto)]

ghost use Rattle.cells.specs.Codec.{Codes};
ghost use Rattle.trees.specs.Rows.{Evaluable};
ghost use Rattle.scopes.specs.Steps.{step_outcome, Stepping, Hands, HandsAll, HandedAll, Came};
ghost use Rattle.scopes.specs.Known.{Known, Noting, Recalled, Entry, RunsSteps};
ghost use Rattle.std.specs.Prelude.{Ok};

use answers::Cause;
use cells::{EMPTY, NOTHING, VARIABLES, cause_of};
use index::IndexedBook;
use links::WIDTH as LINKS;
use memo::{none_given, recall, remember};
use order::WIDTH as STEPS;
use slices::{byte_at, part_of};
use terms::found;
use trees::{eval_tree, has_clause};

// How a run ended that has no values: by a cause, with the count of scopes entered.
#[derive(Clone, Copy)]
pub struct Ended {
    pub cause: Cause,
    pub count: usize,
}

// The cell of own variable x of scope i: what is given, or what its default tree comes to.
fn step_cell(
    book: &IndexedBook,
    links: &[u8],
    given: &[u64],
    own: &[u64],
    called: &[u64],
    i: usize,
    x: u8,
) -> u64
    requires { Stepping book.now.bytes.now book.now.index.now links.now given.now own.now called.now i x }
    ensures { Codes result (step_outcome book.now.bytes.now given.now own.now called.now i x) }
{
    let g = given[x as usize];
    if g != NOTHING {
        return g;
    }
    eval_tree(book, links, own, called, i, 255, x)
}

// The cell that variable v of sub-scope k of scope i is handed: what its override tree comes to, and nothing where it has no clauses or is empty.
fn override_cell(
    book: &IndexedBook,
    links: &[u8],
    own: &[u64],
    called: &[u64],
    i: usize,
    k: u8,
    v: u8,
) -> u64
    requires { Evaluable book.now.bytes.now book.now.index.now links.now own.now called.now i }
    ensures { Hands book.now.bytes.now own.now called.now i k v result }
{
    if !has_clause(book, links, i, k, v) {
        return NOTHING;
    }
    found(eval_tree(book, links, own, called, i, k, v))
}

// Hands over the variables of sub-scope k of scope i in their order, up to the first whose override tree ends in conflict or out of range:
// the end's cell, or nothing where none does. A cell takes less time than an enum.
fn hand_over(
    book: &IndexedBook,
    links: &[u8],
    own: &[u64],
    called: &[u64],
    i: usize,
    k: usize,
    handed: &mut [u64],
) -> u64
    requires { HandsAll book.now.bytes.now book.now.index.now links.now own.now called.now i k handed.old }
    ensures { HandedAll book.now.bytes.now own.now called.now i k result handed.new }
{
    let j = book.sub_scope_at(i, k);
    for v in 0..book.variable_count(j) {
        let c = override_cell(book, links, own, called, i, k as u8, v as u8);
        if EMPTY <= c {
            return c;
        }
        handed[v] = c;
    }
    NOTHING
}

// Where nothing is given and what scope i then comes to is known: puts its values into `own`, and gives the count of scopes entered.
fn recall_scope(
    book: &IndexedBook,
    i: usize,
    given: &[u64],
    memo: &[u64],
    own: &mut [u64],
) -> Option<usize>
    requires { Noting book.now.bytes.now book.now.index.now i own.old memo.now }
    ensures { Recalled book.now.bytes.now i given.now result own.new }
{
    let bare = none_given(given, book.variable_count(i));
    recall(memo, i, bare, own)
}

// Keeps what scope i came to, where nothing was given.
fn remember_scope(
    book: &IndexedBook,
    i: usize,
    given: &[u64],
    count: usize,
    own: &[u64],
    memo: &mut [u64],
)
    requires noting { Noting book.now.bytes.now book.now.index.now i own.now memo.old }
    requires came { Came book.now.bytes.now i given.now (Ok count) own.now }
    ensures { Known book.now.bytes.now memo.new }
{
    let bare = none_given(given, book.variable_count(i));
    remember(own, count, i, bare, memo);
}

// Runs the steps of scope i in their order, with cells for the variables of its sub-scopes, and leaves the values of its variables in `own`.
#[cycle(enter_sub_run_steps)]
fn run_steps(
    book: &IndexedBook,
    links: &[u8],
    orders: &[u8],
    i: usize,
    given: &[u64],
    own: &mut [u64],
    called: &mut [u64],
    memo: &mut [u64],
) -> Result<usize, Ended>
    requires { RunsSteps book.now.bytes.now book.now.index.now links.now orders.now i given.now own.old called.old memo.old }
    ensures came { Came book.now.bytes.now i given.now result own.new }
    ensures known { Known book.now.bytes.now memo.new }
{
    let row = part_of(links, i * LINKS, LINKS);
    let variables = book.variable_count(i);
    let steps = variables + book.sub_scope_count(i);
    let mut handed = [0u64; VARIABLES];
    let mut count: usize = 1;
    for n in 0..steps {
        let x = byte_at(orders, i * STEPS + n);
        if (x as usize) < variables {
            let c = step_cell(book, row, given, own, called, i, x);
            if EMPTY <= c {
                return Err(Ended {
                    cause: cause_of(c),
                    count,
                });
            }
            own[x as usize] = c;
        } else {
            let k = (x as usize) - variables;
            let c = hand_over(book, row, own, called, i, k, &mut handed);
            if EMPTY <= c {
                return Err(Ended {
                    cause: cause_of(c),
                    count,
                });
            }
            let j = book.sub_scope_at(i, k);
            let from = k * VARIABLES;
            let part = &mut called[from..from + VARIABLES];
            match enter_sub(book, links, orders, j, &handed, part, memo) {
                Ok(m) => count += m,
                Err(e) => {
                    return Err(Ended {
                        cause: e.cause,
                        count: count + e.count,
                    });
                }
            }
        }
    }
    remember_scope(book, i, given, count, own, memo);
    Ok(count)
}

// Enters scope i for a scope that calls it: runs its steps, and leaves the values of its variables in `own`. What is known is not run again.
// Cells for the variables of sub-scopes are cleared at each entry, so there are none where it has none, and few where it has one or two.
#[cycle(enter_sub_run_steps)]
fn enter_sub(
    book: &IndexedBook,
    links: &[u8],
    orders: &[u8],
    i: usize,
    given: &[u64],
    own: &mut [u64],
    memo: &mut [u64],
) -> Result<usize, Ended>
    requires { Entry book.now.bytes.now book.now.index.now links.now orders.now i given.now own.old memo.old }
    ensures came { Came book.now.bytes.now i given.now result own.new }
    ensures known { Known book.now.bytes.now memo.new }
{
    if let Some(known) = recall_scope(book, i, given, memo, own) {
        return Ok(known);
    }
    let calls = book.sub_scope_count(i);
    if calls == 0 {
        let mut none = [0u64; 1];
        return run_steps(book, links, orders, i, given, own, &mut none, memo);
    }
    if calls <= 2 {
        let mut few = [0u64; 64];
        return run_steps(book, links, orders, i, given, own, &mut few, memo);
    }
    let mut all = [0u64; 256];
    run_steps(book, links, orders, i, given, own, &mut all, memo)
}

// Enters scope i: runs its steps, and leaves the values of its variables in `own`.
pub fn enter(
    book: &IndexedBook,
    links: &[u8],
    orders: &[u8],
    i: usize,
    given: &[u64],
    own: &mut [u64],
    memo: &mut [u64],
) -> Result<usize, Ended>
    requires { Entry book.now.bytes.now book.now.index.now links.now orders.now i given.now own.old memo.old }
    ensures came { Came book.now.bytes.now i given.now result own.new }
    ensures known { Known book.now.bytes.now memo.new }
{
    if book.sub_scope_count(i) == 0 {
        let mut none = [0u64; 1];
        return run_steps(book, links, orders, i, given, own, &mut none, memo);
    }
    let mut all = [0u64; 256];
    run_steps(book, links, orders, i, given, own, &mut all, memo)
}
