// The default trees of a scope over the cells of variables, by the links of its clauses. An outcome is a cell, which takes less time
// than an enum.
#![tactic(auto)]

ghost use Rattle.std.specs.Prelude.{◌≡◌, ◌<◌, length};
ghost use Rattle.cells.specs.Codec.{Codes, Gathers};
ghost use Rattle.terms.specs.Clauses.{ReadableClause};
ghost use Rattle.trees.specs.Chains.{alone, chain_outcome, tree_outcome, clause_for, Ready};
ghost use Rattle.trees.specs.Rows.{Walk, Settles, Evaluable};

use book::Target;
use cells::{CONFLICT, EMPTY, MANY, NO, NOTHING};
use index::{IndexedBook, NODES, ROW, ROWS};
use links::{EXCEPTIONS, RULES, SIBLINGS, slot_of};
use slices::byte_at;
use terms::{eval_rest, gather};

// The part of a scope's row in the index that evaluating reads: 250 positions of nodes, then 128 of clauses.
const RECORDS: usize = 378;

const CLAUSES: usize = 250;

// The clause at a position, whose exceptions came to x.
fn settle_clause(book: &[u8], row: &[u16], own: &[u64], called: &[u64], at: usize, x: u64) -> u64
    requires { ReadableClause book.now row.now own.now called.now at }
    ensures { Settles book.now row.now own.now called.now at x result }
{
    if x == MANY {
        return CONFLICT;
    }
    if x != NOTHING {
        return x;
    }
    eval_rest(book, row, own, called, at)
}

// The clauses of the chain that begins in a cell of the links, in their order, up to the first that is conflict or out of range.
// The number i of the scope is for the contract only.
fn eval_chain(
    book: &[u8],
    row: &[u16],
    links: &[u8],
    own: &[u64],
    called: &[u64],
    i: usize,
    cell: usize,
) -> u64
    requires { Walk book.now row.now links.now own.now called.now i cell }
    ensures { Gathers result (chain_outcome book.now own.now called.now i cell) }
{
    let mut g: u64 = NOTHING;
    // The links lead from clause to clause, so the loop counts no numbers.
    let mut c = links[cell] as usize;
    while c < 128 {
        let x = if links[EXCEPTIONS + c] != 255 {
            eval_chain(book, row, links, own, called, i, EXCEPTIONS + c)
        } else {
            NOTHING
        };
        let at = row[CLAUSES + c] as usize;
        let o = settle_clause(book, row, own, called, at, x);
        g = gather(g, o);
        if EMPTY <= g {
            return g;
        }
        c = links[SIBLINGS + c] as usize;
    }
    g
}

// Whether no clause stands behind clause c in its chain, and it has no exception.
fn is_alone(links: &[u8], c: usize) -> bool
    requires { (c < 128) × (length links.now ≡ 834) }
    ensures { result ≡ alone links.now c }
{
    links[SIBLINGS + c] == 255 && links[EXCEPTIONS + c] == 255
}

// The bases of a target, whose chain begins in a cell of the links. One alone and without exceptions, as most targets have it, is evaluated
// without a walk along the chain.
fn eval_bases(
    book: &[u8],
    row: &[u16],
    links: &[u8],
    own: &[u64],
    called: &[u64],
    i: usize,
    cell: usize,
) -> u64
    requires { Walk book.now row.now links.now own.now called.now i cell }
    ensures { Gathers result (chain_outcome book.now own.now called.now i cell) }
{
    let c = links[cell] as usize;
    if c < 128 && is_alone(links, c) {
        let at = row[CLAUSES + c] as usize;
        let o = settle_clause(book, row, own, called, at, NOTHING);
        return gather(NOTHING, o);
    }
    eval_chain(book, row, links, own, called, i, cell)
}

// The default tree of a target of scope i: its bases; where none has a value, no if it has rules, empty if it has none.
pub fn eval_tree(
    book: &IndexedBook,
    links: &[u8],
    own: &[u64],
    called: &[u64],
    i: usize,
    sub: u8,
    variable: u8,
) -> u64
    requires { Evaluable book.now.bytes.now book.now.index.now links.now own.now called.now i }
    ensures { Codes result (tree_outcome book.now.bytes.now own.now called.now i sub variable) }
{
    let slot = slot_of(Target { sub, variable });
    let start = ROWS + i * ROW + NODES;
    let g = eval_bases(
        book.bytes,
        &book.index[start..start + RECORDS],
        links,
        own,
        called,
        i,
        slot,
    );
    if g == MANY {
        return CONFLICT;
    }
    if g != NOTHING {
        return g;
    }
    if links[RULES + slot] == 255 {
        EMPTY
    } else {
        NO
    }
}

// Whether some clause of scope i has the target.
pub fn has_clause(book: &IndexedBook, links: &[u8], i: usize, sub: u8, variable: u8) -> bool
    requires { Ready book.now.bytes.now book.now.index.now links.now i }
    ensures { result ≡ clause_for book.now.bytes.now i sub variable }
{
    let slot = slot_of(Target { sub, variable });
    byte_at(links, slot) != 255
}
