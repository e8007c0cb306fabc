// The links of a scope's clauses: the exceptions of a clause, and the bases of a target, each in a chain.
#![tactic(auto)]

ghost use Rattle.std.specs.Prelude.{◌≡◌};
ghost use Rattle.links.specs.Links.{slot_of, head_of, with_clause, Room, Blank, Linked, Blanks, AllLinked};

use book::{Clause, Consequence, Target};
use index::IndexedBook;

// A scope's links: 289 first bases, 128 first exceptions, 128 next siblings, 289 first rules.
pub const EXCEPTIONS: usize = 289;

pub const SIBLINGS: usize = 417;

pub const RULES: usize = 545;

// The bytes of a scope's links.
pub const WIDTH: usize = 834;

// The slots: those of own variables, then as many of each of 8 sub-scopes; the last is that of any other target.
const VARIABLES: usize = 32;

const SUB_SCOPES: usize = 8;

const OTHER: usize = 288;

// The slot of a target.
#[tactic(auto, unfolding(crate::specs::Links::slot_of))]
pub fn slot_of(t: Target) -> usize
    ensures { result ≡ slot_of t }
{
    let sub = t.sub as usize;
    let variable = t.variable as usize;
    if VARIABLES <= variable {
        return OTHER;
    }
    if sub == 255 {
        return variable;
    }
    if SUB_SCOPES <= sub {
        return OTHER;
    }
    VARIABLES + sub * VARIABLES + variable
}

// The cell in which the chain of a clause begins: its parent's exceptions, or the bases of its target.
#[tactic(auto, unfolding(crate::specs::Links::head_of))]
fn head_of(c: Clause) -> usize
    ensures { result ≡ head_of c }
{
    let parent = c.parent;
    if parent == 255 {
        return slot_of(c.target);
    }
    EXCEPTIONS + parent as usize
}

// Puts clause n in front of its chain, and in front of its target's rules if it is one.
#[tactic(auto, using(crate::proofs::Slots::slot_bound), unfolding(crate::specs::Links::with_clause))]
fn link_clause(links: &mut [u8], n: usize, c: Clause)
    requires { Room links.old n c }
    ensures { links.new ≡ with_clause links.old n c }
{
    let head = head_of(c);
    let slot = slot_of(c.target);
    links[SIBLINGS + n] = links[head];
    links[head] = n as u8;
    if let Consequence::Fixed(_) = c.consequence {
        links[RULES + slot] = n as u8;
    }
}

// The links of scope i, from its last clause to its first.
pub fn fill_links(book: &IndexedBook, i: usize, links: &mut [u8])
    requires { Blank book.now.bytes.now book.now.index.now links.old }
    ensures { Linked book.now.bytes.now i links.new }
{
    for n in (0..book.clause_count(i)).rev() {
        link_clause(links, n, book.clause_at(i, n));
    }
}

// The links of all scopes, in a row of 834 bytes for each.
pub fn fill_all_links(book: &IndexedBook, links: &mut [u8])
    requires { Blanks book.now.bytes.now book.now.index.now book.now.scopes links.old }
    ensures { AllLinked book.now.bytes.now book.now.scopes links.new }
{
    // By index: over `chunks_mut` an invariant has no name for the links, and the proof did not close.
    for i in 0..book.scopes {
        let at = i * WIDTH;
        fill_links(book, i, &mut links[at..at + WIDTH]);
    }
}
