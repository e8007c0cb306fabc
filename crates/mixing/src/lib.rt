// Fault 9: a rule and a definition on one target.
#![tactic(auto)]

ghost use Rattle.std.specs.Prelude.{◌≡◌, false, length};
ghost use Rattle.book.specs.Decode.{scopes_of};
ghost use Rattle.book.specs.References.{dangles};
ghost use Rattle.book.specs.Mixing.{mixes};
ghost use Rattle.mixing.specs.Marks.{slot_of, mark_of, mixed_at};

use book::{Consequence, Target};
use index::IndexedBook;

// The place of a target's mark: 32 for the own variables, then 32 for each sub-scope.
fn slot_of(target: Target) -> usize
    ensures { result ≡ slot_of target }
{
    let sub = target.sub;
    let variable = target.variable;
    if sub == 255 {
        variable as usize
    } else {
        sub as usize * 32 + variable as usize + 32
    }
}

// A definition's mark, or a rule's.
fn mark_of(consequence: Consequence) -> u8
    ensures { result ≡ mark_of consequence }
{
    match consequence {
        Consequence::Of(_) => 1,
        Consequence::Fixed(_) => 2,
    }
}

// Whether a rule and a definition of scope i have one target: each clause marks its target, unless it finds the other mark there.
fn mixed_at(book: &IndexedBook, i: usize) -> bool
    requires { dangles (scopes_of book.now.bytes.now) ≡ false }
    ensures { result ≡ mixed_at (scopes_of book.now.bytes.now) i }
{
    // One byte for each place, in fixed memory: 0 where no clause has left a mark.
    let mut seen = [0u8; 288];
    for n in 0..book.clause_count(i) {
        let clause = book.clause_at(i, n);
        let at = slot_of(clause.target);
        let mark = mark_of(clause.consequence);
        if seen[at] != 0 && seen[at] != mark {
            return true;
        }
        seen[at] = mark;
    }
    false
}

// Fault 9: whether a rule and a definition have one target in a scope of the book.
pub fn has_mixed(book: &IndexedBook) -> bool
    requires counted { book.now.scopes ≡ length (scopes_of book.now.bytes.now) }
    requires sound { dangles (scopes_of book.now.bytes.now) ≡ false }
    ensures { result ≡ mixes (scopes_of book.now.bytes.now) }
{
    for i in 0..book.scopes {
        if mixed_at(book, i) {
            return true;
        }
    }
    false
}
