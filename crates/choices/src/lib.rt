// The chosen variables of a scope: whether they are good, and their order.
// 18: "more than 12 chosen, one chosen twice, absent, not yes/no, or in the fixed list".
#![tactic(auto)]

ghost use Rattle.std.specs.Prelude.{◌≡◌, ◌≤◌, length, replicate, map};
ghost use Rattle.cells.specs.Cells.{given_of};
ghost use Rattle.book.specs.Decode.{scopes_of};
ghost use Rattle.book.specs.References.{scope_at};
ghost use Rattle.lists.specs.Reading.{typed};
ghost use Rattle.choices.specs.Marks.{ChosenMarked, MarkedWritten};
ghost use Rattle.choices.specs.Choosing.{Choosing};

use book::ValueType;
use index::IndexedBook;
use inputs::cannot_give;
use signatures::fill_types;

// Marks the chosen variables, from the last to the first, where none is marked; whether they are good.
fn mark_chosen(types: &[u8], given: &[u64], chosen: &[u8], marks: &mut [u8]) -> bool
    requires types_len_bound { length types.now ≤ 32 }
    requires marks_value { marks.old ≡ replicate 32 0 }
    ensures { ChosenMarked (typed types.now) (map given_of given.now) chosen.now result marks.new }
{
    if 12 < chosen.len() {
        return false;
    }
    for v in chosen.iter().rev() {
        if cannot_give(types, given, ValueType::YesNo, *v) {
            return false;
        }
        let at = usize::from(*v);
        if marks[at] != 0 {
            return false;
        }
        marks[at] = 1;
    }
    true
}

// Writes the numbers that are marked, the lowest first.
fn order_marked(marks: &[u8], ordered: &mut [u8])
    requires marks_len_bound { length marks.now ≤ 32 }
    requires ordered_len { length ordered.old ≡ 32 }
    ensures { MarkedWritten marks.now ordered.new }
{
    let mut count = 0;
    for (v, mark) in marks.iter().enumerate() {
        if *mark != 0 {
            ordered[count] = v as u8;
            count += 1;
        }
    }
}

// Judges the chosen variables of scope i, and writes them in number order; whether they are good.
pub fn choose(
    book: &IndexedBook,
    i: usize,
    given: &[u64],
    chosen: &[u8],
    ordered: &mut [u8],
) -> bool
    requires { length ordered.old ≡ 32 }
    ensures { Choosing (scope_at (scopes_of book.now.bytes.now) i).variables (map given_of given.now) chosen.now result ordered.new }
{
    let mut types = [0u8; 32];
    let n = fill_types(book, i, &mut types);
    let mut marks = [0u8; 32];
    if !mark_chosen(&types[..n], given, chosen, &mut marks) {
        return false;
    }
    order_marked(&marks[..n], ordered);
    true
}
