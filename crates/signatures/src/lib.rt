// A scope's signature: the type bytes of its variables.
#![tactic(auto)]

ghost use Rattle.std.specs.Prelude.{◌≡◌, ◌≤◌, length};
ghost use Rattle.book.specs.Decode.{scopes_of};
ghost use Rattle.book.specs.References.{scope_at};
ghost use Rattle.lists.specs.Reading.{Filled};

use index::IndexedBook;

// Fills in the type bytes of scope i's variables; their number.
pub fn fill_types(book: &IndexedBook, i: usize, types: &mut [u8]) -> usize
    requires { length types.old ≡ 32 }
    ensures { Filled (scope_at (scopes_of book.now.bytes.now) i).variables result types.new }
{
    let count = book.variable_count(i);
    for v in 0..count {
        types[v] = u8::from(book.variable_at(i, v).holds);
    }
    count
}
