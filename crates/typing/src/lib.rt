// Fault 8, a type that does not fit: the types of variables and of the nodes of a table.
#![tactic(auto)]

ghost use Rattle.std.specs.Prelude.{◌≡◌};
ghost use Rattle.book.specs.Decode.{scopes_of};
ghost use Rattle.typing.specs.Types.{type_in, own_type, called_type, named_fits};

use book::ValueType;
use index::IndexedBook;
use slices::byte_at;

// The type that a table of bytes has for a node.
pub fn type_in(types: &[u8], n: u8) -> ValueType
    ensures { result ≡ type_in types.now n }
{
    if byte_at(types, n as usize) == 0 {
        ValueType::YesNo
    } else {
        ValueType::Numeric
    }
}

// The type of variable v of scope i.
pub fn own_type(book: &IndexedBook, i: usize, v: u8) -> ValueType
    ensures { result ≡ own_type (scopes_of book.now.bytes.now) i v }
{
    let variable = book.variable_at(i, v as usize);
    variable.holds
}

// The type of variable v of sub-scope k of scope i.
pub fn called_type(book: &IndexedBook, i: usize, k: u8, v: u8) -> ValueType
    ensures { result ≡ called_type (scopes_of book.now.bytes.now) i k v }
{
    own_type(book, book.sub_scope_at(i, k as usize), v)
}

// Whether a number is 255, none, or a node of this type.
#[tactic(auto, unfolding(crate::specs::Types::named_fits))]
pub fn named_fits(types: &[u8], t: ValueType, n: u8) -> bool
    ensures { result ≡ named_fits types.now t n }
{
    n == 255 || type_in(types, n) == t
}
