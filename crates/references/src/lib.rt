// Fault 6, a number that names nothing or what it may not: numbers by themselves, a clause's target and parent, and a scope's sub-scopes.
#![tactic(auto)]

ghost use Rattle.std.specs.Prelude.{◌≡◌, length, ltb};
ghost use Rattle.book.specs.Decode.{scopes_of};
ghost use Rattle.book.specs.References.{scope_at, names_called, names_exception};
ghost use Rattle.references.specs.Dangling.{both_below, default_names, target_scope, parent_names, sub_scope_dangles};

use book::Target;
use index::IndexedBook;

// Whether a number is below n.
pub fn below(n: usize, a: u8) -> bool
    ensures { result ≡ ltb a n }
{
    (a as usize) < n
}

// Whether two numbers are below n.
pub fn both_below(n: usize, a: u8, b: u8) -> bool
    ensures { result ≡ both_below n a b }
{
    below(n, a) & below(n, b)
}

// Whether scope i has sub-scope k, and the scope that it names has variable v.
pub fn names_called(book: &IndexedBook, i: usize, k: u8, v: u8) -> bool
    ensures { result ≡ names_called (scopes_of book.now.bytes.now) (scope_at (scopes_of book.now.bytes.now) i) k v }
{
    below(book.sub_scope_count(i), k)
        && below(book.variable_count(book.sub_scope_at(i, k as usize)), v)
}

// Whether a number is none, always or own, 255, or below n.
pub fn none_or_below(n: usize, e: u8) -> bool
    ensures { result ≡ names_exception n e }
{
    e == 255 || below(n, e)
}

// Whether default n names only nodes of lower number.
pub fn default_names(n: usize, x: u8, y: u8, z: u8, j: u8, c: u8) -> bool
    ensures { result ≡ default_names n x y z j c }
{
    none_or_below(n, x) & (none_or_below(n, y) & (none_or_below(n, z) & both_below(n, j, c)))
}

// The scope to which a target's variable belongs, by the target's sub-scope: scope i itself, or the scope that the sub-scope names.
pub fn target_scope(book: &IndexedBook, i: usize, sub: u8) -> usize
    ensures { result ≡ target_scope (scopes_of book.now.bytes.now) i sub }
{
    if sub == 255 {
        i
    } else {
        book.sub_scope_at(i, sub as usize)
    }
}

// Whether clause n of scope i, of a target, has no parent, or parent p of lower number with the same target.
pub fn names_parent(book: &IndexedBook, i: usize, n: usize, p: u8, target: Target) -> bool
    ensures { result ≡ parent_names (scopes_of book.now.bytes.now) i n p target }
{
    if p == 255 {
        return true;
    }
    let parent = book.clause_at(i, p as usize);
    below(n, p) & (parent.target == target)
}

// Whether some sub-scope of scope i names no scope.
pub fn sub_scope_dangles(book: &IndexedBook, i: usize) -> bool
    requires { book.now.scopes ≡ length (scopes_of book.now.bytes.now) }
    ensures { result ≡ sub_scope_dangles (scopes_of book.now.bytes.now) i }
{
    (0..book.sub_scope_count(i)).any(|k| book.scopes <= book.sub_scope_at(i, k))
}
