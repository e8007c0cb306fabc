// A book by its index: how many variables, sub-scopes, nodes and clauses each scope has, and each of them read from its record.
#![tactic(auto)]

ghost use Rattle.std.specs.Prelude.{◌≡◌, ◌+◌, ◌*◌, ◌≤◌, ◌<◌, length, get_or};
ghost use Rattle.book.specs.Decode.{scopes_of};
ghost use Rattle.book.specs.References.{scope_at};
ghost use Rattle.book.specs.Positions.{node_from, clause_from, node_length, variable_at, sub_scope_at, node_at, clause_at};
ghost use Rattle.index.specs.Index.{index_at, Laid};

use book::{Clause, Consequence, Node, Target, ValueType, Variable};
use calculus::{Binary, Unary};
use integers::number_at;
use record::{
    KIND_ADD, KIND_AND, KIND_CALLED, KIND_CHOICE, KIND_CONFLICT, KIND_CONSTANT, KIND_DEFINITION,
    KIND_EMPTY, KIND_EQUAL, KIND_LESS, KIND_NEGATE, KIND_NOT, KIND_NUMBER, KIND_OWN, KIND_SUBTRACT,
};
use types::type_of;

// The scopes that a book may have, and the sorts of records that are counted for each.
const SCOPES: usize = 32;

pub const SORTS: usize = 4;

// After the counts of all scopes each has a row of positions. Its columns are numbered on from those of the counts, so that a row's column 0
// would stand four before it.
pub const ROWS: usize = 124;

pub const ROW: usize = 418;

// The columns where the positions of each sort begin.
pub const VARIABLES: usize = 4;

pub const SUB_SCOPES: usize = 36;

pub const NODES: usize = 44;

pub const CLAUSES: usize = 294;

// The node whose record begins at a position.
#[tactic(auto, using(crate::proofs::Bodies::after), unfolding(book::specs::Positions::node_from, book::specs::Syntax::node_of))]
fn node_of(book: &[u8], at: usize) -> Node
    requires { at + node_length (get_or book.now at 0) < length book.now }
    ensures { result ≡ node_from book.now at }
{
    let a = book[at + 1];
    match book[at] {
        KIND_CONSTANT => Node::Constant(a == 1),
        KIND_NUMBER => Node::Number(number_at(book, at + 1)),
        KIND_OWN => Node::Own(a),
        KIND_CALLED => Node::Called(a, book[at + 2]),
        KIND_EMPTY => Node::Empty(type_of(a)),
        KIND_CONFLICT => Node::Conflict(type_of(a)),
        KIND_NOT => Node::Unary(Unary::Not, a),
        KIND_NEGATE => Node::Unary(Unary::Negate, a),
        KIND_AND => Node::Binary(Binary::And, a, book[at + 2]),
        KIND_ADD => Node::Binary(Binary::Add, a, book[at + 2]),
        KIND_SUBTRACT => Node::Binary(Binary::Subtract, a, book[at + 2]),
        KIND_EQUAL => Node::Binary(Binary::Equal, a, book[at + 2]),
        KIND_LESS => Node::Binary(Binary::Less, a, book[at + 2]),
        KIND_CHOICE => Node::Choice(a, book[at + 2], book[at + 3]),
        // A default: a node has no other kind.
        _ => Node::Default(a, book[at + 2], book[at + 3], book[at + 4], book[at + 5]),
    }
}

// The clause whose record begins at a position.
#[tactic(auto, using(crate::proofs::Bodies::after), unfolding(book::specs::Positions::clause_from, book::specs::Syntax::clause_of))]
fn clause_of(book: &[u8], at: usize) -> Clause
    requires { at + 5 < length book.now }
    ensures { result ≡ clause_from book.now at }
{
    let last = book[at + 5];
    let target = Target {
        sub: book[at + 1],
        variable: book[at + 2],
    };
    let parent = book[at + 3];
    let condition = book[at + 4];
    let consequence = if book[at] == KIND_DEFINITION {
        Consequence::Of(last)
    } else {
        Consequence::Fixed(last == 1)
    };
    Clause {
        target,
        parent,
        condition,
        consequence,
    }
}

// A number of an index.
fn cell_at(index: &[u16], at: usize) -> usize
    requires { at < length index.now }
    ensures { result ≡ get_or index.now at 0 }
{
    usize::from(index[at])
}

// The position in column k of scope i's row.
fn column_at(index: &[u16], i: usize, k: usize) -> usize
    requires { (i < 32) × (4 ≤ k) × (k < 422) × (124 + i * 418 + k < length index.now) }
    ensures { result ≡ index_at index.now i k }
{
    cell_at(index, ROWS + i * ROW + k)
}

// How many records of a sort scope i has: 0 variables, 1 sub-scopes, 2 nodes, 3 clauses.
fn count_at(index: &[u16], i: usize, sort: usize) -> usize
    requires { (128 ≤ length index.now) × (sort < 4) }
    ensures { result ≡ index_at index.now i sort }
{
    if SCOPES <= i {
        return 0;
    }
    cell_at(index, i * SORTS + sort)
}

// A book within the limits, the index by which its records are found, and a number of scopes: the book's, where a function asks for that.
#[derive(Clone, Copy)]
pub struct IndexedBook<'a> {
    pub bytes: &'a [u8],
    pub index: &'a [u16],
    pub scopes: usize,
    pub ghost laid: { Laid bytes.now index.now },
}

impl<'a> IndexedBook<'a> {
    // How many variables scope i has.
    pub fn variable_count(&self, i: usize) -> usize
        ensures { result ≡ length (scope_at (scopes_of self.now.bytes.now) i).variables }
    {
        count_at(self.index, i, 0)
    }

    // How many sub-scopes scope i has.
    pub fn sub_scope_count(&self, i: usize) -> usize
        ensures { result ≡ length (scope_at (scopes_of self.now.bytes.now) i).sub_scopes }
    {
        count_at(self.index, i, 1)
    }

    // How many nodes scope i has.
    pub fn node_count(&self, i: usize) -> usize
        ensures { result ≡ length (scope_at (scopes_of self.now.bytes.now) i).nodes }
    {
        count_at(self.index, i, 2)
    }

    // How many clauses scope i has.
    pub fn clause_count(&self, i: usize) -> usize
        ensures { result ≡ length (scope_at (scopes_of self.now.bytes.now) i).clauses }
    {
        count_at(self.index, i, 3)
    }

    // Variable v of scope i.
    pub fn variable_at(&self, i: usize, v: usize) -> Variable
        ensures { result ≡ variable_at (scopes_of self.now.bytes.now) i v }
    {
        if v < count_at(self.index, i, 0) {
            let at = column_at(self.index, i, VARIABLES + v);
            Variable {
                holds: type_of(self.bytes[at + 1]),
            }
        } else {
            Variable {
                holds: ValueType::YesNo,
            }
        }
    }

    // The scope number of sub-scope k of scope i.
    pub fn sub_scope_at(&self, i: usize, k: usize) -> usize
        ensures { result ≡ sub_scope_at (scopes_of self.now.bytes.now) i k }
    {
        if k < count_at(self.index, i, 1) {
            let at = column_at(self.index, i, SUB_SCOPES + k);
            usize::from(self.bytes[at + 1])
        } else {
            0
        }
    }

    // Node n of scope i.
    pub fn node_at(&self, i: usize, n: usize) -> Node
        ensures { result ≡ node_at (scopes_of self.now.bytes.now) i n }
    {
        if n < count_at(self.index, i, 2) {
            let at = column_at(self.index, i, NODES + n);
            node_of(self.bytes, at)
        } else {
            Node::Constant(false)
        }
    }

    // Clause c of scope i.
    pub fn clause_at(&self, i: usize, c: usize) -> Clause
        ensures { result ≡ clause_at (scopes_of self.now.bytes.now) i c }
    {
        if c < count_at(self.index, i, 3) {
            let at = column_at(self.index, i, CLAUSES + c);
            clause_of(self.bytes, at)
        } else {
            let target = Target {
                sub: 255,
                variable: 255,
            };
            Clause {
                target,
                parent: 255,
                condition: 255,
                consequence: Consequence::Fixed(false),
            }
        }
    }
}
