// Faults 6, 7 and 8 of a book in one pass: for each scope one loop over its nodes and one over its clauses.
#![tactic(auto)]

ghost use Rattle.std.specs.Prelude.{◌≡◌, length, replicate};
ghost use Rattle.book.specs.Decode.{scopes_of};
ghost use Rattle.book.specs.Typing.{binary_type};
ghost use Rattle.checks.specs.Findings.{byte_of, leaf_finding, OfNode, OfUnary, OfBinary, OfChoice, OfDefault};
ghost use Rattle.checks.specs.Findings.{OfCondition, OfConsequence, OfClause, Typed, OfNodes, OfClauses, OfScope, OfBook};

use book::{Clause, Consequence, Node, ValueType};
use calculus::{Binary, Unary};
use index::IndexedBook;
use references::{
    below, both_below, default_names, names_called, names_parent, none_or_below, sub_scope_dangles,
    target_scope,
};
use sharing::{mark, mark_unless};
use types::{operand_type, unary_type};
use typing::{called_type, named_fits, own_type, type_in};

// What is found where nothing dangles: whether a node is named more than once, and whether a type does not fit.
#[derive(Clone, Copy)]
pub struct Findings {
    pub shares: bool,
    pub mismatches: bool,
}

// What is found of one node: whether it names only what it may; whether a node was named twice, so far or by it; whether its operands
// have the types that it takes; and its type as a byte. The other fields hold whatever `names` says, so it is one fact among them, and no Option.
#[derive(Clone, Copy)]
struct NodeFinding {
    names: bool,
    shares: bool,
    suits: bool,
    byte: u8,
}

// What is found of one clause, or of its condition or its consequence: as of a node, without a type.
#[derive(Clone, Copy)]
struct ClauseFinding {
    names: bool,
    shares: bool,
    suits: bool,
}

// A type as a byte of the table: one byte for each node, in fixed memory. 0 must be yes/no, as an empty table has it; a book's type bytes are others.
fn byte_of(t: ValueType) -> u8
    ensures { result ≡ byte_of t }
{
    match t {
        ValueType::YesNo => 0,
        ValueType::Numeric => 1,
    }
}

// What a binary operator gives.
fn binary_type(op: Binary) -> ValueType
    ensures { result ≡ binary_type op }
{
    match op {
        Binary::And | Binary::Equal | Binary::Less => ValueType::YesNo,
        Binary::Add | Binary::Subtract => ValueType::Numeric,
    }
}

// A node that names no node.
fn check_leaf(names: bool, twice: bool, t: ValueType) -> NodeFinding
    ensures { result ≡ leaf_finding names twice t }
{
    let byte = byte_of(t);
    NodeFinding {
        names,
        shares: twice,
        suits: true,
        byte,
    }
}

// Node n, a unary operator's.
fn check_unary(
    n: usize,
    marks: &mut [u8],
    types: &[u8],
    twice: bool,
    op: Unary,
    a: u8,
) -> NodeFinding
    ensures { OfUnary n marks.old types.now twice op a result marks.new }
{
    let t = unary_type(op);
    let suits = type_in(types, a) == t;
    let byte = byte_of(t);
    let names = below(n, a);
    let shares = mark(marks, twice, a);
    NodeFinding {
        names,
        shares,
        suits,
        byte,
    }
}

// Node n, a binary operator's.
fn check_binary(
    n: usize,
    marks: &mut [u8],
    types: &[u8],
    twice: bool,
    op: Binary,
    a: u8,
    b: u8,
) -> NodeFinding
    ensures { OfBinary n marks.old types.now twice op a b result marks.new }
{
    let left = type_in(types, a);
    let t = operand_type(op, left);
    let suits = (left == t) & (type_in(types, b) == t);
    let byte = byte_of(binary_type(op));
    let names = both_below(n, a, b);
    let first = mark(marks, twice, a);
    let shares = mark(marks, first, b);
    NodeFinding {
        names,
        shares,
        suits,
        byte,
    }
}

// Node n, an if of condition c and branches a and b.
fn check_choice(
    n: usize,
    marks: &mut [u8],
    types: &[u8],
    twice: bool,
    c: u8,
    a: u8,
    b: u8,
) -> NodeFinding
    ensures { OfChoice n marks.old types.now twice c a b result marks.new }
{
    let t = type_in(types, a);
    let suits = (type_in(types, c) == ValueType::YesNo) & (type_in(types, b) == t);
    let byte = byte_of(t);
    let names = below(n, c) & both_below(n, a, b);
    let first = mark(marks, twice, c);
    let second = mark(marks, first, a);
    let shares = mark(marks, second, b);
    NodeFinding {
        names,
        shares,
        suits,
        byte,
    }
}

// Node n, a default of exceptions x, y and z, justification j and consequence c.
fn check_default(
    n: usize,
    marks: &mut [u8],
    types: &[u8],
    twice: bool,
    x: u8,
    y: u8,
    z: u8,
    j: u8,
    c: u8,
) -> NodeFinding
    ensures { OfDefault n marks.old types.now twice x y z j c result marks.new }
{
    let t = type_in(types, c);
    let justified = type_in(types, j) == ValueType::YesNo;
    let suits = named_fits(types, t, x)
        & (named_fits(types, t, y) & (named_fits(types, t, z) & justified));
    let byte = byte_of(t);
    let names = default_names(n, x, y, z, j, c);
    let first = mark_unless(marks, twice, x);
    let second = mark_unless(marks, first, y);
    let third = mark_unless(marks, second, z);
    let fourth = mark(marks, third, j);
    let shares = mark(marks, fourth, c);
    NodeFinding {
        names,
        shares,
        suits,
        byte,
    }
}

// Node n of scope i: what it names is marked.
fn check_node(
    book: &IndexedBook,
    i: usize,
    n: usize,
    node: Node,
    marks: &mut [u8],
    types: &[u8],
    twice: bool,
) -> NodeFinding
    ensures { OfNode (scopes_of book.now.bytes.now) i n marks.old types.now twice node result marks.new }
{
    match node {
        Node::Constant(_) => check_leaf(true, twice, ValueType::YesNo),
        Node::Number(_) => check_leaf(true, twice, ValueType::Numeric),
        Node::Own(v) => {
            let names = below(book.variable_count(i), v);
            check_leaf(names, twice, own_type(book, i, v))
        }
        Node::Called(k, v) => {
            let names = names_called(book, i, k, v);
            check_leaf(names, twice, called_type(book, i, k, v))
        }
        Node::Empty(t) => check_leaf(true, twice, t),
        Node::Conflict(t) => check_leaf(true, twice, t),
        Node::Unary(op, a) => check_unary(n, marks, types, twice, op, a),
        Node::Binary(op, a, b) => check_binary(n, marks, types, twice, op, a, b),
        Node::Choice(c, a, b) => check_choice(n, marks, types, twice, c, a, b),
        Node::Default(x, y, z, j, c) => check_default(n, marks, types, twice, x, y, z, j, c),
    }
}

// A clause's condition in a scope of so many nodes: 255, always, or a yes/no node.
fn check_condition(
    nodes: usize,
    marks: &mut [u8],
    types: &[u8],
    twice: bool,
    condition: u8,
) -> ClauseFinding
    ensures { OfCondition nodes marks.old types.now twice condition result marks.new }
{
    if condition == 255 {
        return ClauseFinding {
            names: true,
            shares: twice,
            suits: true,
        };
    }
    let names = below(nodes, condition);
    let suits = type_in(types, condition) == ValueType::YesNo;
    let shares = mark(marks, twice, condition);
    ClauseFinding {
        names,
        shares,
        suits,
    }
}

// A clause's consequence in a scope of so many nodes: of the type that the clause's target has.
fn check_consequence(
    nodes: usize,
    marks: &mut [u8],
    types: &[u8],
    twice: bool,
    wanted: ValueType,
    consequence: Consequence,
) -> ClauseFinding
    ensures { OfConsequence nodes marks.old types.now twice wanted consequence result marks.new }
{
    match consequence {
        Consequence::Of(n) => {
            let names = below(nodes, n);
            let suits = type_in(types, n) == wanted;
            let shares = mark(marks, twice, n);
            ClauseFinding {
                names,
                shares,
                suits,
            }
        }
        Consequence::Fixed(_) => {
            let suits = ValueType::YesNo == wanted;
            ClauseFinding {
                names: true,
                shares: twice,
                suits,
            }
        }
    }
}

// Clause n of scope i: what it names is marked.
fn check_clause(
    book: &IndexedBook,
    i: usize,
    n: usize,
    clause: Clause,
    marks: &mut [u8],
    types: &[u8],
    twice: bool,
) -> ClauseFinding
    ensures { OfClause (scopes_of book.now.bytes.now) i n marks.old types.now twice clause result marks.new }
{
    let target = clause.target;
    let parent = clause.parent;
    let condition = clause.condition;
    let consequence = clause.consequence;
    let sub = target.sub;
    let variable = target.variable;
    let owner = target_scope(book, i, sub);
    let there = none_or_below(book.sub_scope_count(i), sub)
        & below(book.variable_count(owner), variable);
    let wanted = own_type(book, owner, variable);
    let follows = names_parent(book, i, n, parent, target);
    let nodes = book.node_count(i);
    let first = check_condition(nodes, marks, types, twice, condition);
    let second = check_consequence(nodes, marks, types, first.shares, wanted, consequence);
    ClauseFinding {
        names: there & (follows & (first.names & second.names)),
        shares: second.shares,
        suits: first.suits & second.suits,
    }
}

// The nodes of scope i, up to the first that dangles: what they name is marked, and their types are put into a table of bytes. A node
// names only lower ones, so the table so far tells whether it fits. None where one dangles.
fn check_nodes(book: &IndexedBook, i: usize, marks: &mut [u8], types: &mut [u8]) -> Option<Findings>
    requires { types.old ≡ replicate 256 0 }
    ensures { OfNodes (scopes_of book.now.bytes.now) i marks.old result marks.new types.new }
{
    let mut shares = false;
    let mut mismatches = false;
    for n in 0..book.node_count(i) {
        let node = book.node_at(i, n);
        let of_node = check_node(book, i, n, node, marks, types, shares);
        if !of_node.names {
            return None;
        }
        shares = of_node.shares;
        mismatches |= !of_node.suits;
        types[n] = of_node.byte;
    }
    Some(Findings { shares, mismatches })
}

// The clauses of scope i, up to the first that dangles, after what was found of its nodes: what they name is marked too. None where one
// dangles.
fn check_clauses(
    book: &IndexedBook,
    i: usize,
    marks: &mut [u8],
    types: &[u8],
    found: Findings,
) -> Option<Findings>
    requires { Typed (scopes_of book.now.bytes.now) i types.now }
    ensures { OfClauses (scopes_of book.now.bytes.now) i marks.old found result marks.new }
{
    let mut shares = found.shares;
    let mut mismatches = found.mismatches;
    for n in 0..book.clause_count(i) {
        let clause = book.clause_at(i, n);
        let of_clause = check_clause(book, i, n, clause, marks, types, shares);
        if !of_clause.names {
            return None;
        }
        shares = of_clause.shares;
        mismatches |= !of_clause.suits;
    }
    Some(Findings { shares, mismatches })
}

// Scope i. None where something of it dangles.
fn check_scope(book: &IndexedBook, i: usize) -> Option<Findings>
    requires { book.now.scopes ≡ length (scopes_of book.now.bytes.now) }
    ensures { OfScope (scopes_of book.now.bytes.now) i result }
{
    if sub_scope_dangles(book, i) {
        return None;
    }
    let mut marks = [0u8; 256];
    let mut types = [0u8; 256];
    let found = check_nodes(book, i, &mut marks, &mut types)?;
    check_clauses(book, i, &mut marks, &types, found)
}

// Faults 6, 7 and 8 of a book, up to the first scope in which something dangles. None where there is one: nothing else matters then.
pub fn find_faults(book: &IndexedBook) -> Option<Findings>
    requires { book.now.scopes ≡ length (scopes_of book.now.bytes.now) }
    ensures { OfBook (scopes_of book.now.bytes.now) result }
{
    let mut shares = false;
    let mut mismatches = false;
    for i in 0..book.scopes {
        let found = check_scope(book, i)?;
        shares |= found.shares;
        mismatches |= found.mismatches;
    }
    Some(Findings { shares, mismatches })
}
