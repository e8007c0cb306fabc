// The order of a book's blocks and the order of each scope's steps: faults 10 and 12.
#![tactic(auto)]

ghost use Rattle.std.specs.Prelude.{◌≡◌, [], ◌∷◌, ◌≤◌, length, replicate};
ghost use Rattle.order.specs.Order.{order};
ghost use Rattle.order.specs.Matrix.{edge_of};
ghost use Rattle.book.specs.Decode.{scopes_of};
ghost use Rattle.book.specs.Scopes.{calls, blocks};
ghost use Rattle.book.specs.References.{scope_at};
ghost use Rattle.book.specs.Sharing.{operands, clause_nodes};
ghost use Rattle.book.specs.Steps.{step_count, depends_on, step_order};
ghost use Rattle.steps.specs.Limits.{WellNamed};
ghost use Rattle.steps.specs.Edges.{one_edge, call_edges, own_step, step_with, Marked};
ghost use Rattle.steps.specs.Owners.{Owned, Roots};
ghost use Rattle.steps.specs.Answers.{Written, StepsFilled};

use book::{Clause, Consequence, Node};
use index::IndexedBook;
use order::{STARTS, WIDTH, fill_order};

// Marks that v depends on w, and reads row v from w on where it was read from a higher vertex on. A number from 40 on is no vertex.
fn mark(deps: &mut [u8], v: usize, w: usize)
    requires { length deps.old ≡ 1640 }
    ensures { Marked deps.old deps.new (one_edge v w) }
{
    if WIDTH <= v {
        return;
    }
    if WIDTH <= w {
        return;
    }
    deps[v * WIDTH + w] = 0;
    if w < deps[STARTS + v] as usize {
        deps[STARTS + v] = w as u8;
    }
}

// Marks the scopes that scope i calls.
fn mark_calls(book: &IndexedBook, i: usize, deps: &mut [u8])
    requires { length deps.old ≡ 1640 }
    ensures { Marked deps.old deps.new (call_edges (scopes_of book.now.bytes.now) i) }
{
    for k in 0..book.sub_scope_count(i) {
        let called = book.sub_scope_at(i, k);
        mark(deps, i, called);
    }
}

// Marks the calls of every scope.
fn fill_calls(book: &IndexedBook, deps: &mut [u8])
    requires counted { book.now.scopes ≡ length (scopes_of book.now.bytes.now) }
    requires deps_length { length deps.old ≡ 1640 }
    ensures { Marked deps.old deps.new (calls (scopes_of book.now.bytes.now)) }
{
    for i in 0..book.scopes {
        mark_calls(book, i, deps);
    }
}

// The order of n vertices, written from the first byte of `out`; no later byte changes. Answers its length.
fn write_order(deps: &mut [u8], n: usize, out: &mut [u8]) -> usize
    requires { (n ≤ 40) × (length deps.old ≡ 1640) × (n ≤ length out.old) }
    ensures { Written (order (edge_of deps.old) n) out.old result out.new }
{
    // Some: n is at most 40, and matrix and memory have room for it.
    fill_order(deps, n, out).unwrap()
}

// The order of the book's blocks, written from the first byte of `out`; no later byte changes. Answers its length: fewer than all
// scopes exactly where there is a scope cycle.
pub fn block_order(book: &IndexedBook, out: &mut [u8]) -> usize
    requires counted { book.now.scopes ≡ length (scopes_of book.now.bytes.now) }
    requires room { 32 ≤ length out.old }
    ensures { Written (blocks (scopes_of book.now.bytes.now)) out.old result out.new }
{
    let mut deps = [255u8; 1640];
    fill_calls(book, &mut deps);
    write_order(&mut deps, book.scopes, out)
}

// The step whose tree, or one of whose override trees, a clause belongs to, in a scope with some number of variables.
fn step_with(variables: usize, clause: Clause) -> usize
    requires { variables ≤ 32 }
    ensures { result ≡ step_with variables clause }
{
    let target = clause.target;
    if target.sub == 255 {
        target.variable as usize
    } else {
        variables + target.sub as usize
    }
}

// Notes that node n belongs to the tree of a row's step. 255, which is no node, may be written too.
fn own_by(owners: &mut [u8], n: u8, row: u8)
    requires { length owners.old ≡ 256 }
    ensures { Owned (n ∷ []) row owners.old owners.new }
{
    owners[n as usize] = row;
}

// Notes that the nodes that a clause names belong to the tree of a row's step.
fn own_clause(owners: &mut [u8], clause: Clause, row: u8)
    requires { length owners.old ≡ 256 }
    ensures { Owned (clause_nodes clause) row owners.old owners.new }
{
    own_by(owners, clause.condition, row);
    if let Consequence::Of(n) = clause.consequence {
        own_by(owners, n, row);
    }
}

// Notes the steps of the nodes that the clauses of scope i name.
fn own_clauses(book: &IndexedBook, i: usize, owners: &mut [u8])
    requires { WellNamed book.now.bytes.now × (owners.old ≡ replicate 256 255) }
    ensures { Roots (scopes_of book.now.bytes.now) i owners.new }
{
    let variables = book.variable_count(i);
    for c in 0..book.clause_count(i) {
        let clause = book.clause_at(i, c);
        let row = step_with(variables, clause) as u8;
        own_clause(owners, clause, row);
    }
}

// Marks, in a row, what a node itself reads, in a scope with some number of variables, and hands the row on to its operands.
fn mark_node(variables: usize, node: Node, row: u8, owners: &mut [u8], deps: &mut [u8])
    requires { (variables ≤ 32) × (length owners.old ≡ 256) × (length deps.old ≡ 1640) }
    ensures { Marked deps.old deps.new (one_edge row (own_step variables node)) × Owned (operands node) row owners.old owners.new }
{
    match node {
        Node::Constant(_) | Node::Number(_) | Node::Empty(_) | Node::Conflict(_) => {}
        Node::Own(x) => mark(deps, row as usize, x as usize),
        Node::Called(k, _) => mark(deps, row as usize, variables + k as usize),
        Node::Unary(_, a) => own_by(owners, a, row),
        Node::Binary(_, a, b) => {
            own_by(owners, a, row);
            own_by(owners, b, row)
        }
        Node::Choice(c, a, b) => {
            own_by(owners, c, row);
            own_by(owners, a, row);
            own_by(owners, b, row)
        }
        Node::Default(x, y, z, j, c) => {
            own_by(owners, x, row);
            own_by(owners, y, row);
            own_by(owners, z, row);
            own_by(owners, j, row);
            own_by(owners, c, row)
        }
    }
}

// Marks what every step of scope i depends on, from the last node to the first: by then each node has the step of what names it.
fn mark_nodes(book: &IndexedBook, i: usize, owners: &mut [u8], deps: &mut [u8])
    requires { WellNamed book.now.bytes.now × Roots (scopes_of book.now.bytes.now) i owners.old × (length deps.old ≡ 1640) }
    ensures { Marked deps.old deps.new (depends_on (scope_at (scopes_of book.now.bytes.now) i)) }
{
    let variables = book.variable_count(i);
    for n in (0..book.node_count(i)).rev() {
        let row = owners[n];
        if row != 255 {
            let node = book.node_at(i, n);
            mark_node(variables, node, row, owners, deps);
        }
    }
}

// Marks what every step of scope i depends on.
fn fill_reads(book: &IndexedBook, i: usize, deps: &mut [u8])
    requires { WellNamed book.now.bytes.now × (length deps.old ≡ 1640) }
    ensures { Marked deps.old deps.new (depends_on (scope_at (scopes_of book.now.bytes.now) i)) }
{
    // One byte for each node, in fixed memory: 255, which is no row, where it has no owner.
    let mut owners = [255u8; 256];
    own_clauses(book, i, &mut owners);
    mark_nodes(book, i, &mut owners, deps);
}

// How many steps scope i has: one for each variable and for each sub-scope.
fn step_count(book: &IndexedBook, i: usize) -> usize
    ensures { result ≡ step_count (scope_at (scopes_of book.now.bytes.now) i) }
{
    book.variable_count(i) + book.sub_scope_count(i)
}

// The order of scope i's steps, written from the first byte of `out`; no later byte changes. Answers its length: fewer than all steps
// exactly where there is a dependency cycle.
fn step_order(book: &IndexedBook, i: usize, out: &mut [u8]) -> usize
    requires { WellNamed book.now.bytes.now × (40 ≤ length out.old) }
    ensures { Written (step_order (scope_at (scopes_of book.now.bytes.now) i)) out.old result out.new }
{
    let mut deps = [255u8; 1640];
    fill_reads(book, i, &mut deps);
    let steps = step_count(book, i);
    write_order(&mut deps, steps, out)
}

// The order of every scope's steps, in a row of 40 bytes for each scope. Answers whether some scope has a dependency cycle.
pub fn fill_steps(book: &IndexedBook, orders: &mut [u8]) -> bool
    requires counted { book.now.scopes ≡ length (scopes_of book.now.bytes.now) }
    requires named { WellNamed book.now.bytes.now }
    requires room { 1280 ≤ length orders.old }
    ensures { StepsFilled (scopes_of book.now.bytes.now) result orders.new }
{
    for i in 0..book.scopes {
        let start = i * WIDTH;
        let taken = step_order(book, i, &mut orders[start..start + WIDTH]);
        let steps = step_count(book, i);
        if taken != steps {
            return true;
        }
    }
    false
}
