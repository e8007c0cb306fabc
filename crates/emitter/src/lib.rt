// Emitting code: from its end to its beginning, so that every distance is known when it is written.
#![tactic(auto)]

ghost use Rattle.std.specs.Prelude.{◌≡◌, ◌<◌, length};
ghost use Rattle.calculus.specs.Terms.{literal};
ghost use Rattle.calculus.specs.declared.Value.TheVariants as value;
ghost use Rattle.book.specs.Decode.{scopes_of};
ghost use Rattle.book.specs.References.{scope_at};
ghost use Rattle.book.specs.Steps.{step_count};
ghost use Rattle.trees.specs.Chains.{Ready};
ghost use Rattle.translation.specs.Code.{unary_kind, binary_kind, size, sizes};
ghost use Rattle.emitter.specs.Emission.{Emits, Emitted, Room, one, two, jump};
ghost use Rattle.emitter.specs.Pieces.{node_below, branches_size, caught, EmittedBranches, EmittedAll, exception_below, no_exception, default_below};
ghost use Rattle.emitter.specs.Pieces.{around_size, EmittedAround, condition_at, consequence_at, rest_at, siblings, clause_term_at};
ghost use Rattle.emitter.specs.Pieces.{last_outcome, last_resort, bases_at, tree_at};
ghost use Rattle.emitter.specs.Pieces.{variable_piece, variable_size, override_piece, override_size, call_piece, call_size, step_piece, step_size};
ghost use Rattle.emitter.specs.Pieces.{steps_piece, steps_size, head_count, head_byte, heads_piece, heads_size};
ghost use Rattle.emitter.specs.Pieces.{block_piece, block_size, book_piece, book_size, Ordered, Called, Block, Tabled};

use book::{Consequence, Node, Target};
use calculus::{Binary, Unary};
use index::IndexedBook;
use integers::bits_of;
use links::{EXCEPTIONS, RULES, SIBLINGS, fill_links, slot_of};
use record::{
    KIND_ADD, KIND_AND, KIND_CALLED, KIND_CONSTANT, KIND_END_TRY, KIND_ENTER, KIND_EQUAL,
    KIND_JOIN, KIND_JUMP, KIND_JUMP_IF_GIVEN, KIND_JUMP_IF_NO, KIND_LESS, KIND_NEGATE, KIND_NOT,
    KIND_NUMBER, KIND_OVERRIDE, KIND_OWN, KIND_PUSH_NOTHING, KIND_RAISE_CONFLICT, KIND_RAISE_EMPTY,
    KIND_SCOPE, KIND_SETTLE, KIND_STORE, KIND_SUB_SCOPE, KIND_SUBTRACT, KIND_TRY, KIND_VARIABLE,
};
use slices::byte_at;
use trees::has_clause;

// A default: three exceptions (255: none), justification, consequence.
#[derive(Clone, Copy)]
struct DefaultNode {
    pub first: u8,
    pub second: u8,
    pub third: u8,
    pub justification: u8,
    pub consequence: u8,
}

// Writes a byte in front of the last `at` bytes; where the memory is too short, nothing. Each function that writes returns the next position.
fn put_one(out: &mut [u8], at: usize, a: u8) -> usize
    requires { Room at 1 }
    ensures { Emits out.old at (one a) 1 result out.new }
{
    if out.len() <= at {
        return at + 1;
    }
    let place = out.len() - 1 - at;
    out[place] = a;
    at + 1
}

// Two bytes.
fn put_two(out: &mut [u8], at: usize, a: u8, b: u8) -> usize
    requires { Room at 2 }
    ensures { Emits out.old at (two a b) 2 result out.new }
{
    let end = at + 2;
    if out.len() < end {
        return end;
    }
    let place = out.len() - end;
    out[place + 1] = b;
    out[place] = a;
    end
}

// An instruction with a distance.
fn put_far(out: &mut [u8], at: usize, kind: u8, d: usize) -> usize
    requires { Room at 3 }
    ensures { Emits out.old at (jump kind d) 3 result out.new }
{
    let end = at + 3;
    if out.len() < end {
        return end;
    }
    let place = out.len() - end;
    out[place + 2] = (d % 256) as u8;
    out[place + 1] = (d / 256 % 256) as u8;
    out[place] = kind;
    end
}

// A constant.
fn put_truth(out: &mut [u8], at: usize, b: bool) -> usize
    requires { Room at 2 }
    ensures { Emitted out.old at (literal (value.Truth b)) result out.new }
{
    put_two(out, at, KIND_CONSTANT, u8::from(b))
}

// A number.
fn put_number(out: &mut [u8], at: usize, z: i32) -> usize
    requires { Room at 5 }
    ensures { Emitted out.old at (literal (value.Number z)) result out.new }
{
    let u = bits_of(z);
    let p = put_two(out, at, (u / 256 % 256) as u8, (u % 256) as u8);
    let q = put_two(
        out,
        p,
        (u / 256 / 256 / 256 % 256) as u8,
        (u / 256 / 256 % 256) as u8,
    );
    put_one(out, q, KIND_NUMBER)
}

// What stands behind an exception: the end of its try, and the join of what it came to.
fn put_caught(out: &mut [u8], at: usize) -> usize
    requires { Room at 6 }
    ensures { Emits out.old at caught 6 result out.new }
{
    let p = put_two(out, at, KIND_PUSH_NOTHING, KIND_JOIN);
    let q = put_far(out, p, KIND_JUMP, 1);
    put_one(out, q, KIND_END_TRY)
}

// The kind of an operator of one operand.
fn unary_kind(op: Unary) -> u8
    ensures { result ≡ unary_kind op }
{
    match op {
        Unary::Not => KIND_NOT,
        Unary::Negate => KIND_NEGATE,
    }
}

// The kind of an operator of two operands.
fn binary_kind(op: Binary) -> u8
    ensures { result ≡ binary_kind op }
{
    match op {
        Binary::And => KIND_AND,
        Binary::Add => KIND_ADD,
        Binary::Subtract => KIND_SUBTRACT,
        Binary::Equal => KIND_EQUAL,
        Binary::Less => KIND_LESS,
    }
}

// Whether the three exceptions of a default are none.
fn no_exception(x: u8, y: u8, z: u8) -> bool
    ensures { result ≡ no_exception x y z }
{
    x == 255 && y == 255 && z == 255
}

// Node n of scope i among the nodes below a limit. A node names only nodes below itself.
#[cycle(emit_below_emit_branches_emit_default_emit_exception)]
fn emit_below(
    book: &IndexedBook,
    i: usize,
    limit: usize,
    n: usize,
    out: &mut [u8],
    at: usize,
) -> usize
    requires { Room at (size (node_below book.now.bytes.now i limit n)) }
    ensures { Emitted out.old at (node_below book.now.bytes.now i limit n) result out.new }
{
    if limit <= n {
        return put_one(out, at, KIND_RAISE_EMPTY);
    }
    let node = book.node_at(i, n);
    match node {
        Node::Constant(b) => put_truth(out, at, b),
        Node::Number(z) => put_number(out, at, z),
        Node::Own(x) => put_two(out, at, KIND_OWN, x),
        Node::Called(k, x) => {
            let p = put_two(out, at, k, x);
            put_one(out, p, KIND_CALLED)
        }
        Node::Empty(_) => put_one(out, at, KIND_RAISE_EMPTY),
        Node::Conflict(_) => put_one(out, at, KIND_RAISE_CONFLICT),
        Node::Unary(op, a) => {
            let p = put_one(out, at, unary_kind(op));
            emit_below(book, i, n, a as usize, out, p)
        }
        Node::Binary(op, a, b) => {
            let p = put_one(out, at, binary_kind(op));
            let q = emit_below(book, i, n, b as usize, out, p);
            emit_below(book, i, n, a as usize, out, q)
        }
        Node::Choice(c, a, b) => {
            let p = emit_below(book, i, n, b as usize, out, at);
            emit_branches(book, i, n, c, a, p - at, out, p)
        }
        Node::Default(x, y, z, j, c) => {
            let d = DefaultNode {
                first: x,
                second: y,
                third: z,
                justification: j,
                consequence: c,
            };
            emit_default(book, i, n, d, out, at)
        }
    }
}

// A condition and the branch that it takes, in front of another branch of d bytes.
#[cycle(emit_below_emit_branches_emit_default_emit_exception)]
fn emit_branches(
    book: &IndexedBook,
    i: usize,
    limit: usize,
    c: u8,
    a: u8,
    d: usize,
    out: &mut [u8],
    at: usize,
) -> usize
    requires { Room at (branches_size (node_below book.now.bytes.now i limit c) (node_below book.now.bytes.now i limit a)) }
    ensures { EmittedBranches out.old at (node_below book.now.bytes.now i limit c) (node_below book.now.bytes.now i limit a) d result out.new }
{
    let p = put_far(out, at, KIND_JUMP, d);
    let q = emit_below(book, i, limit, a as usize, out, p);
    let r = put_far(out, q, KIND_JUMP_IF_NO, q - p + 3);
    emit_below(book, i, limit, c as usize, out, r)
}

// An exception with its try; nothing for 255.
#[cycle(emit_below_emit_branches_emit_default_emit_exception)]
fn emit_exception(
    book: &IndexedBook,
    i: usize,
    limit: usize,
    x: u8,
    out: &mut [u8],
    at: usize,
) -> usize
    requires { Room at (sizes (exception_below book.now.bytes.now i limit x)) }
    ensures { EmittedAll out.old at (exception_below book.now.bytes.now i limit x) result out.new }
{
    if x == 255 {
        return at;
    }
    let p = put_caught(out, at);
    let q = emit_below(book, i, limit, x as usize, out, p);
    put_far(out, q, KIND_TRY, q - p + 4)
}

// A default of nodes below a limit.
#[cycle(emit_below_emit_branches_emit_default_emit_exception)]
fn emit_default(
    book: &IndexedBook,
    i: usize,
    limit: usize,
    d: DefaultNode,
    out: &mut [u8],
    at: usize,
) -> usize
    requires { Room at (size (default_below book.now.bytes.now i limit d.first d.second d.third d.justification d.consequence)) }
    ensures { Emitted out.old at (default_below book.now.bytes.now i limit d.first d.second d.third d.justification d.consequence) result out.new }
{
    let p = put_one(out, at, KIND_RAISE_EMPTY);
    let q = emit_branches(book, i, limit, d.justification, d.consequence, 1, out, p);
    if no_exception(d.first, d.second, d.third) {
        return q;
    }
    let r = put_far(out, q, KIND_SETTLE, q - at);
    let s = emit_exception(book, i, limit, d.third, out, r);
    let t = emit_exception(book, i, limit, d.second, out, s);
    let u = emit_exception(book, i, limit, d.first, out, t);
    put_one(out, u, KIND_PUSH_NOTHING)
}

// A clause's condition, node n of scope i; 255: always.
fn emit_condition(book: &IndexedBook, i: usize, n: u8, out: &mut [u8], at: usize) -> usize
    requires { Room at (size (condition_at book.now.bytes.now i n)) }
    ensures { Emitted out.old at (condition_at book.now.bytes.now i n) result out.new }
{
    if n == 255 {
        return put_truth(out, at, true);
    }
    let limit = book.node_count(i);
    emit_below(book, i, limit, n as usize, out, at)
}

// A clause's consequence: a node of scope i, or a rule's no or yes.
fn emit_consequence(
    book: &IndexedBook,
    i: usize,
    c: Consequence,
    out: &mut [u8],
    at: usize,
) -> usize
    requires { Room at (size (consequence_at book.now.bytes.now i c)) }
    ensures { Emitted out.old at (consequence_at book.now.bytes.now i c) result out.new }
{
    match c {
        Consequence::Of(n) => {
            let limit = book.node_count(i);
            emit_below(book, i, limit, n as usize, out, at)
        }
        Consequence::Fixed(b) => put_truth(out, at, b),
    }
}

// Clause c of scope i without its exceptions.
fn emit_rest(book: &IndexedBook, i: usize, c: usize, out: &mut [u8], at: usize) -> usize
    requires { Room at (size (rest_at book.now.bytes.now i c)) }
    ensures { Emitted out.old at (rest_at book.now.bytes.now i c) result out.new }
{
    let clause = book.clause_at(i, c);
    let p = put_one(out, at, KIND_RAISE_EMPTY);
    let q = put_far(out, p, KIND_JUMP, 1);
    let r = emit_consequence(book, i, clause.consequence, out, q);
    let s = put_far(out, r, KIND_JUMP_IF_NO, r - q + 3);
    emit_condition(book, i, clause.condition, out, s)
}

// Clause c and those behind it in its chain, each with its try.
#[cycle(emit_around_emit_chain)]
fn emit_chain(
    book: &IndexedBook,
    links: &[u8],
    i: usize,
    c: usize,
    out: &mut [u8],
    at: usize,
) -> usize
    requires { Ready book.now.bytes.now book.now.index.now links.now i × Room at (sizes (siblings book.now.bytes.now i c)) }
    ensures { EmittedAll out.old at (siblings book.now.bytes.now i c) result out.new }
{
    if book.clause_count(i) <= c {
        return at;
    }
    let next = byte_at(links, SIBLINGS + c) as usize;
    let first = byte_at(links, EXCEPTIONS + c) as usize;
    let p = emit_chain(book, links, i, next, out, at);
    let q = put_caught(out, p);
    let r = emit_rest(book, i, c, out, q);
    let s = emit_around(book, links, i, first, r - q, out, r);
    put_far(out, s, KIND_TRY, s - q + 4)
}

// The exceptions that begin with a clause, in front of a justification and consequence of d bytes.
#[cycle(emit_around_emit_chain)]
fn emit_around(
    book: &IndexedBook,
    links: &[u8],
    i: usize,
    first: usize,
    d: usize,
    out: &mut [u8],
    at: usize,
) -> usize
    requires { Ready book.now.bytes.now book.now.index.now links.now i × Room at (around_size (siblings book.now.bytes.now i first)) }
    ensures { EmittedAround out.old at (siblings book.now.bytes.now i first) d result out.new }
{
    if book.clause_count(i) <= first {
        return at;
    }
    let p = put_far(out, at, KIND_SETTLE, d);
    let q = emit_chain(book, links, i, first, out, p);
    put_one(out, q, KIND_PUSH_NOTHING)
}

// Clause c of scope i.
fn emit_clause(
    book: &IndexedBook,
    links: &[u8],
    i: usize,
    c: usize,
    out: &mut [u8],
    at: usize,
) -> usize
    requires { Ready book.now.bytes.now book.now.index.now links.now i × (c < length (scope_at (scopes_of book.now.bytes.now) i).clauses) × Room at (size (clause_term_at book.now.bytes.now i c)) }
    ensures { Emitted out.old at (clause_term_at book.now.bytes.now i c) result out.new }
{
    let first = byte_at(links, EXCEPTIONS + c) as usize;
    let p = emit_rest(book, i, c, out, at);
    emit_around(book, links, i, first, p - at, out, p)
}

// What a target comes to where its bases come to nothing: no if it has rules, else empty.
fn put_outcome(out: &mut [u8], at: usize, ruled: bool) -> usize
    requires { Room at (size (last_outcome ruled)) }
    ensures { Emitted out.old at (last_outcome ruled) result out.new }
{
    if ruled {
        put_truth(out, at, false)
    } else {
        put_one(out, at, KIND_RAISE_EMPTY)
    }
}

// What stands behind the bases of a target.
fn put_last(out: &mut [u8], at: usize, ruled: bool) -> usize
    requires { Room at (size (last_resort ruled)) }
    ensures { Emitted out.old at (last_resort ruled) result out.new }
{
    let p = put_one(out, at, KIND_RAISE_EMPTY);
    let q = put_far(out, p, KIND_JUMP, 1);
    let r = put_outcome(out, q, ruled);
    let s = put_far(out, r, KIND_JUMP_IF_NO, r - q + 3);
    put_truth(out, s, true)
}

// The bases that begin with a clause, as exceptions.
fn emit_bases(
    book: &IndexedBook,
    links: &[u8],
    i: usize,
    first: usize,
    ruled: bool,
    out: &mut [u8],
    at: usize,
) -> usize
    requires { Ready book.now.bytes.now book.now.index.now links.now i × Room at (size (bases_at book.now.bytes.now i first ruled)) }
    ensures { Emitted out.old at (bases_at book.now.bytes.now i first ruled) result out.new }
{
    let p = put_last(out, at, ruled);
    emit_around(book, links, i, first, p - at, out, p)
}

// The default tree of a target of scope i.
fn emit_tree(
    book: &IndexedBook,
    links: &[u8],
    i: usize,
    sub: u8,
    variable: u8,
    out: &mut [u8],
    at: usize,
) -> usize
    requires { Ready book.now.bytes.now book.now.index.now links.now i × Room at (size (tree_at book.now.bytes.now i sub variable)) }
    ensures { Emitted out.old at (tree_at book.now.bytes.now i sub variable) result out.new }
{
    let slot = slot_of(Target { sub, variable });
    let count = book.clause_count(i);
    let first = byte_at(links, slot) as usize;
    if byte_at(links, RULES + slot) != 255 {
        return emit_bases(book, links, i, first, true, out, at);
    }
    if count <= first {
        return put_one(out, at, KIND_RAISE_EMPTY);
    }
    let next = byte_at(links, SIBLINGS + first) as usize;
    if count <= next {
        return emit_clause(book, links, i, first, out, at);
    }
    emit_bases(book, links, i, first, false, out, at)
}

// The step of variable x of scope i.
fn emit_variable(
    book: &IndexedBook,
    links: &[u8],
    i: usize,
    x: u8,
    out: &mut [u8],
    at: usize,
) -> usize
    requires { Ready book.now.bytes.now book.now.index.now links.now i × Room at (variable_size book.now.bytes.now i x) }
    ensures { Emits out.old at (variable_piece book.now.bytes.now i x) (variable_size book.now.bytes.now i x) result out.new }
{
    let p = put_two(out, at, KIND_STORE, x);
    let q = emit_tree(book, links, i, 255, x, out, p);
    let d = q - at;
    let r = put_two(out, q, (d / 256 % 256) as u8, (d % 256) as u8);
    put_two(out, r, KIND_JUMP_IF_GIVEN, x)
}

// The override of variable v of sub-scope k of scope i, in a try that lands behind its store; nothing where no clause has that target.
fn emit_override(
    book: &IndexedBook,
    links: &[u8],
    i: usize,
    k: u8,
    v: u8,
    out: &mut [u8],
    at: usize,
) -> usize
    requires { Ready book.now.bytes.now book.now.index.now links.now i × Room at (override_size book.now.bytes.now i k v) }
    ensures { Emits out.old at (override_piece book.now.bytes.now i k v) (override_size book.now.bytes.now i k v) result out.new }
{
    if !has_clause(book, links, i, k, v) {
        return at;
    }
    let p = put_two(out, at, k, v);
    let q = put_two(out, p, KIND_END_TRY, KIND_OVERRIDE);
    let r = emit_tree(book, links, i, k, v, out, q);
    put_far(out, r, KIND_TRY, r - q + 4)
}

// The step of the call of sub-scope k of scope i.
fn emit_call(
    book: &IndexedBook,
    links: &[u8],
    i: usize,
    k: usize,
    out: &mut [u8],
    at: usize,
) -> usize
    requires { Ready book.now.bytes.now book.now.index.now links.now i × (k < length (scope_at (scopes_of book.now.bytes.now) i).sub_scopes) × Room at (call_size book.now.bytes.now i k) }
    ensures { Emits out.old at (call_piece book.now.bytes.now i k) (call_size book.now.bytes.now i k) result out.new }
{
    let j = book.sub_scope_at(i, k);
    let mut p = put_two(out, at, KIND_ENTER, k as u8);
    for v in (0..book.variable_count(j)).rev() {
        p = emit_override(book, links, i, k as u8, v as u8, out, p);
    }
    p
}

// A step of scope i, by its number.
fn emit_step(
    book: &IndexedBook,
    links: &[u8],
    i: usize,
    x: usize,
    out: &mut [u8],
    at: usize,
) -> usize
    requires { Ready book.now.bytes.now book.now.index.now links.now i × (x < step_count (scope_at (scopes_of book.now.bytes.now) i)) × Room at (step_size book.now.bytes.now i x) }
    ensures { Emits out.old at (step_piece book.now.bytes.now i x) (step_size book.now.bytes.now i x) result out.new }
{
    let variables = book.variable_count(i);
    if x < variables {
        emit_variable(book, links, i, x as u8, out, at)
    } else {
        emit_call(book, links, i, x - variables, out, at)
    }
}

// The steps of scope i, in their order.
fn emit_steps(
    book: &IndexedBook,
    links: &[u8],
    orders: &[u8],
    i: usize,
    out: &mut [u8],
    at: usize,
) -> usize
    requires { Ready book.now.bytes.now book.now.index.now links.now i × Ordered book.now.bytes.now orders.now i × Room at (steps_size book.now.bytes.now i) }
    ensures { Emits out.old at (steps_piece book.now.bytes.now i) (steps_size book.now.bytes.now i) result out.new }
{
    let count = book.variable_count(i) + book.sub_scope_count(i);
    let mut p = at;
    for n in (0..count).rev() {
        let x = byte_at(orders, i * order::WIDTH + n) as usize;
        p = emit_step(book, links, i, x, out, p);
    }
    p
}

// What stands behind a kind of a block's head: for kind 2 the type of variable n of scope i, for kind 3 the scope of its sub-scope n.
fn head_byte(book: &IndexedBook, i: usize, kind: u8, n: usize) -> u8
    requires { Called book.now.bytes.now i × (n < head_count book.now.bytes.now i kind) }
    ensures { result ≡ head_byte book.now.bytes.now i kind n }
{
    if kind == KIND_VARIABLE {
        return u8::from(book.variable_at(i, n).holds);
    }
    book.sub_scope_at(i, n) as u8
}

// The variables of scope i, for kind 2, or its sub-scopes, for kind 3, of which there are so many.
fn emit_heads(
    book: &IndexedBook,
    i: usize,
    kind: u8,
    count: usize,
    out: &mut [u8],
    at: usize,
) -> usize
    requires { Called book.now.bytes.now i × (count ≡ head_count book.now.bytes.now i kind) × Room at (heads_size book.now.bytes.now i kind) }
    ensures { Emits out.old at (heads_piece book.now.bytes.now i kind) (heads_size book.now.bytes.now i kind) result out.new }
{
    let mut p = at;
    for n in (0..count).rev() {
        let b = head_byte(book, i, kind, n);
        p = put_two(out, p, kind, b);
    }
    p
}

// The block of scope i.
fn emit_block(book: &IndexedBook, orders: &[u8], i: usize, out: &mut [u8], at: usize) -> usize
    requires { Block book.now.bytes.now book.now.index.now orders.now i × Room at (block_size book.now.bytes.now i) }
    ensures { Emits out.old at (block_piece book.now.bytes.now i) (block_size book.now.bytes.now i) result out.new }
{
    let variables = book.variable_count(i);
    let subs = book.sub_scope_count(i);
    let mut links = [255u8; links::WIDTH];
    fill_links(book, i, &mut links);
    let p = emit_steps(book, &links, orders, i, out, at);
    let q = emit_heads(book, i, KIND_SUB_SCOPE, subs, out, p);
    let r = emit_heads(book, i, KIND_VARIABLE, variables, out, q);
    put_two(out, r, KIND_SCOPE, i as u8)
}

// The code of an accepted book, at the end of memory that holds it; its length in any memory.
pub fn emit_blocks(book: &IndexedBook, blocks: &[u8], orders: &[u8], out: &mut [u8]) -> usize
    requires { Tabled book.now.bytes.now book.now.index.now blocks.now orders.now book.now.scopes }
    ensures { Emits out.old 0 (book_piece book.now.bytes.now) (book_size book.now.bytes.now) result out.new }
{
    let mut p = 0;
    for m in (0..book.scopes).rev() {
        let i = byte_at(blocks, m) as usize;
        p = emit_block(book, orders, i, out, p);
    }
    p
}
