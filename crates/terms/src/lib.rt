// The nodes of a scope, evaluated on demand over the cells of variables: one branch of an "if", a right operand where the left gave a value,
// the justification where no exception gave one, the consequence where the justification is yes. An outcome is a cell, which takes less time
// than an enum.
#![tactic(auto)]

ghost use Rattle.std.specs.Prelude.{◌≡◌};
ghost use Rattle.calculus.specs.Values.{ranged as Values·ranged};
ghost use Rattle.calculus.specs.declared.Value.TheVariants.{Number};
ghost use Rattle.calculus.specs.declared.Unary.TheVariants.{Not, Negate};
ghost use Rattle.cells.specs.Codec.{truth_cell, value_cell, payload, held_cell, Codes};
ghost use Rattle.operators.specs.Kinds.{operator};
ghost use Rattle.terms.specs.Operators.{OnOne, OnTwo, OnFound, OnBoth};
ghost use Rattle.terms.specs.Outcomes.{outcome_in, is_leaf, Readable, ReadableLeaf, CodesLeaf, ReadableInner, ReadableDefault, ReadableException, GathersIn};
ghost use Rattle.terms.specs.Clauses.{rest_in, ReadableClause};

use cells::{ABOVE, BELOW, CONFLICT, EMPTY, MANY, NO, NOTHING, VARIABLES, YES, ZERO, join};
use integers::{bits_of, number_at, number_of};
use record::{
    KIND_ADD, KIND_AND, KIND_CHOICE, KIND_CONFLICT, KIND_CONSTANT, KIND_DEFINITION, KIND_EMPTY,
    KIND_EQUAL, KIND_LESS, KIND_NEGATE, KIND_NOT, KIND_NUMBER, KIND_OWN, KIND_SUBTRACT,
};

// The cell of a yes/no.
fn truth(b: bool) -> u64
    ensures { result ≡ truth_cell b }
{
    if b { YES } else { NO }
}

// The cell of a number.
fn number(z: i32) -> u64
    ensures { result ≡ value_cell (Number z) }
{
    ZERO + u64::from(bits_of(z))
}

// The cell of a number, or of the side on which it is out of range.
fn ranged(z: i64) -> u64
    ensures { Codes result (Values·ranged z) }
{
    match i32::try_from(z) {
        Ok(n) => number(n),
        Err(_) if z < 0 => BELOW,
        Err(_) => ABOVE,
    }
}

// The number in a cell; of a yes/no, 0.
fn signed(c: u64) -> i64
    ensures { result ≡ payload c }
{
    i64::from(number_of((c % 4294967296) as u32))
}

// "Not" of a cell; an end passes.
fn not(x: u64) -> u64
    ensures { OnOne Not x result }
{
    if EMPTY <= x {
        return x;
    }
    if x == YES { NO } else { YES }
}

// The negated number of a cell; an end passes.
fn negate(x: u64) -> u64
    ensures { OnOne Negate x result }
{
    if EMPTY <= x {
        return x;
    }
    ranged(-signed(x))
}

// The operator of a node's kind on two cells; the first end passes.
fn binary(kind: u8, x: u64, y: u64) -> u64
    ensures { OnTwo (operator kind) x y result }
{
    if EMPTY <= x {
        return x;
    }
    if EMPTY <= y {
        return y;
    }
    match kind {
        KIND_AND => truth((x == YES) & (y == YES)),
        KIND_ADD => ranged(signed(x) + signed(y)),
        KIND_SUBTRACT => ranged(signed(x) - signed(y)),
        KIND_EQUAL => truth(x == y),
        // Less: a node with two operands has no other kind.
        _ => truth(signed(x) < signed(y)),
    }
}

// What one exception comes to, or what an override tree hands over: an empty one to nothing.
pub fn found(o: u64) -> u64
    ensures { OnFound o result }
{
    if o == EMPTY { NOTHING } else { o }
}

// The exceptions so far, and one more; the first end stays.
pub fn gather(g: u64, o: u64) -> u64
    ensures { OnBoth g o result }
{
    if EMPTY <= g {
        return g;
    }
    let more = found(o);
    if EMPTY <= more {
        return more;
    }
    join(g, more)
}

// A variable's cell where it is read. One that is not set would hold no, but no step of an accepted book reads one.
fn held_cell(c: u64) -> u64
    ensures { result ≡ held_cell c }
{
    if c == NOTHING { NO } else { c }
}

// Whether a node of this kind is a leaf: a constant, a number or a variable. A leaf names no node.
fn is_leaf(kind: u8) -> bool
    ensures { result ≡ is_leaf kind }
{
    KIND_CONSTANT <= kind && kind < KIND_EMPTY
}

// The leaf whose record begins at a position.
fn leaf(book: &[u8], own: &[u64], called: &[u64], at: usize) -> u64
    requires { ReadableLeaf book.now own.now called.now at }
    ensures { CodesLeaf book.now own.now called.now at result }
{
    let kind = book[at];
    let a = book[at + 1];
    match kind {
        KIND_CONSTANT => truth(a == 1),
        KIND_NUMBER => number(number_at(book, at + 1)),
        KIND_OWN => held_cell(own[a as usize]),
        // A sub-scope's variable: a leaf has no other kind.
        _ => {
            let x = book[at + 2];
            held_cell(called[(a as usize) * VARIABLES + (x as usize)])
        }
    }
}

// Node n of a scope, by the scope's row of positions; a leaf is read at once.
#[cycle(eval_below_eval_default_eval_inner_exception)]
fn eval_below(book: &[u8], row: &[u16], own: &[u64], called: &[u64], n: usize) -> u64
    requires { Readable book.now row.now own.now called.now n }
    ensures { Codes result (outcome_in book.now row.now own.now called.now n) }
{
    let at = row[n] as usize;
    if is_leaf(book[at]) {
        return leaf(book, own, called, at);
    }
    eval_inner(book, row, own, called, n)
}

// Node n, no leaf. A node names only nodes below itself.
#[cycle(eval_below_eval_default_eval_inner_exception)]
fn eval_inner(book: &[u8], row: &[u16], own: &[u64], called: &[u64], n: usize) -> u64
    requires { ReadableInner book.now row.now own.now called.now n }
    ensures { Codes result (outcome_in book.now row.now own.now called.now n) }
{
    let at = row[n] as usize;
    let kind = book[at];
    let a = book[at + 1];
    match kind {
        KIND_EMPTY => EMPTY,
        KIND_CONFLICT => CONFLICT,
        KIND_NOT => not(eval_below(book, row, own, called, a as usize)),
        KIND_NEGATE => negate(eval_below(book, row, own, called, a as usize)),
        KIND_AND | KIND_ADD | KIND_SUBTRACT | KIND_EQUAL | KIND_LESS => {
            let b = book[at + 2];
            let x = eval_below(book, row, own, called, a as usize);
            if EMPTY <= x {
                return x;
            }
            let y = eval_below(book, row, own, called, b as usize);
            binary(kind, x, y)
        }
        KIND_CHOICE => {
            let t = eval_below(book, row, own, called, a as usize);
            if EMPTY <= t {
                return t;
            }
            let taken = if t == YES { book[at + 2] } else { book[at + 3] };
            eval_below(book, row, own, called, taken as usize)
        }
        // Default: a node has no other kind.
        _ => eval_default(book, row, own, called, n),
    }
}

// Node n, a default: three exceptions, justification, consequence.
#[cycle(eval_below_eval_default_eval_inner_exception)]
fn eval_default(book: &[u8], row: &[u16], own: &[u64], called: &[u64], n: usize) -> u64
    requires { ReadableDefault book.now row.now own.now called.now n }
    ensures { Codes result (outcome_in book.now row.now own.now called.now n) }
{
    let at = row[n] as usize;
    let first = exception(book, row, own, called, NOTHING, book[at + 1]);
    let second = exception(book, row, own, called, first, book[at + 2]);
    let all = exception(book, row, own, called, second, book[at + 3]);
    if all == MANY {
        return CONFLICT;
    }
    if all != NOTHING {
        return all;
    }
    let j = eval_below(book, row, own, called, book[at + 4] as usize);
    if EMPTY <= j {
        return j;
    }
    if j == YES {
        eval_below(book, row, own, called, book[at + 5] as usize)
    } else {
        EMPTY
    }
}

// The exceptions so far, and node x; where they have ended, x is not evaluated.
#[cycle(eval_below_eval_default_eval_inner_exception)]
fn exception(book: &[u8], row: &[u16], own: &[u64], called: &[u64], g: u64, x: u8) -> u64
    requires { ReadableException book.now row.now own.now called.now x }
    ensures { GathersIn book.now row.now own.now called.now g x result }
{
    if x == 255 {
        return g;
    }
    if EMPTY <= g {
        return g;
    }
    let o = eval_below(book, row, own, called, x as usize);
    gather(g, o)
}

// The consequence of the clause at a position where its condition is yes.
pub fn eval_rest(book: &[u8], row: &[u16], own: &[u64], called: &[u64], at: usize) -> u64
    requires { ReadableClause book.now row.now own.now called.now at }
    ensures { Codes result (rest_in book.now row.now own.now called.now at) }
{
    let kind = book[at];
    let condition = book[at + 4];
    let last = book[at + 5];
    if condition != 255 {
        let t = eval_below(book, row, own, called, condition as usize);
        if EMPTY <= t {
            return t;
        }
        if t != YES {
            return EMPTY;
        }
    }
    if kind == KIND_DEFINITION {
        return eval_below(book, row, own, called, last as usize);
    }
    truth(last == 1)
}
