// The instructions of accepted code other than the entry of a sub-scope, over parts of a lent stack and of lent tries, and the frame of an entry,
// as specs/Views.antt sets it out.
#![tactic(auto)]

ghost use Rattle.std.specs.Prelude.{◌≡◌, List, ℕ, ◌+◌, ◌-◌, ◌*◌, ◌<◌, ◌≤◌, length, get_or, eqb};
ghost use Rattle.slices.specs.Bytes.{big_endian, number_at};
ghost use Rattle.calculus.specs.declared.Joined.TheVariants.{One};
ghost use Rattle.cells.specs.Cells.{given_of, held};
ghost use Rattle.cells.specs.Joining.{joined_of};
ghost use Rattle.book.specs.Syntax.{same_type};
ghost use Rattle.lists.specs.Writing.{value_type};
ghost use Rattle.machine.specs.Instructions.{Instruction};
ghost use Rattle.machine.specs.Machine.{Memory, go, answered, pushed, raised, tried, closed, read_from, read_in, jumped_if_given, effect, Surroundings};
ghost use Rattle.instructions.specs.Views.{entries, opened, own_cell, callee_at};
ghost use Rattle.directory.specs.Layout.{type_in, block_in};
ghost use Rattle.instructions.specs.Effects.{Room, Moves, Encodes, Takes, suitable, InFrame, Storing, Handing, StoreAt, OverrideAt, Stepping, Stepped};

use answers::Cause;
use book::ValueType;
use calculus::{Binary, Unary, Value};
use cells::{MANY, NO, NOTHING, VARIABLES, ZERO, cell_of, join, value_in};
use directory::{block_of, type_at};
use integers::{distance_at, number_at};
use operators::{apply_binary, apply_unary, operator_of, truth_of};
use record::{
    KIND_ADD, KIND_AND, KIND_CALLED, KIND_CONSTANT, KIND_END_TRY, KIND_EQUAL, KIND_JOIN, KIND_JUMP,
    KIND_JUMP_IF_GIVEN, KIND_JUMP_IF_NO, KIND_LESS, KIND_NEGATE, KIND_NOT, KIND_NUMBER,
    KIND_OVERRIDE, KIND_OWN, KIND_PUSH_NOTHING, KIND_RAISE_CONFLICT, KIND_RAISE_EMPTY, KIND_SETTLE,
    KIND_STORE, KIND_SUBTRACT, KIND_TRY, LENGTH_CALLED, LENGTH_CONSTANT, LENGTH_DISTANCE,
    LENGTH_NUMBER, LENGTH_OWN, LENGTH_OWN_DISTANCE,
};
use slices::byte_at;
use types::{operand_type, unary_type};

// A place in the run of a block: the byte, the stack's height, the open tries, and the count of scopes entered.
#[derive(Clone, Copy)]
pub struct Place {
    pub at: usize,
    pub height: usize,
    pub tries: usize,
    pub count: usize,
}

// How a run goes on: so many bytes behind an instruction's kind, with a height and so many open tries.
#[derive(Clone, Copy)]
pub struct Onward {
    pub passed: usize,
    pub height: usize,
    pub tries: usize,
}

// What stops a run at an instruction; the lent slices may be too short.
#[derive(Clone, Copy)]
pub enum Stop {
    Ended(Cause),
    Stuck,
    NoRoom,
}

// In a frame: the marks of entered sub-scopes, behind the flags of stored variables, and the cells of the sub-scopes' variables.
pub const MARKS: usize = 32;

pub const CALLED: usize = 40;

// The limits of one entry.
const STACK: usize = 1024;

const TRIES: usize = 512;

// The cell of a value, which is also its entry.
fn encode(v: Value) -> u64
    ensures { Encodes v result }
{
    cell_of(v)
}

fn type_in(v: Value) -> ValueType
    ensures { result ≡ value_type v }
{
    match v {
        Value::Truth(_) => ValueType::YesNo,
        Value::Number(_) => ValueType::Numeric,
    }
}

fn has_type(t: ValueType, v: Value) -> bool
    ensures { result ≡ same_type t (value_type v) }
{
    t == type_in(v)
}

// The value on top of the stack.
fn top_value(st: &[u64], h: usize) -> Option<Value>
    requires { h ≤ length st.now }
    ensures { Takes result st.now h }
{
    if h == 0 {
        return None;
    }
    let c = st[h - 1];
    if c == NOTHING {
        return None;
    }
    if c < MANY {
        return Some(value_in(c));
    }
    None
}

// Pushes an entry, n bytes passed behind the kind.
fn push(st: &mut [u64], h: usize, e: u64, n: usize, t: usize) -> Result<Onward, Stop>
    ensures { (tr : List ℕ) (m : Memory) → Room h t st.old tr
        → Moves result n st.new tr m (pushed (joined_of e) (entries st.old h) (opened tr t) m) }
{
    if STACK <= h {
        return Err(Stop::Stuck);
    }
    if st.len() <= h {
        return Err(Stop::NoRoom);
    }
    st[h] = e;
    Ok(Onward {
        passed: n,
        height: h + 1,
        tries: t,
    })
}

// Pushes what an operator gives onto a stack that had more.
fn answer(o: Result<Value, Cause>, st: &mut [u64], h: usize, t: usize) -> Result<Onward, Stop>
    requires { (h < length st.old) × (h < 1024) }
    ensures { (tr : List ℕ) (m : Memory) → (t ≤ 512) × (t * 2 ≤ length tr)
        → Moves result 0 st.new tr m (answered o (entries st.old h) (opened tr t) m) }
{
    match o {
        Ok(v) => {
            st[h] = encode(v);
            Ok(Onward {
                passed: 0,
                height: h + 1,
                tries: t,
            })
        }
        Err(c) => Err(Stop::Ended(c)),
    }
}

// An operator on the value on top.
fn unary(op: Unary, st: &mut [u64], h: usize, t: usize) -> Result<Onward, Stop>
    requires { (h ≤ length st.old) × (h ≤ 1024) }
    ensures { (env : Surroundings) (tr : List ℕ) (m : Memory) (left : ℕ) → (t ≤ 512) × (t * 2 ≤ length tr)
        → Moves result 0 st.new tr m (effect env (Instruction.unary op) left (entries st.old h) (opened tr t) m) }
{
    let Some(v) = top_value(st, h) else {
        return Err(Stop::Stuck);
    };
    if !has_type(unary_type(op), v) {
        return Err(Stop::Stuck);
    }
    answer(apply_unary(op, v), st, h - 1, t)
}

// An operator on the top two, the right operand on top.
fn binary(op: Binary, st: &mut [u64], h: usize, t: usize) -> Result<Onward, Stop>
    requires { (h ≤ length st.old) × (h ≤ 1024) }
    ensures { (env : Surroundings) (tr : List ℕ) (m : Memory) (left : ℕ) → (t ≤ 512) × (t * 2 ≤ length tr)
        → Moves result 0 st.new tr m (effect env (Instruction.binary op) left (entries st.old h) (opened tr t) m) }
{
    let Some(w) = top_value(st, h) else {
        return Err(Stop::Stuck);
    };
    let less = h - 1;
    let Some(v) = top_value(st, less) else {
        return Err(Stop::Stuck);
    };
    if !suits(op, v, w) {
        return Err(Stop::Stuck);
    }
    answer(apply_binary(op, v, w), st, less - 1, t)
}

// Whether two values have the types that an operator wants.
fn suits(op: Binary, v: Value, w: Value) -> bool
    ensures { result ≡ suitable op v w }
{
    let wanted = operand_type(op, type_in(v));
    has_type(wanted, v) && has_type(wanted, w)
}

// Joins the top two, the right one on top.
fn join_top(st: &mut [u64], h: usize, t: usize) -> Result<Onward, Stop>
    requires { (h ≤ length st.old) × (h ≤ 1024) }
    ensures { (env : Surroundings) (tr : List ℕ) (m : Memory) (left : ℕ) → (t ≤ 512) × (t * 2 ≤ length tr)
        → Moves result 0 st.new tr m (effect env Instruction.join left (entries st.old h) (opened tr t) m) }
{
    if h < 2 {
        return Err(Stop::Stuck);
    }
    let a = st[h - 2];
    let b = st[h - 1];
    st[h - 2] = join(a, b);
    Ok(Onward {
        passed: 0,
        height: h - 1,
        tries: t,
    })
}

// Jumps.
fn jump(d: usize, h: usize, t: usize) -> Result<Onward, Stop>
    requires { d < 65536 }
    ensures { (st tr : List ℕ) (m : Memory) → Room h t st tr → Moves result 2 st tr m (go d (entries st h) (opened tr t) m) }
{
    Ok(Onward {
        passed: LENGTH_DISTANCE + d,
        height: h,
        tries: t,
    })
}

// Takes a yes/no, and jumps on no.
fn branch(d: usize, st: &[u64], h: usize, t: usize) -> Result<Onward, Stop>
    requires { (h ≤ length st.now) × (h ≤ 1024) × (d < 65536) }
    ensures { (env : Surroundings) (tr : List ℕ) (m : Memory) (left : ℕ) → (t ≤ 512) × (t * 2 ≤ length tr)
        → Moves result 2 st.now tr m (effect env (Instruction.jump_if_no d) left (entries st.now h) (opened tr t) m) }
{
    let Some(v) = top_value(st, h) else {
        return Err(Stop::Stuck);
    };
    if !has_type(ValueType::YesNo, v) {
        return Err(Stop::Stuck);
    }
    if truth_of(v) {
        return Ok(Onward {
            passed: LENGTH_DISTANCE,
            height: h - 1,
            tries: t,
        });
    }
    Ok(Onward {
        passed: LENGTH_DISTANCE + d,
        height: h - 1,
        tries: t,
    })
}

// Many ends the run, a value stays and jumps, nothing is removed.
fn settle(d: usize, st: &[u64], h: usize, t: usize) -> Result<Onward, Stop>
    requires { (h ≤ length st.now) × (h ≤ 1024) × (d < 65536) }
    ensures { (env : Surroundings) (tr : List ℕ) (m : Memory) (left : ℕ) → (t ≤ 512) × (t * 2 ≤ length tr)
        → Moves result 2 st.now tr m (effect env (Instruction.settle d) left (entries st.now h) (opened tr t) m) }
{
    if h == 0 {
        return Err(Stop::Stuck);
    }
    let c = st[h - 1];
    if c == NOTHING {
        return Ok(Onward {
            passed: LENGTH_DISTANCE,
            height: h - 1,
            tries: t,
        });
    }
    if c < MANY {
        return Ok(Onward {
            passed: LENGTH_DISTANCE + d,
            height: h,
            tries: t,
        });
    }
    Err(Stop::Ended(Cause::Conflict))
}

// Raises empty, with so many bytes of the block left behind the raise.
fn raise(left: usize, st: &[u64], h: usize, tr: &[usize], t: usize) -> Result<Onward, Stop>
    requires { Room h t st.now tr.now }
    ensures { (m : Memory)
        → Moves result 0 st.now tr.now m (raised left (entries st.now h) (opened tr.now t) m) }
{
    for i in (0..t).rev() {
        let land = tr[i * 2];
        if land <= left {
            let keep = tr[i * 2 + 1];
            if keep <= h {
                return Ok(Onward {
                    passed: left - land,
                    height: keep,
                    tries: i,
                });
            }
            return Err(Stop::Stuck);
        }
    }
    Err(Stop::Ended(Cause::Empty))
}

// How many bytes of the block remain where a try of distance d lands.
fn landing(left: usize, d: usize) -> usize
    requires { d < 65536 }
    ensures { result ≡ left - 2 - d }
{
    left.saturating_sub(LENGTH_DISTANCE + d)
}

// Opens a try that lands d bytes behind the instruction, of whose block so many bytes are left behind the kind.
fn begin_try(left: usize, d: usize, h: usize, tr: &mut [usize], t: usize) -> Result<Onward, Stop>
    requires { (t ≤ 512) × (t * 2 ≤ length tr.old) × (d < 65536) }
    ensures { (st : List ℕ) (m : Memory) → (h ≤ length st) × (h ≤ 1024)
        → Moves result 2 st tr.new m (tried (left - 2 - d) (entries st h) (opened tr.old t) m) }
{
    if TRIES <= t {
        return Err(Stop::Stuck);
    }
    if tr.len() - t * 2 < 2 {
        return Err(Stop::NoRoom);
    }
    tr[t * 2] = landing(left, d);
    tr[t * 2 + 1] = h;
    Ok(Onward {
        passed: LENGTH_DISTANCE,
        height: h,
        tries: t + 1,
    })
}

// Closes the latest try.
fn end_try(h: usize, t: usize) -> Result<Onward, Stop>
    ensures { (st tr : List ℕ) (m : Memory) → Room h t st tr
        → Moves result 0 st tr m (closed (entries st h) (opened tr t) m) }
{
    if t == 0 {
        Err(Stop::Stuck)
    } else {
        Ok(Onward {
            passed: 0,
            height: h,
            tries: t - 1,
        })
    }
}

// The entry of the value in a cell.
fn value_cell(c: u64) -> u64
    ensures { joined_of result ≡ One (held (given_of c)) }
{
    if c == NOTHING {
        return NO;
    }
    if c < MANY {
        return c;
    }
    c % 4294967296 + ZERO
}

fn first(rest: &[u8]) -> usize
    ensures { result ≡ get_or rest.now 0 0 }
{
    usize::from(byte_at(rest, 0))
}

fn second(rest: &[u8]) -> usize
    ensures { result ≡ get_or rest.now 1 0 }
{
    usize::from(byte_at(rest, 1))
}

// A distance that stands behind so many bytes.
fn distance(rest: &[u8], at: usize) -> usize
    ensures { (result ≡ big_endian 2 rest.now at) × (result < 65536) }
{
    distance_at(rest, at)
}

fn push_truth(rest: &[u8], st: &mut [u64], h: usize, t: usize) -> Result<Onward, Stop>
    ensures { (tr : List ℕ) (m : Memory) → Room h t st.old tr
        → Moves result 1 st.new tr m
        (pushed (One (Value.Truth (eqb (get_or rest.now 0 0) 1))) (entries st.old h) (opened tr t) m) }
{
    push(
        st,
        h,
        encode(Value::Truth(byte_at(rest, 0) == 1)),
        LENGTH_CONSTANT,
        t,
    )
}

fn push_number(rest: &[u8], st: &mut [u64], h: usize, t: usize) -> Result<Onward, Stop>
    ensures { (tr : List ℕ) (m : Memory) → Room h t st.old tr
        → Moves result 4 st.new tr m
        (pushed (One (Value.Number (number_at rest.now 0))) (entries st.old h) (opened tr t) m) }
{
    push(
        st,
        h,
        encode(Value::Number(number_at(rest, 0))),
        LENGTH_NUMBER,
        t,
    )
}

// Pushes own variable x.
fn read_own(x: usize, own: &[u64], st: &mut [u64], h: usize, t: usize) -> Result<Onward, Stop>
    requires { x < length own.now }
    ensures { (flags tr : List ℕ) (m : Memory) → Room h t st.old tr
        → Moves result 1 st.new tr m (read_from (own_cell own.now flags x) (entries st.old h) (opened tr t) m) }
{
    let c = own[x];
    if c == NOTHING {
        return Err(Stop::Stuck);
    }
    push(st, h, value_cell(c), LENGTH_OWN, t)
}

// Pushes variable x of sub-scope k.
fn read_called(
    k: usize,
    x: usize,
    frame: &[u64],
    st: &mut [u64],
    h: usize,
    t: usize,
) -> Result<Onward, Stop>
    requires { InFrame k x frame.now }
    ensures { (n : ℕ) (tr : List ℕ) (m : Memory) → x < n → Room h t st.old tr
        → Moves result 2 st.new tr m
        (read_in (callee_at frame.now n k) x (entries st.old h) (opened tr t) m) }
{
    if frame[MARKS + k] == 0 {
        return Err(Stop::Stuck);
    }
    push(
        st,
        h,
        value_cell(frame[CALLED + k * VARIABLES + x]),
        LENGTH_CALLED,
        t,
    )
}

// Stores into own variable x of a type.
fn store(
    wanted: ValueType,
    x: usize,
    st: &[u64],
    h: usize,
    t: usize,
    own: &mut [u64],
    frame: &mut [u64],
) -> Result<Onward, Stop>
    requires { (h ≤ length st.now) × (h ≤ 1024) × (x < 32) × (x < length own.old) × (x < length frame.old) }
    ensures { Storing wanted x st.now h t own.old frame.old result own.new frame.new }
{
    let Some(v) = top_value(st, h) else {
        return Err(Stop::Stuck);
    };
    if !has_type(wanted, v) {
        return Err(Stop::Stuck);
    }
    if own[x] != NOTHING {
        return Err(Stop::Stuck);
    }
    own[x] = encode(v);
    frame[x] = 1;
    Ok(Onward {
        passed: LENGTH_OWN,
        height: h - 1,
        tries: t,
    })
}

// Hands over to variable x, of a type, of sub-scope k.
fn hand_over(
    wanted: ValueType,
    k: usize,
    x: usize,
    st: &[u64],
    h: usize,
    t: usize,
    frame: &mut [u64],
) -> Result<Onward, Stop>
    requires { (h ≤ length st.now) × (h ≤ 1024) × InFrame k x frame.old }
    ensures { Handing wanted k x st.now h t frame.old result frame.new }
{
    let Some(v) = top_value(st, h) else {
        return Err(Stop::Stuck);
    };
    if !has_type(wanted, v) {
        return Err(Stop::Stuck);
    }
    if frame[MARKS + k] != 0 {
        return Err(Stop::Stuck);
    }
    let at = CALLED + k * VARIABLES + x;
    if frame[at] != NOTHING {
        return Err(Stop::Stuck);
    }
    frame[at] = encode(v);
    Ok(Onward {
        passed: LENGTH_CALLED,
        height: h - 1,
        tries: t,
    })
}

// Jumps where own variable x is given.
fn jump_if_given(
    x: usize,
    d: usize,
    own: &[u64],
    frame: &[u64],
    h: usize,
    t: usize,
) -> Result<Onward, Stop>
    requires { (x < length own.now) × (x < length frame.now) × (d < 65536) }
    ensures { (st tr : List ℕ) (m : Memory) → Room h t st tr
        → Moves result 3 st tr m (jumped_if_given (own_cell own.now frame.now x) d (entries st h) (opened tr t) m) }
{
    if own[x] == NOTHING {
        return Ok(Onward {
            passed: LENGTH_OWN_DISTANCE,
            height: h,
            tries: t,
        });
    }
    if frame[x] == 0 {
        return Ok(Onward {
            passed: LENGTH_OWN_DISTANCE + d,
            height: h,
            tries: t,
        });
    }
    Ok(Onward {
        passed: LENGTH_OWN_DISTANCE,
        height: h,
        tries: t,
    })
}

// Hands over to the variable that an instruction names.
fn override_at(
    rest: &[u8],
    directory: &[usize],
    p: usize,
    st: &[u64],
    h: usize,
    t: usize,
    frame: &mut [u64],
) -> Result<Onward, Stop>
    requires { OverrideAt rest.now directory.now p st.now h frame.old }
    ensures { Handing (type_in directory.now (block_in directory.now p (get_or rest.now 0 0)) (get_or rest.now 1 0))
        (get_or rest.now 0 0) (get_or rest.now 1 0) st.now h t frame.old result frame.new }
{
    let k = first(rest);
    let x = second(rest);
    let q = block_of(directory, p, k);
    hand_over(type_at(directory, q, x), k, x, st, h, t, frame)
}

// Stores into the variable that an instruction names.
fn store_at(
    rest: &[u8],
    directory: &[usize],
    p: usize,
    st: &[u64],
    h: usize,
    t: usize,
    own: &mut [u64],
    frame: &mut [u64],
) -> Result<Onward, Stop>
    requires { StoreAt rest.now p st.now h own.old frame.old }
    ensures { Storing (type_in directory.now p (get_or rest.now 0 0)) (get_or rest.now 0 0)
        st.now h t own.old frame.old result own.new frame.new }
{
    let x = first(rest);
    store(type_at(directory, p, x), x, st, h, t, own, frame)
}

// Does the instruction at a place of block p, one other than the entry of a sub-scope.
pub fn step(
    body: &[u8],
    s: Place,
    directory: &[usize],
    p: usize,
    st: &mut [u64],
    tr: &mut [usize],
    own: &mut [u64],
    frame: &mut [u64],
) -> Result<Onward, Stop>
    requires { Stepping directory.now p body.now s st.old tr.old own.old frame.old }
    ensures { Stepped directory.now p body.now s st.old tr.old own.old frame.old
        result st.new tr.new own.new frame.new }
{
    let at = s.at;
    let kind = body[at];
    let rest = &body[at + 1..];
    let h = s.height;
    let t = s.tries;
    match kind {
        KIND_CONSTANT => push_truth(rest, st, h, t),
        KIND_NUMBER => push_number(rest, st, h, t),
        KIND_OWN => read_own(first(rest), own, st, h, t),
        KIND_CALLED => read_called(first(rest), second(rest), frame, st, h, t),
        KIND_NOT => unary(Unary::Not, st, h, t),
        KIND_NEGATE => unary(Unary::Negate, st, h, t),
        KIND_AND | KIND_ADD | KIND_SUBTRACT | KIND_EQUAL | KIND_LESS => {
            binary(operator_of(kind), st, h, t)
        }
        KIND_RAISE_EMPTY => raise(rest.len(), st, h, tr, t),
        KIND_RAISE_CONFLICT => Err(Stop::Ended(Cause::Conflict)),
        KIND_JUMP => jump(distance(rest, 0), h, t),
        KIND_JUMP_IF_NO => branch(distance(rest, 0), st, h, t),
        KIND_TRY => begin_try(rest.len(), distance(rest, 0), h, tr, t),
        KIND_END_TRY => end_try(h, t),
        KIND_PUSH_NOTHING => push(st, h, NOTHING, 0, t),
        KIND_JOIN => join_top(st, h, t),
        KIND_SETTLE => settle(distance(rest, 0), st, h, t),
        KIND_STORE => store_at(rest, directory, p, st, h, t, own, frame),
        KIND_OVERRIDE => override_at(rest, directory, p, st, h, t, frame),
        KIND_JUMP_IF_GIVEN => jump_if_given(first(rest), distance(rest, 1), own, frame, h, t),
        // Never met: accepted code has no other kind, and the entry of a sub-scope is none of these.
        _ => Err(Stop::Stuck),
    }
}
