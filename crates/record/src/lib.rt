// Records: the shape of each kind, and the record at a position.
#![tactic(auto)]

ghost use Rattle.std.specs.Prelude.{◌≡◌, ◌+◌, ◌<◌, length};
ghost use Rattle.record.specs.Kinds.{shapes_of, shape_in};
ghost use Rattle.record.specs.Record.{record_at, body_at};

// The kinds of a book's records; code has those without operands, too.
pub const KIND_SCOPE: u8 = 1;

pub const KIND_VARIABLE: u8 = 2;

pub const KIND_SUB_SCOPE: u8 = 3;

pub const KIND_CONSTANT: u8 = 4;

pub const KIND_NUMBER: u8 = 5;

pub const KIND_OWN: u8 = 6;

pub const KIND_CALLED: u8 = 7;

pub const KIND_EMPTY: u8 = 8;

pub const KIND_CONFLICT: u8 = 9;

pub const KIND_NOT: u8 = 10;

pub const KIND_NEGATE: u8 = 11;

pub const KIND_AND: u8 = 12;

pub const KIND_ADD: u8 = 13;

pub const KIND_SUBTRACT: u8 = 14;

pub const KIND_EQUAL: u8 = 15;

pub const KIND_LESS: u8 = 16;

pub const KIND_CHOICE: u8 = 17;

pub const KIND_DEFAULT: u8 = 18;

pub const KIND_DEFINITION: u8 = 19;

pub const KIND_RULE: u8 = 20;

// The kinds that only code has.
pub const KIND_RAISE_EMPTY: u8 = 32;

pub const KIND_RAISE_CONFLICT: u8 = 33;

pub const KIND_JUMP: u8 = 34;

pub const KIND_JUMP_IF_NO: u8 = 35;

pub const KIND_TRY: u8 = 36;

pub const KIND_END_TRY: u8 = 37;

pub const KIND_PUSH_NOTHING: u8 = 38;

pub const KIND_JOIN: u8 = 39;

pub const KIND_SETTLE: u8 = 40;

pub const KIND_STORE: u8 = 41;

pub const KIND_OVERRIDE: u8 = 42;

pub const KIND_ENTER: u8 = 43;

pub const KIND_JUMP_IF_GIVEN: u8 = 44;

// How long a body is in code, by what it holds: no or yes, a number, an own variable, a sub-scope, a sub-scope and its variable, a distance,
// an own variable and a distance.
pub const LENGTH_CONSTANT: usize = 1;

pub const LENGTH_NUMBER: usize = 4;

pub const LENGTH_OWN: usize = 1;

pub const LENGTH_SUB_SCOPE: usize = 1;

pub const LENGTH_CALLED: usize = 2;

pub const LENGTH_DISTANCE: usize = 2;

pub const LENGTH_OWN_DISTANCE: usize = 3;

// Where a record stands: the same kind can have another body in a book than in code.
#[derive(Clone, Copy)]
pub enum Medium {
    Book,
    Code,
}

// A kind's body length and stage in a book, then the same in code. Stage 0: the kind is unknown there.
#[derive(Clone, Copy)]
struct Shapes(pub usize, pub usize, pub usize, pub usize);

// How many bytes follow a kind, and its stage.
#[derive(Clone, Copy)]
pub struct Shape {
    pub length: usize,
    pub stage: usize,
}

// What stands at a position: a whole record has its kind, its stage and its body's length.
#[derive(Clone, Copy)]
pub enum Record {
    End,
    Unknown,
    Truncated,
    Whole(u8, usize, usize),
}

// One decision over kinds and ranges of kinds, for book and code. The kinds that are frequent in code stand singly, no two that follow each other
// in one arm: so the compiler makes a table of them.
#[tactic(auto, unfolding(crate::specs::Kinds::shapes_of, crate::specs::Kinds::kinds))]
fn shapes_of(kind: u8) -> Shapes
    ensures { result ≡ shapes_of kind }
{
    match kind {
        KIND_SCOPE => Shapes(0, 1, 1, 1),
        KIND_VARIABLE => Shapes(1, 2, 1, 2),
        KIND_SUB_SCOPE => Shapes(1, 3, LENGTH_SUB_SCOPE, 3),
        KIND_CONSTANT => Shapes(1, 4, LENGTH_CONSTANT, 4),
        KIND_NUMBER => Shapes(4, 4, LENGTH_NUMBER, 4),
        KIND_OWN => Shapes(1, 4, LENGTH_OWN, 4),
        KIND_CALLED => Shapes(2, 4, LENGTH_CALLED, 4),
        KIND_EMPTY..=KIND_CONFLICT => Shapes(1, 4, 0, 0),
        KIND_NOT..=KIND_NEGATE => Shapes(1, 4, 0, 4),
        KIND_AND..=KIND_LESS => Shapes(2, 4, 0, 4),
        KIND_CHOICE => Shapes(3, 4, 0, 0),
        KIND_DEFAULT => Shapes(5, 4, 0, 0),
        KIND_DEFINITION..=KIND_RULE => Shapes(5, 5, 0, 0),
        KIND_RAISE_EMPTY | KIND_END_TRY | KIND_JOIN => Shapes(0, 0, 0, 4),
        KIND_RAISE_CONFLICT | KIND_PUSH_NOTHING => Shapes(0, 0, 0, 4),
        KIND_JUMP | KIND_TRY | KIND_SETTLE => Shapes(0, 0, LENGTH_DISTANCE, 4),
        KIND_JUMP_IF_NO => Shapes(0, 0, LENGTH_DISTANCE, 4),
        KIND_STORE => Shapes(0, 0, LENGTH_OWN, 4),
        KIND_OVERRIDE => Shapes(0, 0, LENGTH_CALLED, 4),
        KIND_ENTER => Shapes(0, 0, LENGTH_SUB_SCOPE, 4),
        KIND_JUMP_IF_GIVEN => Shapes(0, 0, LENGTH_OWN_DISTANCE, 4),
        _ => Shapes(0, 0, 0, 0),
    }
}

// The shape of a kind in a book or in code.
#[tactic(auto, unfolding(crate::specs::Kinds::shape_in))]
pub fn shape_in(medium: Medium, kind: u8) -> Shape
    ensures { result ≡ shape_in medium kind }
{
    let shapes = shapes_of(kind);
    match medium {
        Medium::Book => Shape {
            length: shapes.0,
            stage: shapes.1,
        },
        Medium::Code => Shape {
            length: shapes.2,
            stage: shapes.3,
        },
    }
}

// The record at a position.
#[tactic(auto, unfolding(crate::specs::Record::record_at))]
pub fn record_at(medium: Medium, s: &[u8], at: usize) -> Record
    ensures { result ≡ record_at medium s.now at }
{
    let Some(&kind) = s.get(at) else {
        return Record::End;
    };
    let Shape { length, stage } = shape_in(medium, kind);
    if stage == 0 {
        return Record::Unknown;
    }
    if s.len() - (at + 1) < length {
        return Record::Truncated;
    }
    Record::Whole(kind, stage, length)
}

// The body of the whole record at a position, of n bytes, as the part of s after its kind.
#[tactic(auto, unfolding(crate::specs::Record::body_at))]
pub fn body_at(s: &[u8], at: usize, n: usize) -> &[u8]
    requires { at + n < length s.now }
    ensures { result.now ≡ body_at s.now at n }
{
    let start = at + 1;
    &s[start..start + n]
}
