// Judging code in one pass over its bytes: whether it is accepted, and the directory of the blocks of accepted code.
//   ring    the landings of distances that lie ahead: a mark for each position, by its remainder modulo 65,536; short code has no more
//           positions than a ring of 8,192 marks, or of 1,024
#![tactic(auto)]

ghost use Rattle.std.specs.Prelude.{◌≡◌, true, ◌||◌, ℕ, ◌+◌, ◌<◌, ◌≤◌, ◌*◌, length, get_or, eqb, ltb};
ghost use Rattle.record.specs.Kinds.{shape_in};
ghost use Rattle.record.specs.declared.Medium.TheVariants.{Code};
ghost use Rattle.directory.specs.Layout.{place_in};
ghost use Rattle.directory.specs.Tabled.{Room};
ghost use Rattle.verifier.specs.Instructions.{limit_by, distance_at};
ghost use Rattle.verifier.specs.Pass.{faulty_at, exceeds_with, Limited, Called, called_at, RingRoom, Passed, Reading, Stepped};
ghost use Rattle.verifier.specs.Pass.{AtKind, BodyRoom, BodyPassed, Bodied, Landed, Instructing, Instructed, AtHeading};
ghost use Rattle.verifier.specs.Pass.{Leaving, Left, Beginning, opening, VariableRoom, VariableNoted, SubRoom, SubRead, Empty, Judged};

use directory::{
    BEGIN, BLOCKS, END, ROW, SUB_SCOPES, TYPES, VARIABLES, WEIGHT, block_of, place_of,
    variables_in, weight_of,
};
use record::{
    KIND_CALLED, KIND_CONSTANT, KIND_ENTER, KIND_OVERRIDE, LENGTH_CALLED, LENGTH_DISTANCE,
    LENGTH_NUMBER, LENGTH_OWN, LENGTH_OWN_DISTANCE, Medium, Shape, body_at, shape_in,
};
use slices::byte_at;
use validity::{is_invalid, may_follow};

// No memory has this many bytes.
const UNREACHED: usize = 9223372036854775808;

// The limit of a block's weight.
const WEIGHT_LIMIT: usize = 4096;

// What was read: the stage of the last record, how many blocks are closed, and of the present block its variables and sub-scopes so far,
// its scope, where its instructions begin, its weight so far, and the position of its farthest landing. All are 0 before the first record.
#[derive(Clone, Copy, Default)]
struct Progress {
    pub stage: usize,
    pub variables: usize,
    pub subs: usize,
    pub blocks: usize,
    pub scope: usize,
    pub begin: usize,
    pub weight: usize,
    pub reach: usize,
}

// What stands at a position: no instruction, or one before any block; an instruction that is refused; or one that lands so far behind its end, 0 where
// it has no distance.
#[derive(Clone, Copy)]
enum Landing {
    Heading,
    Refused,
    Ahead(usize),
}

// Whether one more record of a stage is one variable or one sub-scope too many.
fn too_many(stage: usize, u: Progress) -> bool
    requires { Limited u }
    ensures { result ≡ exceeds_with stage u }
{
    match stage {
        2 => 31 < u.variables,
        3 => 7 < u.subs,
        _ => false,
    }
}

// Whether a record at a position that is no instruction, or one before any block, has one of the faults 1 to 5, by its kind and the kind's shape.
// Of these kinds only 2, of stage 2, has a byte that can stand outside its values.
fn is_faulty(code: &[u8], at: usize, kind: u8, shape: Shape, u: Progress) -> bool
    requires { AtKind code.now at kind shape u }
    ensures { result ≡ faulty_at code.now at u }
{
    let stage = shape.stage;
    let length = shape.length;
    if stage == 0 {
        return true;
    }
    let start = at + 1;
    if code.len() - start < length {
        return true;
    }
    if !may_follow(u.stage, stage) {
        return true;
    }
    if too_many(stage, u) {
        return true;
    }
    if stage == 2 {
        return is_invalid(kind, body_at(code, at, length));
    }
    false
}

// The number of two bytes, high byte first.
fn joined(high: u8, low: u8) -> usize
    ensures { (result ≡ high * 256 + low) × (result < 65536) }
{
    usize::from(u16::from_be_bytes([high, low]))
}

// Whether no landing is marked from a position on up to an end at most four bytes on: no body is longer. One test after the other is quicker
// than a loop.
fn unmarked(ring: &[u8], from: usize, end: usize) -> bool
    requires { RingRoom ring.now end × (from ≤ end) × (end ≤ from + 4) }
    ensures { Passed ring.now from end result }
{
    if from == end {
        return true;
    }
    if ring[from % 65536] != 0 {
        return false;
    }
    if from + 1 == end {
        return true;
    }
    if ring[(from + 1) % 65536] != 0 {
        return false;
    }
    if from + 2 == end {
        return true;
    }
    if ring[(from + 2) % 65536] != 0 {
        return false;
    }
    if from + 3 == end {
        return true;
    }
    if ring[(from + 3) % 65536] != 0 {
        return false;
    }
    true
}

// Whether the body of so many bytes behind a position is whole, and nothing lands in it.
fn body_passes(code: &[u8], at: usize, length: usize, ring: &[u8]) -> bool
    requires { BodyRoom code.now at length ring.now }
    ensures { BodyPassed code.now at length ring.now result }
{
    if code.len() - at <= length {
        return false;
    }
    unmarked(ring, at + 1, at + 1 + length)
}

// A body whose bytes are of any value.
fn no_name(code: &[u8], at: usize, length: usize, ring: &[u8]) -> Landing
    requires { BodyRoom code.now at length ring.now }
    ensures { Bodied code.now at length ring.now true 0 result }
{
    if body_passes(code, at, length, ring) {
        return Landing::Ahead(0);
    }
    Landing::Refused
}

// A body of one number below `count`.
fn one_name(code: &[u8], at: usize, count: usize, ring: &[u8]) -> Landing
    requires { BodyRoom code.now at 1 ring.now }
    ensures { Bodied code.now at 1 ring.now (ltb (get_or code.now (at + 1) 0) count) 0 result }
{
    if !body_passes(code, at, LENGTH_OWN, ring) {
        return Landing::Refused;
    }
    if usize::from(code[at + 1]) < count {
        return Landing::Ahead(0);
    }
    Landing::Refused
}

// A body of a sub-scope of the present block and one of its variables.
fn two_names(code: &[u8], at: usize, u: Progress, directory: &[usize], ring: &[u8]) -> Landing
    requires { BodyRoom code.now at 2 ring.now × Called u directory.now }
    ensures { Bodied code.now at 2 ring.now (called_at code.now at directory.now u) 0 result }
{
    if !body_passes(code, at, LENGTH_CALLED, ring) {
        return Landing::Refused;
    }
    let k = usize::from(code[at + 1]);
    if u.subs <= k {
        return Landing::Refused;
    }
    if usize::from(code[at + 2]) < variables_in(directory, block_of(directory, u.blocks, k)) {
        return Landing::Ahead(0);
    }
    Landing::Refused
}

// A body whose last two bytes are a distance, if what stands before these names something. One that lands past the code's end, where the ring
// need not have a mark, is refused.
fn jump(there: bool, code: &[u8], at: usize, length: usize, ring: &[u8]) -> Landing
    requires { BodyRoom code.now at length ring.now × (2 ≤ length) }
    ensures { Bodied code.now at length ring.now there (distance_at code.now (at + length)) result }
{
    if !there {
        return Landing::Refused;
    }
    if !body_passes(code, at, length, ring) {
        return Landing::Refused;
    }
    let end = at + length;
    let d = joined(code[end - 1], code[end]);
    if code.len() - end - 1 < d {
        return Landing::Refused;
    }
    Landing::Ahead(d)
}

// Below what the number of an instruction with one byte is good, by its kind: no or yes, a sub-scope, or an own variable.
fn limit_of(kind: u8, u: Progress) -> usize
    ensures { result ≡ limit_by kind u.variables u.subs }
{
    match kind {
        KIND_CONSTANT => 2,
        KIND_ENTER => u.subs,
        _ => u.variables,
    }
}

// Whether an instruction with two bytes names a sub-scope and its variable; else they are a distance.
fn has_names(kind: u8) -> bool
    ensures { result ≡ eqb kind 7 || eqb kind 42 }
{
    kind == KIND_CALLED || kind == KIND_OVERRIDE
}

// Whether the instruction at a position fits, by the shape of its kind, and where it lands.
fn landing_of(
    code: &[u8],
    at: usize,
    shape: Shape,
    u: Progress,
    directory: &[usize],
    ring: &[u8],
) -> Landing
    requires { (at < length code.now) × Reading code.now at u directory.now ring.now × (shape ≡ shape_in Code (get_or code.now at 0)) }
    ensures { Landed code.now at u directory.now ring.now result }
{
    if shape.stage != 4 {
        return Landing::Heading;
    }
    if u.stage == 0 {
        return Landing::Heading;
    }
    let kind = code[at];
    let length = shape.length;
    match length {
        0 => Landing::Ahead(0),
        1 => one_name(code, at, limit_of(kind, u), ring),
        2 => {
            if has_names(kind) {
                return two_names(code, at, u, directory, ring);
            }
            jump(true, code, at, LENGTH_DISTANCE, ring)
        }
        3 => {
            let x = usize::from(byte_at(code, at + 1));
            jump(x < u.variables, code, at, LENGTH_OWN_DISTANCE, ring)
        }
        // Four: no body is longer.
        _ => no_name(code, at, LENGTH_NUMBER, ring),
    }
}

// What was read after an instruction at a position, up to the next record: its own mark is cleared, and its landing is marked if that lies behind its
// end.
fn instruction(at: usize, next: usize, d: usize, u: Progress, ring: &mut [u8]) -> Progress
    requires { Instructing at next d ring.old }
    ensures { Instructed at next d u ring.old ring.new result }
{
    ring[at % 65536] = 0;
    if d == 0 {
        return Progress { stage: 4, ..u };
    }
    let landing = next + d;
    ring[landing % 65536] = 1;
    Progress {
        stage: 4,
        reach: u.reach.max(landing),
        ..u
    }
}

// Closes the present block, if there is one: nothing lands past its end, and its weight is within the limit.
fn leave(
    code: &[u8],
    at: usize,
    u: Progress,
    directory: &mut [usize],
    ring: &mut [u8],
) -> Option<usize>
    requires { Leaving code.now at u directory.old ring.old }
    ensures { Left code.now at directory.new ring.new result }
{
    let m = u.blocks;
    if u.stage == 0 {
        return Some(m);
    }
    if at < u.reach {
        return None;
    }
    if WEIGHT_LIMIT < u.weight {
        return None;
    }
    let row = m * ROW;
    directory[row + BEGIN] = u.begin;
    directory[row + END] = at;
    directory[row + WEIGHT] = u.weight;
    directory[row + VARIABLES] = u.variables;
    directory[row + SUB_SCOPES] = u.subs;
    let scope = u.scope;
    directory[scope] = m + 1;
    ring[at % 65536] = 0;
    Some(m + 1)
}

// Opens a block of a scope after m closed ones, unless the scope is above 31 or has a block already.
fn open_block(scope: u8, next: usize, m: usize, directory: &[usize]) -> Option<(usize, Progress)>
    ensures { result ≡ opening scope next m directory.now }
{
    let scope = usize::from(scope);
    if 31 < scope || place_of(directory, scope).is_some() {
        return None;
    }
    let u = Progress {
        stage: 1,
        blocks: m,
        scope,
        begin: next,
        weight: 1,
        ..Progress::default()
    };
    Some((next, u))
}

// A record of kind 1.
fn begin_block(
    code: &[u8],
    at: usize,
    next: usize,
    scope: u8,
    u: Progress,
    directory: &mut [usize],
    ring: &mut [u8],
) -> Option<(usize, Progress)>
    requires { Beginning code.now at next scope u directory.old ring.old }
    ensures { Stepped code.now at directory.new ring.new result }
{
    let m = leave(code, at, u, directory, ring)?;
    open_block(scope, next, m, directory)
}

// A record of kind 2.
fn variable(byte: u8, next: usize, u: Progress, directory: &mut [usize]) -> Progress
    requires { VariableRoom u directory.old }
    ensures { VariableNoted byte next u directory.old directory.new result }
{
    directory[u.blocks * ROW + TYPES + u.variables] = usize::from(byte);
    Progress {
        stage: 2,
        variables: u.variables + 1,
        begin: next,
        ..u
    }
}

// A record of kind 3, unless its scope has no block yet.
fn sub_scope(
    scope: u8,
    next: usize,
    u: Progress,
    directory: &mut [usize],
) -> Option<(usize, Progress)>
    requires { SubRoom scope u directory.old }
    ensures { SubRead scope next u directory.old directory.new result }
{
    let block = place_of(directory, usize::from(scope))?;
    let weight = weight_of(directory, block);
    directory[u.blocks * ROW + BLOCKS + u.subs] = block;
    let v = Progress {
        stage: 3,
        subs: u.subs + 1,
        begin: next,
        weight: u.weight + weight,
        ..u
    };
    Some((next, v))
}

// A record at a position that is no instruction, or one before any block: of kind 1, 2 or 3, or refused.
fn heading_at(
    code: &[u8],
    at: usize,
    u: Progress,
    directory: &mut [usize],
    ring: &mut [u8],
) -> Option<(usize, Progress)>
    requires { AtHeading code.now at u directory.old ring.old }
    ensures { Stepped code.now at directory.new ring.new result }
{
    let kind = code[at];
    let shape = shape_in(Medium::Code, kind);
    if is_faulty(code, at, kind, shape, u) {
        return None;
    }
    let next = at + 1 + shape.length;
    let first = byte_at(code, at + 1);
    if shape.stage == 1 {
        return begin_block(code, at, next, first, u, directory, ring);
    }
    if shape.stage == 2 {
        return Some((next, variable(first, next, u, directory)));
    }
    sub_scope(first, next, u, directory)
}

// The record at a position, after what was read.
fn step_at(
    code: &[u8],
    at: usize,
    u: Progress,
    directory: &mut [usize],
    ring: &mut [u8],
) -> Option<(usize, Progress)>
    requires { (at < length code.now) × Reading code.now at u directory.old ring.old }
    ensures { Stepped code.now at directory.new ring.new result }
{
    let shape = shape_in(Medium::Code, code[at]);
    match landing_of(code, at, shape, u, directory, ring) {
        Landing::Heading => heading_at(code, at, u, directory, ring),
        Landing::Refused => None,
        Landing::Ahead(d) => {
            let next = at + 1 + shape.length;
            Some((next, instruction(at, next, d, u, ring)))
        }
    }
}

// Reads the records of code one after the other; the directory is still empty.
fn judge_code(code: &[u8], directory: &mut [usize], ring: &mut [u8]) -> Option<usize>
    requires { Empty code.now directory.old ring.old }
    ensures { Judged code.now directory.new result }
{
    let mut u = Progress::default();
    let mut at = 0;
    // No index loop: the position moves by a record's length.
    while at < code.len() {
        (at, u) = step_at(code, at, u, directory, ring)?;
    }
    leave(code, at, u, directory, ring)
}

// Judges code of any length, with a ring of 65,536 marks. It calls itself first, `again` times, which is 0: a function that may call itself is not
// made part of its caller, where the ring would take its room on the stack for short code, too.
fn judge_long(code: &[u8], directory: &mut [usize], again: usize) -> Option<usize>
    requires { Room code.now directory.old × ((i : ℕ) → place_in directory.old i ≡ 0) }
    ensures { Judged code.now directory.new result }
{
    if 0 < again {
        return judge_long(code, directory, again - 1);
    }
    let mut ring = [0u8; 65536];
    judge_code(code, directory, &mut ring)
}

// Judges code: whether it is accepted, and of accepted code the directory of its blocks. A smaller ring has a mark for each position of short code.
pub fn verify(code: &[u8], directory: &mut [usize]) -> Option<usize>
    requires { Room code.now directory.old × ((i : ℕ) → place_in directory.old i ≡ 0) }
    ensures { Judged code.now directory.new result }
{
    if 8191 < code.len() {
        return judge_long(code, directory, code.len() / UNREACHED);
    }
    if 1023 < code.len() {
        let mut medium = [0u8; 8192];
        return judge_code(code, directory, &mut medium);
    }
    let mut small = [0u8; 1024];
    judge_code(code, directory, &mut small)
}
