// The machine that runs accepted code: each entry of a block works on parts of a lent stack and of lent tries.
#![tactic(auto)]

ghost use Rattle.std.specs.Prelude.{◌≡◌, ◌+◌, ◌*◌, ◌<◌, ◌≤◌, length};
ghost use Rattle.instructions.specs.Effects.{Stepping};
ghost use Rattle.blocks.specs.Entries.{nonzero, Ending, Finished, Entry, Fresh, Known, Came, CameTo, Advances};
ghost use Rattle.blocks.specs.Running.{Followed, SteppedAt, EntersAt, EnteredAt};

use answers::Cause;
use cells::VARIABLES;
use directory::{block_of, body_of, sub_scopes_in, variables_in};
use instructions::{CALLED, MARKS, Onward, Place, Stop, step};
use memo::{copy_cells, none_given, recall, remember};
use record::{KIND_ENTER, LENGTH_SUB_SCOPE};
use slices::byte_at;

// What stops a run other than the end of a block: an end with the count of scopes entered, or the lent slices were too short.
#[derive(Clone, Copy, PartialEq, Eq)]
pub enum Halt {
    Ended(Cause, usize),
    Stuck,
    NoRoom,
}

// Whether n cells from a place on are not 0.
fn all_set(cells: &[u64], from: usize, n: usize) -> bool
    requires { from + n ≤ length cells.now }
    ensures { result ≡ nonzero cells.now from n }
{
    cells[from..from + n].iter().all(|c| *c != 0)
}

// The end of block p: every variable is set, every sub-scope entered.
fn finish(
    directory: &[usize],
    p: usize,
    own: &[u64],
    frame: &[u64],
    count: usize,
) -> Result<usize, Halt>
    requires { Ending directory.now p own.now frame.now }
    ensures { Finished directory.now p own.now frame.now count result }
{
    if !all_set(own, 0, variables_in(directory, p)) {
        return Err(Halt::Stuck);
    }
    if !all_set(frame, MARKS, sub_scopes_in(directory, p)) {
        return Err(Halt::Stuck);
    }
    Ok(count)
}

// n bytes on, or the end.
fn advance(next: usize, n: usize, end: usize) -> usize
    requires { next ≤ end }
    ensures { Advances next n end result }
{
    if end - next < n {
        return end;
    }
    next + n
}

// What follows an instruction by how it goes on: its kind ends before byte `next` of a block of `end` bytes.
fn follow(moved: Result<Onward, Stop>, next: usize, end: usize, count: usize) -> Result<Place, Halt>
    requires { next ≤ end }
    ensures { Followed next end count moved result }
{
    match moved {
        Ok(x) => Ok(Place {
            at: advance(next, x.passed, end),
            height: x.height,
            tries: x.tries,
            count,
        }),
        Err(Stop::Ended(c)) => Err(Halt::Ended(c, count)),
        Err(Stop::Stuck) => Err(Halt::Stuck),
        Err(Stop::NoRoom) => Err(Halt::NoRoom),
    }
}

// Enters block p with what its cells give, and leaves the values of its variables there. What is known is not run again.
#[cycle(enter_enter_sub_run_block_run_frame)]
fn enter(
    code: &[u8],
    directory: &[usize],
    p: usize,
    st: &mut [u64],
    tr: &mut [usize],
    own: &mut [u64],
    memo: &mut [u64],
) -> Result<usize, Halt>
    requires { Entry code.now directory.now p own.old × Known code.now memo.old }
    ensures { Came code.now p own.old result own.new st.old tr.old × Known code.now memo.new }
{
    let bare = none_given(own, variables_in(directory, p));
    if let Some(known) = recall(memo, p, bare, own) {
        return Ok(known);
    }
    let n = run_block(code, directory, p, st, tr, own, memo)?;
    remember(own, n, p, bare, memo);
    Ok(n)
}

// Does the instruction at a place of block p, one other than the entry of a sub-scope.
fn one_step(
    body: &[u8],
    s: Place,
    directory: &[usize],
    p: usize,
    st: &mut [u64],
    tr: &mut [usize],
    own: &mut [u64],
    frame: &mut [u64],
) -> Result<Place, Halt>
    requires { Stepping directory.now p body.now s st.old tr.old own.old frame.old }
    ensures { SteppedAt directory.now p body.now s st.old tr.old own.old frame.old
        result st.new tr.new own.new frame.new }
{
    let moved = step(body, s, directory, p, st, tr, own, frame);
    follow(moved, s.at + 1, body.len(), s.count)
}

// Enters the sub-scope that the instruction at a place of block p names, once.
#[cycle(enter_enter_sub_run_block_run_frame)]
fn enter_sub(
    code: &[u8],
    directory: &[usize],
    p: usize,
    body: &[u8],
    s: Place,
    st: &mut [u64],
    tr: &mut [usize],
    frame: &mut [u64],
    memo: &mut [u64],
) -> Result<Place, Halt>
    requires { EntersAt code.now directory.now p body.now s st.old tr.old frame.old memo.old }
    ensures entered_at { EnteredAt code.now directory.now p body.now s st.old tr.old
        frame.old result st.new tr.new frame.new }
    ensures known { Known code.now memo.new }
{
    let next = s.at + 1;
    let h = s.height;
    let t = s.tries;
    let count = s.count;
    let k = byte_at(body, next) as usize;
    if frame[MARKS + k] != 0 {
        return Err(Halt::Stuck);
    }
    let q = block_of(directory, p, k);
    let part = CALLED + k * VARIABLES;
    let left = &mut st[h..];
    let open = &mut tr[t * 2..];
    let own = &mut frame[part..part + VARIABLES];
    match enter(code, directory, q, left, open, own, memo) {
        Ok(n) => {
            frame[MARKS + k] = 1;
            Ok(Place {
                at: advance(next, LENGTH_SUB_SCOPE, body.len()),
                count: count + n,
                ..s
            })
        }
        Err(Halt::Ended(c, n)) => Err(Halt::Ended(c, count + n)),
        Err(Halt::Stuck) => Err(Halt::Stuck),
        Err(Halt::NoRoom) => Err(Halt::NoRoom),
    }
}

// Runs the instructions of block p with an empty frame.
#[cycle(enter_enter_sub_run_block_run_frame)]
fn run_frame(
    code: &[u8],
    directory: &[usize],
    p: usize,
    st: &mut [u64],
    tr: &mut [usize],
    own: &mut [u64],
    frame: &mut [u64],
    memo: &mut [u64],
) -> Result<usize, Halt>
    requires { Entry code.now directory.now p own.old × Known code.now memo.old × Fresh directory.now p frame.old }
    ensures { Came code.now p own.old result own.new st.old tr.old × Known code.now memo.new }
{
    let body = body_of(code, directory, p);
    let mut s = Place {
        at: 0,
        height: 0,
        tries: 0,
        count: 1,
    };
    while s.at < body.len() {
        let at = s.at;
        if body[at] == KIND_ENTER {
            s = enter_sub(code, directory, p, body, s, st, tr, frame, memo)?;
        } else {
            s = one_step(body, s, directory, p, st, tr, own, frame)?;
        }
    }
    finish(directory, p, own, frame, s.count)
}

// Runs block p. Frames are cleared at each entry, so one has no more cells than its sub-scopes need, or those of two, or of all.
#[cycle(enter_enter_sub_run_block_run_frame)]
fn run_block(
    code: &[u8],
    directory: &[usize],
    p: usize,
    st: &mut [u64],
    tr: &mut [usize],
    own: &mut [u64],
    memo: &mut [u64],
) -> Result<usize, Halt>
    requires { Entry code.now directory.now p own.old × Known code.now memo.old }
    ensures { Came code.now p own.old result own.new st.old tr.old × Known code.now memo.new }
{
    let calls = sub_scopes_in(directory, p);
    if calls == 0 {
        let mut none = [0u64; 40];
        return run_frame(code, directory, p, st, tr, own, &mut none, memo);
    }
    if calls <= 2 {
        let mut few = [0u64; 104];
        return run_frame(code, directory, p, st, tr, own, &mut few, memo);
    }
    let mut all = [0u64; 296];
    run_frame(code, directory, p, st, tr, own, &mut all, memo)
}

// Runs block p with what is given, nothing known of the blocks that it enters.
fn run_given(
    code: &[u8],
    directory: &[usize],
    p: usize,
    given: &[u64],
    st: &mut [u64],
    tr: &mut [usize],
    own: &mut [u64],
) -> Result<usize, Halt>
    requires { Entry code.now directory.now p own.old × (length given.now ≡ 32) }
    ensures { Came code.now p given.now result own.new st.old tr.old }
{
    let mut memo = [0u64; 1056];
    let mut frame = [0u64; 296];
    copy_cells(given, 0, own, 0);
    run_frame(code, directory, p, st, tr, own, &mut frame, &mut memo)
}

// Runs block p with a stack and tries that always suffice. It calls itself first, `again` times, which is 0 for each of the at most 32 blocks: a
// function that may call itself is not made part of its caller, where these arrays would take their room on the stack in every run.
fn run_large(
    code: &[u8],
    directory: &[usize],
    p: usize,
    given: &[u64],
    own: &mut [u64],
    again: usize,
) -> Result<usize, Halt>
    requires { Entry code.now directory.now p own.old × (length given.now ≡ 32) }
    ensures { CameTo code.now p given.now result own.new }
{
    if 0 < again {
        return run_large(code, directory, p, given, own, again - 1);
    }
    let mut st = [0u64; 32768];
    let mut tr = [0usize; 32768];
    run_given(code, directory, p, given, &mut st, &mut tr, own)
}

// Runs block p with a stack and tries that may be too short: then once more, with larger ones.
fn run_within(
    code: &[u8],
    directory: &[usize],
    p: usize,
    given: &[u64],
    st: &mut [u64],
    tr: &mut [usize],
    own: &mut [u64],
) -> Result<usize, Halt>
    requires { Entry code.now directory.now p own.old × (length given.now ≡ 32) }
    ensures { CameTo code.now p given.now result own.new }
{
    let ran = run_given(code, directory, p, given, st, tr, own);
    if ran == Err(Halt::NoRoom) {
        return run_large(code, directory, p, given, own, p / 32);
    }
    ran
}

// Runs block p, with a small stack and few tries at first: smaller still for code so short that it hardly fills them.
pub fn run_cells(
    code: &[u8],
    directory: &[usize],
    p: usize,
    given: &[u64],
    own: &mut [u64],
) -> Result<usize, Halt>
    requires { Entry code.now directory.now p own.old × (length given.now ≡ 32) }
    ensures { CameTo code.now p given.now result own.new }
{
    if code.len() < 128 {
        let mut st = [0u64; 64];
        let mut tr = [0usize; 64];
        return run_within(code, directory, p, given, &mut st, &mut tr, own);
    }
    let mut st = [0u64; 512];
    let mut tr = [0usize; 512];
    run_within(code, directory, p, given, &mut st, &mut tr, own)
}
