// What entering a scope or a block came to, kept: a row of cells, the count of scopes entered before them.
#![tactic(auto)]

ghost use Rattle.memo.specs.Rows.{Copying, Copied, Ungiven, RowRoom, Recalled, Remembered};

use cells::{VARIABLES, given_at};

// A row's cells: the count, then those of a scope's variables.
const ROW: usize = 33;

// The count of a row of which nothing is known: the memory is fixed, and a cell has no room for an Option.
const UNKNOWN: usize = 0;

// Copies the cells of a scope's variables.
pub fn copy_cells(from: &[u64], start: usize, to: &mut [u64], at: usize)
    requires { Copying from.now start to.old at }
    ensures { Copied from.now start 32 to.old at to.new }
{
    // `copy_from_slice` calls `memmove`, which the library for C is not to need.
    for v in 0..VARIABLES {
        to[at + v] = from[start + v];
    }
}

// Whether none of the first variables is given.
pub fn none_given(given: &[u64], count: usize) -> bool
    ensures { Ungiven given.now count result }
{
    (0..count).all(|v| given_at(given, v).is_none())
}

// Where it is asked for and row i is known: puts its cells into `own`, and gives its count.
pub fn recall(memo: &[u64], i: usize, asked: bool, own: &mut [u64]) -> Option<usize>
    requires { RowRoom i own.old memo.now }
    ensures { Recalled memo.now i asked own.old result own.new }
{
    if !asked {
        return None;
    }
    let known = memo[i * ROW] as usize;
    if known == UNKNOWN {
        return None;
    }
    copy_cells(memo, i * ROW + 1, own, 0);
    Some(known)
}

// Where it is asked for, keeps a count and cells as row i.
pub fn remember(own: &[u64], count: usize, i: usize, asked: bool, memo: &mut [u64])
    requires { RowRoom i own.now memo.old }
    ensures { Remembered own.now count i asked memo.old memo.new }
{
    if !asked {
        return;
    }
    copy_cells(own, 0, memo, i * ROW + 1);
    memo[i * ROW] = count as u64;
}
