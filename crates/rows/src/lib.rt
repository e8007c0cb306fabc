// The rows of a table: running a scope of a loaded book for every assignment of no and yes to the chosen variables.
#![tactic(auto)]

ghost use Rattle.std.specs.Prelude.{◌≡◌, ◌≤◌, suc, ◌*◌};
ghost use Rattle.scopes.specs.Known.{Known};
ghost use Rattle.tabulation.specs.Assignments.{power};
ghost use Rattle.rows.specs.Filling.{cell_row, cell_rows, FillsRow, FillsRows};

use cells::{NO, NOTHING, YES};
use index::IndexedBook;
use loaded::run_loaded;
use numbers::{answer_length, answer_outcome};

// Runs scope i of a loaded book on given cells, and writes its row: the outcome, and the results or as many zeros.
fn fill_row(
    book: &IndexedBook,
    links: &[u8],
    orders: &[u8],
    i: usize,
    given: &[u64],
    memo: &mut [u64],
    row: &mut [u8],
)
    requires { FillsRow book.now.bytes.now book.now.index.now links.now orders.now i given.now memo.old row.old }
    ensures row_after { row.new ≡ cell_row book.now.bytes.now i given.now }
    ensures known { Known book.now.bytes.now memo.new }
{
    let answer = run_loaded(book, links, orders, i, given, memo, &mut row[1..]);
    row[0] = answer_outcome(answer);
    row[1 + answer_length(answer)..].fill(0);
}

// Fills the rows of all assignments of the chosen variables, the first one's changing slowest. Their cells hold nothing, and do so again
// afterwards.
pub fn fill_rows(
    book: &IndexedBook,
    links: &[u8],
    orders: &[u8],
    i: usize,
    chosen: &[u8],
    given: &mut [u64],
    memo: &mut [u64],
    table: &mut [u8],
)
    requires { FillsRows book.now.bytes.now book.now.index.now links.now orders.now i chosen.now given.old memo.old table.old }
    ensures table_after { table.new ≡ cell_rows book.now.bytes.now i chosen.now given.old }
    ensures given_unchanged { given.new ≡ given.old }
    ensures known { Known book.now.bytes.now memo.new }
{
    let [v, rest @ ..] = chosen else {
        fill_row(book, links, orders, i, given, memo, table);
        return;
    };
    let v = usize::from(*v);
    let half = table.len() / 2;
    given[v] = NO;
    let first = &mut table[..half];
    fill_rows(book, links, orders, i, rest, given, memo, first);
    given[v] = YES;
    let second = &mut table[half..];
    fill_rows(book, links, orders, i, rest, given, memo, second);
    given[v] = NOTHING;
}

// The length of the table of k chosen variables, its results being of this length.
pub fn table_length(k: usize, size: usize) -> usize
    requires { (k ≤ 12) × (size ≤ 192) }
    ensures { result ≡ power k * suc size }
{
    let mut length = size + 1;
    for _j in 0..k {
        length = 2 * length;
    }
    length
}
