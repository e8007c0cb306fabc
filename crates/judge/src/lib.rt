// Judging a book: the first fault in the order written, or the number of its scopes; and the tables of an accepted book.
#![tactic(auto)]

ghost use Rattle.std.specs.Prelude.{◌≡◌, length};
ghost use Rattle.book.specs.Decode.{scopes_of};
ghost use Rattle.book.specs.Judge.{whole_book};
ghost use Rattle.book.specs.Judge.{judge as Judge·judge};
ghost use Rattle.scan.specs.Filling.{Unfilled};
ghost use Rattle.steps.specs.Limits.{WellNamed};
ghost use Rattle.judge.specs.Verdict.{Room, Loads, order_faults};

use answers::Fault;
use checks::find_faults;
use index::IndexedBook;
use mixing::has_mixed;
use scan::{has_few_scopes, read_records};
use steps::{block_order, fill_steps};
use weights::fill_weights;

// The bytes that a book may have.
const BYTES: usize = 32768;

// Faults 10 to 12, over calls and steps: fills the orders and the weights.
fn judge_orders(
    book: &IndexedBook,
    blocks: &mut [u8],
    weights: &mut [u16],
    orders: &mut [u8],
) -> Result<usize, Fault>
    requires counted { book.now.scopes ≡ length (scopes_of book.now.bytes.now) }
    requires named { WellNamed book.now.bytes.now }
    requires room { Room blocks.old weights.old orders.old }
    ensures { Loads book.now.bytes.now book.now.index.now blocks.new weights.new orders.new (order_faults (scopes_of book.now.bytes.now)) result }
{
    if block_order(book, blocks) != book.scopes {
        return Err(Fault::ScopeCycle);
    }
    if fill_weights(book, blocks, weights) {
        return Err(Fault::WeightExceeded);
    }
    if fill_steps(book, orders) {
        return Err(Fault::DependencyCycle);
    }
    Ok(book.scopes)
}

// Faults 6 to 12 of a book whose records are sound, each over the whole book: fills the orders and the weights.
fn judge_whole(
    book: &IndexedBook,
    blocks: &mut [u8],
    weights: &mut [u16],
    orders: &mut [u8],
) -> Result<usize, Fault>
    requires counted { book.now.scopes ≡ length (scopes_of book.now.bytes.now) }
    requires room { Room blocks.old weights.old orders.old }
    ensures { Loads book.now.bytes.now book.now.index.now blocks.new weights.new orders.new (whole_book (scopes_of book.now.bytes.now)) result }
{
    let found = find_faults(book).ok_or(Fault::DanglingReference)?;
    if found.shares {
        return Err(Fault::SharedNode);
    }
    if found.mismatches {
        return Err(Fault::TypeMismatch);
    }
    if has_mixed(book) {
        return Err(Fault::MixedClauses);
    }
    judge_orders(book, blocks, weights, orders)
}

// Loads a book: judges it, and fills the tables of an accepted one. They are lent empty.
pub fn load(
    book: &[u8],
    index: &mut [u16],
    blocks: &mut [u8],
    weights: &mut [u16],
    orders: &mut [u8],
) -> Result<usize, Fault>
    requires { Unfilled book.now index.old × Room blocks.old weights.old orders.old }
    ensures { Loads book.now index.new blocks.new weights.new orders.new (Judge·judge book.now) result }
{
    if BYTES < book.len() {
        return Err(Fault::LimitExceeded);
    }
    let scopes = read_records(book, index)?;
    let indexed = IndexedBook {
        bytes: book,
        index,
        scopes,
    };
    judge_whole(&indexed, blocks, weights, orders)
}

// Judges a book with an empty index.
fn judge_in(book: &[u8], index: &mut [u16]) -> Result<usize, Fault>
    requires { Unfilled book.now index.old }
    ensures { result ≡ Judge·judge book.now }
{
    let mut blocks = [0u8; 32];
    let mut weights = [0u16; 32];
    let mut orders = [0u8; 1280];
    load(book, index, &mut blocks, &mut weights, &mut orders)
}

// Judges a book: accepted with the number of its scopes, or refused with the first fault.
pub fn judge(book: &[u8]) -> Result<usize, Fault>
    ensures { result ≡ Judge·judge book.now }
{
    if has_few_scopes(book) {
        let mut few = [0u16; 3472];
        return judge_in(book, &mut few);
    }
    let mut all = [0u16; 13504];
    judge_in(book, &mut all)
}
