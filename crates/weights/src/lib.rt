// Fault 11: the weights of the scopes, along the order of blocks.
#![tactic(auto)]

ghost use Rattle.std.specs.Prelude.{◌≡◌, ◌≤◌, length};
ghost use Rattle.book.specs.Decode.{scopes_of};
ghost use Rattle.book.specs.References.{scope_at};
ghost use Rattle.steps.specs.Limits.{WholeOrder};
ghost use Rattle.weights.specs.Weighing.{Weight, weight_by, Weighed};

use index::IndexedBook;

// The greatest weight that a scope may have.
const WEIGHT_LIMIT: usize = 4096;

// The weight at j, 0 past the end.
fn weight_at(weights: &[u16], j: usize) -> usize
    ensures { Weight weights.now j result }
{
    weights.get(j).map_or(0, |w| usize::from(*w))
}

// The weight of scope i, by those of the sub-scopes that it calls.
fn weigh(book: &IndexedBook, i: usize, weights: &[u16]) -> usize
    ensures { result ≡ weight_by weights.now (scope_at (scopes_of book.now.bytes.now) i) }
{
    let mut total: usize = 1;
    for k in 0..book.sub_scope_count(i) {
        let called = book.sub_scope_at(i, k);
        total += weight_at(weights, called);
    }
    total
}

// The weights of all scopes, by their numbers, for an order of all blocks. Answers whether one is above 4,096, and stops there.
pub fn fill_weights(book: &IndexedBook, blocks: &[u8], weights: &mut [u16]) -> bool
    requires counted { book.now.scopes ≡ length (scopes_of book.now.bytes.now) }
    requires order { WholeOrder book.now.bytes.now blocks.now book.now.scopes }
    requires room { 32 ≤ length weights.old }
    ensures { Weighed (scopes_of book.now.bytes.now) result weights.new }
{
    for block in &blocks[..book.scopes] {
        let i = *block as usize;
        let w = weigh(book, i, weights);
        if WEIGHT_LIMIT < w {
            return true;
        }
        weights[i] = w as u16;
    }
    false
}
