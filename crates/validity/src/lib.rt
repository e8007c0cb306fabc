// Whether a record stands where it may, and whether its bytes have values that they may have: faults 3 and 5, for book and code.
#![tactic(auto)]

ghost use Rattle.std.specs.Prelude.{◌≡◌, ◌||◌, eqb};
ghost use Rattle.book.specs.Records.{follows, invalid};

use record::{KIND_CONFLICT, KIND_CONSTANT, KIND_EMPTY, KIND_RULE, KIND_VARIABLE};
use slices::byte_at;

// Whether a record of this stage may stand after one of the stage `last`; 0: there was none.
#[tactic(auto, unfolding(book::specs::Records::follows))]
pub fn may_follow(last: usize, stage: usize) -> bool
    ensures { result ≡ follows last stage }
{
    stage == 1 || (0 < last && last <= stage)
}

// "type: 1 yes/no, 2 number"
fn is_type(b: u8) -> bool
    ensures { result ≡ (eqb b 1 || eqb b 2) }
{
    matches!(b, 1 | 2)
}

// Whether a type, constant or rule byte stands outside its values.
#[tactic(auto, unfolding(book::specs::Records::invalid))]
pub fn is_invalid(kind: u8, body: &[u8]) -> bool
    ensures { result ≡ invalid kind body.now }
{
    match kind {
        KIND_VARIABLE | KIND_EMPTY | KIND_CONFLICT => !is_type(byte_at(body, 0)),
        KIND_CONSTANT => 1 < byte_at(body, 0),
        KIND_RULE => 1 < byte_at(body, 4),
        _ => false,
    }
}
