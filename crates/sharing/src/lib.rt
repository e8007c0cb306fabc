// Fault 7, a node that is named more than once: marks for the numbers that are named.
#![tactic(auto)]

ghost use Rattle.std.specs.Prelude.{[], ◌∷◌};
ghost use Rattle.book.specs.Sharing.{unless255};
ghost use Rattle.sharing.specs.Marks.{Marking};

// Marks a number, and says whether a number was met twice: so far, or by this one.
pub fn mark(marks: &mut [u8], twice: bool, w: u8) -> bool
    ensures { Marking (w ∷ []) marks.old twice result marks.new }
{
    let at = w as usize;
    if marks.len() <= at {
        return twice;
    }
    let before = marks[at];
    marks[at] = 1;
    if before == 0 { twice } else { true }
}

// Marks a number, unless it is 255: none, or always.
pub fn mark_unless(marks: &mut [u8], twice: bool, w: u8) -> bool
    ensures { Marking (unless255 w []) marks.old twice result marks.new }
{
    if w == 255 {
        twice
    } else {
        mark(marks, twice, w)
    }
}
