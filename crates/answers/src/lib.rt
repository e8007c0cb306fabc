// What the services answer.
#![tactic(auto)]

ghost use Rattle.std.specs.Prelude.{◌≡◌};
ghost use Rattle.answers.specs.declared.Refusal.TheVariants.{Book};

use std::fmt;

// On which side of the range an exact result lies that leaves it, above 2,147,483,647 or below −2,147,483,648: "An operator who sees 'range' must know
// if the speed ran high or low" (paper 02, No. 3).
#[derive(Clone, Copy, Debug, PartialEq, Eq)]
pub enum Side {
    Above,
    Below,
}

// Why a run ends without a value.
#[derive(Clone, Copy, Debug, PartialEq, Eq)]
pub enum Cause {
    Empty,
    Conflict,
    OutOfRange(Side),
}

// The word of the printed line.
impl fmt::Display for Cause {
    ghost use Rattle.std.specs.Prelude.{Some};
    ghost use Rattle.answers.specs.Words.{cause_word};

    ghost output = { λ c. Some (cause_word c) };

    fn fmt<W: fmt::Write>(&self, f: &mut fmt::Formatter<W>) -> fmt::Result {
        f.write_str(match self {
            Cause::Empty => "empty",
            Cause::Conflict => "conflict",
            Cause::OutOfRange(Side::Above) => "above",
            Cause::OutOfRange(Side::Below) => "below",
        })
    }
}

// Why a book is refused.
#[derive(Clone, Copy, Debug, PartialEq, Eq)]
pub enum Fault {
    Truncated,
    UnknownKind,
    OutOfOrder,
    LimitExceeded,
    InvalidByte,
    DanglingReference,
    SharedNode,
    TypeMismatch,
    MixedClauses,
    ScopeCycle,
    WeightExceeded,
    DependencyCycle,
}

// Why a service refuses: the numbers 1 to 18.
#[derive(Clone, Copy, Debug, PartialEq, Eq)]
pub enum Refusal {
    Book(Fault),
    NoSuchScope,
    BadInput,
    BufferTooSmall,
    BadCode,
    Stuck,
    BadChoice,
}

impl From<Fault> for Refusal {
    ghost from_gives = { λ f r. r ≡ Book f };

    fn from(f: Fault) -> Refusal {
        Refusal::Book(f)
    }
}

// What evaluating and running answer where nothing is refused: the count of scopes entered and, where the run ends in values, the length of
// the results.
#[derive(Clone, Copy, Debug, PartialEq, Eq)]
pub enum Answer {
    Values(usize, usize),
    Ended(Cause, usize),
}
