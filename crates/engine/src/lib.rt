// The engine: its four services and tabulating, what they answer, the answers' numbers, and the four services together with the claim about
// them. It is the one crate that a user names.
#![tactic(auto)]

ghost use Rattle.engine.specs.Claim.{Together};

pub use answers::{Answer, Cause, Fault, Refusal, Side};
pub use compiler::compile;
pub use evaluator::evaluate;
pub use judge::judge;
pub use numbers::{cause_number, fault_number, refusal_number};
pub use runner::run;
use slices::part_of;
pub use tabulator::tabulate;

// What the four services answer.
#[derive(Clone, Copy, Debug, PartialEq, Eq)]
pub struct Answers {
    pub judged: Result<usize, Fault>,
    pub compiled: Result<usize, Refusal>,
    pub evaluated: Result<Answer, Refusal>,
    pub ran: Result<Answer, Refusal>,
}

// All four services on one book: judges it, compiles it into the code memory, evaluates a scope of it, and runs the code that compiling
// wrote, with the same scope number and inputs.
pub fn all_services(
    book: &[u8],
    code: &mut [u8],
    scope: usize,
    inputs: &[u8],
    evaluated: &mut [u8],
    ran: &mut [u8],
) -> Answers
    ensures { Together book.now scope inputs.now
        (record {
          code_before = code.old;
          code_after = code.new;
          evaluated_before = evaluated.old;
          evaluated_after = evaluated.new;
          ran_before = ran.old;
          ran_after = ran.new;
        })
        result }
{
    let judged = judge(book);
    let compiled = compile(book, code);
    let evaluation = evaluate(book, scope, inputs, evaluated);
    let written = part_of(code, 0, compiled.unwrap_or(0));
    let running = run(written, scope, inputs, ran);
    Answers {
        judged,
        compiled,
        evaluated: evaluation,
        ran: running,
    }
}
