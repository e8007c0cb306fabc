// The pass over the records of a book: the faults 1 to 5, and the index by which the records are found.
#![tactic(auto)]

ghost use Rattle.std.specs.Prelude.{◌≡◌, ◌<◌, ◌≤◌, length};
ghost use Rattle.scan.specs.Step.{book_record_at, end_at, step_at, step_over};
ghost use Rattle.scan.specs.Counting.{slot_of, number_of, scopes_with, tally_of, Counts, Counting};
ghost use Rattle.scan.specs.Filling.{Room, stored, scope_bytes, FewScopes, Blank, Recorded};

use answers::Fault;
use index::{CLAUSES, NODES, ROW, ROWS, SORTS, SUB_SCOPES, VARIABLES};
use record::{KIND_SCOPE, Medium, Record, body_at, record_at};
use validity::{is_invalid, may_follow};

// A record without a fault: its stage, and the position after it.
#[derive(Clone, Copy)]
struct Passed {
    pub stage: usize,
    pub next: usize,
}

// The column of a scope's row where the positions of a stage begin, and how many records of it there may be.
#[derive(Clone, Copy)]
struct Slot {
    pub base: usize,
    pub limit: usize,
}

// A lent book and the position that is read next.
#[derive(Clone, Copy)]
struct Reader<'a> {
    pub src: &'a [u8],
    pub at: usize,
}

// The slot of a stage; stage 1 has no column.
#[tactic(auto, unfolding(crate::specs::Counting::slot_of))]
fn slot_of(stage: usize) -> Slot
    ensures { result ≡ slot_of stage }
{
    match stage {
        1 => Slot { base: 0, limit: 32 },
        2 => Slot {
            base: VARIABLES,
            limit: 32,
        },
        3 => Slot {
            base: SUB_SCOPES,
            limit: 8,
        },
        4 => Slot {
            base: NODES,
            limit: 250,
        },
        // Clauses: a whole record has no other stage.
        _ => Slot {
            base: CLAUSES,
            limit: 128,
        },
    }
}

// How many records of a stage there are so far: scopes in the book, others in its last scope.
fn number_of(index: &[u16], stage: usize, scopes: usize) -> usize
    requires { Counts index.now stage scopes }
    ensures { result ≡ number_of index.now stage scopes }
{
    if stage < 2 {
        return scopes;
    }
    usize::from(index[(scopes - 1) * SORTS + (stage - 2)])
}

// What stands at a position of a book.
#[tactic(auto, unfolding(crate::specs::Step::book_record_at))]
fn book_record_at(book: &[u8], at: usize) -> Record
    ensures { result ≡ book_record_at book.now at }
{
    record_at(Medium::Book, book, at)
}

// The position after a record at a position, its body of so many bytes; the same position where the book ends before.
#[tactic(auto, unfolding(crate::specs::Step::end_at))]
fn end_at(book: &[u8], at: usize, length: usize) -> usize
    ensures { result ≡ end_at book.now at length }
{
    if book.len() <= at {
        return at;
    }
    let start = at + 1;
    if book.len() - start < length {
        return at;
    }
    start + length
}

impl<'a> Reader<'a> {
    // A reader of a book, from a position on.
    fn open_at(src: &'a [u8], at: usize) -> Reader<'a>
        ensures { (result.src ≡ src.entry) × (result.at ≡ at) }
    {
        Reader { src, at }
    }

    // What stands at its position.
    fn next(self) -> Record
        ensures { result ≡ book_record_at self.entry.src.now self.entry.at }
    {
        book_record_at(self.src, self.at)
    }

    // The reader after the record at its position, its body of so many bytes.
    fn after(self, length: usize) -> Reader<'a>
        ensures { (result.src ≡ self.entry.src) × (result.at ≡ end_at self.entry.src.now self.entry.at length) }
    {
        Reader {
            src: self.src,
            at: end_at(self.src, self.at, length),
        }
    }
}

// From a book and a position to a reader and back: what stands there, and the position of the reader after it.
fn read_from(book: &[u8], at: usize) -> Record
    ensures { result ≡ book_record_at book.now at }
{
    Reader::open_at(book, at).next()
}

fn read_on(book: &[u8], at: usize, length: usize) -> usize
    ensures { result ≡ end_at book.now at length }
{
    Reader::open_at(book, at).after(length).at
}

// A whole record, up to the next one, after one of the stage `last`, the index having those before it.
fn step_over(
    index: &[u16],
    last: usize,
    scopes: usize,
    kind: u8,
    stage: usize,
    next: usize,
    body: &[u8],
) -> Result<Passed, Fault>
    requires { Counting index.now last scopes × (1 ≤ stage) × (stage ≤ 5) }
    ensures { result ≡ step_over index.now last scopes kind stage next body.now }
{
    if !may_follow(last, stage) {
        return Err(Fault::OutOfOrder);
    }
    let slot = slot_of(stage);
    if slot.limit <= number_of(index, stage, scopes) {
        return Err(Fault::LimitExceeded);
    }
    if is_invalid(kind, body) {
        return Err(Fault::InvalidByte);
    }
    Ok(Passed { stage, next })
}

// The record at a position, after one of the stage `last`, the index having those before it.
fn step_at(
    book: &[u8],
    index: &[u16],
    at: usize,
    last: usize,
    scopes: usize,
) -> Result<Passed, Fault>
    requires { (at < length book.now) × Counting index.now last scopes }
    ensures { result ≡ step_at book.now at (tally_of index.now last scopes) }
{
    match read_from(book, at) {
        Record::End => Err(Fault::Truncated),
        Record::Unknown => Err(Fault::UnknownKind),
        Record::Truncated => Err(Fault::Truncated),
        Record::Whole(kind, stage, length) => {
            let body = body_at(book, at, length);
            let next = read_on(book, at, length);
            step_over(index, last, scopes, kind, stage, next, body)
        }
    }
}

// Stores where a record of a stage begins, and that its scope has one more of them. Scopes themselves have no column.
fn store(index: &mut [u16], at: usize, stage: usize, scopes: usize)
    requires { Room index.old at stage scopes }
    ensures { index.new ≡ stored index.old at stage scopes }
{
    if stage < 2 {
        return;
    }
    let slot = slot_of(stage);
    let base = slot.base;
    let number = number_of(index, stage, scopes);
    let row = scopes - 1;
    index[ROWS + row * ROW + (base + number)] = at as u16;
    index[row * SORTS + (stage - 2)] = (number + 1) as u16;
}

// The number of scopes with a record of a stage.
#[tactic(auto, unfolding(crate::specs::Counting::scopes_with))]
fn scopes_with(stage: usize, scopes: usize) -> usize
    requires { scopes ≤ 32 }
    ensures { result ≡ scopes_with stage scopes }
{
    if stage == 1 { scopes + 1 } else { scopes }
}

// How many bytes of a short book may begin a scope. A count of two bytes lets the compiler count many at a time.
fn scope_bytes(book: &[u8]) -> u16
    requires { length book.now < 512 }
    ensures { result ≡ scope_bytes book.now }
{
    // `filter` and `count` are slower: the compiler then counts byte by byte.
    let mut count: u16 = 0;
    for byte in book {
        if *byte == KIND_SCOPE {
            count += 1;
        }
    }
    count
}

// Whether a book is seen to have at most 8 scopes: it is short, and few of its bytes may begin one. Such a book needs an index of 8 rows only.
pub fn has_few_scopes(book: &[u8]) -> bool
    ensures { FewScopes book.now result }
{
    book.len() < 512 && scope_bytes(book) <= 8
}

// Reads the records of a book in one pass: the first faulty one's first fault, or the index by which the records are found.
pub fn read_records(book: &[u8], index: &mut [u16]) -> Result<usize, Fault>
    requires { Blank book.now index.old }
    ensures { Recorded book.now index.new result }
{
    let mut last: usize = 0;
    let mut scopes: usize = 0;
    let mut at: usize = 0;
    while at < book.len() {
        let Passed { stage, next } = step_at(book, index, at, last, scopes)?;
        store(index, at, stage, scopes);
        scopes = scopes_with(stage, scopes);
        last = stage;
        at = next;
    }
    Ok(scopes)
}
