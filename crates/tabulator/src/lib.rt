// Tabulating a scope of a book: the service.
#![tactic(auto)]

ghost use Rattle.std.specs.Prelude.{Ok};
ghost use Rattle.loaded.specs.Loaded.{Prepared};
ghost use Rattle.tabulation.specs.Tabulate.{Tabulates};
ghost use Rattle.tabulator.specs.Service.{TableAsked, WritesTable};

use answers::Refusal;
use choices::choose;
use index::IndexedBook;
use inputs::read_inputs;
use loaded::prepare;
use results::result_length;
use rows::{fill_rows, table_length};
use slices::part_of;

// Writes the table of scope i of a loaded book for the chosen variables, which stand in number order in the first of 32 places. The whole table
// has room before a byte of it is written.
fn write_table(
    book: &IndexedBook,
    links: &[u8],
    orders: &[u8],
    i: usize,
    chosen: &[u8],
    ordered: &[u8],
    given: &mut [u64],
    table: &mut [u8],
) -> Result<usize, Refusal>
    requires { TableAsked book.now.bytes.now book.now.index.now links.now orders.now i chosen.now ordered.now given.old }
    ensures { WritesTable book.now.bytes.now i chosen.now given.old table.old result table.new }
{
    let k = chosen.len();
    let length = table_length(k, result_length(book, i));
    if table.len() < length {
        return Err(Refusal::BufferTooSmall);
    }
    let order = part_of(ordered, 0, k);
    let mut memo = [0u64; 1056];
    fill_rows(
        book,
        links,
        orders,
        i,
        order,
        given,
        &mut memo,
        &mut table[..length],
    );
    Ok(length)
}

// Tabulates scope i of a loaded book.
fn tabulate_loaded(
    book: &IndexedBook,
    links: &[u8],
    orders: &[u8],
    i: usize,
    chosen: &[u8],
    inputs: &[u8],
    table: &mut [u8],
) -> Result<usize, Refusal>
    requires { Prepared book.now.bytes.now book.now.index.now links.now orders.now (Ok book.now.scopes) }
    ensures { Tabulates book.now.bytes.now i chosen.now inputs.now table.old result table.new }
{
    if book.scopes <= i {
        return Err(Refusal::NoSuchScope);
    }
    let mut given = [0u64; 32];
    if !read_inputs(book, i, inputs, &mut given) {
        return Err(Refusal::BadInput);
    }
    let mut ordered = [0u8; 32];
    if !choose(book, i, &given, chosen, &mut ordered) {
        return Err(Refusal::BadChoice);
    }
    write_table(book, links, orders, i, chosen, &ordered, &mut given, table)
}

// Tabulates a scope of a book: a row for each choice of no and yes for the chosen variables, with a fixed input list for the rest. The length
// written; a refusal leaves every byte as it was.
pub fn tabulate(
    book: &[u8],
    scope: usize,
    chosen: &[u8],
    inputs: &[u8],
    table: &mut [u8],
) -> Result<usize, Refusal>
    ensures { Tabulates book.now scope chosen.now inputs.now table.old result table.new }
{
    let mut index = [0u16; 13504];
    let mut links = [255u8; 26688];
    let mut orders = [0u8; 1280];
    let scopes = prepare(book, &mut index, &mut links, &mut orders)?;
    let indexed = IndexedBook {
        bytes: book,
        index: &index,
        scopes,
    };
    tabulate_loaded(&indexed, &links, &orders, scope, chosen, inputs, table)
}
