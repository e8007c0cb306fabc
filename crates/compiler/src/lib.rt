// Compiling a book: the service.
#![tactic(auto)]

ghost use Rattle.compiler.specs.Compile.{Compiles};
ghost use Rattle.scan.specs.Filling.{Unfilled};
ghost use Rattle.emitter.specs.Pieces.{Tabled};

use answers::Refusal;
use emitter::emit_blocks;
use index::IndexedBook;
use judge::load;
use scan::has_few_scopes;

// Compiles an accepted book, with room to write it in first: the length is known before the code memory changes. Code that the room does not
// hold is written again.
fn compile_through(
    book: &IndexedBook,
    blocks: &[u8],
    orders: &[u8],
    room: &mut [u8],
    code: &mut [u8],
) -> Result<usize, Refusal>
    requires { Tabled book.now.bytes.now book.now.index.now blocks.now orders.now book.now.scopes }
    ensures { Compiles book.now.bytes.now code.old result code.new }
{
    let length = emit_blocks(book, blocks, orders, room);
    if code.len() < length {
        return Err(Refusal::BufferTooSmall);
    }
    if length <= room.len() {
        let start = room.len() - length;
        code[..length].copy_from_slice(&room[start..]);
    } else {
        emit_blocks(book, blocks, orders, &mut code[..length]);
    }
    Ok(length)
}

// Compiles an accepted book. A short book gets less room, since clearing it takes time.
fn compile_accepted(
    book: &IndexedBook,
    blocks: &[u8],
    orders: &[u8],
    code: &mut [u8],
) -> Result<usize, Refusal>
    requires { Tabled book.now.bytes.now book.now.index.now blocks.now orders.now book.now.scopes }
    ensures { Compiles book.now.bytes.now code.old result code.new }
{
    if book.bytes.len() < 192 {
        let mut room = [0u8; 1024];
        return compile_through(book, blocks, orders, &mut room, code);
    }
    if book.bytes.len() < 1536 {
        let mut room = [0u8; 8192];
        return compile_through(book, blocks, orders, &mut room, code);
    }
    let mut room = [0u8; 65536];
    compile_through(book, blocks, orders, &mut room, code)
}

// Compiles a book into lent memory, with an empty index.
fn compile_in(book: &[u8], index: &mut [u16], code: &mut [u8]) -> Result<usize, Refusal>
    requires { Unfilled book.now index.old }
    ensures { Compiles book.now code.old result code.new }
{
    let mut blocks = [0u8; 32];
    let mut weights = [0u16; 32];
    let mut orders = [0u8; 1280];
    let scopes = load(book, index, &mut blocks, &mut weights, &mut orders)?;
    let indexed = IndexedBook {
        bytes: book,
        index,
        scopes,
    };
    compile_accepted(&indexed, &blocks, &orders, code)
}

// Compiles a book into lent memory: the length written. A refusal leaves every byte as it was.
pub fn compile(book: &[u8], code: &mut [u8]) -> Result<usize, Refusal>
    ensures { Compiles book.now code.old result code.new }
{
    if has_few_scopes(book) {
        let mut few = [0u16; 3472];
        return compile_in(book, &mut few, code);
    }
    let mut all = [0u16; 13504];
    compile_in(book, &mut all, code)
}
