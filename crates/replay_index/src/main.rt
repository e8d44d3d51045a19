// Replays questions to the index of a block. Standard input is numbers: how many blocks; for each its rows and columns, the lengths row by row if both are within
// bounds, how many questions there are, and each as its row, its first column and its end. For each question the code and the column of the answer are
// written. Both buffers are filled with 7 before. Where an index is refused, its number is written behind `refused`. A read that fails ends the program with
// its error; a write that fails is passed over. The files `stdin` and `stdout` are the outside vectors.
#![tactic(auto)]

ghost use Rattle.std.specs.Prelude.{◌≡◌, length};

use bounds::{Network, Session};
use definitions::{Cause, Code};
use replay_text::{INPUT_PLACES, MAX_BYTES, Numbers};
use std::io;
use std::io::Read;

// What a buffer holds before: a place that must be written, and one that must not be read, show.
const FILLER: u8 = 7;

// The code of a question that is answered by a column.
const DONE: u32 = 0;

// A block with its rows and columns, and the bytes of its index.
#[derive(Drop)]
struct Block {
    rows: u32,
    cols: u32,
    lengths: [[u32; Network::ROW_PLACES]; Session::SIDE_PLACES],
    held: [u8; Session::INDEX_PLACES],
}

impl Block {
    // There are no lengths where rows or columns are out of bounds.
    fn read(numbers: &mut Numbers<'_>) -> Block {
        let mut block = Block {
            rows: numbers.number(),
            cols: numbers.number(),
            lengths: [[FILLER as u32; Network::ROW_PLACES]; Session::SIDE_PLACES],
            held: [FILLER; Session::INDEX_PLACES],
        };
        numbers.fill_rows(block.rows as usize, block.cols as usize, &mut block.lengths);
        block
    }

    // Builds the index; a refusal is written.
    fn build(&mut self, rt: &impl Print) {
        let built = index::build_index(
            self.rows,
            self.cols,
            self.lengths.as_flattened(),
            &mut self.held,
        );
        if let Err(cause) = built {
            let number = cause.number();
            let _ = println!(rt; "refused{number:>11}");
        }
    }

    // Asks the index for the least of a stretch of a row.
    fn ask(&self, row: u32, first: u32, end: u32) -> Result<Option<u32>, Cause> {
        index::ask_index(
            self.rows,
            self.cols,
            self.lengths.as_flattened(),
            &self.held,
            row,
            first,
            end,
        )
    }
}

// Writes the code and the column of an answer, each right-justified in eleven columns.
fn write_least(rt: &impl Print, least: Result<Option<u32>, Cause>) {
    let (code, column) = match least {
        Ok(Some(column)) => (DONE, column),
        Ok(None) => (Code::Nothing.number(), 0),
        Err(cause) => (cause.number(), 0),
    };
    let _ = println!(rt; "{code:>11}{column:>11}");
}

// Replays the question that the next three numbers say.
fn replay_question(rt: &impl Print, numbers: &mut Numbers<'_>, block: &Block) {
    let row = numbers.number();
    let first = numbers.number();
    let end = numbers.number();
    write_least(rt, block.ask(row, first, end));
}

// Replays a block with its questions; a text that ends early has fewer than it says.
fn replay_block(rt: &impl Print, numbers: &mut Numbers<'_>) {
    let mut block = Block::read(numbers);
    block.build(rt);
    for _ in 0..numbers.number() {
        if numbers.is_at_end() {
            return;
        }
        replay_question(rt, numbers, &block);
    }
}

// Replays the blocks of a text; a text that ends early has fewer than it says.
fn replay_blocks(rt: &impl Print, text: &[u8]) {
    let mut numbers = Numbers::new(text);
    for _ in 0..numbers.number() {
        if numbers.is_at_end() {
            return;
        }
        replay_block(rt, &mut numbers);
    }
}

// Zeros, of which a proof sees the number alone.
fn input_buffer() -> [u8; INPUT_PLACES]
    ensures { 1048577 ≡ length result }
{
    [0; INPUT_PLACES]
}

fn main(rt: HostRuntime) -> io::Result<()> {
    let mut input = input_buffer();
    let mut places: &mut [u8] = &mut input;
    let read = io::copy(&mut rt.reader().take(INPUT_PLACES as u64), &mut places)?;
    if read > MAX_BYTES as u64 {
        let _ = println!(rt; "the input is longer than its buffer");
        return Ok(());
    }
    replay_blocks(&rt, &input[..read as usize]);
    Ok(())
}
