// Replays a list of fields of six columns. Each line of standard input is six bytes and byte 10; for each the field's value is written, or
// its refusal. A read that fails ends the program with its error; a write that fails is passed over. The files `stdin` and `stdout` are the
// outside vectors.
#![tactic(auto)]

ghost use Rattle.std.specs.Prelude.{◌≡◌, length};

use bounds::Text;
use replay_text::{INPUT_PLACES, MAX_BYTES};
use std::io;
use std::io::Read;

// Writes what the field at a place of the text says.
fn write_reading(rt: &impl Print, text: &[u8], at: usize) {
    let _ = match fields::read_field(text, at) {
        Some(x) => println!(rt; "{x}"),
        None => println!(rt; "refused 3"),
    };
}

// Replays the lines of a text.
fn replay_lines(rt: &impl Print, text: &[u8]) {
    for at in (0..text.len()).step_by(Text::LINE_OF_ONE) {
        write_reading(rt, text, at);
    }
}

// Zeros, of which a proof sees the number alone.
fn input_buffer() -> [u8; INPUT_PLACES]
    ensures { 1048577 ≡ length result }
{
    [0; INPUT_PLACES]
}

fn main(rt: HostRuntime) -> io::Result<()> {
    let mut input = input_buffer();
    let mut places: &mut [u8] = &mut input;
    let read = io::copy(&mut rt.reader().take(INPUT_PLACES as u64), &mut places)?;
    if read > MAX_BYTES as u64 {
        let _ = println!(rt; "the input is longer than its buffer");
        return Ok(());
    }
    replay_lines(&rt, &input[..read as usize]);
    Ok(())
}
