// Replays sessions. Standard input is numbers: how many sessions; for each its rows, columns and number of calls, the lengths row by row if rows and
// columns are within bounds, and the calls if their number is. For each session its number, inserted and removed are written; if the number is 0 then
// its answers, how many intervals are kept and these in the order in which they stand. Every buffer is filled with 7 before: where a place that must be
// left or written is not, `wrong` is written. A read that fails ends the program with its error; a write that fails is passed over. The files
// `stdin` and `stdout` are the outside vectors.
#![tactic(auto)]

ghost use Rattle.std.specs.Prelude.{◌≡◌, length};

use bounds::{Network, Session};
use definitions::SessionAnswer;
use replay_text::{INPUT_PLACES, MAX_BYTES, Numbers};
use std::io;
use std::io::Read;

// What a buffer holds before a session: a place that must be left or written shows.
const FILLER: u32 = 7;

// The number of a session that nothing turned away.
const ACCEPTED: u32 = 0;

// The most calls, as places.
const CALLS: usize = Session::MAX_CALLS as usize;

// ---- what a session is given

// The rectangle with its rows and columns, and the calls with their number.
#[derive(Drop)]
struct Given {
    rows: u32,
    cols: u32,
    count: u32,
    lengths: [[u32; Network::ROW_PLACES]; Session::SIDE_PLACES],
    calls: [[u32; Session::CALL_SIZE]; CALLS],
}

impl Given {
    // There are no lengths where rows or columns are out of bounds, and no calls where their number is.
    fn read(numbers: &mut Numbers<'_>) -> Given {
        let mut given = Given {
            rows: numbers.number(),
            cols: numbers.number(),
            count: numbers.number(),
            lengths: [[FILLER; Network::ROW_PLACES]; Session::SIDE_PLACES],
            calls: [[FILLER; Session::CALL_SIZE]; CALLS],
        };
        numbers.fill_rows(given.rows as usize, given.cols as usize, &mut given.lengths);
        numbers.fill_rows(given.count as usize, Session::CALL_SIZE, &mut given.calls);
        given
    }

    // Runs the session on buffers that are filled before.
    fn run(&self, written: &mut Written) -> SessionAnswer {
        engine::run_session(
            self.rows,
            self.cols,
            self.count,
            self.lengths.as_flattened(),
            self.calls.as_flattened(),
            written.answers.as_flattened_mut(),
            written.intervals.as_flattened_mut(),
        )
    }
}

// ---- what it writes

// The answers and the intervals.
#[derive(Drop)]
struct Written {
    answers: [[u32; Session::ANSWER_SIZE]; CALLS],
    intervals: [[u32; Session::INTERVAL_SIZE]; Session::SIDE_PLACES],
}

impl Written {
    // Both before a session.
    fn filled() -> Written {
        Written {
            answers: [[FILLER; Session::ANSWER_SIZE]; CALLS],
            intervals: [[FILLER; Session::INTERVAL_SIZE]; Session::SIDE_PLACES],
        }
    }

    // How many intervals are kept. The first that is not has the parent UNUSED; a best sum may be the same number.
    fn kept(&self) -> usize {
        self.intervals
            .iter()
            .take_while(|interval| interval[0] != Session::UNUSED)
            .count()
    }

    // Whether both are as they were filled.
    fn is_left(&self) -> bool {
        self.answers
            .iter()
            .all(|answer| *answer == [FILLER; Session::ANSWER_SIZE])
            && self
                .intervals
                .iter()
                .all(|interval| *interval == [FILLER; Session::INTERVAL_SIZE])
    }

    // Whether the places that hold none of so many answers and no interval are as they must be.
    fn is_clean(&self, count: u32) -> bool {
        self.answers
            .iter()
            .skip(count as usize)
            .all(|answer| *answer == [0; Session::ANSWER_SIZE])
            && self.intervals.iter().skip(self.kept()).all(|interval| *interval
                == [Session::UNUSED; Session::INTERVAL_SIZE])
    }

    // Writes the answers of so many calls, a line each.
    fn write_answers(&self, rt: &impl Print, count: u32) {
        for answer in self.answers.iter().take(count as usize) {
            write_line(rt, answer);
        }
    }

    // Writes how many intervals are kept, and these, a line each.
    fn write_intervals(&self, rt: &impl Print) {
        let kept = self.kept();
        let _ = println!(rt; "{kept:>11}");
        for interval in self.intervals.iter().take(kept) {
            write_line(rt, interval);
        }
    }
}

// ---- a session

// Writes a line of numbers, each right-justified in eleven columns.
fn write_line(rt: &impl Print, numbers: &[u32]) {
    for x in numbers {
        let _ = print!(rt; "{x:>11}");
    }
    let _ = println!(rt);
}

// Writes what a session of so many calls answered.
fn write_session(rt: &impl Print, answer: SessionAnswer, count: u32, written: &Written) {
    write_line(rt, &[answer.number, answer.inserted, answer.removed]);
    let accepted = answer.number == ACCEPTED;
    if accepted {
        written.write_answers(rt, count);
        written.write_intervals(rt);
    }
    let is_right = if accepted {
        written.is_clean(count)
    } else {
        written.is_left()
    };
    if !is_right {
        let _ = println!(rt; "wrong");
    }
}

// Replays the session that the next numbers say.
fn replay_session(rt: &impl Print, numbers: &mut Numbers<'_>) {
    let given = Given::read(numbers);
    let mut written = Written::filled();
    let answer = given.run(&mut written);
    write_session(rt, answer, given.count, &written);
}

// Replays the sessions of a text; a text that ends early has fewer than it says.
fn replay_sessions(rt: &impl Print, text: &[u8]) {
    let mut numbers = Numbers::new(text);
    for _ in 0..numbers.number() {
        if numbers.is_at_end() {
            return;
        }
        replay_session(rt, &mut numbers);
    }
}

// Zeros, of which a proof sees the number alone.
fn input_buffer() -> [u8; INPUT_PLACES]
    ensures { 1048577 ≡ length result }
{
    [0; INPUT_PLACES]
}

fn main(rt: HostRuntime) -> io::Result<()> {
    let mut input = input_buffer();
    let mut places: &mut [u8] = &mut input;
    let read = io::copy(&mut rt.reader().take(INPUT_PLACES as u64), &mut places)?;
    if read > MAX_BYTES as u64 {
        let _ = println!(rt; "the input is longer than its buffer");
        return Ok(());
    }
    replay_sessions(&rt, &input[..read as usize]);
    Ok(())
}
