// The entries for C and Rust, as one static library. Each promises what the entry that it calls promises. An enum does not cross to C: the field reader's value
// goes to a lent buffer, and what an index answers to a struct.
// C passes a network and a rectangle as they are, so the parameters stay flat here, and a refusal is its number.
#![tactic(auto)]

ghost use Rattle.std.specs.Prelude.{◌≡◌, List, ℕ};
ghost use Rattle.definitions.specs.Entries.{reading, label_network, route_network, session, write_field, write_listing, judge_lent, field_entry, build_index, ask_index};
ghost use Rattle.definitions.specs.Index.{Least, least_answer};
ghost use Rattle.definitions.specs.PlainPromises.{PlainSession, PlainLeast, PlainLabels, PlainRoute};

use definitions::{Cause, Code, LabelAnswer, LeastAnswer, ReadAnswer, RouteAnswer, SessionAnswer};
use judgements::LentNetwork;

// Six bytes at a place. The value goes to a buffer of one place: one of another size gets 1 and is left, and no field gets 3 and 0.
#[unsafe(no_mangle)]
pub extern "C" fn rabdzhine_read_field(text: &[u8], at: usize, value: &mut [u32]) -> u32
    ensures { record { number = result; value = value.new } ≡ field_entry text.now at value.old }
{
    if value.len() != 1 {
        return Cause::Buffer.number();
    }
    let Some(x) = fields::read_field(text, at) else {
        value[0] = 0;
        return Cause::Layout.number();
    };
    value[0] = x;
    0
}

#[unsafe(no_mangle)]
pub extern "C" fn rabdzhine_write_field(line: &mut [u8], place: usize, x: u32) -> u32
    ensures number { result ≡ (write_field line.old place x).number }
    ensures written { line.new ≡ (write_field line.old place x).line }
{
    Cause::number_in(fields::write_field(line, place, x))
}

#[unsafe(no_mangle)]
pub extern "C" fn rabdzhine_read_text(
    text: &[u8],
    sizes: &mut [u32],
    vertices: &mut [u32],
    lengths: &mut [u32],
) -> ReadAnswer
    ensures { record { answer = result; sizes = sizes.new; vertices = vertices.new; lengths = lengths.new } ≡ reading text.now sizes.old vertices.old lengths.old }
{
    text::read_text(text, sizes, vertices, lengths)
}

#[unsafe(no_mangle)]
pub extern "C" fn rabdzhine_check_network(
    n: u32,
    p: u32,
    sizes: &[u32],
    vertices: &[u32],
    lengths: &[u32],
) -> u32
    ensures { result ≡ judge_lent n p sizes.now vertices.now lengths.now }
{
    let network = LentNetwork {
        n,
        p,
        sizes,
        vertices,
        lengths,
    };
    Cause::number_in(judgements::judge_network(&network))
}

#[unsafe(no_mangle)]
pub extern "C" fn rabdzhine_run_session(
    rows: u32,
    cols: u32,
    count: u32,
    lengths: &[u32],
    calls: &[u32],
    answers: &mut [u32],
    intervals: &mut [u32],
) -> SessionAnswer
    ensures served { record { answer = result; answers = answers.new; intervals = intervals.new } ≡ session rows cols count lengths.now calls.now answers.old intervals.old }
    ensures plain { result.number ≡ 0 → PlainSession rows cols count lengths.now calls.now result answers.new intervals.new }
{
    engine::run_session(rows, cols, count, lengths, calls, answers, intervals)
}

#[unsafe(no_mangle)]
pub extern "C" fn rabdzhine_build_index(
    rows: u32,
    cols: u32,
    lengths: &[u32],
    index: &mut [u8],
) -> u32
    ensures { record { number = result; index = index.new } ≡ build_index rows cols lengths.now index.old }
{
    Cause::number_in(index::build_index(rows, cols, lengths, index))
}

#[unsafe(no_mangle)]
pub extern "C" fn rabdzhine_ask_index(
    rows: u32,
    cols: u32,
    lengths: &[u32],
    index: &[u8],
    row: u32,
    first: u32,
    end: u32,
) -> LeastAnswer
    ensures asked { result ≡ least_answer (ask_index rows cols lengths.now index.now row first end) }
    ensures plain { (before : List ℕ) → (build_index rows cols lengths.now before).number ≡ 0 → index.now ≡ (build_index rows cols lengths.now before).index → (l : Least) × (result ≡ least_answer l) × PlainLeast rows cols lengths.now row first end l }
{
    match index::ask_index(rows, cols, lengths, index, row, first, end) {
        Ok(Some(column)) => LeastAnswer { code: 0, column },
        Ok(None) => LeastAnswer {
            code: Code::Nothing.number(),
            column: 0,
        },
        Err(cause) => LeastAnswer {
            code: cause.number(),
            column: 0,
        },
    }
}

#[unsafe(no_mangle)]
pub extern "C" fn rabdzhine_label_network(
    n: u32,
    p: u32,
    sizes: &[u32],
    vertices: &[u32],
    lengths: &[u32],
    source: u32,
    labels: &mut [u32],
) -> LabelAnswer
    ensures labelled { record { answer = result; labels = labels.new } ≡ label_network n p sizes.now vertices.now lengths.now source labels.old }
    ensures plain { result.number ≡ 0 → PlainLabels n p sizes.now vertices.now lengths.now source result labels.new }
{
    let network = LentNetwork {
        n,
        p,
        sizes,
        vertices,
        lengths,
    };
    engine::label_network(&network, source, labels)
}

#[unsafe(no_mangle)]
pub extern "C" fn rabdzhine_route_network(
    n: u32,
    p: u32,
    sizes: &[u32],
    vertices: &[u32],
    lengths: &[u32],
    source: u32,
    target: u32,
    arcs: &mut [u32],
) -> RouteAnswer
    ensures routed { record { answer = result; arcs = arcs.new } ≡ route_network n p sizes.now vertices.now lengths.now source target arcs.old }
    ensures plain { result.number ≡ 0 → PlainRoute p sizes.now vertices.now lengths.now source target result arcs.new }
{
    let network = LentNetwork {
        n,
        p,
        sizes,
        vertices,
        lengths,
    };
    routes::route_network(&network, source, target, arcs)
}

#[unsafe(no_mangle)]
pub extern "C" fn rabdzhine_write_listing(text: &[u8], out: &mut [u8]) -> usize
    ensures { record { written = result; out = out.new } ≡ write_listing text.now out.old }
{
    answer::write_listing(text, out)
}
