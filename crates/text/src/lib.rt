// The text reader: text of at most 60,000 bytes into the lent sizes, vertices and lengths.
#![tactic(auto)]

mod field_reader;

ghost use Rattle.std.specs.Prelude.{◌≡◌, [], ◌∷◌, ◌+◌, ◌<◌, ◌≤◌, length, replicate, slice_get};
ghost use Rattle.definitions.specs.Limits.{max_size, size_places, table_places};
ghost use Rattle.definitions.specs.Lists.{first_cause};
ghost use Rattle.definitions.specs.Judgement.{judge_size, judge_vertices, judge_row, judge_source};
ghost use Rattle.definitions.specs.Fields.{field_bytes, six_at, field_at, length_at};
ghost use Rattle.definitions.specs.Reading.{line_bytes, read_field, read_fields, judge_line_end, read_line, read_rows, read_pieces, target_in, question_size, judge_asked, read_question, read_body, read_plan};
ghost use Rattle.definitions.specs.Causes.{verdict};
ghost use Rattle.definitions.specs.Entries.{reading};
ghost use Rattle.text.specs.Outcomes.{Came, RowsLeft};
ghost use Rattle.text.specs.ReadSteps.{judged, read_sized};
ghost use Rattle.text.specs.PieceReading.{Held, Room, Free, TableRead, SizedLeft, ReadPieceLeaves, PiecesLeft};
ghost use Rattle.text.specs.QuestionReading.{asked, Asks, read_question_line};
ghost use Rattle.text.specs.Plans.{PlanLeft, answer_of, Cleared, After};

use bounds::{Network, Text};
use buffers::fill;
use definitions::{Cause, ReadAnswer};
use field_reader::{FieldReading, Lengths, Numbers};

// The fields of a line from `at` on, as many as `out` has places; 3 if one is not a field.
// Each contract asks that the place lies in the text, so that none further on wraps; a `Reader` takes any place, so it is no invariant of one.
// The place goes along and is not worked out from the number of the field: worked out, it lay in memory and was loaded for each byte, and a text took a fifth longer to read.
fn read_fields<F: FieldReading>(text: &[u8], at: usize, out: &mut [u32]) -> Result<(), Cause>
    requires { at ≤ length text.now }
    ensures { Came (read_fields (six_at F.says) text.now at (length out.old)) result (λ _ xs. out.new ≡ xs) }
{
    let mut place = at;
    for x in out.iter_mut() {
        *x = F::read(text, place)?;
        place += Text::FIELD_BYTES;
    }
    Ok(())
}

// The byte 10 at a line's end; past the text's end there is none.
#[tactic(auto, using(crate::specs::ReadSteps::end_there, crate::specs::ReadSteps::end_other, crate::specs::ReadSteps::end_past))]
fn judge_line_end(text: &[u8], at: usize) -> Result<(), Cause>
    ensures { verdict result ≡ judge_line_end text.now at }
{
    match text.get(at) {
        Some(b'\n') => Ok(()),
        _ => Err(Cause::Layout),
    }
}

// A line's layout: its fields, then one byte 10.
fn read_line<F: FieldReading>(text: &[u8], at: usize, out: &mut [u32]) -> Result<(), Cause>
    requires { at ≤ length text.now }
    ensures { Came (read_line (six_at F.says) text.now at (length out.old)) result (λ _ xs. out.new ≡ xs) }
{
    let k = out.len();
    read_fields::<F>(text, at, out)?;
    judge_line_end(text, at + Text::FIELD_BYTES * k)
}

// A line of vertices, then their judgement. `read_row` differs in the reading and the judgement alone; one function for both would say more than these two lines.
fn read_vertices(text: &[u8], at: usize, n: u32, out: &mut [u32]) -> Result<(), Cause>
    requires { at ≤ length text.now }
    ensures { Came (judged (judge_vertices n) (read_line field_at text.now at (length out.old))) result (λ _ xs. out.new ≡ xs) }
{
    read_line::<Numbers>(text, at, out)?;
    judgements::judge_vertices(n, out)
}

// Row i of a table, then its judgement.
fn read_row(text: &[u8], at: usize, i: usize, out: &mut [u32]) -> Result<(), Cause>
    requires { at ≤ length text.now }
    ensures { Came (judged (judge_row i) (read_line length_at text.now at (length out.old))) result (λ _ xs. out.new ≡ xs) }
{
    read_line::<Lengths>(text, at, out)?;
    judgements::judge_row(i, out)
}

// A piece's size, judged before the rest of its line is looked at.
fn read_size(text: &[u8], at: usize) -> Result<u32, Cause>
    ensures { Came (judged judge_size (read_field field_at text.now at)) result (λ m x. m ≡ x) }
{
    let m = Numbers::read(text, at)?;
    judgements::judge_size(m)?;
    Ok(m)
}

// The rows of a table, each judged as it is read, into the places of one table, which are 0.
fn read_rows(text: &[u8], at: usize, m: usize, table: &mut [u32]) -> Result<(), Cause>
    requires { (at ≤ length text.now) × (m ≤ max_size) × (table.old ≡ replicate table_places 0) }
    ensures { Came (read_rows text.now at m 0 m) result (λ _. RowsLeft text.now at m table.new) }
{
    let mut place = at;
    for i in 0..m {
        let a = Network::ROW_PLACES * i;
        read_row(text, place, i, &mut table[a..a + m])?;
        place += Text::FIELD_BYTES * m + 1;
    }
    Ok(())
}

// A table's rows, then the check of its blocks.
fn read_table(text: &[u8], at: usize, m: usize, table: &mut [u32]) -> Result<(), Cause>
    requires { (at ≤ length text.now) × (1 ≤ m) × (m ≤ max_size) × (table.old ≡ replicate table_places 0) }
    ensures { TableRead text.now at m result table.new }
{
    read_rows(text, at, m, table)?;
    judgements::judge_blocks(m as u32, table)
}

// The rest of a piece, behind its size: its vertices, then its table, into their places. It has as many vertices as are lent.
fn read_sized(
    text: &[u8],
    at: usize,
    n: u32,
    vertices: &mut [u32],
    table: &mut [u32],
) -> Result<(), Cause>
    requires { (at + field_bytes ≤ length text.now) × (1 ≤ length vertices.old) × (length vertices.old ≤ max_size) × (table.old ≡ replicate table_places 0) }
    ensures { Came (read_sized text.now n at (length vertices.old)) result (λ _. SizedLeft text.now at vertices.new table.new) }
{
    let m = vertices.len();
    read_vertices(text, at + Text::FIELD_BYTES, n, vertices)?;
    read_table(text, at + Text::FIELD_BYTES * (m + 1) + 1, m, table)
}

// Piece d, behind those that the buffers hold already; where the next line begins. The three buffers stay three parameters: for a struct of three `&mut`
// each contract would have to say of each that it is the same one after the call.
fn read_piece(
    text: &[u8],
    at: usize,
    n: u32,
    d: usize,
    sizes: &mut [u32],
    vertices: &mut [u32],
    lengths: &mut [u32],
) -> Result<usize, Cause>
    requires { (at ≤ length text.now) × (d < size_places) × Room d sizes.old vertices.old lengths.old }
    ensures { ReadPieceLeaves text.now n at d sizes.old vertices.old lengths.old result sizes.new vertices.new lengths.new }
{
    let size = read_size(text, at)?;
    let m = size as usize;
    let a = Network::ROW_PLACES * d;
    let b = Network::TABLE_PLACES * d;
    let table = &mut lengths[b..b + Network::TABLE_PLACES];
    read_sized(text, at, n, &mut vertices[a..a + m], table)?;
    sizes[d] = size;
    let rows = at + Text::FIELD_BYTES * (m + 1) + 1;
    Ok(rows + m * (Text::FIELD_BYTES * m + 1))
}

// All pieces, one after the other, into buffers that are 0; where the next line begins.
// The three buffers are three parameters, as in `read_piece`.
fn read_pieces(
    text: &[u8],
    at: usize,
    n: u32,
    p: usize,
    sizes: &mut [u32],
    vertices: &mut [u32],
    lengths: &mut [u32],
) -> Result<usize, Cause>
    requires { (at ≤ length text.now) × (p ≤ size_places) × Held [] sizes.old vertices.old lengths.old }
    ensures { Came (read_pieces text.now n at p) result (λ next. PiecesLeft text.now at p next sizes.new vertices.new lengths.new) }
{
    let mut place = at;
    for d in 0..p {
        place = read_piece(text, place, n, d, sizes, vertices, lengths)?;
    }
    Ok(place)
}

// What a question line asks for: from a source the labels of all vertices, or the route to a target.
#[derive(Clone, Copy)]
struct Question {
    source: u32,
    target: Option<u32>,
}

// How many fields a question line has: one where byte 10 follows the first, else two. Past the text's end there is no byte 10.
#[tactic(auto, using(crate::specs::QuestionReading::size_one, crate::specs::QuestionReading::size_two, crate::specs::QuestionReading::size_short))]
fn question_size(text: &[u8], at: usize) -> usize
    requires { at ≤ length text.now }
    ensures size { result ≡ question_size text.now at }
    ensures few { (1 ≤ result) × (result ≤ 2) }
{
    if text.len() - at <= Text::FIELD_BYTES {
        return 2;
    }
    if text[at + Text::FIELD_BYTES] == b'\n' {
        return 1;
    }
    2
}

// The target that the fields of a question line say.
fn target_in(fields: &[u32]) -> Option<u32>
    ensures { result ≡ slice_get fields.now 1 }
{
    fields.get(1).copied()
}

// The target if there is one, else 12.
#[tactic(auto, using(crate::specs::QuestionReading::asked_none, crate::specs::QuestionReading::asked_some))]
fn judge_asked(n: u32, target: Option<u32>) -> Result<(), Cause>
    ensures { verdict result ≡ judge_asked n (asked target) }
{
    match target {
        Some(target) => judgements::judge_target(n, target),
        None => Ok(()),
    }
}

// The source, then the target: where both are wrong the first counts.
#[tactic(auto, using(crate::specs::QuestionReading::first_counts, crate::specs::QuestionReading::second_counts))]
fn judge_question(n: u32, question: Question) -> Result<(), Cause>
    ensures { verdict result ≡ first_cause (judge_source n question.source ∷ judge_asked n (asked question.target) ∷ []) }
{
    judgements::judge_source(n, question.source)?;
    judge_asked(n, question.target)
}

// A question line of one field or two, as `fields` has places: its layout, its judgement, and then the text's end.
fn read_question_line(text: &[u8], at: usize, n: u32, fields: &mut [u32]) -> Result<Question, Cause>
    requires { (at ≤ length text.now) × (1 ≤ length fields.old) × (length fields.old ≤ 2) }
    ensures { Came (read_question_line text.now n at (length fields.old)) result Asks }
{
    read_line::<Numbers>(text, at, fields)?;
    let question = Question {
        source: fields[0],
        target: target_in(fields),
    };
    judge_question(n, question)?;
    if text.len() - at != Text::FIELD_BYTES * fields.len() + 1 {
        return Err(Cause::Layout);
    }
    Ok(question)
}

// The question line, of as many fields as it has.
fn read_question(text: &[u8], at: usize, n: u32) -> Result<Question, Cause>
    requires { at ≤ length text.now }
    ensures { Came (read_question text.now n at) result Asks }
{
    let mut line = [0u32; 2];
    let k = question_size(text, at);
    read_question_line(text, at, n, &mut line[..k])
}

// What a text says, but for the pieces, which the buffers hold.
#[derive(Clone, Copy)]
struct Plan {
    n: u32,
    p: u32,
    question: Question,
}

// What follows the line of n and p, into buffers that are 0.
// The three buffers are three parameters, as in `read_piece`.
fn read_body(
    text: &[u8],
    n: u32,
    p: u32,
    sizes: &mut [u32],
    vertices: &mut [u32],
    lengths: &mut [u32],
) -> Result<Plan, Cause>
    requires { (line_bytes 2 ≤ length text.now) × Held [] sizes.old vertices.old lengths.old }
    ensures { Came (read_body text.now n p) result (PlanLeft sizes.new vertices.new lengths.new) }
{
    judgements::judge_bounds(n, p)?;
    let next = read_pieces(
        text,
        Text::LINE_OF_TWO,
        n,
        p as usize,
        sizes,
        vertices,
        lengths,
    )?;
    let question = read_question(text, next, n)?;
    Ok(Plan { n, p, question })
}

// The text from front to back, into buffers that are 0.
fn read_plan(
    text: &[u8],
    sizes: &mut [u32],
    vertices: &mut [u32],
    lengths: &mut [u32],
) -> Result<Plan, Cause>
    requires { Held [] sizes.old vertices.old lengths.old }
    ensures { Came (read_plan text.now) result (PlanLeft sizes.new vertices.new lengths.new) }
{
    let mut line = [0u32; 2];
    read_line::<Numbers>(text, 0, &mut line)?;
    read_body(text, line[0], line[1], sizes, vertices, lengths)
}

// The answer as C takes it: the plan, or the cause's number and no network.
fn answer_of(read: Result<Plan, Cause>) -> ReadAnswer
    ensures { result ≡ answer_of read }
{
    match read {
        Ok(plan) => ReadAnswer {
            number: 0,
            n: plan.n,
            p: plan.p,
            source: plan.question.source,
            target: plan.question.target.unwrap_or(Network::NO_TARGET),
        },
        Err(cause) => ReadAnswer {
            number: cause.number(),
            n: 0,
            p: 0,
            source: 0,
            target: 0,
        },
    }
}

// Sets every place of the three buffers to 0.
fn clear(sizes: &mut [u32], vertices: &mut [u32], lengths: &mut [u32])
    ensures { Cleared sizes.old vertices.old lengths.old sizes.new vertices.new lengths.new }
{
    fill(sizes, 0);
    fill(vertices, 0);
    fill(lengths, 0);
}

// The buffers, the length of the text, the text. The first two causes leave the buffers; any other leaves them all 0.
#[tactic(auto, using(crate::specs::Plans::after_buffers, crate::specs::Plans::after_long))]
fn read_lent(
    text: &[u8],
    sizes: &mut [u32],
    vertices: &mut [u32],
    lengths: &mut [u32],
) -> Result<Plan, Cause>
    ensures { After (answer_of result) sizes.new vertices.new lengths.new ≡ reading text.now sizes.old vertices.old lengths.old }
{
    judgements::judge_buffers(sizes.len(), vertices.len(), lengths.len())?;
    if text.len() > Text::MAX_BYTES {
        return Err(Cause::Text);
    }
    clear(sizes, vertices, lengths);
    let plan = read_plan(text, sizes, vertices, lengths);
    if plan.is_err() {
        clear(sizes, vertices, lengths);
    }
    plan
}

// Reads a text into the lent sizes, vertices and lengths. A buffer of another size (1) or a text that is too long (2) leaves them; any
// other refusal leaves them all 0.
pub fn read_text(
    text: &[u8],
    sizes: &mut [u32],
    vertices: &mut [u32],
    lengths: &mut [u32],
) -> ReadAnswer
    ensures { record { answer = result; sizes = sizes.new; vertices = vertices.new; lengths = lengths.new } ≡ reading text.now sizes.old vertices.old lengths.old }
{
    answer_of(read_lent(text, sizes, vertices, lengths))
}
