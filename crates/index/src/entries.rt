// The index of a lent rectangle: built into a lent buffer, and asked there. Document 02, request 5.
ghost use Rattle.std.specs.Prelude.{◌≡◌, List, ℕ, ◌≤◌, ◌<◌, length};
ghost use Rattle.definitions.specs.Limits.{max_side, row_places, index_places};
ghost use Rattle.definitions.specs.Causes.{verdict};
ghost use Rattle.definitions.specs.Index.{index_of, least_of};
ghost use Rattle.definitions.specs.Entries.{judge_index_buffers, build_index, judge_question, ask_index};
ghost use Rattle.definitions.specs.PlainPromises.{PlainLeast};
ghost use Rattle.monge.specs.Matrix.{at};
ghost use Rattle.index.specs.IndexRows.{stored_rows, held_row};

use crate::stretch::Stretch;
use crate::{Row, fill_index};
use bounds::{Network, Session};
use definitions::Cause;

// The sizes of the lent buffers.
#[tactic(auto, unfolding(definitions::specs::Entries::judge_index_buffers, definitions::specs::Entries::has_places))]
fn judge_buffers(lengths: &[u32], index: &[u8]) -> Result<(), Cause>
    ensures { verdict result ≡ judge_index_buffers lengths.now index.now }
{
    if lengths.len() == Session::RECTANGLE_PLACES && index.len() == Session::INDEX_PLACES {
        Ok(())
    } else {
        Err(Cause::Buffer)
    }
}

// ---- building

// The index of the first `rows` rows, one behind the other; unused places are 0.
fn store_rows(held: &[[u8; Network::INDEX_PLACES]], rows: usize, index: &mut [u8])
    requires { (rows ≤ max_side) × (length held.now ≡ max_side) × (length index.old ≡ index_places) }
    ensures { index.new ≡ stored_rows held.now rows }
{
    index.fill(0);
    for (i, row) in held[..rows].iter().enumerate() {
        let at = Network::INDEX_PLACES * i;
        index[at..at + Network::INDEX_PLACES].copy_from_slice(row);
    }
}

// The index of `rows` rows and `cols` columns.
fn write_index(rectangle: &[[u32; Network::ROW_PLACES]], rows: usize, cols: usize, index: &mut [u8])
    requires { (rows ≤ max_side) × (1 ≤ cols) × (cols ≤ row_places) × (length rectangle.now ≡ max_side) × (length index.old ≡ index_places) }
    ensures { index.new ≡ index_of (at rectangle.now) rows cols }
{
    let mut held = [[0u8; Network::INDEX_PLACES]; Session::SIDE_PLACES];
    fill_index(&mut held, rectangle, 0, cols);
    store_rows(&held, rows, index);
}

// The index of a rectangle that is judged as a session judges it. A refusal leaves the buffer.
pub fn build_index(rows: u32, cols: u32, lengths: &[u32], index: &mut [u8]) -> Result<(), Cause>
    ensures { record { number = verdict result; index = index.new } ≡ build_index rows cols lengths.now index.old }
{
    judge_buffers(lengths, index)?;
    rectangles::judge_lengths(rows, cols, lengths)?;
    let height = rows as usize;
    let width = cols as usize;
    if !monge::is_monge(lengths, height, width) {
        return Err(Cause::Block);
    }
    let rectangle = rectangles::load(lengths);
    write_index(&rectangle, height, width, index);
    Ok(())
}

// ---- asking

// The buffers, then the rows and the columns. The rest was judged when the index was built.
fn judge_question(rows: u32, cols: u32, lengths: &[u32], index: &[u8]) -> Result<(), Cause>
    ensures { verdict result ≡ judge_question rows cols lengths.now index.now }
{
    judge_buffers(lengths, index)?;
    rectangles::judge_sides(rows, cols)
}

// The index of row i.
fn index_row(index: &[u8], i: usize) -> &[u8; Network::INDEX_PLACES]
    requires { (i < max_side) × (length index.now ≡ index_places) }
    ensures { result.now ≡ held_row index.now i }
{
    index[Network::INDEX_PLACES * i..].first_chunk().unwrap()
}

// The lowest column of least length of a row from `first` up to `end`, asked of the index. A row that is not there, a stretch that is empty and one
// that leaves the row get none.
// C hands these seven over as they are.
pub fn ask_index(
    rows: u32,
    cols: u32,
    lengths: &[u32],
    index: &[u8],
    row: u32,
    first: u32,
    end: u32,
) -> Result<Option<u32>, Cause>
    ensures asked { least_of result ≡ ask_index rows cols lengths.now index.now row first end }
    ensures plain { (before : List ℕ) → (build_index rows cols lengths.now before).number ≡ 0 → index.now ≡ (build_index rows cols lengths.now before).index → PlainLeast rows cols lengths.now row first end (least_of result) }
{
    judge_question(rows, cols, lengths, index)?;
    if row >= rows || first >= end || end > cols {
        return Ok(None);
    }
    let line = rectangles::row_at(lengths, row);
    let held = index_row(index, row as usize);
    let stretch = Stretch {
        start: 0,
        count: cols as usize,
    };
    let c = Row {
        lengths: &line,
        held,
    }
    .find(0, stretch, first as usize, end as usize);
    Ok(Some(c as u32))
}
