// A lent rectangle, 24 rows of 24: its rows, and its judgement but for the inequality.
#![tactic(auto)]

ghost use Rattle.std.specs.Prelude.{◌≡◌, ◌≤◌, ◌<◌};
ghost use Rattle.definitions.specs.Limits.{max_side, row_places};
ghost use Rattle.definitions.specs.Causes.{verdict};
ghost use Rattle.definitions.specs.Entries.{rectangle_of, judge_sides};
ghost use Rattle.rectangles.specs.RectangleRows.{grid_row, grid};
ghost use Rattle.rectangles.specs.RectangleJudgement.{row_fits, lengths_fit, judge_lengths};

use bounds::{Network, Session};
use definitions::Cause;

// ---- the rows

// An entry of the lent lengths; 0 past their end.
#[tactic(auto, unfolding(definitions::specs::Entries::rectangle_of))]
fn entry_at(lengths: &[u32], i: u32, k: usize) -> u32
    requires { k < row_places }
    ensures { result ≡ rectangle_of lengths.now i k }
{
    let place = Network::ROW_PLACES * i as usize + k;
    lengths.get(place).copied().unwrap_or(0)
}

// Row i of the lent lengths; 0 past their end.
pub fn row_at(lengths: &[u32], i: u32) -> [u32; Network::ROW_PLACES]
    ensures { result ≡ grid_row lengths.now i }
{
    let mut row = [0u32; Network::ROW_PLACES];
    for (k, entry) in row.iter_mut().enumerate() {
        *entry = entry_at(lengths, i, k);
    }
    row
}

// The lent lengths as rows.
pub fn load(lengths: &[u32]) -> [[u32; Network::ROW_PLACES]; Session::SIDE_PLACES]
    ensures { result ≡ grid lengths.now }
{
    let mut rows = [[0u32; Network::ROW_PLACES]; Session::SIDE_PLACES];
    for (i, row) in rows.iter_mut().enumerate() {
        *row = row_at(lengths, i as u32);
    }
    rows
}

// ---- the judgement

// The rows and the columns, else 4.
#[tactic(auto, unfolding(definitions::specs::Entries::judge_sides))]
pub fn judge_sides(rows: u32, cols: u32) -> Result<(), Cause>
    ensures { verdict result ≡ judge_sides rows cols }
{
    judgements::require(
        judgements::is_within(Session::MAX_SIDE, rows)
            && judgements::is_within(Session::MAX_SIDE, cols),
        Cause::Bounds,
    )
}

// Whether a table may hold the used lengths of row i. With `(0..cols).all(..)`, here and in `lengths_fit`, the proof of the answer yes does not close.
fn row_fits(lengths: &[u32], i: usize, cols: usize) -> bool
    requires { (i < max_side) × (cols ≤ row_places) }
    ensures { result ≡ row_fits lengths.now cols i }
{
    for k in 0..cols {
        if !judgements::is_length(entry_at(lengths, i as u32, k)) {
            return false;
        }
    }
    true
}

// Whether a table may hold all used lengths.
fn lengths_fit(lengths: &[u32], rows: usize, cols: usize) -> bool
    requires { (rows ≤ max_side) × (cols ≤ row_places) }
    ensures { result ≡ lengths_fit lengths.now rows cols }
{
    for i in 0..rows {
        if !row_fits(lengths, i, cols) {
            return false;
        }
    }
    true
}

// The rows and the columns, else 4; the used lengths, else 6. Unused places are not read.
pub fn judge_lengths(rows: u32, cols: u32, lengths: &[u32]) -> Result<(), Cause>
    ensures { verdict result ≡ judge_lengths rows cols lengths.now }
{
    judge_sides(rows, cols)?;
    judgements::require(
        lengths_fit(lengths, rows as usize, cols as usize),
        Cause::Length,
    )
}
