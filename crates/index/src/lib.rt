// An index of the columns of a row: for each stretch of the row's halving the lowest column of least length. The least of any stretch of the row is then
// found by halves. It is built and asked for a lent rectangle, and for windows of an array of rows.
#![tactic(auto)]

ghost use Rattle.std.specs.Prelude.{◌≡◌, ℕ, ◌+◌, ◌≤◌, ◌<◌, length};
ghost use Rattle.definitions.specs.Limits.{row_places, index_row_places};
ghost use Rattle.definitions.specs.Best.{by, lesser};
ghost use Rattle.definitions.specs.Index.{held_in};
ghost use Rattle.index.specs.HeldRows.{lengths_in, filled_row, fill_rows, filled_index, least_column};
ghost use Rattle.index.specs.HeldLaws.{held_of, HalvesHeld, cut_row, cut_rows, RowsHalved};
ghost use Rattle.index.specs.RowQuestions.{column, asked};

mod entries;
mod stretch;

use bounds::Network;
pub use entries::{ask_index, build_index};
use stretch::Stretch;

// Of two columns the one of lesser length, the first if they are equal.
#[tactic(auto, unfolding(definitions::specs::Best::lesser))]
fn lesser_column(row: &[u32; Network::ROW_PLACES], l: usize, r: usize) -> usize
    requires { (l < row_places) × (r < row_places) }
    ensures least { by result (lengths_in row.now result) ≡ lesser (by l (lengths_in row.now l)) (by r (lengths_in row.now r)) }
    ensures inside { result < row_places }
{
    if row[r] < row[l] {
        return r;
    }
    l
}

// ---- the question

// The lengths of a row, and the numbers held for its stretches.
#[derive(Clone, Copy)]
struct Row<'a> {
    lengths: &'a [u32; Network::ROW_PLACES],
    held: &'a [u8; Network::INDEX_PLACES],
}

// These functions call themselves as their last act only, so that the compiler can make loops of them.
impl Row<'_> {
    // The column held for a stretch. A number that is no column of it counts as the first one.
    #[tactic(auto, unfolding(definitions::specs::Index::held_in, definitions::specs::Index::in_stretch))]
    fn held_column(self, at: usize, stretch: Stretch) -> usize
        requires { at + stretch.count ≤ row_places }
        ensures held { result ≡ held_in self.entry.held.now at stretch.start stretch.count }
        ensures inside { (stretch.start ≤ result) × (result < stretch.start + stretch.count) }
    {
        if stretch.count < 2 {
            return stretch.start;
        }
        let c = usize::from(self.held[at]);
        if stretch.start <= c && c < stretch.end() {
            c
        } else {
            stretch.start
        }
    }

    // The lesser of `best`, a column before the stretch, and of those up to `end`; `best` if they are equal. The promise is of a question from any column up to
    // the first. `find_from` mirrors it: the test, the half that is left and the order of the two columns all differ, so that one function would have to be given all three.
    fn find_until(self, at: usize, stretch: Stretch, end: usize, best: usize) -> usize
        requires placed { at + stretch.count ≤ row_places }
        requires some { (stretch.start < end) × (best < row_places) }
        ensures { (a : ℕ) → a ≤ stretch.start → column self.entry result ≡ lesser (column self.entry best) (asked self.entry a end at stretch) }
    {
        if stretch.end() <= end {
            return lesser_column(self.lengths, best, self.held_column(at, stretch));
        }
        let first = stretch.first_half();
        let second = stretch.second_half();
        if end <= second.start {
            return self.find_until(at + 1, first, end, best);
        }
        let c = self.held_column(at + 1, first);
        let next = lesser_column(self.lengths, best, c);
        self.find_until(at + first.count, second, end, next)
    }

    // The lesser of those from `begin` on and of `best`, a column behind the stretch; the former if they are equal. The promise is of a question up to any
    // end that is not before that of the stretch.
    fn find_from(self, at: usize, stretch: Stretch, begin: usize, best: usize) -> usize
        requires placed { at + stretch.count ≤ row_places }
        requires some { (begin < stretch.start + stretch.count) × (best < row_places) }
        ensures { (b : ℕ) → stretch.start + stretch.count ≤ b → column self.entry result ≡ lesser (asked self.entry begin b at stretch) (column self.entry best) }
    {
        if begin <= stretch.start {
            return lesser_column(self.lengths, self.held_column(at, stretch), best);
        }
        let first = stretch.first_half();
        let second = stretch.second_half();
        if second.start <= begin {
            return self.find_from(at + first.count, second, begin, best);
        }
        let c = self.held_column(at + first.count, second);
        let next = lesser_column(self.lengths, c, best);
        self.find_from(at + 1, first, begin, next)
    }

    // The least of those up to `end`.
    fn find_start(self, at: usize, stretch: Stretch, end: usize) -> usize
        requires placed { at + stretch.count ≤ row_places }
        requires some { stretch.start < end }
        ensures least { (a : ℕ) → a ≤ stretch.start → column self.entry result ≡ asked self.entry a end at stretch }
        ensures inside { (stretch.start ≤ result) × (result < stretch.start + stretch.count) }
    {
        if stretch.end() <= end {
            return self.held_column(at, stretch);
        }
        let first = stretch.first_half();
        let second = stretch.second_half();
        if end <= second.start {
            return self.find_start(at + 1, first, end);
        }
        self.find_until(
            at + first.count,
            second,
            end,
            self.held_column(at + 1, first),
        )
    }

    // The least of those from `begin` up to `end`. Where both halves are asked for, what the second gives goes along as the best behind the first.
    fn find(self, at: usize, stretch: Stretch, begin: usize, end: usize) -> usize
        requires placed { at + stretch.count ≤ row_places }
        requires some { (stretch.start < end) × (begin < stretch.start + stretch.count) × (begin < end) }
        ensures least { column self.entry result ≡ asked self.entry begin end at stretch }
        ensures inside { (stretch.start ≤ result) × (result < stretch.start + stretch.count) }
    {
        let behind = stretch.end();
        if begin <= stretch.start && behind <= end {
            return self.held_column(at, stretch);
        }
        let first = stretch.first_half();
        let second = stretch.second_half();
        if end <= second.start {
            return self.find(at + 1, first, begin, end);
        }
        if second.start <= begin {
            return self.find(at + first.count, second, begin, end);
        }
        let best = self.find_start(at + first.count, second, end);
        self.find_from(at + 1, first, begin, best)
    }
}

// The lowest column of least length from `first` up to `end`, of the `cols` columns from col0 on and counted from there. 0 where these leave the row, and for
// a stretch that is empty or leaves them.
// Plain numbers, since any are answered; a `Stretch` lies in its row.
pub fn least_column(
    row: &[u32; Network::ROW_PLACES],
    held: &[u8; Network::INDEX_PLACES],
    col0: usize,
    cols: usize,
    first: usize,
    end: usize,
) -> usize
    ensures { result ≡ least_column row.now held.now col0 cols first end }
{
    if cols > Network::ROW_PLACES || col0 > Network::ROW_PLACES - cols {
        return 0;
    }
    if first >= end || end > cols {
        return 0;
    }
    let row = Row { lengths: row, held };
    let stretch = Stretch {
        start: col0,
        count: cols,
    };
    if end - first == cols {
        return row.held_column(col0, stretch) - col0;
    }
    row.find(col0, stretch, col0 + first, col0 + end) - col0
}

// ---- building
// A stretch of all rows is built before the next one, so that its halves are worked out once for all rows.

// At most three columns, of one row: one place for two columns, two for three.
fn fill_small(
    held: &mut [u8; Network::INDEX_PLACES],
    row: &[u32; Network::ROW_PLACES],
    at: usize,
    stretch: Stretch,
)
    requires { (stretch.count < 4) × (at + stretch.count ≤ row_places) }
    ensures { held.new ≡ filled_row held.old row.now at stretch.start stretch.count }
{
    let start = stretch.start;
    if stretch.count == 3 {
        let x = lesser_column(row, start + 1, start + 2);
        held[at + 1] = x as u8;
        held[at] = lesser_column(row, start, x) as u8;
    } else if stretch.count == 2 {
        held[at] = lesser_column(row, start, start + 1) as u8;
    }
}

// The column held for one of the halves, where that is built.
#[tactic(auto, unfolding(crate::specs::HeldLaws::held_of))]
// Without the test of `held_column`: what was just built is a column of its half.
fn held_of(held: &[u8; Network::INDEX_PLACES], at: usize, stretch: Stretch) -> usize
    requires { at + stretch.count ≤ row_places }
    ensures { result ≡ held_of held.now at stretch.start stretch.count }
{
    if stretch.count < 2 {
        return stretch.start;
    }
    usize::from(held[at])
}

// The lesser of the columns held for the two halves, of one row.
fn fill_cut(
    held: &mut [u8; Network::INDEX_PLACES],
    row: &[u32; Network::ROW_PLACES],
    at: usize,
    stretch: Stretch,
)
    requires sized { (2 ≤ stretch.count) × (at + stretch.count ≤ row_places) }
    requires halves { HalvesHeld held.old row.now at stretch.start stretch.count }
    ensures { held.new ≡ cut_row at stretch.start stretch.count held.old row.now }
{
    let first = stretch.first_half();
    let l = held_of(held, at + 1, first);
    let r = held_of(held, at + first.count, stretch.second_half());
    held[at] = lesser_column(row, l, r) as u8;
}

// At most three columns, of each row.
// In the functions of a stretch of all rows the index and the rows stay two parameters, since one of them is written.
fn small_rows(
    index: &mut [[u8; Network::INDEX_PLACES]],
    rows: &[[u32; Network::ROW_PLACES]],
    at: usize,
    stretch: Stretch,
)
    requires { (stretch.count < 4) × (at + stretch.count ≤ row_places) × (length index.old ≡ length rows.now) }
    ensures { index.new ≡ fill_rows index.old rows.now at stretch.start stretch.count }
{
    for (r, row) in rows.iter().enumerate() {
        fill_small(&mut index[r], row, at, stretch);
    }
}

// The lesser of the two halves, of each row. One function over a closure that fills a row would have to be told what the closure does, and the loop is no longer than that.
fn cut_rows(
    index: &mut [[u8; Network::INDEX_PLACES]],
    rows: &[[u32; Network::ROW_PLACES]],
    at: usize,
    stretch: Stretch,
)
    requires sized { (2 ≤ stretch.count) × (at + stretch.count ≤ row_places) × (length index.old ≡ length rows.now) }
    requires halves { RowsHalved index.old rows.now at stretch.start stretch.count }
    ensures { index.new ≡ cut_rows index.old rows.now at stretch.start stretch.count }
{
    for (r, row) in rows.iter().enumerate() {
        fill_cut(&mut index[r], row, at, stretch);
    }
}

// The index of a stretch, of each row: both halves, then what the whole holds.
fn build_stretch(
    index: &mut [[u8; Network::INDEX_PLACES]],
    rows: &[[u32; Network::ROW_PLACES]],
    at: usize,
    stretch: Stretch,
)
    requires { (at + stretch.count ≤ row_places) × (length index.old ≡ length rows.now) }
    ensures { index.new ≡ fill_rows index.old rows.now at stretch.start stretch.count }
{
    if stretch.count < 4 {
        small_rows(index, rows, at, stretch);
        return;
    }
    let first = stretch.first_half();
    build_stretch(index, rows, at + 1, first);
    build_stretch(index, rows, at + first.count, stretch.second_half());
    cut_rows(index, rows, at, stretch);
}

// The index of the `cols` columns from col0 on, of each row; the rest of the index stays. One of another number of rows, and columns that leave the row,
// leave it as it is.
pub fn fill_index(
    index: &mut [[u8; Network::INDEX_PLACES]],
    rows: &[[u32; Network::ROW_PLACES]],
    col0: usize,
    cols: usize,
)
    ensures { index.new ≡ filled_index index.old rows.now col0 cols }
{
    if index.len() != rows.len() || cols == 0 || cols > Network::ROW_PLACES {
        return;
    }
    if col0 > Network::ROW_PLACES - cols {
        return;
    }
    let stretch = Stretch {
        start: col0,
        count: cols,
    };
    build_stretch(index, rows, col0, stretch);
}
