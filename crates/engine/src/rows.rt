// The rows of a block: where they have a path, the sums of columns through them, and the lowest column of least length of a stretch.
ghost use Rattle.std.specs.Prelude.{◌≡◌, true, false, List, ℕ, ◌+◌, ◌≤◌, ◌<◌, length};
ghost use Rattle.definitions.specs.Limits.{row_places};
ghost use Rattle.definitions.specs.Metres.{IsNumber};
ghost use Rattle.definitions.specs.Index.{IsLeast};
ghost use Rattle.definitions.specs.HeldModel.{lent_entry};
ghost use Rattle.engine.specs.Heap.WordLaws.{word_end};
ghost use Rattle.engine.specs.Heap.RowBest.{sum_at, HasIndex};
ghost use Rattle.engine.specs.Heap.RowRuns.{has_path, TurnsAt, row_runs};
ghost use Rattle.engine.specs.Heap.Search.{IsBelowNeeds, is_below};

use crate::finding::first_in;
use bounds::Network;

// What a heap reads of its block: the rows, with the index of so many of their columns from col0 on, and the label of each row.
#[derive(Clone, Copy)]
pub(crate) struct Block<'a> {
    pub(crate) rows: &'a [[u32; Network::ROW_PLACES]],
    pub(crate) index: &'a [[u8; Network::INDEX_PLACES]],
    pub(crate) col0: usize,
    pub(crate) cols: usize,
    pub(crate) labels: &'a [u32],
    ghost indexed: { HasIndex index.now rows.now col0 cols },
}

// A row and a column are plain numbers: a type for either would be made at each call.
impl Block<'_> {
    // ---- paths

    // Whether a row has a path at a column.
    pub(crate) fn has_path(&self, row: usize, column: usize) -> bool
        requires { let b = self.now in (row < length b.rows.now) × (column < b.cols) }
        ensures { let b = self.now in result ≡ has_path b.rows.now b.col0 row column }
    {
        self.rows[row][self.col0 + column] != Network::NO_PATH
    }

    // The first column from `from` up to `end` at which the row has a path, or has none, as is wanted; `end` if there is none.
    pub(crate) fn path_turn(&self, row: usize, want: bool, from: usize, end: usize) -> usize
        requires { let b = self.now in (row < length b.rows.now) × (from ≤ end) × (end ≤ b.cols) }
        ensures { let b = self.now in TurnsAt b.rows.now b.col0 row want from end result }
    {
        first_in(|c| self.has_path(row, c) == want, from, end)
    }

    // How many intervals the columns of a row from `first` up to `end` are: the runs of neighbouring ones at which it has a path. It has one at the first.
    pub(crate) fn count_runs(&self, row: usize, first: usize, end: usize) -> usize
        requires { let b = self.now in (row < length b.rows.now) × (first < end) × (end ≤ b.cols) × (has_path b.rows.now b.col0 row first ≡ true) }
        ensures { let b = self.now in (labels : List ℕ) → result ≡ length (row_runs b.rows.now b.col0 labels row first end) }
    {
        let mut n = 0;
        let mut c = first;
        while c < end {
            let stop = self.path_turn(row, false, c, end);
            c = self.path_turn(row, true, stop, end);
            n += 1;
        }
        n
    }

    // ---- sums

    // The sum of a column through a row.
    pub(crate) fn sum_at(&self, row: usize, column: usize) -> u32
        requires { let b = self.now in (row < length b.rows.now) × (row < length b.labels.now) × (b.col0 + column < row_places) × (sum_at b.rows.now b.col0 b.labels.now row column < word_end) }
        ensures { let b = self.now in result ≡ sum_at b.rows.now b.col0 b.labels.now row column }
    {
        self.labels[row] + self.rows[row][self.col0 + column]
    }

    // Whether row r has a path at a column and a strictly smaller sum there than row q, which has one. Row r's sum is taken in 64 bits: with no path it is not
    // below any sum of 32 bits.
    pub(crate) fn is_below(&self, r: usize, q: usize, column: usize) -> bool
        requires { let b = self.now in IsBelowNeeds b.rows.now b.col0 b.labels.now r q column }
        ensures { let b = self.now in result ≡ is_below b.rows.now b.col0 b.labels.now r q column }
    {
        let mine = self.labels[r] as u64 + self.rows[r][self.col0 + column] as u64;
        mine < self.sum_at(q, column) as u64
    }

    // ---- the least length

    // Of two neighbouring columns of a row the one of lesser length, the first if they are equal.
    fn lesser_of_two(&self, row: usize, first: usize) -> usize
        requires { let b = self.now in (row < length b.rows.now) × (first + 2 ≤ b.cols) }
        ensures { let b = self.now in IsLeast (lent_entry b.rows.now b.col0 row) first (first + 2) result }
    {
        let next = first + 1;
        if self.rows[row][self.col0 + next] < self.rows[row][self.col0 + first] {
            return next;
        }
        first
    }

    // The lowest column of least length of a row, of those from `first` up to `end`, asked of the row's index. The index holds no single column: a stretch of two
    // is the lesser of its two columns, and to ask would take longer than to compare them. The row has a path at every column of the stretch: no best is asked
    // of one that is all no path.
    pub(crate) fn best_in(&self, row: usize, first: usize, end: usize) -> usize
        requires reads { let b = self.now in (row < length b.rows.now) × (first < end) × (end ≤ b.cols) }
        requires paths { let b = self.now in (c : ℕ) → first ≤ c → c < end → IsNumber (lent_entry b.rows.now b.col0 row c) }
        ensures { let b = self.now in IsLeast (lent_entry b.rows.now b.col0 row) first end result }
    {
        if end - first < 2 {
            return first;
        }
        if end - first == 2 {
            return self.lesser_of_two(row, first);
        }
        index::least_column(
            &self.rows[row],
            &self.index[row],
            self.col0,
            self.cols,
            first,
            end,
        )
    }
}
