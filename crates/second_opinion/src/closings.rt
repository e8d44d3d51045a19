// Closed tracks. A block that passes its check still passes it with no path in whole rows and whole columns, and in all but a stretch of each other row, if
// neither end of the stretches falls from a row to the next. All arcs of a block lead to later places of the piece, or all to earlier ones; the
// columns run against the rows, so that the places j with i + j from a least sum to a largest one are such a stretch of each row i.
use crate::random::Random;
use crate::rows::at;
use crate::tables::{Row, SIDE, put_lengths};
use bounds::Network;
use std::array;

// What is kept of the arcs one way: those of these rows and columns whose two places have a sum from the least to the largest.
#[derive(Clone, Copy)]
struct Kept {
    rows: [bool; SIDE],
    columns: [bool; SIDE],
    least_sum: usize,
    largest_sum: usize,
}

impl Kept {
    // No two places have a larger sum.
    const ALL: Kept = Kept {
        rows: [true; SIDE],
        columns: [true; SIDE],
        least_sum: 0,
        largest_sum: 2 * SIDE,
    };

    // With no row, no arc is kept.
    const NONE: Kept = Kept {
        rows: [false; SIDE],
        ..Kept::ALL
    };

    // All but one row and one column in so many. Two random numbers more are passed over, so that the plans stay those of the file `stdout`.
    fn choose_lines(random: &mut Random, times: usize) -> Kept {
        let kept = Kept {
            rows: choose_marks(random, times),
            columns: choose_marks(random, times),
            ..Kept::ALL
        };
        random.one_in(times);
        random.one_in(times);
        kept
    }

    // Keeps only a stretch of each row.
    fn keep_stretch(&mut self, random: &mut Random, m: usize) {
        let stretches = m.saturating_add(1);
        self.least_sum = random.place(stretches);
        let longer = random.place(stretches.saturating_add(m));
        self.largest_sum = self.least_sum.saturating_add(longer);
    }

    // Whether the arc from place i to place j is kept.
    fn has(&self, i: usize, j: usize) -> bool {
        let sum = i.saturating_add(j);
        at(&self.rows, i, false)
            && at(&self.columns, j, false)
            && self.least_sum <= sum
            && sum <= self.largest_sum
    }
}

// Takes the mark from a place.
fn unmark(marks: &mut [bool; SIDE], i: usize) {
    if let Some(mark) = marks.get_mut(i) {
        *mark = false;
    }
}

// Marks all but one place in so many.
fn choose_marks(random: &mut Random, times: usize) -> [bool; SIDE] {
    array::from_fn(|_| !random.one_in(times))
}

// What is kept of the arcs to later places, and of those back to earlier ones.
#[derive(Clone, Copy)]
struct Arcs {
    onward: Kept,
    back: Kept,
}

impl Arcs {
    // All arcs.
    const ALL: Arcs = Arcs {
        onward: Kept::ALL,
        back: Kept::ALL,
    };

    // No arc.
    const NONE: Arcs = Arcs {
        onward: Kept::NONE,
        back: Kept::NONE,
    };

    // Those of some rows and columns.
    fn choose_lines(random: &mut Random) -> Arcs {
        let times = random.one_of([2, 4, 12]);
        Arcs {
            onward: Kept::choose_lines(random, times),
            back: Kept::choose_lines(random, times),
        }
    }

    // Those of a stretch of each row.
    fn keep_stretches(mut self, random: &mut Random, m: usize) -> Arcs {
        self.onward.keep_stretch(random, m);
        self.back.keep_stretch(random, m);
        self
    }

    // Those but of one vertex: no arc leads from it, or none to it, or neither.
    fn cut_off(random: &mut Random, m: usize) -> Arcs {
        let mut kept = Kept::ALL;
        let v = random.place(m);
        let (closes_row, closes_column) = random.one_of([
            (true, false),
            (false, true),
            (true, true),
        ]);
        if closes_row {
            unmark(&mut kept.rows, v);
        }
        if closes_column {
            unmark(&mut kept.columns, v);
        }
        Arcs {
            onward: kept,
            back: kept,
        }
    }

    // All arcs, none, those of some rows and columns, of a stretch of each row, of both, or all but those of one vertex.
    fn choose(random: &mut Random, m: usize) -> Arcs {
        match random.up_to(5) {
            0 => Arcs::ALL,
            1 => Arcs::NONE,
            2 => Arcs::choose_lines(random),
            3 => Arcs::ALL.keep_stretches(random, m),
            4 => Arcs::choose_lines(random).keep_stretches(random, m),
            _ => Arcs::cut_off(random, m),
        }
    }

    // Whether the arc from place i to place j is kept.
    fn has(&self, i: usize, j: usize) -> bool {
        if i < j {
            self.onward.has(i, j)
        } else {
            self.back.has(i, j)
        }
    }
}

// ---- closing

// The length of an arc if it is kept, else no path.
fn kept_length(is_kept: bool, length: u32) -> u32 {
    if is_kept { length } else { Network::NO_PATH }
}

// Whether place j comes after place i, round the piece.
fn is_next(m: usize, i: usize, j: usize) -> bool {
    let next = i.saturating_add(1);
    j == if next == m { 0 } else { next }
}

// Closes tracks of a piece of m vertices; one piece in eight becomes a ring.
pub(crate) fn close_tracks(random: &mut Random, m: usize, table: &mut [Row]) {
    let is_ring = random.one_in(8);
    let arcs = Arcs::choose(random, m);
    if is_ring {
        put_lengths(
            table,
            m,
            |i, j, length| kept_length(is_next(m, i, j), length),
        );
    } else {
        put_lengths(table, m, |i, j, length| kept_length(arcs.has(i, j), length));
    }
}

// ---- halves

// Whether a vertex is one of the first half of all.
pub(crate) fn is_low(n: u32, v: u32) -> bool {
    v <= n / 2
}

// Whether the vertex at a place of a piece is one of them.
fn is_low_at(n: u32, vertices: &[u32], i: usize) -> bool {
    vertices.get(i).is_some_and(|v| is_low(n, *v))
}

// Closes the arcs of a piece from one half of all vertices to the other.
pub(crate) fn close_halves(n: u32, vertices: &[u32], table: &mut [Row]) {
    put_lengths(table, vertices.len(), |i, j, length| {
        let is_kept = is_low_at(n, vertices, i) == is_low_at(n, vertices, j);
        kept_length(is_kept, length)
    });
}
