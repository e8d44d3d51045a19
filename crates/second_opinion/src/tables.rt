// Tables of lengths that every check accepts. A piece of m vertices uses the first m rows and columns of its table, whose rows have 24 places.
use crate::graphs::{FAR, Graph, Inside, RIM, Rim};
use crate::random::Random;
use crate::rows::{at, entry};
use bounds::Network;
use std::array;

// The places of a row.
pub(crate) const SIDE: usize = Network::ROW_PLACES;

// A row of a table; a table is a slice of them.
pub(crate) type Row = [u32; SIDE];

// The longest step along a line: as many as there are places in a row are no longer than the largest length.
const MAX_STEP: u32 = Network::MAX_LENGTH / Network::MAX_SIZE;

// One step of a graded table in so many is not 0.
const CLIMBS: usize = 4;

// The largest weight and step of a graded table: three weights and a step at each place are no longer than the largest length.
const MAX_WEIGHT: u32 = Network::MAX_LENGTH / 5;

const MAX_CLIMB: u32 = 2 * MAX_WEIGHT / (Network::MAX_SIZE * Network::MAX_SIZE);

// ---- kinds

// A planar piece; a line of track with vertices around it; the same length everywhere; or grades.
#[derive(Clone, Copy)]
pub(crate) enum Kind {
    Planar(Inside),
    Line,
    Constant,
    Graded(Grades),
}

// The largest weight and the largest step of a graded table, and where its lengths are counted from.
#[derive(Clone, Copy)]
pub(crate) struct Grades {
    top_weight: u32,
    top_step: u32,
    start: Start,
}

// Up from 0, or down from the largest length.
#[derive(Clone, Copy)]
enum Start {
    Zero,
    Largest,
}

// The kinds of planar pieces.
pub(crate) const PLANAR_KINDS: [Kind; 2] = [
    Kind::Planar(Inside::Grid),
    Kind::Planar(Inside::Chords),
];

// All kinds.
pub(crate) const KINDS: [Kind; 8] = [
    Kind::Planar(Inside::Grid),
    Kind::Planar(Inside::Chords),
    Kind::Line,
    Kind::Constant,
    Kind::Graded(Grades {
        top_weight: 1,
        top_step: 1,
        start: Start::Zero,
    }),
    Kind::Graded(Grades {
        top_weight: 0,
        top_step: 1,
        start: Start::Zero,
    }),
    Kind::Graded(Grades {
        top_weight: MAX_WEIGHT,
        top_step: MAX_CLIMB,
        start: Start::Zero,
    }),
    Kind::Graded(Grades {
        top_weight: 2,
        top_step: 3,
        start: Start::Largest,
    }),
];

// ---- places

// Changes the lengths that a piece of m vertices uses: of the arc between two places to what their places and the length before give, on the
// diagonal to 0.
pub(crate) fn put_lengths<F: Fn(usize, usize, u32) -> u32>(table: &mut [Row], m: usize, length: F)
    requires { F.IsAlwaysCallable length }
{
    for (i, row) in table.iter_mut().take(m).enumerate() {
        put_row(row, m, i, &length);
    }
}

// Changes what a piece of m vertices uses of row i.
fn put_row<F: Fn(usize, usize, u32) -> u32>(row: &mut Row, m: usize, i: usize, length: &F)
    requires { F.IsAlwaysCallable length.now }
{
    for (j, place) in row.iter_mut().take(m).enumerate() {
        *place = if i == j { 0 } else { length(i, j, *place) };
    }
}

// ---- planar pieces

// Chooses m nodes of the rim, clockwise: a node is chosen or passed over so that each choice is as likely as any other.
fn choose_nodes(random: &mut Random, m: usize) -> [usize; RIM] {
    let mut nodes = [0; RIM];
    let mut chosen = 0;
    for t in 0..RIM {
        if random.place(RIM - t) < m.saturating_sub(chosen) {
            nodes[chosen] = t;
            chosen += 1;
        }
    }
    nodes
}

// The distances inside a planar piece; where there is no way, no path.
fn fill_planar(random: &mut Random, m: usize, inside: Inside, rim: Rim, table: &mut [Row]) {
    let graph = Graph::of_distances(random, inside, rim);
    let nodes = choose_nodes(random, m);
    put_lengths(table, m, |i, j, _| {
        let distance = graph.arc(at(&nodes, i, 0), at(&nodes, j, 0));
        if distance == FAR {
            Network::NO_PATH
        } else {
            distance
        }
    });
}

// ---- vertices around a line of track

// Points that rise up to a random place and fall after it.
fn choose_points(random: &mut Random) -> Row {
    let peak = random.place(SIDE + 1);
    let mut points = [0; SIDE];
    let mut x = 0u32;
    for (i, point) in points.iter_mut().enumerate() {
        let step = random.up_to(MAX_STEP);
        x = if i < peak {
            x.saturating_add(step)
        } else {
            x.saturating_sub(step)
        };
        *point = x;
    }
    points
}

// The lengths along the line.
fn fill_line(random: &mut Random, m: usize, table: &mut [Row]) {
    let points = choose_points(random);
    put_lengths(
        table,
        m,
        |i, j, _| at(&points, i, 0).abs_diff(at(&points, j, 0)),
    );
}

// ---- graded tables

// The middle of the split that parts two places of a piece of m: each split of the halving has its own. 0 where they are the same.
fn middle(m: usize, i: usize, j: usize) -> usize {
    let mut first = 0;
    let mut end = m;
    while end - first > 1 {
        let half = first + (end - first) / 2;
        let i_before = i < half;
        let j_before = j < half;
        if i_before != j_before {
            return half;
        }
        if i_before {
            end = half;
        } else {
            first = half;
        }
    }
    0
}

// Numbers from 0 to `top`.
fn random_row(random: &mut Random, top: u32) -> Row {
    array::from_fn(|_| random.up_to(top))
}

// The weights of rows, of columns, and of the blocks above and below the diagonal.
#[derive(Drop)]
struct Weights {
    rows: Row,
    columns: Row,
    upper: Row,
    lower: Row,
}

impl Weights {
    // Weights from 0 to `top`.
    fn choose(random: &mut Random, top: u32) -> Weights {
        Weights {
            rows: random_row(random, top),
            columns: random_row(random, top),
            upper: random_row(random, top),
            lower: random_row(random, top),
        }
    }

    // What the row, the column and the block of a place weigh.
    fn weight(&self, m: usize, i: usize, j: usize) -> u32 {
        let blocks = if i < j { &self.upper } else { &self.lower };
        at(&self.rows, i, 0)
            .saturating_add(at(&self.columns, j, 0))
            .saturating_add(at(blocks, middle(m, i, j), 0))
    }
}

// A row of steps below another: a step now and then, added up from the left and from above.
fn climb(random: &mut Random, top: u32, above: &Row) -> Row {
    let mut row = *above;
    let mut along = 0u32;
    for place in row.iter_mut() {
        if random.one_in(CLIMBS) {
            along = along.saturating_add(random.up_to(top));
        }
        *place = place.saturating_add(along);
    }
    row
}

// Random steps, added up: the amount by which a row exceeds the one above it never falls from left to right.
fn choose_steps(random: &mut Random, top: u32) -> [Row; SIDE] {
    let mut steps = [[0; SIDE]; SIDE];
    let mut above = [0; SIDE];
    for row in steps.iter_mut() {
        above = climb(random, top, &above);
        *row = above;
    }
    steps
}

// Tables with no triangle rule: a weight of its own is added to all lengths of a block. Where lengths are counted down, the columns of the steps are
// mirrored, so that the amount by which a row exceeds the one above it again never falls from left to right.
fn fill_graded(random: &mut Random, m: usize, grades: Grades, table: &mut [Row]) {
    let weights = Weights::choose(random, grades.top_weight);
    let steps = choose_steps(random, grades.top_step);
    match grades.start {
        Start::Zero => put_lengths(table, m, |i, j, _| {
            weights
                .weight(m, i, j)
                .saturating_add(entry(&steps, i, j, 0))
        }),
        Start::Largest => put_lengths(table, m, |i, j, _| {
            let mirrored = entry(&steps, i, (SIDE - 1).saturating_sub(j), 0);
            Network::MAX_LENGTH.saturating_sub(weights.weight(m, i, j).saturating_add(mirrored))
        }),
    }
}

// ---- all kinds

// The same length everywhere: zeros, or the largest, or any.
fn fill_constant(random: &mut Random, m: usize, table: &mut [Row]) {
    let constant = match random.up_to(3) {
        0 => 0,
        1 => Network::MAX_LENGTH,
        _ => random.up_to(Network::MAX_LENGTH),
    };
    put_lengths(table, m, |_, _, _| constant);
}

// Fills the places of a table that a piece of m vertices uses. Where the rim of a planar piece need not be whole, some lengths are no path.
// Kinds are drawn as data and told apart here alone, so that a trait would only be more text.
pub(crate) fn fill_table(random: &mut Random, kind: Kind, rim: Rim, m: usize, table: &mut [Row]) {
    match kind {
        Kind::Planar(inside) => fill_planar(random, m, inside, rim, table),
        Kind::Line => fill_line(random, m, table),
        Kind::Constant => fill_constant(random, m, table),
        Kind::Graded(grades) => fill_graded(random, m, grades, table),
    }
}
