// Plans of sound pieces of every kind and size, with closed tracks and without. Places that a plan does not use are left.
ghost use Rattle.std.specs.Prelude.{◌≤◌};

use crate::closings::{close_halves, close_tracks, is_low};
use crate::graphs::Rim;
use crate::random::Random;
use crate::rows::{at, entry};
use crate::tables::{KINDS, Kind, PLANAR_KINDS, Row, SIDE, fill_table};
use bounds::Network;
use judgements::LentNetwork;

// What stands in the places that a plan does not use: no length, no vertex, no size.
const UNUSED: u32 = Network::NO_PATH - 1;

// Whether tracks are closed, and whether the plan is then cut in two as well.
#[derive(Clone, Copy, PartialEq, Eq)]
pub(crate) enum Tracks {
    Open,
    Closed,
    Cut,
}

// How many vertices and pieces a plan has, and its tracks.
#[derive(Clone, Copy)]
pub(crate) struct Shape {
    pub(crate) n: u32,
    pub(crate) p: u32,
    pub(crate) tracks: Tracks,
}

// A plan, and what the engine is lent of it: for each piece its size and a row of its vertices, and for each of these a row of lengths.
#[derive(Drop)]
pub(crate) struct Plan {
    pub(crate) shape: Shape,
    pub(crate) sizes: [u32; Network::SIZE_PLACES],
    pub(crate) vertices: [Row; Network::SIZE_PLACES],
    pub(crate) lengths: [Row; Network::VERTEX_PLACES],
}

impl Plan {
    // The plan of a number.
    pub(crate) fn choose(random: &mut Random, number: u32) -> Plan {
        let mut plan = Plan {
            shape: Shape::choose(random, number),
            sizes: [UNUSED; Network::SIZE_PLACES],
            vertices: [[UNUSED; SIDE]; Network::SIZE_PLACES],
            lengths: [[UNUSED; SIDE]; Network::VERTEX_PLACES],
        };
        plan.make_pieces(random);
        plan
    }

    // Fills the places that are used. In one plan of four all pieces are planar, as in a real one.
    fn make_pieces(&mut self, random: &mut Random) {
        let shape = self.shape;
        let is_planar = random.one_in(4);
        let tables = self
            .vertices
            .iter_mut()
            .zip(self.lengths.chunks_exact_mut(SIDE));
        for (size, (vertices, table)) in self.sizes.iter_mut().zip(tables).take(shape.p as usize) {
            let kind = choose_kind(random, is_planar);
            *size = choose_size(random, shape.n);
            let used = &mut vertices[..*size as usize];
            shape.choose_vertices(random, used);
            shape.fill_lengths(random, kind, used, table);
        }
    }

    // The plan as the engine is lent it.
    pub(crate) fn lent(&self) -> LentNetwork<'_> {
        LentNetwork {
            n: self.shape.n,
            p: self.shape.p,
            sizes: &self.sizes,
            vertices: self.vertices.as_flattened(),
            lengths: self.lengths.as_flattened(),
        }
    }

    // Any vertex, or one of a piece, so that arcs lead from it.
    pub(crate) fn choose_source(&self, random: &mut Random) -> u32 {
        if random.one_in(4) {
            return random.one_to(self.shape.n);
        }
        let k = random.place(self.shape.p as usize);
        let size = at(&self.sizes, k, 0);
        let i = random.place(size as usize);
        entry(&self.vertices, k, i, 0)
    }
}

impl Shape {
    // The shape of the plan of a number.
    fn choose(random: &mut Random, number: u32) -> Shape {
        Shape {
            n: choose_count(random, number),
            p: random.one_to(Network::MAX_PIECES),
            tracks: choose_tracks(random),
        }
    }

    // The vertices of a piece.
    fn choose_vertices(self, random: &mut Random, vertices: &mut [u32]) {
        match self.tracks {
            Tracks::Cut => choose_parted(random, self.n, vertices),
            _ => choose_any(random, self.n, vertices),
        }
    }

    // The table of a piece of these vertices, with tracks closed if some are.
    fn fill_lengths(self, random: &mut Random, kind: Kind, vertices: &[u32], table: &mut [Row]) {
        let m = vertices.len();
        match self.tracks {
            Tracks::Open => fill_table(random, kind, Rim::Whole, m, table),
            Tracks::Closed => fill_closed(random, kind, m, table),
            Tracks::Cut => {
                fill_closed(random, kind, m, table);
                close_halves(self.n, vertices, table);
            }
        }
    }
}

// The table of a piece, with closed tracks.
fn fill_closed(random: &mut Random, kind: Kind, m: usize, table: &mut [Row]) {
    fill_table(random, kind, Rim::Parted, m, table);
    close_tracks(random, m, table);
}

// ---- choices

// Few vertices, which share many pieces; the largest number; and every number in turn.
fn choose_count(random: &mut Random, number: u32) -> u32 {
    match number % 4 {
        0 => random.one_to(4),
        1 => Network::MAX_VERTICES,
        _ => number / 4 % Network::MAX_VERTICES + 1,
    }
}

// Closed tracks in one plan of two, and one of four of these is cut.
fn choose_tracks(random: &mut Random) -> Tracks {
    let is_closed = random.one_in(2);
    let is_fourth = random.one_in(4);
    match (is_closed, is_fourth) {
        (false, _) => Tracks::Open,
        (true, false) => Tracks::Closed,
        (true, true) => Tracks::Cut,
    }
}

// The sizes at the edges often, and never more vertices than there are.
fn choose_size(random: &mut Random, n: u32) -> u32
    ensures { result ≤ 24 }
{
    let m = match random.up_to(8) {
        0 => 1,
        1 => 2,
        2 => Network::MAX_SIZE - 1,
        3 => Network::MAX_SIZE,
        _ => random.one_to(Network::MAX_SIZE),
    };
    m.min(n)
}

// Any kind, or one of the planar ones.
fn choose_kind(random: &mut Random, is_planar: bool) -> Kind {
    if is_planar {
        random.one_of(PLANAR_KINDS)
    } else {
        random.one_of(KINDS)
    }
}

// ---- vertices

// The vertices 1 to n that are not drawn yet.
#[derive(Drop)]
struct Pool {
    vertices: [u32; Network::LABEL_PLACES],
    n: usize,
    drawn: usize,
}

impl Pool {
    // All of them.
    fn of(n: u32) -> Pool {
        let mut vertices = [0; Network::LABEL_PLACES];
        for (vertex, v) in vertices.iter_mut().zip(1..=n) {
            *vertex = v;
        }
        Pool {
            vertices,
            n: n as usize,
            drawn: 0,
        }
    }

    // Draws a vertex, 0 if none is left.
    fn draw(&mut self, random: &mut Random) -> u32 {
        let Some(left) = self.vertices.get_mut(self.drawn..self.n) else {
            return 0;
        };
        if left.is_empty() {
            return 0;
        }
        left.swap(0, random.place(left.len()));
        self.drawn += 1;
        left[0]
    }
}

// Different vertices for the places of a piece.
fn choose_any(random: &mut Random, n: u32, vertices: &mut [u32]) {
    let mut pool = Pool::of(n);
    vertices.fill_with(|| pool.draw(random));
}

// The same with those of the first half of all vertices before the others, so that a line parts the two.
fn choose_parted(random: &mut Random, n: u32, vertices: &mut [u32]) {
    let mut pool = Pool::of(n);
    let mut low = 0;
    let mut end = vertices.len();
    for i in 0..vertices.len() {
        let v = pool.draw(random);
        if is_low(n, v) {
            vertices[low] = v;
            low += 1;
        } else {
            end -= 1;
            vertices[end] = v;
        }
    }
}
