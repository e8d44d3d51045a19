// Planar graphs of one-way tracks, and all shortest distances in them. Nodes 0 to 23 are the rim, clockwise: a ring, or the border of a grid of
// seven by seven, which has 25 nodes more inside. A graph is a row for each node: the length of the arc to each node, or FAR. Where the rim is not
// whole, FAR may be left between two nodes of it.
ghost use Rattle.std.specs.Prelude.{◌<◌};

use crate::random::Random;
use crate::rows::entry;
use bounds::Network;

// The nodes of the rim.
pub(crate) const RIM: usize = 24;

// The nodes of the rim, and those inside the grid.
const NODES: usize = 49;

// The longest track: a way over all nodes is no longer than the largest length.
const MAX_TRACK: u32 = Network::MAX_LENGTH / NODES as u32;

// The length where there is no arc: more than any way.
pub(crate) const FAR: u32 = Network::MAX_LENGTH + 1;

// The nodes of a side of the grid, and its last row and column.
const SIDE: usize = 7;

const LAST: usize = SIDE - 1;

// One track in so many is missing.
const MISSING: usize = 5;

// What lies inside the rim: the streets of a grid, or chords.
#[derive(Clone, Copy)]
pub(crate) enum Inside {
    Grid,
    Chords,
}

// A whole rim leads clockwise everywhere, so that every node of it reaches every other; in another, tracks may be missing.
#[derive(Clone, Copy)]
pub(crate) enum Rim {
    Whole,
    Parted,
}

// ---- crossings

// A crossing of the grid.
#[derive(Clone, Copy)]
struct Crossing {
    row: usize,
    col: usize,
    ghost in_rows: { row < 7 },
    ghost in_cols: { col < 7 },
}

impl Crossing {
    // On the border the rim's node, clockwise from the corner (0, 0); inside row by row.
    fn node(self) -> usize {
        let Crossing { row, col } = self;
        if row == 0 {
            col
        } else if col == LAST {
            LAST + row
        } else if row == LAST {
            3 * LAST - col
        } else if col == 0 {
            4 * LAST - row
        } else {
            RIM + (SIDE - 2) * (row - 1) + (col - 1)
        }
    }

    // The crossing so many rows down and so many columns to the right, if there is one.
    fn next(self, down: usize, right: usize) -> Option<Crossing> {
        let row = self.row.saturating_add(down);
        let col = self.col.saturating_add(right);
        if row < SIDE && col < SIDE {
            Some(Crossing { row, col })
        } else {
            None
        }
    }
}

// ---- graphs

// A row for each node: the length of the arc to each node, or FAR.
#[derive(Drop)]
pub(crate) struct Graph {
    arcs: [[u32; NODES]; NODES],
}

impl Graph {
    // The distances in a random planar graph.
    pub(crate) fn of_distances(random: &mut Random, inside: Inside, rim: Rim) -> Graph {
        let mut graph = Graph {
            arcs: [[FAR; NODES]; NODES],
        };
        match inside {
            Inside::Grid => graph.lay_grid(random),
            Inside::Chords => graph.lay_chords(random),
        }
        graph.lay_rim(random, rim);
        graph.shorten();
        graph
    }

    // The length of the arc from u to v.
    pub(crate) fn arc(&self, u: usize, v: usize) -> u32 {
        entry(&self.arcs, u, v, FAR)
    }

    // A track one way, always; past the last node none.
    fn lay(&mut self, random: &mut Random, u: usize, v: usize) {
        let length = random.one_to(MAX_TRACK);
        if let Some(row) = self.arcs.get_mut(u) {
            if let Some(arc) = row.get_mut(v) {
                *arc = length;
            }
        }
    }

    // A track one way, which may be missing.
    fn lay_perhaps(&mut self, random: &mut Random, u: usize, v: usize) {
        if !random.one_in(MISSING) {
            self.lay(random, u, v);
        }
    }

    // A track each way, either of which may be missing.
    fn lay_both(&mut self, random: &mut Random, u: usize, v: usize) {
        self.lay_perhaps(random, u, v);
        self.lay_perhaps(random, v, u);
    }

    // The rim, clockwise and, in places, back.
    fn lay_rim(&mut self, random: &mut Random, rim: Rim) {
        for u in 0..RIM {
            let v = (u + 1) % RIM;
            self.lay_perhaps(random, v, u);
            match rim {
                Rim::Whole => self.lay(random, u, v),
                Rim::Parted => self.lay_perhaps(random, u, v),
            }
        }
    }

    // The street from a crossing to the next, if there is one.
    fn lay_street(&mut self, random: &mut Random, from: Crossing, to: Option<Crossing>) {
        if let Some(to) = to {
            self.lay_both(random, from.node(), to.node());
        }
    }

    // The streets from the crossings of a row.
    fn lay_grid_row(&mut self, random: &mut Random, row: usize)
        requires { row < 7 }
    {
        for col in 0..SIDE {
            let from = Crossing { row, col };
            self.lay_street(random, from, from.next(0, 1));
            self.lay_street(random, from, from.next(1, 0));
        }
    }

    // The streets of the grid.
    fn lay_grid(&mut self, random: &mut Random) {
        for row in 0..SIDE {
            self.lay_grid_row(random, row);
        }
    }

    // Chords of the ring that do not cross: each next one moves one end of the last towards the other.
    fn lay_chords(&mut self, random: &mut Random) {
        let turn = random.place(RIM);
        let mut low = 0;
        for laid in 0..RIM - 1 {
            let high = RIM - 1 + low - laid;
            self.lay_both(random, (turn + low) % RIM, (turn + high) % RIM);
            low += random.place(2);
        }
    }

    // Floyd's step: ways over node k.
    fn shorten_over(&mut self, k: usize)
        requires { k < 49 }
    {
        let onward = self.arcs[k];
        for row in self.arcs.iter_mut() {
            shorten_row(row, k, &onward);
        }
    }

    // Shortens each way by those over every node.
    fn shorten(&mut self) {
        for k in 0..NODES {
            self.shorten_over(k);
        }
    }
}

// Shortens the ways of a row by those over node k and onward.
fn shorten_row(row: &mut [u32; NODES], k: usize, onward: &[u32; NODES])
    requires { k < 49 }
{
    let first = row[k];
    for (arc, rest) in row.iter_mut().zip(onward) {
        *arc = (*arc).min(first.saturating_add(*rest));
    }
}
