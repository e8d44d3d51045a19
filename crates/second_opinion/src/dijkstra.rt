// Dijkstra's algorithm on the tables as they are; no path is no arc. Vertices count from 1; the distance of vertex v stands at v - 1.
use crate::plans::Plan;
use crate::tables::{Row, SIDE};
use bounds::Network;

// The distances from the source as far as they are known, and which of them are settled.
#[derive(Drop)]
pub(crate) struct Labelling {
    pub(crate) distances: [u32; Network::LABEL_PLACES],
    settled: [bool; Network::LABEL_PLACES],
    pub(crate) reached: u32,
}

impl Labelling {
    // Of the whole plan. Vertices that are not reached are left as they begin.
    pub(crate) fn of(plan: &Plan, source: u32) -> Labelling {
        let mut labelling = Labelling {
            distances: [Network::UNREACHED; Network::LABEL_PLACES],
            settled: [false; Network::LABEL_PLACES],
            reached: 0,
        };
        labelling.shorten(source, 0);
        for reached in 0..plan.shape.n {
            labelling.reached = reached;
            let Some((v, label)) = labelling.settle_nearest() else {
                return labelling;
            };
            labelling.relax(plan, v, label);
        }
        labelling.reached = plan.shape.n;
        labelling
    }

    // The vertex with the least distance of those that are not settled, and that distance; none if no such vertex is reached.
    fn nearest(&self) -> Option<(u32, u32)> {
        let mut nearest = None;
        let mut least = Network::UNREACHED;
        let known = self.distances.iter().zip(&self.settled);
        for (v, (distance, is_settled)) in (1..=Network::MAX_VERTICES).zip(known) {
            if !*is_settled && *distance < least {
                nearest = Some((v, *distance));
                least = *distance;
            }
        }
        nearest
    }

    // Settles the nearest vertex, and answers it with its label; none where none is left to settle.
    fn settle_nearest(&mut self) -> Option<(u32, u32)> {
        let (v, label) = self.nearest()?;
        if let Some(is_settled) = self.settled.get_mut(place_of(v)) {
            *is_settled = true;
        }
        Some((v, label))
    }

    // A way of this length to a vertex; no other number is one.
    fn shorten(&mut self, v: u32, length: u32) {
        if let Some(distance) = self.distances.get_mut(place_of(v)) {
            *distance = (*distance).min(length);
        }
    }

    // The arcs of a row of lengths, from a vertex with this label to those of its piece.
    fn relax_row(&mut self, label: u32, size: usize, vertices: &Row, lengths: &Row) {
        for (v, length) in vertices.iter().zip(lengths).take(size) {
            if *length != Network::NO_PATH {
                self.shorten(*v, label.saturating_add(*length));
            }
        }
    }

    // The arcs of a piece from a vertex, if it has a place there. A place that is not used holds no vertex.
    fn relax_piece(&mut self, v: u32, label: u32, size: usize, vertices: &Row, table: &[Row]) {
        for (from, lengths) in vertices.iter().zip(table) {
            if *from == v {
                self.relax_row(label, size, vertices, lengths);
            }
        }
    }

    // The arcs from a vertex.
    fn relax(&mut self, plan: &Plan, v: u32, label: u32) {
        let tables = plan.vertices.iter().zip(plan.lengths.chunks_exact(SIDE));
        for (size, (vertices, table)) in plan.sizes.iter().zip(tables).take(plan.shape.p as usize) {
            self.relax_piece(v, label, *size as usize, vertices, table);
        }
    }
}

// The place of a vertex's distance.
fn place_of(v: u32) -> usize {
    (v as usize).saturating_sub(1)
}
