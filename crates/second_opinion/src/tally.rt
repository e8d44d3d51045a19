// What is counted over all plans and labellings.
use crate::plans::{Plan, Tracks};
use bounds::Network;
use std::io;

// The counters and marks; all begin at 0 and false.
#[derive(Drop, Default)]
pub(crate) struct Tally {
    // The labellings in which each comparison comes out as it must.
    accepted: u32,
    same_labels: u32,
    same_reached: u32,
    // The labellings of plans without closed tracks, and those of them that keep to the bound.
    open: u32,
    within: u32,
    // The largest share of a bound, in thousandths.
    share: u32,
    // The vertices reached in all labellings.
    reached: u32,
    // The plans that differ, those with closed tracks, and those that are cut in two.
    different: u32,
    closed: u32,
    cut: u32,
    // The lengths that are no path.
    no_paths: u32,
    // Which numbers of vertices and of pieces occur in a plan, and which sizes of a piece: number k is marked at place k - 1.
    vertex_counts: [bool; Network::LABEL_PLACES],
    piece_counts: [bool; Network::SIZE_PLACES],
    piece_sizes: [bool; Network::ROW_PLACES],
}

// How a labelling came out: each is as it must be if it is true. The vertices reached are those of the engine.
#[derive(Clone, Copy)]
pub(crate) struct Comparison {
    pub(crate) accepted: bool,
    pub(crate) same_labels: bool,
    pub(crate) same_reached: bool,
    pub(crate) reached: u32,
}

impl Comparison {
    // Whether all is as it must be.
    pub(crate) fn is_right(self) -> bool {
        self.accepted && self.same_labels && self.same_reached
    }
}

impl Tally {
    // A labelling, of any plan.
    pub(crate) fn count_labelling(&mut self, comparison: Comparison) {
        count(&mut self.accepted, comparison.accepted);
        count(&mut self.same_labels, comparison.same_labels);
        count(&mut self.same_reached, comparison.same_reached);
        self.reached = self.reached.saturating_add(comparison.reached);
    }

    // A labelling of a plan without closed tracks, which is held to a bound of the intervals inserted.
    pub(crate) fn count_inserted(&mut self, inserted: u32, limit: u32) {
        count(&mut self.open, true);
        count(&mut self.within, inserted <= limit);
        self.share = self.share.max(share(inserted, limit));
    }

    // A plan with a labelling that did not come out as it must.
    pub(crate) fn count_different(&mut self) {
        count(&mut self.different, true);
    }

    // A plan, its numbers and its closed tracks.
    pub(crate) fn count_plan(&mut self, plan: &Plan) {
        mark(&mut self.vertex_counts, plan.shape.n);
        mark(&mut self.piece_counts, plan.shape.p);
        for size in plan.sizes.iter().take(plan.shape.p as usize) {
            mark(&mut self.piece_sizes, *size);
        }
        count(&mut self.closed, plan.shape.tracks != Tracks::Open);
        count(&mut self.cut, plan.shape.tracks == Tracks::Cut);
        self.no_paths = self.no_paths.saturating_add(count_no_paths(plan));
    }

    // The lines on so many plans.
    pub(crate) fn write_plans(&self, rt: &impl Print, plans: u32) -> io::Result<()> {
        println!(rt; "{plans} sound networks were made.")?;
        println!(rt;
            "{} numbers of vertices, of 1 to 256, occur in them.",
            marks(&self.vertex_counts)
        )?;
        println!(rt;
            "{} numbers of pieces, of 1 to 16, occur in them.",
            marks(&self.piece_counts)
        )?;
        println!(rt;
            "{} sizes of a piece, of 1 to 24, occur in them.",
            marks(&self.piece_sizes)
        )?;
        println!(rt; "{} networks have closed tracks.", self.closed)?;
        println!(rt; "{} of these are cut in two.", self.cut)?;
        println!(rt; "{} lengths in them are no path.", self.no_paths)
    }

    // The lines on so many labellings.
    pub(crate) fn write_labellings(&self, rt: &impl Print, labellings: u32) -> io::Result<()> {
        println!(rt; "{labellings} labellings were made, from 3 sources in each network.")?;
        println!(rt; "{} labellings were accepted.", self.accepted)?;
        println!(rt;
            "{} labellings have Dijkstra's labels in all 256 places.",
            self.same_labels
        )?;
        println!(rt;
            "{} labellings reached as many vertices as Dijkstra's algorithm.",
            self.same_reached
        )?;
        println!(rt;
            "{} labellings are of networks without closed tracks.",
            self.open
        )?;
        println!(rt;
            "{} of these inserted no more intervals than 5 times the sum of m log m.",
            self.within
        )?;
        println!(rt;
            "{} thousandths of that bound is the most that one inserted.",
            self.share
        )?;
        println!(rt;
            "{} vertices were reached in all labellings together.",
            self.reached
        )?;
        println!(rt; "{} networks differ.", self.different)
    }
}

// Counts one more, if it is so.
fn count(counter: &mut u32, is_so: bool) {
    *counter = counter.saturating_add(u32::from(is_so));
}

// Marks one of the numbers from 1 on.
fn mark(marks: &mut [bool], number: u32) {
    if let Some(mark) = marks.get_mut((number as usize).saturating_sub(1)) {
        *mark = true;
    }
}

// How many numbers are marked.
fn marks(marks: &[bool]) -> usize {
    marks.iter().filter(|is_marked| **is_marked).count()
}

// How many lengths are no path; places that are not used hold none.
fn count_no_paths(plan: &Plan) -> u32 {
    let lengths = plan.lengths.as_flattened();
    lengths
        .iter()
        .filter(|length| **length == Network::NO_PATH)
        .count() as u32
}

// A part of a whole in thousandths; of nothing, each part counts as a whole.
fn share(part: u32, whole: u32) -> u32 {
    part.saturating_mul(1000) / whole.max(1)
}
