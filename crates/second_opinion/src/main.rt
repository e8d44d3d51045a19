// A second opinion of the labelling. Thousands of sound networks are generated, and each is labelled from several sources: by the engine, which
// halves the pieces into Monge blocks and keeps an interval heap for each, and by Dijkstra's algorithm, which scans all vertices and the tables
// as they are. The two share no code, so that an error would have to be made twice to pass. Compared are all 256 labels and how many vertices are
// reached. Every network must be accepted. In about half of them tracks are closed: whole rows and columns, all but a stretch of each row, all
// but a ring, all of a piece; and some are cut in two. In the others the intervals inserted must be within 5 times the sum over pieces of m log m,
// rounded up.
// Each network is made from its number alone, and one that differs is named by it. The file `stdout` names none.
//   random      random numbers
//   rows        rows of values
//   graphs      planar graphs and the distances in them
//   tables      tables of lengths
//   closings    closed tracks
//   plans       networks of such tables
//   dijkstra    Dijkstra's algorithm
//   tally       what is counted
#![tactic(auto)]

mod closings;
mod dijkstra;
mod graphs;
mod plans;
mod random;
mod rows;
mod tables;
mod tally;

use crate::dijkstra::Labelling;
use crate::plans::{Plan, Tracks};
use crate::random::Random;
use crate::tally::{Comparison, Tally};
use bounds::Network;
use std::io;

// How many networks are made.
const NETWORKS: u32 = 2000;

// The labellings of a network.
const SOURCES: u32 = 3;

// The factor of the bound.
const FACTOR: u32 = 5;

// What a buffer of labels holds before: a place that must be written shows.
const FILLER: u32 = 7;

// The number of a labelling that nothing turned away.
const ACCEPTED: u32 = 0;

// ---- the bound

// The logarithm of m to base 2, rounded up.
fn logarithm(m: u32) -> u32 {
    32 - m.saturating_sub(1).leading_zeros()
}

// The most intervals that may be inserted: a multiple of the sum over pieces of m times its logarithm.
fn bound(plan: &Plan) -> u32 {
    let mut total = 0u32;
    for m in plan.sizes.iter().take(plan.shape.p as usize) {
        total = total.saturating_add(m.saturating_mul(logarithm(*m)));
    }
    total.saturating_mul(FACTOR)
}

// ---- a labelling

// Labels a network by both, and answers whether all came out as it must.
fn compare_labelling(plan: &Plan, source: u32, tally: &mut Tally) -> bool {
    let mut labels = [FILLER; Network::LABEL_PLACES];
    let answer = engine::label_network(&plan.lent(), source, &mut labels);
    let other = Labelling::of(plan, source);
    let comparison = Comparison {
        accepted: answer.number == ACCEPTED,
        same_labels: labels == other.distances,
        same_reached: answer.reached == other.reached,
        reached: answer.reached,
    };
    tally.count_labelling(comparison);
    if plan.shape.tracks != Tracks::Open {
        return comparison.is_right();
    }
    let limit = bound(plan);
    tally.count_inserted(answer.inserted, limit);
    comparison.is_right() && answer.inserted <= limit
}

// ---- networks

// Labels a network from each source, and answers whether all labellings came out as they must.
fn compare_sources(random: &mut Random, plan: &Plan, tally: &mut Tally) -> bool {
    let mut all_right = true;
    for _ in 0..SOURCES {
        let source = plan.choose_source(random);
        all_right = compare_labelling(plan, source, tally) && all_right;
    }
    all_right
}

// Makes the network of a number and labels it; counts and names one with a labelling that did not come out as it must.
fn compare_network(rt: &impl Print, number: u32, tally: &mut Tally) -> io::Result<()> {
    let mut random = Random::of_network(number);
    let plan = Plan::choose(&mut random, number);
    tally.count_plan(&plan);
    if compare_sources(&mut random, &plan, tally) {
        return Ok(());
    }
    tally.count_different();
    println!(rt; "{number} is the number of a network that differs.")
}

// Where a line cannot be written, the run ends, with the error on standard error and status 1.
fn main(rt: HostRuntime) -> io::Result<()> {
    let mut tally = Tally::default();
    for number in 0..NETWORKS {
        compare_network(&rt, number, &mut tally)?;
    }
    tally.write_plans(&rt, NETWORKS)?;
    tally.write_labellings(&rt, NETWORKS * SOURCES)
}
