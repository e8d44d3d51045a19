// The route to a target: the labelling keeps the arc that each vertex was settled by, and these arcs are followed back from the target.
#![tactic(auto)]

ghost use Rattle.std.specs.Prelude.{◌≡◌, length, get_or};
ghost use Rattle.definitions.specs.Limits.{vertex_places};
ghost use Rattle.definitions.specs.Entries.{arc_numbers, route_refusal, route_network};
ghost use Rattle.definitions.specs.PlainPromises.{PlainRoute};
ghost use Rattle.engine.specs.Labeller.ArcWords.{tail_of, ArcPlaces, lent_arc};
ghost use Rattle.routes.specs.Following.{CountArcsNeeds, CountArcsLeaves};
ghost use Rattle.routes.specs.Writing.{ArcNeeds, PutArcsNeeds, PutArcsLeaves, WriteRouteNeeds, WriteRouteLeaves};

use bounds::Network;
use definitions::{Cause, RouteAnswer};
use judgements::LentNetwork;

// The arcs that a labelling keeps: the buffers of its network, for each vertex the word of the arc that it was settled by, and the source.
#[derive(Clone, Copy)]
struct KeptArcs<'a> {
    vertices: &'a [u32],
    lengths: &'a [u32],
    words: &'a [u32],
    source: u32,
}

impl KeptArcs<'_> {
    // The vertex that the arc of a word starts from.
    fn tail(&self, word: u32) -> u32
        requires { ArcPlaces word × (length self.now.vertices.now ≡ vertex_places) }
        ensures { result ≡ get_or self.now.vertices.now (tail_of word) 0 }
    {
        self.vertices[word as usize / Network::VERTEX_PLACES]
    }

    // How many arcs lead from the source to the target.
    fn count_arcs(&self, target: u32) -> u32
        requires { CountArcsNeeds self.now.vertices.now self.now.words.now self.now.source target }
        ensures { CountArcsLeaves self.now.vertices.now self.now.words.now self.now.source target result }
    {
        let mut count = 0;
        let mut v = target;
        while v != self.source {
            v = self.tail(self.words[v as usize - 1]);
            count += 1;
        }
        count
    }

    // The numbers of the arc of a word: from vertex, to vertex, piece, length.
    fn numbers(&self, word: u32) -> [u32; Network::ARC_SIZE]
        requires { ArcNeeds self.now.vertices.now self.now.lengths.now word }
        ensures { result ≡ arc_numbers (lent_arc self.now.vertices.now self.now.lengths.now word) }
    {
        let x = word as usize / Network::VERTEX_PLACES;
        let y = word as usize - Network::VERTEX_PLACES * x;
        let d = x / Network::ROW_PLACES;
        [
            self.vertices[x],
            self.vertices[y],
            d as u32 + 1,
            self.lengths[Network::ROW_PLACES * x + (y - Network::ROW_PLACES * d)],
        ]
    }

    // Puts the arcs that lead to the target at the front of the buffer, which is 0, as many as there are: the last one first.
    fn put_arcs(&self, target: u32, count: u32, arcs: &mut [u32])
        requires { PutArcsNeeds arcs.old self.now.vertices.now self.now.lengths.now self.now.words.now target count }
        ensures { PutArcsLeaves arcs.new self.now.vertices.now self.now.lengths.now self.now.words.now target count }
    {
        let mut v = target;
        for k in (0..count as usize).rev() {
            let word = self.words[v as usize - 1];
            let at = Network::ARC_SIZE * k;
            arcs[at..at + Network::ARC_SIZE].copy_from_slice(&self.numbers(word));
            v = self.tail(word);
        }
    }

    // The label of the target and the arcs that lead there: none where it is not reached.
    fn write_route(&self, target: u32, labels: &[u32], arcs: &mut [u32]) -> RouteAnswer
        requires { WriteRouteNeeds self.now.vertices.now self.now.lengths.now self.now.source target labels.now self.now.words.now arcs.old }
        ensures { WriteRouteLeaves self.now.vertices.now self.now.lengths.now self.now.source target labels.now self.now.words.now arcs.new result }
    {
        arcs.fill(0);
        let label = labels[target as usize - 1];
        if label == Network::UNREACHED {
            return RouteAnswer {
                number: 0,
                label,
                arcs: 0,
            };
        }
        let count = self.count_arcs(target);
        self.put_arcs(target, count, arcs);
        RouteAnswer {
            number: 0,
            label,
            arcs: count,
        }
    }
}

// A refusal's answer: the number of its cause, and counts of 0.
fn refusal(number: u32) -> RouteAnswer
    ensures { result ≡ route_refusal number }
{
    RouteAnswer {
        number,
        label: 0,
        arcs: 0,
    }
}

// The label of the target, and the arcs of a shortest route to it from the source, in the lent buffer of 1,020 places, four numbers for each. A refusal
// returns its number and leaves the buffer; the target is judged last.
pub fn route_network(
    network: &LentNetwork,
    source: u32,
    target: u32,
    arcs: &mut [u32],
) -> RouteAnswer
    ensures routed { let w = network.now in record { answer = result; arcs = arcs.new } ≡ route_network w.n w.p w.sizes.now w.vertices.now w.lengths.now source target arcs.old }
    ensures plain { let w = network.now in result.number ≡ 0 → PlainRoute w.p w.sizes.now w.vertices.now w.lengths.now source target result arcs.new }
{
    if arcs.len() != Network::ROUTE_PLACES {
        return refusal(Cause::Buffer.number());
    }
    let mut labels = [0u32; Network::LABEL_PLACES];
    let mut words = [Network::NO_ARC; Network::LABEL_PLACES];
    let done = engine::label_arcs(network, source, &mut labels, &mut words);
    if done.number != 0 {
        return refusal(done.number);
    }
    if let Err(cause) = judgements::judge_target(network.n, target) {
        return refusal(cause.number());
    }
    let kept = KeptArcs {
        vertices: network.vertices,
        lengths: network.lengths,
        words: &words,
        source,
    };
    kept.write_route(target, &labels, arcs)
}
