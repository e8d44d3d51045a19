// The listing of a text: what the program `labels` writes for the bytes that it reads.
#![tactic(auto)]

ghost use Rattle.std.specs.Prelude.{◌≡◌, List, [], ◌∷◌, ◌++◌, ℕ, ◌+◌, ◌*◌, ◌≤◌, ◌<◌, length, take};
ghost use Rattle.definitions.specs.Limits.{max_vertices, max_arcs, label_places, arc_size, route_places, line_fields};
ghost use Rattle.definitions.specs.Judgement.{judge_target};
ghost use Rattle.definitions.specs.Fields.{line_end, decimal};
ghost use Rattle.definitions.specs.Entries.{listing_line, refusal_line, state_listing, route_listing, listing_line_bytes, listing_places, write_listing};
ghost use Rattle.answer.specs.Output.{Puts, Room};
ghost use Rattle.answer.specs.Lines.{vertex_lines, arc_lines, refusal_bytes};
ghost use Rattle.answer.specs.Lent.{Lent, lent_state};

use bounds::{Line, Network, Text};
use judgements::LentNetwork;

// The places of the buffer that a program reads its input into: one byte more than a text may have shows that it is too long.
pub const INPUT_PLACES: usize = Text::MAX_BYTES + 1;

// The places of the output, room for the longest listing: that of a route is a line of four fields, and one more for each arc.
pub const LISTING_BYTES: usize = (1 + Network::MAX_ARCS) * (Line::BYTES + 1);

// A lent buffer, and how many bytes stand at its front.
// It is no slice that shrinks: what is put stays at the front of one buffer, and its length is the answer.
#[derive(Drop)]
struct Output<'a> {
    bytes: &'a mut [u8],
    len: usize,
}

impl Output<'_> {
    // Puts a byte.
    fn put_byte(&mut self, byte: u8)
        requires { Room self.old 1 }
        ensures { Puts self.old (byte ∷ []) self.new }
    {
        self.bytes[self.len] = byte;
        self.len += 1;
    }

    // Puts bytes.
    fn put_bytes(&mut self, bytes: &[u8])
        requires { Room self.old (length bytes.now) }
        ensures { Puts self.old bytes.now self.new }
    {
        let end = self.len + bytes.len();
        let out = &mut *self.bytes;
        out[self.len..end].copy_from_slice(bytes);
        self.len = end;
    }

    // Puts a line.
    fn put_line(&mut self, bytes: &[u8])
        requires { Room self.old (length bytes.now + 1) }
        ensures { Puts self.old (bytes.now ++ (line_end ∷ [])) self.new }
    {
        self.put_bytes(bytes);
        self.put_byte(b'\n');
    }

    // Puts a line of up to four fields of nine columns.
    fn put_fields(&mut self, numbers: &[u32])
        requires { (length numbers.now ≤ line_fields) × (Room self.old (listing_line_bytes (length numbers.now))) }
        ensures { Puts self.old (listing_line numbers.now) self.new }
    {
        let mut line = [b' '; Line::BYTES];
        for (i, x) in numbers.iter().enumerate() {
            let _ = fields::write_field(&mut line, i, *x);
        }
        self.put_line(&line[..Line::FIELD_BYTES * numbers.len()]);
    }

    // Puts the lines of the vertices 1 to n, each with its label.
    fn put_vertices(&mut self, n: u32, labels: &[u32])
        requires { (n ≤ max_vertices) × (length labels.now ≡ label_places) × (Room self.old (n * listing_line_bytes 2)) }
        ensures { Puts self.old (vertex_lines labels.now 1 n) self.new }
    {
        for v in 1..n + 1 {
            let label = labels[v as usize - 1];
            self.put_fields(&[v, label]);
        }
    }

    // Puts the lines of the first k arcs in the buffer of a route, each with its four numbers.
    fn put_arcs(&mut self, arcs: &[u32], k: usize)
        requires { (k ≤ max_arcs) × (length arcs.now ≡ route_places) × (Room self.old (k * listing_line_bytes arc_size)) }
        ensures { Puts self.old (arc_lines arcs.now 0 k) self.new }
    {
        for i in 0..k {
            let first = Network::ARC_SIZE * i;
            let end = first + Network::ARC_SIZE;
            self.put_fields(&arcs[first..end]);
        }
    }

    // Puts the decimal digits of a number: the last one behind those of the rest. Not by `write!`, which answers an error that no
    // contract rules out: a listing cannot fail.
    fn put_number(&mut self, x: u32)
        requires { Room self.old (length (decimal x)) }
        ensures { Puts self.old (decimal x) self.new }
    {
        if x < 10 {
            self.put_byte(b'0' + x as u8);
            return;
        }
        self.put_number(x / 10);
        self.put_byte(b'0' + (x % 10) as u8);
    }

    // Puts the line of a refusal, whatever its number.
    fn put_refusal(&mut self, number: u32)
        requires { Room self.old refusal_bytes }
        ensures { Puts self.old (refusal_line number) self.new }
    {
        self.put_bytes(b"refused ");
        self.put_number(number);
        self.put_byte(b'\n');
    }

    // Puts the listing of a question with no target: a line of the source and the three counts, then a line for each vertex.
    fn put_labels(&mut self, network: &LentNetwork, source: u32)
        requires { let w = network.now in Room self.old listing_places × Lent w.n w.p w.sizes.now w.vertices.now w.lengths.now source }
        ensures { let w = network.now in Puts self.old (state_listing w.n source (lent_state w.p w.sizes.now w.vertices.now w.lengths.now source)) self.new }
    {
        let mut labels = [0u32; Network::LABEL_PLACES];
        let done = engine::label_network(network, source, &mut labels);
        self.put_fields(&[source, done.reached, done.extracted, done.inserted]);
        self.put_vertices(network.n, &labels);
    }

    // Puts the listing of a question with a target: a line of the source, the target, its label and how many arcs lead there, then a
    // line for each arc.
    fn put_route(&mut self, network: &LentNetwork, source: u32, target: u32)
        requires { let w = network.now in Room self.old listing_places × Lent w.n w.p w.sizes.now w.vertices.now w.lengths.now source × (judge_target w.n target ≡ 0) }
        ensures { let w = network.now in Puts self.old (route_listing source target (lent_state w.p w.sizes.now w.vertices.now w.lengths.now source)) self.new }
    {
        let mut arcs = [0u32; Network::ROUTE_PLACES];
        let done = routes::route_network(network, source, target, &mut arcs);
        self.put_fields(&[source, target, done.label, done.arcs]);
        self.put_arcs(&arcs, done.arcs as usize);
    }
}

// Writes what the program `labels` prints for a text to the front of the output, and returns how many bytes that is; what stands
// behind them stays. An output of another size is left as it was, and 0 is returned.
pub fn write_listing(text: &[u8], out: &mut [u8]) -> usize
    ensures { record { written = result; out = out.new } ≡ write_listing text.now out.old }
{
    if out.len() != LISTING_BYTES {
        return 0;
    }
    let mut sizes = [0u32; Network::SIZE_PLACES];
    let mut vertices = [0u32; Network::VERTEX_PLACES];
    let mut lengths = [0u32; Network::LENGTH_PLACES];
    let read = text::read_text(text, &mut sizes, &mut vertices, &mut lengths);
    let mut output = Output { bytes: out, len: 0 };
    if read.number != 0 {
        output.put_refusal(read.number);
        return output.len;
    }
    let network = LentNetwork {
        n: read.n,
        p: read.p,
        sizes: &sizes,
        vertices: &vertices,
        lengths: &lengths,
    };
    if read.target == Network::NO_TARGET {
        output.put_labels(&network, read.source);
        return output.len;
    }
    output.put_route(&network, read.source, read.target);
    output.len
}

// Writes the listing of an input, however long it is, as `write_listing` does for a text. The first `read` bytes of the buffer are the
// front of the input: all of it, or as much as the buffer has places. What stands behind them does not count.
pub fn list_input(buffer: &[u8; INPUT_PLACES], read: usize, out: &mut [u8]) -> usize
    ensures listed { record { written = result; out = out.new } ≡ write_listing (take read buffer.now) out.old }
    ensures whole { (input : List ℕ) → take read buffer.now ≡ take (length buffer.now) input → record { written = result; out = out.new } ≡ write_listing input out.old }
{
    let end = read.min(INPUT_PLACES);
    write_listing(&buffer[..end], out)
}
