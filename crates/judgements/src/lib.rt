// The judgements of documents 01 and 02 on a piece, a network and a question, each of which turns nothing away or gives the cause.
#![tactic(auto)]

ghost use Rattle.std.specs.Prelude.{◌≡◌, ◌≤◌, ◌<◌, length, cond};
ghost use Rattle.definitions.specs.Limits.{max_pieces, max_size, size_places, vertex_places, length_places, table_places};
ghost use Rattle.definitions.specs.Lists.{every, within};
ghost use Rattle.definitions.specs.Metres.{is_length};
ghost use Rattle.definitions.specs.Causes.{number_of, verdict};
ghost use Rattle.definitions.specs.Judgement.{judge_bounds, judge_size, judge_vertices, judge_row, judge_rows, judge_from, judge_source, judge_target};
ghost use Rattle.definitions.specs.Entries.{judge_buffers, judge_lent};
ghost use Rattle.monge.specs.Matrix.{rows_in};
ghost use Rattle.judgements.specs.LentPieces.{judge_table, judge_piece_in};

use bounds::Network;
use definitions::Cause;

// ---- numbers

// Whether x lies from 1 to a bound.
#[tactic(auto, unfolding(definitions::specs::Lists::within))]
pub fn is_within(bound: u32, x: u32) -> bool
    ensures { result ≡ within bound x }
{
    1 <= x && x <= bound
}

// The cause where what is asked does not hold.
pub fn require(holds: bool, cause: Cause) -> Result<(), Cause>
    ensures { verdict result ≡ cond holds 0 (number_of cause) }
{
    if holds { Ok(()) } else { Err(cause) }
}

// n and p, else 4.
#[tactic(auto, unfolding(definitions::specs::Judgement::judge_bounds))]
pub fn judge_bounds(n: u32, p: u32) -> Result<(), Cause>
    ensures { verdict result ≡ judge_bounds n p }
{
    require(
        is_within(Network::MAX_VERTICES, n) && is_within(Network::MAX_PIECES, p),
        Cause::Bounds,
    )
}

// The size of a piece, else 4.
#[tactic(auto, unfolding(definitions::specs::Judgement::judge_size))]
pub fn judge_size(m: u32) -> Result<(), Cause>
    ensures { verdict result ≡ judge_size m }
{
    require(is_within(Network::MAX_SIZE, m), Cause::Bounds)
}

// The source, else 8.
#[tactic(auto, unfolding(definitions::specs::Judgement::judge_source))]
pub fn judge_source(n: u32, source: u32) -> Result<(), Cause>
    ensures { verdict result ≡ judge_source n source }
{
    require(is_within(n, source), Cause::Source)
}

// The target, else 12.
#[tactic(auto, unfolding(definitions::specs::Judgement::judge_target))]
pub fn judge_target(n: u32, target: u32) -> Result<(), Cause>
    ensures { verdict result ≡ judge_target n target }
{
    require(is_within(n, target), Cause::Target)
}

// ---- the lines of a piece

// The vertices of a piece, else 5: each lies from 1 to n and is not among those after it.
pub fn judge_vertices(n: u32, vertices: &[u32]) -> Result<(), Cause>
    ensures { verdict result ≡ judge_vertices n vertices.now }
{
    for (i, v) in vertices.iter().enumerate() {
        require(
            is_within(n, *v) && !vertices[i + 1..].contains(v),
            Cause::Vertex,
        )?;
    }
    Ok(())
}

// Whether a table may hold a length: a number within the limit, or no path.
#[tactic(auto, unfolding(definitions::specs::Metres::is_length))]
pub fn is_length(l: u32) -> bool
    ensures { result ≡ is_length l }
{
    (l <= Network::MAX_LENGTH) | (l == Network::NO_PATH)
}

// Whether a table may hold every length of a row. All are looked at, behind one that it may not too: a loop that goes to its end is compiled to take four
// at a time.
fn lengths_fit(row: &[u32]) -> bool
    ensures { result ≡ every is_length row.now }
{
    row.iter().copied().fold(true, |fit, l| fit & is_length(l))
}

// Row i of a table, else 6. A row with no place i has nothing on the diagonal.
pub fn judge_row(i: usize, row: &[u32]) -> Result<(), Cause>
    ensures { verdict result ≡ judge_row i row.now }
{
    require(
        lengths_fit(row) && (i >= row.len() || row[i] == 0),
        Cause::Length,
    )
}

// ---- the blocks of a piece

// The blocks of a piece of size m whose table stands in the places of one table, else 7.
pub fn judge_blocks(m: u32, lengths: &[u32]) -> Result<(), Cause>
    ensures { verdict result ≡ judge_table m lengths.now }
{
    require(lengths.len() == Network::TABLE_PLACES, Cause::Buffer)?;
    judge_size(m)?;
    require(monge::table_is_monge(lengths, m as usize), Cause::Block)
}

// ---- a piece and a network in lent buffers

// The rows of a table of size m, in the places of one table.
fn judge_rows(m: usize, lengths: &[u32]) -> Result<(), Cause>
    requires { (m ≤ max_size) × (length lengths.now ≡ table_places) }
    ensures { verdict result ≡ judge_rows 0 (rows_in m lengths.now) }
{
    for i in 0..m {
        let start = Network::ROW_PLACES * i;
        judge_row(i, &lengths[start..start + m])?;
    }
    Ok(())
}

// A piece of size m in a network of n vertices, in the places of one row and of one table.
pub fn judge_piece(n: u32, m: u32, vertices: &[u32], lengths: &[u32]) -> Result<(), Cause>
    ensures { verdict result ≡ judge_piece_in n m vertices.now lengths.now }
{
    require(
        vertices.len() == Network::ROW_PLACES && lengths.len() == Network::TABLE_PLACES,
        Cause::Buffer,
    )?;
    judge_size(m)?;
    let used = m as usize;
    judge_vertices(n, &vertices[..used])?;
    judge_rows(used, lengths)?;
    judge_blocks(m, lengths)
}

// How many places the lent buffers of a network have.
#[tactic(auto, unfolding(definitions::specs::Entries::judge_buffers))]
pub fn judge_buffers(sizes: usize, vertices: usize, lengths: usize) -> Result<(), Cause>
    ensures { verdict result ≡ judge_buffers sizes vertices lengths }
{
    require(
        sizes == Network::SIZE_PLACES
            && vertices == Network::VERTEX_PLACES
            && lengths == Network::LENGTH_PLACES,
        Cause::Buffer,
    )
}

// A network in lent buffers: n vertices and p pieces, their sizes, their vertices and their tables.
#[derive(Clone, Copy)]
pub struct LentNetwork<'a> {
    pub n: u32,
    pub p: u32,
    pub sizes: &'a [u32],
    pub vertices: &'a [u32],
    pub lengths: &'a [u32],
}

// The pieces of a network, in order.
fn judge_pieces(network: &LentNetwork) -> Result<(), Cause>
    requires { (network.now.p ≤ max_pieces)
        × (length network.now.sizes.now ≡ size_places)
        × (length network.now.vertices.now ≡ vertex_places)
        × (length network.now.lengths.now ≡ length_places) }
    ensures { verdict result ≡ judge_from network.now.n network.now.sizes.now network.now.vertices.now network.now.lengths.now 0 network.now.p }
{
    for d in 0..network.p as usize {
        let v = Network::ROW_PLACES * d;
        let l = Network::TABLE_PLACES * d;
        judge_piece(
            network.n,
            network.sizes[d],
            &network.vertices[v..v + Network::ROW_PLACES],
            &network.lengths[l..l + Network::TABLE_PLACES],
        )?;
    }
    Ok(())
}

// A network in its lent buffers: piece by piece, and no place that its sizes do not use is read.
pub fn judge_network(network: &LentNetwork) -> Result<(), Cause>
    ensures { verdict result ≡ judge_lent network.now.n network.now.p network.now.sizes.now network.now.vertices.now network.now.lengths.now }
{
    judge_buffers(
        network.sizes.len(),
        network.vertices.len(),
        network.lengths.len(),
    )?;
    judge_bounds(network.n, network.p)?;
    judge_pieces(network)
}
