// What the labelling prepares from a lent network before its loop, in arrays that it lends. In the tables a piece that is not there, and one
// whose size is above 24, counts as empty.
#![tactic(auto)]

ghost use Rattle.std.specs.Prelude.{◌≡◌, [], ◌∷◌, pred, ◌+◌, ◌-◌, ◌*◌, ◌<◌, ◌≤◌, length, get_or, replicate};
ghost use Rattle.std.proofs.lemmas.List.Edits.{sets};
ghost use Rattle.definitions.specs.Limits.{max_size, size_places, vertex_places, row_places, length_places};
ghost use Rattle.definitions.specs.Blocks.{all_splits};
ghost use Rattle.definitions.specs.HeapWords.{heap_words};
ghost use Rattle.splits.specs.Table.{flattened, split_of};
ghost use Rattle.preparation.specs.Prepared.{size_at, matrix_row, matrix_of, filled_matrix, store_place, store_places, places_of, split_placements, piece_placements};
ghost use Rattle.preparation.specs.Prepared.{part_numbers, piece_blocks, max_blocks, max_words, split_words, place_count, part_places, Stored, parts_of};
ghost use Rattle.preparation.specs.Prepared.{firsts_of, sizes_of, vertices_of, table_count, tables_of, filled_tables};
ghost use Rattle.preparation.specs.BlockIndex.{filled_block, filled_up_to, filled_blocks};

use bounds::{Network, Session};
use splits::Split;

// The words of an interval heap: those before its intervals, those of each interval, and the marks of the columns.
// All heaps stand in one array (`heap_words`): blocks differ in their number of columns, and nothing is allocated.
#[derive(Drop)]
pub struct HeapWords;

impl HeapWords {
    // how many intervals there are
    pub const COUNT: usize = 0;

    // how many columns are reached: an activated row has a path there
    pub const REACHED: usize = 1;

    pub const HEAD: usize = 2;

    // the words of an interval: its parent, its first and its last column, its best column and that one's sum
    pub const PARENT: usize = 0;

    pub const FIRST: usize = 1;

    pub const LAST: usize = 2;

    pub const BEST_COLUMN: usize = 3;

    pub const BEST_SUM: usize = 4;

    // behind interval k stands the mark of column k: 1 if it is reached, else 0
    pub const MARK: usize = Session::INTERVAL_SIZE;

    // the words of an interval and of a mark
    pub const PLACE: usize = HeapWords::MARK + 1;
}

// How many places the arrays below have, and where each table begins in the one array of tables. It stays one array, since `fill_tables` promises what an
// array of any size becomes (`filled_tables`).
#[derive(Drop)]
pub struct Prepared;

impl Prepared {
    // the places of each vertex, linked: a word for each vertex and for each place
    const PLACES: usize = Network::LABEL_PLACES + Network::VERTEX_PLACES;

    // a piece of m places has m - 1 splits, and each gives two blocks
    const PIECE_BLOCKS: usize = 2 * (Network::ROW_PLACES - 1);

    // all blocks
    pub const BLOCKS: usize = Network::SIZE_PLACES * Prepared::PIECE_BLOCKS;

    // the numbers of a block, and of all blocks
    pub const PART: usize = 6;

    // which number is which: the first word of the heap stands first, then the first row and column in the matrix, how many columns there are, where
    // the vertex of column 0 stands, and how many rows there are
    pub const TOP: usize = 1;

    pub const COL0: usize = 2;

    pub const COLS: usize = 3;

    pub const LAST: usize = 4;

    pub const ROWS: usize = 5;

    const PARTS: usize = Prepared::PART * Prepared::BLOCKS;

    // the columns of all blocks of a piece of 24 places
    const PIECE_COLUMNS: usize = 112;

    // the words of the heaps of a piece, and of all heaps
    const PIECE_WORDS: usize = HeapWords::HEAD * Prepared::PIECE_BLOCKS
        + HeapWords::PLACE * Prepared::PIECE_COLUMNS;

    pub const WORDS: usize = Network::SIZE_PLACES * Prepared::PIECE_WORDS;

    // the numbers of the blocks stand first, behind them these
    pub const PLACES_AT: usize = Prepared::PARTS;

    // the words of the places, behind those of the vertices
    pub const NEXTS_AT: usize = Prepared::PLACES_AT + Network::LABEL_PLACES;

    pub const FIRSTS_AT: usize = Prepared::PLACES_AT + Prepared::PLACES;

    pub const SIZES_AT: usize = Prepared::FIRSTS_AT + Network::SIZE_PLACES;

    pub const VERTICES_AT: usize = Prepared::SIZES_AT + Network::SIZE_PLACES;

    pub const TABLES: usize = Prepared::VERTICES_AT + Network::VERTEX_PLACES;
}

// ---- pieces

// The size of piece d.
#[tactic(auto, unfolding(crate::specs::Prepared::size_at))]
fn size_at(p: u32, sizes: &[u32], d: usize) -> u32
    ensures { (result ≡ size_at p sizes.now d) × (result ≤ max_size) }
{
    let size = sizes.get(d).copied().unwrap_or(0);
    if d < p as usize && size <= Network::MAX_SIZE {
        size
    } else {
        0
    }
}

// ---- the matrix

// Row r of the lent lengths, backwards. A row of its own is between the two: it is apart from both, so that four places are moved at a time.
fn fill_row(row: &mut [u32; Network::ROW_PLACES], lengths: &[u32], r: usize)
    requires { (length lengths.now ≡ length_places) × (r < vertex_places) }
    ensures { row.new ≡ matrix_row lengths.now r }
{
    let from = Network::ROW_PLACES * r;
    let mut line = [0u32; Network::ROW_PLACES];
    line.copy_from_slice(&lengths[from..from + Network::ROW_PLACES]);
    for (k, place) in row.iter_mut().enumerate() {
        *place = line[Network::ROW_PLACES - 1 - k];
    }
}

// All rows of the matrix.
fn fill_rows(matrix: &mut [[u32; Network::ROW_PLACES]], lengths: &[u32])
    requires { (length matrix.old ≡ vertex_places) × (length lengths.now ≡ length_places) }
    ensures { matrix.new ≡ matrix_of lengths.now }
{
    for r in 0..Network::VERTEX_PLACES {
        fill_row(&mut matrix[r], lengths, r);
    }
}

// The tables of all pieces, one below the other, each with its columns reversed: every block is a window of this matrix. Rows are copied
// whole; no block has the places that its piece does not use. A matrix or lengths of another size leave the matrix as it is.
#[tactic(auto, unfolding(crate::specs::Prepared::filled_matrix))]
pub fn fill_matrix(matrix: &mut [[u32; Network::ROW_PLACES]], lengths: &[u32])
    ensures { matrix.new ≡ filled_matrix matrix.old lengths.now }
{
    if matrix.len() == Network::VERTEX_PLACES && lengths.len() == Network::LENGTH_PLACES {
        fill_rows(matrix, lengths);
    }
}

// ---- the places of the vertices

// Place x of all pieces comes before the places that its vertex has so far.
#[tactic(auto, unfolding(crate::specs::Prepared::store_place, definitions::specs::Lists::within))]
fn store_place(places: &mut [u32], vertices: &[u32], x: usize)
    requires { (length places.old ≡ place_count) × (x < vertex_places) }
    ensures { places.new ≡ store_place x (get_or vertices.now x 0) places.old }
{
    let v = vertices.get(x).copied().unwrap_or(0);
    if v < 1 || v > Network::MAX_VERTICES {
        return;
    }
    let first = places[v as usize - 1];
    places[Network::LABEL_PLACES + x] = first;
    places[v as usize - 1] = x as u32 + 1;
}

// The places of piece d, of size m, from the last one on.
fn store_places(places: &mut [u32], vertices: &[u32], d: usize, m: u32)
    requires { (length places.old ≡ place_count) × (d < size_places) × (m ≤ max_size) }
    ensures { places.new ≡ store_places vertices.now d m places.old m }
{
    for k in (0..m as usize).rev() {
        store_place(places, vertices, Network::ROW_PLACES * d + k);
    }
}

// The places of each vertex, linked: at v - 1 stands 1 + the first place of vertex v, at 256 + x stands 1 + the place after x of the vertex that stands
// at x, and 0 where there is none. Places are stored from the last one on, so that they rise along the links.
fn fill_places(places: &mut [u32], p: u32, sizes: &[u32], vertices: &[u32])
    requires { places.old ≡ replicate place_count 0 }
    ensures { places.new ≡ places_of p sizes.now vertices.now }
{
    for d in (0..Network::SIZE_PLACES).rev() {
        store_places(places, vertices, d, size_at(p, sizes, d));
    }
}

// ---- the numbers of the blocks

// The number of the first block of each piece.
fn fill_firsts(firsts: &mut [u32], p: u32, sizes: &[u32])
    requires { length firsts.old ≡ size_places }
    ensures { firsts.new ≡ firsts_of p sizes.now }
{
    let mut b = 0;
    for (d, first) in firsts.iter_mut().enumerate() {
        *first = b;
        b += block_count(size_at(p, sizes, d));
    }
}

// A piece of m places has m - 1 splits, and each gives two blocks.
fn block_count(m: u32) -> u32
    requires { m ≤ max_size }
    ensures { result ≡ 2 * pred m }
{
    2 * m.saturating_sub(1)
}

// A block of piece d: its rows and its columns among the places of the piece.
#[derive(Clone, Copy)]
struct Part {
    d: usize,
    row0: usize,
    rows: usize,
    col0: usize,
    cols: usize,
    ghost piece: { d < size_places },
    ghost tall: { (row0 < row_places) × (rows ≤ row_places) },
    ghost wide: { (1 ≤ cols) × (col0 + cols ≤ row_places) },
}

// The numbers of block b, whose heap begins at the word `slot`. Returns the word after that heap.
fn store_part(parts: &mut [u32], b: usize, slot: u32, part: Part) -> u32
    requires { (part_numbers * b + part_numbers ≤ length parts.old) × (slot ≤ max_words + piece_blocks * split_words) }
    ensures stored { parts.new ≡ sets parts.old (part_numbers * b) (slot ∷ (row_places * part.d + part.row0) ∷ (row_places - (part.col0 + part.cols)) ∷ part.cols ∷ (row_places * part.d + (part.col0 + part.cols - 1)) ∷ part.rows ∷ []) }
    ensures next { result ≡ slot + heap_words part.cols }
{
    let at = Prepared::PART * b;
    let top = Network::ROW_PLACES * part.d;
    let end = part.col0 + part.cols;
    parts[at] = slot;
    parts[at + Prepared::TOP] = (top + part.row0) as u32;
    parts[at + Prepared::COL0] = (Network::ROW_PLACES - end) as u32;
    parts[at + Prepared::COLS] = part.cols as u32;
    parts[at + Prepared::LAST] = (top + (end - 1)) as u32;
    parts[at + Prepared::ROWS] = part.rows as u32;
    slot + (HeapWords::HEAD + HeapWords::PLACE * part.cols) as u32
}

// The numbers of blocks b and b + 1, which a split gives.
fn store_split(parts: &mut [u32], b: usize, slot: u32, d: usize, c: Split) -> u32
    requires { (part_numbers * (b + 2) ≤ length parts.old) × (slot ≤ max_words + max_size * split_words) × (d < size_places) × (c.first < c.middle) × (c.middle < c.end) × (c.end ≤ row_places) }
    ensures { Stored parts.old parts.new b slot result (split_placements d (split_of c)) }
{
    let below = Part {
        d,
        row0: c.first,
        rows: c.middle - c.first,
        col0: c.middle,
        cols: c.end - c.middle,
    };
    let above = Part {
        d,
        row0: c.middle,
        rows: c.end - c.middle,
        col0: c.first,
        cols: c.middle - c.first,
    };
    let next = store_part(parts, b, slot, below);
    store_part(parts, b + 1, next, above)
}

// The numbers of the blocks of piece d, of size m, from block b on.
fn store_piece(parts: &mut [u32], splits: &[u8], b: usize, slot: u32, d: usize, m: usize) -> u32
    requires { (splits.now ≡ flattened all_splits) × (part_numbers * (b + 2 * pred m) ≤ length parts.old) × (slot ≤ max_words) × (d < size_places) × (m ≤ max_size) }
    ensures { Stored parts.old parts.new b slot result (piece_placements d m) }
{
    let begin = splits::first_split(m);
    let mut next = slot;
    for s in 0..m.saturating_sub(1) {
        let c = splits::split_in(splits, begin + s);
        next = store_split(parts, b + 2 * s, next, d, c);
    }
    next
}

// Six numbers for each block: the first word of its heap, its first row and its first column in the matrix, how many columns it has,
// where the vertex of its column 0 stands among the vertices of all pieces, and how many rows it has. The vertex of column k stands k
// places before that of column 0.
fn fill_parts(parts: &mut [u32], p: u32, sizes: &[u32])
    requires { parts.old ≡ replicate part_places 0 }
    ensures { parts.new ≡ parts_of p sizes.now }
{
    let splits = splits::table();
    let mut slot = 0;
    let mut b = 0;
    for d in 0..Network::SIZE_PLACES {
        let m = size_at(p, sizes, d);
        slot = store_piece(parts, &splits, b, slot, d, m as usize);
        b += block_count(m) as usize;
    }
}

// ---- the network's own numbers

// The sizes of all pieces.
fn fill_sizes(out: &mut [u32], p: u32, sizes: &[u32])
    requires { length out.old ≡ size_places }
    ensures { out.new ≡ sizes_of p sizes.now }
{
    for (d, size) in out.iter_mut().enumerate() {
        *size = size_at(p, sizes, d);
    }
}

// The vertices of all places; 0 past the end of the lent ones.
// One by one, since past the end of what is lent stands 0.
fn fill_vertices(out: &mut [u32], vertices: &[u32])
    requires { length out.old ≡ vertex_places }
    ensures { out.new ≡ vertices_of vertices.now }
{
    for (i, vertex) in out.iter_mut().enumerate() {
        *vertex = vertices.get(i).copied().unwrap_or(0);
    }
}

// ---- all tables

// The tables, one behind the other, in an array of zeros.
fn store_tables(tables: &mut [u32], p: u32, sizes: &[u32], vertices: &[u32])
    requires { tables.old ≡ replicate table_count 0 }
    ensures { tables.new ≡ tables_of p sizes.now vertices.now }
{
    fill_parts(&mut tables[0..Prepared::PLACES_AT], p, sizes);
    fill_places(
        &mut tables[Prepared::PLACES_AT..Prepared::FIRSTS_AT],
        p,
        sizes,
        vertices,
    );
    fill_firsts(
        &mut tables[Prepared::FIRSTS_AT..Prepared::SIZES_AT],
        p,
        sizes,
    );
    fill_sizes(
        &mut tables[Prepared::SIZES_AT..Prepared::VERTICES_AT],
        p,
        sizes,
    );
    fill_vertices(
        &mut tables[Prepared::VERTICES_AT..Prepared::TABLES],
        vertices,
    );
}

// What the loop reads beside the matrix, in one array that is cleared first, each table behind those before it: the numbers of the blocks, the places of the
// vertices, linked, the first blocks and the sizes of the pieces, and the vertices of all pieces. An array of another
// size is left as it is. These parts of a network stay apart: their struct, `LentNetwork`, has two more, and is of a crate that nothing else is needed from.
#[tactic(auto, unfolding(crate::specs::Prepared::filled_tables))]
pub fn fill_tables(tables: &mut [u32], p: u32, sizes: &[u32], vertices: &[u32])
    ensures { tables.new ≡ filled_tables tables.old p sizes.now vertices.now }
{
    if tables.len() == Prepared::TABLES {
        tables.fill(0);
        store_tables(tables, p, sizes, vertices);
    }
}

// ---- the index of the blocks

// The index of the rows of block b. One column needs none, and a block whose rows leave the arrays is left out.
fn fill_block(
    index: &mut [[u8; Network::INDEX_PLACES]],
    matrix: &[[u32; Network::ROW_PLACES]],
    tables: &[u32],
    b: usize,
)
    requires { (b < max_blocks) × (length tables.now ≡ table_count) }
    ensures { index.new ≡ filled_block matrix.now tables.now index.old b }
{
    let at = Prepared::PART * b;
    let cols = tables[at + Prepared::COLS] as usize;
    if cols < 2 {
        return;
    }
    let top = tables[at + Prepared::TOP] as usize;
    let bottom = top + tables[at + Prepared::ROWS] as usize;
    if bottom > index.len() || bottom > matrix.len() {
        return;
    }
    let col0 = tables[at + Prepared::COL0] as usize;
    index::fill_index(&mut index[top..bottom], &matrix[top..bottom], col0, cols);
}

// The blocks one after the other.
fn fill_blocks(
    index: &mut [[u8; Network::INDEX_PLACES]],
    matrix: &[[u32; Network::ROW_PLACES]],
    tables: &[u32],
)
    requires { length tables.now ≡ table_count }
    ensures { index.new ≡ filled_up_to matrix.now tables.now index.old max_blocks }
{
    for b in 0..Prepared::BLOCKS {
        fill_block(index, matrix, tables, b);
    }
}

// The index of the rows of all blocks, from the numbers of the blocks in the tables; the rest of the index stays. No two blocks have a row and a column in common, so
// that each keeps its places. Arrays of another size leave the index as it is.
#[tactic(auto, unfolding(crate::specs::BlockIndex::filled_blocks))]
pub fn fill_index(
    index: &mut [[u8; Network::INDEX_PLACES]],
    matrix: &[[u32; Network::ROW_PLACES]],
    tables: &[u32],
)
    ensures { index.new ≡ filled_blocks index.old matrix.now tables.now }
{
    if index.len() == Network::VERTEX_PLACES
        && matrix.len() == Network::VERTEX_PLACES
        && tables.len() == Prepared::TABLES
    {
        fill_blocks(index, matrix, tables);
    }
}
