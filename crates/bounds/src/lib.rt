// Numbers of documents 01 and 02 that several crates share.
#![tactic(auto)]

// The bounds of a network and the sizes of its lent buffers.
#[derive(Drop)]
pub struct Network;

impl Network {
    pub const MAX_VERTICES: u32 = 256;

    pub const MAX_PIECES: u32 = 16;

    pub const MAX_SIZE: u32 = 24;

    pub const MAX_LENGTH: u32 = 999999;

    // in place of a length, where no run exists inside the piece
    pub const NO_PATH: u32 = 4294967295;

    pub const MAX_LABEL: u32 = (Network::MAX_VERTICES - 1) * Network::MAX_LENGTH;

    // for a vertex that is not reached, and for a row that is not activated
    pub const UNREACHED: u32 = 4294967295;

    // the text reader returns it where a question has no target
    pub const NO_TARGET: u32 = 4294967295;

    // no vertex stands twice on a route
    pub const MAX_ARCS: usize = Network::MAX_VERTICES as usize - 1;

    // the numbers of an arc: from vertex, to vertex, piece, length
    pub const ARC_SIZE: usize = 4;

    // the word of a vertex that was settled by no arc; it is no arc's, since the two ends of one differ
    pub const NO_ARC: u32 = 0;

    // the places of one row
    pub const ROW_PLACES: usize = Network::MAX_SIZE as usize;

    // the places of the index of one row: a single column needs none
    pub const INDEX_PLACES: usize = Network::ROW_PLACES - 1;

    // the places of one piece's table
    pub const TABLE_PLACES: usize = Network::ROW_PLACES * Network::ROW_PLACES;

    // the sizes of all pieces
    pub const SIZE_PLACES: usize = Network::MAX_PIECES as usize;

    // the vertices of all pieces
    pub const VERTEX_PLACES: usize = Network::SIZE_PLACES * Network::ROW_PLACES;

    // the tables of all pieces
    pub const LENGTH_PLACES: usize = Network::SIZE_PLACES * Network::TABLE_PLACES;

    // the labels of all vertices
    pub const LABEL_PLACES: usize = Network::MAX_VERTICES as usize;

    // the arcs of a route
    pub const ROUTE_PLACES: usize = Network::ARC_SIZE * Network::MAX_ARCS;
}

// The bounds of a session, and the sizes of its lent buffers.
#[derive(Drop)]
pub struct Session;

impl Session {
    pub const MAX_SIDE: u32 = 24;

    pub const MAX_CALLS: u32 = 64;

    // the numbers of a call: its kind, a row, a label
    pub const CALL_SIZE: usize = 3;

    // the numbers of an answer: its code, a column, a sum
    pub const ANSWER_SIZE: usize = 3;

    // the numbers of an interval: its parent, its first and its last column, its best column and that one's sum
    pub const INTERVAL_SIZE: usize = 5;

    // the rows of the rectangle
    pub const SIDE_PLACES: usize = Session::MAX_SIDE as usize;

    pub const RECTANGLE_PLACES: usize = Session::SIDE_PLACES * Network::ROW_PLACES;

    // the index of the rectangle
    pub const INDEX_PLACES: usize = Session::SIDE_PLACES * Network::INDEX_PLACES;

    pub const CALL_PLACES: usize = Session::CALL_SIZE * Session::MAX_CALLS as usize;

    pub const ANSWER_PLACES: usize = Session::ANSWER_SIZE * Session::MAX_CALLS as usize;

    // no two intervals share a column
    pub const INTERVAL_PLACES: usize = Session::INTERVAL_SIZE * Session::SIDE_PLACES;

    // what stands where there is no interval
    pub const UNUSED: u32 = 255;
}

// The layout of a text.
#[derive(Drop)]
pub struct Text;

impl Text {
    pub const MAX_BYTES: usize = 60000;

    // the bytes of a field
    pub const FIELD_BYTES: usize = 6;

    // the bytes of a line of one field, with its byte 10
    pub const LINE_OF_ONE: usize = Text::FIELD_BYTES + 1;

    // the bytes of a line of two fields, with its byte 10
    pub const LINE_OF_TWO: usize = 2 * Text::FIELD_BYTES + 1;
}

// The layout of a line that is written.
#[derive(Drop)]
pub struct Line;

impl Line {
    // places for fields
    pub const PLACES: usize = 4;

    // the bytes of a field
    pub const FIELD_BYTES: usize = 9;

    pub const BYTES: usize = Line::PLACES * Line::FIELD_BYTES;

    // counted from 0
    pub const LAST_PLACE: usize = Line::PLACES - 1;
}
