// The halving of a piece as a list of constants: every split of every size that a piece may have.
#![tactic(auto)]

ghost use Rattle.std.specs.Prelude.{◌≡◌};
ghost use Rattle.definitions.specs.Blocks.{all_splits};
ghost use Rattle.splits.specs.Table.{flattened, split_in, first_split};

use bounds::Network;

// A stretch of places, `first` up to `end`, cut at `middle`.
#[derive(Clone, Copy)]
pub struct Split {
    pub first: usize,
    pub middle: usize,
    pub end: usize,
}

// First place, middle and end of each split, one group of lines for each size from 2 on; a piece of one place has none.
#[rattlefmt::skip]
const SPLITS: [u8; PLACES] = [
    0, 1, 2,  // 2
    0, 1, 3,  1, 2, 3,  // 3
    0, 2, 4,  0, 1, 2,  2, 3, 4,  // 4
    0, 2, 5,  0, 1, 2,  2, 3, 5,  3, 4, 5,  // 5
    0, 3, 6,  0, 1, 3,  1, 2, 3,  3, 4, 6,  4, 5, 6,  // 6
    0, 3, 7,  0, 1, 3,  1, 2, 3,  3, 5, 7,  3, 4, 5,  5, 6, 7,  // 7
    0, 4, 8,  0, 2, 4,  0, 1, 2,  2, 3, 4,  4, 6, 8,  4, 5, 6,  6, 7, 8,  // 8
    0, 4, 9,  0, 2, 4,  0, 1, 2,  2, 3, 4,  4, 6, 9,  4, 5, 6,  6, 7, 9,  7, 8, 9,  // 9
    0, 5, 10,  0, 2, 5,  0, 1, 2,  2, 3, 5,  3, 4, 5,  5, 7, 10,  5, 6, 7,  7, 8, 10,
    8, 9, 10,  // 10
    0, 5, 11,  0, 2, 5,  0, 1, 2,  2, 3, 5,  3, 4, 5,  5, 8, 11,  5, 6, 8,  6, 7, 8,
    8, 9, 11,  9, 10, 11,  // 11
    0, 6, 12,  0, 3, 6,  0, 1, 3,  1, 2, 3,  3, 4, 6,  4, 5, 6,  6, 9, 12,  6, 7, 9,
    7, 8, 9,  9, 10, 12,  10, 11, 12,  // 12
    0, 6, 13,  0, 3, 6,  0, 1, 3,  1, 2, 3,  3, 4, 6,  4, 5, 6,  6, 9, 13,  6, 7, 9,
    7, 8, 9,  9, 11, 13,  9, 10, 11,  11, 12, 13,  // 13
    0, 7, 14,  0, 3, 7,  0, 1, 3,  1, 2, 3,  3, 5, 7,  3, 4, 5,  5, 6, 7,  7, 10, 14,
    7, 8, 10,  8, 9, 10,  10, 12, 14,  10, 11, 12,  12, 13, 14,  // 14
    0, 7, 15,  0, 3, 7,  0, 1, 3,  1, 2, 3,  3, 5, 7,  3, 4, 5,  5, 6, 7,  7, 11, 15,
    7, 9, 11,  7, 8, 9,  9, 10, 11,  11, 13, 15,  11, 12, 13,  13, 14, 15,  // 15
    0, 8, 16,  0, 4, 8,  0, 2, 4,  0, 1, 2,  2, 3, 4,  4, 6, 8,  4, 5, 6,  6, 7, 8,
    8, 12, 16,  8, 10, 12,  8, 9, 10,  10, 11, 12,  12, 14, 16,  12, 13, 14,  14, 15, 16,  // 16
    0, 8, 17,  0, 4, 8,  0, 2, 4,  0, 1, 2,  2, 3, 4,  4, 6, 8,  4, 5, 6,  6, 7, 8,
    8, 12, 17,  8, 10, 12,  8, 9, 10,  10, 11, 12,  12, 14, 17,  12, 13, 14,  14, 15, 17,  15, 16, 17,  // 17
    0, 9, 18,  0, 4, 9,  0, 2, 4,  0, 1, 2,  2, 3, 4,  4, 6, 9,  4, 5, 6,  6, 7, 9,
    7, 8, 9,  9, 13, 18,  9, 11, 13,  9, 10, 11,  11, 12, 13,  13, 15, 18,  13, 14, 15,  15, 16, 18,
    16, 17, 18,  // 18
    0, 9, 19,  0, 4, 9,  0, 2, 4,  0, 1, 2,  2, 3, 4,  4, 6, 9,  4, 5, 6,  6, 7, 9,
    7, 8, 9,  9, 14, 19,  9, 11, 14,  9, 10, 11,  11, 12, 14,  12, 13, 14,  14, 16, 19,  14, 15, 16,
    16, 17, 19,  17, 18, 19,  // 19
    0, 10, 20,  0, 5, 10,  0, 2, 5,  0, 1, 2,  2, 3, 5,  3, 4, 5,  5, 7, 10,  5, 6, 7,
    7, 8, 10,  8, 9, 10,  10, 15, 20,  10, 12, 15,  10, 11, 12,  12, 13, 15,  13, 14, 15,  15, 17, 20,
    15, 16, 17,  17, 18, 20,  18, 19, 20,  // 20
    0, 10, 21,  0, 5, 10,  0, 2, 5,  0, 1, 2,  2, 3, 5,  3, 4, 5,  5, 7, 10,  5, 6, 7,
    7, 8, 10,  8, 9, 10,  10, 15, 21,  10, 12, 15,  10, 11, 12,  12, 13, 15,  13, 14, 15,  15, 18, 21,
    15, 16, 18,  16, 17, 18,  18, 19, 21,  19, 20, 21,  // 21
    0, 11, 22,  0, 5, 11,  0, 2, 5,  0, 1, 2,  2, 3, 5,  3, 4, 5,  5, 8, 11,  5, 6, 8,
    6, 7, 8,  8, 9, 11,  9, 10, 11,  11, 16, 22,  11, 13, 16,  11, 12, 13,  13, 14, 16,  14, 15, 16,
    16, 19, 22,  16, 17, 19,  17, 18, 19,  19, 20, 22,  20, 21, 22,  // 22
    0, 11, 23,  0, 5, 11,  0, 2, 5,  0, 1, 2,  2, 3, 5,  3, 4, 5,  5, 8, 11,  5, 6, 8,
    6, 7, 8,  8, 9, 11,  9, 10, 11,  11, 17, 23,  11, 14, 17,  11, 12, 14,  12, 13, 14,  14, 15, 17,
    15, 16, 17,  17, 20, 23,  17, 18, 20,  18, 19, 20,  20, 21, 23,  21, 22, 23,  // 23
    0, 12, 24,  0, 6, 12,  0, 3, 6,  0, 1, 3,  1, 2, 3,  3, 4, 6,  4, 5, 6,  6, 9, 12,
    6, 7, 9,  7, 8, 9,  9, 10, 12,  10, 11, 12,  12, 18, 24,  12, 15, 18,  12, 13, 15,  13, 14, 15,
    15, 16, 18,  16, 17, 18,  18, 21, 24,  18, 19, 21,  19, 20, 21,  21, 22, 24,  22, 23, 24,  // 24
];

// How many splits the list has: m - 1 for each size m. Each is three numbers.
const COUNT: usize = Network::ROW_PLACES * (Network::ROW_PLACES - 1) / 2;

const PLACES: usize = 3 * COUNT;

// The list itself. A constant is copied at each use: a caller copies it once and lends it to `split_in`. It stays flat, since `table` and `split_in` promise for
// bytes, a list of any length too.
pub fn table() -> [u8; PLACES]
    ensures { result ≡ flattened all_splits }
{
    SPLITS
}

// Split k of a lent list; past the list's end each place is 0.
pub fn split_in(list: &[u8], k: usize) -> Split
    ensures { result ≡ split_in list.now k }
{
    if k < list.len() / 3 {
        Split {
            first: list[3 * k] as usize,
            middle: list[3 * k + 1] as usize,
            end: list[3 * k + 2] as usize,
        }
    } else {
        Split {
            first: 0,
            middle: 0,
            end: 0,
        }
    }
}

// Where the splits of a piece of m places begin in the list: there are m - 1 of them. The list's end for a size that it does not have.
pub fn first_split(m: usize) -> usize
    ensures { result ≡ first_split m }
{
    if m < 1 {
        return COUNT;
    }
    if m > Network::ROW_PLACES {
        return COUNT;
    }
    let k = m - 1;
    (k * k - k) / 2
}
