// Rows of values, and what stands at their places.

// The value at a place of a row, `none` past its end.
pub(crate) fn at<T: Copy>(row: &[T], i: usize, none: T) -> T {
    row.get(i).copied().unwrap_or(none)
}

// The value at place j of row i, `none` where there is no such place.
pub(crate) fn entry<T: Copy, const N: usize>(rows: &[[T; N]], i: usize, j: usize, none: T) -> T {
    rows.get(i).map_or(none, |row| at(row, j, none))
}
