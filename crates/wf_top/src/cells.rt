//! Numbers in rows and columns, both counted from 0, row by row in one slice.

ghost use Rattle.std.specs.Prelude.{◌≡◌, ◌≢◌, ℕ, ◌+◌, ◌-◌, ◌*◌, ◌%◌, ◌<◌, ◌≤◌, length, pos};
ghost use Rattle.std.specs.Prelude.{unsigned_abs, slice_index_or};
ghost use Rattle.wf_top.specs.Cells.{cell, mean_at, next_at, first_at, AreSmall};

/// The number at a place, without its sign.
pub fn size_at(values: &[i32], place: usize) -> u32
    requires { place < length values.now }
    ensures { result ≡ unsigned_abs (slice_index_or values.now place (pos 0)) }
{
    values[place].unsigned_abs()
}

// The mean of a cell, which has a weight of four, and its four neighbours.
fn mean_at(values: &[i32], width: usize, r: usize, c: usize) -> u32
    requires place { (0 < c) × (c + 1 < width) × (0 < r) }
    requires rows { (r + 2) * width ≤ length values.now }
    requires small { AreSmall values.now width (r + 2) }
    ensures value { result ≡ mean_at values.now width r c }
    ensures small { result < 100 }
{
    let place = r * width + c;
    let sum = 4 * size_at(values, place)
        + size_at(values, place - 1)
        + size_at(values, place + 1)
        + size_at(values, place - width)
        + size_at(values, place + width);
    sum / 8
}

// A row after a step, but for its first and last cell.
fn next_row(values: &[i32], next: &mut [i32], width: usize, r: usize)
    requires row { (0 < r) × (0 < width) }
    requires rows { (r + 2) * width ≤ length values.now }
    requires same { length next.old ≡ length values.now }
    requires small { AreSmall values.now width (r + 2) }
    ensures inside { (c : ℕ) → 0 < c → c + 1 < width
        → cell next.new width r c ≡ pos (mean_at values.now width r c) }
    ensures ends { (c : ℕ) → c < width → width ≤ c + 1
        → cell next.new width r c ≡ cell next.old width r c }
    ensures first { cell next.new width r 0 ≡ cell next.old width r 0 }
    ensures others { (s c : ℕ) → c < width → s ≢ r
        → cell next.new width s c ≡ cell next.old width s c }
{
    for c in 1..width - 1 {
        next[r * width + c] = mean_at(values, width, r, c) as i32;
    }
}

/// The cells of all rows after a step: those of the border keep their numbers.
pub fn next_cells(values: &[i32], next: &mut [i32], width: usize, rows: usize)
    requires some { (0 < rows) × (0 < width) }
    requires rows { length values.now ≡ rows * width }
    requires same { length next.old ≡ length values.now }
    requires small { AreSmall values.now width rows }
    ensures { (r c : ℕ) → r < rows → c < width
        → cell next.new width r c ≡ next_at values.now width rows r c }
{
    next.copy_from_slice(values);
    for r in 1..rows - 1 {
        next_row(values, next, width, r);
    }
}

// A row before the first step, where `from` columns of the domain stand before it.
fn first_row(values: &mut [i32], width: usize, r: usize, from: usize)
    requires size { (r < 1000) × (from + width < 1000) }
    requires rows { (r + 1) * width ≤ length values.old }
    ensures row { (c : ℕ) → c < width → cell values.new width r c ≡ pos (first_at r (from + c)) }
    ensures others { (s c : ℕ) → c < width → s ≢ r
        → cell values.new width s c ≡ cell values.old width s c }
{
    for c in 0..width {
        values[r * width + c] = ((37 * (from + c) + 53 * r) % 100) as i32;
    }
}

/// The cells of all rows before the first step.
pub fn first_cells(values: &mut [i32], width: usize, rows: usize, from: usize)
    requires size { (rows < 1000) × (from + width < 1000) }
    requires rows { length values.old ≡ rows * width }
    ensures { (r c : ℕ) → r < rows → c < width
        → cell values.new width r c ≡ pos (first_at r (from + c)) }
{
    for r in 0..rows {
        first_row(values, width, r, from);
    }
}

/// Copies a column of cells out.
pub fn read_column(values: &[i32], width: usize, c: usize, column: &mut [i32])
    requires place { c < width }
    requires rows { length values.now ≡ length column.old * width }
    ensures { (r : ℕ) → r < length column.new
        → slice_index_or column.new r (pos 0) ≡ cell values.now width r c }
{
    for r in 0..column.len() {
        column[r] = values[r * width + c];
    }
}

/// Copies a column of cells in.
pub fn write_column(values: &mut [i32], width: usize, c: usize, column: &[i32])
    requires place { c < width }
    requires rows { length values.old ≡ length column.now * width }
    ensures column { (r : ℕ) → r < length column.now
        → cell values.new width r c ≡ slice_index_or column.now r (pos 0) }
    ensures others { (r q : ℕ) → r < length column.now → q < width → q ≢ c
        → cell values.new width r q ≡ cell values.old width r q }
{
    for r in 0..column.len() {
        values[r * width + c] = column[r];
    }
}
