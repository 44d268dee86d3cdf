//! The owner of a point.

ghost use Rattle.std.specs.Prelude.{ℕ, ◌+◌, ◌*◌, ◌^◌, ◌<◌, ◌≤◌};
ghost use Rattle.wf_rect.specs.Blocks.{HasPoint, IsTheOne};
ghost use Rattle.wf_rect.specs.Owners.{IsInPatch};

/// The one patch, of `nx` by `ny` over a width and a height, that owns the point at `i` and `j`.
///
/// Patches are counted from 0, row by row from the south west; `i` and `j` are from 1.
pub fn owner(nx: u32, ny: u32, width: u32, height: u32, i: u32, j: u32) -> u32
    requires in_x { (1 ≤ i) × (i ≤ width) }
    requires in_y { (1 ≤ j) × (j ≤ height) }
    requires blocks_in_x { (0 < nx) × (nx ≤ width) }
    requires blocks_in_y { (0 < ny) × (ny ≤ height) }
    requires patches { nx * ny < 2 ^ 32 }
    ensures { IsTheOne (nx * ny) (λ p. IsInPatch nx ny width height p i j) result }
{
    let column = block_with(nx, width, i);
    let row = block_with(ny, height, j);
    row * nx + column
}

/// The one block of `n` over a length that has the point `i`, counted from 1.
fn block_with(n: u32, len: u32, i: u32) -> u32
    requires some { 0 < n }
    requires point { (1 ≤ i) × (i ≤ len) }
    ensures { IsTheOne n (λ p. HasPoint p n len i) result }
{
    let places = u64::from(i) * u64::from(n) - 1;
    (places / u64::from(len)) as u32
}
