/// A cell of a patch, at level `k` and at the place of row `j` and column `i`. Places may lie
/// outside the domain.
#[derive(Drop)]
pub struct Cell {
    pub k: u64,
    pub j: i64,
    pub i: i64,
}
