/// A demo as its words ask for it: points in x and y, steps, patches in x, and whether each patch's
/// memory is printed.
#[derive(Clone, Copy, Debug)]
pub struct Demo {
    pub nx: u32,
    pub ny: u32,
    pub steps: u32,
    pub px: u32,
    pub each: bool,
}
