use wf_model::{Field, List};

/// The field levels of a config, in Registry order, and of each its extent in z as a number with
/// its sign, which may be below 1.
#[derive(Drop)]
pub struct Levels {
    pub fields: List<Field>,
    pub extents: List<i64>,
}
