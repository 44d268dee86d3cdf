//! Laws that tie wf_rect's blocks, owners and tiles to the patches and tiles of a run.
#![tactic(auto)]

mod boxes;
mod patches;

pub use boxes::{boxes_hold_alike, meetings_are_cuts, tile_boxes_are_tiles};
pub use patches::{
    each_patch_has_its_place, own_boxes_are_blocks, own_points_are_in_patches, owners_are_alike,
    patches_are_listed_by_rows, patches_go_row_by_row,
};
