//! Blocks of a length, boxes of points, and who owns a point.
//!
//! Blocks, patches, tiles and the places of a length are counted from 0, and the points that
//! [`owner`] takes from 1. A [`Rect`] is a box of points in x and y, and a [`Region`] a box at some
//! levels. Each span of numbers is told by its first one and the one behind its last.
//!
//! No call takes memory.
#![tactic(auto)]

mod blocks;
mod laws;
mod owners;
mod rects;

pub use blocks::block;
pub use laws::{
    blocks_are_disjoint_and_complete, meetings_are_intersections, points_have_one_owner,
    tiles_are_disjoint_and_complete, tiles_are_inside, worked_cases,
};
pub use owners::owner;
pub use rects::{Rect, Region, meet, tile_of};
