//! The most that there may be of what is limited, by this project's own rules.

/// Domains of a run.
pub const DOMAINS: u32 = 8;
/// Field levels of a plan.
pub const FIELD_LEVELS: u128 = 64;
/// Items of a stencil table.
pub const TABLE_ITEMS: usize = 256;
/// Nodes of an expression, and its depth.
pub const NODES: u32 = 1_024;

pub const DEPTH: u32 = 64;
/// Arguments of a call.
pub const ARGUMENTS: u32 = 8;
/// How far off a read may be in x or y.
pub const OFFSET: u64 = 6;
/// How many cells around its own a patch may compute.
pub const EXTEND: u64 = 6;
/// The width of a margin.
pub const MARGIN: u32 = 12;
/// e_we and e_sn.
pub const EXTENT: u32 = 2_000;
/// e_vert, and any extent in z.
pub const EXTENT_IN_Z: u32 = 128;
/// Cells of all whole domains and levels.
pub const CELLS: u128 = 50_000_000;
/// Cells of the memories of all patches.
pub const MEMORY_CELLS: u64 = 150_000_000;
/// Patches of a domain.
pub const PATCHES: u32 = 256;
/// Tiles of a patch.
pub const TILES: u32 = 64;
/// Nest points for a parent's cell in a direction, and nest steps for a parent's step.
pub const GRID_RATIO: u32 = 15;

pub const TIME_RATIO: u32 = 16;
/// Groups of quilt servers, and servers of a group.
pub const GROUPS: u32 = 16;

pub const SERVERS: u32 = 16;
/// Workers of a run.
pub const WORKERS: u32 = 64;
/// Items of a script.
pub const SCRIPT_ITEMS: u128 = 1_000_000;
/// Events of a run.
pub const EVENTS: u64 = 20_000_000;
/// Bytes of a file of version 1.
pub const FILE_BYTES: u64 = 2_147_483_644;
/// Files of a Registry, and its logical lines.
pub const REGISTRY_FILES: u32 = 64;

pub const REGISTRY_LINES: u32 = 100_000;
/// Values of a namelist's item.
pub const NAMELIST_VALUES: u128 = 21;

/// History and auxiliary streams, numbered from 0; the stream of restart files has the next number.
pub const STREAMS: u32 = 10;

pub const RESTART_STREAM: u32 = 10;
