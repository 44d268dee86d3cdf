//! Laws that the calls of patches and boards rest on: what a patch's memory shows, what its halves
//! read and set, which events are offered, and what the memory report tells of.
//!
//! Each function here has a theorem as its contract, and no body. The statements stand in `specs/`.
#![tactic(auto)]

mod alike;
mod functions;
mod memory;
mod offered;
mod reach;
mod report;
mod shown;

pub use alike::{
    alike_settings_fail_alike, alike_settings_leave_alike, patches_compute_alike,
    patches_take_alike,
};
pub use functions::{
    feedbacks_ask_accepted, grids_stay_short, mail_stays_short, patches_ask_accepted,
    patches_feed_accepted, patches_stay_short, starts_ask_accepted,
};
pub use memory::{
    cells_have_places, lists_are_summed, lists_have_all_cells, lists_have_the_cells_in_order,
    lists_of_the_cells_show, memories_are_shown_alike, numbers_are_read_at_places, one_cell_is_set,
    places_tell_cells, settings_are_shown,
};
pub use offered::{
    enabled_events_are_offered, ends_offer_nothing, mail_is_counted, offers_come_or_stop,
    offers_stay, one_of_three_comes, patches_go_on_where_offered, positions_only_grow,
};
pub use reach::{
    feedbacks_set_kept_places, fetched_cells_are_kept, forces_set_kept_places,
    messages_carry_kept_cells, own_cells_are_kept, phases_read_kept_cells, phases_set_kept_cells,
    senders_read_own_cells, starts_set_kept_places,
};
pub use report::{
    front_depends_on_the_split, report_depends_on_the_split, threads_answer_as_serial,
};
pub use shown::{
    lists_compute_as_the_memory, lists_post_as_the_memory, lists_send_as_the_memory,
    lists_take_as_the_memory,
};
