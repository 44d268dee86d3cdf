//! Names that need no entry of the Registry.

ghost use Rattle.std.specs.Prelude.{◌≡◌};
ghost use Rattle.wf_model.specs.BuiltIns.{is_built_in};

/// The names of WRF's namelist that this project knows without an entry, in the order of
/// their rules.
const BUILT_INS: &[u8] =
    b"run_days run_hours run_minutes run_seconds start_year start_month start_day start_hour \
    start_minute start_second input_from_file history_interval auxhist1_interval auxhist2_interval \
    auxhist3_interval auxhist4_interval auxhist5_interval auxhist6_interval auxhist7_interval \
    auxhist8_interval auxhist9_interval frames_per_outfile frames_per_auxhist1 frames_per_auxhist2 \
    frames_per_auxhist3 frames_per_auxhist4 frames_per_auxhist5 frames_per_auxhist6 \
    frames_per_auxhist7 frames_per_auxhist8 frames_per_auxhist9 restart restart_interval time_step \
    max_dom e_we e_sn e_vert parent_id i_parent_start j_parent_start parent_grid_ratio \
    parent_time_step_ratio feedback smooth_option nproc_x nproc_y numtiles spec_bdy_width \
    periodic_x periodic_y nio_tasks_per_group nio_groups quilt_depth io_form_history \
    io_form_restart io_form_input io_form_boundary s_we s_sn s_vert time_step_fract_num end_year \
    end_month end_day end_hour end_minute end_second interval_seconds debug_level \
    time_step_fract_den grid_id dx dy";

/// Whether a name is known without an entry of the Registry.
pub(crate) fn is_built_in(name: &[u8]) -> bool
    ensures { result ≡ is_built_in name.now }
{
    BUILT_INS
        .split(|b| *b == b' ')
        .any(|built_in| built_in == name)
}
