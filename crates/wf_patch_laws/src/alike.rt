//! What a half sets depends on the cells that the patch keeps, and on no others.
ghost use Rattle.wf_patch_laws.specs.Alike.{PatchesComputeAlike, PatchesTakeAlike};
ghost use Rattle.wf_patch_laws.specs.Alike.{AlikeSettingsFailAlike, AlikeSettingsLeaveAlike};

/// On memories that hold alike a patch computes alike, in each phase and each swap.
pub fn patches_compute_alike()
    ensures { PatchesComputeAlike }
{}

/// On memories that hold alike a patch takes the same mail alike.
pub fn patches_take_alike()
    ensures { PatchesTakeAlike }
{}

/// Settings that set alike name the same least point, or none.
pub fn alike_settings_fail_alike()
    ensures { AlikeSettingsFailAlike }
{}

/// Settings that set alike leave memories that hold alike so.
pub fn alike_settings_leave_alike()
    ensures { AlikeSettingsLeaveAlike }
{}
