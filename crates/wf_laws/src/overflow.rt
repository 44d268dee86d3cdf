//! Overflow in patches: which patch names which point.

ghost use Rattle.wf_laws.specs.Stops.{NamedPointsOverflow, OwnersNameTheLeastPoint};
ghost use Rattle.wf_laws.specs.Stops.{LeastNamedIsTheOverflow, NoPatchNamesAPointBefore};
ghost use Rattle.wf_laws.specs.Stops.{OutcomeIsTheLeastNamed};

/// A point that a patch names at a phase, a start, a force or a feedback overflows there on the
/// grids too.
pub fn named_points_overflow()
    ensures { NamedPointsOverflow }
{}

/// Where an item overflows, the patch that owns the least point that overflows, by level, k, j and
/// i, names it.
pub fn owners_name_the_least_point()
    ensures { OwnersNameTheLeastPoint }
{}

/// The least point that any patch names at a place is the point that overflows there; where none
/// does, no patch names one.
pub fn least_named_is_the_overflow()
    ensures { LeastNamedIsTheOverflow }
{}

/// Before the first overflow no patch names a point.
pub fn no_patch_names_a_point_before()
    ensures { NoPatchNamesAPointBefore }
{}

/// Where a run overflows, the least point that any patch names at the first overflow's place is the
/// outcome's point.
pub fn outcome_is_the_least_named()
    ensures { OutcomeIsTheLeastNamed }
{}
