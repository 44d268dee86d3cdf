//! Whether the fields of a plan are within their ranges.

ghost use Rattle.std.specs.Prelude.{◌↔◌, All, IsTrue};
ghost use Rattle.wf_model.specs.Letters.{is_name};
ghost use Rattle.wf_model.specs.Ranges.{IsRangedField};
ghost use Rattle.wf_plan_limits.specs.FieldRanges.{HasRangedLevels, HasNamedDims, HasRangedTexts};

use wf_model::limits::EXTENT_IN_Z;
use wf_model::{Field, Name};

/// The most bytes of a description, or of units.
const MOST_TEXT: usize = 256;

/// The streams but for that of restart files have a bit each.
const STREAM_BITS: u16 = 1024;

/// A field has 1 to 128 levels in z; one without a z letter has one, and isn't staggered in z.
fn has_ranged_levels(field: &Field) -> bool
    ensures { IsTrue result ↔ HasRangedLevels field.now }
{
    1 <= field.nz && field.nz <= EXTENT_IN_Z && (field.z || (field.nz == 1 && !field.stag_z))
}

fn has_named_dims(field: &Field) -> bool
    ensures { IsTrue result ↔ HasNamedDims field.now }
{
    Name::is_name(field.x_name.as_slice())
        && Name::is_name(field.y_name.as_slice())
        && (!field.z || Name::is_name(field.z_name.as_slice()))
}

fn has_ranged_texts(field: &Field) -> bool
    ensures { IsTrue result ↔ HasRangedTexts field.now }
{
    field.streams < STREAM_BITS
        && field.description.as_slice().len() <= MOST_TEXT
        && field.units.as_slice().len() <= MOST_TEXT
}

/// Whether a field is within its ranges. Its own names are names by their type.
fn is_ranged(field: &Field) -> bool
    ensures { IsTrue result ↔ IsRangedField field.now }
{
    prove!(Name::is_name(field.name.as_slice()));
    prove!(Name::is_name(field.dname.as_slice()));
    has_ranged_levels(field) && has_named_dims(field) && has_ranged_texts(field)
}

/// Whether all fields are within their ranges.
pub(crate) fn are_ranged(fields: &[Field]) -> bool
    ensures { IsTrue result ↔ All IsRangedField fields.now }
{
    fields.iter().all(is_ranged)
}
