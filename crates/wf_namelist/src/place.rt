//! Where scanning stands in a text.

ghost use Rattle.std.specs.Prelude.{◌≡◌};
ghost use Rattle.wf_namelist.specs.Scanning.{apart_at, where_of};

/// Where scanning stands in a text.
#[derive(Clone, Copy)]
pub(crate) enum Place {
    /// Outside groups, where only blanks stand before in the line.
    LineBegins,
    /// Outside groups, further on in a line.
    Passing,
    InGroup,
    InComment,
}

/// Whether something parts a token that begins here from the one before.
pub(crate) fn is_apart(place: Place, apart: bool) -> bool
    ensures { result ≡ apart_at (where_of place) apart }
{
    match place {
        Place::LineBegins => true,
        Place::Passing | Place::InGroup | Place::InComment => apart,
    }
}
