//! Laws of the config: what a Registry and a namelist give is in range. They are said of each
//! Registry, each namelist and each config that `config_of` gives of them, so of what `bind` gives.
#![tactic(auto)]

ghost use Rattle.wf_config_laws.specs.Layouts.{LayoutsAreRanged};
ghost use Rattle.wf_config_laws.specs.RangedValues.{BoundValuesAreInRange};
ghost use Rattle.wf_config_laws.specs.SoundDomains.{DomainsAreRanged, BoundDomainsAreRanged};

/// Each built-in name that has a range has a whole number in it, given or by default: for each of
/// the domains 1 to max_dom where the name has a value for each, else once. -1 leaves nproc_x and
/// nproc_y open.
pub fn bound_values_are_in_range()
    ensures { BoundValuesAreInRange }
{}

/// Where the values of a config are in their ranges and no test of domains and times fails, the
/// domains and times of its plan are in their ranges, and each nest fits its parent, whatever the
/// table's items.
pub fn domains_are_ranged()
    ensures { DomainsAreRanged }
{}

/// So they are for each config that a Registry and a namelist give.
pub fn bound_domains_are_ranged()
    ensures { BoundDomainsAreRanged }
{}

/// A layout that a config asks for has its numbers in their ranges, and no more patches than points
/// in a direction of any domain, where the config's values are in theirs, the plan has a domain,
/// and there are 1 to 64 workers.
pub fn layouts_are_ranged()
    ensures { LayoutsAreRanged }
{}
