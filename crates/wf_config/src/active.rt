//! The active fields, and the other entries that a config has.

ghost use Rattle.std.specs.Prelude.{◌≡◌, ◌++◌, ◌&&◌, ◌||◌, IfOk, OnOk, not, filter, flat_map, map};
ghost use Rattle.std.specs.List.{list_any};
ghost use Rattle.wf_config.specs.Active.{active_in, group_listings, holds, is_active_in};
ghost use Rattle.wf_config.specs.Active.{is_listing, is_of_sort, listings, pair_of};

use crate::given::first_int;
use crate::parts::names_in;
use crate::values::NameValues;
use crate::words::parts;
use std::alloc::{AllocError, Global};
use wf_model::{Bytes, Entry, values_of};
use wf_text::lower;

/// A symbol that a package lists, and whether the package holds.
#[derive(Drop)]
pub(crate) struct Listing {
    pub symbol: Bytes,
    pub holds: bool,
}

/// Whether the first value of the package's name is its own.
fn package_holds(values: &[NameValues], by: &[u8], value: i32) -> bool
    ensures { result ≡ holds values.now by.now value }
{
    match first_int(values_of(values, by)) {
        Some(number) => number == i128::from(value),
        None => false,
    }
}

/// Adds the names of a group, in lower case.
fn add_group(
    alloc: Global,
    listings: &mut Vec<Listing>,
    group: &[u8],
    holds: bool,
) -> Result<(), AllocError>
    ensures { OnOk result (map pair_of listings.new.items
        ≡ map pair_of listings.old.items ++ group_listings holds group.now) }
{
    let names = names_in(alloc, group)?;
    for name in names.as_slice() {
        let symbol = Bytes::from_vec(lower(alloc, name)?);
        listings.push(Listing { symbol, holds })?;
    }
    Ok(())
}

/// Adds the symbols that an entry lists.
fn add_listings(
    alloc: Global,
    made: &mut Vec<Listing>,
    values: &[NameValues],
    entry: &Entry,
) -> Result<(), AllocError>
    ensures { OnOk result
        (map pair_of made.new.items ≡ map pair_of made.old.items ++ listings values.now entry.now) }
{
    let Entry::Package {
        symbol,
        value,
        list,
        ..
    } = entry
    else {
        return Ok(());
    };
    let holds = package_holds(values, symbol.as_slice(), *value);
    let groups = parts(alloc, list.as_slice(), b';')?;
    for group in groups.as_slice() {
        add_group(alloc, made, group, holds)?;
    }
    Ok(())
}

/// The symbols that packages list.
pub(crate) fn listings(
    alloc: Global,
    values: &[NameValues],
    entries: &[Entry],
) -> Result<Vec<Listing>, AllocError>
    ensures { IfOk result (λ v. map pair_of v.items ≡ flat_map (listings values.now) entries.now) }
{
    let mut made = Vec::new(alloc);
    for entry in entries {
        add_listings(alloc, &mut made, values, entry)?;
    }
    Ok(made)
}

fn is_listed(listings: &[Listing], symbol: &[u8]) -> bool
    ensures { result ≡ list_any (λ l. is_listing symbol.now (pair_of l)) listings.now }
{
    listings
        .iter()
        .any(|listing| listing.symbol.as_slice() == symbol)
}

fn is_held(listings: &[Listing], symbol: &[u8]) -> bool
    ensures { result
        ≡ list_any (λ l. is_listing symbol.now (pair_of l) && (pair_of l).1) listings.now }
{
    listings.iter().any(|listing| listing.symbol.as_slice() == symbol && listing.holds)
}

fn is_free_or_held(listings: &[Listing], symbol: &[u8]) -> bool
    ensures { result ≡ (not (list_any (λ l. is_listing symbol.now (pair_of l)) listings.now)
        || list_any (λ l. is_listing symbol.now (pair_of l) && (pair_of l).1) listings.now) }
{
    !is_listed(listings, symbol) || is_held(listings, symbol)
}

/// Whether no package lists the symbol, or one that lists it holds.
fn is_active_symbol(listings: &[Listing], symbol: &[u8]) -> bool
    ensures { result ≡ active_in (map pair_of listings.now) symbol.now }
{
    is_free_or_held(listings, symbol)
}

/// Whether the entry is an active field.
fn is_active(listings: &[Listing], entry: &Entry) -> bool
    ensures { result ≡ is_active_in (map pair_of listings.now) entry.now }
{
    match entry {
        Entry::State { symbol, .. } => is_active_symbol(listings, symbol.as_slice()),
        _ => false,
    }
}

/// The active fields, where these symbols are listed.
pub(crate) fn active_fields(
    alloc: Global,
    listings: &[Listing],
    entries: &[Entry],
) -> Result<Vec<Entry>, AllocError>
    ensures { IfOk result
        (λ v. v.items ≡ filter (is_active_in (map pair_of listings.now)) entries.now) }
{
    let mut fields = Vec::new(alloc);
    for entry in entries {
        if is_active(listings, entry) {
            fields.push(entry.copy(alloc)?)?;
        }
    }
    Ok(fields)
}

/// The kinds of entry that a config has besides its fields.
#[derive(Clone, Copy)]
pub(crate) enum Sort {
    Dimspec,
    Halo,
    Period,
}

fn is_of_sort(sort: Sort, entry: &Entry) -> bool
    ensures { result ≡ is_of_sort sort entry.now }
{
    match (sort, entry) {
        (Sort::Dimspec, Entry::Dimspec { .. })
        | (Sort::Halo, Entry::Halo { .. })
        | (Sort::Period, Entry::Period { .. }) => true,
        _ => false,
    }
}

/// The entries of this kind.
pub(crate) fn entries_of_sort(
    alloc: Global,
    sort: Sort,
    entries: &[Entry],
) -> Result<Vec<Entry>, AllocError>
    ensures { IfOk result (λ v. v.items ≡ filter (is_of_sort sort) entries.now) }
{
    let mut kept = Vec::new(alloc);
    for entry in entries {
        if is_of_sort(sort, entry) {
            kept.push(entry.copy(alloc)?)?;
        }
    }
    Ok(kept)
}
