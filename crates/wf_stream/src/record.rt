//! The bytes of a frame, added to its file and counted.

ghost use Rattle.std.specs.Prelude.{◌≡◌, ◌+◌, ◌∷◌, [], IfOk, IfSome, IsTrue, OnOk, map, sum};
ghost use Rattle.wf_io.specs.Files.{is_store_name};
ghost use Rattle.wf_model.specs.Bytes.{char_bytes};
ghost use Rattle.wf_model.specs.Files.{append};
ghost use Rattle.wf_stream.specs.StoreWrites.{HasRoom, Wrote, appends, part_of, record_parts};
ghost use Rattle.wf_stream.specs.StoreWrites.{with_bytes, with_parts};

use crate::store_calls::append;
use crate::writer::{StreamError, Totals};
use std::alloc::Global;
use wf_cdf::{write_chars, write_slab};
use wf_io::Store;
use wf_model::{RunName, Slab};

/// So many bytes have a sum of 64 bits.
const MOST_BYTES: usize = 1 << 55;

/// The sum of some bytes, or none where they are more than 2 to the 55.
fn byte_sum(bytes: &[u8]) -> Option<u64>
    ensures { IfSome result (λ s. s ≡ sum bytes.now) }
{
    if bytes.len() > MOST_BYTES {
        return None;
    }
    let mut total = 0;
    for byte in bytes {
        total += u64::from(*byte);
    }
    Some(total)
}

/// The totals with some bytes more, or none where a total would pass 64 bits.
fn with_bytes(totals: Totals, bytes: &[u8]) -> Option<Totals>
    ensures { IfSome result (λ t. t ≡ with_bytes totals bytes.now) }
{
    let sum = totals.sum.checked_add(byte_sum(bytes)?)?;
    let count = totals.bytes.checked_add(bytes.len() as u64)?;
    Some(Totals {
        files: totals.files,
        records: totals.records,
        bytes: count,
        sum,
    })
}

/// Adds bytes at the end of a file, and counts them.
fn append_counted<S: Store>(
    store: &mut S,
    name: &str,
    bytes: &[u8],
    totals: Totals,
) -> Result<Totals, StreamError>
    requires name { IsTrue (is_store_name name.now) }
    requires room { HasRoom name.now (S.files store.old) }
    ensures wrote { Wrote (append name.now bytes.now ∷ []) name.now (S.files store.old)
        (S.files store.new) (S.faults store.old) (S.faults store.new) (S.failed store.new) result }
    ensures room { OnOk result (HasRoom name.now (S.files store.new)) }
    ensures totals { IfOk result (λ t. t ≡ with_bytes totals bytes.now) }
{
    let counted = match with_bytes(totals, bytes) {
        Some(counted) => counted,
        None => return Err(StreamError::Memory),
    };
    match append(store, name, bytes) {
        Ok(()) => Ok(counted),
        Err(error) => Err(error),
    }
}

/// Adds a frame's time, with padding where other variables follow.
fn append_time<S: Store>(
    alloc: Global,
    store: &mut S,
    name: &str,
    time: &[u8],
    is_padded: bool,
    totals: Totals,
) -> Result<Totals, StreamError>
    requires name { IsTrue (is_store_name name.now) }
    requires room { HasRoom name.now (S.files store.old) }
    ensures wrote { Wrote (append name.now (char_bytes is_padded time.now) ∷ []) name.now
        (S.files store.old) (S.files store.new) (S.faults store.old) (S.faults store.new)
        (S.failed store.new) result }
    ensures room { OnOk result (HasRoom name.now (S.files store.new)) }
    ensures totals { IfOk result (λ t. t ≡ with_bytes totals (char_bytes is_padded time.now)) }
{
    match write_chars(alloc, time, is_padded) {
        Ok(bytes) => append_counted(store, name, &bytes, totals),
        Err(_) => Err(StreamError::Memory),
    }
}

/// Adds a slab.
fn append_slab<S: Store, N: RunName>(
    alloc: Global,
    store: &mut S,
    name: &str,
    slab: &Slab<N>,
    totals: Totals,
) -> Result<Totals, StreamError>
    requires name { IsTrue (is_store_name name.now) }
    requires room { HasRoom name.now (S.files store.old) }
    ensures wrote { Wrote (append name.now (part_of N.run N.layout slab.now) ∷ []) name.now
        (S.files store.old) (S.files store.new) (S.faults store.old) (S.faults store.new)
        (S.failed store.new) result }
    ensures room { OnOk result (HasRoom name.now (S.files store.new)) }
    ensures totals { IfOk result (λ t. t ≡ with_bytes totals (part_of N.run N.layout slab.now)) }
{
    match write_slab(alloc, slab.values()) {
        Ok(bytes) => append_counted(store, name, &bytes, totals),
        Err(_) => Err(StreamError::Memory),
    }
}

/// Adds slabs, in order.
fn append_slabs<S: Store, N: RunName>(
    alloc: Global,
    store: &mut S,
    name: &str,
    slabs: &[Slab<N>],
    totals: Totals,
) -> Result<Totals, StreamError>
    requires name { IsTrue (is_store_name name.now) }
    requires room { HasRoom name.now (S.files store.old) }
    ensures wrote { Wrote (appends name.now (map (part_of N.run N.layout) slabs.now)) name.now
        (S.files store.old) (S.files store.new) (S.faults store.old) (S.faults store.new)
        (S.failed store.new) result }
    ensures room { OnOk result (HasRoom name.now (S.files store.new)) }
    ensures totals { IfOk result
        (λ t. t ≡ with_parts totals (map (part_of N.run N.layout) slabs.now)) }
{
    let mut counted = totals;
    for slab in slabs {
        match append_slab(alloc, store, name, slab, counted) {
            Ok(more) => counted = more,
            Err(error) => return Err(error),
        }
    }
    Ok(counted)
}

/// Adds a frame's time and its slabs, in order. Time alone has no padding.
pub(crate) fn append_record<S: Store, N: RunName>(
    alloc: Global,
    store: &mut S,
    name: &str,
    time: &[u8],
    slabs: &[Slab<N>],
    totals: Totals,
) -> Result<Totals, StreamError>
    requires name { IsTrue (is_store_name name.now) }
    requires room { HasRoom name.now (S.files store.old) }
    ensures wrote { Wrote (appends name.now (record_parts N.run N.layout time.now slabs.now))
        name.now (S.files store.old) (S.files store.new) (S.faults store.old) (S.faults store.new)
        (S.failed store.new) result }
    ensures room { OnOk result (HasRoom name.now (S.files store.new)) }
    ensures totals { IfOk result
        (λ t. t ≡ with_parts totals (record_parts N.run N.layout time.now slabs.now)) }
{
    match append_time(alloc, store, name, time, !slabs.is_empty(), totals) {
        Ok(counted) => append_slabs(alloc, store, name, slabs, counted),
        Err(error) => Err(error),
    }
}
