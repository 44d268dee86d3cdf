//! The calls of a store that write one frame.

ghost use Rattle.std.specs.Prelude.{◌≡◌, ◌+◌, ◌<◌, ◌≤◌, Some, IfOk, IsTrue, OnOk, length};
ghost use Rattle.wf_io.specs.Files.{is_store_name};
ghost use Rattle.wf_model.specs.Files.{Files};
ghost use Rattle.wf_model.specs.Outcome.{script};
ghost use Rattle.wf_model.specs.SoundRun.{IsSoundRun};
ghost use Rattle.wf_model.specs.Streams.{one_if};
ghost use Rattle.wf_model.specs.Writes.{frame_calls, header_of, record_of, steps_at};
ghost use Rattle.wf_stream.specs.StoreWrites.{HasRoom, IsInRange, Wrote, opening, record_parts};
ghost use Rattle.wf_stream.specs.StoreWrites.{with_frame};
ghost use Rattle.wf_stream.specs.Writing.{HasFile};

use crate::record::append_record;
use crate::store_calls::{make_file, store_name, write_count};
use crate::writer::{StreamError, Totals};
use std::alloc::{AllocError, Global};
use wf_cdf::{file_header, is_sound, place_vars, write_header};
use wf_io::Store;
use wf_model::{Frame, Run, RunName, Slab};

/// The steps that a frame's domain has behind it.
#[tactic(auto, unfolding(wf_model::specs::Outcome::entry_at))]
fn steps_at<N: RunName>(frame: &Frame, run: &Run<'_, N>) -> u64
    requires { frame.now.place < length (script N.run) }
    ensures { result ≡ steps_at N.run frame.now }
{
    run.script()[frame.place as usize].step
}

/// The header of a frame's file, with no record. A plan with a dimension named `Time`, which no
/// Registry has, gives no header that can be written: this counts as want of memory.
fn header_bytes<N: RunName>(
    alloc: Global,
    frame: &Frame,
    run: &Run<'_, N>,
) -> Result<Vec<u8>, AllocError>
    requires sound { IsSoundRun N.run }
    requires frame { IsInRange N.run frame.now }
    ensures bytes { IfOk result (λ v. v.items ≡ header_of N.run frame.now) }
    ensures long { IfOk result (λ v. 8 ≤ length v.items) }
{
    let steps = steps_at(frame, run);
    let begin = run.begin(frame.domain);
    let mut header = file_header(
        alloc,
        run.plan(),
        frame.domain,
        frame.stream,
        &begin.start_text,
        steps,
    )?;
    if !is_sound(&header) {
        return Err(AllocError);
    }
    match place_vars(&mut header, 1) {
        Ok(_) => write_header(alloc, &header),
        Err(_) => unreachable!(),
    }
}

/// Makes the file of a frame that is the first in it, with its header.
fn open_file<S: Store, N: RunName>(
    alloc: Global,
    store: &mut S,
    name: &str,
    frame: &Frame,
    run: &Run<'_, N>,
) -> Result<(), StreamError>
    requires sound { IsSoundRun N.run }
    requires frame { IsInRange N.run frame.now }
    requires file { name.now ≡ frame.now.file }
    requires name { IsTrue (is_store_name name.now) }
    requires there { (m : Files) → S.files store.old ≡ Some m → HasFile frame.now m }
    ensures wrote { Wrote (opening N.run frame.now) frame.now.file (S.files store.old)
        (S.files store.new) (S.faults store.old) (S.faults store.new) (S.failed store.new) result }
    ensures room { OnOk result (HasRoom frame.now.file (S.files store.new)) }
{
    if !frame.first {
        return Ok(());
    }
    match header_bytes(alloc, frame, run) {
        Ok(header) => make_file(store, name, &header),
        Err(_) => Err(StreamError::Memory),
    }
}

/// The totals with the frame of this number, whose bytes are counted already.
fn with_record(totals: Totals, number: u32, is_first: bool) -> Totals
    requires { totals.files ≤ number }
    ensures { result
        ≡ record totals { files = totals.files + one_if is_first; records = number + 1 } }
{
    Totals {
        files: totals.files + u64::from(is_first),
        records: u64::from(number) + 1,
        bytes: totals.bytes,
        sum: totals.sum,
    }
}

/// Writes a frame: its file and header where it is the first in its file, its time and slabs, and
/// the new number of records. It gives the totals with this frame.
pub(crate) fn write_calls<S: Store, N: RunName>(
    alloc: Global,
    store: &mut S,
    frame: &Frame,
    slabs: &[Slab<N>],
    run: &Run<'_, N>,
    totals: Totals,
) -> Result<Totals, StreamError>
    requires sound { IsSoundRun N.run }
    requires frame { IsInRange N.run frame.now }
    requires parts { record_parts N.run N.layout frame.now.time slabs.now
        ≡ record_of N.run frame.now }
    requires there { (m : Files) → S.files store.old ≡ Some m → HasFile frame.now m }
    requires files { totals.files ≤ frame.now.number }
    ensures wrote { Wrote (frame_calls N.run frame.now) frame.now.file (S.files store.old)
        (S.files store.new) (S.faults store.old) (S.faults store.new) (S.failed store.new) result }
    ensures totals { IfOk result (λ t. t ≡ with_frame N.run totals frame.now) }
{
    let name = store_name(frame.file.as_slice());
    match open_file(alloc, store, name, frame, run) {
        Ok(()) => {}
        Err(error) => return Err(error),
    }
    let counted = match append_record(alloc, store, name, &frame.time, slabs, totals) {
        Ok(counted) => counted,
        Err(error) => return Err(error),
    };
    match write_count(store, name, frame.rec + 1) {
        Ok(()) => Ok(with_record(counted, frame.number, frame.first)),
        Err(error) => Err(error),
    }
}
