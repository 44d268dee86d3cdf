//! A run on whole domains, from its begin data to its files.

ghost use Rattle.std.specs.Prelude.{◌≡◌, All, ◌+◌, ◌<◌, ◌≤◌, [], None, Some, IfOk, IfErr, IfSome};
ghost use Rattle.std.specs.Prelude.{OnOk, length, slice_index_or};
ghost use Rattle.std.specs.List.{slice_get};
ghost use Rattle.wf_model.specs.Files.{Files};
ghost use Rattle.wf_model.specs.Frames.{frames_of};
ghost use Rattle.wf_model.specs.Outcome.{script, outcome_of, no_lists};
ghost use Rattle.wf_model.specs.Patches.{whole_domain};
ghost use Rattle.wf_model.specs.Sound.{FilesFit};
ghost use Rattle.wf_model.specs.StoreRuns.{Ran};
ghost use Rattle.wf_model.specs.Writes.{writes_of, summary_of, frame_calls};
ghost use Rattle.wf_stream.specs.Writing.{HasFile, totals_of};
ghost use Rattle.wf_grid.specs.FrameEnds.{FrameEnds};
ghost use Rattle.wf_grid.specs.Held.{first_lists, point_at_end, run_of};
ghost use Rattle.wf_grid.specs.Reached.{IsSteppable, IsReached, OverflowsIn, place_of};
ghost use Rattle.wf_grid.specs.RunEnds.{EndsBy, finished_of};
ghost use Rattle.wf_grid.specs.Takeable.{CallsAreAccepted, HasRoom};

use crate::file_shape::slabs_of;
use crate::item::take_item;
use crate::whole::Whole;
use std::alloc::Global;
use std::marker::Brand;
use wf_hooks::{Answering, HookTable, Meanings};
use wf_io::Store;
use wf_model::{Act, CoreError, Finished, Frame, Initial, Layout, List, Plan, Point, Run, RunName};
use wf_stream::{Frames, StreamError, Totals, Writer};

/// Does the item at a place of the script, from 0, or gives the point that overflows there. A frame
/// changes nothing.
fn take_entry<N: RunName, M: Meanings, F: Answering<M>>(
    run: &Run<'_, N>,
    place: usize,
    levels: &mut [List<i32>],
    scratch: &mut [i32],
    hooks: &HookTable<M, F>,
) -> Option<Point>
    requires steppable { IsSteppable N.run }
    requires calls { All (CallsAreAccepted M.accepts) N.run.plan.items }
    requires answers { N.run.answers ≡ M.answer }
    requires reached { IsReached N.run place levels.old }
    requires more { place < length (script N.run) }
    requires room { HasRoom N.run.plan 1 scratch.old }
    ensures on { result ≡ None → IsReached N.run (place + 1) levels.new }
    ensures over { IfSome result (OverflowsIn N.run place (place + 1)) }
    ensures scratch { length scratch.new ≡ length scratch.old }
{
    let entry = run.script()[place];
    match entry.act {
        Act::Table(item) => {
            take_item(
                run.plan(),
                entry.domain,
                levels,
                entry.step,
                item,
                scratch,
                hooks,
            )
        }
        Act::Start | Act::Force | Act::Feedback | Act::Emit(_) => None,
    }
}

/// Does the items from one place of the script up to another, without the last, or up to the first
/// that overflows.
fn take_items<N: RunName, M: Meanings, F: Answering<M>>(
    run: &Run<'_, N>,
    from: usize,
    to: usize,
    levels: &mut [List<i32>],
    scratch: &mut [i32],
    hooks: &HookTable<M, F>,
) -> Option<Point>
    requires steppable { IsSteppable N.run }
    requires calls { All (CallsAreAccepted M.accepts) N.run.plan.items }
    requires answers { N.run.answers ≡ M.answer }
    requires reached { IsReached N.run from levels.old }
    requires order { from ≤ to }
    requires within { to ≤ length (script N.run) }
    requires room { HasRoom N.run.plan 1 scratch.old }
    ensures on { result ≡ None → IsReached N.run to levels.new }
    ensures over { IfSome result (OverflowsIn N.run from to) }
    ensures scratch { length scratch.new ≡ length scratch.old }
{
    for place in from..to {
        if let Some(point) = take_entry(run, place, levels, scratch, hooks) {
            return Some(point);
        }
    }
    None
}

/// Writes a frame that the run has reached.
///
/// # Errors
/// `Store` where a call of the store failed, or want of memory. A first part of the frame's calls
/// was then made.
fn write_next<N: RunName, S: Store>(
    alloc: Global,
    run: &Run<'_, N>,
    frame: Frame,
    levels: &[List<i32>],
    writer: &mut Writer<N>,
    store: &mut S,
) -> Result<(), CoreError>
    requires steppable { IsSteppable N.run }
    requires frame { slice_get (frames_of N.run) frame.number ≡ Some frame }
    requires reached { IsReached N.run frame.place levels.now }
    requires written { writer.old ≡ record { number = frame.number; failed = None } }
    requires there { (m : Files) → S.files store.old ≡ Some m → HasFile frame m }
    ensures ok { OnOk result
        (Ran (frame_calls N.run frame) (S.files store.old) (S.files store.new)) }
    ensures written { OnOk result
        (writer.new ≡ record { number = frame.number + 1; failed = None }) }
    ensures error { IfErr result (FrameEnds N.run frame (S.files store.old) (S.files store.new)
        (S.faults store.old) (S.faults store.new) (S.failed store.new)) }
    ensures later { S.faults store.old ≤ S.faults store.new }
{
    let slabs = match slabs_of(alloc, run, &frame, levels) {
        Ok(slabs) => slabs,
        Err(_) => return Err(CoreError::Memory),
    };
    match writer.write_frame(store, &frame, &slabs, run) {
        Ok(()) => Ok(()),
        Err(StreamError::Store) => Err(CoreError::Store { name: frame.file }),
        Err(StreamError::Memory) => Err(CoreError::Memory),
    }
}

/// The place of a frame, or the end of the script where there is none.
fn place_of<N: RunName>(run: &Run<'_, N>, frame: &Option<Frame>) -> usize
    ensures { result ≡ place_of N.run frame.now }
{
    match frame {
        Some(frame) => frame.place as usize,
        None => run.script().len(),
    }
}

/// What is told of a run that ended, from what was written.
fn finished(alloc: Global, totals: Totals) -> Finished
    ensures { result ≡ record {
      files = totals.files;
      records = totals.records;
      bytes = totals.bytes;
      sum = totals.sum;
      memories = [];
    } }
{
    Finished {
        files: totals.files,
        records: totals.records,
        bytes: totals.bytes,
        sum: totals.sum,
        memories: List::from_vec(Vec::new(alloc)),
    }
}

/// Steps domain 1 through the run, and writes each frame once the items before it are done.
fn write_frames<N: RunName, S: Store, M: Meanings, F: Answering<M>>(
    alloc: Global,
    run: &Run<'_, N>,
    levels: &mut [List<i32>],
    scratch: &mut [i32],
    store: &mut S,
    hooks: &HookTable<M, F>,
) -> Result<Finished, CoreError>
    requires steppable { IsSteppable N.run }
    requires calls { All (CallsAreAccepted M.accepts) N.run.plan.items }
    requires answers { N.run.answers ≡ M.answer }
    requires begins { levels.old ≡ first_lists N.run.initial }
    requires room { HasRoom N.run.plan 1 scratch.old }
    ensures settled { OnOk result (point_at_end (outcome_of N.run) ≡ None) }
    ensures written { OnOk result (Ran (writes_of N.run) (S.files store.old) (S.files store.new)) }
    ensures finished { IfOk result (λ f. f ≡ finished_of (summary_of N.run)) }
    ensures error { IfErr result (EndsBy N.run (S.files store.old) (S.files store.new)
        (S.faults store.old) (S.faults store.new) (S.failed store.new)) }
    ensures later { S.faults store.old ≤ S.faults store.new }
{
    let mut frames = match Frames::new(alloc, run) {
        Ok(frames) => frames,
        Err(_) => return Err(CoreError::Memory),
    };
    let mut writer = match Writer::new(alloc, run) {
        Ok(writer) => writer,
        Err(_) => return Err(CoreError::Memory),
    };
    let mut place = 0;
    loop {
        let next = match frames.next(run) {
            Ok(next) => next,
            Err(_) => return Err(CoreError::Memory),
        };
        let end = place_of(run, &next);
        if let Some(point) = take_items(run, place, end, levels, scratch, hooks) {
            return Err(CoreError::Overflow { point });
        }
        let frame = match next {
            Some(frame) => frame,
            None => return Ok(finished(alloc, writer.totals())),
        };
        match write_next(alloc, run, frame, levels, &mut writer, store) {
            Ok(()) => {}
            Err(error) => return Err(error),
        }
        // the frame's own item changes nothing
        place = end + 1;
    }
}

/// Steps the run of a plan, how its domains begin and one patch for each domain, and writes its
/// frames.
fn run_all<N: RunName, S: Store, M: Meanings, F: Answering<M>>(
    alloc: Global,
    plan: &Plan,
    initial: &mut Initial,
    scratch: &mut [i32],
    store: &mut S,
    hooks: &HookTable<M, F>,
) -> Result<Finished, CoreError>
    requires plan { plan.now ≡ N.run.plan }
    requires initial { initial.old ≡ N.run.initial }
    requires layout { N.layout ≡ whole_domain }
    requires steppable { IsSteppable N.run }
    requires calls { All (CallsAreAccepted M.accepts) N.run.plan.items }
    requires answers { N.run.answers ≡ M.answer }
    requires domains { length initial.old.grids ≡ 1 }
    requires room { HasRoom N.run.plan 1 scratch.old }
    ensures settled { OnOk result (point_at_end (outcome_of N.run) ≡ None) }
    ensures written { OnOk result (Ran (writes_of N.run) (S.files store.old) (S.files store.new)) }
    ensures finished { IfOk result (λ f. f ≡ finished_of (summary_of N.run)) }
    ensures error { IfErr result (EndsBy N.run (S.files store.old) (S.files store.new)
        (S.faults store.old) (S.faults store.new) (S.failed store.new)) }
    ensures later { S.faults store.old ≤ S.faults store.new }
{
    let layout = Layout {
        nproc_x: 1,
        nproc_y: 1,
        tiles: 1,
        groups: 1,
        servers: 1,
        depth: 1,
        workers: 1,
    };
    let run: Run<'_, N> = match Run::new(alloc, plan, &layout, initial.begins.as_slice()) {
        Ok(run) => run,
        Err(_) => return Err(CoreError::Memory),
    };
    let grids = initial.grids.as_mut_slice();
    write_frames(alloc, &run, grids[0].as_mut_slice(), scratch, store, hooks)
}

impl Whole {
    /// Steps the run, point by point, and writes its frames into the files of the store. Stored
    /// functions answer as the table does.
    ///
    /// # Errors
    /// `Overflow` with the first overflow of the run: the frames before it are then written, and no
    /// others. `Store` with the file's name where a call of the store failed, which the store
    /// counted; no call followed it. Or want of memory. After these two a first part of the run's
    /// store calls was made.
    pub fn step_all<S: Store, M: Meanings, F: Answering<M>>(
        self,
        store: &mut S,
        hooks: &HookTable<M, F>,
    ) -> Result<Finished, CoreError>
        requires files { FilesFit self.plan }
        requires calls { All (CallsAreAccepted M.accepts) self.plan.items }
        ensures settled { OnOk result (point_at_end (outcome_of (run_of self M.answer)) ≡ None) }
        ensures written { OnOk result
            (Ran (writes_of (run_of self M.answer)) (S.files store.old) (S.files store.new)) }
        ensures finished { IfOk result (λ f. f ≡ finished_of (summary_of (run_of self M.answer))) }
        ensures error { IfErr result (EndsBy (run_of self M.answer) (S.files store.old)
            (S.files store.new) (S.faults store.old) (S.faults store.new) (S.failed store.new)) }
        ensures later { S.faults store.old ≤ S.faults store.new }
    {
        let Whole {
            alloc,
            plan,
            mut initial,
            mut scratch,
        } = self;
        run_all::<Brand, S, M, F>(
            alloc,
            &plan,
            &mut initial,
            scratch.as_mut_slice(),
            store,
            hooks,
        )
    }
}
