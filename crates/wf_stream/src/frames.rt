//! The frames of a run, one after another.

ghost use Rattle.std.specs.Prelude.{◌≡◌, ℕ, ◌+◌, ◌*◌, ◌^◌, ◌<◌, ◌≤◌, ◌∷◌, [], Some, IfOk, IfSome};
ghost use Rattle.std.specs.Prelude.{IfNone, OnErr, length, drop};
ghost use Rattle.std.specs.List.{slice_get};
ghost use Rattle.wf_model.specs.Calendar.{time_text};
ghost use Rattle.wf_model.specs.Frames.{frames_of, outputs_from};
ghost use Rattle.wf_model.specs.Plans.{domain_of};
ghost use Rattle.wf_model.specs.Script.{restart_stream};
ghost use Rattle.wf_model.specs.Sound.{IsDomain, IsRangedPlan};
ghost use Rattle.wf_model.specs.SoundRun.{IsSoundRun};
ghost use Rattle.wf_model.specs.Streams.{frames_per_file};
ghost use Rattle.wf_stream.specs.FrameCounts.{IsKnownOutput, file_place, file_with, frame_in};
ghost use Rattle.wf_stream.specs.FrameCounts.{next_opened, next_record, output};
ghost use Rattle.wf_stream.specs.Writing.{next_number};

use crate::file_name::file_name;
use std::alloc::{AllocError, Global};
use std::marker::{Model, PhantomData};
use wf_model::limits::RESTART_STREAM;
use wf_model::{Act, Frame, Plan, Run, RunName, ScriptEntry};
use wf_stamp::{read_stamp, stamp_text};

/// All streams of a domain: 0 for history, 1 to 9 for auxiliary history, 10 for restart.
const ALL_STREAMS: usize = 11;

/// An entry of the script that is a frame.
#[derive(Clone, Copy)]
struct Emitted {
    /// Its place in the script, from 0.
    place: u32,
    stream: u32,
    entry: ScriptEntry,
}

/// What a stream of a domain has had so far.
#[derive(Clone, Copy)]
struct StreamFile {
    /// How many frames.
    count: u32,
    /// The time of the first frame in its current file.
    opened: [u8; 19],
}

/// Goes through the frames of a run in script order. Contracts see it as the number of frames that
/// it gave.
#[derive(Drop)]
pub struct Frames<N: RunName> {
    alloc: Global,
    number: u32,
    /// The place of the entry behind the last frame, from 0.
    place: u32,
    /// By domain, then stream.
    files: Vec<StreamFile>,
    of: PhantomData<N>,
}

impl<N: RunName> Model for Frames<N> {
    ghost use Rattle.std.specs.Prelude.{ℕ};
    ghost use Rattle.wf_stream.specs.FrameCounts.{IsUnderWay};

    ghost Value = { ℕ };

    ghost view = { λ f. f.number };

    ghost invariant = { λ f. IsUnderWay N.run f.number f.place f.files.items };
}

impl<N: RunName> Frames<N> {
    /// Before the first frame of the run.
    ///
    /// # Errors
    /// Want of memory, which a script of 2^32 items or more counts as.
    pub fn new(alloc: Global, run: &Run<'_, N>) -> Result<Frames<N>, AllocError>
        ensures { IfOk result (λ f. f ≡ 0) }
    {
        let domains = run.plan().domains.as_slice().len();
        let Some(total) = domains.checked_mul(ALL_STREAMS) else {
            return Err(AllocError);
        };
        if run.script().len() > u32::MAX as usize {
            return Err(AllocError);
        }
        let none = StreamFile {
            count: 0,
            opened: [0; 19],
        };
        Ok(Frames {
            alloc,
            number: 0,
            place: 0,
            files: vec![in alloc; none; total]?,
            of: PhantomData,
        })
    }

    /// The next frame of the run, or none behind the last.
    ///
    /// # Errors
    /// Want of memory, after which it stands where it stood.
    pub fn next(&mut self, run: &Run<'_, N>) -> Result<Option<Frame>, AllocError>
        requires sound { IsSoundRun N.run }
        ensures frame { IfOk result (λ f. f ≡ slice_get (frames_of N.run) self.old) }
        ensures number { IfOk result (λ f. self.new ≡ next_number self.old f) }
        ensures unchanged { OnErr result (self.new ≡ self.old) }
    {
        let Some(emitted) = next_output(run.script(), self.place) else {
            return Ok(None);
        };
        let at = place_of(emitted.entry.domain, emitted.stream);
        let file = self.files[at];
        let frame = frame_in(self.alloc, run.plan(), self.number, &emitted, &file)?;
        self.files[at] = file_with(run.plan(), &emitted, &file);
        self.number += 1;
        self.place = emitted.place + 1;
        Ok(Some(frame))
    }
}

/// The first entry from a place on that is a frame.
fn next_output(script: &[ScriptEntry], from: u32) -> Option<Emitted>
    requires { length script.now < 2 ^ 32 }
    ensures found { IfSome result (λ e. outputs_from from (drop from script.now)
        ≡ output e ∷ outputs_from (e.place + 1) (drop (e.place + 1) script.now)) }
    ensures entry { IfSome result (λ e. slice_get script.now e.place ≡ Some e.entry) }
    ensures act { IfSome result (λ e. e.entry.act ≡ Act.Emit e.stream) }
    ensures behind { IfSome result (λ e. from ≤ e.place) }
    ensures none { IfNone result (outputs_from from (drop from script.now) ≡ []) }
{
    for place in from..script.len() as u32 {
        let entry = script[place as usize];
        if let Act::Emit(stream) = entry.act {
            return Some(Emitted {
                place,
                stream,
                entry,
            });
        }
    }
    None
}

/// The place of a stream's file among all. Domains count from 1, streams from 0.
fn place_of(domain: u32, stream: u32) -> usize
    requires { 1 ≤ domain }
    ensures { result ≡ file_place domain stream }
{
    (domain as usize - 1) * ALL_STREAMS + stream as usize
}

/// How many frames a file of a stream takes, 1 to 100,000. Domains count from 1.
fn frames_per_file(plan: &Plan, domain: u32, stream: u32) -> u32
    requires ranged { IsRangedPlan plan.now }
    requires domain { IsDomain plan.now domain }
    requires stream { stream ≤ restart_stream }
    ensures value { result ≡ frames_per_file plan.now domain stream }
    ensures some { 1 ≤ result }
{
    if stream == RESTART_STREAM {
        return 1;
    }
    plan.domains.as_slice()[domain as usize - 1]
        .frames
        .as_slice()[stream as usize]
}

/// The text of the time so many seconds after domain 1's start.
fn time_text(plan: &Plan, seconds: u64) -> [u8; 19]
    requires ranged { IsRangedPlan plan.now }
    requires within { seconds ≤ plan.now.steps * (domain_of plan.now 1).seconds }
    ensures { result ≡ time_text plan.now.start seconds }
{
    let Some(start) = read_stamp(&plan.start) else {
        unreachable!()
    };
    match stamp_text(&start, seconds) {
        Ok(text) => text,
        Err(_) => unreachable!(),
    }
}

/// The record of the next frame in the file.
fn next_record(plan: &Plan, emitted: &Emitted, file: &StreamFile) -> u32
    requires ranged { IsRangedPlan plan.now }
    requires known { IsKnownOutput plan.now (output emitted.now) }
    ensures { result ≡ next_record plan.now file.now (output emitted.now) }
{
    file.count % frames_per_file(plan, emitted.entry.domain, emitted.stream)
}

/// The time of the first frame in the file, after the next frame.
fn next_opened(plan: &Plan, emitted: &Emitted, file: &StreamFile) -> [u8; 19]
    requires ranged { IsRangedPlan plan.now }
    requires known { IsKnownOutput plan.now (output emitted.now) }
    ensures { result ≡ next_opened plan.now file.now (output emitted.now) }
{
    if next_record(plan, emitted, file) == 0 {
        return time_text(plan, emitted.entry.time);
    }
    file.opened
}

/// The file with one more frame.
fn file_with(plan: &Plan, emitted: &Emitted, file: &StreamFile) -> StreamFile
    requires ranged { IsRangedPlan plan.now }
    requires known { IsKnownOutput plan.now (output emitted.now) }
    requires room { file.now.count + 1 < 2 ^ 32 }
    ensures { result ≡ file_with plan.now file.now (output emitted.now) }
{
    StreamFile {
        count: file.count + 1,
        opened: next_opened(plan, emitted, file),
    }
}

/// The frame of an entry that joins the file.
fn frame_in(
    alloc: Global,
    plan: &Plan,
    number: u32,
    emitted: &Emitted,
    file: &StreamFile,
) -> Result<Frame, AllocError>
    requires ranged { IsRangedPlan plan.now }
    requires known { IsKnownOutput plan.now (output emitted.now) }
    ensures { IfOk result (λ f. f ≡ frame_in plan.now number file.now (output emitted.now)) }
{
    let opened = next_opened(plan, emitted, file);
    let rec = next_record(plan, emitted, file);
    Ok(Frame {
        number,
        place: emitted.place,
        domain: emitted.entry.domain,
        stream: emitted.stream,
        time: time_text(plan, emitted.entry.time),
        file: file_name(alloc, emitted.stream, emitted.entry.domain, &opened)?,
        first: rec == 0,
        rec,
    })
}
