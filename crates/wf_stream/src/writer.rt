//! Writes the frames of a run into the files of a store.

ghost use Rattle.std.specs.Prelude.{◌≡◌, ◌+◌, ◌≤◌, map, IfOk, IfErr, OnOk, OnErr, IfSome, Some};
ghost use Rattle.std.specs.Prelude.{None, IsErrOf};
ghost use Rattle.std.specs.List.{slice_get};
ghost use Rattle.wf_io.specs.Files.{Rose};
ghost use Rattle.wf_model.specs.Agreement.{IsUpToOverflow};
ghost use Rattle.wf_model.specs.Failed.{Failed};
ghost use Rattle.wf_model.specs.Files.{Files};
ghost use Rattle.wf_model.specs.Frames.{frames_of, variables_of};
ghost use Rattle.wf_model.specs.SoundRun.{IsSoundRun};
ghost use Rattle.wf_model.specs.StoreRuns.{Ran, Stopped};
ghost use Rattle.wf_model.specs.Writes.{frame_calls};
ghost use Rattle.wf_stream.specs.Writing.{HasFile, label, labels, totals_of};

use crate::frame_calls::write_calls;
use std::alloc::{AllocError, Global};
use std::marker::{Model, PhantomData};
use wf_io::Store;
use wf_model::{Frame, Run, RunName, Slab};

/// Why a frame was not written.
#[derive(Clone, Copy, Debug, PartialEq, Eq)]
pub enum StreamError {
    /// A call of the store failed, which the store counted.
    Store,
    Memory,
}

/// What was written: files made, records, bytes behind the headers, and the sum of these bytes
/// as numbers.
#[derive(Clone, Copy, Debug, PartialEq, Eq)]
pub struct Totals {
    pub files: u64,
    pub records: u64,
    pub bytes: u64,
    pub sum: u64,
}

/// Writes the frames of a run, in script order. Contracts see how many it wrote, and the error that
/// ended it.
#[derive(Drop)]
pub struct Writer<N: RunName> {
    alloc: Global,
    totals: Totals,
    failed: Option<StreamError>,
    of: PhantomData<N>,
}

impl<N: RunName> Model for Writer<N> {
    ghost use Rattle.std.specs.Prelude.{◌≡◌};
    ghost use Rattle.wf_stream.specs.Writing.{Written, totals_of};

    ghost Value = { Written };

    ghost view = { λ w. record { number = w.totals.records; failed = w.failed } };

    ghost invariant = { λ w. w.totals ≡ totals_of N.run w.totals.records };
}

impl<N: RunName> Writer<N> {
    /// A writer that wrote nothing.
    #[tactic(auto, using(crate::proofs::WriterLaws::totals_none))]
    pub fn new(alloc: Global, run: &Run<'_, N>) -> Result<Writer<N>, AllocError>
        ensures { IfOk result (λ w. w ≡ record { number = 0; failed = None }) }
    {
        Ok(Writer {
            alloc,
            totals: Totals {
                files: 0,
                records: 0,
                bytes: 0,
                sum: 0,
            },
            failed: None,
            of: PhantomData,
        })
    }

    /// What the frames that were written come to.
    pub fn totals(&self) -> Totals
        ensures { result ≡ totals_of N.run self.now.number }
    {
        self.totals
    }

    /// Writes the next frame of the run: its file and header where it is the first in its file,
    /// `Times`, its variables in order, and the new number of records.
    ///
    /// # Errors
    /// `Store` where a call of the store failed, which the store counted; no call followed it. Or
    /// want of memory, as which count a total that would pass 64 bits and a dimension named `Time`,
    /// which no Registry has. A first part of the frame's calls was then made. After an error the
    /// writer answers that error for ever, and calls nothing.
    pub fn write_frame<S: Store>(
        &mut self,
        store: &mut S,
        frame: &Frame,
        slabs: &[Slab<N>],
        run: &Run<'_, N>,
    ) -> Result<(), StreamError>
        requires sound { IsSoundRun N.run }
        requires next { self.old.failed ≡ None
            → slice_get (frames_of N.run) self.old.number ≡ Some frame.now }
        requires reached { self.old.failed ≡ None → IsUpToOverflow N.run frame.now.place }
        requires slabs { self.old.failed ≡ None → map label slabs.now ≡ labels N.run frame.now }
        requires there { self.old.failed ≡ None → (m : Files) → S.files store.old ≡ Some m
            → HasFile frame.now m }
        ensures ok { OnOk result
            (Ran (frame_calls N.run frame.now) (S.files store.old) (S.files store.new)) }
        ensures written { OnOk result
            (self.new ≡ record { number = self.old.number + 1; failed = None }) }
        ensures err { OnErr result
            (Stopped (frame_calls N.run frame.now) (S.files store.old) (S.files store.new)) }
        ensures failed_call { self.old.failed ≡ None → IsErrOf result StreamError.Store → Failed
            (frame_calls N.run frame.now) frame.now.file (S.files store.old) (S.files store.new) }
        ensures later { S.faults store.old ≤ S.faults store.new }
        ensures rose { self.old.failed ≡ None → IsErrOf result StreamError.Store
            → Rose (S.faults store.old) (S.faults store.new) }
        ensures failed { self.old.failed ≡ None → IsErrOf result StreamError.Store
            → S.failed store.new ≡ frame.now.file }
        ensures kept { IfErr result
            (λ e. self.new ≡ record { number = self.old.number; failed = Some e }) }
        ensures for_ever { IfSome self.old.failed (λ e. result ≡ Err e) }
        ensures untouched { IfSome self.old.failed (λ e. store.new ≡ store.old) }
    {
        if let Some(error) = self.failed {
            return Err(error);
        }
        match write_calls(self.alloc, store, frame, slabs, run, self.totals) {
            Ok(totals) => {
                self.totals = totals;
                Ok(())
            }
            Err(error) => {
                self.failed = Some(error);
                Err(error)
            }
        }
    }
}
