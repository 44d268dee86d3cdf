//! The frames of the demo's file.

ghost use Rattle.std.specs.Prelude.{◌≡◌, ℕ, ◌+◌, ◌-◌, ◌*◌, ◌<◌, ◌≤◌, ◌^◌, length, sum, sum_by};
ghost use Rattle.std.specs.Prelude.{IfOk, OnOk, OnErr, IsErrOf};
ghost use Rattle.std.specs.List.{range_with_len};
ghost use Rattle.wf_io.specs.Files.{Counted};
ghost use Rattle.wf_model.specs.Calendar.{time_text};
ghost use Rattle.wf_model.specs.DemoCase.{case_start};
ghost use Rattle.wf_model.specs.Bytes.{slab_bytes};
ghost use Rattle.wf_model.specs.Demo.{demo_file, demo_time, demo_grid, demo_frame, demo_frames};
ghost use Rattle.wf_model.specs.Demo.{demo_header, frame_sum};
ghost use Rattle.wf_model.specs.StoreRuns.{Ran, Stopped};
ghost use Rattle.wf_top.specs.Domains.{IsDomain, SameSize, HoldGrid};
ghost use Rattle.wf_top.specs.Told.{HasHeader, file_calls};
ghost use Rattle.wf_model.specs.Failed.{Failed};

use crate::patches::Patches;
use crate::writes::{begin_file, write_record};
use std::alloc::{AllocError, Global};
use wf_cdf::{write_chars, write_slab};
use wf_io::{IoError, Store};

/// The name of the demo's file.
pub const FILE: &str = "wrfout_d01_2000-01-01_00:00:00";

// The sum of some bytes.
fn byte_sum(bytes: &[u8]) -> u64
    requires { length bytes.now < 2 ^ 32 }
    ensures value { result ≡ sum bytes.now }
    ensures bound { result ≤ 255 * length bytes.now }
{
    let mut total = 0;
    for b in bytes {
        total += u64::from(*b);
    }
    total
}

// The text of the moment after so many steps of a minute.
fn time_text(step: u32) -> [u8; 19]
    requires { step ≤ 100 }
    ensures { result ≡ time_text case_start (60 * step) }
{
    let mut text = *b"2000-01-01_00:00:00";
    text[12] = b'0' + (step / 60) as u8;
    text[14] = b'0' + (step % 60 / 10) as u8;
    text[15] = b'0' + (step % 60 % 10) as u8;
    text
}

// The bytes of a frame: the time, and all points of the domain.
#[derive(Drop)]
struct FrameBytes {
    time: Vec<u8>,
    slab: Vec<u8>,
}

// The frame after so many steps. It puts the numbers of all points into `values`, in place of what
// it held.
fn frame_bytes(
    alloc: Global,
    patches: &Patches,
    values: &mut Vec<i32>,
    step: u32,
) -> Result<FrameBytes, AllocError>
    requires domain { IsDomain patches.now }
    requires grid { (m : ℕ) × HoldGrid step m patches.now }
    requires step { step ≤ 100 }
    ensures time { IfOk result (λ f. f.time.items ≡ demo_time step) }
    ensures slab { IfOk result
        (λ f. f.slab.items ≡ slab_bytes (demo_grid patches.now.nx patches.now.ny step)) }
{
    patches.assemble(values)?;
    Ok(FrameBytes {
        time: write_chars(alloc, &time_text(step), true)?,
        slab: write_slab(alloc, values)?,
    })
}

// Writes the frame after so many steps. It gives the sum of its bytes.
fn write_frame<S: Store>(
    alloc: Global,
    store: &mut S,
    patches: &Patches,
    values: &mut Vec<i32>,
    step: u32,
) -> Result<u64, IoError>
    requires domain { IsDomain patches.now }
    requires grid { (m : ℕ) × HoldGrid step m patches.now }
    requires step { step ≤ 100 }
    requires there { HasHeader (S.files store.old) }
    ensures ok { OnOk result (Ran (demo_frame patches.now.nx patches.now.ny step)
        (S.files store.old) (S.files store.new)) }
    ensures there { OnOk result (HasHeader (S.files store.new)) }
    ensures sum { IfOk result (λ s. s ≡ frame_sum patches.now.nx patches.now.ny step) }
    ensures bound { IfOk result (λ s. s ≤ 41000000) }
    ensures err { OnErr result (Stopped (demo_frame patches.now.nx patches.now.ny step)
        (S.files store.old) (S.files store.new)) }
    ensures failed_call { IsErrOf result IoError.Fault → Failed (demo_frame patches.now.nx
        patches.now.ny step) demo_file (S.files store.old) (S.files store.new) }
    ensures faults { Counted (S.faults store.old) (S.faults store.new) result }
    ensures failed { IsErrOf result IoError.Fault → S.failed store.new ≡ demo_file }
{
    let frame = match frame_bytes(alloc, patches, values, step) {
        Ok(frame) => frame,
        Err(_) => return Err(IoError::Memory),
    };
    let count = (step + 1).to_be_bytes();
    match write_record(store, FILE, &frame.time, &frame.slab, &count) {
        Ok(()) => Ok(byte_sum(&frame.time) + byte_sum(&frame.slab)),
        Err(e) => Err(e),
    }
}

// Writes the frames at the start and after each step. It gives the sum of their bytes.
fn write_frames<S: Store>(
    alloc: Global,
    store: &mut S,
    patches: &mut Patches,
    steps: u32,
) -> Result<u64, IoError>
    requires domain { IsDomain patches.old }
    requires grid { HoldGrid 0 0 patches.old }
    requires steps { steps ≤ 100 }
    requires there { HasHeader (S.files store.old) }
    ensures ok { OnOk result (Ran (demo_frames patches.old.nx patches.old.ny (steps + 1))
        (S.files store.old) (S.files store.new)) }
    ensures sum { IfOk result
        (λ s. s ≡ sum_by (frame_sum patches.old.nx patches.old.ny) (range_with_len 0 (steps + 1))) }
    ensures domain { OnOk result (IsDomain patches.new) }
    ensures size { OnOk result (SameSize patches.old patches.new) }
    ensures grid { OnOk result (HoldGrid steps (steps - 1) patches.new) }
    ensures err { OnErr result (Stopped (demo_frames patches.old.nx patches.old.ny (steps + 1))
        (S.files store.old) (S.files store.new)) }
    ensures failed_call { IsErrOf result IoError.Fault → Failed (demo_frames patches.old.nx
        patches.old.ny (steps + 1)) demo_file (S.files store.old) (S.files store.new) }
    ensures faults { Counted (S.faults store.old) (S.faults store.new) result }
    ensures failed { IsErrOf result IoError.Fault → S.failed store.new ≡ demo_file }
{
    let mut values = Vec::new(alloc);
    let mut total = 0;
    for step in 0..steps {
        let sum = match write_frame(alloc, store, patches, &mut values, step) {
            Ok(sum) => sum,
            Err(e) => return Err(e),
        };
        total += sum;
        patches.advance();
    }
    match write_frame(alloc, store, patches, &mut values, steps) {
        Ok(sum) => Ok(total + sum),
        Err(e) => Err(e),
    }
}

/// Makes the demo's file with all its frames, from patches before the first step, which are then
/// after the last. It gives the sum of the frames' bytes.
pub fn write_file<S: Store>(
    alloc: Global,
    store: &mut S,
    header: &[u8],
    patches: &mut Patches,
    steps: u32,
) -> Result<u64, IoError>
    requires domain { IsDomain patches.old }
    requires grid { HoldGrid 0 0 patches.old }
    requires steps { steps ≤ 100 }
    requires header { header.now ≡ demo_header patches.old.nx patches.old.ny steps }
    ensures ok { OnOk result (Ran (file_calls patches.old.nx patches.old.ny steps)
        (S.files store.old) (S.files store.new)) }
    ensures sum { IfOk result
        (λ s. s ≡ sum_by (frame_sum patches.old.nx patches.old.ny) (range_with_len 0 (steps + 1))) }
    ensures domain { OnOk result (IsDomain patches.new) }
    ensures size { OnOk result (SameSize patches.old patches.new) }
    ensures grid { OnOk result (HoldGrid steps (steps - 1) patches.new) }
    ensures err { OnErr result (Stopped (file_calls patches.old.nx patches.old.ny steps)
        (S.files store.old) (S.files store.new)) }
    ensures failed_call { IsErrOf result IoError.Fault → Failed (file_calls patches.old.nx
        patches.old.ny steps) demo_file (S.files store.old) (S.files store.new) }
    ensures faults { Counted (S.faults store.old) (S.faults store.new) result }
    ensures failed { IsErrOf result IoError.Fault → S.failed store.new ≡ demo_file }
{
    match begin_file(store, FILE, header) {
        Ok(()) => write_frames(alloc, store, patches, steps),
        Err(e) => Err(e),
    }
}
