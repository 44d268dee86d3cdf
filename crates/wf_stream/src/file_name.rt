//! The names of the files of a run.

ghost use Rattle.std.specs.Prelude.{◌≡◌, ◌+◌, ◌<◌, ◌≤◌, ◌++◌, IfOk, OnOk};
ghost use Rattle.wf_model.specs.Calendar.{two_digits};
ghost use Rattle.wf_model.specs.Script.{restart_stream};
ghost use Rattle.wf_model.specs.Streams.{file_name, stream_prefix};

use std::alloc::{AllocError, Global};
use wf_model::Bytes;

/// `wrfout` for stream 0, `auxhist1` to `auxhist9`, and `wrfrst` for stream 10.
fn push_prefix(name: &mut Vec<u8>, stream: u32) -> Result<(), AllocError>
    requires { stream ≤ restart_stream }
    ensures { OnOk result (name.new.items ≡ name.old.items ++ stream_prefix stream) }
{
    if stream == 0 {
        return name.extend_from_slice(b"wrfout");
    }
    if stream == 10 {
        return name.extend_from_slice(b"wrfrst");
    }
    name.extend_from_slice(b"auxhist")?;
    name.push(b'0' + stream as u8)?;
    Ok(())
}

/// The name of a stream's file, as `wrfout_d01_2000-01-01_00:00:00`. Domains count from 1; the date
/// is that of the file's first frame.
pub(crate) fn file_name(
    alloc: Global,
    stream: u32,
    domain: u32,
    date: &[u8],
) -> Result<Bytes, AllocError>
    requires stream { stream ≤ restart_stream }
    requires domain { domain < 100 }
    ensures { IfOk result (λ name. name ≡ file_name stream domain date.now) }
{
    let mut name = Vec::new(alloc);
    push_prefix(&mut name, stream)?;
    name.extend_from_slice(b"_d")?;
    name.push(b'0' + (domain / 10) as u8)?;
    name.push(b'0' + (domain % 10) as u8)?;
    name.extend_from_slice(b"_")?;
    name.extend_from_slice(date)?;
    Ok(Bytes::from_vec(name))
}
