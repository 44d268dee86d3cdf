//! Calls of a store on one file.

ghost use Rattle.std.specs.Prelude.{◌≡◌, ◌+◌, ◌<◌, ◌≤◌, ◌^◌, ◌∷◌, [], length, IsTrue, OnOk};
ghost use Rattle.wf_io.specs.Files.{is_store_name};
ghost use Rattle.wf_model.specs.Bytes.{four_bytes};
ghost use Rattle.wf_model.specs.Files.{create, append, write_at};
ghost use Rattle.wf_stream.specs.StoreWrites.{HasRoom, Wrote, stream_error_of};

use crate::writer::StreamError;
use std::str::from_utf8;
use wf_io::{IoError, Store};

/// The bytes of a name that a store takes, as a text.
pub(crate) fn store_name(name: &[u8]) -> &str
    requires { IsTrue (is_store_name name.now) }
    ensures { result.now ≡ name.now }
{
    match from_utf8(name) {
        Ok(name) => name,
        Err(_) => unreachable!(),
    }
}

fn stream_error(error: IoError) -> StreamError
    ensures { result ≡ stream_error_of error }
{
    match error {
        IoError::Fault => StreamError::Store,
        IoError::Memory => StreamError::Memory,
    }
}

/// Adds bytes at the end of a file.
pub(crate) fn append<S: Store>(store: &mut S, name: &str, bytes: &[u8]) -> Result<(), StreamError>
    requires name { IsTrue (is_store_name name.now) }
    requires room { HasRoom name.now (S.files store.old) }
    ensures wrote { Wrote (append name.now bytes.now ∷ []) name.now (S.files store.old)
        (S.files store.new) (S.faults store.old) (S.faults store.new) (S.failed store.new) result }
    ensures room { OnOk result (HasRoom name.now (S.files store.new)) }
{
    match store.append(name, bytes) {
        Ok(()) => Ok(()),
        Err(error) => Err(stream_error(error)),
    }
}

/// Makes a file that holds a header.
pub(crate) fn make_file<S: Store>(
    store: &mut S,
    name: &str,
    header: &[u8],
) -> Result<(), StreamError>
    requires name { IsTrue (is_store_name name.now) }
    requires header { 8 ≤ length header.now }
    ensures wrote { Wrote (create name.now ∷ append name.now header.now ∷ []) name.now
        (S.files store.old) (S.files store.new) (S.faults store.old) (S.faults store.new)
        (S.failed store.new) result }
    ensures room { OnOk result (HasRoom name.now (S.files store.new)) }
{
    match store.create(name) {
        Ok(()) => {}
        Err(error) => return Err(stream_error(error)),
    }
    match store.append(name, header) {
        Ok(()) => Ok(()),
        Err(error) => Err(stream_error(error)),
    }
}

/// Writes how many records a file has: four bytes from place 4 on.
pub(crate) fn write_count<S: Store>(
    store: &mut S,
    name: &str,
    count: u32,
) -> Result<(), StreamError>
    requires name { IsTrue (is_store_name name.now) }
    requires room { HasRoom name.now (S.files store.old) }
    ensures { Wrote (write_at name.now 4 (four_bytes count) ∷ []) name.now (S.files store.old)
        (S.files store.new) (S.faults store.old) (S.faults store.new) (S.failed store.new) result }
{
    match store.write_at(name, 4, &count.to_be_bytes()) {
        Ok(()) => Ok(()),
        Err(error) => Err(stream_error(error)),
    }
}
