//! The calls of a store that make a file and add records to it.

ghost use Rattle.std.specs.Prelude.{◌≡◌, ◌⊎◌, ℕ, ◌+◌, ◌≤◌, List, [], ◌∷◌, ◌++◌, length, Option};
ghost use Rattle.std.specs.Prelude.{Some, OnOk, OnErr, IsErrOf, IsSome, IsTrue};
ghost use Rattle.wf_io.specs.Files.{Counted, failed_name, is_store_name};
ghost use Rattle.wf_model.specs.Files.{Files, bytes_at, create, append, write_at};
ghost use Rattle.wf_model.specs.StoreRuns.{Ran, Stopped};
ghost use Rattle.wf_model.specs.Failed.{Failed};

use wf_io::{IoError, Store};

/// Makes a file that holds a header.
pub fn begin_file<S: Store>(store: &mut S, name: &str, header: &[u8]) -> Result<(), IoError>
    requires { IsTrue (is_store_name name.now) }
    ensures ok { OnOk result (Ran (create name.now ∷ append name.now header.now ∷ [])
        (S.files store.old) (S.files store.new)) }
    ensures err { OnErr result (Stopped (create name.now ∷ append name.now header.now ∷ [])
        (S.files store.old) (S.files store.new)) }
    ensures failed_call { IsErrOf result IoError.Fault → Failed (create name.now
        ∷ append name.now header.now ∷ []) name.now (S.files store.old) (S.files store.new) }
    ensures faults { Counted (S.faults store.old) (S.faults store.new) result }
    ensures failed { S.failed store.new ≡ failed_name result name.now }
{
    match store.create(name) {
        Ok(()) => store.append(name, header),
        Err(e) => Err(e),
    }
}

/// Adds a record of two variables, and then writes the count of records, four bytes from place
/// 4 on.
pub fn write_record<S: Store>(
    store: &mut S,
    name: &str,
    time: &[u8],
    slab: &[u8],
    count: &[u8],
) -> Result<(), IoError>
    requires name { IsTrue (is_store_name name.now) }
    requires there { (m : Files) → S.files store.old ≡ Some m → IsSome (m name.now) }
    requires within { (m : Files) → S.files store.old ≡ Some m
        → 4 + length count.now ≤ length (bytes_at m name.now) }
    ensures ok { OnOk result (Ran (append name.now time.now ∷ append name.now slab.now
        ∷ write_at name.now 4 count.now ∷ []) (S.files store.old) (S.files store.new)) }
    ensures err { OnErr result (Stopped (append name.now time.now ∷ append name.now slab.now
        ∷ write_at name.now 4 count.now ∷ []) (S.files store.old) (S.files store.new)) }
    ensures failed_call { IsErrOf result IoError.Fault
        → Failed (append name.now time.now ∷ append name.now slab.now
        ∷ write_at name.now 4 count.now ∷ []) name.now (S.files store.old) (S.files store.new) }
    ensures faults { Counted (S.faults store.old) (S.faults store.new) result }
    ensures failed { S.failed store.new ≡ failed_name result name.now }
{
    match store.append(name, time) {
        Ok(()) => {}
        Err(e) => return Err(e),
    }
    match store.append(name, slab) {
        Ok(()) => store.write_at(name, 4, count),
        Err(e) => Err(e),
    }
}
