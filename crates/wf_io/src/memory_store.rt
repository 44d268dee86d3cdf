//! A store in memory, whose calls can be made to fail.

ghost use Rattle.std.specs.Prelude.{◌≡◌, ◌≢◌, ◌↔◌, ◌+◌, ◌≤◌, [], ◌∷◌, ◌++◌, length, take, Some};
ghost use Rattle.std.specs.Prelude.{IsSome, IsErrOf, OnOk, OnErr, IfOk, IfSome, option_map, IsTrue};
ghost use Rattle.wf_io.specs.Files.{with_file, bytes_at, patched, is_store_name, Counted, Rose};
ghost use Rattle.wf_io.specs.Files.{failed_name};
ghost use Rattle.wf_io.specs.Counts.{one_more};
ghost use Rattle.wf_io.specs.StoreState.{files_of, kept_of, kept_of_next, IsNumbered};

use crate::file_name::FileName;
use crate::named_files::NamedFiles;
use crate::store::{IoError, Store};
use std::alloc::{AllocError, Global};
use std::marker::Model;

// A call that is to fail, and how many bytes of its write are kept.
#[derive(Drop)]
struct FailingCall {
    call: u64,
    kept: u64,
}

// How many bytes the first entry for this call keeps.
fn kept_of(failing: &[FailingCall], call: u64) -> Option<u64>
    ensures { result ≡ kept_of failing.now call }
{
    failing.iter().find(|f| f.call == call).map(|f| f.kept)
}

// The first `kept` bytes.
fn front(bytes: &[u8], kept: u64) -> &[u8]
    ensures { result.now ≡ take kept bytes.now }
{
    match usize::try_from(kept) {
        Ok(kept) if kept < bytes.len() => &bytes[..kept],
        _ => bytes,
    }
}

/// A store in memory, for tests and for runs without files.
#[derive(Drop)]
pub struct MemStore {
    alloc: Global,
    files: NamedFiles,
    failing: Vec<FailingCall>,
    calls: u64,
    faults: u64,
    failed: FileName,
}

impl Model for MemStore {
    ghost use Rattle.wf_io.specs.StoreState.{StoreState};

    ghost Value = { StoreState };

    ghost view = { λ s. record {
      files = s.files.files.items;
      failing = s.failing.items;
      calls = s.calls;
      faults = s.faults;
      failed = s.failed;
    } };
}

impl MemStore {
    /// A store without files, and without calls that are to fail. It takes no memory.
    pub fn new(alloc: Global) -> MemStore
        ensures { result ≡ record { files = []; failing = []; calls = 0; faults = 0; failed = [] } }
    {
        MemStore {
            alloc,
            files: NamedFiles::new(alloc),
            failing: Vec::new(alloc),
            calls: 0,
            faults: 0,
            failed: FileName::none(),
        }
    }

    /// Gives a name these bytes by hand: this is no call of the trait, and has no number.
    ///
    /// # Errors
    /// Want of memory, after which the store is as before.
    pub fn place(&mut self, name: &str, bytes: &[u8]) -> Result<(), AllocError>
        ensures ok { OnOk result
            (files_of self.new.files ≡ with_file (files_of self.old.files) name.now bytes.now) }
        ensures err { OnErr result (self.new ≡ self.old) }
        ensures rest { self.new ≡ record self.old { files = self.new.files } }
    {
        self.files.set(self.alloc, name, bytes)
    }

    /// The bytes of a name, or `None` where there is no such file. It takes no memory.
    pub fn get(&self, name: &str) -> Option<&[u8]>
        ensures { option_map (λ b. b.now) result ≡ files_of self.now.files name.now }
    {
        self.files.get(name)
    }

    /// How many calls answered `Fault`. It takes no memory.
    pub fn count(&self) -> u64
        ensures { result ≡ self.now.faults }
    {
        self.faults
    }

    /// Lists a call of the trait that is to fail, by its number from 1.
    ///
    /// That call performs the first `kept` bytes of its write and answers `Fault`: a read reads
    /// nothing, and a create makes nothing. A `kept` above the length of the write counts as that
    /// length, and of two entries for one call the first counts.
    ///
    /// # Errors
    /// Want of memory, after which the store is as before.
    pub fn fail(&mut self, call: u64, kept: u64) -> Result<(), AllocError>
        ensures ok { OnOk result (self.new ≡ record self.old {
          failing = self.old.failing ++ record { call = call; kept = kept } ∷ [];
        }) }
        ensures err { OnErr result (self.new ≡ self.old) }
    {
        self.failing.push(FailingCall { call, kept })?;
        Ok(())
    }

    // Counts a call, and says how many bytes it keeps if it is to fail.
    fn next_call(&mut self) -> Option<u64>
        ensures kept { result ≡ kept_of_next self.old }
        ensures state { self.new
            ≡ record self.old { calls = one_more self.old.calls; failed = [] } }
    {
        self.calls = self.calls.saturating_add(1);
        self.failed = FileName::none();
        kept_of(&self.failing, self.calls)
    }

    // Counts a fault of the call with this name.
    fn fault(&mut self, name: &str) -> IoError
        requires { length name.now ≤ 128 }
        ensures value { result ≡ IoError.Fault }
        ensures state { self.new
            ≡ record self.old { faults = one_more self.old.faults; failed = name.now } }
        ensures later { self.old.faults ≤ self.new.faults }
        ensures rose { Rose self.old.faults self.new.faults }
    {
        self.faults = self.faults.saturating_add(1);
        self.failed = FileName::of(name.as_bytes());
        IoError::Fault
    }
}

impl Store for MemStore {
    ghost files = { λ s. Some (files_of s.files) };

    ghost faults = { λ s. s.faults };

    ghost failed = { λ s. s.failed };

    /// A listed call reads nothing.
    fn read(&mut self, alloc: Global, name: &str) -> Result<Option<Vec<u8>>, IoError>
        requires { IsTrue (is_store_name name.now) }
        ensures same { files_of self.new.files ≡ files_of self.old.files }
        ensures found { IfOk result
            (λ r. option_map (λ v. v.items) r ≡ files_of self.old.files name.now) }
        ensures faults { Counted self.old.faults self.new.faults result }
        ensures failed { self.new.failed ≡ failed_name result name.now }
        ensures listed { IsErrOf result IoError.Fault ↔ IsSome (kept_of_next self.old) }
        ensures never { self.old.failing ≡ [] → result ≢ Err IoError.Fault }
        ensures numbered { IsNumbered self.old self.new result }
    {
        match self.next_call() {
            Some(_) => Err(self.fault(name)),
            None => Ok(self.files.read(alloc, name)?),
        }
    }

    /// A listed call makes nothing.
    fn create(&mut self, name: &str) -> Result<(), IoError>
        requires { IsTrue (is_store_name name.now) }
        ensures ok { OnOk result
            (files_of self.new.files ≡ with_file (files_of self.old.files) name.now []) }
        ensures err { OnErr result (files_of self.new.files ≡ files_of self.old.files) }
        ensures faults { Counted self.old.faults self.new.faults result }
        ensures failed { self.new.failed ≡ failed_name result name.now }
        ensures listed { IsErrOf result IoError.Fault ↔ IsSome (kept_of_next self.old) }
        ensures never { self.old.failing ≡ [] → result ≢ Err IoError.Fault }
        ensures numbered { IsNumbered self.old self.new result }
    {
        if self.next_call().is_some() {
            return Err(self.fault(name));
        }
        Ok(self.files.set(self.alloc, name, &[])?)
    }

    /// A listed call adds the bytes that it keeps.
    fn append(&mut self, name: &str, bytes: &[u8]) -> Result<(), IoError>
        requires name { IsTrue (is_store_name name.now) }
        requires there { IsSome (files_of self.old.files name.now) }
        ensures ok { OnOk result (files_of self.new.files
            ≡ with_file (files_of self.old.files) name.now
            (bytes_at (files_of self.old.files) name.now ++ bytes.now)) }
        ensures kept { IfSome (kept_of_next self.old) (λ kept. IsErrOf result IoError.Fault
            → files_of self.new.files
            ≡ with_file (files_of self.old.files) name.now
            (bytes_at (files_of self.old.files) name.now ++ take kept bytes.now)) }
        ensures memory { IsErrOf result IoError.Memory
            → files_of self.new.files ≡ files_of self.old.files }
        ensures faults { Counted self.old.faults self.new.faults result }
        ensures failed { self.new.failed ≡ failed_name result name.now }
        ensures listed { IsErrOf result IoError.Fault → IsSome (kept_of_next self.old) }
        ensures unlisted { OnOk result (kept_of_next self.old ≡ None) }
        ensures never { self.old.failing ≡ [] → result ≢ Err IoError.Fault }
        ensures numbered { IsNumbered self.old self.new result }
    {
        match self.next_call() {
            Some(kept) => {
                self.files.append(name, front(bytes, kept))?;
                Err(self.fault(name))
            }
            None => Ok(self.files.append(name, bytes)?),
        }
    }

    /// A listed call replaces the first of the bytes by those that it keeps. It takes no memory.
    fn write_at(&mut self, name: &str, at: u64, bytes: &[u8]) -> Result<(), IoError>
        requires name { IsTrue (is_store_name name.now) }
        requires there { IsSome (files_of self.old.files name.now) }
        requires within { at + length bytes.now
            ≤ length (bytes_at (files_of self.old.files) name.now) }
        ensures ok { OnOk result (files_of self.new.files
            ≡ with_file (files_of self.old.files) name.now
            (patched (bytes_at (files_of self.old.files) name.now) at bytes.now)) }
        ensures kept { IfSome (kept_of_next self.old) (λ kept. files_of self.new.files
            ≡ with_file (files_of self.old.files) name.now
            (patched (bytes_at (files_of self.old.files) name.now) at (take kept bytes.now))) }
        ensures faults { Counted self.old.faults self.new.faults result }
        ensures failed { self.new.failed ≡ failed_name result name.now }
        ensures listed { IsErrOf result IoError.Fault ↔ IsSome (kept_of_next self.old) }
        ensures memory { result ≢ Err IoError.Memory }
        ensures never { self.old.failing ≡ [] → result ≢ Err IoError.Fault }
        ensures numbered { IsNumbered self.old self.new result }
    {
        match self.next_call() {
            Some(kept) => {
                self.files.write_at(name, at as usize, front(bytes, kept));
                Err(self.fault(name))
            }
            None => {
                self.files.write_at(name, at as usize, bytes);
                Ok(())
            }
        }
    }
}
