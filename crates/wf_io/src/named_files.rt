//! The files of a store in memory.

ghost use Rattle.std.specs.Prelude.{◌≡◌, ◌+◌, ◌≤◌, [], ◌++◌, length, IsSome, MatchOption, OnOk};
ghost use Rattle.std.specs.Prelude.{OnErr, IfOk, option_map};
ghost use Rattle.std.specs.Str.{bytes_eq};
ghost use Rattle.wf_io.specs.Files.{with_file, bytes_at, patched};
ghost use Rattle.wf_io.specs.StoreState.{files_of, IsPlace};

use std::alloc::{AllocError, Global};
use std::marker::Model;

// A file: its name, and its bytes.
#[derive(Drop)]
pub(crate) struct StoredFile {
    name: String,
    bytes: Vec<u8>,
}

impl Model for StoredFile {
    ghost use Rattle.std.specs.Prelude.{string_bytes};
    ghost use Rattle.wf_io.specs.StoreState.{FileState};

    ghost Value = { FileState };

    ghost view = { λ f. record { name = string_bytes f.name; bytes = f.bytes.items } };
}

impl StoredFile {
    fn new(alloc: Global, name: &str, bytes: Vec<u8>) -> Result<StoredFile, AllocError>
        ensures { IfOk result (λ f. f ≡ record { name = name.now; bytes = bytes.items }) }
    {
        let name = name.to_string(alloc)?;
        Ok(StoredFile { name, bytes })
    }

    fn has_name(&self, name: &str) -> bool
        ensures { result ≡ bytes_eq name.now self.now.name }
    {
        name == self.name.as_str()
    }

    fn bytes(&self) -> &[u8]
        ensures { result.now ≡ self.now.bytes }
    {
        self.bytes.as_slice()
    }

    fn set_bytes(&mut self, bytes: Vec<u8>)
        ensures { self.new ≡ record self.old { bytes = bytes.items } }
    {
        self.bytes = bytes;
    }

    fn append(&mut self, bytes: &[u8]) -> Result<(), AllocError>
        ensures ok { OnOk result
            (self.new ≡ record self.old { bytes = self.old.bytes ++ bytes.now }) }
        ensures err { OnErr result (self.new ≡ self.old) }
    {
        self.bytes.extend_from_slice(bytes)
    }

    fn write_at(&mut self, at: usize, bytes: &[u8])
        requires { at + length bytes.now ≤ length self.old.bytes }
        ensures { self.new ≡ record self.old { bytes = patched self.old.bytes at bytes.now } }
    {
        self.bytes[at..at + bytes.len()].copy_from_slice(bytes);
    }
}

// Files, of which the first of each name counts.
#[derive(Drop)]
pub(crate) struct NamedFiles {
    files: Vec<StoredFile>,
}

impl NamedFiles {
    pub(crate) fn new(alloc: Global) -> NamedFiles
        ensures { result.files.items ≡ [] }
    {
        NamedFiles {
            files: Vec::new(alloc),
        }
    }

    // The place of the first file of that name.
    fn place_of(&self, name: &str) -> Option<usize>
        ensures { MatchOption result (files_of self.now.files.items name.now ≡ None)
            (IsPlace self.now.files.items name.now) }
    {
        for (i, file) in self.files.iter().enumerate() {
            if file.has_name(name) {
                return Some(i);
            }
        }
        None
    }

    // The bytes of that name.
    pub(crate) fn get(&self, name: &str) -> Option<&[u8]>
        ensures { option_map (λ b. b.now) result ≡ files_of self.now.files.items name.now }
    {
        match self.place_of(name) {
            Some(at) => Some(self.files[at].bytes()),
            None => None,
        }
    }

    // A copy of the bytes of that name.
    pub(crate) fn read(&self, alloc: Global, name: &str) -> Result<Option<Vec<u8>>, AllocError>
        ensures { IfOk result
            (λ r. option_map (λ v. v.items) r ≡ files_of self.now.files.items name.now) }
    {
        match self.get(name) {
            Some(bytes) => Ok(Some(Vec::from_slice(alloc, bytes)?)),
            None => Ok(None),
        }
    }

    // Gives a name these bytes, whether it is there or not.
    pub(crate) fn set(&mut self, alloc: Global, name: &str, bytes: &[u8]) -> Result<(), AllocError>
        ensures ok { OnOk result (files_of self.new.files.items
            ≡ with_file (files_of self.old.files.items) name.now bytes.now) }
        ensures err { OnErr result (self.new.files.items ≡ self.old.files.items) }
    {
        let copy = Vec::from_slice(alloc, bytes)?;
        match self.place_of(name) {
            Some(at) => self.files[at].set_bytes(copy),
            None => self.files.push(StoredFile::new(alloc, name, copy)?)?,
        }
        Ok(())
    }

    // Adds the bytes at the end of the file of that name.
    pub(crate) fn append(&mut self, name: &str, bytes: &[u8]) -> Result<(), AllocError>
        requires { IsSome (files_of self.old.files.items name.now) }
        ensures ok { OnOk result (files_of self.new.files.items
            ≡ with_file (files_of self.old.files.items) name.now
            (bytes_at (files_of self.old.files.items) name.now ++ bytes.now)) }
        ensures err { OnErr result
            (files_of self.new.files.items ≡ files_of self.old.files.items) }
    {
        match self.place_of(name) {
            Some(at) => self.files[at].append(bytes),
            None => unreachable!(),
        }
    }

    // Writes the bytes over those of the file of that name from place `at` on.
    pub(crate) fn write_at(&mut self, name: &str, at: usize, bytes: &[u8])
        requires there { IsSome (files_of self.old.files.items name.now) }
        requires within { at + length bytes.now
            ≤ length (bytes_at (files_of self.old.files.items) name.now) }
        ensures { files_of self.new.files.items
            ≡ with_file (files_of self.old.files.items) name.now
            (patched (bytes_at (files_of self.old.files.items) name.now) at bytes.now) }
    {
        match self.place_of(name) {
            Some(place) => self.files[place].write_at(at, bytes),
            None => unreachable!(),
        }
    }
}
