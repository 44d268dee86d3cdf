//! The store over a folder of the system. It is trusted: no clause says what a file holds.

ghost use Rattle.std.specs.Prelude.{◌≡◌, ◌≤◌, [], None, IfOk, IsTrue, length};
ghost use Rattle.wf_io.specs.Files.{is_store_name, Counted, failed_name};
ghost use Rattle.wf_io.specs.Counts.{faults_after};

use crate::file_name::FileName;
use crate::store::{IoError, Store};
use std::alloc::{AllocError, Global};
use std::fs::{File, OpenFile, OpenOptions};
use std::io;
use std::io::{ErrorKind, Read, Seek, SeekFrom, Write};
use std::marker::Model;
use std::path::{Path, PathBuf};
use std::rt::Files;

/// The length of the longest file that is read, 16 GiB.
const LONGEST_FILE: u64 = 17_179_869_184;

/// The files of a folder. It tells nothing of what they hold.
///
/// An error of the system is a `Fault`, unless it is want of memory. A count of faults that stands
/// at the greatest value of 64 bits stands still.
#[derive(Drop)]
pub struct DirStore<R> {
    rt: R,
    alloc: Global,
    folder: String,
    faults: u64,
    failed: FileName,
}

impl<R> Model for DirStore<R> {
    ghost use Rattle.std.specs.Prelude.{string_bytes};
    ghost use Rattle.wf_io.specs.FolderState.{FolderState};

    ghost Value = { FolderState };

    ghost view = { λ s. record {
      folder = string_bytes s.folder;
      faults = s.faults;
      failed = s.failed;
    } };
}

impl<R: Files + Drop> DirStore<R> {
    /// The store over a folder, which is there. The path of a file is the folder's joined with the
    /// file's name, as std joins paths.
    ///
    /// # Errors
    /// Want of memory.
    pub fn new(rt: R, alloc: Global, folder: &str) -> Result<DirStore<R>, AllocError>
        ensures { IfOk result (λ s. s ≡ record { folder = folder.now; faults = 0; failed = [] }) }
    {
        let folder = folder.to_string(alloc)?;
        Ok(DirStore {
            rt,
            alloc,
            folder,
            faults: 0,
            failed: FileName::none(),
        })
    }

    fn path_of(&self, name: &str) -> io::Result<PathBuf> {
        Ok(Path::new(self.folder.as_str()).join(self.alloc, name)?)
    }

    fn read_file(&self, alloc: Global, name: &str) -> io::Result<Option<Vec<u8>>> {
        let file = match File::open(&self.rt, self.path_of(name)?) {
            Ok(file) => file,
            Err(e) if e.kind() == ErrorKind::NotFound => return Ok(None),
            Err(e) => return Err(e),
        };
        let mut bytes = Vec::new(alloc);
        if file.metadata()?.len() <= LONGEST_FILE {
            // A file that grew since shows by one byte more than the longest has.
            file.take(LONGEST_FILE + 1).read_to_end(&mut bytes)?;
            if bytes.len() as u64 <= LONGEST_FILE {
                return Ok(Some(bytes));
            }
        }
        Err(io::Error::from(ErrorKind::FileTooLarge))
    }

    fn create_file(&self, name: &str) -> io::Result<()> {
        File::create(&self.rt, self.path_of(name)?)?;
        Ok(())
    }

    // `write_all` calls `write` until all is written, and answers an error where a call on a piece
    // that isn't empty takes nothing: its code says so, and no clause.
    fn append_file(&self, name: &str, bytes: &[u8]) -> io::Result<()> {
        let mut options = OpenOptions::new();
        options.append(true);
        let mut file = options.open(&self.rt, self.path_of(name)?)?;
        file.write_all(bytes)
    }

    fn write_file(&self, name: &str, at: u64, bytes: &[u8]) -> io::Result<()> {
        let mut options = OpenOptions::new();
        options.write(true);
        let mut file = options.open(&self.rt, self.path_of(name)?)?;
        file.seek(SeekFrom::Start(at))?;
        file.write_all(bytes)
    }

    // Ends a call with this name: an error of the system is a fault, unless it is want of memory.
    fn end_call<X: Drop>(&mut self, name: &str, outcome: io::Result<X>) -> Result<X, IoError>
        requires { length name.now ≤ 128 }
        ensures faults { Counted self.old.faults self.new.faults result }
        ensures count { self.new.faults ≡ faults_after result self.old.faults }
        ensures failed { self.new.failed ≡ failed_name result name.now }
        ensures folder { self.new.folder ≡ self.old.folder }
    {
        self.failed = FileName::none();
        match outcome {
            Ok(x) => Ok(x),
            Err(e) if e.kind() == ErrorKind::OutOfMemory => Err(IoError::Memory),
            Err(_) => {
                self.faults = self.faults.saturating_add(1);
                self.failed = FileName::of(name.as_bytes());
                Err(IoError::Fault)
            }
        }
    }
}

impl<R: Files + Drop> Store for DirStore<R> {
    ghost files = { λ _. None };

    ghost faults = { λ s. s.faults };

    ghost failed = { λ s. s.failed };

    /// A file that is not there is `None`. One of more than 17,179,869,184 bytes is a `Fault`.
    fn read(&mut self, alloc: Global, name: &str) -> Result<Option<Vec<u8>>, IoError>
        requires { IsTrue (is_store_name name.now) }
        ensures faults { Counted self.old.faults self.new.faults result }
        ensures count { self.new.faults ≡ faults_after result self.old.faults }
        ensures failed { self.new.failed ≡ failed_name result name.now }
        ensures folder { self.new.folder ≡ self.old.folder }
    {
        let outcome = self.read_file(alloc, name);
        self.end_call(name, outcome)
    }

    fn create(&mut self, name: &str) -> Result<(), IoError>
        requires { IsTrue (is_store_name name.now) }
        ensures faults { Counted self.old.faults self.new.faults result }
        ensures count { self.new.faults ≡ faults_after result self.old.faults }
        ensures failed { self.new.failed ≡ failed_name result name.now }
        ensures folder { self.new.folder ≡ self.old.folder }
    {
        let outcome = self.create_file(name);
        self.end_call(name, outcome)
    }

    fn append(&mut self, name: &str, bytes: &[u8]) -> Result<(), IoError>
        requires { IsTrue (is_store_name name.now) }
        ensures faults { Counted self.old.faults self.new.faults result }
        ensures count { self.new.faults ≡ faults_after result self.old.faults }
        ensures failed { self.new.failed ≡ failed_name result name.now }
        ensures folder { self.new.folder ≡ self.old.folder }
    {
        let outcome = self.append_file(name, bytes);
        self.end_call(name, outcome)
    }

    fn write_at(&mut self, name: &str, at: u64, bytes: &[u8]) -> Result<(), IoError>
        requires { IsTrue (is_store_name name.now) }
        ensures faults { Counted self.old.faults self.new.faults result }
        ensures count { self.new.faults ≡ faults_after result self.old.faults }
        ensures failed { self.new.failed ≡ failed_name result name.now }
        ensures folder { self.new.folder ≡ self.old.folder }
    {
        let outcome = self.write_file(name, at, bytes);
        self.end_call(name, outcome)
    }
}
