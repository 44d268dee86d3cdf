//! A store of named files.

ghost use Rattle.std.specs.Prelude.{◌≡◌, ◌⊎◌, ℕ, ◌+◌, ◌<◌, ◌≤◌, List, [], ◌++◌, length, Option};
ghost use Rattle.std.specs.Prelude.{option_map, OnOk, OnErr, IfOk, IsSome, IsTrue};
ghost use Rattle.wf_io.specs.Files.{Files, with_file, bytes_at, patched, is_store_name, Told};
ghost use Rattle.wf_io.specs.Files.{Counted, failed_name};

use std::alloc::{AllocError, Global};
use std::fmt;
use std::fmt::{Display, Formatter, Write};

/// Why a call of a store or a sink failed.
#[derive(Debug, Clone, Copy, Drop, PartialEq, Eq)]
pub enum IoError {
    /// The outside didn't do what it was asked. A store or a sink counts these.
    Fault,
    /// Want of memory.
    Memory,
}

impl Display for IoError {
    ghost use Rattle.std.specs.Prelude.{Some};
    ghost use Rattle.wf_io.specs.ErrorText.{error_text};

    ghost output = { λ e. Some (error_text e) };

    fn fmt<W: Write>(&self, f: &mut Formatter<W>) -> fmt::Result {
        match self {
            IoError::Fault => f.write_str("fault of reading or writing"),
            IoError::Memory => f.write_str("out of memory"),
        }
    }
}

impl From<AllocError> for IoError {
    ghost use Rattle.std.specs.Prelude.{◌≡◌};
    ghost use Rattle.wf_io.specs.declared.store.IoError.TheVariants.{Memory};

    ghost from_gives = { λ _ e. e ≡ Memory };

    fn from(_error: AllocError) -> IoError {
        IoError::Memory
    }
}

/// A store of named files.
///
/// A name has 1 to 128 ASCII letters, digits and `_`, `-`, `.` and `:`. The bytes of a file count
/// from place 0. A store either tells at all times what each name holds, or never.
///
/// Each call answers `Fault` only where the count of faults rose in this call, and `Memory` for
/// want of memory, which leaves what `Fault` may leave. Each call leaves all other names as before.
pub trait Store {
    /// What each name holds, where the store tells it.
    ghost files: { Self → Option Files };

    /// How many calls met a fault. It never falls.
    ghost faults: { Self → ℕ };

    /// The name of the last call, where that call answered `Fault`, and else no text.
    ghost failed: { Self → List ℕ };

    /// The bytes of a name, or `None` where there is no such file. The files stay as they were,
    /// whatever it answers.
    fn read(&mut self, alloc: Global, name: &str) -> Result<Option<Vec<u8>>, IoError>
        requires { IsTrue (is_store_name name.now) }
        ensures same { Told (files self.old) (files self.new) (λ m n. n ≡ m) }
        ensures found { IfOk result (λ r. (m : Files) → files self.old ≡ Some m
            → option_map (λ v. v.items) r ≡ m name.now) }
        ensures faults { Counted (faults self.old) (faults self.new) result }
        ensures failed { failed self.new ≡ failed_name result name.now };

    /// Makes the name hold no bytes, whether it is there or not.
    ///
    /// After an error the name holds what it held, or no bytes.
    fn create(&mut self, name: &str) -> Result<(), IoError>
        requires { IsTrue (is_store_name name.now) }
        ensures ok { OnOk result (Told (files self.old) (files self.new)
            (λ m n. n ≡ with_file m name.now [])) }
        ensures err { OnErr result (Told (files self.old) (files self.new)
            (λ m n. (n ≡ m) ⊎ (n ≡ with_file m name.now []))) }
        ensures faults { Counted (faults self.old) (faults self.new) result }
        ensures failed { failed self.new ≡ failed_name result name.now };

    /// Adds the bytes at the end of a file, which is there.
    ///
    /// After an error the old bytes are a first part of the file.
    fn append(&mut self, name: &str, bytes: &[u8]) -> Result<(), IoError>
        requires name { IsTrue (is_store_name name.now) }
        requires there { (m : Files) → files self.old ≡ Some m → IsSome (m name.now) }
        ensures ok { OnOk result (Told (files self.old) (files self.new)
            (λ m n. n ≡ with_file m name.now (bytes_at m name.now ++ bytes.now))) }
        ensures err { OnErr result (Told (files self.old) (files self.new)
            (λ m n. (rest : List ℕ)
            × (n ≡ with_file m name.now (bytes_at m name.now ++ rest)))) }
        ensures faults { Counted (faults self.old) (faults self.new) result }
        ensures failed { failed self.new ≡ failed_name result name.now };

    /// Replaces the bytes of a file, which is there, from place `at` on. The range lies within it.
    ///
    /// After an error all bytes outside the range are as before.
    fn write_at(&mut self, name: &str, at: u64, bytes: &[u8]) -> Result<(), IoError>
        requires name { IsTrue (is_store_name name.now) }
        requires there { (m : Files) → files self.old ≡ Some m → IsSome (m name.now) }
        requires within { (m : Files) → files self.old ≡ Some m
            → at + length bytes.now ≤ length (bytes_at m name.now) }
        ensures ok { OnOk result (Told (files self.old) (files self.new)
            (λ m n. n ≡ with_file m name.now (patched (bytes_at m name.now) at bytes.now))) }
        ensures err { OnErr result (Told (files self.old) (files self.new)
            (λ m n. (other : List ℕ) × (length other ≡ length bytes.now)
            × (n ≡ with_file m name.now (patched (bytes_at m name.now) at other)))) }
        ensures faults { Counted (faults self.old) (faults self.new) result }
        ensures failed { failed self.new ≡ failed_name result name.now };
}
