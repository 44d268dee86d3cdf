//! The files of a case, and the place in one of them that is edited.

use std::alloc::{AllocError, Global};
use wf_io::MemStore;

/// A file of a case.
#[derive(Clone, Drop)]
struct CaseFile {
    name: String,
    bytes: Vec<u8>,
}

/// Where the next bytes go: the number of the file, and the byte before which they come.
#[derive(Clone, Copy)]
struct Place {
    file: usize,
    at: usize,
}

/// The files of a case, each under its name, and the place that is edited.
#[derive(Drop)]
pub struct Files {
    alloc: Global,
    files: Vec<CaseFile>,
    place: Option<Place>,
}

/// These bytes with a piece in place of so many of them, or `None` where they have no such part.
fn replaced(
    alloc: Global,
    bytes: &[u8],
    at: usize,
    count: usize,
    piece: &[u8],
) -> Result<Option<Vec<u8>>, AllocError> {
    let (Some(front), Some(back)) = (bytes.get(..at), bytes.get(at.saturating_add(count)..)) else {
        return Ok(None);
    };
    let mut new = Vec::new(alloc);
    new.extend_from_slice(front)?;
    new.extend_from_slice(piece)?;
    new.extend_from_slice(back)?;
    Ok(Some(new))
}

/// Where a line of a text begins, from 1, and its length with its newline.
fn line_at(bytes: &[u8], number: usize) -> Option<(usize, usize)> {
    let mut start = 0;
    let mut line = 1usize;
    for (at, byte) in bytes.iter().enumerate() {
        if *byte == b'\n' {
            let end = at.saturating_add(1);
            if line == number {
                return Some((start, end.saturating_sub(start)));
            }
            start = end;
            line = line.saturating_add(1);
        }
    }
    None
}

impl Files {
    pub fn new(alloc: Global) -> Files {
        Files {
            alloc,
            files: Vec::new(alloc),
            place: None,
        }
    }

    /// The same files, of which none is edited.
    pub fn copy(&self) -> Result<Files, AllocError> {
        Ok(Files {
            alloc: self.alloc,
            files: self.files.clone()?,
            place: None,
        })
    }

    fn number_of(&self, name: &str) -> Option<usize> {
        self.files.iter().position(|f| f.name.as_str() == name)
    }

    /// Gives a name an empty file, which is edited.
    pub fn begin(&mut self, name: &str) -> Result<(), AllocError> {
        self.remove(name);
        let name = String::from_str(self.alloc, name)?;
        let bytes = Vec::new(self.alloc);
        let file = self.files.len();
        self.files.push(CaseFile { name, bytes })?;
        self.place = Some(Place { file, at: 0 });
        Ok(())
    }

    /// Takes a file out, if it is there. None is edited.
    pub fn remove(&mut self, name: &str) {
        self.place = None;
        self.files.retain(|f| f.name.as_str() != name);
    }

    /// Takes bytes out of a file, which is edited where they were; `false` where it has no such
    /// bytes.
    pub fn take_out(&mut self, name: &str, at: usize, count: usize) -> Result<bool, AllocError> {
        self.place = self.number_of(name).map(|file| Place { file, at });
        self.replace(count, b"")
    }

    /// Takes a line out of a file, by its number from 1; `false` where it has no such line.
    pub fn take_line(&mut self, name: &str, number: usize) -> Result<bool, AllocError> {
        let Some(bytes) = self.bytes_of(name) else {
            return Ok(false);
        };
        match line_at(bytes, number) {
            Some((at, count)) => self.take_out(name, at, count),
            None => Ok(false),
        }
    }

    /// Edits a file at its end; `false` where there is no such file.
    pub fn go_to_end(&mut self, name: &str) -> Result<bool, AllocError> {
        match self.bytes_of(name).map(|bytes| bytes.len()) {
            Some(at) => self.take_out(name, at, 0),
            None => Ok(false),
        }
    }

    fn bytes_of(&self, name: &str) -> Option<&[u8]> {
        let file = self.files.iter().find(|f| f.name.as_str() == name)?;
        Some(file.bytes.as_slice())
    }

    /// Adds a piece at the place that is edited; `false` where there is none.
    pub fn add(&mut self, piece: &[u8]) -> Result<bool, AllocError> {
        self.replace(0, piece)
    }

    fn replace(&mut self, count: usize, piece: &[u8]) -> Result<bool, AllocError> {
        let Some(Place { file, at }) = self.place else {
            return Ok(false);
        };
        let Some(edited) = self.files.get_mut(file) else {
            return Ok(false);
        };
        match replaced(self.alloc, &edited.bytes, at, count, piece)? {
            Some(bytes) => edited.bytes = bytes,
            None => return Ok(false),
        }
        let at = at.saturating_add(piece.len());
        self.place = Some(Place { file, at });
        Ok(true)
    }

    /// A store of these files.
    pub fn store(&self) -> Result<MemStore, AllocError> {
        let mut store = MemStore::new(self.alloc);
        for file in &self.files {
            store.place(file.name.as_str(), &file.bytes)?;
        }
        Ok(store)
    }
}
