//! What is timed.

use std::alloc::{AllocError, Global};
use wf_cdfread::{read_header, slab};
use wf_model::{Bytes, Header, List, Name, Names, SourceFile};
use wf_registry::read_registry;
use wf_table::read_table;

/// The side of the square of numbers that is read.
const SIDE: u32 = 5000;

/// A text or a file that is read again and again.
#[derive(Drop)]
pub enum Work {
    Registry(Vec<SourceFile>),
    Table(Vec<u8>, Names),
    Numbers(Vec<u8>, Header),
}

fn name(alloc: Global, text: &[u8]) -> Result<Option<Name>, AllocError> {
    let bytes = Vec::from_slice(alloc, text)?;
    if Name::is_name(&bytes) {
        Ok(Some(Name::from_vec(bytes)))
    } else {
        Ok(None)
    }
}

/// The names of a table over one field `a` without a z letter.
fn names(alloc: Global) -> Result<Option<Names>, AllocError> {
    let (Some(level), Some(symbol)) = (name(alloc, b"a")?, name(alloc, b"a")?) else {
        return Ok(None);
    };
    Ok(Some(Names {
        levels: List::from_vec(vec![in alloc; (level, false)]?),
        fields: List::from_vec(vec![in alloc; (symbol, 0, 0)]?),
        halos: List::from_vec(Vec::new(alloc)),
        periods: List::from_vec(Vec::new(alloc)),
        hooks: List::from_vec(Vec::new(alloc)),
    }))
}

impl Work {
    /// What is to be timed over these bytes: a Registry, a table, or the numbers of a netCDF file's
    /// variable `A`.
    pub fn new(alloc: Global, kind: &str, bytes: Vec<u8>) -> Result<Option<Work>, AllocError> {
        if kind == "registry" {
            let name = Bytes::from_vec(Vec::from_slice(alloc, b"Registry")?);
            let text = Bytes::from_vec(bytes);
            return Ok(Some(Work::Registry(vec![in alloc; SourceFile { name, text }]?)));
        }
        if kind == "table" {
            return Ok(names(alloc)?.map(|names| Work::Table(bytes, names)));
        }
        if kind == "numbers" {
            return match read_header(alloc, &bytes) {
                Ok(header) => Ok(Some(Work::Numbers(bytes, header))),
                Err(_) => Ok(None),
            };
        }
        Ok(None)
    }

    /// Does it once, and tells whether it was read.
    pub fn run(&self, alloc: Global) -> bool {
        match self {
            Work::Registry(files) => read_registry(alloc, files, &[]).is_ok(),
            Work::Table(text, names) => read_table(alloc, text, names).is_ok(),
            Work::Numbers(bytes, header) => {
                slab(alloc, bytes, header, b"A", &[SIDE, SIDE], 0).is_ok()
            }
        }
    }
}
