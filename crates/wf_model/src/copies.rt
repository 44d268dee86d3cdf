//! Copies of what holds memory of its own. The one error is want of memory.

ghost use Rattle.std.specs.Prelude.{◌≡◌, IfOk};

use crate::list::Bytes;
use crate::name::Name;
use crate::namelist::Value;
use crate::registry::Entry;
use crate::table::HookName;
use std::alloc::{AllocError, Global};

impl Bytes {
    /// These bytes, in memory of their own.
    pub fn copy_of(alloc: Global, bytes: &[u8]) -> Result<Bytes, AllocError>
        ensures { IfOk result (λ copy. copy ≡ bytes.now) }
    {
        Ok(Bytes::from_vec(Vec::from_slice(alloc, bytes)?))
    }

    pub fn copy(&self, alloc: Global) -> Result<Bytes, AllocError>
        ensures { IfOk result (λ copy. copy ≡ self.now) }
    {
        Bytes::copy_of(alloc, self.as_slice())
    }
}

impl Name {
    pub fn copy(&self, alloc: Global) -> Result<Name, AllocError>
        ensures { IfOk result (λ copy. copy ≡ self.now) }
    {
        Ok(Name::from_vec(Vec::from_slice(alloc, self.as_slice())?))
    }
}

impl Value {
    pub fn copy(&self, alloc: Global) -> Result<Value, AllocError>
        ensures { IfOk result (λ copy. copy ≡ self.now) }
    {
        match self {
            Value::Int(number) => Ok(Value::Int(*number)),
            Value::Decimal(word) => Ok(Value::Decimal(word.copy(alloc)?)),
            Value::Logical(truth) => Ok(Value::Logical(*truth)),
            Value::Text(text) => Ok(Value::Text(text.copy(alloc)?)),
        }
    }
}

impl HookName {
    pub fn copy(&self, alloc: Global) -> Result<HookName, AllocError>
        ensures { IfOk result (λ copy. copy ≡ self.now) }
    {
        Ok(HookName {
            name: self.name.copy(alloc)?,
            id: self.id,
            kind: self.kind,
            arity: self.arity,
        })
    }

    /// Copies of these, in a list of their own.
    pub fn copy_all(alloc: Global, hooks: &[HookName]) -> Result<Vec<HookName>, AllocError>
        ensures { IfOk result (λ copies. copies.items ≡ hooks.now) }
    {
        let mut copies = Vec::with_capacity(alloc, hooks.len())?;
        for hook in hooks {
            copies.push(hook.copy(alloc)?)?;
        }
        Ok(copies)
    }
}

impl Entry {
    pub fn copy(&self, alloc: Global) -> Result<Entry, AllocError>
        ensures { IfOk result (λ copy. copy ≡ self.now) }
    {
        match self {
            Entry::Dimspec {
                letter,
                how,
                axis,
                dataset,
            } => Ok(Entry::Dimspec {
                letter: *letter,
                how: how.copy(alloc)?,
                axis: *axis,
                dataset: dataset.copy(alloc)?,
            }),
            Entry::State {
                kind,
                symbol,
                dims,
                levels,
                stagger,
                io,
                dname,
                description,
                units,
            } => Ok(Entry::State {
                kind: kind.copy(alloc)?,
                symbol: symbol.copy(alloc)?,
                dims: dims.copy(alloc)?,
                levels: levels.copy(alloc)?,
                stagger: stagger.copy(alloc)?,
                io: io.copy(alloc)?,
                dname: dname.copy(alloc)?,
                description: description.copy(alloc)?,
                units: units.copy(alloc)?,
            }),
            Entry::Rconfig {
                kind,
                symbol,
                how,
                entries,
                default,
            } => Ok(Entry::Rconfig {
                kind: kind.copy(alloc)?,
                symbol: symbol.copy(alloc)?,
                how: how.copy(alloc)?,
                entries: entries.copy(alloc)?,
                default: default.copy(alloc)?,
            }),
            Entry::Package {
                name,
                symbol,
                value,
                list,
            } => Ok(Entry::Package {
                name: name.copy(alloc)?,
                symbol: symbol.copy(alloc)?,
                value: *value,
                list: list.copy(alloc)?,
            }),
            Entry::Halo { name, groups } => Ok(Entry::Halo {
                name: name.copy(alloc)?,
                groups: groups.copy(alloc)?,
            }),
            Entry::Period { name, groups } => Ok(Entry::Period {
                name: name.copy(alloc)?,
                groups: groups.copy(alloc)?,
            }),
        }
    }
}
