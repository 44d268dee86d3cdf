//! A data file, performed line by line.

ghost use Rattle.wf_hooks.specs.Accepts.{AcceptsHooks};

use crate::files::Files;
use crate::pieces::{bytes_of, numbers_of, text_of};
use crate::stored::{Seconds, StoredNames, second};
use anyhow::{Context, Result, bail, ensure};
use md5::{Digest, Md5};
use std::alloc::{AllocError, Global};
use std::str;
use std::thread::Threads;
use wf_hooks::{Answering, HookError, HookTable, Meanings};
use wf_io::{MemSink, MemStore};
use wf_model::HookName;
use wf_shipped::{Shipped, shipped_answer, shipped_names};
use wf_top::tool_main;

/// The state between two lines of a data file.
#[derive(Drop)]
pub struct Script {
    alloc: Global,
    // What each case begins with, once there is a case.
    base: Option<Files>,
    files: Files,
    // The store's calls that fail in the next run, each with the bytes of its write that are kept,
    // and the sink's.
    calls: Vec<(u64, u64)>,
    puts: Vec<u64>,
    // The functions that the next run's table stores, where they are not the shipped ones.
    stored: Option<StoredNames>,
    // What the last run left.
    left: MemStore,
}

fn number(word: Option<&str>) -> Result<u64> {
    let word = word.context("a number is missing")?;
    Ok(word.parse::<u64>()?)
}

fn size(word: Option<&str>) -> Result<usize> {
    Ok(usize::try_from(number(word)?)?)
}

fn words_of(alloc: Global, line: &str) -> Result<Vec<String>, AllocError> {
    let mut words = Vec::new(alloc);
    for word in line.split_whitespace() {
        words.push(String::from_str(alloc, word)?)?;
    }
    Ok(words)
}

// Runs the program's words over a table of these names, which this function answers.
fn run_tool<R: Threads + Sync, M: Meanings, F: Answering<M>>(
    rt: &R,
    alloc: Global,
    words: &[String],
    store: &mut MemStore,
    sink: &mut MemSink,
    names: &[HookName],
    function: F,
) -> Result<u8, HookError>
    requires kept { F.keeps function }
    requires accepted { AcceptsHooks M.accepts names.now }
{
    let hooks: HookTable<M, F> = HookTable::new(alloc, names, function)?;
    Ok(tool_main(rt, alloc, words, store, sink, &hooks))
}

impl Script {
    pub fn new(alloc: Global) -> Script {
        Script {
            alloc,
            base: None,
            files: Files::new(alloc),
            calls: Vec::new(alloc),
            puts: Vec::new(alloc),
            stored: None,
            left: MemStore::new(alloc),
        }
    }

    /// Performs a line.
    ///
    /// # Errors
    /// A line that is none of a data file, an edit of bytes that aren't there, want of memory, a
    /// failed print.
    pub fn perform<R: Threads + Sync + Print>(&mut self, rt: &R, line: &str) -> Result<()> {
        if line.is_empty() || line.starts_with('#') {
            return Ok(());
        }
        if let Some(text) = line.strip_prefix('|') {
            ensure!(self.files.add(text.as_bytes())?, "no file is edited");
            ensure!(self.files.add(b"\n")?, "no file is edited");
            return Ok(());
        }
        let (word, rest) = line.split_once(' ').unwrap_or((line, ""));
        match word {
            "case" => self.begin_case(rt, rest),
            "run" => self.run(rt, rest),
            "show" => self.show(rt, rest),
            "look" => self.look(rt, rest),
            "fail" => self.fail(rest),
            "stored" => self.store_functions(rest),
            _ => {
                ensure!(self.edit(word, rest)?, "there is nothing to edit");
                Ok(())
            }
        }
    }

    // Whether a line speaks of a run that has not come yet.
    fn awaits_run(&self) -> bool {
        !self.calls.is_empty() || !self.puts.is_empty() || self.stored.is_some()
    }

    fn begin_case(&mut self, rt: &impl Print, name: &str) -> Result<()> {
        ensure!(!self.awaits_run(), "a run is missing before this case");
        self.left = MemStore::new(self.alloc);
        match &self.base {
            Some(base) => self.files = base.copy()?,
            None => self.base = Some(self.files.copy()?),
        }
        println!(rt; "\ncase {name}")?;
        Ok(())
    }

    // Edits a file; `false` where there is nothing to edit.
    fn edit(&mut self, word: &str, rest: &str) -> Result<bool> {
        match word {
            "bytes" => Ok(self.files.add(&bytes_of(self.alloc, rest)?)?),
            "numbers" => Ok(self.files.add(&numbers_of(self.alloc, rest)?)?),
            _ => {
                let (name, numbers) = rest.split_once(' ').unwrap_or((rest, ""));
                ensure!(!name.is_empty(), "a name is missing");
                self.edit_file(word, name, numbers)
            }
        }
    }

    fn edit_file(&mut self, word: &str, name: &str, numbers: &str) -> Result<bool> {
        match word {
            "file" => self.files.begin(name)?,
            "without" => self.files.remove(name),
            "end" => return Ok(self.files.go_to_end(name)?),
            "line" => return Ok(self.files.take_line(name, size(Some(numbers))?)?),
            "at" => return self.take_out(name, numbers),
            _ => bail!("no such line"),
        }
        Ok(true)
    }

    fn take_out(&mut self, name: &str, numbers: &str) -> Result<bool> {
        let mut words = numbers.split_whitespace();
        let at = size(words.next())?;
        let count = size(words.next())?;
        Ok(self.files.take_out(name, at, count)?)
    }

    fn fail(&mut self, rest: &str) -> Result<()> {
        let mut words = rest.split_whitespace();
        match words.next() {
            Some("put") => self.puts.push(number(words.next())?)?,
            call => {
                let call = number(call)?;
                self.calls.push((call, number(words.next())?))?;
            }
        }
        Ok(())
    }

    // Stores functions in the next run's table: words by twos, a name and how many arguments.
    fn store_functions(&mut self, rest: &str) -> Result<()> {
        let words = words_of(self.alloc, rest)?;
        let mut names = StoredNames::new(self.alloc);
        for pair in words.chunks(2) {
            let [name, arity] = pair else {
                bail!("a number is missing");
            };
            names.add(self.alloc, name.as_str(), number(Some(arity.as_str()))?)?;
        }
        self.stored = Some(names);
        Ok(())
    }

    // Makes the next run's store of the case's files, and tells it which of its calls fail.
    fn make_store(&mut self) -> Result<(), AllocError> {
        self.left = self.files.store()?;
        for (call, kept) in &self.calls {
            self.left.fail(*call, *kept)?;
        }
        self.calls = Vec::new(self.alloc);
        Ok(())
    }

    // The next run's sink, which knows which of its puts fail.
    fn make_sink(&mut self) -> Result<MemSink, AllocError> {
        let mut sink = MemSink::new(self.alloc);
        for put in &self.puts {
            sink.fail(*put)?;
        }
        self.puts = Vec::new(self.alloc);
        Ok(sink)
    }

    fn run<R: Threads + Sync + Print>(&mut self, rt: &R, line: &str) -> Result<()> {
        let words = words_of(self.alloc, line)?;
        self.make_store()?;
        let mut sink = self.make_sink()?;
        println!(rt; "run {line}")?;
        match self.call_tool(rt, &words, &mut sink)? {
            Ok(status) => {
                let faults = self.left.count();
                println!(rt; "status {status} faults {faults}")?;
                print!(rt; "{}", str::from_utf8(sink.bytes())?)?;
            }
            Err(HookError::Repeated { name }) => {
                println!(rt; "stored Repeated {}", str::from_utf8(name.as_slice())?)?;
            }
            Err(HookError::Memory) => bail!(HookError::Memory),
        }
        Ok(())
    }

    // Runs the program's words over the functions that were stored for it, or the shipped ones.
    fn call_tool<R: Threads + Sync>(
        &mut self,
        rt: &R,
        words: &[String],
        sink: &mut MemSink,
    ) -> Result<Result<u8, HookError>> {
        let store = &mut self.left;
        Ok(match self.stored.take() {
            Some(names) => run_tool::<R, Seconds, _>(
                rt,
                self.alloc,
                words,
                store,
                sink,
                names.as_slice(),
                |_id: u32, arguments: &[i64]| second(arguments),
            ),
            None => {
                let names = shipped_names(self.alloc)?;
                run_tool::<R, Shipped, _>(
                    rt,
                    self.alloc,
                    words,
                    store,
                    sink,
                    names.as_slice(),
                    |id: u32, arguments: &[i64]| shipped_answer(id, arguments),
                )
            }
        })
    }

    // Prints the length of a file that the last run left, and the digest of its bytes.
    fn show(&self, rt: &impl Print, name: &str) -> Result<()> {
        ensure!(!name.is_empty(), "a name is missing");
        let Some(bytes) = self.left.get(name) else {
            println!(rt; "file {name} none")?;
            return Ok(());
        };
        let count = bytes.len();
        let digest = hex::encode(self.alloc, Md5::digest(bytes))?;
        println!(rt; "file {name} {count} md5 {digest}")?;
        Ok(())
    }

    // Prints numbers of a file that the last run left, from a byte on.
    fn look(&self, rt: &impl Print, rest: &str) -> Result<()> {
        let mut words = rest.split_whitespace();
        let name = words.next().context("a name is missing")?;
        let bytes = self.left.get(name).context("no such file is left")?;
        let at = size(words.next())?;
        let numbers = text_of(self.alloc, bytes, at, size(words.next())?)?;
        let numbers = numbers.context("the file has no such numbers")?;
        println!(rt; "at {at}{numbers}")?;
        Ok(())
    }
}
