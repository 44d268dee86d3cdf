//! Files that are read inside one another.

ghost use Rattle.std.specs.Prelude.{◌≡◌, ◌∷◌, ◌+◌, ◌<◌, ◌≤◌, ◌^◌, IfOk, IfSome, MatchResult, Ok};
ghost use Rattle.std.specs.Prelude.{length, map, position, reverse, slice_get};
ghost use Rattle.std.specs.List.{All};
ghost use Rattle.std.specs.Str.{bytes_eq};
ghost use Rattle.wf_model.specs.KeptLines.{columns, fault_line, first_column, included, kept_line};
ghost use Rattle.wf_model.specs.KeptLines.{registry_lines, texts, with_line};
ghost use Rattle.wf_model.specs.Letters.{is_among};
ghost use Rattle.wf_model.specs.Reading.{Gives};
ghost use Rattle.wf_registry_lines.specs.Ahead.{ahead_met, entered_met, file_at_met, next_met};
ghost use Rattle.wf_registry_lines.specs.Ahead.{seen};
ghost use Rattle.wf_registry_lines.specs.FileLines.{IsHeld, held};
ghost use Rattle.wf_registry_lines.specs.Kept.{name_at, text_at};
ghost use Rattle.wf_registry_lines.specs.Met.{ArePlaced, AreLeftPlaced, IsStop, entered_in};
ghost use Rattle.wf_registry_lines.specs.Met.{includes_at, met_in, seen_in, within_in};

use crate::KeptLine;
use crate::ahead::{AheadLine, FileLine, ahead, file_lines};
use crate::condition::{Conditions, deeper, shallower};
use crate::kind::{Kind, first_column, is_dimspec};
use crate::progress::{Progress, ReadingError, stop};
use std::alloc::{AllocError, Global};
use wf_model::limits::{REGISTRY_FILES, REGISTRY_LINES};
use wf_model::{Bytes, Line, Name, RegistryKind, SourceFile, TextFault};

/// The files, and the names that are defined.
#[derive(Drop)]
pub struct Reader<'a> {
    pub alloc: Global,
    pub files: &'a [SourceFile],
    pub defines: &'a [(Name, Name)],
}

/// The place of the first file with this name.
fn place_of(files: &[SourceFile], name: &[u8]) -> Option<usize>
    ensures place { result ≡ position (λ f. bytes_eq f.name name.now) files.now }
    ensures bound { IfSome result (λ k. k < length files.now) }
{
    files.iter().position(|file| file.name.as_slice() == name)
}

/// The places of the files that are being read, with one more at the front.
fn with_place(alloc: Global, place: usize, reading: &[usize]) -> Result<Vec<usize>, AllocError>
    ensures { IfOk result (λ v. v.items ≡ place ∷ reading.now) }
{
    let mut places = Vec::new(alloc);
    places.push(place)?;
    places.extend_from_slice(reading)?;
    Ok(places)
}

/// The physical line of a text's fault.
fn fault_line(fault: TextFault) -> u32
    ensures { result ≡ fault_line fault }
{
    match fault {
        TextFault::UnclosedQuote { line, column: _ } | TextFault::DanglingBackslash { line } => {
            line
        }
    }
}

/// Whether one of the files at these places has this name.
fn is_among(files: &[SourceFile], name: &[u8], reading: &[usize]) -> bool
    requires { All (λ k. k < length files.now) reading.now }
    ensures { result ≡ is_among name.now (map (name_at files.now) reading.now) }
{
    for place in reading {
        if name == files[*place].name.as_slice() {
            return true;
        }
    }
    false
}

impl Reader<'_> {
    /// Reading stops in the file at this place, or memory runs out.
    fn stop(&self, place: usize, line: u32, kind: RegistryKind, progress: Progress) -> ReadingError
        requires { place < length self.now.files.now }
        ensures { IsStop progress (name_at self.now.files.now place) line kind result }
    {
        let file = self.files[place].name.as_slice();
        stop(self.alloc, progress, file, line, kind)
    }

    /// Goes on after an ifdef or an endif, if nothing is wrong with it.
    fn entered(
        &self,
        place: usize,
        line: u32,
        within: Result<Conditions, RegistryKind>,
        progress: Progress,
    ) -> Result<(Progress, Conditions), ReadingError>
        requires place { place < length self.now.files.now }
        requires placed { ArePlaced self.now.files.now progress }
        ensures read { Gives (entered_in self.now.files.now) (seen_in self.now.files.now) result
            (entered_met (met_in self.now.files.now progress)
            (name_at self.now.files.now place) line within) }
        ensures placed { MatchResult result (λ x. ArePlaced self.now.files.now x.0)
            (λ e. AreLeftPlaced self.now.files.now e) }
        ensures within { IfOk result (λ x. within ≡ Ok x.1) }
    {
        match within {
            Ok(within) => Ok((progress, within)),
            Err(kind) => Err(self.stop(place, line, kind, progress)),
        }
    }

    /// Adds a line that counts.
    fn kept(
        &self,
        place: usize,
        line: &FileLine,
        mut progress: Progress,
    ) -> Result<Progress, ReadingError>
        requires place { place < length self.now.files.now }
        requires held { IsHeld (text_at self.now.files.now place) line.now }
        requires placed { ArePlaced self.now.files.now progress }
        ensures read { Gives (met_in self.now.files.now) (seen_in self.now.files.now) result
            (Ok (with_line (met_in self.now.files.now progress) (kept_line (name_at
            self.now.files.now place) (held (text_at self.now.files.now place) line.now)))) }
        ensures placed { MatchResult result (λ p. ArePlaced self.now.files.now p)
            (λ e. AreLeftPlaced self.now.files.now e) }
    {
        progress.kept.push(KeptLine {
            file: place,
            number: line.line.number,
            from: line.from,
            before: line.before,
            dimspec: is_dimspec(line.kind),
        })?;
        Ok(progress)
    }

    /// Reads the file that an include with this line's number names.
    #[cycle(reader)]
    fn named(
        &self,
        depth: u32,
        reading: &[usize],
        place: usize,
        line: u32,
        name: &[u8],
        mut progress: Progress,
    ) -> Result<Progress, ReadingError>
        requires place { place < length self.now.files.now }
        requires reading { All (λ k. k < length self.now.files.now) reading.now }
        requires placed { ArePlaced self.now.files.now progress }
        ensures read { Gives (met_in self.now.files.now) (seen_in self.now.files.now) result
            (includes_at depth self.now.files.now self.now.defines.now reading.now
            (met_in self.now.files.now progress) (name_at self.now.files.now place) line name.now) }
        ensures placed { MatchResult result (λ p. ArePlaced self.now.files.now p)
            (λ e. AreLeftPlaced self.now.files.now e) }
    {
        if depth == 0 || progress.files >= REGISTRY_FILES {
            return Err(self.stop(place, line, RegistryKind::TooLong, progress));
        }
        if is_among(self.files, name, reading) {
            return Err(self.stop(place, line, RegistryKind::IncludeLoop, progress));
        }
        match place_of(self.files, name) {
            None => {
                let wanted = Bytes::from_vec(Vec::from_slice(self.alloc, name)?);
                let kind = RegistryKind::MissingInclude(wanted);
                Err(self.stop(place, line, kind, progress))
            }
            Some(named) => {
                progress.files += 1;
                let reading = with_place(self.alloc, named, reading)?;
                self.file(depth - 1, &reading, named, progress)
            }
        }
    }

    /// Reads the file that an include names.
    #[cycle(reader)]
    fn include(
        &self,
        depth: u32,
        reading: &[usize],
        place: usize,
        line: &Line,
        progress: Progress,
    ) -> Result<Progress, ReadingError>
        requires place { place < length self.now.files.now }
        requires reading { All (λ k. k < length self.now.files.now) reading.now }
        requires placed { ArePlaced self.now.files.now progress }
        ensures read { Gives (met_in self.now.files.now) (seen_in self.now.files.now) result
            (included (includes_at depth self.now.files.now self.now.defines.now reading.now)
            (met_in self.now.files.now progress) (name_at self.now.files.now place) line.now.number
            (first_column (columns (texts line.now)))) }
        ensures placed { MatchResult result (λ p. ArePlaced self.now.files.now p)
            (λ e. AreLeftPlaced self.now.files.now e) }
    {
        match first_column(line) {
            None => Err(self.stop(place, line.number, RegistryKind::Columns, progress)),
            Some(name) => self.named(depth, reading, place, line.number, name, progress),
        }
    }

    /// Reads one line of a file.
    #[cycle(reader)]
    fn line(
        &self,
        depth: u32,
        reading: &[usize],
        place: usize,
        next: AheadLine,
        within: Conditions,
        mut progress: Progress,
    ) -> Result<(Progress, Conditions), ReadingError>
        requires place { place < length self.now.files.now }
        requires reading { All (λ k. k < length self.now.files.now) reading.now }
        requires held { IsHeld (text_at self.now.files.now place) next.line }
        requires within { within.keeping + within.dropping + 1 < 2 ^ 64 }
        requires placed { ArePlaced self.now.files.now progress }
        ensures read { Gives (entered_in self.now.files.now) (seen_in self.now.files.now) result
            (next_met self.now.defines.now
            (includes_at depth self.now.files.now self.now.defines.now reading.now)
            (name_at self.now.files.now place) (met_in self.now.files.now progress)
            (within_in within) (seen (text_at self.now.files.now place) next)) }
        ensures placed { MatchResult result (λ x. ArePlaced self.now.files.now x.0)
            (λ e. AreLeftPlaced self.now.files.now e) }
        ensures within { IfOk result
            (λ x. x.1.keeping + x.1.dropping ≤ within.keeping + within.dropping + 1) }
    {
        let line = &next.line.line;
        if progress.lines >= REGISTRY_LINES {
            return Err(self.stop(place, line.number, RegistryKind::TooLong, progress));
        }
        progress.lines += 1;
        match next.line.kind {
            Kind::Ifdef => {
                let inside = deeper(self.defines, line, next.closed, within);
                self.entered(place, line.number, inside, progress)
            }
            Kind::Endif => self.entered(place, line.number, shallower(within), progress),
            Kind::Include if within.dropping == 0 => {
                let progress = self.include(depth, reading, place, line, progress)?;
                Ok((progress, within))
            }
            Kind::Dimspec | Kind::Other if within.dropping == 0 => {
                let progress = self.kept(place, &next.line, progress)?;
                Ok((progress, within))
            }
            Kind::Include | Kind::Dimspec | Kind::Other => Ok((progress, within)),
        }
    }

    /// Reads the lines of a file, which stand there the last one first.
    #[cycle(reader)]
    fn lines(
        &self,
        depth: u32,
        reading: &[usize],
        place: usize,
        mut ahead: Vec<AheadLine>,
        mut progress: Progress,
    ) -> Result<Progress, ReadingError>
        requires place { place < length self.now.files.now }
        requires reading { All (λ k. k < length self.now.files.now) reading.now }
        requires held { All (λ a. IsHeld (text_at self.now.files.now place) a.line) ahead.items }
        requires placed { ArePlaced self.now.files.now progress }
        ensures read { Gives (met_in self.now.files.now) (seen_in self.now.files.now) result
            (ahead_met self.now.defines.now (includes_at depth self.now.files.now
            self.now.defines.now reading.now) (name_at self.now.files.now place)
            (met_in self.now.files.now progress) (record { keeping = 0; dropping = 0 })
            (map (seen (text_at self.now.files.now place)) (reverse ahead.items))) }
        ensures placed { MatchResult result (λ p. ArePlaced self.now.files.now p)
            (λ e. AreLeftPlaced self.now.files.now e) }
    {
        let mut within = Conditions {
            keeping: 0,
            dropping: 0,
        };
        while let Some(next) = ahead.pop() {
            let (after, inside) = self.line(depth, reading, place, next, within, progress)?;
            progress = after;
            within = inside;
        }
        Ok(progress)
    }

    /// Reads the file at this place, which is the first of those that are being read.
    #[cycle(reader)]
    fn file(
        &self,
        depth: u32,
        reading: &[usize],
        place: usize,
        progress: Progress,
    ) -> Result<Progress, ReadingError>
        requires place { place < length self.now.files.now }
        requires reading { All (λ k. k < length self.now.files.now) reading.now }
        requires placed { ArePlaced self.now.files.now progress }
        ensures read { Gives (met_in self.now.files.now) (seen_in self.now.files.now) result
            (file_at_met self.now.defines.now
            (includes_at depth self.now.files.now self.now.defines.now reading.now)
            (met_in self.now.files.now progress) (slice_get self.now.files.now place)) }
        ensures placed { MatchResult result (λ p. ArePlaced self.now.files.now p)
            (λ e. AreLeftPlaced self.now.files.now e) }
    {
        let Ok(text) = str::from_utf8(self.files[place].text.as_slice()) else {
            return Err(self.stop(place, 0, RegistryKind::NotText, progress));
        };
        let read = file_lines(self.alloc, text.as_bytes())?;
        let ahead = ahead(self.alloc, read.lines, read.fault.is_some())?;
        let progress = self.lines(depth, reading, place, ahead, progress)?;
        match read.fault {
            None => Ok(progress),
            Some(fault) => {
                Err(self.stop(place, fault_line(fault), RegistryKind::BadText, progress))
            }
        }
    }

    /// Reads all lines that count, from the file `Registry` on.
    pub fn registry(&self) -> Result<Progress, ReadingError>
        ensures read { Gives (met_in self.now.files.now) (seen_in self.now.files.now) result
            (registry_lines self.now.files.now self.now.defines.now) }
        ensures placed { MatchResult result (λ p. ArePlaced self.now.files.now p)
            (λ e. AreLeftPlaced self.now.files.now e) }
    {
        let progress = Progress {
            kept: Vec::new(self.alloc),
            lines: 0,
            files: 1,
        };
        match place_of(self.files, b"Registry") {
            None => {
                let kind = RegistryKind::MissingFile;
                Err(stop(self.alloc, progress, b"Registry", 0, kind))
            }
            Some(place) => self.file(REGISTRY_FILES, &[place], place, progress),
        }
    }
}
