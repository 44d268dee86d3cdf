//! The items of a run, in order.
//!
//! First comes a frame of each stream that domain 1 uses, unless it resumed, and then domain 1's
//! steps. A step of a domain has the starts of nests, the table, each nest that has started (its
//! force, its own steps and its feedback), the frames that are due, and after a step of domain 1
//! the restart frames that are due. Domains are numbered from 1, steps from 1, streams and items of
//! the table from 0; times are in seconds from domain 1's start.

ghost use Rattle.std.specs.Prelude.{◌≡◌, ◌+◌, ◌*◌, ◌^◌, ◌<◌, ◌≤◌, ◌==◌, ◌||◌, nat_lt, ◌++◌, ◌∷◌};
ghost use Rattle.std.specs.Prelude.{[], length, OnOk, IfOk, if◌then◌else◌, flat_map};
ghost use Rattle.std.specs.List.{range_with_len};
ghost use Rattle.wf_model.specs.Plans.{begin_of, domain_of, domains_of};
ghost use Rattle.wf_model.specs.Script.{begin_time, due_frames, entry, has_started_by, interval};
ghost use Rattle.wf_model.specs.Script.{is_due, not_before, restart_frames, script_of};
ghost use Rattle.wf_model.specs.Script.{start_frames, starts, starts_at, step_of, steps_by, table};
ghost use Rattle.wf_model.specs.ScriptParts.{IsCounted, is_nest_of, nest_start, nest_step};
ghost use Rattle.wf_model.specs.Sound.{IsDomain};

use crate::initial::Begin;
use crate::limits::{RESTART_STREAM, STREAMS};
use crate::plan::{Domain, Plan};
use crate::script::{Act, Entry};
use std::alloc::{AllocError, Global};

/// What a script is made of: a plan, and how its domains begin.
#[derive(Clone, Copy)]
pub struct ScriptSource<'a> {
    pub plan: &'a Plan,
    pub begins: &'a [Begin],
    pub ghost counted: { IsCounted plan.now begins.now },
}

/// The seconds after the run's start, and 0 for a time before it.
fn seconds_not_before(seconds: i64) -> u64
    ensures { result ≡ not_before seconds }
{
    if seconds < 0 { 0 } else { seconds as u64 }
}

/// Whether a frame is due after a step: every so many steps, and never at 0.
fn is_due_after(interval: u64, step: u64) -> bool
    ensures { result ≡ is_due interval step }
{
    interval != 0 && step % interval == 0
}

/// An item of a domain, in a step, at a time.
fn entry_of(domain: u32, step: u64, time: u64, act: Act) -> Entry
    ensures { result ≡ entry domain step time act }
{
    Entry {
        domain,
        step,
        time,
        act,
    }
}

/// Adds an item where it is wanted.
fn push_if(entries: &mut Vec<Entry>, wanted: bool, item: Entry) -> Result<(), AllocError>
    ensures { OnOk result
        (entries.new.items ≡ entries.old.items ++ (if wanted then item ∷ [] else [])) }
{
    if !wanted {
        return Ok(());
    }
    entries.push(item)?;
    Ok(())
}

impl ScriptSource<'_> {
    fn domain_count(&self) -> u32
        ensures { result ≡ length self.now.plan.now.domains }
    {
        self.plan.domains.as_slice().len() as u32
    }

    fn domain(&self, number: u32) -> &Domain
        requires { IsDomain self.now.plan.now number }
        ensures { result.now ≡ domain_of self.now.plan.now number }
    {
        &self.plan.domains.as_slice()[number as usize - 1]
    }

    fn begin(&self, number: u32) -> &Begin
        requires { IsDomain self.now.plan.now number }
        ensures { result.now ≡ begin_of self.now.begins.now number }
    {
        &self.begins[number as usize - 1]
    }

    /// When a domain begins to step in this run.
    fn begin_of_steps(&self, number: u32) -> u64
        requires { IsDomain self.now.plan.now number }
        ensures { result ≡ begin_time self.now.plan.now self.now.begins.now number }
    {
        if self.begin(number).resumed {
            return 0;
        }
        seconds_not_before(self.domain(number).begins)
    }

    /// The steps that a domain has behind it at a time.
    fn steps_behind(&self, number: u32, time: u64) -> u64
        requires domain { IsDomain self.now.plan.now number }
        requires early { time ≤ 2 ^ 62 }
        ensures value { result ≡ steps_by self.now.plan.now self.now.begins.now number time }
        ensures fits { result < 2 ^ 63 }
    {
        let since = time.saturating_sub(self.begin_of_steps(number));
        self.begin(number).steps + since / self.domain(number).seconds
    }

    /// The steps from one frame of a stream to the next, and 0 for never.
    fn stream_interval(&self, number: u32, stream: u32) -> u64
        requires domain { IsDomain self.now.plan.now number }
        requires stream { stream < 10 }
        ensures { result ≡ interval self.now.plan.now self.now.begins.now number stream }
    {
        self.domain(number).intervals.as_slice()[stream as usize]
    }

    /// Whether a domain is a nest of another one.
    fn is_nest(&self, number: u32, nest: u32) -> bool
        requires { IsDomain self.now.plan.now nest }
        ensures { result ≡ is_nest_of self.now.plan.now number nest }
    {
        1 < nest && self.domain(nest).parent == number
    }

    /// Whether a nest starts at this time. One that resumed has started before.
    fn is_starting(&self, nest: u32, time: u64) -> bool
        requires { IsDomain self.now.plan.now nest }
        ensures { result ≡ starts_at self.now.plan.now self.now.begins.now nest time }
    {
        !self.begin(nest).resumed && self.begin_of_steps(nest) == time
    }

    /// Whether a nest has started by this time.
    fn has_started(&self, nest: u32, time: u64) -> bool
        requires { IsDomain self.now.plan.now nest }
        ensures { result ≡ has_started_by self.now.plan.now self.now.begins.now nest time }
    {
        self.begin(nest).resumed || self.begin_of_steps(nest) <= time
    }

    /// Whether a domain has a restart frame at a time: it resumed, or began before.
    fn is_there(&self, number: u32, time: u64) -> bool
        requires { IsDomain self.now.plan.now number }
        ensures { result ≡ ((begin_of self.now.begins.now number).resumed
            || nat_lt (begin_time self.now.plan.now self.now.begins.now number) time) }
    {
        self.begin(number).resumed || self.begin_of_steps(number) < time
    }

    /// A frame of each stream that a domain uses, at its start.
    fn push_start_frames(
        &self,
        entries: &mut Vec<Entry>,
        number: u32,
        time: u64,
    ) -> Result<(), AllocError>
        requires { IsDomain self.now.plan.now number }
        ensures { OnOk result (entries.new.items ≡ entries.old.items
            ++ start_frames self.now.plan.now self.now.begins.now number time) }
    {
        for stream in 0..STREAMS {
            let wanted = 0 < self.stream_interval(number, stream);
            let frame = entry_of(number, 0, time, Act::Emit(stream));
            push_if(entries, wanted, frame)?;
        }
        Ok(())
    }

    /// The frames that are due after a step.
    fn push_due_frames(
        &self,
        entries: &mut Vec<Entry>,
        number: u32,
        step: u64,
        time: u64,
    ) -> Result<(), AllocError>
        requires { IsDomain self.now.plan.now number }
        ensures { OnOk result (entries.new.items ≡ entries.old.items
            ++ due_frames self.now.plan.now self.now.begins.now number step time) }
    {
        for stream in 0..STREAMS {
            let wanted = is_due_after(self.stream_interval(number, stream), step);
            let frame = entry_of(number, step, time, Act::Emit(stream));
            push_if(entries, wanted, frame)?;
        }
        Ok(())
    }

    /// All items of the table.
    fn push_table(
        &self,
        entries: &mut Vec<Entry>,
        number: u32,
        step: u64,
        time: u64,
    ) -> Result<(), AllocError>
        ensures { OnOk result (entries.new.items ≡ entries.old.items
            ++ table self.now.plan.now self.now.begins.now number step time) }
    {
        let count = self.plan.items.as_slice().len() as u32;
        for place in 0..count {
            entries.push(entry_of(number, step, time, Act::Table(place)))?;
        }
        Ok(())
    }

    /// A restart frame of each domain that has started, where they are due after this step of a
    /// domain, and it is domain 1.
    fn push_restart_frames(
        &self,
        entries: &mut Vec<Entry>,
        number: u32,
        step: u64,
        time: u64,
    ) -> Result<(), AllocError>
        requires { time ≤ 2 ^ 62 }
        ensures { OnOk result (entries.new.items ≡ entries.old.items
            ++ (if number == 1
            then restart_frames self.now.plan.now self.now.begins.now step time else [])) }
    {
        if number != 1 {
            return Ok(());
        }
        if !is_due_after(self.plan.restart_steps, step) {
            return Ok(());
        }
        for domain in 1..self.domain_count() + 1 {
            let steps = self.steps_behind(domain, time);
            let frame = entry_of(domain, steps, time, Act::Emit(RESTART_STREAM));
            push_if(entries, self.is_there(domain, time), frame)?;
        }
        Ok(())
    }

    /// The start of a domain and its frames, where it is a nest of another one that starts at
    /// this time.
    fn push_nest_start(
        &self,
        entries: &mut Vec<Entry>,
        number: u32,
        time: u64,
        nest: u32,
    ) -> Result<(), AllocError>
        requires { IsDomain self.now.plan.now nest }
        ensures { OnOk result (entries.new.items ≡ entries.old.items
            ++ nest_start self.now.plan.now self.now.begins.now number time nest) }
    {
        if !self.is_nest(number, nest) {
            return Ok(());
        }
        if !self.is_starting(nest, time) {
            return Ok(());
        }
        entries.push(entry_of(nest, 0, time, Act::Start))?;
        self.push_start_frames(entries, nest, time)
    }

    /// The nests of a domain that start at this time, in order of number.
    fn push_starts(
        &self,
        entries: &mut Vec<Entry>,
        number: u32,
        time: u64,
    ) -> Result<(), AllocError>
        ensures { OnOk result (entries.new.items ≡ entries.old.items
            ++ starts self.now.plan.now self.now.begins.now number time) }
    {
        for nest in 1..self.domain_count() + 1 {
            self.push_nest_start(entries, number, time, nest)?;
        }
        Ok(())
    }

    /// One step of a domain, which begins at this time, with those of the nests at most so many
    /// below it.
    #[cycle(step)]
    fn push_step(
        &self,
        entries: &mut Vec<Entry>,
        depth: u32,
        number: u32,
        time: u64,
    ) -> Result<(), AllocError>
        requires domain { IsDomain self.now.plan.now number }
        requires early { time + (domain_of self.now.plan.now number).seconds ≤ 2 ^ 62 }
        ensures { OnOk result (entries.new.items ≡ entries.old.items
            ++ step_of self.now.plan.now self.now.begins.now depth number time) }
    {
        if depth == 0 {
            return Ok(());
        }
        let step = self.steps_behind(number, time) + 1;
        let end = time + self.domain(number).seconds;
        self.push_starts(entries, number, time)?;
        self.push_table(entries, number, step, time)?;
        self.push_nests(entries, depth - 1, number, step, time)?;
        self.push_due_frames(entries, number, step, end)?;
        self.push_restart_frames(entries, number, step, end)
    }

    /// The nests of a domain in a step of it, in order of number.
    #[cycle(step)]
    fn push_nests(
        &self,
        entries: &mut Vec<Entry>,
        depth: u32,
        number: u32,
        step: u64,
        time: u64,
    ) -> Result<(), AllocError>
        requires domain { IsDomain self.now.plan.now number }
        requires early { time + (domain_of self.now.plan.now number).seconds ≤ 2 ^ 62 }
        ensures { OnOk result (entries.new.items ≡ entries.old.items
            ++ flat_map (nest_step self.now.plan.now self.now.begins.now depth number step time)
            (domains_of self.now.plan.now)) }
    {
        for nest in 1..self.domain_count() + 1 {
            self.push_nest(entries, depth, number, step, time, nest)?;
        }
        Ok(())
    }

    /// The force, the steps and the feedback of a domain in a step of another one, where it is a
    /// nest of that one and has started.
    #[cycle(step)]
    fn push_nest(
        &self,
        entries: &mut Vec<Entry>,
        depth: u32,
        number: u32,
        step: u64,
        time: u64,
        nest: u32,
    ) -> Result<(), AllocError>
        requires early { time + (domain_of self.now.plan.now number).seconds ≤ 2 ^ 62 }
        requires nest { IsDomain self.now.plan.now nest }
        ensures { OnOk result (entries.new.items ≡ entries.old.items
            ++ nest_step self.now.plan.now self.now.begins.now depth number step time nest) }
    {
        if !self.is_nest(number, nest) {
            return Ok(());
        }
        if !self.has_started(nest, time) {
            return Ok(());
        }
        let own_step = self.steps_behind(nest, time) + 1;
        let feedback = entry_of(nest, step, time, Act::Feedback);
        entries.push(entry_of(nest, own_step, time, Act::Force))?;
        self.push_nest_steps(entries, depth, nest, time)?;
        push_if(entries, self.plan.feedback, feedback)
    }

    /// A nest's own steps in one of its parent's.
    #[cycle(step)]
    fn push_nest_steps(
        &self,
        entries: &mut Vec<Entry>,
        depth: u32,
        nest: u32,
        time: u64,
    ) -> Result<(), AllocError>
        requires domain { IsDomain self.now.plan.now nest }
        requires early { time + (domain_of self.now.plan.now nest).seconds
            * (domain_of self.now.plan.now nest).time_ratio ≤ 2 ^ 62 }
        ensures { OnOk result (entries.new.items ≡ entries.old.items
            ++ flat_map (λ n. step_of self.now.plan.now self.now.begins.now depth nest
            (time + n * (domain_of self.now.plan.now nest).seconds))
            (range_with_len 0 (domain_of self.now.plan.now nest).time_ratio)) }
    {
        let seconds = self.domain(nest).seconds;
        for n in 0..u64::from(self.domain(nest).time_ratio) {
            self.push_step(entries, depth, nest, time + n * seconds)?;
        }
        Ok(())
    }

    /// The frames at domain 1's start, unless it resumed.
    fn push_first_start(&self, entries: &mut Vec<Entry>) -> Result<(), AllocError>
        ensures { OnOk result (entries.new.items ≡ entries.old.items
            ++ (if (begin_of self.now.begins.now 1).resumed then []
            else start_frames self.now.plan.now self.now.begins.now 1 0)) }
    {
        if self.begin(1).resumed {
            return Ok(());
        }
        self.push_start_frames(entries, 1, 0)
    }

    /// All steps of domain 1.
    fn push_steps(&self, entries: &mut Vec<Entry>) -> Result<(), AllocError>
        requires { self.now.plan.now.steps * (domain_of self.now.plan.now 1).seconds ≤ 2 ^ 62 }
        ensures { OnOk result (entries.new.items ≡ entries.old.items
            ++ flat_map (λ n. step_of self.now.plan.now self.now.begins.now
            (length self.now.plan.now.domains) 1 (n * (domain_of self.now.plan.now 1).seconds))
            (range_with_len 0 self.now.plan.now.steps)) }
    {
        let seconds = self.domain(1).seconds;
        for n in 0..self.plan.steps {
            self.push_step(entries, self.domain_count(), 1, n * seconds)?;
        }
        Ok(())
    }

    /// All items of the run.
    pub fn script(&self, alloc: Global) -> Result<Vec<Entry>, AllocError>
        requires { self.now.plan.now.steps * (domain_of self.now.plan.now 1).seconds ≤ 2 ^ 62 }
        ensures { IfOk result (λ v. v.items ≡ script_of self.now.plan.now self.now.begins.now) }
    {
        let mut entries = Vec::new(alloc);
        self.push_first_start(&mut entries)?;
        self.push_steps(&mut entries)?;
        Ok(entries)
    }
}
