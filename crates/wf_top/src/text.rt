//! What a demo prints.

ghost use Rattle.std.specs.Prelude.{◌≡◌, ◌+◌, ◌*◌, ◌≤◌, ◌++◌, pos, sum_by, IfOk, string_bytes};
ghost use Rattle.std.specs.List.{range_with_len};
ghost use Rattle.wf_model.specs.declared.plan_fault.LayoutFault.TheVariants.{TooManyPatches};
ghost use Rattle.wf_model.specs.Refusals.{layout_refusal};
ghost use Rattle.wf_model.specs.Answer.{summary_line, memory_text, how};
ghost use Rattle.wf_model.specs.Demo.{frame_sum, demo_summary, demo_memories};
ghost use Rattle.wf_top.specs.Limits.{InLimits};
ghost use Rattle.wf_top.specs.Domains.{IsDomain, IsEnd};

use crate::memory::memory_lines;
use crate::patches::Patches;
use std::alloc::{AllocError, Global};
use wf_model::Demo;

fn summary_line(alloc: Global, records: u32, bytes: u32, sum: u64) -> Result<String, AllocError>
    ensures { IfOk result (λ t. string_bytes t
        ≡ summary_line (record { files = 1; records = records; bytes = bytes; sum = sum })) }
{
    let files = 1;
    format!(in alloc; "files {files} records {records} bytes {bytes} sum {sum}\n")
}

/// The summary of a demo whose frames' bytes sum to `sum`, and the lines on its memories.
pub fn demo_text(
    alloc: Global,
    demo: &Demo,
    sum: u64,
    patches: &Patches,
) -> Result<String, AllocError>
    requires limits { InLimits demo.now }
    requires sum { sum
        ≡ sum_by (frame_sum demo.now.nx demo.now.ny) (range_with_len 0 (demo.now.steps + 1)) }
    requires domain { IsDomain patches.now }
    requires end { IsEnd demo.now patches.now }
    ensures { IfOk result (λ t. string_bytes t ≡ summary_line (demo_summary demo.now)
        ++ memory_text (how demo.now.each) (demo_memories demo.now)) }
{
    let records = demo.steps + 1;
    let bytes = records * (20 + 4 * (demo.nx * demo.ny));
    let mut text = summary_line(alloc, records, bytes, sum)?;
    text.push_str(&memory_lines(alloc, demo, patches)?)?;
    Ok(text)
}

/// The line that refuses more patches than there are columns.
pub fn too_many_patches(alloc: Global, px: u32) -> Result<String, AllocError>
    ensures { IfOk result (λ t. string_bytes t ≡ (layout_refusal (TooManyPatches 1 px)).line) }
{
    let domain = 1;
    format!(in alloc; "layout TooManyPatches {domain} {px}\n")
}
