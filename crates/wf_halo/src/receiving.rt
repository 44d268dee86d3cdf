//! What a patch takes of a message: the cells that its item brings, each set to its number.

ghost use Rattle.std.specs.Prelude.{◌≡◌, ◌≤◌, All, length, zip};
ghost use Rattle.wf_model.specs.Agreement.{IsPatch};
ghost use Rattle.wf_model.specs.Exchange.{carried};
ghost use Rattle.wf_model.specs.Kept.{IsSoundPatch};
ghost use Rattle.wf_model.specs.Outcome.{entry_at};
ghost use Rattle.wf_model.specs.PatchEffect.{fetch_setting};
ghost use Rattle.wf_model.specs.Patches.{split_of};
ghost use Rattle.wf_model.specs.SoundRun.{IsSoundRun};
ghost use Rattle.wf_field.specs.Kept.{IsSamePatch, Keeps, Sets};
ghost use Rattle.wf_halo.specs.Exchange.{AreLinked, IsExchange, IsReceiver, brought, halo_list};
ghost use Rattle.wf_halo.specs.Exchange.{item_cells, period_list};
ghost use Rattle.wf_halo.specs.Parts.{IsLink, around};
ghost use Rattle.wf_halo.specs.Walks.{SetsBy};

use crate::exchange::entry;
use crate::parts::{Between, around, part_of};
use crate::unpacking::{behind, unpack_part};
use wf_field::Memory;
use wf_model::{Act, HaloPart, Item, Message, PeriodPart, Run, RunName};

/// Sets the cells of a part of a halo, or with `outside` of a period of that width, and tells how
/// many numbers it took.
fn unpack_one<N: RunName>(
    memory: &mut Memory<N>,
    run: &Run<N>,
    between: Between,
    part: HaloPart,
    outside: bool,
    values: &[i32],
) -> usize
    requires receiver { IsReceiver memory.old between }
    requires link { IsLink N.run N.layout between part }
    requires kept { All (Keeps N.run.plan N.layout memory.old)
        (brought N.run.plan N.layout between outside part) }
    requires long { length (brought N.run.plan N.layout between outside part) ≤ length values.now }
    ensures used { result ≡ length (brought N.run.plan N.layout between outside part) }
    ensures same { IsSamePatch memory.old memory.new }
    ensures set { SetsBy N.run.plan N.layout values.now
        (brought N.run.plan N.layout between outside part) memory.old memory.new }
{
    let part = part_of(run, between, part, outside);
    unpack_part(memory, &part, values)
}

/// Sets those of all parts of a halo.
fn unpack_halos<N: RunName>(
    memory: &mut Memory<N>,
    run: &Run<N>,
    between: Between,
    parts: &[HaloPart],
    values: &[i32],
)
    requires receiver { IsReceiver memory.old between }
    requires links { All (IsLink N.run N.layout between) parts.now }
    requires kept { All (Keeps N.run.plan N.layout memory.old)
        (halo_list N.run.plan N.layout between parts.now) }
    requires long { length (halo_list N.run.plan N.layout between parts.now) ≤ length values.now }
    ensures same { IsSamePatch memory.old memory.new }
    ensures set { SetsBy N.run.plan N.layout values.now
        (halo_list N.run.plan N.layout between parts.now) memory.old memory.new }
{
    let mut used = 0;
    for part in parts {
        let rest = behind(values, used);
        used += unpack_one(memory, run, between, *part, false, rest);
    }
}

/// Sets those of all parts of a period.
fn unpack_periods<N: RunName>(
    memory: &mut Memory<N>,
    run: &Run<N>,
    between: Between,
    parts: &[PeriodPart],
    values: &[i32],
)
    requires receiver { IsReceiver memory.old between }
    requires links { All (λ x. IsLink N.run N.layout between (around x)) parts.now }
    requires kept { All (Keeps N.run.plan N.layout memory.old)
        (period_list N.run.plan N.layout between parts.now) }
    requires long { length (period_list N.run.plan N.layout between parts.now) ≤ length values.now }
    ensures same { IsSamePatch memory.old memory.new }
    ensures set { SetsBy N.run.plan N.layout values.now
        (period_list N.run.plan N.layout between parts.now) memory.old memory.new }
{
    let mut used = 0;
    for part in parts {
        let rest = behind(values, used);
        used += unpack_one(memory, run, between, around(*part), true, rest);
    }
}

/// Sets the cells of an item.
fn unpack_item<N: RunName>(
    memory: &mut Memory<N>,
    run: &Run<N>,
    between: Between,
    item: &Item,
    values: &[i32],
)
    requires receiver { IsReceiver memory.old between }
    requires links { AreLinked N.run N.layout between item.now }
    requires kept { All (Keeps N.run.plan N.layout memory.old)
        (item_cells N.run.plan N.layout between item.now) }
    requires long { length (item_cells N.run.plan N.layout between item.now) ≤ length values.now }
    ensures same { IsSamePatch memory.old memory.new }
    ensures set { SetsBy N.run.plan N.layout values.now
        (item_cells N.run.plan N.layout between item.now) memory.old memory.new }
{
    match item {
        Item::Halo(parts) => unpack_halos(memory, run, between, parts.as_slice(), values),
        Item::Period(parts) => unpack_periods(memory, run, between, parts.as_slice(), values),
        Item::Swap(_, _) => {}
        Item::Phase(_) => {}
    }
}

/// Sets the cells of the item at a place.
fn unpack_place<N: RunName>(
    memory: &mut Memory<N>,
    run: &Run<N>,
    place: u32,
    between: Between,
    values: &[i32],
)
    requires sound { IsSoundRun N.run }
    requires held { IsSoundPatch N.run.plan N.layout memory.old.domain memory.old.patch }
    requires receiver { IsReceiver memory.old between }
    requires place { IsExchange N.run place memory.old.domain }
    requires from { IsPatch N.layout between.from }
    requires long { length (carried N.run.plan (split_of N.layout) (entry_at N.run place)
        (entry_at N.run place).act between.from memory.old.patch) ≤ length values.now }
    ensures same { IsSamePatch memory.old memory.new }
    ensures set { SetsBy N.run.plan N.layout values.now
        (carried N.run.plan (split_of N.layout) (entry_at N.run place)
        (entry_at N.run place).act between.from memory.old.patch) memory.old memory.new }
{
    match entry(run, place).act {
        Act::Table(number) => {
            unpack_item(memory, run, between, run.plan().item(number), values);
        }
        _ => {}
    }
}

/// Sets the cells that a message of a halo or a period brings to their numbers, and no others.
pub fn unpack<N: RunName>(memory: &mut Memory<N>, message: Message<N>, run: &Run<N>)
    requires sound { IsSoundRun N.run }
    requires place { IsExchange N.run message.place memory.old.domain }
    requires from { IsPatch N.layout message.from }
    requires to { message.to ≡ memory.old.patch }
    ensures same { IsSamePatch memory.old memory.new }
    ensures set { Sets N.run.plan N.layout (fetch_setting
        (zip (carried N.run.plan (split_of N.layout) (entry_at N.run message.place) (entry_at N.run
        message.place).act message.from message.to) message.values)) memory.old memory.new }
{
    let between = Between {
        domain: memory.domain(),
        to: memory.patch(),
        from: message.from(),
    };
    unpack_place(memory, run, message.place(), between, message.values());
}
