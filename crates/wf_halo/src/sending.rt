//! The messages that a patch sends.

ghost use Rattle.std.specs.Prelude.{All, IfOk, OnOk};
ghost use Rattle.wf_model.specs.Agreement.{IsPatch};
ghost use Rattle.wf_model.specs.Exchange.{carried};
ghost use Rattle.wf_model.specs.Outcome.{entry_at};
ghost use Rattle.wf_model.specs.Patches.{split_of};
ghost use Rattle.wf_model.specs.SoundRun.{IsSoundRun};
ghost use Rattle.wf_model.specs.Kept.{IsSoundPatch};
ghost use Rattle.wf_halo.specs.Exchange.{Adds, AreLinked, HoldsOwnNumbers, IsExchange, IsMessage};
ghost use Rattle.wf_halo.specs.Exchange.{IsSender, brought, halo_list, item_cells, period_list};
ghost use Rattle.wf_halo.specs.Parts.{IsLink, around};

use crate::exchange::entry;
use crate::packing::pack_part;
use crate::parts::{Between, around, part_of};
use std::alloc::{AllocError, Global};
use wf_field::Memory;
use wf_model::{Act, HaloPart, Item, Message, PeriodPart, Run, RunName};

/// Adds the numbers of a part of a halo, or with `outside` of a period of that width.
fn pack_one<N: RunName>(
    values: &mut Vec<i32>,
    memory: &Memory<N>,
    run: &Run<N>,
    between: Between,
    part: HaloPart,
    outside: bool,
) -> Result<(), AllocError>
    requires sender { IsSender memory.now between }
    requires link { IsLink N.run N.layout between part }
    ensures { OnOk result (Adds N.run N.layout memory.now
        (brought N.run.plan N.layout between outside part) values.old.items values.new.items) }
{
    let part = part_of(run, between, part, outside);
    pack_part(values, memory, &part)
}

/// Adds those of all parts of a halo.
fn pack_halos<N: RunName>(
    values: &mut Vec<i32>,
    memory: &Memory<N>,
    run: &Run<N>,
    between: Between,
    parts: &[HaloPart],
) -> Result<(), AllocError>
    requires sender { IsSender memory.now between }
    requires links { All (IsLink N.run N.layout between) parts.now }
    ensures { OnOk result (Adds N.run N.layout memory.now
        (halo_list N.run.plan N.layout between parts.now) values.old.items values.new.items) }
{
    for part in parts {
        pack_one(values, memory, run, between, *part, false)?;
    }
    Ok(())
}

/// Adds those of all parts of a period.
fn pack_periods<N: RunName>(
    values: &mut Vec<i32>,
    memory: &Memory<N>,
    run: &Run<N>,
    between: Between,
    parts: &[PeriodPart],
) -> Result<(), AllocError>
    requires sender { IsSender memory.now between }
    requires links { All (λ x. IsLink N.run N.layout between (around x)) parts.now }
    ensures { OnOk result (Adds N.run N.layout memory.now
        (period_list N.run.plan N.layout between parts.now) values.old.items values.new.items) }
{
    for part in parts {
        pack_one(values, memory, run, between, around(*part), true)?;
    }
    Ok(())
}

/// Adds the numbers of an item.
fn pack_item<N: RunName>(
    values: &mut Vec<i32>,
    memory: &Memory<N>,
    run: &Run<N>,
    between: Between,
    item: &Item,
) -> Result<(), AllocError>
    requires sender { IsSender memory.now between }
    requires links { AreLinked N.run N.layout between item.now }
    ensures { OnOk result (Adds N.run N.layout memory.now
        (item_cells N.run.plan N.layout between item.now) values.old.items values.new.items) }
{
    match item {
        Item::Halo(parts) => pack_halos(values, memory, run, between, parts.as_slice()),
        Item::Period(parts) => pack_periods(values, memory, run, between, parts.as_slice()),
        Item::Swap(_, _) => Ok(()),
        Item::Phase(_) => Ok(()),
    }
}

/// Adds the numbers of the item at a place.
fn pack_place<N: RunName>(
    values: &mut Vec<i32>,
    memory: &Memory<N>,
    run: &Run<N>,
    place: u32,
    between: Between,
) -> Result<(), AllocError>
    requires sound { IsSoundRun N.run }
    requires held { IsSoundPatch N.run.plan N.layout memory.now.domain memory.now.patch }
    requires sender { IsSender memory.now between }
    requires place { IsExchange N.run place memory.now.domain }
    requires to { IsPatch N.layout between.to }
    ensures { OnOk result (Adds N.run N.layout memory.now
        (carried N.run.plan (split_of N.layout) (entry_at N.run place)
        (entry_at N.run place).act memory.now.patch between.to) values.old.items values.new.items) }
{
    match entry(run, place).act {
        Act::Table(number) => pack_item(values, memory, run, between, run.plan().item(number)),
        _ => Ok(()),
    }
}

/// The message of a halo or a period from the memory's patch to a patch of its domain, the same one
/// included.
pub fn pack<N: RunName>(
    alloc: Global,
    memory: &Memory<N>,
    place: u32,
    to: u32,
    run: &Run<N>,
) -> Result<Message<N>, AllocError>
    requires sound { IsSoundRun N.run }
    requires place { IsExchange N.run place memory.now.domain }
    requires to { IsPatch N.layout to }
    requires numbers { HoldsOwnNumbers N.run N.layout place memory.now }
    ensures { IfOk result (IsMessage place memory.now.patch to) }
{
    let mut values = Vec::new(alloc);
    let between = Between {
        domain: memory.domain(),
        to,
        from: memory.patch(),
    };
    pack_place(&mut values, memory, run, place, between)?;
    Ok(Message::new(place, between.from, to, values))
}
