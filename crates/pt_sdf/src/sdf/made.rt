// What a core makes when it is made or copied: in stages, so that few values are at hand where one can't be made.

ghost use Rattle.std.specs.Prelude.{◌≡◌, ◌<◌, ◌≤◌, ◌^◌, length, IfOk};
ghost use Rattle.pt_meaning.specs.Running.{total};
ghost use Rattle.pt_sdf_parts.specs.Lanes.{AreTables};
ghost use Rattle.pt_sdf_parts.specs.Rooms.{HaveRooms};

use pt_firing::Tokens;
use pt_recv::Channels;
use pt_sdf_parts::{CorePlan, Tables, copies_of_lists, empty_lists, make_ready, rooms_for};
use pt_value::Token;
use std::alloc::{AllocError, Global};

/// What a core makes of its plan, and a copy of the tokens on its channels.
#[derive(Drop)]
pub(super) struct Made {
    pub(super) tables: Tables,
    pub(super) channels: Channels,
    pub(super) rooms: Vec<Option<Vec<Token>>>,
}

impl Made {
    fn of(alloc: Global, plan: &CorePlan, held: &Channels) -> Result<Made, AllocError>
        requires few { length plan.now.sources.items < 2 ^ 32 }
        requires rates { length plan.now.rates.items ≡ length plan.now.places }
        requires needed { length plan.now.needs ≡ total plan.now.places }
        requires channels { total plan.now.places ≤ length plan.now.sources.items }
        requires children { length plan.now.places < usize.MAX }
        ensures tables { IfOk result (λ made. AreTables plan.now made.tables) }
        ensures channels { IfOk result (λ made. made.channels ≡ held.now) }
        ensures counted { IfOk result (λ made. length made.rooms.items ≡ length plan.now.needs) }
        ensures rooms { IfOk result (λ made. HaveRooms plan.now.needs made.rooms.items 0 (length plan.now.needs)) }
    {
        let tables = Tables::of(alloc, plan)?;
        let channels = held.copy(alloc)?;
        let rooms = rooms_for(alloc, plan.needs.as_slice())?;
        Ok(Made {
            tables,
            channels,
            rooms,
        })
    }
}

/// A copy of the tokens on some channels, with room for so many on each.
pub(super) fn copied_ready(
    alloc: Global,
    held: &Channels,
    room: &[usize],
) -> Result<Channels, AllocError>
    requires few { length held.now.lists < 2 ^ 32 }
    requires counted { length room.now ≡ length held.now.lists }
    ensures { IfOk result (λ channels. channels.lists ≡ held.now.lists) }
{
    let mut channels = held.copy(alloc)?;
    make_ready(&mut channels, room)?;
    Ok(channels)
}

/// What a new core makes, and the lists that it lends, which are empty. Its channels are made ready, and not the first tokens that it
/// keeps beside them.
pub(super) fn at_first(
    alloc: Global,
    plan: &CorePlan,
    first: &Channels,
) -> Result<(Made, Vec<Tokens>), AllocError>
    requires few { length plan.now.sources.items < 2 ^ 32 }
    requires rates { length plan.now.rates.items ≡ length plan.now.places }
    requires needed { length plan.now.needs ≡ total plan.now.places }
    requires channels { total plan.now.places ≤ length plan.now.sources.items }
    requires children { length plan.now.places < usize.MAX }
    requires lists { length first.now.lists < 2 ^ 32 }
    requires room { length plan.now.room ≡ length first.now.lists }
    ensures tables { IfOk result (λ m. AreTables plan.now m.0.tables) }
    ensures channels { IfOk result (λ m. m.0.channels.lists ≡ first.now.lists) }
    ensures counted { IfOk result (λ m. length m.0.rooms.items ≡ length plan.now.needs) }
    ensures rooms { IfOk result (λ m. HaveRooms plan.now.needs m.0.rooms.items 0 (length plan.now.needs)) }
    ensures lent { IfOk result (λ m. length m.1.items ≡ length plan.now.needs) }
{
    let tables = Tables::of(alloc, plan)?;
    let channels = copied_ready(alloc, first, plan.room.as_slice())?;
    let rooms = rooms_for(alloc, plan.needs.as_slice())?;
    let lent = empty_lists(alloc, plan.needs.as_slice().len())?;
    let made = Made {
        tables,
        channels,
        rooms,
    };
    Ok((made, lent))
}

/// What another core in the same state has beside its plan.
#[derive(Drop)]
pub(super) struct CopiedParts {
    pub(super) first: Channels,
    pub(super) lent: Vec<Tokens>,
    pub(super) made: Made,
}

pub(super) fn parts_again(
    alloc: Global,
    plan: &CorePlan,
    first: &Channels,
    channels: &Channels,
    lent: &[Tokens],
) -> Result<CopiedParts, AllocError>
    requires few { length plan.now.sources.items < 2 ^ 32 }
    requires rates { length plan.now.rates.items ≡ length plan.now.places }
    requires needed { length plan.now.needs ≡ total plan.now.places }
    requires channels { total plan.now.places ≤ length plan.now.sources.items }
    requires children { length plan.now.places < usize.MAX }
    ensures first { IfOk result (λ copy. copy.first ≡ first.now) }
    ensures lent { IfOk result (λ copy. copy.lent.items ≡ lent.now) }
    ensures tables { IfOk result (λ copy. AreTables plan.now copy.made.tables) }
    ensures channels { IfOk result (λ copy. copy.made.channels ≡ channels.now) }
    ensures counted { IfOk result (λ copy. length copy.made.rooms.items ≡ length plan.now.needs) }
    ensures rooms { IfOk result (λ copy. HaveRooms plan.now.needs copy.made.rooms.items 0 (length plan.now.needs)) }
{
    let first = first.copy(alloc)?;
    let lent = copies_of_lists(alloc, lent)?;
    let made = Made::of(alloc, plan, channels)?;
    Ok(CopiedParts { first, lent, made })
}
