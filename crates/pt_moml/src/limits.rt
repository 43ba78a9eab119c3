// How many entities a document has, and how deep they nest.
ghost use Rattle.std.specs.Prelude.{◌≡◌, option_map};
ghost use Rattle.pt_json.specs.View.{view, items_view};
ghost use Rattle.pt_moml.specs.Limits as limits;

use pt_json::Value;

const MOST_ENTITIES: u32 = 10_000;

const MOST_LEVELS: u32 = 16;

/// How many entities more there may be behind those at the field and within them.
#[cycle(limits)]
#[tactic(auto, unfolding(crate::specs::Limits::nest_in))]
fn room_behind(field: Option<&Value>, levels: u32, room: u32) -> Option<u32>
    ensures { result
        ≡ limits.room_behind levels room (limits.nest_field (option_map (λ v. view v.now) field.entry)) }
{
    match field {
        Some(Value::Array(items)) => room_behind_items(items, levels, room),
        _ => Some(room),
    }
}

#[cycle(limits)]
fn room_behind_items(items: &[Value], levels: u32, room: u32) -> Option<u32>
    ensures { result ≡ limits.room_behind levels room (limits.nest_items (items_view items.now)) }
{
    let mut left = room;
    for item in items {
        if left == 0 || levels == 0 {
            return None;
        }
        left = room_behind(item.get("entities"), levels - 1, left - 1)?;
    }
    Some(left)
}

/// The top and the entities at this field and within them are few enough, and don't nest too deep.
pub fn is_within(field: Option<&Value>) -> bool
    ensures { result
        ≡ limits.is_within (limits.nest_field (option_map (λ v. view v.now) field.entry)) }
{
    room_behind(field, MOST_LEVELS - 1, MOST_ENTITIES - 1).is_some()
}
