// Questions about an entity of a net.
ghost use Rattle.std.specs.Prelude.{◌≡◌, map, option_map, slice_get};
ghost use Rattle.std.specs.List.{list_any};
ghost use Rattle.pt_net.specs.Net.{entity_view};
ghost use Rattle.pt_scopes.specs.Valued as valued;
ghost use Rattle.pt_inequalities.specs.ModalScopes.{is_modal};

use pt_net::NetEntity;
use pt_scopes::EntityValues;

/// Whether an entity is Modal.
pub fn is_modal(entity: &NetEntity) -> bool
    ensures { result ≡ is_modal (entity_view entity.now) }
{
    entity.class.as_str() == "Modal"
}

/// Whether one of these entities is Modal.
pub fn has_modal(entities: &[NetEntity]) -> bool
    ensures { result ≡ list_any is_modal (map entity_view entities.now) }
{
    for entity in entities {
        if is_modal(entity) {
            return true;
        }
    }
    false
}

/// What the texts of an entity of this number come to.
pub fn values_at(values: &[EntityValues], number: usize) -> Option<&EntityValues>
    ensures { option_map (λ v. valued.entity_view v.now) result ≡ slice_get (map valued.entity_view values.now) number }
{
    values.get(number)
}
