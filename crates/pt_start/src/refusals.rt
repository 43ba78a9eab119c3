ghost use Rattle.std.specs.Prelude.{◌≡◌, ℕ, ◌&&◌, true, false, None, IfSome, option_map, slice_get};
ghost use Rattle.std.specs.Option.{is_some};
ghost use Rattle.pt_document.specs.declared.code.Code.{Code};
ghost use Rattle.pt_document.specs.Classes.{class_row};
ghost use Rattle.pt_net.specs.Net.{entity_view};
ghost use Rattle.pt_scopes.specs.Scopes.{net_view};
ghost use Rattle.pt_start.specs.Places.{director_over};
ghost use Rattle.pt_start.specs.Nested.{IsNested};
ghost use Rattle.pt_start.specs.Misplaced as misplaced;
ghost use Rattle.pt_start.specs.Misplaced.{IsTimedBelow, IsRefusedThere, IsMisplaced};

use crate::limits::is_limited;
use crate::places::{director_of, director_over, has_untimed_above, is_barred};
use pt_document::{Code, Director, class_named};
use pt_net::{Net, NetEntity};
use pt_scopes::{EntityValues, Values};

fn is_sdf(director: Option<Director>) -> bool
    ensures { result ≡ misplaced.is_sdf director }
{
    match director {
        Some(Director::Sdf) => true,
        Some(Director::Sr | Director::De | Director::Pn | Director::Rendezvous) | None => false,
    }
}

fn is_de(director: Option<Director>) -> bool
    ensures { result ≡ misplaced.is_de director }
{
    match director {
        Some(Director::De) => true,
        Some(Director::Sdf | Director::Sr | Director::Pn | Director::Rendezvous) | None => false,
    }
}

/// Whether this is the top, and has no director.
fn is_undirected_top(number: usize, entity: &NetEntity) -> bool
    ensures { result ≡ misplaced.is_undirected_top number (entity_view entity.now) }
{
    number == 0 && director_of(entity).is_none()
}

fn is_actor(entity: &NetEntity) -> bool
    ensures { result ≡ is_some (class_row (entity_view entity.now).class) }
{
    match class_named(entity.class.as_str()) {
        Some(_) => true,
        None => false,
    }
}

fn is_limited_with(entity: &NetEntity, values: Option<&EntityValues>) -> bool
    ensures { result ≡ misplaced.is_limited_with (entity_view entity.now) (option_map (λ v. v.now) values.entry) }
{
    match values {
        Some(values) => is_limited(
            entity.class.as_str(),
            &entity.parameters,
            &values.parameters,
        ),
        None => false,
    }
}

/// Whether this stands under SDF and fires only so often.
fn is_limited_there(net: &Net, values: &Values, number: usize, entity: &NetEntity) -> bool
    ensures { result ≡ (misplaced.is_sdf (director_over (net_view net.now) (entity_view entity.now).parent) && misplaced.is_limited_with (entity_view entity.now) (slice_get values.now.entities.items number)) }
{
    is_sdf(director_over(net, entity.parent))
        && is_limited_with(entity, values.entities.get(number))
}

/// Whether this is a library actor under SDF that fires only so often. Its class, which takes longest to find, is looked at last.
#[tactic(auto, using(crate::proofs::Turned::and_true, crate::proofs::Turned::and_false))]
fn is_limited_under_sdf(net: &Net, values: &Values, number: usize, entity: &NetEntity) -> bool
    ensures { result ≡ misplaced.is_limited_under_sdf (net_view net.now) values.now number (entity_view entity.now) }
{
    is_limited_there(net, values, number, entity) && is_actor(entity)
}

/// Whether this is a DE composite below a director other than DE.
fn is_timed_below(net: &Net, entity: &NetEntity) -> bool
    requires { IsNested (net_view net.now) }
    ensures yes { result ≡ true → IsTimedBelow (net_view net.now) (entity_view entity.now) }
    ensures no { result ≡ false → IsTimedBelow (net_view net.now) (entity_view entity.now) → ⊥ }
{
    if !is_de(director_of(entity)) {
        return false;
    }
    has_untimed_above(net, entity.parent)
}

/// For what the entity of that number is refused, if it is.
fn cause_at(net: &Net, values: &Values, number: usize, entity: &NetEntity) -> Option<Code>
    requires { IsNested (net_view net.now) }
    ensures some { IfSome result (IsRefusedThere (net_view net.now) values.now number (entity_view entity.now)) }
    ensures none { result ≡ None → (cause : Code) → IsRefusedThere (net_view net.now) values.now number (entity_view entity.now) cause → ⊥ }
{
    if is_undirected_top(number, entity) {
        return Some(Code::Place);
    }
    if is_barred(net, entity) {
        return Some(Code::Place);
    }
    if is_limited_under_sdf(net, values, number, entity) {
        return Some(Code::Place);
    }
    if is_timed_below(net, entity) {
        return Some(Code::Timed);
    }
    None
}

/// The first entity that is refused for where it stands, with the cause: the top where it has no director, a library actor under
/// a director under which its class may not stand, or under SDF if it fires only so often, and a DE composite below a director
/// other than DE.
pub fn misplaced(net: &Net, values: &Values) -> Option<(Code, usize)>
    requires { IsNested (net_view net.now) }
    ensures some { IfSome result (λ found. IsMisplaced (net_view net.now) values.now found.0 found.1) }
    ensures none { result ≡ None → (cause : Code) (k : ℕ) → IsMisplaced (net_view net.now) values.now cause k → ⊥ }
{
    for (number, entity) in net.entities.iter().enumerate() {
        if let Some(cause) = cause_at(net, values, number, entity) {
            return Some((cause, number));
        }
    }
    None
}
