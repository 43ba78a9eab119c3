ghost use Rattle.std.specs.Prelude.{◌≡◌, true, false, option_map};
ghost use Rattle.pt_document.specs.Classes.{class_of};
ghost use Rattle.std.specs.List.{Contains};
ghost use Rattle.pt_net.specs.Net.{entity_view, director_view};
ghost use Rattle.pt_scopes.specs.Scopes.{net_view};
ghost use Rattle.pt_start.specs.Nested.{IsNested};
ghost use Rattle.pt_start.specs.Places as places;
ghost use Rattle.pt_start.specs.Places.{IsBarred, HasUntimedAbove};

use pt_document::{Class, Director, class_named, director_named};
use pt_net::{Net, NetDirector, NetEntity};

fn director_in(director: &Option<NetDirector>) -> Option<Director>
    ensures { result ≡ places.director_in (option_map director_view director.now) }
{
    match director {
        Some(director) => match director_named(director.class.as_str()) {
            Some(row) => Some(row.director),
            None => None,
        },
        None => None,
    }
}

/// The director of an entity.
pub fn director_of(entity: &NetEntity) -> Option<Director>
    ensures { result ≡ places.director_of (entity_view entity.now) }
{
    director_in(&entity.director)
}

/// The director of the composite of this number.
pub fn director_over(net: &Net, composite: Option<u32>) -> Option<Director>
    ensures { result ≡ places.director_over (net_view net.now) composite }
{
    match composite {
        Some(composite) => match net.entities.get(composite as usize) {
            Some(entity) => director_of(entity),
            None => None,
        },
        None => None,
    }
}

/// Whether it is a director other than DE.
fn is_untimed(director: Option<Director>) -> bool
    ensures { result ≡ places.is_untimed director }
{
    match director {
        Some(Director::Sdf | Director::Sr | Director::Pn | Director::Rendezvous) => true,
        Some(Director::De) | None => false,
    }
}

/// Whether the class may stand under the director.
fn may_stand(class: &Class, director: Director) -> bool
    ensures yes { result ≡ true → Contains (class_of class.now).directors director }
    ensures no { result ≡ false → Contains (class_of class.now).directors director → ⊥ }
{
    class.directors.contains(&director)
}

/// Whether an entity is a library actor under a director under which its class may not stand.
pub fn is_barred(net: &Net, entity: &NetEntity) -> bool
    ensures yes { result ≡ true → IsBarred (net_view net.now) (entity_view entity.now) }
    ensures no { result ≡ false → IsBarred (net_view net.now) (entity_view entity.now) → ⊥ }
{
    match class_named(entity.class.as_str()) {
        Some(class) => match director_over(net, entity.parent) {
            Some(director) => !may_stand(class, director),
            None => false,
        },
        None => false,
    }
}

/// Whether one of the opaque composites round something, of which this is the innermost, has a director other than DE.
pub fn has_untimed_above(net: &Net, composite: Option<u32>) -> bool
    requires { IsNested (net_view net.now) }
    ensures yes { result ≡ true → HasUntimedAbove (net_view net.now) composite }
    ensures no { result ≡ false → HasUntimedAbove (net_view net.now) composite → ⊥ }
{
    let mut round = composite;
    'outward: while let Some(number) = round {
        let Some(entity) = net.entities.get(number as usize) else {
            return false;
        };
        if is_untimed(director_of(entity)) {
            return true;
        }
        round = entity.parent;
    }
    false
}
