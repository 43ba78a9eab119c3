ghost use Rattle.std.specs.Prelude.{◌≡◌, IfSome, IfNone, Some, None, true, false, option_map, slice_get, bytes_eq, codes};
ghost use Rattle.pt_library.specs.declared.library_actor.LibraryActor.{LibraryActor};
ghost use Rattle.pt_trees.specs.declared.directing.Directing.TheVariants.{By};
ghost use Rattle.pt_trees.specs.Directors.{named, modal_unless, director_of};
ghost use Rattle.pt_trees.specs.Trees.{IsUndirected};

use pt_document::{Director, director_named};
use pt_library::LibraryActor;
use pt_net::{NetDirector, NetEntity};
use pt_trees::Directing;

/// The entity of that number, if there is one.
pub fn entity_in(entities: &[NetEntity], k: usize) -> Option<&NetEntity>
    ensures some { IfSome result (λ entity. slice_get entities.now k ≡ Some entity.now) }
    ensures none { IfNone result (slice_get entities.now k ≡ None) }
{
    match entities.get(k) {
        Some(entity) => Some(entity),
        None => None,
    }
}

/// The actor that the entity of that number starts as, if there is one.
pub fn start_in(starts: &[Option<LibraryActor>], k: usize) -> Option<&LibraryActor>
    ensures some { IfSome result (λ actor. slice_get starts.now k ≡ Some (Some actor.now)) }
    ensures none { IfNone result ((a : LibraryActor) → slice_get starts.now k ≡ Some (Some a) → ⊥) }
{
    match starts.get(k) {
        Some(Some(actor)) => Some(actor),
        Some(None) => None,
        None => None,
    }
}

/// Whether the entity is of the class Modal.
fn is_modal(entity: &NetEntity) -> bool
    ensures { result ≡ bytes_eq entity.now.class (codes "Modal") }
{
    entity.class.as_str() == "Modal"
}

/// Whether the entity is a library actor.
pub fn is_undirected(entity: &NetEntity) -> bool
    ensures yes { result ≡ true → IsUndirected entity.now }
    ensures no { result ≡ false → IsUndirected entity.now → ⊥ }
{
    if is_modal(entity) {
        return false;
    }
    match &entity.director {
        Some(_) => false,
        None => true,
    }
}

/// The director of the class that a property names.
fn named(director: &Option<NetDirector>) -> Option<Director>
    ensures { result ≡ named director.now }
{
    match director {
        Some(director) => match director_named(director.class.as_str()) {
            Some(row) => Some(row.director),
            None => None,
        },
        None => None,
    }
}

/// What directs a composite with this property.
fn directed(director: &Option<NetDirector>) -> Option<Directing>
    ensures { result ≡ option_map By (named director.now) }
{
    match named(director) {
        Some(director) => Some(Directing::By(director)),
        None => None,
    }
}

/// Modal, where no property names a director.
fn modal_unless(director: &Option<NetDirector>) -> Option<Directing>
    ensures { result ≡ modal_unless director.now }
{
    match director {
        Some(_) => None,
        None => Some(Directing::Modal),
    }
}

/// What directs the entity, if it is a composite with a director or a Modal entity.
pub fn director_of(entity: &NetEntity) -> Option<Directing>
    ensures { result ≡ director_of entity.now }
{
    if entity.class.as_str() == "Composite" {
        directed(&entity.director)
    } else if is_modal(entity) {
        modal_unless(&entity.director)
    } else {
        None
    }
}
