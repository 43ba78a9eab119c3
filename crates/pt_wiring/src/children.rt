ghost use Rattle.std.specs.Prelude.{◌≡◌, ℕ, ◌<◌, ◌+◌, ◌++◌, ◌∷◌, [], List, length, get_or, IfOk, OnOk};
ghost use Rattle.pt_net.specs.declared.net.NetEntity.{NetEntity};
ghost use Rattle.pt_wiring.specs.Children.{AreChildren};

use crate::numbers::Numbers;
use pt_net::NetEntity;
use std::alloc::{AllocError, Global};

/// The children of each entity, and the number of each entity among the children of its composite.
#[derive(Drop)]
pub struct Children {
    pub lists: Vec<Numbers>,
    pub numbers: Vec<usize>,
}

fn no_lists(alloc: Global, count: usize) -> Result<Vec<Numbers>, AllocError>
    ensures counted { IfOk result (λ lists. length lists.items ≡ count) }
    ensures empty { IfOk result (λ lists. (c : ℕ) → get_or lists.items c [] ≡ []) }
{
    let mut lists = Vec::with_capacity(alloc, count)?;
    for _ in 0..count {
        lists.push(Numbers::new(alloc))?;
    }
    Ok(lists)
}

/// Puts an entity behind the children of its composite, and gives its number among them.
fn add_child(
    lists: &mut Vec<Numbers>,
    entity: usize,
    parent: Option<u32>,
) -> Result<usize, AllocError>
    ensures { IfOk result (λ number. (count : ℕ) (es : List NetEntity) (e : NetEntity) (numbers : List ℕ) → AreChildren count es lists.old.items numbers → length es ≡ entity → e.parent ≡ parent → AreChildren count (es ++ e ∷ []) lists.new.items (numbers ++ number ∷ [])) }
{
    let Some(composite) = parent else {
        return Ok(0);
    };
    let composite = composite as usize;
    if composite >= lists.len() {
        return Ok(0);
    }
    let number = lists[composite].len();
    lists[composite].push(entity)?;
    Ok(number)
}

impl Children {
    /// The children among these entities.
    pub fn of(alloc: Global, entities: &[NetEntity]) -> Result<Children, AllocError>
        ensures { IfOk result (λ children. AreChildren (length entities.now) entities.now children.lists.items children.numbers.items) }
    {
        let mut lists = no_lists(alloc, entities.len())?;
        let mut numbers = Vec::with_capacity(alloc, entities.len())?;
        for (number, entity) in entities.iter().enumerate() {
            numbers.push(add_child(&mut lists, number, entity.parent)?)?;
        }
        Ok(Children { lists, numbers })
    }
}
