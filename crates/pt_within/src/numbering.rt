ghost use Rattle.std.specs.Prelude.{◌≡◌, ℕ, ◌<◌, ◌++◌, ◌∷◌, [], List, length, get_or, IfOk, OnOk};
ghost use Rattle.pt_net.specs.declared.net.NetPort.{NetPort};
ghost use Rattle.pt_trees.specs.Recorded.{AreRecordLists, numbers_at};

use pt_net::NetPort;
use pt_wiring::Numbers;
use std::alloc::{AllocError, Global};

fn no_lists(alloc: Global, count: usize) -> Result<Vec<Numbers>, AllocError>
    ensures counted { IfOk result (λ lists. length lists.items ≡ count) }
    ensures empty { IfOk result (λ lists. (k : ℕ) → get_or lists.items k [] ≡ []) }
{
    let mut lists = Vec::with_capacity(alloc, count)?;
    for _ in 0..count {
        lists.push(Numbers::new(alloc))?;
    }
    Ok(lists)
}

/// Puts the number of a recorded output behind those of its entity.
fn add_number(lists: &mut Vec<Numbers>, number: usize, port: NetPort) -> Result<(), AllocError>
    ensures { OnOk result ((count : ℕ) (ports : List NetPort) → length ports ≡ number → AreRecordLists count ports lists.old.items → AreRecordLists count (ports ++ port ∷ []) lists.new.items) }
{
    let entity = port.entity as usize;
    if entity < lists.len() {
        lists[entity].push(number)?;
    }
    Ok(())
}

/// The numbers of the recorded outputs of each of so many entities.
pub fn record_lists(
    alloc: Global,
    count: usize,
    recorded: &[NetPort],
) -> Result<Vec<Numbers>, AllocError>
    ensures { IfOk result (λ lists. AreRecordLists count recorded.now lists.items) }
{
    let mut lists = no_lists(alloc, count)?;
    for (number, port) in recorded.iter().enumerate() {
        add_number(&mut lists, number, *port)?;
    }
    Ok(lists)
}

/// The numbers of an entity, of which there are none behind the last.
pub fn numbers_at(lists: &[Numbers], k: usize) -> &[usize]
    ensures { result.now ≡ get_or lists.now k [] }
{
    match lists.get(k) {
        Some(numbers) => numbers.as_slice(),
        None => &[],
    }
}
