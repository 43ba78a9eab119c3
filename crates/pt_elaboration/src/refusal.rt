ghost use Rattle.std.specs.Prelude.{◌≡◌, ◌<◌, length, Some, slice_get};
ghost use Rattle.pt_document.specs.Outcome.{IsRefusal};
ghost use Rattle.pt_net.specs.declared.net.NetEntity.{NetEntity};
ghost use Rattle.pt_net.specs.declared.net.Transparent.{Transparent};
ghost use Rattle.pt_trees.specs.Trees.{IsEntity};

use pt_document::{Code, DocFault, refused};
use pt_net::Net;
use std::alloc::Global;

/// A refusal of the entity of that number for this cause, if there is memory for its path.
pub(crate) fn refusal_of_entity(alloc: Global, code: Code, net: &Net, number: usize) -> DocFault
    requires { number < length net.now.entities.items }
    ensures { (e : NetEntity) → IsEntity net.now number e → IsRefusal result code e.path }
{
    let entity = &net.entities[number];
    refused(alloc, code, entity.path.as_str())
}

/// The same of the transparent composite of that number.
pub(crate) fn refusal_of_composite(alloc: Global, code: Code, net: &Net, number: usize) -> DocFault
    requires { number < length net.now.transparent.items }
    ensures { (c : Transparent) → slice_get net.now.transparent.items number ≡ Some c → IsRefusal result code c.path }
{
    let composite = &net.transparent[number];
    refused(alloc, code, composite.path.as_str())
}
