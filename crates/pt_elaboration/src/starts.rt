ghost use Rattle.std.specs.Prelude.{◌≡◌, IfOk, OnOk, map};
ghost use Rattle.std.specs.List.{enumerate_from};
ghost use Rattle.pt_document.specs.View.{port_view};
ghost use Rattle.pt_types.specs.Ty.{type_of};
ghost use Rattle.pt_typing.specs.Least.{assignment};
ghost use Rattle.pt_scopes.specs.Scopes.{net_view};
ghost use Rattle.pt_scopes.specs.Valued.{IsValued};
ghost use Rattle.pt_start.specs.Nested.{IsNested};
ghost use Rattle.pt_start.specs.Started.{type_at};
ghost use Rattle.pt_start.specs.Seen.{IsReady};
ghost use Rattle.pt_trees.specs.Trees.{IsEntity};
ghost use Rattle.pt_elaboration.specs.Resolved.{port_typing, AreStartsOf, IsBegun};

use pt_document::Port;
use pt_library::LibraryActor;
use pt_net::{Net, NetEntity};
use pt_scopes::Values;
use pt_start::Starts;
use pt_types::Ty;
use pt_typing::{Typing, Variable};
use pt_within::is_undirected;
use std::alloc::{AllocError, Global};

/// The types of the ports of the entity of that number, in order.
fn types_of(
    alloc: Global,
    typing: &Typing,
    number: usize,
    ports: &[Port],
) -> Result<Vec<Ty>, AllocError>
    ensures { IfOk result (λ types. map type_of types.items ≡ map (type_at (port_typing (assignment typing.now)) number) (enumerate_from 0 (map port_view ports.now))) }
{
    let mut types = Vec::with_capacity(alloc, ports.len())?;
    for port in 0..ports.len() {
        types.push(typing.ty(alloc, Variable::Port(number, port))?)?;
    }
    Ok(types)
}

/// Puts what the entity of that number starts as behind what others do: its actor, if it is a library actor and the library has one.
fn add_start(
    alloc: Global,
    starts: &Starts,
    typing: &Typing,
    number: usize,
    entity: &NetEntity,
    begun: &mut Vec<Option<LibraryActor>>,
) -> Result<(), AllocError>
    requires ready { IsReady starts.now }
    requires entity { IsEntity starts.now.net.now number entity.now }
    ensures { OnOk result (IsBegun starts.now.net.now starts.now.values.now (assignment typing.now) number entity.now begun.old.items begun.new.items) }
{
    if !is_undirected(entity) {
        begun.push(None)?;
        return Ok(());
    }
    if !starts.has_tree(number) {
        begun.push(starts.treeless_actor(alloc, number)?)?;
        return Ok(());
    }
    let types = types_of(alloc, typing, number, &entity.ports)?;
    begun.push(starts.actor(alloc, number, &types)?)?;
    Ok(())
}

/// What the entities of a net start as: a library actor as its actor, if the library has one, and a composite as none.
pub(crate) fn starts_of(
    alloc: Global,
    net: &Net,
    values: &Values,
    typing: &Typing,
) -> Result<Vec<Option<LibraryActor>>, AllocError>
    requires nested { IsNested (net_view net.now) }
    requires valued { IsValued (net_view net.now) values.now }
    ensures { IfOk result (λ starts. AreStartsOf net.now values.now (assignment typing.now) starts.items) }
{
    let prepared = Starts::of(alloc, net, values)?;
    let mut starts = Vec::with_capacity(alloc, net.entities.len())?;
    for (number, entity) in net.entities.iter().enumerate() {
        add_start(alloc, &prepared, typing, number, entity, &mut starts)?;
    }
    Ok(starts)
}
