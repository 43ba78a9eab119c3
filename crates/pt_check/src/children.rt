ghost use Rattle.std.specs.Prelude.{◌≡◌, ◌++◌, map, zip, IfOk, OnOk};
ghost use Rattle.pt_node.specs.Shown.{shown, shown_node, all_of};
ghost use Rattle.pt_node.specs.View.{core_of};
ghost use Rattle.pt_check.specs.Children as children;
ghost use Rattle.pt_check.specs.Children.{core_repetitions, paths_of, told_in};

use pt_core::Either;
use pt_directors::Director;
use pt_node::{Body, Node};
use pt_value::Text;
use std::alloc::{AllocError, Global};

/// How often each child of a composite with this director fires in an iteration of it, under SDF.
fn director_repetitions(director: &Director) -> &[usize]
    ensures { result.now ≡ core_repetitions (core_of director.now) }
{
    match director {
        Either::First(core) => core.repetitions().as_slice(),
        Either::Other(_) => &[],
    }
}

/// How often each child of a composite fires in an iteration of it, under SDF.
fn repetitions_of(body: &Body) -> &[usize]
    ensures { result.now ≡ children.repetitions_of body.now }
{
    match body {
        Body::Composite(director) => director_repetitions(director.get()),
        Body::Actor(_) => &[],
    }
}

/// The depth of each child of a composite with this director, under DE.
fn director_depths(director: &Director) -> &[u32]
    ensures { result.now ≡ children.director_depths director.now }
{
    match director {
        Either::First(_) => &[],
        Either::Other(other) => match other {
            Either::First(_) => &[],
            Either::Other(other) => match other {
                Either::First(core) => core.depths(),
                Either::Other(_) => &[],
            },
        },
    }
}

/// The depth of each child of a composite, under DE.
fn depths_of(body: &Body) -> &[u32]
    ensures { result.now ≡ children.depths_of body.now }
{
    match body {
        Body::Composite(director) => director_depths(director.get()),
        Body::Actor(_) => &[],
    }
}

fn put_repetitions(
    alloc: Global,
    children: &[Node],
    repetitions: &[usize],
    out: &mut Vec<(Text, u64)>,
) -> Result<(), AllocError>
    ensures { OnOk result (out.new.items ≡ out.old.items ++ zip (paths_of (all_of (map shown children.now))) repetitions.now) }
{
    for (child, firings) in children.iter().zip(repetitions) {
        out.push((child.path.copy(alloc)?, *firings as u64))?;
    }
    Ok(())
}

fn put_depths(
    alloc: Global,
    children: &[Node],
    depths: &[u32],
    out: &mut Vec<(Text, u32)>,
) -> Result<(), AllocError>
    ensures { OnOk result (out.new.items ≡ out.old.items ++ zip (paths_of (all_of (map shown children.now))) depths.now) }
{
    for (child, depth) in children.iter().zip(depths) {
        out.push((child.path.copy(alloc)?, *depth))?;
    }
    Ok(())
}

/// Puts the repetitions and the depths of the children of a node, and of the children of all within it.
pub fn put_children(
    alloc: Global,
    node: &Node,
    repetitions: &mut Vec<(Text, u64)>,
    depths: &mut Vec<(Text, u32)>,
) -> Result<(), AllocError>
    ensures repetitions { OnOk result (repetitions.new.items ≡ repetitions.old.items ++ told_in children.repetitions_of (shown_node node.now)) }
    ensures depths { OnOk result (depths.new.items ≡ depths.old.items ++ told_in children.depths_of (shown_node node.now)) }
{
    put_repetitions(
        alloc,
        &node.children,
        repetitions_of(&node.body),
        repetitions,
    )?;
    put_depths(alloc, &node.children, depths_of(&node.body), depths)?;
    for child in &node.children {
        put_children(alloc, child, repetitions, depths)?;
    }
    Ok(())
}
