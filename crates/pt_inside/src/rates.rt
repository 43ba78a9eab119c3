ghost use Rattle.std.specs.Prelude.{◌≡◌, IfOk, map, replicate};
ghost use Rattle.pt_node.specs.Shown.{shown, shown_node};
ghost use Rattle.pt_node.specs.View.{core_of, node_of};
ghost use Rattle.pt_trees.specs.Around.{declared_at};
ghost use Rattle.pt_trees.specs.Rates.{core_rates, rates_of, rates_given, AreRates, IsStarted, AllStarted};
ghost use Rattle.pt_trees.specs.Composite.{trees_of};

use pt_core::Either;
use pt_directors::Director;
use pt_firing::Counts;
use pt_node::{Body, Node};
use std::alloc::{AllocError, Global};

/// One for each of so many ports.
fn ones(alloc: Global, ports: usize) -> Result<Counts, AllocError>
    ensures { IfOk result (λ counts. counts ≡ replicate ports 1) }
{
    Ok(Counts::of(vec![in alloc; 1usize; ports]?))
}

/// How many tokens a firing of the node gives on each of its outputs, where the numbers don't vary.
fn node_rates(alloc: Global, node: &Node) -> Result<Option<Counts>, AllocError>
    requires { IsStarted (node_of (shown_node node.now)) }
    ensures { IfOk result (λ rates. rates ≡ rates_of (node_of (shown_node node.now))) }
{
    match &node.body {
        Body::Actor(held) => held.actor.rates(alloc),
        Body::Composite(director) => director_rates(alloc, director.get()),
    }
}

/// The same of a composite with this director.
fn director_rates(alloc: Global, director: &Director) -> Result<Option<Counts>, AllocError>
    ensures { IfOk result (λ rates. rates ≡ core_rates (core_of director.now)) }
{
    match director {
        Either::First(core) => Ok(Some(core.gives().copy(alloc)?)),
        Either::Other(Either::First(core)) => Ok(Some(ones(alloc, core.outlets())?)),
        Either::Other(Either::Other(Either::First(_))) => Ok(None),
        Either::Other(Either::Other(Either::Other(Either::First(_)))) => Ok(None),
        Either::Other(Either::Other(Either::Other(Either::Other(Either::First(_))))) => Ok(None),
        Either::Other(Either::Other(Either::Other(Either::Other(Either::Other(_))))) => Ok(None),
    }
}

/// Those that are declared of the child of that number, where they are, else those of its node.
fn rates_at(
    alloc: Global,
    child: &Node,
    declared: &[Option<Counts>],
    number: usize,
) -> Result<Option<Counts>, AllocError>
    requires { IsStarted (node_of (shown_node child.now)) }
    ensures { IfOk result (λ rates. rates ≡ rates_given (declared_at declared.now number) (node_of (shown_node child.now))) }
{
    match declared.get(number) {
        Some(Some(rates)) => Ok(Some(rates.copy(alloc)?)),
        Some(None) => node_rates(alloc, child),
        None => node_rates(alloc, child),
    }
}

/// The rates of each child, those that are declared or those of its node; `None` where those of a child vary.
pub fn rates_of(
    alloc: Global,
    children: &[Node],
    declared: &[Option<Counts>],
) -> Result<Option<Vec<Counts>>, AllocError>
    requires { AllStarted (trees_of (map shown children.now)) }
    ensures { IfOk result (AreRates declared.now (trees_of (map shown children.now))) }
{
    let mut rates = Vec::with_capacity(alloc, children.len())?;
    for child in children {
        let number = rates.len();
        let Some(given) = rates_at(alloc, child, declared, number)? else {
            return Ok(None);
        };
        rates.push(given)?;
    }
    Ok(Some(rates))
}
