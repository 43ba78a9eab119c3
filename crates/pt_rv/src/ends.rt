// What comes to the own inputs, the room that puts need at the own outputs, and what these hand out.
ghost use Rattle.std.specs.Prelude.{◌≡◌, ℕ, ◌+◌, ◌<◌, ◌≤◌, [], ◌∷◌, nat_eq, length, get_or, false, vec_capacity, IfOk, OnOk, OnErr};
ghost use Rattle.pt_meaning.specs.Streams.{at};
ghost use Rattle.pt_meaning.specs.Net.{Own};
ghost use Rattle.pt_meaning.specs.Process.{puts_of_port, channels_from, emptied};
ghost use Rattle.pt_puts.specs.Puts.{put_of, puts_in};
ghost use Rattle.pt_rv.specs.Parties.{inputs_of, outputs_of, weight_of, on, spare_at, one_if};
ghost use Rattle.pt_rv.specs.Ends.{comings_of, arrived_in, no_inlet, PromisedMore};

use pt_firing::{Inputs, Outputs, Tokens};
use pt_puts::StagedPut;
use pt_rv_plan::{Inlet, Meetings, Outlet, Plan};
use pt_value::Token;
use std::alloc::{AllocError, Global};
use std::collections::VecDeque;
use std::mem;

/// What is in each list is to come to the own input of its number.
pub(crate) fn stage_inputs(
    alloc: Global,
    inlets: &mut Vec<Inlet>,
    plan: &Plan,
    inputs: &Inputs<'_>,
) -> Result<(), AllocError>
    ensures puts { inputs_of inlets.new.items ≡ inputs_of inlets.old.items }
    ensures coming { OnOk result ((j : ℕ) → j < length inlets.new.items → (get_or inlets.new.items j no_inlet).coming ≡ puts_of_port (channels_from 0 (Own j) plan.now.plan.net.sources) (at inputs.now j)) }
{
    for port in 0..inlets.len() {
        stage_input(alloc, inlets, plan, inputs, port)?;
    }
    Ok(())
}

/// The same of one own input.
fn stage_input(
    alloc: Global,
    inlets: &mut Vec<Inlet>,
    plan: &Plan,
    inputs: &Inputs<'_>,
    port: usize,
) -> Result<(), AllocError>
    requires { port < length inlets.old.items }
    ensures puts { inputs_of inlets.new.items ≡ inputs_of inlets.old.items }
    ensures coming { OnOk result ((get_or inlets.new.items port no_inlet).coming ≡ puts_of_port (channels_from 0 (Own port) plan.now.plan.net.sources) (at inputs.now port)) }
    ensures others { (j : ℕ) → nat_eq port j ≡ false → get_or inlets.new.items j no_inlet ≡ get_or inlets.old.items j no_inlet }
{
    let tokens = list_at(inputs, port);
    let fan = plan.own_fan(port);
    inlets[port].stage(alloc, tokens, fan)
}

/// The list of a number, or none.
fn list_at<'a>(inputs: &'a Inputs<'_>, port: usize) -> &'a [Token]
    ensures { result.now ≡ at inputs.now port }
{
    if port >= inputs.places() {
        return &[];
    }
    inputs.list(port)
}

/// Makes room for what is to come to the own inputs, and for the meetings that it makes.
pub(crate) fn promise_inputs(
    alloc: Global,
    outlets: &mut Vec<Outlet>,
    met: &mut Meetings,
    inlets: &[Inlet],
    inner: usize,
) -> Result<(), AllocError>
    ensures lists { outputs_of outlets.new.items ≡ outputs_of outlets.old.items }
    ensures met { met.new.list ≡ met.old.list }
    ensures kept { PromisedMore inner outlets.old.items outlets.new.items met.old.spare met.new.spare [] }
    ensures more { OnOk result (PromisedMore inner outlets.old.items outlets.new.items met.old.spare met.new.spare (comings_of inlets.now)) }
{
    for port in 0..inlets.len() {
        promise(alloc, outlets, met, inlets[port].coming(), inner)?;
    }
    Ok(())
}

/// Makes room for puts that are staged, and for the meetings that they make.
pub(crate) fn promise(
    alloc: Global,
    outlets: &mut Vec<Outlet>,
    met: &mut Meetings,
    staged: &VecDeque<StagedPut>,
    inner: usize,
) -> Result<(), AllocError>
    ensures lists { outputs_of outlets.new.items ≡ outputs_of outlets.old.items }
    ensures met { met.new.list ≡ met.old.list }
    ensures kept { PromisedMore inner outlets.old.items outlets.new.items met.old.spare met.new.spare [] }
    ensures more { OnOk result (PromisedMore inner outlets.old.items outlets.new.items met.old.spare met.new.spare (puts_in staged.now.items ∷ [])) }
{
    met.promise(staged.len())?;
    promise_all(alloc, outlets, staged, inner)?;
    Ok(())
}

/// Makes room for one put, and for the meeting that it makes.
#[inline(always)]
pub(crate) fn promise_put(
    alloc: Global,
    outlets: &mut Vec<Outlet>,
    met: &mut Meetings,
    put: &StagedPut,
    inner: usize,
) -> Result<(), AllocError>
    ensures lists { outputs_of outlets.new.items ≡ outputs_of outlets.old.items }
    ensures met { met.new.list ≡ met.old.list }
    ensures kept { PromisedMore inner outlets.old.items outlets.new.items met.old.spare met.new.spare [] }
    ensures more { OnOk result (PromisedMore inner outlets.old.items outlets.new.items met.old.spare met.new.spare ((put_of put.now ∷ []) ∷ [])) }
{
    met.promise(1)?;
    promise_one(alloc, outlets, put.channel as usize, inner)?;
    Ok(())
}

/// Makes room at the own outputs for puts that are staged.
fn promise_all(
    alloc: Global,
    outlets: &mut Vec<Outlet>,
    staged: &VecDeque<StagedPut>,
    inner: usize,
) -> Result<(), AllocError>
    ensures lists { outputs_of outlets.new.items ≡ outputs_of outlets.old.items }
    ensures kept { (o : ℕ) → spare_at outlets.old.items o ≤ spare_at outlets.new.items o }
    ensures more { OnOk result ((o : ℕ) → o < length outlets.old.items → spare_at outlets.old.items o + weight_of (on (inner + o)) (puts_in staged.now.items) ≤ spare_at outlets.new.items o) }
{
    for put in 0..staged.len() {
        promise_one(alloc, outlets, staged[put].channel as usize, inner)?;
    }
    Ok(())
}

/// Makes room for one token more on a channel, if that ends at an own output.
#[inline(always)]
fn promise_one(
    alloc: Global,
    outlets: &mut Vec<Outlet>,
    channel: usize,
    inner: usize,
) -> Result<(), AllocError>
    ensures lists { outputs_of outlets.new.items ≡ outputs_of outlets.old.items }
    ensures kept { (o : ℕ) → spare_at outlets.old.items o ≤ spare_at outlets.new.items o }
    ensures more { OnOk result ((o : ℕ) → o < length outlets.old.items → spare_at outlets.old.items o + one_if (nat_eq channel (inner + o)) ≤ spare_at outlets.new.items o) }
{
    if channel < inner {
        return Ok(());
    }
    let outlet = channel - inner;
    if outlet >= outlets.len() {
        return Ok(());
    }
    promise_at(alloc, outlets, outlet)
}

/// Makes room for one token more at an own output.
fn promise_at(alloc: Global, outlets: &mut Vec<Outlet>, outlet: usize) -> Result<(), AllocError>
    requires { outlet < length outlets.old.items }
    ensures lists { outputs_of outlets.new.items ≡ outputs_of outlets.old.items }
    ensures kept { (o : ℕ) → spare_at outlets.old.items o ≤ spare_at outlets.new.items o }
    ensures more { OnOk result ((o : ℕ) → spare_at outlets.old.items o + one_if (nat_eq outlet o) ≤ spare_at outlets.new.items o) }
{
    outlets[outlet].promise(alloc)
}

/// What is to come to the own inputs has come. It takes no memory.
pub(crate) fn arrive_all(inlets: &mut Vec<Inlet>)
    ensures { inputs_of inlets.new.items ≡ arrived_in inlets.old.items }
{
    for port in 0..inlets.len() {
        arrive_at(inlets, port);
    }
}

/// The same of one own input.
fn arrive_at(inlets: &mut Vec<Inlet>, port: usize)
    requires { port < length inlets.old.items }
    ensures puts { at (inputs_of inlets.new.items) port ≡ at (arrived_in inlets.old.items) port }
    ensures others { (j : ℕ) → nat_eq port j ≡ false → get_or inlets.new.items j no_inlet ≡ get_or inlets.old.items j no_inlet }
    ensures counted { length inlets.new.items ≡ length inlets.old.items }
{
    inlets[port].arrive();
}

/// Hands out what has come to the own outputs, and empties them. After an `Err` they are as before.
pub(crate) fn hand_out(alloc: Global, outlets: &mut Vec<Outlet>) -> Result<Outputs, AllocError>
    ensures given { IfOk result (λ outputs. outputs ≡ outputs_of outlets.old.items) }
    ensures left { OnOk result (outputs_of outlets.new.items ≡ emptied (outputs_of outlets.old.items)) }
    ensures rooms { OnOk result ((o : ℕ) → spare_at outlets.new.items o ≡ spare_at outlets.old.items o) }
    ensures kept { OnErr result (outlets.new.items ≡ outlets.old.items) }
{
    let fresh = emptied_all(alloc, outlets)?;
    let lists = Vec::with_capacity(alloc, outlets.len())?;
    let given = mem::replace(outlets, fresh);
    Ok(Outputs::of(lists_of(given, lists)))
}

/// What has come to these own outputs, put into room that was made.
fn lists_of(mut given: Vec<Outlet>, mut lists: Vec<Tokens>) -> Vec<Tokens>
    requires empty { lists.items ≡ [] }
    requires room { length given.items ≤ vec_capacity lists }
    ensures { result.items ≡ outputs_of given.items }
{
    for outlet in 0..given.len() {
        let tokens = given[outlet].take();
        lists.push_reserved(tokens);
    }
    lists
}

/// Own outputs with the same room, to which nothing has come.
fn emptied_all(alloc: Global, outlets: &[Outlet]) -> Result<Vec<Outlet>, AllocError>
    ensures lists { IfOk result (λ fresh. outputs_of fresh.items ≡ emptied (outputs_of outlets.now)) }
    ensures rooms { IfOk result (λ fresh. (o : ℕ) → spare_at fresh.items o ≡ spare_at outlets.now o) }
{
    let mut fresh = Vec::with_capacity(alloc, outlets.len())?;
    for outlet in outlets {
        let empty = outlet.emptied(alloc)?;
        fresh.push(empty)?;
    }
    Ok(fresh)
}
