ghost use Rattle.std.specs.Prelude.{◌≡◌, map, filter, option_map, IfOk};
ghost use Rattle.std.specs.List.{list_all};
ghost use Rattle.std.specs.Option.{is_some};
ghost use Rattle.pt_document.specs.View.{port_view, input_view, supply_view};
ghost use Rattle.pt_net.specs.Net.{director_view};
ghost use Rattle.pt_scopes.specs.Scopes.{net_view};
ghost use Rattle.pt_scopes.specs.Sites.{port_name, is_input_port};
ghost use Rattle.pt_job.specs.Names.{texts};
ghost use Rattle.pt_job.specs.Inputs as inputs;
ghost use Rattle.pt_job.specs.Inputs.{own_inputs};

use crate::events::are_in_order;
use pt_document::{Direction, Event, Input, Port, Supply};
use pt_net::{Net, NetDirector};
use pt_value::Text;
use std::alloc::{AllocError, Global};

/// Whether tokens come in through a port.
fn is_input(port: &Port) -> bool
    ensures { result ≡ is_input_port (port_view port.now) }
{
    match port.direction {
        Direction::Input => true,
        Direction::Output => false,
    }
}

/// The names of the input ports among these.
fn input_names<'k>(alloc: Global, ports: &'k [Port]) -> Result<Vec<&'k str>, AllocError>
    ensures { IfOk result (λ names. texts names.items ≡ map port_name (filter is_input_port (map port_view ports.now))) }
{
    let mut names = Vec::with_capacity(alloc, ports.len())?;
    for port in ports {
        if is_input(port) {
            names.push(port.name.as_str())?;
        }
    }
    Ok(names)
}

/// The names of the input ports of the top.
pub fn own_inputs<'k>(alloc: Global, net: &'k Net) -> Result<Vec<&'k str>, AllocError>
    ensures { IfOk result (λ names. texts names.items ≡ own_inputs (net_view net.now)) }
{
    match net.entities.first() {
        Some(top) => input_names(alloc, &top.ports),
        None => Ok(Vec::new(alloc)),
    }
}

/// The ports that inputs name.
pub fn named_ports<'k>(alloc: Global, inputs: &'k [Input]) -> Result<Vec<&'k str>, AllocError>
    ensures { IfOk result (λ names. texts names.items ≡ map (λ i. i.port) (map input_view inputs.now)) }
{
    let mut names = Vec::with_capacity(alloc, inputs.len())?;
    for input in inputs {
        names.push(input.port.as_str())?;
    }
    Ok(names)
}

fn are_present(texts: &[Option<Text>]) -> bool
    ensures { result ≡ list_all is_some texts.now }
{
    texts.iter().all(|text| text.is_some())
}

fn has_ticks(director: &Option<NetDirector>) -> bool
    ensures { result ≡ inputs.has_ticks (option_map director_view director.now) }
{
    match director {
        Some(director) => director.class.as_str() == "SR",
        None => false,
    }
}

/// Whether a token may be absent: the top has the SR director.
pub fn may_lack(net: &Net) -> bool
    ensures { result ≡ inputs.may_lack (net_view net.now) }
{
    match net.entities.first() {
        Some(top) => has_ticks(&top.director),
        None => false,
    }
}

fn has_time(director: &Option<NetDirector>) -> bool
    ensures { result ≡ inputs.has_time (option_map director_view director.now) }
{
    match director {
        Some(director) => director.class.as_str() == "DE",
        None => false,
    }
}

/// Whether tokens come to the top as events: it has the DE director.
pub fn is_timed(net: &Net) -> bool
    ensures { result ≡ inputs.is_timed (net_view net.now) }
{
    match net.entities.first() {
        Some(top) => has_time(&top.director),
        None => false,
    }
}

/// Whether tokens come to an input, and none of them is absent where none may be; or events in order, where the net is timed.
pub fn is_full(is_timed: bool, may_lack: bool, supply: &Supply) -> bool
    ensures { result ≡ inputs.is_full is_timed may_lack (supply_view supply.now) }
{
    match supply {
        Supply::Tokens(texts) => !is_timed && (may_lack || are_present(texts)),
        Supply::Events(events) => is_timed && are_in_order(events),
    }
}

/// The events of an input, of which one with plain tokens has none.
pub fn events_of(supply: &Supply) -> &[Event]
    ensures { result.now ≡ inputs.events_in (supply_view supply.now) }
{
    match supply {
        Supply::Tokens(_) => &[],
        Supply::Events(events) => events.as_slice(),
    }
}
