ghost use Rattle.std.specs.Prelude.{◌≡◌, ℕ, List, IsOk, IfOk, IfErr, slice_get, Some};
ghost use Rattle.pt_document.specs.View.{input_view, supply_view};
ghost use Rattle.pt_scopes.specs.Scopes.{net_view};
ghost use Rattle.pt_job.specs.Inputs as inputs;
ghost use Rattle.pt_job.specs.Inputs.{IsInputFault, IsFaultOf};
ghost use Rattle.pt_job.specs.Lookup.{IsLookup};

use crate::names::{Places, name_places};
use crate::ports::{events_of, is_full, is_timed, may_lack, named_ports, own_inputs};
use pt_document::{Code, DocFault, Event, Input, refused};
use pt_net::{Net, shown};
use std::alloc::{AllocError, Global};

/// The input ports of the top, and the inputs of a net by the ports that they name.
#[derive(Drop)]
pub struct Lookup<'k> {
    pub net: &'k Net,
    /// Whether a token may be absent.
    pub may_lack: bool,
    /// Whether tokens come as events.
    pub is_timed: bool,
    pub ports: Places<&'k str>,
    pub inputs: Places<&'k str>,
}

impl<'k> Lookup<'k> {
    pub fn of(alloc: Global, net: &'k Net) -> Result<Lookup<'k>, AllocError>
        ensures net { IfOk result (λ lookup. lookup.net.now ≡ net.now) }
        ensures looks { IfOk result IsLookup }
    {
        let ports = own_inputs(alloc, net)?;
        let inputs = named_ports(alloc, &net.inputs)?;
        Ok(Lookup {
            net,
            may_lack: may_lack(net),
            is_timed: is_timed(net),
            ports: name_places(alloc, &ports)?,
            inputs: name_places(alloc, &inputs)?,
        })
    }

    fn is_port(&self, port: &str) -> bool
        requires { IsLookup self.now }
        ensures { result ≡ inputs.is_port (net_view self.now.net.now) port.now }
    {
        self.ports.contains_key(port)
    }

    /// The number of the first input that names a port.
    pub fn input_to(&self, port: &str) -> Option<usize>
        requires { IsLookup self.now }
        ensures { result ≡ inputs.input_to (net_view self.now.net.now) port.now }
    {
        self.inputs.get(port).copied()
    }

    fn is_first(&self, number: usize, port: &str) -> bool
        requires { IsLookup self.now }
        ensures { result ≡ inputs.is_first (net_view self.now.net.now) number port.now }
    {
        match self.input_to(port) {
            Some(first) => first == number,
            None => false,
        }
    }

    /// The events of the input that names a port.
    pub fn events_to(&self, port: &str) -> &[Event]
        requires { IsLookup self.now }
        ensures { result.now ≡ inputs.events_at (net_view self.now.net.now) (inputs.input_to (net_view self.now.net.now) port.now) }
    {
        match self.input_to(port) {
            Some(number) => events_of(&self.net.inputs[number].supply),
            None => &[],
        }
    }

    fn is_full(&self, input: &Input) -> bool
        requires { IsLookup self.now }
        ensures { result ≡ inputs.is_full (inputs.is_timed (net_view self.now.net.now)) (inputs.may_lack (net_view self.now.net.now)) (supply_view input.now.supply) }
    {
        is_full(self.is_timed, self.may_lack, &input.supply)
    }

    /// Whether the input of that number fits the top.
    fn fits(&self, number: usize, input: &Input) -> bool
        requires { IsLookup self.now }
        ensures { result ≡ inputs.fits (net_view self.now.net.now) number (input_view input.now) }
    {
        let port = input.port.as_str();
        self.is_port(port) && self.is_first(number, port) && self.is_full(input)
    }

    /// Refuses the first input that doesn't fit the top.
    pub fn check(&self, alloc: Global) -> Result<(), DocFault>
        requires { IsLookup self.now }
        ensures clean { IsOk result → (path : List ℕ) → IsInputFault (net_view self.now.net.now) path → ⊥ }
        ensures told { IfErr result (IsFaultOf (net_view self.now.net.now)) }
    {
        for (number, input) in self.net.inputs.iter().enumerate() {
            if !self.fits(number, input) {
                return Err(refused(alloc, Code::Inputs, shown(input.port.as_str())));
            }
        }
        Ok(())
    }
}
