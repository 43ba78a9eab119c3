ghost use Rattle.std.specs.Prelude.{◌≡◌, IfOk, OnOk, List, ℕ, None, map};
ghost use Rattle.pt_document.specs.View.{port_view};
ghost use Rattle.pt_net.specs.Net.{entity_view};
ghost use Rattle.pt_inequalities.specs.Inequalities.{with_port, with_ports, with_input, with_inputs, no_ports, top_inputs};
ghost use Rattle.pt_frames.specs.Views.{port_numbers};

use pt_document::{Direction, Port};
use pt_name_map::NameMap;
use pt_net::NetEntity;
use std::alloc::{AllocError, Global};

/// The ports of an entity by their names: the number of each.
#[derive(Drop)]
pub struct PortNumbers {
    numbers: NameMap<usize>,
}

impl PortNumbers {
    pub fn new(alloc: Global) -> PortNumbers
        ensures { (name : List ℕ) → port_numbers result name ≡ None }
    {
        PortNumbers {
            numbers: NameMap::new(alloc),
        }
    }

    /// Adds a port, in place of one of the same name.
    fn put(&mut self, alloc: Global, name: &str, number: usize) -> Result<(), AllocError>
        ensures { OnOk result ((other : List ℕ) → port_numbers self.new other ≡ with_port name.now number (port_numbers self.old) other) }
    {
        self.numbers.put(alloc, name, number)
    }

    /// The number of the port of a name.
    pub fn get(&self, name: &str) -> Option<usize>
        ensures { result ≡ port_numbers self.now name.now }
    {
        self.numbers.get(name).copied()
    }

    /// These ports.
    pub fn of_ports(alloc: Global, ports: &[Port]) -> Result<PortNumbers, AllocError>
        ensures { IfOk result (λ numbers. (name : List ℕ) → port_numbers numbers name ≡ with_ports no_ports 0 (map port_view ports.now) name) }
    {
        let mut numbers = PortNumbers::new(alloc);
        for (number, port) in ports.iter().enumerate() {
            numbers.put(alloc, port.name.as_str(), number)?;
        }
        Ok(numbers)
    }

    /// Adds a port, if it is an input.
    fn put_input(&mut self, alloc: Global, number: usize, port: &Port) -> Result<(), AllocError>
        ensures { OnOk result ((other : List ℕ) → port_numbers self.new other ≡ with_input number (port_view port.now) (port_numbers self.old) other) }
    {
        match port.direction {
            Direction::Input => self.put(alloc, port.name.as_str(), number),
            Direction::Output => Ok(()),
        }
    }

    /// The inputs among these ports.
    fn of_inputs(alloc: Global, ports: &[Port]) -> Result<PortNumbers, AllocError>
        ensures { IfOk result (λ numbers. (name : List ℕ) → port_numbers numbers name ≡ with_inputs no_ports 0 (map port_view ports.now) name) }
    {
        let mut numbers = PortNumbers::new(alloc);
        for (number, port) in ports.iter().enumerate() {
            numbers.put_input(alloc, number, port)?;
        }
        Ok(numbers)
    }

    /// The inputs of the first of these entities.
    pub fn of(alloc: Global, entities: &[NetEntity]) -> Result<PortNumbers, AllocError>
        ensures { IfOk result (λ numbers. (name : List ℕ) → port_numbers numbers name ≡ top_inputs (map entity_view entities.now) name) }
    {
        match entities.first() {
            Some(entity) => PortNumbers::of_inputs(alloc, &entity.ports),
            None => Ok(PortNumbers::new(alloc)),
        }
    }
}
