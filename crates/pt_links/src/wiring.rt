ghost use Rattle.std.specs.Prelude.{◌≡◌, ℕ, ◌<◌, length, Some, slice_get, IfOk, IfErr, OnOk};
ghost use Rattle.pt_document.specs.declared.code.Code.TheVariants as code;
ghost use Rattle.pt_net.specs.Table.{PortAt};
ghost use Rattle.pt_survey.specs.Survey.{tables_view, port_at};
ghost use Rattle.pt_net.specs.Wires as spec;
ghost use Rattle.pt_net.specs.Net as net;
ghost use Rattle.pt_net.specs.Stands.{IsTold, IsLinkFault};
ghost use Rattle.pt_links.specs.Wiring.{IsWiring, AllNamed, AreOwned};

use crate::resolve::wires_of;
use crate::ties::Ties;
use pt_document::DocFault;
use pt_net::Wire;
use pt_survey::{PlacedPort, Tables};
use std::alloc::Global;

/// The wires of a job, with the relations at each of its ports.
#[derive(Drop)]
pub struct Wiring<'w, 't, 'a> {
    pub tables: &'w Tables<'t, 'a>,
    pub wires: Vec<Wire>,
    pub ties: Ties,
}

impl<'w, 't, 'a> Wiring<'w, 't, 'a> {
    /// The wires of these tables. Refuses a link that names no port or no relation.
    pub fn of(alloc: Global, tables: &'w Tables<'t, 'a>) -> Result<Wiring<'w, 't, 'a>, DocFault>
        requires { AreOwned (tables_view tables.now) }
        ensures tables { IfOk result (λ wiring. wiring.tables.now ≡ tables.now) }
        ensures wiring { IfOk result IsWiring }
        ensures named { OnOk result (AllNamed (tables_view tables.now)) }
        ensures told { IfErr result (IsTold code.Link (IsLinkFault (tables_view tables.now))) }
    {
        let wires = wires_of(alloc, tables)?;
        let ties = Ties::of(alloc, tables.ports.len(), &wires)?;
        Ok(Wiring {
            tables,
            wires,
            ties,
        })
    }

    /// The relations to which a port is linked from outside.
    pub fn outside(&self, number: usize) -> &[usize]
        requires wiring { IsWiring self.now }
        requires number { number < length (tables_view self.now.tables.now).ports }
        ensures { result.now ≡ spec.outside_of (net.wires (tables_view self.now.tables.now)) number }
    {
        self.ties.outside[number].as_slice()
    }

    /// The relations to which a port is linked from inside.
    pub fn inside(&self, number: usize) -> &[usize]
        requires wiring { IsWiring self.now }
        requires number { number < length (tables_view self.now.tables.now).ports }
        ensures { result.now ≡ spec.inside_of (net.wires (tables_view self.now.tables.now)) number }
    {
        self.ties.inside[number].as_slice()
    }

    /// The relations from which a port takes tokens.
    pub fn taken(&self, number: usize, port: &PlacedPort) -> &[usize]
        requires wiring { IsWiring self.now }
        requires number { number < length (tables_view self.now.tables.now).ports }
        ensures { result.now ≡ spec.taken_from (net.wires (tables_view self.now.tables.now)) number (port_at port.now) }
    {
        if port.is_input() {
            self.outside(number)
        } else {
            self.inside(number)
        }
    }

    /// The relations to which a port gives tokens.
    pub fn given(&self, number: usize, port: &PlacedPort) -> &[usize]
        requires wiring { IsWiring self.now }
        requires number { number < length (tables_view self.now.tables.now).ports }
        ensures { result.now ≡ spec.given_to (net.wires (tables_view self.now.tables.now)) number (port_at port.now) }
    {
        if port.is_input() {
            self.inside(number)
        } else {
            self.outside(number)
        }
    }
}
