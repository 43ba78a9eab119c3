ghost use Rattle.std.specs.Prelude.{◌≡◌, ◌≢◌, ℕ, ◌<◌, ◌≤◌, ◌++◌, [], ◌∷◌, List, length, map, Some, IsTrue, ◌↔◌, IfOk, IfErr, OnOk, MatchOption, slice_get, position, bytes_eq};
ghost use Rattle.std.specs.Borrow.{Bor};
ghost use Rattle.std.specs.List.{AllZip, list_any};
ghost use Rattle.indexmap.specs.IndexMap.{get};
ghost use Rattle.pt_document.specs.declared.code.Code.TheVariants as code;
ghost use Rattle.pt_document.specs.declared.refusal.DocFault.TheVariants.{Memory};
ghost use Rattle.pt_document.specs.Outcome.{IsRefusal};
ghost use Rattle.pt_net.specs.Table as table;
ghost use Rattle.pt_survey.specs.Survey.{tables_view, ports_view, port_at};
ghost use Rattle.pt_net.specs.Net as net;
ghost use Rattle.pt_net.specs.Stands.{IsTold, IsRecordFault};
ghost use Rattle.pt_links.specs.Recorded.{begins_with, may_name, sought_in, AreOutputs, name_eq, AreDistinct, IsRecorder, IsRecorded};

use crate::names::{Places, first_places};
use crate::refusal::refused_at;
use pt_document::{Code, DocFault};
use pt_net::{NetPort, shown};
use pt_survey::{PlacedPort, Tables, number, path_below};
use pt_value::Text;
use std::alloc::{AllocError, Global};

/// How many texts the paths of entities are compared with at most.
const MOST_COMPARED: usize = 8;

fn begins_with(path: &str, text: &Text) -> bool
    ensures { result ≡ begins_with path.now text.now }
{
    text.as_str().as_bytes().starts_with(path.as_bytes())
}

/// Whether one of these texts begins with this path.
fn is_begun(texts: &[Text], path: &str) -> bool
    ensures { result ≡ list_any (begins_with path.now) texts.now }
{
    for text in texts {
        if begins_with(path, text) {
            return true;
        }
    }
    false
}

/// Whether a port of the entity of this path may be one that a text names.
fn may_name(texts: &[Text], path: &str) -> bool
    ensures { result ≡ may_name texts.now path.now }
{
    path == "." || (MOST_COMPARED < texts.len() || is_begun(texts, path))
}

/// The output ports that a text may name: their paths, and the ports of the net.
#[derive(Drop)]
struct Outputs {
    paths: Vec<Text>,
    ports: Vec<NetPort>,
}

fn numbered(entity: usize, port: usize) -> Result<NetPort, DocFault>
    ensures ok { IfOk result (λ found. found ≡ record { entity = entity; port = port }) }
    ensures err { IfErr result (λ e. e ≡ Memory) }
{
    Ok(NetPort {
        entity: number(entity)?,
        port: number(port)?,
    })
}

fn net_port(port: &PlacedPort) -> Result<NetPort, DocFault>
    ensures ok { IfOk result (λ found. found ≡ net.net_port (port_at port.now)) }
    ensures err { IfErr result (λ e. e ≡ Memory) }
{
    numbered(port.placed.number, port.number)
}

impl Outputs {
    fn add(&mut self, alloc: Global, port: &PlacedPort, records: &[Text]) -> Result<(), DocFault>
        ensures paths { OnOk result (self.new.paths.items ≡ self.old.paths.items ++ map (λ o. o.path) (sought_in records.now (port_at port.now ∷ []))) }
        ensures ports { OnOk result (self.new.ports.items ≡ self.old.ports.items ++ map (λ o. o.port) (sought_in records.now (port_at port.now ∷ []))) }
        ensures err { IfErr result (λ e. e ≡ Memory) }
    {
        let path = port.placed.path.as_str();
        if may_name(records, path) && port.is_opaque() && !port.is_input() {
            let path = path_below(alloc, path, port.port.name)?;
            self.paths.push(path)?;
            self.ports.push(net_port(port)?)?;
        }
        Ok(())
    }

    fn of(alloc: Global, ports: &[PlacedPort], records: &[Text]) -> Result<Outputs, DocFault>
        ensures ok { IfOk result (λ outputs. AreOutputs (sought_in records.now (ports_view ports.now)) outputs) }
        ensures err { IfErr result (λ e. e ≡ Memory) }
    {
        let mut outputs = Outputs {
            paths: Vec::new(alloc),
            ports: Vec::new(alloc),
        };
        for port in ports {
            outputs.add(alloc, port, records)?;
        }
        Ok(outputs)
    }
}

/// The first place of each text.
fn text_places<'k>(alloc: Global, texts: &'k [Text]) -> Result<Places<&'k str>, AllocError>
    ensures { IfOk result (λ places. (name : Bor (List ℕ)) → get name_eq places.numbers name ≡ position (bytes_eq name.now) texts.now) }
{
    let mut keys = Vec::with_capacity(alloc, texts.len())?;
    for text in texts {
        keys.push(text.as_str())?;
    }
    first_places(alloc, &keys)
}

fn refused_record(alloc: Global, text: &str) -> DocFault
    ensures { IsRefusal result code.Record (table.shown text.now) }
{
    refused_at(alloc, Code::Record, shown(text))
}

/// Where texts stand for the first time among those that are recorded, and the ports that they name.
#[derive(Drop)]
struct Recorder<'k, 't, 'a> {
    tables: &'k Tables<'t, 'a>,
    records: &'k [Text],
    ports: &'k [NetPort],
    firsts: Places<&'k str>,
    places: Places<&'k str>,
}

impl<'k, 't, 'a> Recorder<'k, 't, 'a> {
    fn of(
        alloc: Global,
        tables: &'k Tables<'t, 'a>,
        records: &'k [Text],
        outputs: &'k Outputs,
    ) -> Result<Recorder<'k, 't, 'a>, AllocError>
        requires { AreOutputs (sought_in records.now (tables_view tables.now).ports) outputs.now }
        ensures tables { IfOk result (λ recorder. recorder.tables.now ≡ tables.now) }
        ensures records { IfOk result (λ recorder. recorder.records.now ≡ records.now) }
        ensures recorder { IfOk result IsRecorder }
    {
        let firsts = text_places(alloc, records)?;
        match text_places(alloc, &outputs.paths) {
            Ok(places) => Ok(Recorder {
                tables,
                records,
                ports: &outputs.ports,
                firsts,
                places,
            }),
            Err(fault) => {
                drop(firsts);
                Err(fault)
            }
        }
    }

    fn first(&self, text: &str) -> Option<usize>
        requires { IsRecorder self.now }
        ensures { result ≡ position (bytes_eq text.now) self.now.records.now }
    {
        self.firsts.get(&text)
    }

    /// Whether the text stands at this number for the first time.
    fn is_first(&self, text: &str, number: usize) -> bool
        requires { IsRecorder self.now }
        ensures { IsTrue result ↔ (position (bytes_eq text.now) self.now.records.now ≡ Some number) }
    {
        match self.first(text) {
            Some(first) => first == number,
            None => false,
        }
    }

    fn place(&self, text: &str) -> Option<usize>
        requires { IsRecorder self.now }
        ensures { result ≡ position (bytes_eq text.now) (map (λ o. o.path) (sought_in self.now.records.now (tables_view self.now.tables.now).ports)) }
    {
        self.places.get(&text)
    }

    /// The port that the text of this number names.
    fn port(&self, alloc: Global, number: usize) -> Result<NetPort, DocFault>
        requires recorder { IsRecorder self.now }
        requires number { number < length self.now.records.now }
        ensures ok { IfOk result (λ port. IsRecorded (tables_view self.now.tables.now) self.now.records.now number port) }
        ensures told { IfErr result (IsTold code.Record (IsRecordFault (tables_view self.now.tables.now) self.now.records.now)) }
    {
        let text = self.records[number].as_str();
        if !self.is_first(text, number) {
            return Err(refused_record(alloc, text));
        }
        match self.place(text) {
            Some(place) => Ok(self.ports[place]),
            None => Err(refused_record(alloc, text)),
        }
    }

    /// The port that each text names.
    fn all_ports(&self, alloc: Global) -> Result<Vec<NetPort>, DocFault>
        requires { IsRecorder self.now }
        ensures ok { IfOk result (λ ports. AllZip (net.Records (tables_view self.now.tables.now)) self.now.records.now ports.items) }
        ensures distinct { OnOk result (AreDistinct self.now.records.now) }
        ensures told { IfErr result (IsTold code.Record (IsRecordFault (tables_view self.now.tables.now) self.now.records.now)) }
    {
        let mut ports = Vec::with_capacity(alloc, self.records.len())?;
        for number in 0..self.records.len() {
            ports.push(self.port(alloc, number)?)?;
        }
        Ok(ports)
    }
}

/// The port that each text names, where these are the output ports.
fn recorded_among(
    alloc: Global,
    tables: &Tables,
    records: &[Text],
    outputs: &Outputs,
) -> Result<Vec<NetPort>, DocFault>
    requires { AreOutputs (sought_in records.now (tables_view tables.now).ports) outputs.now }
    ensures ok { IfOk result (λ ports. AllZip (net.Records (tables_view tables.now)) records.now ports.items) }
    ensures distinct { OnOk result (AreDistinct records.now) }
    ensures told { IfErr result (IsTold code.Record (IsRecordFault (tables_view tables.now) records.now)) }
{
    let recorder = Recorder::of(alloc, tables, records, outputs)?;
    let ports = recorder.all_ports(alloc);
    drop(recorder);
    ports
}

/// The port that each text names. Refuses a text that names no output port of a library actor or an opaque composite, or
/// that stands there before.
pub fn recorded(alloc: Global, tables: &Tables, records: &[Text]) -> Result<Vec<NetPort>, DocFault>
    ensures ok { IfOk result (λ ports. AllZip (net.Records (tables_view tables.now)) records.now ports.items) }
    ensures distinct { OnOk result (AreDistinct records.now) }
    ensures told { IfErr result (IsTold code.Record (IsRecordFault (tables_view tables.now) records.now)) }
{
    let outputs = Outputs::of(alloc, &tables.ports, records)?;
    let ports = recorded_among(alloc, tables, records, &outputs);
    drop(outputs);
    ports
}
