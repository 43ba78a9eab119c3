ghost use Rattle.std.specs.Prelude.{◌≡◌, ◌≤◌, ◌<◌, IfOk, true, false};
ghost use Rattle.pt_node.specs.Shown.{shown_node};
ghost use Rattle.pt_trees.specs.Built.{IsToldAs, held_node};

use pt_chart::Written;
use pt_document::Refusal;
use pt_firing::{Counts, Fires};
use pt_library::LibraryActor;
use pt_net::{Net, NetEntity};
use pt_node::{Body, Held, Node};
use pt_past::{Labels, MeetingRecord, Past, Records};
use pt_stated::Stated;
use pt_trees::{BuildFault, CompositeFault, Directing, Wiring};
use pt_value::Text;
use pt_wiring::{Insides, Numbers};
use pt_within::{
    Within, declared_of, director_of, entity_in, inputs_of, is_undirected, labels_of, machine_at,
    narrow_sources, numbers_at, outputs_of, record_lists, records_of, start_in, stated_at,
    within_all, within_at,
};
use std::alloc::{AllocError, Global};

/// How many composites may stand one in another: more than a document can have.
const MOST_LEVELS: u32 = 32;

/// What a composite is made of beside its children.
#[derive(Drop)]
pub struct Frame {
    pub wiring: Wiring,
    pub path: Text,
    pub records: Records,
    pub labels: Labels,
}

/// A net with what its nodes are made from.
#[derive(Drop)]
pub struct Builder<'a> {
    pub net: &'a Net,
    pub starts: &'a [Option<LibraryActor>],
    pub stated: &'a [Option<Stated>],
    pub machines: &'a [Option<Written>],
    pub insides: Insides,
    pub records: Vec<Numbers>,
    pub channels: Vec<Within>,
}

/// Whether no more composites may stand in one that stands below so many.
fn is_deepest(depth: u32) -> bool
    ensures yes { result ≡ true → 32 ≤ depth }
    ensures no { result ≡ false → depth < 32 }
{
    depth >= MOST_LEVELS
}

/// The answer for a composite that isn't built, of that path.
pub fn fault_at(alloc: Global, fault: CompositeFault, path: &Text) -> BuildFault
    ensures { IsToldAs fault path.now result }
{
    match fault {
        CompositeFault::Unbuilt => BuildFault::Unbuilt,
        CompositeFault::Refused(code) => match path.copy(alloc) {
            Ok(path) => BuildFault::Refused(Refusal { code, path }),
            Err(_) => BuildFault::Memory,
        },
        CompositeFault::Memory => BuildFault::Memory,
    }
}

/// An actor beside its start.
#[inline(always)]
fn held_of(alloc: Global, actor: &LibraryActor) -> Result<Held, AllocError>
    ensures { IfOk result (λ held. held ≡ record { start = actor.now; actor = actor.now }) }
{
    Ok(Held {
        start: actor.copy(alloc)?,
        actor: actor.copy(alloc)?,
    })
}

/// The node of a library actor at its start.
#[inline(always)]
fn actor_node(alloc: Global, held: Held, path: Text, records: Records) -> Node
    ensures { shown_node result ≡ held_node held path records }
{
    Node {
        past: Past {
            made: 0,
            last: None,
        },
        body: Body::Actor(held),
        children: Vec::new(alloc),
        records,
        path,
        labels: Labels::none(alloc),
        meetings: MeetingRecord::unrecorded(),
        live: true,
    }
}

impl<'a> Builder<'a> {
    ghost use Rattle.std.specs.Prelude.{◌≡◌, ℕ, ◌<◌, IfOk, IfErr, OnOk, length, map, option_map, true};
    ghost use Rattle.pt_chart.specs.Views.{machine_of};
    ghost use Rattle.pt_net.specs.Inside.{children_of};
    ghost use Rattle.pt_trees.specs.Around.{around_of};
    ghost use Rattle.pt_trees.specs.Labels.{labels_of};
    ghost use Rattle.pt_trees.specs.Recorded.{recorded_of};
    ghost use Rattle.pt_trees.specs.Directors.{IsDirectedBy};
    ghost use Rattle.pt_trees.specs.Trees.{IsEntity, IsUndirected, around_in, stated_at, machine_at, declared_by};
    ghost use Rattle.pt_trees.specs.Built.{IsNested, BuildFaultStands};
    ghost use Rattle.pt_builder.specs.Starts.{starts_of, starts_in};
    ghost use Rattle.pt_builder.specs.Reached.{IsPrepared, IsReached, HasRoom, IsAdded};

    /// What the nodes of a net are made from, whose library actors start as these, whose process networks state these, and whose Modal entities have these machines, by the numbers of their entities.
    pub fn of(
        alloc: Global,
        net: &'a Net,
        starts: &'a [Option<LibraryActor>],
        stated: &'a [Option<Stated>],
        machines: &'a [Option<Written>],
    ) -> Result<Builder<'a>, AllocError>
        ensures { IfOk result (λ b. (b.net.now ≡ net.now) × (starts_in b ≡ starts_of starts.now stated.now machines.now) × IsPrepared b) }
    {
        let insides = Insides::of(alloc, net)?;
        let records = record_lists(alloc, net.entities.len(), &net.recorded)?;
        let channels = within_all(alloc, net.entities.len(), &net.channels)?;
        Ok(Builder {
            net,
            starts,
            stated,
            machines,
            insides,
            records,
            channels,
        })
    }

    /// The recorded outputs of the entity of that number.
    fn records_at(&self, alloc: Global, k: usize, entity: &NetEntity) -> Result<Records, AllocError>
        requires prepared { IsPrepared self.now }
        requires entity { IsEntity self.now.net.now k entity.now }
        ensures { IfOk result (λ records. records ≡ recorded_of self.now.net.now k entity.now) }
    {
        records_of(alloc, self.net, entity, numbers_at(&self.records, k))
    }

    /// How a report tells the channels of the composite of that number.
    fn labels_at(&self, alloc: Global, k: usize, entity: &NetEntity) -> Result<Labels, AllocError>
        requires prepared { IsPrepared self.now }
        requires entity { IsEntity self.now.net.now k entity.now }
        ensures { IfOk result (λ labels. labels ≡ labels_of self.now.net.now k entity.now) }
    {
        labels_of(alloc, self.net, entity, within_at(&self.channels, k))
    }

    /// The entity of that number.
    pub fn entity_at(&self, k: usize) -> Result<&NetEntity, BuildFault>
        requires { (depth : ℕ) × IsNested self.now.net.now k depth }
        ensures at { IfOk result (λ entity. IsEntity self.now.net.now k entity.now) }
        ensures stands { IfErr result (BuildFaultStands self.now.net.now (starts_in self.now)) }
    {
        let Some(entity) = entity_in(&self.net.entities, k) else {
            return Err(BuildFault::Unbuilt);
        };
        Ok(entity)
    }

    /// The wiring of the composite of that number.
    fn wiring_of(&self, alloc: Global, k: usize, entity: &NetEntity) -> Result<Wiring, AllocError>
        requires prepared { IsPrepared self.now }
        requires entity { IsEntity self.now.net.now k entity.now }
        ensures { IfOk result (λ wiring. around_of wiring ≡ around_in self.now.net.now (starts_in self.now) k entity.now) }
    {
        Ok(Wiring {
            sources: narrow_sources(alloc, self.insides.sources[k].as_slice())?,
            places: Counts::of(Vec::from_slice(alloc, self.insides.places[k].as_slice())?),
            inputs: inputs_of(&entity.ports)?,
            outputs: outputs_of(&entity.ports)?,
            stated: self.stated_at(alloc, k)?,
            declared: self.declared_at(alloc, k)?,
            machine: self.machine_at(alloc, k)?,
        })
    }

    /// What the entity of that number states, if it is a process network.
    fn stated_at(&self, alloc: Global, k: usize) -> Result<Option<Stated>, AllocError>
        ensures { IfOk result (λ stated. stated ≡ stated_at (starts_in self.now) k) }
    {
        stated_at(alloc, self.stated, k)
    }

    /// The machine of the entity of that number, if it is a Modal entity.
    fn machine_at(&self, alloc: Global, k: usize) -> Result<Option<Written>, AllocError>
        ensures { IfOk result (λ machine. option_map machine_of machine ≡ machine_at (starts_in self.now) k) }
    {
        machine_at(alloc, self.machines, k)
    }

    /// What is declared of the children of the composite of that number.
    fn declared_at(&self, alloc: Global, k: usize) -> Result<Vec<Option<Counts>>, AllocError>
        requires prepared { IsPrepared self.now }
        requires there { k < length self.now.net.now.entities.items }
        ensures { IfOk result (λ declared. declared.items ≡ map (declared_by (starts_in self.now)) (children_of self.now.net.now.entities.items k)) }
    {
        declared_of(alloc, self.stated, self.machines, self.children_of(k))
    }

    /// What the composite of that number is made of beside its children.
    pub fn frame_of(&self, alloc: Global, k: usize, entity: &NetEntity) -> Result<Frame, AllocError>
        requires prepared { IsPrepared self.now }
        requires entity { IsEntity self.now.net.now k entity.now }
        ensures wiring { IfOk result (λ frame. around_of frame.wiring ≡ around_in self.now.net.now (starts_in self.now) k entity.now) }
        ensures path { IfOk result (λ frame. frame.path ≡ entity.now.path) }
        ensures records { IfOk result (λ frame. frame.records ≡ recorded_of self.now.net.now k entity.now) }
        ensures labels { IfOk result (λ frame. frame.labels ≡ labels_of self.now.net.now k entity.now) }
    {
        Ok(Frame {
            wiring: self.wiring_of(alloc, k, entity)?,
            path: entity.path.copy(alloc)?,
            records: self.records_at(alloc, k, entity)?,
            labels: self.labels_at(alloc, k, entity)?,
        })
    }

    /// The director of the entity, which isn't a library actor, if it is a composite that documents can have at this depth.
    pub fn check_composite(
        &self,
        k: usize,
        depth: u32,
        entity: &NetEntity,
    ) -> Result<Directing, BuildFault>
        requires reached { IsReached self.now k depth }
        requires entity { IsEntity self.now.net.now k entity.now }
        requires directed { IsUndirected entity.now → ⊥ }
        ensures director { IfOk result (IsDirectedBy entity.now) }
        ensures room { IfOk result (λ _. HasRoom self.now k depth) }
        ensures stands { IfErr result (BuildFaultStands self.now.net.now (starts_in self.now)) }
    {
        if is_deepest(depth) {
            return Err(BuildFault::Unbuilt);
        }
        match director_of(entity) {
            Some(director) => Ok(director),
            None => Err(BuildFault::Unbuilt),
        }
    }

    /// The numbers of the children of an entity.
    pub fn children_of(&self, k: usize) -> &[usize]
        requires prepared { IsPrepared self.now }
        requires there { k < length self.now.net.now.entities.items }
        ensures { result.now ≡ children_of self.now.net.now.entities.items k }
    {
        self.insides.children[k].as_slice()
    }

    /// Puts the node of the library actor of that number behind others. A node is large, so it isn't handed from call to call.
    pub fn add_actor(
        &self,
        alloc: Global,
        k: usize,
        entity: &NetEntity,
        nodes: &mut Vec<Node>,
    ) -> Result<(), BuildFault>
        requires prepared { IsPrepared self.now }
        requires entity { IsEntity self.now.net.now k entity.now }
        requires undirected { IsUndirected entity.now }
        ensures added { OnOk result (IsAdded self.now k nodes.old.items nodes.new.items) }
        ensures stands { IfErr result (BuildFaultStands self.now.net.now (starts_in self.now)) }
    {
        let Some(actor) = start_in(self.starts, k) else {
            return Err(BuildFault::Unbuilt);
        };
        let records = self.records_at(alloc, k, entity)?;
        let path = entity.path.copy(alloc)?;
        let held = held_of(alloc, actor)?;
        nodes.push(actor_node(alloc, held, path, records))?;
        Ok(())
    }
}
