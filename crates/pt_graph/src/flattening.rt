ghost use Rattle.std.specs.Prelude.{◌≡◌, ℕ, List, length, map, filter, not, IfOk, IfErr, OnOk};
ghost use Rattle.pt_document.specs.declared.code.Code.{Code};
ghost use Rattle.pt_document.specs.declared.code.Code.TheVariants as code;
ghost use Rattle.pt_document.specs.declared.refusal.DocFault.TheVariants.{Memory};
ghost use Rattle.pt_document.specs.Names.{top_path};
ghost use Rattle.pt_document.specs.View.{job_view, input_view};
ghost use Rattle.pt_net.specs.Net as net;
ghost use Rattle.pt_net.specs.Net.{AreJoints, IsNetOf};
ghost use Rattle.pt_net.specs.Standing.{is_kept};
ghost use Rattle.pt_net.specs.Stands.{IsTold, IsFaultIn, IsFaultOf, Stands};
ghost use Rattle.pt_survey.specs.Survey.{table_view, tables_view};
ghost use Rattle.pt_links.specs.Wiring.{IsWiring, AllNamed, AreOwned};
ghost use Rattle.pt_graph.specs.ChannelTable.{AreChannels, AreTooMany};

use crate::channels::channels_of;
use crate::origins::Origins;
use crate::sources::check_groups;
use pt_copies::{inputs, net_entities, texts, transparent_composites};
use pt_document::{Code, DocFault, Input, Job};
use pt_links::{Wiring, check_counts, check_ports, joints, recorded, refused_at};
use pt_net::{Channel, Joint, Net, NetEntity, Transparent};
use pt_survey::{Placed, Tables, number, survey, tables_of};
use pt_value::Text;
use std::alloc::Global;

/// How many channels a net may have.
const MOST_CHANNELS: usize = 100_000;

/// How many ports may be recorded.
const MOST_RECORDS: usize = 10_000;

/// The channels of a net, and what its links join.
#[derive(Drop)]
struct Passages {
    channels: Vec<Channel>,
    joints: Vec<Joint>,
}

/// The channels of a job with these wires. Refuses a link, a place without a source and a relation group with two.
fn checked_channels(alloc: Global, wiring: &Wiring) -> Result<Vec<Channel>, DocFault>
    requires wiring { IsWiring wiring.now }
    requires named { AllNamed (tables_view wiring.now.tables.now) }
    ensures ok { IfOk result (λ channels. AreChannels (tables_view wiring.now.tables.now) channels.items) }
    ensures told { IfErr result (λ fault. (records : List (List ℕ)) → IsFaultIn (tables_view wiring.now.tables.now) records fault) }
{
    check_ports(alloc, wiring)?;
    check_counts(alloc, wiring)?;
    check_groups(alloc, wiring)?;
    let origins = Origins::of(alloc, wiring)?;
    let channels = channels_of(alloc, &origins);
    drop(origins);
    channels
}

/// The same channels, and what the links join.
fn wired_paths(alloc: Global, wiring: &Wiring) -> Result<Passages, DocFault>
    requires wiring { IsWiring wiring.now }
    requires named { AllNamed (tables_view wiring.now.tables.now) }
    ensures channels { IfOk result (λ paths. AreChannels (tables_view wiring.now.tables.now) paths.channels.items) }
    ensures joints { IfOk result (λ paths. AreJoints (tables_view wiring.now.tables.now) paths.joints.items) }
    ensures told { IfErr result (λ fault. (records : List (List ℕ)) → IsFaultIn (tables_view wiring.now.tables.now) records fault) }
{
    let channels = checked_channels(alloc, wiring)?;
    match joints(alloc, wiring) {
        Ok(joints) => Ok(Passages { channels, joints }),
        Err(fault) => {
            drop(channels);
            Err(fault)
        }
    }
}

/// The channels of a job with these tables, and what its links join. Refuses a link, a place without a source and a
/// relation group with two.
fn paths(alloc: Global, tables: &Tables) -> Result<Passages, DocFault>
    requires { AreOwned (tables_view tables.now) }
    ensures channels { IfOk result (λ paths. AreChannels (tables_view tables.now) paths.channels.items) }
    ensures joints { IfOk result (λ paths. AreJoints (tables_view tables.now) paths.joints.items) }
    ensures told { IfErr result (λ fault. (records : List (List ℕ)) → IsFaultIn (tables_view tables.now) records fault) }
{
    let wiring = Wiring::of(alloc, tables)?;
    let paths = wired_paths(alloc, &wiring);
    drop(wiring);
    paths
}

/// Refuses too many channels or recorded ports.
fn check_limits(alloc: Global, channels: &[Channel], records: &[Text]) -> Result<(), DocFault>
    ensures ok { OnOk result (AreTooMany (length channels.now) (length records.now) → ⊥) }
    ensures told { IfErr result (IsTold code.Limit (λ path. AreTooMany (length channels.now) (length records.now) × (path ≡ top_path))) }
{
    if MOST_CHANNELS < channels.len() || MOST_RECORDS < records.len() {
        return Err(refused_at(alloc, Code::Limit, "."));
    }
    Ok(())
}

/// What a net has of its job as it stands there.
#[derive(Drop)]
struct Copies {
    entities: Vec<NetEntity>,
    transparent: Vec<Transparent>,
    inputs: Vec<Input>,
    records: Vec<Text>,
}

fn copied(alloc: Global, job: &Job, table: &[Placed]) -> Result<Copies, DocFault>
    ensures entities { IfOk result (λ copied. map net.entity_view copied.entities.items ≡ map net.entity_tree (filter is_kept (table_view table.now))) }
    ensures transparent { IfOk result (λ copied. map net.transparent_view copied.transparent.items ≡ map net.transparent_tree (filter (λ s. not (is_kept s)) (table_view table.now))) }
    ensures inputs { IfOk result (λ copied. map input_view copied.inputs.items ≡ map input_view job.now.inputs.items) }
    ensures records { IfOk result (λ copied. copied.records.items ≡ job.now.records.items) }
    ensures err { IfErr result (λ e. e ≡ Memory) }
{
    Ok(Copies {
        entities: net_entities(alloc, table)?,
        transparent: transparent_composites(alloc, table)?,
        inputs: inputs(alloc, &job.inputs)?,
        records: texts(alloc, &job.records)?,
    })
}

/// The net of a job: its library actors and opaque composites, and a channel for each path of links, relations and
/// transparent composites from a source to a place.
///
/// # Errors
///
/// Refuses a job for each [`Code::Link`], [`Code::TwoSources`], [`Code::Record`] and [`Code::Limit`] that stands there,
/// and tells one of them at its path; fails with [`DocFault::Memory`] where memory runs out.
pub fn flatten(alloc: Global, job: &Job) -> Result<Net, DocFault>
    ensures net { IfOk result (IsNetOf (job_view job.now)) }
    ensures accepted { OnOk result ((code : Code) (path : List ℕ) → Stands code path (job_view job.now) → ⊥) }
    ensures refused { IfErr result (IsFaultOf (job_view job.now)) }
{
    let entities = survey(alloc, job)?;
    let tables = tables_of(alloc, &entities)?;
    let paths = paths(alloc, &tables)?;
    check_limits(alloc, &paths.channels, &job.records)?;
    let recorded = recorded(alloc, &tables, &job.records)?;
    let relation_count = number(tables.relations.len())?;
    let copied = copied(alloc, job, &entities)?;
    Ok(Net {
        entities: copied.entities,
        transparent: copied.transparent,
        channels: paths.channels,
        relation_count,
        joints: paths.joints,
        inputs: copied.inputs,
        records: copied.records,
        recorded,
    })
}
