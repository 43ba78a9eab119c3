// The whole document.
ghost use Rattle.std.specs.Prelude.{◌≡◌, map, option_map, IfOk, IfErr, OnOk};
ghost use Rattle.pt_json.specs.View.{view};
ghost use Rattle.pt_document.specs.Outcome.{Gives};
ghost use Rattle.pt_moml.specs.Reading.{version_at, limits_at, model_at, surroundings_at, job_of, IsJobOf, IsReadFault};
ghost use Rattle.pt_moml.specs.Stands.{FaultStands, IsClean};
ghost use Rattle.pt_document.specs.View.{entity_view, job_view};
ghost use Rattle.pt_moml.specs.StageView.{surroundings_view};

use crate::entity::entity_of_name;
use crate::fields::{has_fields, list_or_empty, name_of};
use crate::limits::is_within;
use pt_document::{Code, DocFault, Entity, Input, Job, refused};
use pt_json::{Scratch, Unread, Value};
use pt_value::Text;
use std::alloc::Global;
use std::mem::ManuallyDrop;

/// How many bytes a document has at most whose value is kept to the end of the program.
const MOST_KEPT: usize = 4_194_304;

fn check_version(alloc: Global, field: Option<&Value>) -> Result<(), DocFault>
    ensures { Gives (λ u. u) result (version_at (option_map (λ v. view v.now) field.entry)) }
{
    match field {
        Some(value) => {
            if value.as_u64() == Some(1) {
                Ok(())
            } else {
                Err(refused(alloc, Code::Shape, "."))
            }
        }
        None => Err(refused(alloc, Code::Shape, ".")),
    }
}

#[tactic(auto, unfolding(crate::specs::Reading::limits_at))]
fn check_limits(alloc: Global, model: &Value) -> Result<(), DocFault>
    ensures { Gives (λ u. u) result (limits_at (view model.now)) }
{
    if is_within(model.get("entities")) {
        Ok(())
    } else {
        Err(refused(alloc, Code::Limit, "."))
    }
}

#[tactic(auto, unfolding(crate::specs::Reading::model_at))]
fn model_of(alloc: Global, field: Option<&Value>) -> Result<Entity, DocFault>
    ensures { Gives entity_view result (model_at (option_map (λ v. view v.now) field.entry)) }
{
    match field {
        Some(value) => {
            check_limits(alloc, value)?;
            let name = name_of(alloc, ".", value.get("name"))?;
            entity_of_name(alloc, ".", name, value)
        }
        None => Err(refused(alloc, Code::Shape, ".")),
    }
}

/// What comes to a model, and what is recorded of it.
#[derive(Drop)]
struct Surroundings {
    inputs: Vec<Input>,
    records: Vec<Text>,
}

#[tactic(auto, unfolding(crate::specs::Reading::surroundings_at))]
fn surroundings_of(alloc: Global, value: &Value) -> Result<Surroundings, DocFault>
    ensures { Gives surroundings_view result (surroundings_at (view value.now)) }
{
    let inputs = list_or_empty(alloc, ".", value.get("inputs"))?;
    let records = list_or_empty(alloc, ".", value.get("record"))?;
    Ok(Surroundings { inputs, records })
}

fn job_at(alloc: Global, value: &Value) -> Result<Job, DocFault>
    ensures { Gives job_view result (job_of (view value.now)) }
{
    has_fields(alloc, ".", value, &["version", "model", "inputs", "record"])?;
    check_version(alloc, value.get("version"))?;
    let model = model_of(alloc, value.get("model"))?;
    match surroundings_of(alloc, value) {
        Ok(around) => Ok(Job {
            model,
            inputs: around.inputs,
            records: around.records,
        }),
        Err(fault) => {
            drop(model);
            Err(fault)
        }
    }
}

/// Lets go of the value of so many bytes. That of few bytes is kept to the end of the program, which takes no time.
fn let_go(value: Value, length: usize) {
    if length <= MOST_KEPT {
        let _kept = ManuallyDrop::new(value);
    } else {
        drop(value);
    }
}

fn read_exactly(alloc: Global, bytes: &[u8]) -> Result<Job, DocFault>
    ensures job { IfOk result (λ j. IsJobOf bytes.now (job_view j)) }
    // Of the refusals that stand the first one in the order of reading is told.
    ensures first { IfErr result (IsReadFault bytes.now) }
{
    let mut scratch = Scratch::new(alloc);
    match pt_json::read(alloc, bytes, &mut scratch) {
        Ok(value) => {
            let job = job_at(alloc, &value);
            let_go(value, bytes.len());
            job
        }
        Err(Unread::Memory) => Err(DocFault::Memory),
        Err(Unread::NoJson) => Err(refused(alloc, Code::Json, ".")),
    }
}

/// Reads a document. Where several refusals stand any of them may be told.
pub fn read(alloc: Global, bytes: &[u8]) -> Result<Job, DocFault>
    // The job is the one that the JSON value of the bytes stands for.
    ensures job { IfOk result (λ j. IsJobOf bytes.now (job_view j)) }
    // It is read only where no refusal stands.
    ensures clean { OnOk result (IsClean bytes.now) }
    // A refusal that is told stands at the path that is told.
    ensures refused { IfErr result (FaultStands bytes.now) }
{
    read_exactly(alloc, bytes)
}
