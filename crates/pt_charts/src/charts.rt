// Modal entities with their texts.
ghost use Rattle.std.specs.Prelude.{IfOk, OnOk, map, option_map, length};
ghost use Rattle.pt_net.specs.Net.{entity_view};
ghost use Rattle.pt_scopes.specs.Valued as valued;
ghost use Rattle.pt_inequalities.specs.Modals.{IsChartOf, IsChartAdded, AreCharts};
ghost use Rattle.pt_frames.specs.Views.{frames_view};
ghost use Rattle.pt_charts.specs.Views.{chart_view};

use crate::modal_scope::ModalScope;
use crate::modal_texts::{TransitionTrees, read_transitions};
use pt_frames::{Frames, is_modal, values_at};
use pt_net::NetEntity;
use pt_scopes::EntityValues;
use std::alloc::{AllocError, Global};

/// A Modal entity with what its texts read as.
#[derive(Drop)]
pub struct Chart<'a> {
    pub scope: ModalScope<'a>,
    pub transitions: Vec<TransitionTrees>,
}

/// The chart of an entity.
fn chart_of<'a>(
    alloc: Global,
    frames: &'a Frames,
    number: usize,
    entity: &NetEntity,
    values: &EntityValues,
) -> Result<Chart<'a>, AllocError>
    ensures { IfOk result (λ c. IsChartOf (frames_view frames.now) number (entity_view entity.now) (valued.entity_view values.now) (chart_view c)) }
{
    let scope = ModalScope::of(alloc, frames, number, entity, values)?;
    let transitions = read_transitions(alloc, &scope, &entity.transitions)?;
    Ok(Chart { scope, transitions })
}

/// Adds the chart of an entity, where it is Modal and has values.
fn add_chart<'a>(
    alloc: Global,
    frames: &'a Frames,
    number: usize,
    entity: &NetEntity,
    values: Option<&EntityValues>,
    charts: &mut Vec<Chart<'a>>,
) -> Result<(), AllocError>
    ensures { OnOk result (IsChartAdded (frames_view frames.now) number (entity_view entity.now) (option_map (λ v. valued.entity_view v.now) values.entry) (map chart_view charts.old.items) (map chart_view charts.new.items)) }
{
    if !is_modal(entity) {
        return Ok(());
    }
    match values {
        Some(values) => {
            let chart = chart_of(alloc, frames, number, entity, values)?;
            charts.push(chart)?;
            Ok(())
        }
        None => Ok(()),
    }
}

/// The charts of the Modal entities among some.
pub fn charts_of<'a>(
    alloc: Global,
    frames: &'a Frames,
    entities: &[NetEntity],
    values: &[EntityValues],
) -> Result<Vec<Chart<'a>>, AllocError>
    ensures { IfOk result (λ cs. AreCharts (frames_view frames.now) (map entity_view entities.now) (map valued.entity_view values.now) (length (map entity_view entities.now)) (map chart_view cs.items)) }
{
    let mut charts = Vec::new(alloc);
    for (number, entity) in entities.iter().enumerate() {
        let own = values_at(values, number);
        add_chart(alloc, frames, number, entity, own, &mut charts)?;
    }
    Ok(charts)
}
