// The parameters of classes, directors and ports.
ghost use Rattle.std.specs.Prelude.{◌≡◌, map};
ghost use Rattle.pt_document.specs.Classes.{parameter_of};
ghost use Rattle.pt_document.specs.Document.{property_name};
ghost use Rattle.pt_document.specs.Names.{is_among};
ghost use Rattle.pt_document.specs.Outcome.{Gives};
ghost use Rattle.pt_moml.specs.Rules as rules;
ghost use Rattle.pt_document.specs.View.{property_view, properties_view};

use pt_document::{
    ClassParameter, Code, DocFault, Need, Property, is_layout, refused, refused_below,
};
use std::alloc::Global;

fn has_parameter(rows: &[ClassParameter], name: &str) -> bool
    ensures { result ≡ is_among (rules.parameter_names (map parameter_of rows.now)) name.now }
{
    for row in rows {
        if row.name == name {
            return true;
        }
    }
    false
}

fn has_property(properties: &[Property], name: &str) -> bool
    ensures { result ≡ is_among (map property_name (properties_view properties.now)) name.now }
{
    for property in properties {
        if property.name.as_str() == name {
            return true;
        }
    }
    false
}

#[tactic(auto, unfolding(crate::specs::Rules::parameter_fits))]
fn parameter_fits(
    alloc: Global,
    here: &str,
    rows: &[ClassParameter],
    property: &Property,
) -> Result<(), DocFault>
    ensures { Gives (λ u. u) result
        (rules.parameter_fits here.now (map parameter_of rows.now) (property_view property.now)) }
{
    let name = property.name.as_str();
    if is_layout(name) {
        return Ok(());
    }
    if property.class.is_some() {
        return Err(refused(alloc, Code::Class, here));
    }
    if has_parameter(rows, name) && property.value.is_some() {
        Ok(())
    } else {
        Err(refused_below(alloc, Code::Parameter, here, name))
    }
}

/// Each of the properties is a parameter of these.
pub fn each_fits(
    alloc: Global,
    here: &str,
    rows: &[ClassParameter],
    properties: &[Property],
) -> Result<(), DocFault>
    ensures { Gives (λ u. u) result
        (rules.each (rules.parameter_fits here.now (map parameter_of rows.now)) (properties_view properties.now)) }
{
    for property in properties {
        parameter_fits(alloc, here, rows, property)?;
    }
    Ok(())
}

fn is_needed(here: &str, need: Need) -> bool
    ensures { result ≡ rules.is_needed here.now need }
{
    match need {
        Need::Optional => false,
        Need::Required => true,
        Need::RequiredAtTop => here == ".",
    }
}

#[tactic(auto, unfolding(crate::specs::Rules::parameter_given))]
fn parameter_given(
    alloc: Global,
    here: &str,
    properties: &[Property],
    row: &ClassParameter,
) -> Result<(), DocFault>
    ensures { Gives (λ u. u) result
        (rules.parameter_given here.now (properties_view properties.now) (parameter_of row.now)) }
{
    if is_needed(here, row.need) && !has_property(properties, row.name) {
        Err(refused_below(alloc, Code::Parameter, here, row.name))
    } else {
        Ok(())
    }
}

fn each_given(
    alloc: Global,
    here: &str,
    properties: &[Property],
    rows: &[ClassParameter],
) -> Result<(), DocFault>
    ensures { Gives (λ u. u) result
        (rules.each (rules.parameter_given here.now (properties_view properties.now)) (map parameter_of rows.now)) }
{
    for row in rows {
        parameter_given(alloc, here, properties, row)?;
    }
    Ok(())
}

/// The properties are parameters of these, and those that have to be given are.
#[tactic(auto, unfolding(crate::specs::Rules::parameters_fit))]
pub fn parameters_fit(
    alloc: Global,
    here: &str,
    rows: &[ClassParameter],
    properties: &[Property],
) -> Result<(), DocFault>
    ensures { Gives (λ u. u) result
        (rules.parameters_fit here.now (map parameter_of rows.now) (properties_view properties.now)) }
{
    each_fits(alloc, here, rows, properties)?;
    each_given(alloc, here, properties, rows)
}
