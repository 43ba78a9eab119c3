// What the properties and ports of an entity have to keep beside their form.
ghost use Rattle.std.specs.Prelude.{◌≡◌, map, option_map};
ghost use Rattle.pt_document.specs.Classes.{class_of, director_of, parameter_of, port_of, kind_view};
ghost use Rattle.pt_document.specs.Document.{property_class};
ghost use Rattle.pt_document.specs.Names.{is_among};
ghost use Rattle.pt_document.specs.Outcome.{Gives};
ghost use Rattle.pt_moml.specs.Rules as rules;
ghost use Rattle.pt_document.specs.View.{property_view, properties_view, port_view};

use crate::parameters::{each_fits, parameters_fit};
use pt_document::{
    Class, ClassParameter, ClassPort, Code, Direction, Director, DirectorClass, DocFault, Kind,
    Need, ParameterRow, Port, Property, director_named, is_layout, is_reserved, refused,
    refused_below,
};
use std::alloc::Global;

/// A parameter of a name that isn't reserved, or a Variable, has a value.
#[tactic(auto, unfolding(crate::specs::Rules::value_fits))]
fn value_fits(alloc: Global, here: &str, property: &Property) -> Result<(), DocFault>
    ensures { Gives (λ u. u) result (rules.value_fits here.now (property_view property.now)) }
{
    if is_reserved(property.name.as_str()) {
        return Err(refused(alloc, Code::Name, here));
    }
    if property.value.is_some() {
        Ok(())
    } else {
        Err(refused_below(alloc, Code::Parameter, here, property.name.as_str()))
    }
}

fn classed_fits(alloc: Global, here: &str, property: &Property) -> Result<(), DocFault>
    ensures { Gives (λ u. u) result
        (rules.classed_fits here.now (property_view property.now) (property_class (property_view property.now))) }
{
    match &property.class {
        None => value_fits(alloc, here, property),
        Some(class) => match director_named(class.as_str()) {
            None => Err(refused(alloc, Code::Class, here)),
            Some(row) => parameters_fit(alloc, here, row.parameters, &property.properties),
        },
    }
}

#[tactic(auto, unfolding(crate::specs::Rules::composite_property))]
fn composite_property(alloc: Global, here: &str, property: &Property) -> Result<(), DocFault>
    ensures { Gives (λ u. u) result
        (rules.composite_property here.now (property_view property.now)) }
{
    if is_layout(property.name.as_str()) {
        Ok(())
    } else {
        classed_fits(alloc, here, property)
    }
}

fn composite_properties(alloc: Global, here: &str, properties: &[Property]) -> Result<(), DocFault>
    ensures { Gives (λ u. u) result
        (rules.each (rules.composite_property here.now) (properties_view properties.now)) }
{
    for property in properties {
        composite_property(alloc, here, property)?;
    }
    Ok(())
}

fn is_of_modal(property: &Property) -> bool
    ensures { result ≡ rules.is_of_modal (property_class (property_view property.now)) }
{
    match &property.class {
        None => true,
        Some(class) => class.as_str() == "Variable",
    }
}

#[tactic(auto, unfolding(crate::specs::Rules::modal_property))]
fn modal_property(alloc: Global, here: &str, property: &Property) -> Result<(), DocFault>
    ensures { Gives (λ u. u) result (rules.modal_property here.now (property_view property.now)) }
{
    if is_layout(property.name.as_str()) {
        Ok(())
    } else if is_of_modal(property) {
        value_fits(alloc, here, property)
    } else {
        Err(refused(alloc, Code::Class, here))
    }
}

fn modal_properties(alloc: Global, here: &str, properties: &[Property]) -> Result<(), DocFault>
    ensures { Gives (λ u. u) result
        (rules.each (rules.modal_property here.now) (properties_view properties.now)) }
{
    for property in properties {
        modal_property(alloc, here, property)?;
    }
    Ok(())
}

/// The director that a property is.
#[tactic(auto, unfolding(crate::specs::Rules::property_director))]
pub fn property_director(property: &Property) -> Option<&'static DirectorClass>
    ensures { option_map (λ d. director_of d.now) result
        ≡ rules.property_director (property_view property.now) }
{
    if is_layout(property.name.as_str()) {
        return None;
    }
    match &property.class {
        None => None,
        Some(class) => director_named(class.as_str()),
    }
}

/// The director of a Composite with these properties.
#[tactic(auto, unfolding(crate::specs::Rules::director_at))]
fn director_at(
    alloc: Global,
    here: &str,
    properties: &[Property],
) -> Result<Option<&'static DirectorClass>, DocFault>
    ensures { Gives (λ d. option_map (λ d. director_of d.now) d) result
        (rules.director_at here.now (properties_view properties.now)) }
{
    let mut found = None;
    for property in properties {
        if let Some(row) = property_director(property) {
            if found.is_some() {
                return Err(refused(alloc, Code::Shape, here));
            }
            found = Some(row);
        }
    }
    Ok(found)
}

static RATE: [ClassParameter; 1] = [ParameterRow {
    name: "rate",
    need: Need::Optional,
    is_raw: false,
}];

/// The parameters that a port of a Composite of this director may have.
fn rate_rows(director: Option<&'static DirectorClass>) -> &'static [ClassParameter]
    ensures { map parameter_of result.now
        ≡ rules.rate_rows (option_map (λ d. director_of d.now) director.entry) }
{
    match director {
        Some(row) if matches!(row.director, Director::Pn | Director::Rendezvous) => &RATE,
        _ => &[],
    }
}

#[tactic(auto, unfolding(crate::specs::Rules::port_fits))]
fn port_fits(
    alloc: Global,
    here: &str,
    rows: &[ClassParameter],
    port: &Port,
) -> Result<(), DocFault>
    ensures { Gives (λ u. u) result
        (rules.port_fits here.now (map parameter_of rows.now) (port_view port.now)) }
{
    if is_reserved(port.name.as_str()) {
        Err(refused(alloc, Code::Name, here))
    } else {
        each_fits(alloc, here, rows, &port.properties)
    }
}

fn ports_fit(
    alloc: Global,
    here: &str,
    rows: &[ClassParameter],
    ports: &[Port],
) -> Result<(), DocFault>
    ensures { Gives (λ u. u) result
        (rules.each (rules.port_fits here.now (map parameter_of rows.now)) (map port_view ports.now)) }
{
    for port in ports {
        port_fits(alloc, here, rows, port)?;
    }
    Ok(())
}

fn has_port(ports: &[ClassPort], name: &str) -> bool
    ensures { result ≡ is_among (map (λ port. port.name) (map port_of ports.now)) name.now }
{
    for port in ports {
        if port.name == name {
            return true;
        }
    }
    false
}

fn is_direction(declared: Option<Direction>, direction: Direction) -> bool
    ensures { result ≡ rules.is_direction declared direction }
{
    match (declared, direction) {
        (Some(Direction::Input), Direction::Input) => true,
        (Some(Direction::Output), Direction::Output) => true,
        _ => false,
    }
}

#[tactic(auto, unfolding(crate::specs::Rules::declared_fits))]
fn declared_fits(alloc: Global, here: &str, class: &Class, port: &Port) -> Result<(), DocFault>
    ensures { Gives (λ u. u) result
        (rules.declared_fits here.now (class_of class.now) (port_view port.now)) }
{
    if !is_direction(class.declares, port.direction) {
        return Err(refused(alloc, Code::Shape, here));
    }
    if has_port(class.ports, port.name.as_str()) {
        return Err(refused(alloc, Code::Name, here));
    }
    port_fits(alloc, here, &[], port)
}

fn each_declared_fits(
    alloc: Global,
    here: &str,
    class: &Class,
    ports: &[Port],
) -> Result<(), DocFault>
    ensures { Gives (λ u. u) result
        (rules.each (rules.declared_fits here.now (class_of class.now)) (map port_view ports.now)) }
{
    for port in ports {
        declared_fits(alloc, here, class, port)?;
    }
    Ok(())
}

#[tactic(auto, unfolding(crate::specs::Rules::enough_ports))]
fn enough_ports(alloc: Global, here: &str, class: &Class, ports: &[Port]) -> Result<(), DocFault>
    ensures { Gives (λ u. u) result
        (rules.enough_ports here.now (class_of class.now) (map port_view ports.now)) }
{
    if class.is_declaring && ports.is_empty() {
        Err(refused(alloc, Code::Shape, here))
    } else {
        Ok(())
    }
}

/// The properties and ports of an entity are as its kind wants them.
#[tactic(auto, unfolding(crate::specs::Rules::parts_fit))]
pub fn parts_fit(
    alloc: Global,
    here: &str,
    kind: Kind,
    properties: &[Property],
    ports: &[Port],
) -> Result<(), DocFault>
    ensures { Gives (λ u. u) result
        (rules.parts_fit here.now (kind_view kind) (properties_view properties.now) (map port_view ports.now)) }
{
    match kind {
        Kind::Composite => {
            composite_properties(alloc, here, properties)?;
            let director = director_at(alloc, here, properties)?;
            ports_fit(alloc, here, rate_rows(director), ports)
        }
        Kind::Modal => {
            modal_properties(alloc, here, properties)?;
            ports_fit(alloc, here, &[], ports)
        }
        Kind::Actor(class) => {
            parameters_fit(alloc, here, class.parameters, properties)?;
            enough_ports(alloc, here, class, ports)?;
            each_declared_fits(alloc, here, class, ports)
        }
    }
}
