ghost use Rattle.std.specs.Prelude.{◌≡◌, IfOk, IfErr, map};
ghost use Rattle.std.specs.List.{AllZip};
ghost use Rattle.pt_document.specs.View.{property_view, properties_view};
ghost use Rattle.pt_scopes.specs.Given.{held_view, IsGiven, IsGivenFault};
ghost use Rattle.pt_scopes.specs.Names.{seen_scope};
ghost use Rattle.pt_scopes.specs.PortNames.{names_port_of};
ghost use Rattle.pt_scopes.specs.Sites.{director_form};
ghost use Rattle.pt_scopes.specs.Told.{IsToldAt};
ghost use Rattle.pt_scopes.specs.ClassParameters.{IsParameterOf, IsFaultAmong, AreParametersOf, IsClassFault};

use crate::parameters::{text_of, told_as};
use pt_document::{Code, DocFault, Property, refused};
use pt_parameter::{Parameters, given};
use pt_scopes::{Form, ParameterValue, PortNames, Seen, form_of, name_of};
use std::alloc::Global;

/// Whose parameters are given: an actor of this class, or a director, with the number of the composite round its own. How often
/// a composite below the top would fire by itself isn't looked at.
#[derive(Clone, Copy)]
pub struct Owner<'a> {
    pub class: &'a str,
    pub parent: Option<u32>,
}

impl Owner<'_> {
    /// The form of a parameter.
    fn form(&self, name: &str) -> Form
        ensures { result ≡ director_form self.now.parent self.now.class.now name.now }
    {
        match self.parent {
            Some(_) => {
                if name == "iterations" {
                    Form::Ignored
                } else {
                    form_of(self.class, name)
                }
            }
            None => form_of(self.class, name),
        }
    }
}

/// What a parameter of this form has, whose faults are told at this path.
fn given_at(
    alloc: Global,
    path: &str,
    ports: &PortNames,
    seen: &Seen,
    form: Form,
    text: &str,
) -> Result<ParameterValue, DocFault>
    ensures ok { IfOk result (λ p. IsGiven (names_port_of ports.now) (seen_scope seen.now) form text.now (held_view p)) }
    ensures told { IfErr result (IsToldAt path.now (IsGivenFault (names_port_of ports.now) (seen_scope seen.now) form text.now)) }
{
    match given(alloc, ports, seen, form, text) {
        Ok(value) => Ok(value),
        Err(fault) => Err(told_as(alloc, path, fault)),
    }
}

/// What each of these parameters has.
fn each_given(
    alloc: Global,
    path: &str,
    ports: &PortNames,
    seen: &Seen,
    owner: &Owner,
    properties: &[Property],
) -> Result<Vec<ParameterValue>, DocFault>
    ensures ok { IfOk result (λ values. AllZip (IsParameterOf (names_port_of ports.now) (seen_scope seen.now) (director_form owner.now.parent owner.now.class.now)) (properties_view properties.now) (map held_view values.items)) }
    ensures told { IfErr result (IsToldAt path.now (IsFaultAmong (names_port_of ports.now) (seen_scope seen.now) (director_form owner.now.parent owner.now.class.now) (properties_view properties.now))) }
{
    let mut values = Vec::with_capacity(alloc, properties.len())?;
    for property in properties {
        let form = owner.form(name_of(property));
        let value = given_at(alloc, path, ports, seen, form, text_of(property))?;
        values.push(value)?;
    }
    Ok(values)
}

/// What the parameters of an actor or a director have, which have to agree with one another.
pub fn class_parameters(
    alloc: Global,
    path: &str,
    ports: &PortNames,
    seen: &Seen,
    owner: &Owner,
    properties: &[Property],
) -> Result<Vec<ParameterValue>, DocFault>
    ensures ok { IfOk result (λ values. AreParametersOf (names_port_of ports.now) (seen_scope seen.now) owner.now.parent owner.now.class.now (properties_view properties.now) (map held_view values.items)) }
    ensures told { IfErr result (IsToldAt path.now (IsClassFault (names_port_of ports.now) (seen_scope seen.now) owner.now.parent owner.now.class.now (properties_view properties.now))) }
{
    let values = each_given(alloc, path, ports, seen, owner, properties)?;
    let together = Parameters {
        class: owner.class,
        properties,
        values: &values,
    };
    if together.agree() {
        Ok(values)
    } else {
        Err(refused(alloc, Code::Value, path))
    }
}
