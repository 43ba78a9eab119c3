// Properties, which may have properties of their own.
ghost use Rattle.std.specs.Prelude.{◌≡◌, List, Ok, map, [], ◌∷◌, ◌++◌, option_map, IfErr, OnOk};
ghost use Rattle.pt_json.specs.View.{view, items_view};
ghost use Rattle.pt_document.specs.View.{property_view, properties_view};
ghost use Rattle.pt_document.specs.Outcome.{Gives};
ghost use Rattle.pt_document.specs.Document.{filled, property_name};
ghost use Rattle.pt_document.specs.declared.refusal.DocFault.TheVariants.{Memory};
ghost use Rattle.pt_moml.specs.Fields.{listed};
ghost use Rattle.pt_moml.specs.Reading.{property_fields, property_from, property_at, properties_field, property_items, named};

use crate::fields::{MOST_ROOM, Named, has_fields, name_of, names_differ, optional};
use pt_document::{Code, DocFault, Property, refused};
use pt_json::Value;
use std::alloc::Global;

impl Named for Property {
    ghost use Rattle.std.specs.Prelude.{map, refl};
    ghost use Rattle.pt_document.specs.Document.{property_name};
    ghost use Rattle.pt_document.specs.View.{property_view, properties_view};

    ghost name = { λ p. property_name (property_view p) };

    ghost names = { λ ps. map property_name (properties_view ps) };

    ghost of_none = { refl };

    ghost of_more = { λ p ps. refl };

    fn name(&self) -> &str {
        self.name.as_str()
    }
}

/// The value is an object, and its fields are those of a property.
fn has_property_fields(alloc: Global, path: &str, value: &Value) -> Result<(), DocFault>
    ensures { Gives (λ u. u) result (listed path.now property_fields (view value.now)) }
{
    has_fields(
        alloc,
        path,
        value,
        &["name", "value", "class", "properties"],
    )
}

/// A property without the properties in it.
#[tactic(auto, unfolding(crate::specs::Reading::property_from))]
fn bare_property(alloc: Global, path: &str, value: &Value) -> Result<Property, DocFault>
    ensures { Gives property_view result (property_from path.now (view value.now) (Ok [])) }
{
    has_property_fields(alloc, path, value)?;
    let name = name_of(alloc, path, value.get("name"))?;
    let text = optional(alloc, path, value.get("value"))?;
    let class = optional(alloc, path, value.get("class"))?;
    Ok(Property {
        name,
        value: text,
        class,
        properties: Vec::new(alloc),
    })
}

fn with_properties(bare: Property, properties: Vec<Property>) -> Property
    ensures { property_view result ≡ filled (property_view bare) (properties_view properties.items) }
{
    Property { properties, ..bare }
}

/// The same properties, if their names differ.
#[tactic(auto, unfolding(crate::specs::Reading::named))]
fn distinct(alloc: Global, path: &str, properties: Vec<Property>) -> Result<Vec<Property>, DocFault>
    ensures { Gives (λ v. properties_view v.items) result
        (named path.now property_name (properties_view properties.items)) }
{
    match names_differ(alloc, path, &properties) {
        Ok(()) => Ok(properties),
        Err(fault) => {
            drop(properties);
            Err(fault)
        }
    }
}

fn push(found: &mut Vec<Property>, property: Property) -> Result<(), DocFault>
    ensures ok { OnOk result (properties_view found.new.items ≡ properties_view found.old.items ++ property_view property ∷ []) }
    ensures err { IfErr result (λ e. e ≡ Memory) }
{
    found.push(property)?;
    Ok(())
}

#[cycle(properties)]
fn property_of(alloc: Global, path: &str, value: &Value) -> Result<Property, DocFault>
    ensures { Gives property_view result (property_at path.now (view value.now)) }
{
    let bare = bare_property(alloc, path, value)?;
    match properties_of(alloc, path, value.get("properties")) {
        Ok(properties) => Ok(with_properties(bare, properties)),
        Err(fault) => {
            drop(bare);
            Err(fault)
        }
    }
}

/// The properties at a field.
#[cycle(properties)]
#[tactic(auto, unfolding(crate::specs::Reading::properties_in))]
pub fn properties_of(
    alloc: Global,
    path: &str,
    field: Option<&Value>,
) -> Result<Vec<Property>, DocFault>
    ensures { Gives (λ v. properties_view v.items) result
        (properties_field path.now (option_map (λ v. view v.now) field.entry)) }
{
    match field {
        Some(Value::Array(items)) => {
            let properties = read_properties(alloc, path, items)?;
            distinct(alloc, path, properties)
        }
        Some(_) => Err(refused(alloc, Code::Shape, path)),
        None => Ok(Vec::new(alloc)),
    }
}

#[cycle(properties)]
fn read_properties(alloc: Global, path: &str, items: &[Value]) -> Result<Vec<Property>, DocFault>
    ensures { Gives (λ v. properties_view v.items) result
        (property_items path.now [] (items_view items.now)) }
{
    let mut found = Vec::with_capacity(alloc, items.len().min(MOST_ROOM))?;
    for item in items {
        push(&mut found, property_of(alloc, path, item)?)?;
    }
    Ok(found)
}
