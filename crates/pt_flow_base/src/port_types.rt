ghost use Rattle.std.specs.Prelude.{◌≡◌, ℕ, List, IfOk, map, option_map};
ghost use Rattle.pt_datatypes.specs.Datatype.{Datatype};
ghost use Rattle.pt_types.specs.Ty.{type_of};
ghost use Rattle.pt_types.specs.Entry.{typed_entry};
ghost use Rattle.pt_flow_base.specs.PortTypes.{type_named, typed_names};
ghost use Rattle.pt_flow_base.specs.TypeTable.{types_in};

use crate::type_table::TypeTable;
use pt_firing::Names;
use pt_types::Ty;
use pt_value::Text;
use std::alloc::{AllocError, Global};
use std::marker::Model;

/// The type of what passes at each port, by the port's name.
#[derive(Drop)]
pub struct PortTypes {
    types: Vec<(Text, Ty)>,
}

impl Model for PortTypes {
    ghost use Rattle.std.specs.Prelude.{List, map, ℕ};
    ghost use Rattle.std.specs.Coded.{coded_list, coded_ℕ, coded×};
    ghost use Rattle.pt_datatypes.specs.Datatype.{Datatype};
    ghost use Rattle.pt_datatypes.specs.DatatypeCode.{coded_type};
    ghost use Rattle.pt_types.specs.Entry.{typed_entry};

    ghost Value = { List (List ℕ × Datatype) };

    ghost coded = { coded_list (coded× (coded_list coded_ℕ) coded_type) };

    ghost view = { λ p. map typed_entry p.types.items };
}

impl PortTypes {
    pub fn of(types: Vec<(Text, Ty)>) -> PortTypes
        ensures { result ≡ map typed_entry types.items }
    {
        PortTypes { types }
    }

    pub fn as_slice(&self) -> &[(Text, Ty)]
        ensures { map typed_entry result.now ≡ self.now }
    {
        self.types.as_slice()
    }

    pub fn copy(&self, alloc: Global) -> Result<PortTypes, AllocError>
        ensures { IfOk result (λ types. types ≡ self.now) }
    {
        Ok(PortTypes {
            types: copies(alloc, self.types.as_slice())?,
        })
    }

    /// The type of the port of a name.
    pub fn get(&self, name: &str) -> Option<&Ty>
        ensures { option_map (λ ty. type_of ty.now) result ≡ type_named name.now self.now }
    {
        under(name, self.types.as_slice())
    }

    /// Some names with their types, if each has one.
    pub fn typed(&self, alloc: Global, names: &Names) -> Result<Option<PortTypes>, AllocError>
        ensures { IfOk result (λ typed. typed ≡ typed_names self.now names.now) }
    {
        let table = TypeTable::of(alloc, self.as_slice())?;
        let names = names.as_slice();
        let typed = typed_by(alloc, &table, names);
        drop(table);
        typed
    }
}

/// Some names with their types in a table, if each has one.
fn typed_by(
    alloc: Global,
    table: &TypeTable,
    names: &[Text],
) -> Result<Option<PortTypes>, AllocError>
    ensures { IfOk result (λ typed. (types : List (List ℕ × Datatype)) → ((name : List ℕ) → types_in table.now name ≡ type_named name types) → typed ≡ typed_names types names.now) }
{
    let mut types = Vec::new(alloc);
    for name in names {
        let Some(entry) = table.entry(alloc, name)? else {
            return Ok(None);
        };
        types.push(entry)?;
    }
    Ok(Some(PortTypes { types }))
}

fn copies(alloc: Global, entries: &[(Text, Ty)]) -> Result<Vec<(Text, Ty)>, AllocError>
    ensures { IfOk result (λ types. map typed_entry types.items ≡ map typed_entry entries.now) }
{
    let mut types = Vec::with_capacity(alloc, entries.len())?;
    for (name, ty) in entries {
        types.push((name.copy(alloc)?, ty.copy(alloc)?))?;
    }
    Ok(types)
}

/// The type of the first entry of a name.
fn under<'a>(name: &str, entries: &'a [(Text, Ty)]) -> Option<&'a Ty>
    ensures { option_map (λ ty. type_of ty.now) result ≡ type_named name.now (map typed_entry entries.now) }
{
    for (key, ty) in entries {
        if key.as_str() == name {
            return Some(ty);
        }
    }
    None
}
