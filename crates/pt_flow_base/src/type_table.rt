ghost use Rattle.std.specs.Prelude.{◌≡◌, IfOk, OnOk, None, Some, List, ℕ, map, option_map, if◌then◌else◌};
ghost use Rattle.std.specs.Str.{bytes_eq};
ghost use Rattle.pt_types.specs.Ty.{type_of};
ghost use Rattle.pt_types.specs.Entry.{typed_entry};
ghost use Rattle.pt_flow_base.specs.PortTypes.{type_named};
ghost use Rattle.pt_flow_base.specs.TypeTable.{types_in};

use pt_name_map::NameMap;
use pt_types::Ty;
use pt_value::Text;
use std::alloc::{AllocError, Global};

/// Types by name.
#[derive(Drop)]
pub(crate) struct TypeTable {
    types: NameMap<Ty>,
}

impl TypeTable {
    fn new(alloc: Global) -> TypeTable
        ensures { (name : List ℕ) → types_in result name ≡ None }
    {
        TypeTable {
            types: NameMap::new(alloc),
        }
    }

    /// Puts a type under a name, in place of what was there.
    fn put(&mut self, alloc: Global, name: &str, ty: Ty) -> Result<(), AllocError>
        ensures { OnOk result ((other : List ℕ) → types_in self.new other ≡ (if bytes_eq name.now other then Some (type_of ty) else types_in self.old other)) }
    {
        self.types.put(alloc, name, ty)
    }

    /// Puts a copy of the type of an entry under its name.
    fn put_copy(&mut self, alloc: Global, entry: &(Text, Ty)) -> Result<(), AllocError>
        ensures { OnOk result ((other : List ℕ) → types_in self.new other ≡ (if bytes_eq entry.now.0 other then Some (type_of entry.now.1) else types_in self.old other)) }
    {
        let (name, ty) = entry;
        let ty = ty.copy(alloc)?;
        self.put(alloc, name.as_str(), ty)
    }

    /// The table of some entries, of which the first one under a name counts.
    pub(crate) fn of(alloc: Global, entries: &[(Text, Ty)]) -> Result<TypeTable, AllocError>
        ensures { IfOk result (λ table. (name : List ℕ) → types_in table name ≡ type_named name (map typed_entry entries.now)) }
    {
        let mut table = TypeTable::new(alloc);
        // What is put later replaces what was there.
        let mut left = entries.len();
        while left > 0 {
            left -= 1;
            table.put_copy(alloc, &entries[left])?;
        }
        Ok(table)
    }

    /// The type under a name.
    pub(crate) fn get(&self, name: &str) -> Option<&Ty>
        ensures { option_map (λ ty. type_of ty.now) result ≡ types_in self.now name.now }
    {
        self.types.get(name)
    }

    /// A name with its type, if it has one.
    pub(crate) fn entry(&self, alloc: Global, name: &Text) -> Result<Option<(Text, Ty)>, AllocError>
        ensures { IfOk result (λ entry. option_map typed_entry entry ≡ option_map (λ t. (name.now, t)) (types_in self.now name.now)) }
    {
        match self.get(name.as_str()) {
            Some(ty) => entry_of(alloc, name, ty).map(Some),
            None => Ok(None),
        }
    }
}

/// A copy of a name and its type.
fn entry_of(alloc: Global, name: &Text, ty: &Ty) -> Result<(Text, Ty), AllocError>
    ensures name { IfOk result (λ entry. entry.0 ≡ name.now) }
    ensures ty { IfOk result (λ entry. type_of entry.1 ≡ type_of ty.now) }
{
    let name = name.copy(alloc)?;
    let ty = ty.copy(alloc)?;
    Ok((name, ty))
}
