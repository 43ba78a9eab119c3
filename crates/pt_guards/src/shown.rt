ghost use Rattle.std.specs.Prelude.{◌≡◌, ◌||◌, List, ℕ, IfOk, OnOk, map, not, false};
ghost use Rattle.std.specs.HashSet.{contains_text};
ghost use Rattle.std.specs.Str.{bytes_eq};
ghost use Rattle.pt_types.specs.Entry.{typed_entry};
ghost use Rattle.pt_formula.specs.Formula.{names, is_among};
ghost use Rattle.pt_chart.specs.Names.{shown_among, are_shown};
ghost use Rattle.pt_chart.specs.Views.{names_view};

use pt_chart::Names;
use pt_types::Ty;
use pt_value::Text;
use std::alloc::{AllocError, Global};
use std::collections::HashSet;
use std::hash::{BuildHasherDefault, DefaultHasher};

/// Names that are taken. Under the fast hasher that sets have by default a document could hold any number of names of one hash.
type NameSet = HashSet<String, BuildHasherDefault<DefaultHasher>, Global>;

/// Of each Variable, whether its name stands for it: neither a later Variable nor a port has that name.
pub(crate) fn are_shown(alloc: Global, names: &Names) -> Result<Vec<bool>, AllocError>
    ensures { IfOk result (λ shown. shown.items ≡ are_shown (names_view names.now)) }
{
    let mut taken: NameSet = HashSet::with_hasher(alloc, BuildHasherDefault::new());
    let shown = shown_beside_ports(alloc, names, &mut taken);
    drop(taken);
    shown
}

fn shown_beside_ports(
    alloc: Global,
    names: &Names,
    taken: &mut NameSet,
) -> Result<Vec<bool>, AllocError>
    requires { (name : List ℕ) → contains_text taken.old name ≡ false }
    ensures { IfOk result (λ shown. shown.items ≡ are_shown (names_view names.now)) }
{
    put_names(alloc, taken, names.inputs.as_slice())?;
    put_names(alloc, taken, names.outputs.as_slice())?;
    shown_among(alloc, taken, names.variables.as_slice())
}

/// Puts all names there.
fn put_names(alloc: Global, taken: &mut NameSet, entries: &[(Text, Ty)]) -> Result<(), AllocError>
    ensures { OnOk result ((name : List ℕ) → contains_text taken.new name ≡ (is_among name (names (map typed_entry entries.now)) || contains_text taken.old name)) }
{
    for (name, _) in entries {
        put_name(alloc, taken, name.as_str())?;
    }
    Ok(())
}

/// Puts a name there: whether it is new.
fn put_name(alloc: Global, taken: &mut NameSet, name: &str) -> Result<bool, AllocError>
    ensures new { IfOk result (λ new. new ≡ not (contains_text taken.old name.now)) }
    ensures there { OnOk result ((other : List ℕ) → contains_text taken.new other ≡ (bytes_eq name.now other || contains_text taken.old other)) }
{
    let key = String::from_str(alloc, name)?;
    Ok(taken.insert(key)?)
}

/// Of each of these Variables, whether no later one has its name, and the name isn't taken.
fn shown_among(
    alloc: Global,
    taken: &mut NameSet,
    variables: &[(Text, Ty)],
) -> Result<Vec<bool>, AllocError>
    ensures { IfOk result (λ shown. shown.items ≡ shown_among (contains_text taken.old) (map typed_entry variables.now)) }
{
    let mut shown = vec![in alloc; false; variables.len()]?;
    let mut left = variables.len();
    while left > 0 {
        left -= 1;
        let (name, _) = &variables[left];
        shown[left] = put_name(alloc, taken, name.as_str())?;
    }
    Ok(shown)
}
