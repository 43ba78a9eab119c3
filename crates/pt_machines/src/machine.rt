ghost use Rattle.std.specs.Prelude.{◌≡◌, List, IfOk, IfErr, map, true, false};
ghost use Rattle.std.specs.List.{All};
ghost use Rattle.pt_charts.specs.Readable.{IsReadable, texts_of};
ghost use Rattle.pt_chart.specs.Views.{mode_view, machine_of};
ghost use Rattle.pt_machine.specs.Machines.{Leaving, IsMachine};
ghost use Rattle.pt_machine_parts.specs.Told.{IsTold};
ghost use Rattle.pt_machine_parts.specs.Own.{IsNumbered, IsFaultOf};
ghost use Rattle.pt_machine_parts.specs.Claims.{AreNamedOnce};
ghost use Rattle.pt_machines.specs.Sites.{entity_at, kids_at, values_at, scope_at, typing_at};
ghost use Rattle.pt_machines.specs.Charted.{AreAdded};

use crate::chart::{add_transitions, names_of};
use crate::site::Site;
use pt_chart::{Mode, Written, copied_tokens};
use pt_machine_parts::{ModalFault, all_ports, check_children, initial_of, modes_of};
use pt_value::{Text, Token};
use std::alloc::Global;

/// The states with their transitions, and the parameters that these name.
fn charted(alloc: Global, site: &Site) -> Result<(Vec<Mode>, Vec<(Text, Token)>), ModalFault>
    requires readable { All (IsReadable (scope_at site.now)) (texts_of (entity_at site.now).transitions) }
    requires numbered { IsNumbered site.now.modal }
    ensures ok { IfOk result (λ made. (xs : List Leaving) × AreAdded site.now (entity_at site.now).transitions xs (map mode_view made.0.items) made.1.items) }
    ensures refinements { IfOk result (λ _. AreNamedOnce (entity_at site.now) (kids_at site.now)) }
    ensures told { IfErr result (IsTold (IsFaultOf site.now.modal)) }
{
    let mut modes = modes_of(alloc, &site.modal)?;
    let mut seen = Vec::new(alloc);
    match add_transitions(alloc, site, &mut modes, &mut seen) {
        Ok(()) => Ok((modes, seen)),
        Err(fault) => {
            drop(modes);
            drop(seen);
            Err(fault)
        }
    }
}

/// The machine of a Modal entity whose guards and actions are readable.
pub(crate) fn machine(alloc: Global, site: &Site) -> Result<Written, ModalFault>
    requires readable { All (IsReadable (scope_at site.now)) (texts_of (entity_at site.now).transitions) }
    requires numbered { IsNumbered site.now.modal }
    ensures machine { IfOk result (λ w. IsMachine (typing_at site.now) (scope_at site.now) site.now.number (entity_at site.now) (values_at site.now) (kids_at site.now) site.now.modal.is_parted (machine_of w)) }
    ensures told { IfErr result (IsTold (IsFaultOf site.now.modal)) }
{
    check_children(&site.modal)?;
    let initial = initial_of(&site.modal)?;
    let ports = all_ports(alloc, &site.modal)?;
    let tokens = site.values.variables.as_slice();
    let values = copied_tokens(alloc, tokens)?;
    let made = charted(alloc, site)?;
    let names = names_of(alloc, site, made.1)?;
    Ok(Written {
        names,
        values,
        initial,
        modes: made.0,
        ports,
    })
}
