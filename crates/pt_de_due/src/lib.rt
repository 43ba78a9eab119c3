//! Which children of a core of DE are due, by definition, and what its calls change of it: laws for the code of such a core.
#![tactic(auto)]

mod laws;

pub use laws::{
    calls_are_steps, firsts_come_next, inputs_leave, outputs_are_put, shapes_stay,
    targets_make_due, tokens_come, tokens_make_due, turns_are_counted, turns_change_due,
    wakes_make_due,
};
