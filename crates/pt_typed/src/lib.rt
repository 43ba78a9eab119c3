//! Laws of the types of tokens in a run: a checked model never meets a value of the wrong type. Each is the contract of a public function, which has no code.
#![tactic(auto)]

mod laws;

pub use laws::{
    documents_are_named, expression_rows_are_met, first_tokens_are_typed, inputs_are_typed,
    nets_keep_types, parameters_hold_tokens, plain_rows_are_met, record_rows_are_met,
    rows_keep_types, seeded_rows_are_met, tokens_are_typed, trees_are_typed, typed_runs_keep_types,
    typed_steps_keep_types, typings_go_up,
};
