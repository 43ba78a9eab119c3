//! What the types of tokens are, by definition, and the laws of their order and their joins.
#![tactic(auto)]
