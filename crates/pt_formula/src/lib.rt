//! What a tree with names in scope is, by definition: the names and types of its inputs, the parameters that it sees, and how names are bound one after another. No code.
#![tactic(auto)]
