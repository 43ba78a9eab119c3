ghost use Rattle.std.specs.Prelude.{◌≡◌, length, map};

use crate::fault::RunFault;
use crate::outputs::Outputs;
use pt_value::Text;
use std::marker::Model;

/// Where a firing is stuck: the path of the actor, the number of the firing, and why.
#[derive(Debug, Drop)]
pub struct Place {
    pub path: Text,
    pub firing: u64,
    pub kind: RunFault,
}

/// The places of the channels that a process network waits for, each with the number of tokens that stand there.
#[derive(Debug, Drop)]
pub struct Rows {
    rows: Vec<(Text, u64)>,
}

impl Model for Rows {
    ghost use Rattle.std.specs.Prelude.{List, ℕ};

    ghost Value = { List (List ℕ × ℕ) };

    ghost view = { λ r. r.rows.items };
}

impl Rows {
    pub fn of(rows: Vec<(Text, u64)>) -> Rows
        ensures { result ≡ rows.items }
    {
        Rows { rows }
    }

    pub fn as_slice(&self) -> &[(Text, u64)]
        ensures { result.now ≡ self.now }
    {
        self.rows.as_slice()
    }
}

/// A full process network: its path, and the full channels that it waits for, by number.
#[derive(Debug, Drop)]
pub struct Blocked {
    pub path: Text,
    pub channels: Rows,
}

/// What a firing of a node comes to.
#[derive(Drop)]
pub enum Answer {
    Done(Outputs),
    /// That place is stuck.
    Fault(Place),
    /// So many firings were made, at least as many as were allowed.
    Spent(u64),
    Full(Blocked),
    Memory,
}
