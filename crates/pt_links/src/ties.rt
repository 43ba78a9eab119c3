ghost use Rattle.std.specs.Prelude.{◌≡◌, ◌<◌, ◌++◌, [], ◌∷◌, length, slice_index_or, slice_set, replicate, All, IfOk, OnOk};
ghost use Rattle.pt_links.specs.Ties.{IsPortWithin, AreTied, outside_with, inside_with};

use crate::row::Row;
use pt_net::Wire;
use std::alloc::{AllocError, Global};

/// The relations to which each port is linked from outside and from inside, in the order of the links.
#[derive(Drop)]
pub struct Ties {
    pub outside: Vec<Row>,
    pub inside: Vec<Row>,
}

fn empty_rows(alloc: Global, count: usize) -> Result<Vec<Row>, AllocError>
    ensures { IfOk result (λ table. table.items ≡ replicate count []) }
{
    let mut table = Vec::with_capacity(alloc, count)?;
    for _number in 0..count {
        table.push(Row::new())?;
    }
    Ok(table)
}

fn append(
    alloc: Global,
    table: &mut Vec<Row>,
    port: usize,
    relation: usize,
) -> Result<(), AllocError>
    requires { port < length table.old.items }
    ensures { OnOk result (table.new.items ≡ slice_set table.old.items port (slice_index_or table.old.items port [] ++ relation ∷ [])) }
{
    table[port].push(alloc, relation)?;
    Ok(())
}

impl Ties {
    fn add(&mut self, alloc: Global, wire: Wire) -> Result<(), AllocError>
        requires outside { IsPortWithin (length self.old.outside.items) wire }
        requires inside { IsPortWithin (length self.old.inside.items) wire }
        ensures outside { OnOk result (self.new.outside.items ≡ outside_with self.old.outside.items wire) }
        ensures inside { OnOk result (self.new.inside.items ≡ inside_with self.old.inside.items wire) }
    {
        match wire {
            Wire::Outside { port, relation } => append(alloc, &mut self.outside, port, relation),
            Wire::Inside { port, relation } => append(alloc, &mut self.inside, port, relation),
            Wire::Bond { .. } => Ok(()),
        }
    }

    /// The relations at each of `count` ports.
    pub fn of(alloc: Global, count: usize, wires: &[Wire]) -> Result<Ties, AllocError>
        requires { All (IsPortWithin count) wires.now }
        ensures { IfOk result (λ ties. AreTied count wires.now ties.outside.items ties.inside.items) }
    {
        let mut ties = Ties {
            outside: empty_rows(alloc, count)?,
            inside: empty_rows(alloc, count)?,
        };
        for wire in wires {
            ties.add(alloc, *wire)?;
        }
        Ok(ties)
    }
}
