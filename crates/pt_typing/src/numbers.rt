ghost use Rattle.std.specs.Prelude.{◌≡◌, ◌+◌, ◌≤◌, IfOk, suc};
ghost use Rattle.pt_typing.specs.Numbers.{row_in, port_in, number_in, AreNumbers};

use crate::variable::Variable;
use std::alloc::{AllocError, Global};

/// The numbers of variables: for each entity its row, then its ports. What isn't there has the number of all.
#[derive(Drop)]
pub struct Numbers {
    starts: Vec<u32>,
    all: u32,
}

/// The number of the row of the entity behind one with so many ports. It leaves room for one more.
fn behind(start: u32, port_count: u32) -> Result<u32, AllocError>
    ensures { IfOk result (λ n. n ≡ suc (start + port_count)) }
{
    let number = start as u64 + 1 + port_count as u64;
    if number < u32::MAX as u64 {
        Ok(number as u32)
    } else {
        Err(AllocError)
    }
}

impl Numbers {
    /// The numbers of the variables of entities with so many ports. More than fit 32 bits are told as want of memory.
    pub fn of(alloc: Global, port_counts: &[u32]) -> Result<Numbers, AllocError>
        ensures { IfOk result (λ numbers. AreNumbers port_counts.now numbers) }
    {
        let mut starts = Vec::with_capacity(alloc, port_counts.len())?;
        let mut all = 0u32;
        for port_count in port_counts {
            let end = behind(all, *port_count)?;
            starts.push(all)?;
            all = end;
        }
        Ok(Numbers { starts, all })
    }

    /// How many numbers there are, with that of what isn't there.
    pub(crate) fn count(&self) -> Result<u32, AllocError>
        ensures { IfOk result (λ n. n ≡ suc self.now.all) }
    {
        behind(self.all, 0)
    }

    fn row(&self, entity: usize) -> u32
        ensures { result ≡ row_in self.now entity }
    {
        match self.starts.get(entity) {
            Some(start) => *start,
            None => self.all,
        }
    }

    /// The number of the row of the entity behind this one.
    fn end(&self, entity: usize) -> u32
        ensures { result ≡ row_in self.now (suc entity) }
    {
        match entity.checked_add(1) {
            Some(next) => self.row(next),
            None => self.all,
        }
    }

    fn port(&self, entity: usize, port: usize) -> u32
        ensures { result ≡ port_in self.now entity port }
    {
        let number = self.row(entity) as u128 + 1 + port as u128;
        if number < self.end(entity) as u128 {
            number as u32
        } else {
            self.all
        }
    }

    /// The number of a variable.
    pub fn number(&self, variable: Variable) -> u32
        ensures { result ≡ number_in self.now variable }
    {
        match variable {
            Variable::Port(entity, port) => self.port(entity, port),
            Variable::Row(entity) => self.row(entity),
        }
    }
}
