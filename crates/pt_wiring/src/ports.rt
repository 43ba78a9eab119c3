ghost use Rattle.std.specs.Prelude.{◌≡◌, ℕ, ◌<◌, ◌+◌, ◌^◌, ◌++◌, ◌∷◌, [], List, length, IfOk};
ghost use Rattle.pt_document.specs.declared.job.Port.{Port};
ghost use Rattle.pt_wiring.specs.Ports.{ArePortNumbers, Count};

use crate::numbers::Numbers;
use pt_document::{Direction, Port};
use std::alloc::{AllocError, Global};

/// How many inputs and outputs came so far.
#[derive(Clone, Copy, Debug)]
struct PortCounts {
    inputs: usize,
    outputs: usize,
}

impl PortCounts {
    /// Counts a port, and gives its number among those of its direction.
    fn next(&mut self, direction: Direction) -> usize
        requires inputs { self.old.inputs < 2 ^ 63 }
        requires outputs { self.old.outputs < 2 ^ 63 }
        ensures { (ports : List Port) (port : Port) (numbers : List ℕ) → port.direction ≡ direction → Count ports self.old → ArePortNumbers ports numbers
            → Count (ports ++ port ∷ []) self.new × ArePortNumbers (ports ++ port ∷ []) (numbers ++ result ∷ []) }
    {
        match direction {
            Direction::Input => {
                let number = self.inputs;
                self.inputs = number + 1;
                number
            }
            Direction::Output => {
                let number = self.outputs;
                self.outputs = number + 1;
                number
            }
        }
    }
}

/// The number of each port among those of its direction.
pub fn port_numbers(alloc: Global, ports: &[Port]) -> Result<Numbers, AllocError>
    ensures { IfOk result (λ numbers. ArePortNumbers ports.now numbers) }
{
    let mut numbers = Numbers::new(alloc);
    let mut counts = PortCounts {
        inputs: 0,
        outputs: 0,
    };
    for port in ports {
        numbers.push(counts.next(port.direction))?;
    }
    Ok(numbers)
}
