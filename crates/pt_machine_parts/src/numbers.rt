ghost use Rattle.std.specs.Prelude.{◌≡◌, IfOk, IfErr, OnOk, List, ℕ, Some, None};
ghost use Rattle.pt_machine.specs.Numbers.{with_number};
ghost use Rattle.pt_machine_parts.specs.Texts.{texts};
ghost use Rattle.pt_machine_parts.specs.Told.{IsTold};
ghost use Rattle.pt_machine_parts.specs.Numbered.{numbers_view, AreNumbersOf};

use crate::fault::ModalFault;
use indexmap::IndexMap;
use pt_machine::Cause;
use std::alloc::{AllocError, Global};
use std::hash::{BuildHasherDefault, DefaultHasher};

/// Names with their numbers. Names of one hash are hard to find for its hasher.
pub struct Numbers {
    numbers: IndexMap<String, u32, BuildHasherDefault<DefaultHasher>>,
}

// By hand, so that letting go of one is one call in the proofs above.
impl Drop for Numbers {
    fn drop(self) {
        let Numbers { numbers: _ } = self;
    }
}

impl Numbers {
    fn new(alloc: Global) -> Numbers
        ensures { (name : List ℕ) → numbers_view result name ≡ None }
    {
        Numbers {
            numbers: IndexMap::with_hasher(alloc, BuildHasherDefault::new()),
        }
    }

    /// Adds a name, in place of one that is the same.
    fn put(&mut self, alloc: Global, name: &str, number: u32) -> Result<(), AllocError>
        ensures { OnOk result ((other : List ℕ) → numbers_view self.new other ≡ with_number name.now number (numbers_view self.old) other) }
    {
        let key = String::from_str(alloc, name)?;
        self.numbers.insert(key, number)?;
        Ok(())
    }

    /// These names, each with its place among them.
    pub fn of(alloc: Global, names: &[&str]) -> Result<Numbers, AllocError>
        ensures { IfOk result (AreNumbersOf (texts names.now)) }
    {
        let mut numbers = Numbers::new(alloc);
        for (number, name) in names.iter().enumerate() {
            let number = short_number(number)?;
            numbers.put(alloc, name, number)?;
        }
        Ok(numbers)
    }

    /// The number of a name, if it has one.
    pub fn get(&self, name: &str) -> Option<u32>
        ensures { result ≡ numbers_view self.now name.now }
    {
        self.numbers.get(name).copied()
    }

    /// The number of a name. An entity that names one without a number is refused for this cause.
    pub fn number(&self, name: &str, why: Cause) -> Result<u32, ModalFault>
        ensures ok { IfOk result (λ number. numbers_view self.now name.now ≡ Some number) }
        ensures told { IfErr result (IsTold (λ cause. (cause ≡ why) × (numbers_view self.now name.now ≡ None))) }
    {
        match self.get(name) {
            Some(number) => Ok(number),
            None => Err(ModalFault::Refused(why)),
        }
    }
}

/// A number in 32 bits. One that doesn't fit is told as want of memory.
pub fn short_number(number: usize) -> Result<u32, AllocError>
    ensures { IfOk result (λ short. short ≡ number) }
{
    u32::try_from(number).map_err(|_| AllocError)
}
