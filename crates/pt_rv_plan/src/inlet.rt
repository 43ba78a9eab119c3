use crate::staged::stage_port;
use pt_puts::{StagedPut, first_put, puts_again};
use pt_value::Token;
use std::alloc::{AllocError, Global};
use std::collections::VecDeque;
use std::marker::Model;

/// An own input of a composite: what it has to put, and what is to come behind that, for which there is room.
#[derive(Drop)]
pub struct Inlet {
    puts: VecDeque<StagedPut>,
    coming: VecDeque<StagedPut>,
}

impl Model for Inlet {
    ghost use Rattle.pt_rv_plan.specs.Ends.{Arriving, coded_arriving};
    ghost use Rattle.pt_rv_plan.specs.Inlet.{seen_inlet, HasComing};

    ghost Value = { Arriving };

    ghost coded = { coded_arriving };

    ghost view = { seen_inlet };

    ghost invariant = { HasComing };
}

impl Inlet {
    ghost use Rattle.std.specs.Prelude.{◌≡◌, ◌<◌, [], ◌++◌, length, slice_get, IfOk, OnOk, OnErr, Some};
    ghost use Rattle.pt_meaning.specs.Process.{puts_of_port, rest_of};
    ghost use Rattle.pt_puts.specs.Puts.{PutsFirst, put_of, puts_in};

    /// An own input that has nothing to put.
    pub fn new(alloc: Global) -> Inlet
        ensures puts { result.puts ≡ [] }
        ensures coming { result.coming ≡ [] }
    {
        Inlet {
            puts: VecDeque::new(alloc),
            coming: VecDeque::new(alloc),
        }
    }

    /// These tokens are to come, each to all of the channels.
    pub fn stage(&mut self, alloc: Global, tokens: &[Token], fan: &[u32]) -> Result<(), AllocError>
        ensures puts { self.new.puts ≡ self.old.puts }
        ensures coming { OnOk result (self.new.coming ≡ puts_of_port fan.now tokens.now) }
        ensures kept { OnErr result (self.new.coming ≡ self.old.coming) }
    {
        let mut coming = VecDeque::new(alloc);
        stage_port(alloc, &mut coming, tokens, fan)?;
        self.puts.reserve(coming.len())?;
        self.coming = coming;
        Ok(())
    }

    /// What is to come has come. It takes no memory.
    pub fn arrive(&mut self)
        ensures puts { self.new.puts ≡ self.old.puts ++ self.old.coming }
        ensures coming { self.new.coming ≡ [] }
    {
        match self.puts.append(&mut self.coming) {
            Ok(()) => {}
            Err(_) => unreachable!(),
        }
    }

    /// What is to come.
    pub fn coming(&self) -> &VecDeque<StagedPut>
        ensures { puts_in result.now.items ≡ self.now.coming }
    {
        &self.coming
    }

    /// The channel of its next put, if it has one.
    pub fn next_put(&self) -> Option<u32>
        ensures { PutsFirst self.now.puts result }
    {
        first_put(&self.puts)
    }

    /// Takes out its next put.
    pub fn put(&mut self) -> StagedPut
        requires { 0 < length self.old.puts }
        ensures put { slice_get self.old.puts 0 ≡ Some (put_of result) }
        ensures left { self.new.puts ≡ rest_of self.old.puts }
        ensures coming { self.new.coming ≡ self.old.coming }
    {
        match self.puts.pop_front() {
            Some(put) => put,
            None => unreachable!(),
        }
    }

    /// Another one with the same to put, to which nothing is to come.
    pub fn copy(&self, alloc: Global) -> Result<Inlet, AllocError>
        ensures puts { IfOk result (λ inlet. inlet.puts ≡ self.now.puts) }
        ensures coming { IfOk result (λ inlet. inlet.coming ≡ []) }
    {
        let puts = puts_again(alloc, &self.puts)?;
        Ok(Inlet {
            puts,
            coming: VecDeque::new(alloc),
        })
    }
}
