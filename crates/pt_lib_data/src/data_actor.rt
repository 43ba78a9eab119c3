ghost use Rattle.std.specs.Prelude.{◌≡◌, Some, IsSome, IfOk};
ghost use Rattle.pt_lib_data.specs.DataActor as data_actor;
ghost use Rattle.pt_lib_data.specs.DataActor.{start, started_as};

use crate::function::{Class, Function};
use pt_firing::{Actor, Counts, Fires, Inputs, Need, Partial, Ports, Step, Values, strict_early};
use pt_time::Tag;
use pt_value::Token;
use std::alloc::{AllocError, Global};

/// An actor of this library: what it makes of its inputs, and how many tokens each place needs.
#[derive(Drop)]
pub struct DataActor {
    function: Function,
    needed: Counts,
}

impl DataActor {
    /// The actor of a class that these parameters start, where so many channels come to each port, if the class is one of this
    /// library and they are such as its row has them. Of the parameters one that is taken as it is written is a text.
    pub fn started(
        alloc: Global,
        class: &str,
        values: &Values,
        ports: &Ports,
    ) -> Result<Option<DataActor>, AllocError>
        ensures { IfOk result (λ actor. actor ≡ start class.now values.now ports.now) }
    {
        match Class::of(class) {
            Some(class) => DataActor::started_as(alloc, class, values, ports),
            None => Ok(None),
        }
    }

    fn started_as(
        alloc: Global,
        class: Class,
        values: &Values,
        ports: &Ports,
    ) -> Result<Option<DataActor>, AllocError>
        ensures { IfOk result (λ actor. actor ≡ started_as class values.now ports.now) }
    {
        let Some(function) = Function::start(alloc, class, values, ports)? else {
            return Ok(None);
        };
        let needed = function.needed(alloc, ports.channels("input"))?;
        Ok(Some(DataActor { function, needed }))
    }

    /// The number of its outputs.
    pub fn outputs(&self) -> usize
        ensures { result ≡ data_actor.outputs self.now }
    {
        self.function.outputs()
    }

    /// How many tokens a firing gives on each output, where each input has the tokens that it needs, of the types of its row.
    pub fn rates(&self, alloc: Global) -> Result<Counts, AllocError>
        ensures { IfOk result (λ rates. rates ≡ data_actor.rates self.now) }
    {
        self.function.rates(alloc)
    }

    /// Whether it needs the same at each firing. Each of these actors does.
    pub fn is_steady(&self) -> bool
        ensures { result ≡ data_actor.is_steady self.now }
    {
        true
    }

    /// Whether under Rendezvous it takes a token of each channel in one meeting.
    pub fn is_barrier(&self) -> bool
        ensures { result ≡ data_actor.is_barrier self.now }
    {
        self.function.is_barrier()
    }

    /// Whether it begins by itself: it has no input places.
    pub fn begins(&self) -> bool
        ensures { result ≡ data_actor.rows.begins self.now }
    {
        self.needed.as_slice().is_empty()
    }

    /// Whether under DE it takes its lists whole. None of these actors does.
    pub fn whole(&self) -> bool
        ensures { result ≡ data_actor.rows.whole self.now }
    {
        false
    }
}

impl Fires for DataActor {
    ghost use Rattle.pt_lib_data.specs.DataActor as data_actor;

    ghost step = { data_actor.step };

    ghost Takes = { λ tag actor X. Unit {0} };

    ghost IsSpare = { λ actor. ⊥ };

    fn step(&mut self, alloc: Global, _tag: Tag, inputs: &Inputs<'_>) -> Step {
        self.function.give(alloc, inputs)
    }

    fn copy(&self, alloc: Global) -> Result<DataActor, AllocError> {
        Ok(DataActor {
            function: self.function.copy(alloc)?,
            needed: self.needed.copy(alloc)?,
        })
    }
}

impl Actor for DataActor {
    ghost use Rattle.std.specs.Prelude.{[], None};
    ghost use Rattle.pt_lib_data.specs.DataActor as data_actor;

    ghost first = { λ actor. [] };

    ghost need = { data_actor.need };

    ghost next = { λ actor. None };

    ghost early = { data_actor.early };

    fn first(&self) -> &[Token] {
        &[]
    }

    fn need(&self) -> Need<'_> {
        Need::All(&self.needed)
    }

    fn early(&self, alloc: Global, tag: Tag, partial: &Partial) -> Result<Partial, AllocError> {
        strict_early(self, self.outputs(), alloc, tag, partial)
    }

    fn next(&self) -> Option<Tag> {
        None
    }
}
