ghost use Rattle.std.specs.Prelude.{◌≡◌, IfOk};
ghost use Rattle.pt_lib_data.specs.Reply.{Tells};
ghost use Rattle.pt_lib_data.specs.Function as function;

use crate::comparator::Relation;
use crate::limiter::Limiter;
use crate::logic_function::Gate;
use crate::places::{one_each, so_many};
use crate::{
    array_element, array_to_sequence, discard, elements_to_array, equals, logical_not,
    record_assembler, record_disassembler, sequence_to_array, string_length,
};
use pt_firing::{Counts, Inputs, Names, Ports, Step, Values};
use std::alloc::{AllocError, Global};

/// The classes of this library.
#[derive(Clone, Copy, Debug, PartialEq, Eq)]
pub enum Class {
    ArrayElement,
    ArrayToSequence,
    Barrier,
    Comparator,
    Discard,
    ElementsToArray,
    Equals,
    Limiter,
    LogicFunction,
    LogicalNot,
    RecordAssembler,
    RecordDisassembler,
    SequenceToArray,
    StringLength,
}

impl Class {
    pub fn of(name: &str) -> Option<Class>
        ensures { result ≡ function.class_of name.now }
    {
        match name {
            "ArrayElement" => Some(Class::ArrayElement),
            "ArrayToSequence" => Some(Class::ArrayToSequence),
            "Barrier" => Some(Class::Barrier),
            "Comparator" => Some(Class::Comparator),
            "Discard" => Some(Class::Discard),
            "ElementsToArray" => Some(Class::ElementsToArray),
            "Equals" => Some(Class::Equals),
            "Limiter" => Some(Class::Limiter),
            "LogicFunction" => Some(Class::LogicFunction),
            "LogicalNot" => Some(Class::LogicalNot),
            "RecordAssembler" => Some(Class::RecordAssembler),
            "RecordDisassembler" => Some(Class::RecordDisassembler),
            "SequenceToArray" => Some(Class::SequenceToArray),
            "StringLength" => Some(Class::StringLength),
            _ => None,
        }
    }
}

/// What an actor makes of its inputs, by its class. None of these keeps anything from one firing to the next.
#[derive(Drop)]
pub enum Function {
    ArrayElement(i64),
    ArrayToSequence(usize),
    Barrier,
    Comparator(Relation),
    Discard,
    ElementsToArray,
    Equals,
    Limiter(Limiter),
    LogicFunction(Gate),
    LogicalNot,
    RecordAssembler(Names),
    RecordDisassembler(Names),
    SequenceToArray(usize),
    StringLength,
}

impl Function {
    /// What the parameters start, if they are such as the class's row has them.
    pub(crate) fn start(
        alloc: Global,
        class: Class,
        values: &Values,
        ports: &Ports,
    ) -> Result<Option<Function>, AllocError>
        ensures { IfOk result (λ f. f ≡ function.start_as class values.now ports.now) }
    {
        Ok(match class {
            Class::ArrayElement => array_element::start(values).map(Function::ArrayElement),
            Class::ArrayToSequence => sequence_to_array::start(values).map(
                Function::ArrayToSequence,
            ),
            Class::Barrier => Some(Function::Barrier),
            Class::Comparator => Relation::start(values).map(Function::Comparator),
            Class::Discard => Some(Function::Discard),
            Class::ElementsToArray => Some(Function::ElementsToArray),
            Class::Equals => Some(Function::Equals),
            Class::Limiter => Limiter::start(values).map(Function::Limiter),
            Class::LogicFunction => Gate::start(values).map(Function::LogicFunction),
            Class::LogicalNot => Some(Function::LogicalNot),
            Class::RecordAssembler => Some(Function::RecordAssembler(ports.names_but(
                alloc, "output",
            )?)),
            Class::RecordDisassembler => Some(Function::RecordDisassembler(ports.names_but(
                alloc, "input",
            )?)),
            Class::SequenceToArray => sequence_to_array::start(values).map(
                Function::SequenceToArray,
            ),
            Class::StringLength => Some(Function::StringLength),
        })
    }

    /// How many tokens each place needs, where so many channels come to the input.
    pub(crate) fn needed(&self, alloc: Global, channels: u32) -> Result<Counts, AllocError>
        ensures { IfOk result (λ counts. counts ≡ function.needed self.now channels) }
    {
        match self {
            Function::Barrier
            | Function::Discard
            | Function::ElementsToArray
            | Function::Equals
            | Function::LogicFunction(_) => one_each(alloc, channels as usize),
            Function::Comparator(_) => one_each(alloc, 2),
            Function::RecordAssembler(names) => one_each(alloc, names.len()),
            Function::SequenceToArray(length) => so_many(alloc, *length),
            Function::ArrayElement(_)
            | Function::ArrayToSequence(_)
            | Function::Limiter(_)
            | Function::LogicalNot
            | Function::RecordDisassembler(_)
            | Function::StringLength => one_each(alloc, 1),
        }
    }

    /// The number of its outputs.
    pub fn outputs(&self) -> usize
        ensures { result ≡ function.outputs self.now }
    {
        match self {
            Function::Discard => 0,
            Function::RecordDisassembler(names) => names.len(),
            Function::ArrayElement(_)
            | Function::ArrayToSequence(_)
            | Function::Barrier
            | Function::Comparator(_)
            | Function::ElementsToArray
            | Function::Equals
            | Function::Limiter(_)
            | Function::LogicFunction(_)
            | Function::LogicalNot
            | Function::RecordAssembler(_)
            | Function::SequenceToArray(_)
            | Function::StringLength => 1,
        }
    }

    /// How many tokens a firing gives on each output.
    pub(crate) fn rates(&self, alloc: Global) -> Result<Counts, AllocError>
        ensures { IfOk result (λ rates. rates ≡ function.rates self.now) }
    {
        match self {
            Function::ArrayToSequence(length) => so_many(alloc, *length),
            Function::Discard => one_each(alloc, 0),
            Function::RecordDisassembler(names) => one_each(alloc, names.len()),
            Function::ArrayElement(_)
            | Function::Barrier
            | Function::Comparator(_)
            | Function::ElementsToArray
            | Function::Equals
            | Function::Limiter(_)
            | Function::LogicFunction(_)
            | Function::LogicalNot
            | Function::RecordAssembler(_)
            | Function::SequenceToArray(_)
            | Function::StringLength => one_each(alloc, 1),
        }
    }

    /// Whether under Rendezvous it takes a token of each channel in one meeting.
    pub(crate) fn is_barrier(&self) -> bool
        ensures { result ≡ function.is_barrier self.now }
    {
        match self {
            Function::Barrier => true,
            Function::ArrayElement(_)
            | Function::ArrayToSequence(_)
            | Function::Comparator(_)
            | Function::Discard
            | Function::ElementsToArray
            | Function::Equals
            | Function::Limiter(_)
            | Function::LogicFunction(_)
            | Function::LogicalNot
            | Function::RecordAssembler(_)
            | Function::RecordDisassembler(_)
            | Function::SequenceToArray(_)
            | Function::StringLength => false,
        }
    }

    /// What it makes of the inputs.
    pub(crate) fn give(&self, alloc: Global, inputs: &Inputs<'_>) -> Step
        ensures { Tells (function.give self.now inputs.now) result }
    {
        match self {
            Function::ArrayElement(index) => array_element::give(alloc, *index, inputs),
            Function::ArrayToSequence(length) => array_to_sequence::give(alloc, *length, inputs),
            Function::Barrier => elements_to_array::give(alloc, inputs),
            Function::Comparator(relation) => relation.give(inputs),
            Function::Discard => discard::give(),
            Function::ElementsToArray => elements_to_array::give(alloc, inputs),
            Function::Equals => equals::give(inputs),
            Function::Limiter(range) => range.give(inputs),
            Function::LogicFunction(gate) => gate.give(inputs),
            Function::LogicalNot => logical_not::give(inputs),
            Function::RecordAssembler(names) => record_assembler::give(alloc, names, inputs),
            Function::RecordDisassembler(names) => record_disassembler::give(alloc, names, inputs),
            Function::SequenceToArray(length) => sequence_to_array::give(alloc, *length, inputs),
            Function::StringLength => string_length::give(inputs),
        }
    }

    pub(crate) fn copy(&self, alloc: Global) -> Result<Function, AllocError>
        ensures { IfOk result (λ f. f ≡ self.now) }
    {
        Ok(match self {
            Function::ArrayElement(index) => Function::ArrayElement(*index),
            Function::ArrayToSequence(length) => Function::ArrayToSequence(*length),
            Function::Barrier => Function::Barrier,
            Function::Comparator(relation) => Function::Comparator(*relation),
            Function::Discard => Function::Discard,
            Function::ElementsToArray => Function::ElementsToArray,
            Function::Equals => Function::Equals,
            Function::Limiter(range) => Function::Limiter(*range),
            Function::LogicFunction(gate) => Function::LogicFunction(*gate),
            Function::LogicalNot => Function::LogicalNot,
            Function::RecordAssembler(names) => Function::RecordAssembler(names.copy(alloc)?),
            Function::RecordDisassembler(names) => Function::RecordDisassembler(names.copy(alloc)?),
            Function::SequenceToArray(length) => Function::SequenceToArray(*length),
            Function::StringLength => Function::StringLength,
        })
    }
}
