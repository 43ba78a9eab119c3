ghost use Rattle.std.specs.Prelude.{◌≡◌, ℕ, ◌+◌, ◌<◌, ◌≤◌, [], length, take, drop, replicate, slice_set, IfOk, OnOk, OnErr, true, false, Option, Some, if◌then◌else◌};
ghost use Rattle.pt_meaning.specs.Machine as machine;
ghost use Rattle.pt_meaning.specs.Machine.{partial_at};
ghost use Rattle.pt_meaning.specs.Streams.{at};
ghost use Rattle.pt_meaning.specs.Valuation.{is_known, tokens_of};
ghost use Rattle.pt_sr.specs.State.{learnt, unknown_in};
ghost use Rattle.pt_sr.specs.Signals.{count_lowered, signals_of};
ghost use Rattle.pt_firing.specs.TriState.{partial_of};

use pt_firing::{Outputs, Partial, Tokens, TriState};
use std::alloc::{AllocError, Global};
use std::marker::Model;

/// What is known of each channel at a tag.
#[derive(Drop)]
pub(crate) struct Signals {
    // The tokens of each channel, none where it is unknown.
    lists: Vec<Tokens>,
    flags: Vec<bool>,
}

impl Model for Signals {
    ghost use Rattle.std.specs.Prelude.{List};
    ghost use Rattle.std.specs.Coded.{coded_list};
    ghost use Rattle.pt_meaning.specs.Machine as machine;
    ghost use Rattle.pt_value.specs.declared.token.Token.{Token};
    ghost use Rattle.pt_firing.specs.PartialCode.{coded_partial};

    ghost Value = { List (machine.Partial Token) };

    ghost coded = { coded_list coded_partial };

    ghost use Rattle.pt_sr.specs.Signals.{signals_of, AreSignals};

    ghost view = { λ s. signals_of s.flags.items s.lists.items };

    ghost invariant = { λ s. AreSignals s.flags.items s.lists.items };
}

impl Signals {
    /// Nothing is known of so many channels.
    pub(crate) fn unknown(alloc: Global, channels: usize) -> Result<Signals, AllocError>
        ensures { IfOk result (λ signals. signals ≡ replicate channels machine.Unknown) }
    {
        let lists = empty_lists(alloc, channels)?;
        let flags = lowered_flags(alloc, channels)?;
        Ok(Signals { lists, flags })
    }

    pub(crate) fn is_known(&self, c: usize) -> bool
        requires { c < length self.now }
        ensures { result ≡ is_known (partial_at self.now c) }
    {
        self.flags[c]
    }

    /// Learns what the source of a channel gave. `true` says that the channel was unknown until now.
    #[inline(always)]
    pub(crate) fn learn(&mut self, c: usize, given: Option<Tokens>) -> bool
        requires { c < length self.old }
        ensures { self.new ≡ slice_set self.old c (learnt (partial_at self.old c) given) }
    {
        if self.flags[c] {
            return false;
        }
        match given {
            Some(tokens) => {
                self.flags[c] = true;
                self.lists[c] = tokens;
                true
            }
            None => false,
        }
    }

    /// Forgets all that is known.
    pub(crate) fn forget(&mut self)
        ensures { self.new ≡ replicate (length self.old) machine.Unknown }
    {
        lower(&mut self.flags);
        empty(&mut self.lists);
    }

    /// How many of `n` channels from this one on are unknown.
    #[inline(always)]
    pub(crate) fn unknown_in(&self, from: usize, n: usize) -> usize
        requires { from + n ≤ length self.now }
        ensures { result ≡ unknown_in (take n (drop from self.now)) }
    {
        count_lowered(some_flags(&self.flags, from, n))
    }

    /// The tokens of each channel, none where it is unknown.
    #[inline(always)]
    pub(crate) fn tokens(&self) -> &[Tokens]
        ensures { result.now ≡ tokens_of self.now }
    {
        self.lists.as_slice()
    }

    /// What is known of `n` channels from this one on.
    pub(crate) fn partial(
        &self,
        alloc: Global,
        from: usize,
        n: usize,
    ) -> Result<Partial, AllocError>
        requires { from + n ≤ length self.now }
        ensures { IfOk result (λ partial. partial ≡ take n (drop from self.now)) }
    {
        states_of(
            alloc,
            some_flags(&self.flags, from, n),
            some_lists(&self.lists, from, n),
        )
    }

    /// Takes out the tokens of the channels from this one on, and forgets all that is known. After an `Err` the signals are as before.
    pub(crate) fn hand_out(&mut self, alloc: Global, from: usize) -> Result<Outputs, AllocError>
        requires { from ≤ length self.old }
        ensures given { IfOk result (λ outputs. outputs ≡ tokens_of (drop from self.old)) }
        ensures left { OnOk result (self.new ≡ replicate (length self.old) machine.Unknown) }
        ensures kept { OnErr result (self.new ≡ self.old) }
    {
        let outputs = taken_from(alloc, &mut self.lists, from)?;
        lower(&mut self.flags);
        empty(&mut self.lists);
        Ok(outputs)
    }

    pub(crate) fn copy(&self, alloc: Global) -> Result<Signals, AllocError>
        ensures { IfOk result (λ signals. signals ≡ self.now) }
    {
        let lists = copies_of_lists(alloc, &self.lists)?;
        let flags = Vec::from_slice(alloc, &self.flags)?;
        Ok(Signals { lists, flags })
    }
}

/// `n` flags from this one on.
#[inline(always)]
fn some_flags(flags: &[bool], from: usize, n: usize) -> &[bool]
    requires { from + n ≤ length flags.now }
    ensures { result.now ≡ take n (drop from flags.now) }
{
    &flags[from..from + n]
}

/// `n` lists from this one on.
#[inline(always)]
pub(crate) fn some_lists(lists: &[Tokens], from: usize, n: usize) -> &[Tokens]
    requires { from + n ≤ length lists.now }
    ensures { result.now ≡ take n (drop from lists.now) }
{
    &lists[from..from + n]
}

/// How many flags are lowered.
#[inline(always)]
fn count_lowered(flags: &[bool]) -> usize
    ensures { result ≡ count_lowered flags.now }
{
    match flags {
        [flag] => counted(0, *flag),
        _ => count_each_lowered(flags),
    }
}

/// The same of any number of flags.
#[inline(never)]
fn count_each_lowered(flags: &[bool]) -> usize
    ensures { result ≡ count_lowered flags.now }
{
    let mut count = 0usize;
    for flag in flags {
        count = counted(count, *flag);
    }
    count
}

/// One more, where a flag is lowered.
#[inline(always)]
fn counted(count: usize, flag: bool) -> usize
    requires { count < usize.MAX }
    ensures { result ≡ (if flag then count else count + 1) }
{
    if flag { count } else { count + 1 }
}

/// Takes the tokens of the lists from this one on. After an `Err` the lists are as before.
fn taken_from(alloc: Global, lists: &mut Vec<Tokens>, from: usize) -> Result<Outputs, AllocError>
    requires { from ≤ length lists.old.items }
    ensures given { IfOk result (λ outputs. outputs ≡ drop from lists.old.items) }
    ensures counted { length lists.new.items ≡ length lists.old.items }
    ensures kept { OnErr result (lists.new ≡ lists.old) }
{
    let mut outputs = Vec::with_capacity(alloc, lists.len() - from)?;
    for c in from..lists.len() {
        outputs.push_reserved(lists[c].take());
    }
    Ok(Outputs::of(outputs))
}

/// So many lowered flags.
pub(crate) fn lowered_flags(alloc: Global, n: usize) -> Result<Vec<bool>, AllocError>
    ensures { IfOk result (λ flags. flags.items ≡ replicate n false) }
{
    Ok(vec![in alloc; false; n]?)
}

/// Lowers each flag.
pub(crate) fn lower(flags: &mut Vec<bool>)
    ensures { flags.new.items ≡ replicate (length flags.old.items) false }
{
    for i in 0..flags.len() {
        flags[i] = false;
    }
}

/// Takes the tokens of each list away, and keeps the room.
fn empty(lists: &mut Vec<Tokens>)
    ensures { lists.new.items ≡ replicate (length lists.old.items) [] }
{
    for i in 0..lists.len() {
        lists[i].clear();
    }
}

/// So many empty lists.
fn empty_lists(alloc: Global, n: usize) -> Result<Vec<Tokens>, AllocError>
    ensures { IfOk result (λ lists. lists.items ≡ replicate n []) }
{
    let mut lists = Vec::with_capacity(alloc, n)?;
    for _ in 0..n {
        lists.push_reserved(Tokens::new());
    }
    Ok(lists)
}

fn copies_of_lists(alloc: Global, lists: &[Tokens]) -> Result<Vec<Tokens>, AllocError>
    ensures { IfOk result (λ copies. copies.items ≡ lists.now) }
{
    let mut copies = Vec::with_capacity(alloc, lists.len())?;
    for tokens in lists {
        copies.push(tokens.copy(alloc)?)?;
    }
    Ok(copies)
}

/// What flags and lists say.
fn states_of(alloc: Global, flags: &[bool], lists: &[Tokens]) -> Result<Partial, AllocError>
    requires { length flags.now ≡ length lists.now }
    ensures { IfOk result (λ partial. partial ≡ signals_of flags.now lists.now) }
{
    let mut states = Vec::with_capacity(alloc, flags.len())?;
    for c in 0..flags.len() {
        let state = state_of(alloc, flags[c], &lists[c])?;
        states.push(state)?;
    }
    Ok(Partial::of(states))
}

fn state_of(alloc: Global, flag: bool, tokens: &Tokens) -> Result<TriState, AllocError>
    ensures { IfOk result (λ state. partial_of state ≡ (if flag then machine.Known tokens.now else machine.Unknown)) }
{
    if flag {
        return Ok(TriState::known(tokens.copy(alloc)?));
    }
    Ok(TriState::Unknown)
}
