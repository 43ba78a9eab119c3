ghost use Rattle.std.specs.Prelude.{◌≡◌, ◌<◌, [], ◌∷◌, not, length, get_or, slice_get, false, true, IfOk, OnOk, OnErr, Some};
ghost use Rattle.pt_meaning.specs.Streams.{change_at};
ghost use Rattle.pt_meaning.specs.Process.{at_rest};
ghost use Rattle.pt_firing.specs.Need.{need_of};
ghost use Rattle.pt_rv_laws.specs.Lawful.{HasPlaces};
ghost use Rattle.pt_puts.specs.Puts.{put_of, puts_in};
ghost use Rattle.pt_rv_work.specs.Core.{nobody, next_of, with_token, with_put_made, with_handed, once_fired};
ghost use Rattle.pt_rv_parts.specs.Process.{DoesNext, MayTake};
ghost use Rattle.pt_rv_parts.specs.Team.{NoneHanded, fires_in};

use crate::flags::Flags;
use crate::process::{Event, Process};
use pt_firing::{Inputs, IntInputs, Need};
use pt_puts::StagedPut;
use pt_value::Token;
use std::alloc::{AllocError, Global};
use std::collections::VecDeque;
use std::marker::Model;

/// The processes of a composite, and which of them may fire.
#[derive(Drop)]
pub struct Team {
    processes: Vec<Process>,
    firing: Flags,
}

impl Model for Team {
    ghost use Rattle.std.specs.Prelude.{◌≡◌, List};
    ghost use Rattle.std.specs.Coded.{coded_list};
    ghost use Rattle.pt_value.specs.declared.token.Token.{Token};
    ghost use Rattle.pt_rv_work.specs.Core.{Standing};
    ghost use Rattle.pt_rv_parts.specs.Codes.{coded_standing};
    ghost use Rattle.pt_rv_parts.specs.Team.{fires_in};

    ghost Value = { List (Standing Token) };

    ghost coded = { coded_list coded_standing };

    ghost view = { λ t. t.processes.items };

    ghost invariant = { λ t. t.firing ≡ fires_in t.processes.items };
}

impl Team {
    ghost use Rattle.std.specs.Prelude.{◌≡◌, ℕ, ◌<◌, [], ◌∷◌, length, get_or, slice_get, false, true, IfOk, IfSome, IsNone, OnOk, OnErr, Some};
    ghost use Rattle.pt_meaning.specs.Streams.{change_at};
    ghost use Rattle.pt_meaning.specs.Process.{Fires};
    ghost use Rattle.pt_firing.specs.Need.{need_of};
    ghost use Rattle.pt_rv_laws.specs.Lawful.{HasPlaces};
    ghost use Rattle.pt_puts.specs.Puts.{PutsFirst, put_of, puts_in};
    ghost use Rattle.pt_rv_work.specs.Core.{nobody, next_of, with_token, with_put_made, with_handed, once_fired};
    ghost use Rattle.pt_rv_parts.specs.Process.{DoesNext, MayTake};
    ghost use Rattle.pt_rv_parts.specs.Team.{AllAtRest, NoneHanded};

    /// A team of these processes.
    pub fn of(alloc: Global, mut processes: Vec<Process>) -> Result<Team, AllocError>
        requires { NoneHanded processes.items }
        ensures { IfOk result (λ team. team ≡ processes.items) }
    {
        let firing = flags_of(alloc, &mut processes)?;
        Ok(Team { processes, firing })
    }

    /// How many processes there are.
    pub fn len(&self) -> usize
        ensures { result ≡ length self.now }
    {
        self.processes.len()
    }

    /// A process that may fire, if one may. It is found in constant time.
    #[inline(always)]
    pub fn any_firing(&self) -> Option<usize>
        ensures there { IfSome result (λ process. process < length self.now) }
        ensures fires { IfSome result (λ process. next_of (get_or self.now process nobody) ≡ Fires) }
        ensures rests { IsNone result → AllAtRest self.now }
    {
        self.firing.any()
    }

    /// What a process does next.
    #[inline(always)]
    pub fn next(&mut self, process: usize) -> Event
        requires there { process < length self.old }
        requires gathers { (get_or self.old process nobody).handed ≡ false }
        ensures same { self.new ≡ self.old }
        ensures next { DoesNext (get_or self.old process nobody) result }
    {
        next_at(&mut self.processes, process)
    }

    /// The channel of the next put of a process, if it has one.
    #[inline(always)]
    pub fn next_put(&self, process: usize) -> Option<u32>
        requires { process < length self.now }
        ensures { PutsFirst (get_or self.now process nobody).puts result }
    {
        self.processes[process].next_put()
    }

    /// A process takes a token at a place. It takes no memory.
    #[inline(always)]
    pub fn get(&mut self, process: usize, place: usize, token: Token)
        requires there { process < length self.old }
        requires may { MayTake (get_or self.old process nobody) place }
        ensures { self.new ≡ change_at process (with_token place token) self.old }
    {
        get_at(&mut self.processes, process, place, token);
        let fires = is_firing(&mut self.processes, process);
        self.firing.mark(process, fires);
    }

    /// Takes out the next put of a process.
    #[inline(always)]
    pub fn put(&mut self, process: usize) -> StagedPut
        requires there { process < length self.old }
        requires gathers { (get_or self.old process nobody).handed ≡ false }
        requires some { 0 < length (get_or self.old process nobody).puts }
        ensures put { slice_get (get_or self.old process nobody).puts 0 ≡ Some (put_of result) }
        ensures left { self.new ≡ change_at process with_put_made self.old }
    {
        let put = put_at(&mut self.processes, process);
        let fires = is_firing(&mut self.processes, process);
        self.firing.mark(process, fires);
        put
    }

    /// A process hands over what it has gathered. It takes no memory.
    #[inline(always)]
    pub fn hand(&mut self, process: usize)
        requires there { process < length self.old }
        requires gathers { (get_or self.old process nobody).handed ≡ false }
        ensures { self.new ≡ change_at process with_handed self.old }
    {
        hand_at(&mut self.processes, process);
    }

    /// What a process has gathered.
    pub fn lent(&self, process: usize) -> Inputs<'_>
        requires there { process < length self.now }
        requires handed { (get_or self.now process nobody).handed ≡ true }
        ensures { result ≡ (get_or self.now process nobody).got }
    {
        self.processes[process].lent()
    }

    /// The same, where it is one integer at each place. `row` is a buffer. `None` says nothing of it.
    #[inline(always)]
    pub fn int_inputs<'a>(&'a self, process: usize, row: &'a mut Vec<i64>) -> Option<IntInputs<'a>>
        requires there { process < length self.now }
        requires handed { (get_or self.now process nobody).handed ≡ true }
        ensures { IfSome result (λ inputs. inputs ≡ (get_or self.now process nobody).got) }
    {
        self.processes[process].int_inputs(row)
    }

    /// A process has fired, and has these puts to make, and this need. After an `Err` all are as before.
    #[inline(always)]
    pub fn told(
        &mut self,
        alloc: Global,
        process: usize,
        need: Need<'_>,
        puts: &mut VecDeque<StagedPut>,
    ) -> Result<(), AllocError>
        requires there { process < length self.old }
        requires handed { (get_or self.old process nobody).handed ≡ true }
        requires places { HasPlaces (length (get_or self.old process nobody).got) (need_of need) }
        ensures told { OnOk result (self.new ≡ change_at process (once_fired (need_of need.entry) (puts_in puts.old.items)) self.old) }
        ensures kept { OnErr result (self.new ≡ self.old) }
    {
        tell_at(alloc, &mut self.processes, process, need, puts)?;
        let fires = is_firing(&mut self.processes, process);
        self.firing.mark(process, fires);
        Ok(())
    }

    /// A process has fired, and has no put to make, and this need. After an `Err` all are as before.
    #[inline(always)]
    pub fn told_none(
        &mut self,
        alloc: Global,
        process: usize,
        need: Need<'_>,
    ) -> Result<(), AllocError>
        requires there { process < length self.old }
        requires handed { (get_or self.old process nobody).handed ≡ true }
        requires none { (get_or self.old process nobody).puts ≡ [] }
        requires places { HasPlaces (length (get_or self.old process nobody).got) (need_of need) }
        ensures told { OnOk result (self.new ≡ change_at process (once_fired (need_of need.entry) []) self.old) }
        ensures kept { OnErr result (self.new ≡ self.old) }
    {
        tell_none_at(alloc, &mut self.processes, process, need)?;
        let fires = is_firing(&mut self.processes, process);
        self.firing.mark(process, fires);
        Ok(())
    }

    /// A process has fired, and has this one put to make, and this need. After an `Err` all are as before.
    #[inline(always)]
    pub fn told_one(
        &mut self,
        alloc: Global,
        process: usize,
        need: Need<'_>,
        put: StagedPut,
    ) -> Result<(), AllocError>
        requires there { process < length self.old }
        requires handed { (get_or self.old process nobody).handed ≡ true }
        requires none { (get_or self.old process nobody).puts ≡ [] }
        requires places { HasPlaces (length (get_or self.old process nobody).got) (need_of need) }
        ensures told { OnOk result (self.new ≡ change_at process (once_fired (need_of need.entry) (put_of put ∷ [])) self.old) }
        ensures kept { OnErr result (self.new ≡ self.old) }
    {
        tell_one_at(alloc, &mut self.processes, process, need, put)?;
        // It has a put to make, so it doesn't fire next.
        self.firing.mark(process, false);
        Ok(())
    }

    /// The same processes again.
    pub fn copy(&self, alloc: Global) -> Result<Team, AllocError>
        ensures { IfOk result (λ team. team ≡ self.now) }
    {
        let processes = copies(alloc, &self.processes)?;
        let firing = self.firing.copy(alloc)?;
        Ok(Team { processes, firing })
    }
}

/// Which of these processes may fire.
fn flags_of(alloc: Global, processes: &mut Vec<Process>) -> Result<Flags, AllocError>
    requires { NoneHanded processes.old.items }
    ensures same { processes.new.items ≡ processes.old.items }
    ensures flags { IfOk result (λ flags. flags ≡ fires_in processes.old.items) }
{
    let mut flags = Flags::new(alloc, processes.len())?;
    for process in 0..processes.len() {
        let fires = is_firing(processes, process);
        flags.mark(process, fires);
    }
    Ok(flags)
}

/// What a process does next.
#[inline(always)]
fn next_at(processes: &mut Vec<Process>, process: usize) -> Event
    requires there { process < length processes.old.items }
    requires gathers { (get_or processes.old.items process nobody).handed ≡ false }
    ensures same { processes.new.items ≡ processes.old.items }
    ensures next { DoesNext (get_or processes.old.items process nobody) result }
{
    processes[process].next()
}

/// Whether a process may fire.
#[inline(always)]
fn is_firing(processes: &mut Vec<Process>, process: usize) -> bool
    requires there { process < length processes.old.items }
    requires gathers { (get_or processes.old.items process nobody).handed ≡ false }
    ensures same { processes.new.items ≡ processes.old.items }
    ensures rests { at_rest (next_of (get_or processes.old.items process nobody)) ≡ not result }
{
    processes[process].is_firing()
}

/// A process takes a token at a place.
#[inline(always)]
fn get_at(processes: &mut Vec<Process>, process: usize, place: usize, token: Token)
    requires there { process < length processes.old.items }
    requires may { MayTake (get_or processes.old.items process nobody) place }
    ensures { processes.new.items ≡ change_at process (with_token place token) processes.old.items }
{
    processes[process].get(place, token);
}

/// Takes out the next put of a process.
#[inline(always)]
fn put_at(processes: &mut Vec<Process>, process: usize) -> StagedPut
    requires there { process < length processes.old.items }
    requires some { 0 < length (get_or processes.old.items process nobody).puts }
    ensures put { slice_get (get_or processes.old.items process nobody).puts 0 ≡ Some (put_of result) }
    ensures left { processes.new.items ≡ change_at process with_put_made processes.old.items }
{
    processes[process].put()
}

/// A process hands over what it has gathered.
#[inline(always)]
fn hand_at(processes: &mut Vec<Process>, process: usize)
    requires there { process < length processes.old.items }
    requires gathers { (get_or processes.old.items process nobody).handed ≡ false }
    ensures { processes.new.items ≡ change_at process with_handed processes.old.items }
{
    processes[process].hand();
}

/// A process has fired. After an `Err` all are as before.
fn tell_at(
    alloc: Global,
    processes: &mut Vec<Process>,
    process: usize,
    need: Need<'_>,
    puts: &mut VecDeque<StagedPut>,
) -> Result<(), AllocError>
    requires there { process < length processes.old.items }
    requires handed { (get_or processes.old.items process nobody).handed ≡ true }
    requires places { HasPlaces (length (get_or processes.old.items process nobody).got) (need_of need) }
    ensures told { OnOk result (processes.new.items ≡ change_at process (once_fired (need_of need.entry) (puts_in puts.old.items)) processes.old.items) }
    ensures kept { OnErr result (processes.new.items ≡ processes.old.items) }
{
    processes[process].told(alloc, need, puts)
}

/// A process has fired, and has no put to make. After an `Err` all are as before.
#[inline(always)]
fn tell_none_at(
    alloc: Global,
    processes: &mut Vec<Process>,
    process: usize,
    need: Need<'_>,
) -> Result<(), AllocError>
    requires there { process < length processes.old.items }
    requires handed { (get_or processes.old.items process nobody).handed ≡ true }
    requires none { (get_or processes.old.items process nobody).puts ≡ [] }
    requires places { HasPlaces (length (get_or processes.old.items process nobody).got) (need_of need) }
    ensures told { OnOk result (processes.new.items ≡ change_at process (once_fired (need_of need.entry) []) processes.old.items) }
    ensures kept { OnErr result (processes.new.items ≡ processes.old.items) }
{
    processes[process].told_none(alloc, need)
}

/// A process has fired, and has one put to make. After an `Err` all are as before.
#[inline(always)]
fn tell_one_at(
    alloc: Global,
    processes: &mut Vec<Process>,
    process: usize,
    need: Need<'_>,
    put: StagedPut,
) -> Result<(), AllocError>
    requires there { process < length processes.old.items }
    requires handed { (get_or processes.old.items process nobody).handed ≡ true }
    requires none { (get_or processes.old.items process nobody).puts ≡ [] }
    requires places { HasPlaces (length (get_or processes.old.items process nobody).got) (need_of need) }
    ensures told { OnOk result (processes.new.items ≡ change_at process (once_fired (need_of need.entry) (put_of put ∷ [])) processes.old.items) }
    ensures kept { OnErr result (processes.new.items ≡ processes.old.items) }
{
    processes[process].told_one(alloc, need, put)
}

/// The same processes again.
fn copies(alloc: Global, processes: &[Process]) -> Result<Vec<Process>, AllocError>
    ensures { IfOk result (λ copies. copies.items ≡ processes.now) }
{
    let mut copies = Vec::with_capacity(alloc, processes.len())?;
    for process in processes {
        let copy = process.copy(alloc)?;
        copies.push(copy)?;
    }
    Ok(copies)
}
