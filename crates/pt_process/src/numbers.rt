// Firings of processes that take and give integers alone, of which no lists of tokens are made.
ghost use Rattle.std.specs.Prelude.{◌≡◌, ◌∷◌, [], ◌++◌, IfSome, IsTrue, OnOk, OnErr};
ghost use Rattle.pt_firing.specs.IntInputs.{one_at_each};
ghost use Rattle.pt_meaning.specs.Process.{to_each};
ghost use Rattle.pt_value.specs.declared.token.Token.TheVariants.{Int};
ghost use Rattle.pt_puts.specs.Puts.{puts_in};

use crate::process::Process;
use pt_firing::{IntInputs, Need, Tokens};
use pt_puts::StagedPut;
use pt_value::Token;
use std::alloc::{AllocError, Global};
use std::collections::VecDeque;
use std::slice;

impl Process {
    ghost use Rattle.std.specs.Prelude.{◌≡◌, [], length, true, IfSome, OnOk, OnErr};
    ghost use Rattle.pt_meaning.specs.Process.{to_each};
    ghost use Rattle.pt_firing.specs.Need.{need_of};
    ghost use Rattle.pt_value.specs.declared.token.Token.TheVariants.{Int};
    ghost use Rattle.pt_pn_laws.specs.Lawful.{HasPlaces};
    ghost use Rattle.pt_process.specs.Process.{once_fired};

    /// What it has gathered, where that is one integer at each place. `row` is a buffer. `None` says nothing of it.
    #[inline(always)]
    pub fn int_inputs<'a>(&'a self, row: &'a mut Vec<i64>) -> Option<IntInputs<'a>>
        requires { self.now.handed ≡ true }
        ensures { IfSome result (λ inputs. inputs ≡ self.now.got) }
    {
        int_inputs_of(&self.row, row)
    }

    /// Once it has fired it has this integer to put on each of these channels, and this need. After an `Err` it is as before.
    #[inline(always)]
    pub fn told_number(
        &mut self,
        alloc: Global,
        need: Need<'_>,
        number: i64,
        fan: &[u32],
    ) -> Result<(), AllocError>
        requires handed { self.old.handed ≡ true }
        requires none { self.old.puts ≡ [] }
        requires places { HasPlaces (length self.old.got) (need_of need) }
        ensures told { OnOk result (self.new ≡ once_fired (need_of need.entry) (to_each (Int number) fan.now) self.old) }
        ensures kept { OnErr result (self.new ≡ self.old) }
    {
        put_on_each(&mut self.puts, number, fan)?;
        match self.renew(alloc, need) {
            Ok(()) => Ok(()),
            Err(fault) => {
                self.puts.clear();
                Err(fault)
            }
        }
    }
}

/// Puts an integer on each of these channels, where there was no put before. After an `Err` there is none.
#[inline(always)]
fn put_on_each(puts: &mut VecDeque<StagedPut>, number: i64, fan: &[u32]) -> Result<(), AllocError>
    requires { puts_in puts.old.items ≡ [] }
    ensures put { OnOk result (puts_in puts.new.items ≡ to_each (Int number) fan.now) }
    ensures none { OnErr result (puts_in puts.new.items ≡ []) }
{
    for channel in fan {
        match put_on(puts, number, *channel) {
            Ok(()) => {}
            Err(fault) => {
                puts.clear();
                return Err(fault);
            }
        }
    }
    Ok(())
}

/// Puts an integer on a channel.
#[inline(always)]
fn put_on(puts: &mut VecDeque<StagedPut>, number: i64, channel: u32) -> Result<(), AllocError>
    ensures { OnOk result (puts_in puts.new.items ≡ puts_in puts.old.items ++ to_each (Int number) (channel ∷ [])) }
{
    let token = Token::Int(number);
    match puts.push_back(StagedPut { channel, token }) {
        Ok(()) => Ok(()),
        Err(_) => Err(AllocError),
    }
}

/// What is in these lists, where each has one integer. `row` is a buffer for several.
#[inline(always)]
fn int_inputs_of<'a>(lists: &'a [Tokens], row: &'a mut Vec<i64>) -> Option<IntInputs<'a>>
    ensures { IfSome result (λ inputs. inputs ≡ lists.now) }
{
    match lists {
        [] => Some(IntInputs::one_at_each(&[])),
        [tokens] => alone(tokens),
        _ => several(lists, row),
    }
}

/// The same of several lists.
fn several<'a>(lists: &[Tokens], row: &'a mut Vec<i64>) -> Option<IntInputs<'a>>
    ensures { IfSome result (λ inputs. inputs ≡ lists.now) }
{
    if first_numbers(lists, row) {
        return Some(IntInputs::one_at_each(row));
    }
    None
}

/// The same of the only list.
#[inline(always)]
fn alone(tokens: &Tokens) -> Option<IntInputs<'_>>
    ensures { IfSome result (λ inputs. inputs ≡ tokens.now ∷ []) }
{
    match tokens.as_slice() {
        [Token::Int(number)] => Some(IntInputs::all_at_one(slice::from_ref(number))),
        _ => None,
    }
}

/// Puts the one integer of each list into the buffer, if each has one, and memory suffices.
#[inline(never)]
fn first_numbers(lists: &[Tokens], row: &mut Vec<i64>) -> bool
    ensures { IsTrue result → one_at_each row.new.items ≡ lists.now }
{
    row.clear();
    for k in 0..lists.len() {
        let Some(number) = number_of(&lists[k]) else {
            return false;
        };
        if row.push(number).is_err() {
            return false;
        }
    }
    true
}

/// The one integer of a list.
fn number_of(tokens: &Tokens) -> Option<i64>
    ensures { IfSome result (λ number. tokens.now ≡ Int number ∷ []) }
{
    match tokens.as_slice() {
        [Token::Int(number)] => Some(*number),
        _ => None,
    }
}
