ghost use Rattle.std.specs.Prelude.{◌≡◌, ◌-◌, ◌<◌, ◌≤◌, ◌++◌, [], ◌∷◌, length, get_or, set, take, replicate, false, vec_capacity, IfOk};

use std::alloc::{AllocError, Global};
use std::marker::Model;

/// Flags by number. One that is set is found in constant time, and so is each changed.
///
/// The numbers of those that are set stand in a list, and each knows its place there (Briggs and Torczon 1993, "An Efficient Representation for Sparse Sets").
#[derive(Drop)]
pub(crate) struct Flags {
    flags: Vec<bool>,
    /// The numbers of those that are set, in any order.
    numbers: Vec<usize>,
    /// Where the number of each that is set stands there.
    places: Vec<usize>,
}

impl Model for Flags {
    ghost use Rattle.std.specs.Prelude.{List, Bool};
    ghost use Rattle.std.specs.Coded.{coded_bool, coded_list};
    ghost use Rattle.pt_rv_parts.specs.Flags.{IsSound};

    ghost Value = { List Bool };

    ghost coded = { coded_list coded_bool };

    ghost view = { λ f. f.flags.items };

    ghost invariant = { IsSound };
}

impl Flags {
    ghost use Rattle.std.specs.Prelude.{◌≡◌, ℕ, ◌<◌, length, get_or, set, replicate, false, true, IfOk, IfSome, IsNone};

    /// So many flags, none of which is set.
    pub(crate) fn new(alloc: Global, count: usize) -> Result<Flags, AllocError>
        ensures { IfOk result (λ flags. flags ≡ replicate count false) }
    {
        let flags = unset(alloc, count)?;
        let places = zeros(alloc, count)?;
        let numbers = Vec::with_capacity(alloc, count)?;
        Ok(Flags {
            flags,
            numbers,
            places,
        })
    }

    /// The number of one that is set, if there is one.
    #[inline(always)]
    pub(crate) fn any(&self) -> Option<usize>
        ensures there { IfSome result (λ number. number < length self.now) }
        ensures set { IfSome result (λ number. get_or self.now number false ≡ true) }
        ensures none { IsNone result → (i : ℕ) → get_or self.now i false ≡ false }
    {
        let count = self.numbers.len();
        if count == 0 {
            return None;
        }
        Some(self.numbers[count - 1])
    }

    /// Sets a flag, or takes it back. It takes no memory.
    #[inline(always)]
    pub(crate) fn mark(&mut self, number: usize, flag: bool)
        requires { number < length self.old }
        ensures { self.new ≡ set self.old number flag }
    {
        if flag {
            self.set(number);
        } else {
            self.clear(number);
        }
    }

    #[inline(always)]
    fn set(&mut self, number: usize)
        requires { number < length self.old }
        ensures { self.new ≡ set self.old number true }
    {
        let before = self.flags[number];
        if before {
            return;
        }
        self.flags[number] = true;
        enter(&mut self.numbers, &mut self.places, number);
    }

    #[inline(always)]
    fn clear(&mut self, number: usize)
        requires { number < length self.old }
        ensures { self.new ≡ set self.old number false }
    {
        let before = self.flags[number];
        if before {
            self.flags[number] = false;
            leave(&mut self.numbers, &mut self.places, number);
        }
    }

    /// The same flags again.
    pub(crate) fn copy(&self, alloc: Global) -> Result<Flags, AllocError>
        ensures { IfOk result (λ flags. flags ≡ self.now) }
    {
        let numbers = numbers_again(alloc, &self.numbers, self.flags.len())?;
        Ok(Flags {
            flags: Vec::from_slice(alloc, &self.flags)?,
            numbers,
            places: Vec::from_slice(alloc, &self.places)?,
        })
    }
}

/// So many flags, none of which is set.
fn unset(alloc: Global, count: usize) -> Result<Vec<bool>, AllocError>
    ensures { IfOk result (λ flags. flags.items ≡ replicate count false) }
{
    vec![in alloc; false; count]
}

fn zeros(alloc: Global, count: usize) -> Result<Vec<usize>, AllocError>
    ensures { IfOk result (λ places. length places.items ≡ count) }
{
    vec![in alloc; 0usize; count]
}

/// A number comes into the list, behind the others.
#[inline(always)]
fn enter(numbers: &mut Vec<usize>, places: &mut Vec<usize>, number: usize)
    requires there { number < length places.old.items }
    requires room { length numbers.old.items < vec_capacity numbers.old }
    ensures numbers { numbers.new.items ≡ numbers.old.items ++ number ∷ [] }
    ensures places { places.new.items ≡ set places.old.items number (length numbers.old.items) }
    ensures capacity { vec_capacity numbers.new ≡ vec_capacity numbers.old }
{
    places[number] = numbers.len();
    numbers.push_reserved(number);
}

/// A number leaves the list, and the last one comes into its place.
#[inline(always)]
fn leave(numbers: &mut Vec<usize>, places: &mut Vec<usize>, number: usize)
    requires there { number < length places.old.items }
    requires listed { get_or places.old.items number 0 < length numbers.old.items }
    requires last { get_or numbers.old.items (length numbers.old.items - 1) 0 < length places.old.items }
    ensures numbers { numbers.new.items ≡ take (length numbers.old.items - 1) (set numbers.old.items (get_or places.old.items number 0) (get_or numbers.old.items (length numbers.old.items - 1) 0)) }
    ensures places { places.new.items ≡ set places.old.items (get_or numbers.old.items (length numbers.old.items - 1) 0) (get_or places.old.items number 0) }
    ensures capacity { vec_capacity numbers.new ≡ vec_capacity numbers.old }
{
    let rest = numbers.len() - 1;
    let place = places[number];
    let last = numbers[rest];
    numbers[place] = last;
    places[last] = place;
    numbers.truncate(rest);
}

/// The same numbers again, with room for so many.
fn numbers_again(alloc: Global, numbers: &[usize], room: usize) -> Result<Vec<usize>, AllocError>
    requires { length numbers.now ≤ room }
    ensures items { IfOk result (λ copies. copies.items ≡ numbers.now) }
    ensures room { IfOk result (λ copies. room ≤ vec_capacity copies) }
{
    let mut copies = Vec::with_capacity(alloc, room)?;
    for number in numbers {
        copies.push_reserved(*number);
    }
    Ok(copies)
}
