ghost use Rattle.std.specs.Prelude.{◌≡◌, ℕ, ◌+◌, ◌*◌, ◌<◌, ◌≤◌, false, IfOk, OnOk, IfSome, IfNone, IsTrue, IsFalse, map, length, All, List, if◌then◌else◌};
ghost use Rattle.pt_datatypes.specs.Datatype.{Datatype, Unknown};
ghost use Rattle.pt_datatypes.specs.Join as joins;
ghost use Rattle.pt_datatypes.specs.Order.{IsBelow, is_below};
ghost use Rattle.pt_datatypes.specs.Rank.{room};
ghost use Rattle.pt_datatypes.specs.Rules.{AllBelow, AreMet, IsReached, IsLeastSolution, IsRaised};
ghost use Rattle.pt_types.specs.Ty.{type_of, written};

use crate::due::Due;
use crate::readers::Readers;
use crate::ty::{Ty, below, join};
use std::alloc::{AllocError, Global};

/// A rule on the types of numbered things: what it makes of them is below the type of its target.
pub trait Rule {
    ghost target_of: { Self → ℕ };

    ghost value_of: { Self → List Datatype → Datatype };

    /// The number whose type the rule bounds from below.
    fn target(&self) -> u32
        ensures { result ≡ target_of self.now };

    /// What the rule makes of the types of all numbers.
    fn value(&self, alloc: Global, types: &[Ty]) -> Result<Ty, AllocError>
        ensures { IfOk result (λ t. type_of t ≡ value_of self.now (map type_of types.now)) };

    /// Whether what the rule makes of the types of all numbers is below a type, where that is seen without making it.
    fn is_met(&self, types: &[Ty], ty: &Ty) -> bool
        ensures { IsTrue result → IsBelow (value_of self.now (map type_of types.now)) (type_of ty.now) };

    /// The numbers whose types the value depends on. A list that lacks some costs time, and changes no answer.
    fn reads(&self) -> &[u32];

    /// Greater types give no smaller value.
    ghost grows: { (rule : Self) (xs ys : List Datatype) → AllBelow xs ys → IsBelow (value_of rule xs) (value_of rule ys) };
}

/// The least types of the numbers below `n` that meet all rules.
pub fn least<R: Rule>(alloc: Global, n: u32, rules: &[R]) -> Result<Vec<Ty>, AllocError>
    requires { All (λ rule. R.target_of rule < n) rules.now }
    ensures { IfOk result (λ types. IsLeastSolution R.target_of R.value_of n rules.now (map type_of types.items)) }
{
    let mut types = first_round(alloc, n, rules)?;
    let mut changed = Vec::new(alloc);
    loop {
        if !raise_all(alloc, rules, &mut types, &mut changed)? {
            return Ok(types);
        }
        spread(alloc, n, rules, &mut types, &mut changed)?;
    }
}

/// The types behind one round over all rules. Most often the next round raises none, and who reads which number isn't asked.
fn first_round<R: Rule>(alloc: Global, n: u32, rules: &[R]) -> Result<Vec<Ty>, AllocError>
    requires { All (λ rule. R.target_of rule < n) rules.now }
    ensures counted { IfOk result (λ types. length types.items ≡ n) }
    ensures reached { IfOk result (λ types. IsReached R.target_of R.value_of rules.now (map type_of types.items)) }
{
    let mut types = unknowns(alloc, n)?;
    let mut changed = Vec::new(alloc);
    let _raised = raise_all(alloc, rules, &mut types, &mut changed)?;
    Ok(types)
}

/// For each number the rules that read it.
fn readers_of<R: Rule>(alloc: Global, n: u32, rules: &[R]) -> Result<Readers, AllocError> {
    let mut readers = Readers::none(alloc, n as usize)?;
    for rule in rules {
        readers.count(rule.reads());
    }
    readers.make_room(alloc)?;
    for (index, rule) in rules.iter().enumerate() {
        readers.put(rule.reads(), index);
    }
    Ok(readers)
}

fn unknowns(alloc: Global, n: u32) -> Result<Vec<Ty>, AllocError>
    ensures counted { IfOk result (λ types. length types.items ≡ n) }
    ensures unknown { IfOk result (λ types. All (λ t. type_of t ≡ Unknown) types.items) }
{
    let mut types = Vec::with_capacity(alloc, n as usize)?;
    for _ in 0..n {
        types.push(Ty::Unknown)?;
    }
    Ok(types)
}

/// Raises the type of the rule's target to what the rule asks for, and notes the number where that changes it.
fn raise<R: Rule>(
    alloc: Global,
    rule: &R,
    types: &mut Vec<Ty>,
    changed: &mut Vec<u32>,
) -> Result<bool, AllocError>
    requires { R.target_of rule.now < length types.old.items }
    ensures raised { IfOk result
        (λ raised. IsRaised (R.target_of rule.now) (R.value_of rule.now (map type_of types.old.items)) (map type_of types.old.items) (map type_of types.new.items) raised) }
    ensures counted { OnOk result (length types.new.items ≡ length types.old.items) }
    ensures noted { IfOk result
        (λ raised. length changed.new.items ≡ length changed.old.items + (if raised then 1 else 0)) }
{
    let target = rule.target();
    if rule.is_met(types, &types[target as usize]) {
        return Ok(false);
    }
    let value = rule.value(alloc, types)?;
    let Some(joined) = raised(alloc, &types[target as usize], value)? else {
        return Ok(false);
    };
    types[target as usize] = joined;
    changed.push(target)?;
    Ok(true)
}

/// The join of a type and a value, where the value isn't below the type.
fn raised(alloc: Global, ty: &Ty, value: Ty) -> Result<Option<Ty>, AllocError>
    ensures some { IfOk result (λ raised. IfSome raised (λ joined. (is_below (type_of value) (type_of ty.now) ≡ false) × (written joined ≡ joins.join (type_of ty.now) (type_of value)))) }
    ensures none { IfOk result (λ raised. IfNone raised (IsBelow (type_of value) (type_of ty.now))) }
{
    if below(&value, ty) {
        return Ok(None);
    }
    join(alloc, ty, &value).map(Some)
}

/// One round over all rules: whether some type was raised.
fn raise_all<R: Rule>(
    alloc: Global,
    rules: &[R],
    types: &mut Vec<Ty>,
    changed: &mut Vec<u32>,
) -> Result<bool, AllocError>
    requires targets { All (λ rule. R.target_of rule < length types.old.items) rules.now }
    requires reached { IsReached R.target_of R.value_of rules.now (map type_of types.old.items) }
    ensures counted { OnOk result (length types.new.items ≡ length types.old.items) }
    ensures reached { OnOk result (IsReached R.target_of R.value_of rules.now (map type_of types.new.items)) }
    ensures met { IfOk result (λ raised. IsFalse raised → AreMet R.target_of R.value_of rules.now (map type_of types.new.items)) }
    ensures room { IfOk result (λ raised. IsTrue raised → room (map type_of types.new.items) < room (map type_of types.old.items)) }
{
    let mut any = false;
    for rule in rules {
        let raised = raise(alloc, rule, types, changed)?;
        any = any | raised;
    }
    Ok(any)
}

/// The rules that read a changed number, and those that read what they change, until no change is left.
///
/// It goes by waves, and a rule has its turn once in each, however many of the numbers that it reads have changed.
fn spread<R: Rule>(
    alloc: Global,
    n: u32,
    rules: &[R],
    types: &mut Vec<Ty>,
    changed: &mut Vec<u32>,
) -> Result<(), AllocError>
    requires targets { All (λ rule. R.target_of rule < length types.old.items) rules.now }
    requires reached { IsReached R.target_of R.value_of rules.now (map type_of types.old.items) }
    ensures counted { OnOk result (length types.new.items ≡ length types.old.items) }
    ensures reached { OnOk result (IsReached R.target_of R.value_of rules.now (map type_of types.new.items)) }
    ensures room { OnOk result (room (map type_of types.new.items) ≤ room (map type_of types.old.items)) }
{
    let readers = readers_of(alloc, n, rules)?;
    let mut due = Due::new(alloc, rules.len())?;
    while !changed.is_empty() {
        due.gather(&readers, changed)?;
        raise_some(alloc, rules, due.indexes(), types, changed)?;
    }
    Ok(())
}

/// The rules of some indexes, one after the other.
fn raise_some<R: Rule>(
    alloc: Global,
    rules: &[R],
    indexes: &[usize],
    types: &mut Vec<Ty>,
    changed: &mut Vec<u32>,
) -> Result<(), AllocError>
    requires targets { All (λ rule. R.target_of rule < length types.old.items) rules.now }
    requires reached { IsReached R.target_of R.value_of rules.now (map type_of types.old.items) }
    ensures counted { OnOk result (length types.new.items ≡ length types.old.items) }
    ensures reached { OnOk result (IsReached R.target_of R.value_of rules.now (map type_of types.new.items)) }
    ensures room { OnOk result (room (map type_of types.new.items) ≤ room (map type_of types.old.items)) }
    ensures work { OnOk result
        (2 * room (map type_of types.new.items) + length changed.new.items ≤ 2 * room (map type_of types.old.items) + length changed.old.items) }
{
    for index in indexes {
        raise_at(alloc, rules, *index, types, changed)?;
    }
    Ok(())
}

/// The rule of an index.
fn raise_at<R: Rule>(
    alloc: Global,
    rules: &[R],
    index: usize,
    types: &mut Vec<Ty>,
    changed: &mut Vec<u32>,
) -> Result<(), AllocError>
    requires targets { All (λ rule. R.target_of rule < length types.old.items) rules.now }
    requires reached { IsReached R.target_of R.value_of rules.now (map type_of types.old.items) }
    ensures counted { OnOk result (length types.new.items ≡ length types.old.items) }
    ensures reached { OnOk result (IsReached R.target_of R.value_of rules.now (map type_of types.new.items)) }
    ensures room { OnOk result (room (map type_of types.new.items) ≤ room (map type_of types.old.items)) }
    ensures work { OnOk result
        (2 * room (map type_of types.new.items) + length changed.new.items ≤ 2 * room (map type_of types.old.items) + length changed.old.items) }
{
    let Some(rule) = rules.get(index) else {
        return Ok(());
    };
    let _raised = raise(alloc, rule, types, changed)?;
    Ok(())
}
