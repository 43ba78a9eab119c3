ghost use Rattle.std.specs.Prelude.{◌≡◌, ◌≢◌, ◌<◌, ◌+◌, ℕ, length, IfOk, IfErr, OnOk, Some, None, true, false, slice_get, map, option_map};
ghost use Rattle.std.specs.List.{AllZip};
ghost use Rattle.pt_value.specs.Token.{value_of};
ghost use Rattle.pt_document.specs.View.{input_view};
ghost use Rattle.pt_net.specs.Net as nets;
ghost use Rattle.pt_scopes.specs.Scopes.{NetTree, net_view};
ghost use Rattle.pt_scopes.specs.Order.{IsOrdered};
ghost use Rattle.pt_scopes.specs.Frames.{chain_at};
ghost use Rattle.pt_scopes.specs.Valued.{IsInputValued, IsValued, IsFaultOf};
ghost use Rattle.pt_values.specs.Walk.{IsWalk, IsHeldUp, IsFound, IsFaultFrom, IsTransparentInside, IsTransparentFault};

use crate::entity::entity_values;
use crate::inputs::input_tokens;
use crate::parameters::in_turn;
use pt_document::{DocFault, Input};
use pt_net::{Net, NetEntity, Transparent};
use pt_scopes::{EntityValues, Inside, Scopes, Values};
use pt_value::Token;
use std::alloc::{AllocError, Global};

/// How far a net is gone through: what is seen where, and what the texts so far come to.
#[derive(Drop)]
pub struct Walk {
    pub scopes: Scopes,
    pub entities: Vec<EntityValues>,
    pub transparent: Vec<Vec<Token>>,
}

impl Walk {
    /// Nothing is gone through yet, and there is room for so many entities.
    fn of(alloc: Global, entities: usize) -> Result<Walk, AllocError>
        ensures walk { IfOk result (λ walk. (net : NetTree) → IsWalk net walk) }
        ensures transparent { IfOk result (λ walk. length walk.transparent.items ≡ 0) }
    {
        let entities = Vec::with_capacity(alloc, entities)?;
        Ok(Walk {
            scopes: Scopes::new(alloc),
            entities,
            transparent: Vec::new(alloc),
        })
    }

    /// Goes through an entity, and tells whether it did: not where what stands round it isn't gone through.
    fn enter_entity(&mut self, alloc: Global, entity: &NetEntity) -> Result<bool, DocFault>
        ensures walk { OnOk result ((net : NetTree) → IsWalk net self.old → slice_get net.entities (length self.old.entities.items) ≡ Some (nets.entity_view entity.now) → IsWalk net self.new) }
        ensures more { IfOk result (λ went. went ≡ true → length self.new.entities.items ≡ length self.old.entities.items + 1) }
        ensures held_up { IfOk result (λ went. went ≡ false → (self.new ≡ self.old) × (chain_at self.old.scopes entity.now.within entity.now.parent ≡ None)) }
        ensures transparent { OnOk result (self.new.transparent ≡ self.old.transparent) }
        ensures told { IfErr result (λ fault. (net : NetTree) → IsWalk net self.old → slice_get net.entities (length self.old.entities.items) ≡ Some (nets.entity_view entity.now) → IsFaultOf net fault) }
    {
        match entity_inside(alloc, &self.scopes, entity)? {
            Some((inside, values)) => {
                self.scopes.add_opaque(inside)?;
                self.entities.push(values)?;
                Ok(true)
            }
            None => Ok(false),
        }
    }

    /// Goes through the next entity, and tells whether it did.
    fn enter_next(&mut self, alloc: Global, net: &Net) -> Result<bool, DocFault>
        requires { IsWalk (net_view net.now) self.old }
        ensures walk { OnOk result (IsWalk (net_view net.now) self.new) }
        ensures within { IfOk result (λ went. went ≡ true → length self.old.entities.items < length net.now.entities.items) }
        ensures more { IfOk result (λ went. went ≡ true → length self.new.entities.items ≡ length self.old.entities.items + 1) }
        ensures held_up { IfOk result (λ went. went ≡ false → IsHeldUp (net_view net.now) self.new) }
        ensures transparent { OnOk result (self.new.transparent ≡ self.old.transparent) }
        ensures told { IfErr result (IsFaultOf (net_view net.now)) }
    {
        let number = self.entities.len();
        let entities = net.entities.as_slice();
        match entities.get(number) {
            Some(entity) => self.enter_entity(alloc, entity),
            None => Ok(false),
        }
    }

    /// Goes through entities up to the first one round which something isn't gone through.
    fn enter_entities(&mut self, alloc: Global, net: &Net) -> Result<(), DocFault>
        requires { IsWalk (net_view net.now) self.old }
        ensures walk { OnOk result (IsWalk (net_view net.now) self.new) }
        ensures held_up { OnOk result (IsHeldUp (net_view net.now) self.new) }
        ensures transparent { OnOk result (self.new.transparent ≡ self.old.transparent) }
        ensures told { IfErr result (IsFaultOf (net_view net.now)) }
    {
        'next: while self.enter_next(alloc, net)? {}
        Ok(())
    }

    /// Goes through a transparent composite, where what stands round it is gone through.
    fn enter_transparent(&mut self, alloc: Global, composite: &Transparent) -> Result<(), DocFault>
        requires { chain_at self.old.scopes composite.now.within composite.now.parent ≢ None }
        ensures walk { OnOk result ((net : NetTree) → IsWalk net self.old → slice_get net.transparent (length self.old.transparent.items) ≡ Some (nets.transparent_view composite.now) → IsWalk net self.new) }
        ensures more { OnOk result (length self.new.transparent.items ≡ length self.old.transparent.items + 1) }
        ensures told { IfErr result (λ fault. (net : NetTree) → IsWalk net self.old → slice_get net.transparent (length self.old.transparent.items) ≡ Some (nets.transparent_view composite.now) → IsFaultOf net fault) }
    {
        let (inside, tokens) = transparent_inside(alloc, &self.scopes, composite)?;
        self.scopes.add_transparent(inside)?;
        self.transparent.push(tokens)?;
        Ok(())
    }
}

/// What an entity comes to and what is seen in it, where what stands round it is gone through.
fn entity_inside(
    alloc: Global,
    scopes: &Scopes,
    entity: &NetEntity,
) -> Result<Option<(Inside, EntityValues)>, DocFault>
    ensures ok { IfOk result (λ found. IsFound scopes.now (nets.entity_view entity.now) found) }
    ensures told { IfErr result (IsFaultFrom scopes.now (nets.entity_view entity.now)) }
{
    match scopes.chain(entity.within, entity.parent) {
        Some(chain) => {
            let (own, values) = entity_values(alloc, &scopes.frames, chain, entity)?;
            let chain = scopes.chain_inside(alloc, chain)?;
            Ok(Some((Inside { own, chain }, values)))
        }
        None => Ok(None),
    }
}

/// What the parameters of a transparent composite come to and what is seen in it.
fn transparent_inside(
    alloc: Global,
    scopes: &Scopes,
    composite: &Transparent,
) -> Result<(Inside, Vec<Token>), DocFault>
    requires { chain_at scopes.now composite.now.within composite.now.parent ≢ None }
    ensures ok { IfOk result (λ r. IsTransparentInside scopes.now (nets.transparent_view composite.now) r.0 (map value_of r.1.items)) }
    ensures told { IfErr result (IsTransparentFault scopes.now (nets.transparent_view composite.now)) }
{
    match scopes.chain(composite.within, composite.parent) {
        Some(chain) => {
            let path = composite.path.as_str();
            let parameters = &composite.parameters;
            let (own, tokens) = in_turn(alloc, path, &scopes.frames, chain, parameters)?;
            let chain = scopes.chain_inside(alloc, chain)?;
            Ok((Inside { own, chain }, tokens))
        }
        None => unreachable!(),
    }
}

/// The tokens of inputs.
fn input_values(alloc: Global, inputs: &[Input]) -> Result<Vec<Vec<Option<Token>>>, DocFault>
    ensures ok { IfOk result (λ values. AllZip IsInputValued (map input_view inputs.now) (map (λ ts. map (option_map value_of) ts.items) values.items)) }
    ensures told { IfErr result (λ fault. (net : NetTree) → net.inputs ≡ map input_view inputs.now → IsFaultOf net fault) }
{
    let mut values = Vec::with_capacity(alloc, inputs.len())?;
    for input in inputs {
        values.push(input_tokens(alloc, input)?)?;
    }
    Ok(values)
}

/// What the texts of a net come to.
///
/// # Errors
///
/// Refuses a net for a text or for parameters that are at fault, and tells one such cause at its path; fails with
/// [`DocFault::Memory`] where memory runs out.
pub fn values_of(alloc: Global, net: &Net) -> Result<Values, DocFault>
    requires { IsOrdered (net_view net.now) }
    ensures ok { IfOk result (IsValued (net_view net.now)) }
    ensures err { IfErr result (IsFaultOf (net_view net.now)) }
{
    let mut walk = Walk::of(alloc, net.entities.len())?;
    walk.enter_entities(alloc, net)?;
    for composite in &net.transparent {
        walk.enter_transparent(alloc, composite)?;
        walk.enter_entities(alloc, net)?;
    }
    let inputs = input_values(alloc, &net.inputs)?;
    Ok(Values {
        entities: walk.entities,
        transparent: walk.transparent,
        inputs,
    })
}
