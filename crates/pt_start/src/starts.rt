ghost use Rattle.std.specs.Prelude.{◌≡◌, ◌++◌, false, MatchOption, IfOk, OnOk, map, option_map};
ghost use Rattle.std.specs.List.{filter_map};
ghost use Rattle.pt_language.specs.Expr.{tree_of};
ghost use Rattle.pt_document.specs.View.{properties_view};
ghost use Rattle.pt_types.specs.Ty.{type_of};
ghost use Rattle.pt_scopes.specs.Scopes.{Bindings, net_view};
ghost use Rattle.pt_start.specs.Nested.{AreRound};
ghost use Rattle.pt_start.specs.Started as started;
ghost use Rattle.pt_start.specs.Started.{PortTyping, ArePortTypes, IsActor, IsStart, seen_token, seen_tokens};
ghost use Rattle.pt_start.specs.Seen.{IsPrepared, IsReady, IsTreeless, SeesIn, SeesNothing, IsOutward, IsFound, IsMade, round_of};

use crate::counts::{Counts, counts_of};
use crate::frames::{opaque_names, transparent_names};
use crate::given::{add_token, given_tree, own_tokens};
use crate::ports::{counted_ports, typed_ports};
use crate::round::Round;
use pt_flow_base::{Params, PortTypes};
use pt_language::Expr;
use pt_lib_flow::{Ports, Values as Tokens};
use pt_library::LibraryActor;
use pt_net::{Net, NetEntity};
use pt_scopes::{EntityValues, Names, Values, names_of};
use pt_types::Ty;
use pt_value::{Text, Token};
use std::alloc::{AllocError, Global};

/// What library actors of a net are started from, prepared for all of them: how many channels end at each port, and the
/// parameters of each composite by name.
#[derive(Drop)]
pub struct Starts<'a> {
    net: &'a Net,
    values: &'a Values,
    opaque: Vec<Names>,
    transparent: Vec<Names>,
    counts: Vec<Counts>,
}

impl<'a> Starts<'a> {
    /// Prepares a net with its values.
    pub fn of(alloc: Global, net: &'a Net, values: &'a Values) -> Result<Starts<'a>, AllocError>
        ensures { IfOk result (λ starts. (starts.net ≡ net.entry) × (starts.values ≡ values.entry) × IsPrepared starts) }
    {
        let opaque = opaque_names(alloc, &net.entities, &values.entities)?;
        let transparent = transparent_names(alloc, &net.transparent, &values.transparent)?;
        let counts = counts_of(alloc, &net.entities, &net.channels)?;
        Ok(Starts {
            net,
            values,
            opaque,
            transparent,
            counts,
        })
    }

    /// The way out by a transparent composite.
    fn out_of_transparent(&self, here: Round, composite: u32) -> Option<(&Names, Round)>
        requires ready { IsReady self.now }
        requires round { AreRound (net_view self.now.net.now) here.within here.parent }
        requires innermost { here.within ≡ Some composite }
        ensures { MatchOption result (SeesNothing (net_view self.now.net.now) here) (λ r. IsOutward (net_view self.now.net.now) here r.0.now r.1) }
    {
        match self.net.transparent.get(composite as usize) {
            Some(found) => match self.transparent.get(composite as usize) {
                Some(names) => Some((names, Round::of_transparent(found))),
                None => None,
            },
            None => None,
        }
    }

    /// The way out by an opaque composite.
    fn out_of_opaque(&self, here: Round, composite: u32) -> Option<(&Names, Round)>
        requires ready { IsReady self.now }
        requires round { AreRound (net_view self.now.net.now) here.within here.parent }
        requires innermost { (here.within ≡ None) × (here.parent ≡ Some composite) }
        ensures { MatchOption result (SeesNothing (net_view self.now.net.now) here) (λ r. IsOutward (net_view self.now.net.now) here r.0.now r.1) }
    {
        match self.net.entities.get(composite as usize) {
            Some(found) => match self.opaque.get(composite as usize) {
                Some(names) => Some((names, Round::of_entity(found))),
                None => None,
            },
            None => None,
        }
    }

    /// The way out by the innermost composite.
    fn out(&self, here: Round) -> Option<(&Names, Round)>
        requires ready { IsReady self.now }
        requires round { AreRound (net_view self.now.net.now) here.within here.parent }
        ensures { MatchOption result (SeesNothing (net_view self.now.net.now) here) (λ r. IsOutward (net_view self.now.net.now) here r.0.now r.1) }
    {
        match here.within {
            Some(composite) => self.out_of_transparent(here, composite),
            None => match here.parent {
                Some(composite) => self.out_of_opaque(here, composite),
                None => None,
            },
        }
    }

    /// The token of the nearest parameter of a name.
    fn find(&self, here: Round, name: &str) -> Option<&Token>
        requires ready { IsReady self.now }
        requires round { AreRound (net_view self.now.net.now) here.within here.parent }
        ensures { IsFound (net_view self.now.net.now) here name.now (option_map (λ t. t.now) result) }
    {
        let mut round = here;
        'outward: while let Some((names, out)) = self.out(round) {
            if let Some(token) = names.get(name) {
                return Some(token);
            }
            round = out;
        }
        None
    }

    /// Adds what the names of a tree stand for.
    fn add_seen(
        &self,
        alloc: Global,
        here: Round,
        names: &[Text],
        tokens: &mut Vec<(Text, Token)>,
    ) -> Result<(), AllocError>
        requires ready { IsReady self.now }
        requires round { AreRound (net_view self.now.net.now) here.within here.parent }
        ensures { OnOk result ((seen : Bindings) → SeesIn (net_view self.now.net.now) here seen → tokens.new.items ≡ tokens.old.items ++ filter_map (seen_token seen) names.now) }
    {
        for name in names {
            add_token(alloc, name, self.find(here, name.as_str()), tokens)?;
        }
        Ok(())
    }

    /// The values of an actor: its own parameters, and those that its tree names.
    fn tokens(
        &self,
        alloc: Global,
        entity: &NetEntity,
        held: &EntityValues,
        tree: Option<&Expr>,
    ) -> Result<Tokens, AllocError>
        requires ready { IsReady self.now }
        requires round { AreRound (net_view self.now.net.now) entity.now.within entity.now.parent }
        ensures { IfOk result (λ tokens. (seen : Bindings) → SeesIn (net_view self.now.net.now) (round_of entity.now) seen → tokens ≡ started.own_tokens (properties_view entity.now.parameters.items) held.now.parameters.items ++ seen_tokens seen (option_map (λ e. tree_of e.now) tree.entry)) }
    {
        let mut tokens = own_tokens(alloc, &entity.parameters, &held.parameters)?;
        if let Some(tree) = tree {
            let names = names_of(alloc, tree)?;
            self.add_seen(alloc, Round::of_entity(entity), &names, &mut tokens)?;
        }
        Ok(Tokens::of(tokens))
    }

    /// What an actor is started from.
    fn params(
        &self,
        alloc: Global,
        entity: &NetEntity,
        held: &EntityValues,
        counts: &Counts,
        types: &[Ty],
    ) -> Result<Params, AllocError>
        requires ready { IsReady self.now }
        requires round { AreRound (net_view self.now.net.now) entity.now.within entity.now.parent }
        ensures { IfOk result (λ params. IsMade (net_view self.now.net.now) entity.now held.now counts.now (map type_of types.now) params) }
    {
        let tree = given_tree(&held.parameters);
        let values = self.tokens(alloc, entity, held, tree)?;
        let tree = match tree {
            Some(tree) => Some(tree.copy(alloc)?),
            None => None,
        };
        Ok(Params {
            class: entity.class.copy(alloc)?,
            values,
            ports: Ports::of(counted_ports(alloc, &entity.ports, counts.as_slice())?),
            types: PortTypes::of(typed_ports(alloc, &entity.ports, types)?),
            tree,
        })
    }

    /// Whether an actor is started from a tree, so that the types of its ports matter.
    pub fn has_tree(&self, number: usize) -> bool
        requires ready { IsReady self.now }
        requires actor { IsActor self.now.net.now number }
        ensures { result ≡ false → IsTreeless self.now number }
    {
        given_tree(&self.values.entities[number].parameters).is_some()
    }

    /// The actor of the entity of this number, which is started from no tree, at its start; none where no library has a start of that.
    pub fn treeless_actor(
        &self,
        alloc: Global,
        number: usize,
    ) -> Result<Option<LibraryActor>, AllocError>
        requires ready { IsReady self.now }
        requires actor { IsActor self.now.net.now number }
        requires treeless { IsTreeless self.now number }
        ensures { IfOk result (λ actor. (typing : PortTyping) → IsStart self.now.net.now self.now.values.now typing number actor) }
    {
        let entity = &self.net.entities[number];
        let params = self.params(
            alloc,
            entity,
            &self.values.entities[number],
            &self.counts[number],
            &[],
        )?;
        LibraryActor::started(alloc, &params)
    }

    /// The actor of the entity of this number, whose ports have these types, at its start; none where no library has a start of
    /// that.
    pub fn actor(
        &self,
        alloc: Global,
        number: usize,
        types: &[Ty],
    ) -> Result<Option<LibraryActor>, AllocError>
        requires ready { IsReady self.now }
        requires actor { IsActor self.now.net.now number }
        ensures { IfOk result (λ actor. (typing : PortTyping) → ArePortTypes self.now.net.now typing number (map type_of types.now) → IsStart self.now.net.now self.now.values.now typing number actor) }
    {
        let entity = &self.net.entities[number];
        let params = self.params(
            alloc,
            entity,
            &self.values.entities[number],
            &self.counts[number],
            types,
        )?;
        LibraryActor::started(alloc, &params)
    }
}
