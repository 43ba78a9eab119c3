ghost use Rattle.std.specs.Prelude.{◌≡◌, ◌≤◌, [], ◌∷◌, ◌++◌, length, map, IfOk, OnOk};
ghost use Rattle.std.specs.List.{list_any};
ghost use Rattle.pt_document.specs.View.{property_view, entity_view, job_view};
ghost use Rattle.pt_document.specs.Document.{parts};
ghost use Rattle.pt_document.specs.Names as names;
ghost use Rattle.pt_net.specs.Standing as standing;
ghost use Rattle.pt_survey.specs.Survey.{placed_view, table_view, round_view};

use pt_document::{Entity, Job, Property, director_named, is_layout};
use pt_value::Text;
use std::alloc::{AllocError, Global};

/// What stands round an entity: the entity that it is a child of, by its number in the document; the innermost one that
/// stays in the net, by its number there; and the transparent composite that it is a child of.
#[derive(Clone, Copy)]
pub struct Round {
    pub outer: Option<usize>,
    pub parent: Option<usize>,
    pub within: Option<usize>,
    pub is_refinement: bool,
}

/// An entity where it stands, with its number in the net: how many that stay there stand before it.
#[derive(Drop)]
pub struct Placed<'a> {
    pub round: Round,
    pub number: usize,
    pub is_directed: bool,
    pub path: Text,
    pub entity: &'a Entity,
}

/// The entities so far, and how many of them stay in the net.
#[derive(Drop)]
struct Entities<'a> {
    table: Vec<Placed<'a>>,
    kept: usize,
}

/// The path of what has this name in the entity of that path.
#[tactic(auto, unfolding(pt_document::specs::Names::below))]
pub fn path_below(alloc: Global, path: &str, name: &str) -> Result<Text, AllocError>
    ensures { IfOk result (λ text. text ≡ names.below path.now name.now) }
{
    if path == "." {
        Text::of(alloc, name)
    } else {
        Text::joined(alloc, path, name)
    }
}

pub fn is_director(property: &Property) -> bool
    ensures { result ≡ standing.is_director (property_view property.now) }
{
    !is_layout(property.name.as_str())
        && property
            .class
            .as_ref()
            .is_some_and(|class| director_named(class.as_str()).is_some())
}

fn has_director(properties: &[Property]) -> bool
    ensures { result ≡ list_any standing.is_director (map property_view properties.now) }
{
    for property in properties {
        if is_director(property) {
            return true;
        }
    }
    false
}

impl<'a> Placed<'a> {
    /// Whether the entity is opaque: any but a Composite without a director.
    pub fn is_opaque(&self) -> bool
        ensures { result ≡ standing.is_opaque (placed_view self.now) }
    {
        self.entity.class.as_str() != "Composite" || self.is_directed
    }

    /// Whether the entity stays in the net.
    pub fn is_kept(&self) -> bool
        ensures { result ≡ standing.is_kept (placed_view self.now) }
    {
        self.round.outer.is_none() || self.entity.class.as_str() != "Composite" || self.is_directed
    }

    /// What stands round the children of the entity, if this is its number in the document.
    fn round_inside(&self, number: usize) -> Round
        requires { self.now.number ≤ number }
        ensures { round_view result ≡ standing.round_in number (placed_view self.now) }
    {
        let is_kept = self.is_kept();
        Round {
            outer: Some(number),
            parent: if is_kept {
                Some(self.number)
            } else {
                self.round.parent
            },
            within: if is_kept {
                None
            } else {
                Some(number - self.number)
            },
            is_refinement: self.entity.class.as_str() == "Modal",
        }
    }
}

impl<'a> Entities<'a> {
    ghost use Rattle.pt_survey.specs.Survey.{IsCounted};

    /// Appends an entity whose number in the net comes next.
    fn push(&mut self, placed: Placed<'a>) -> Result<(), AllocError>
        requires counted { IsCounted self.old }
        ensures counted { OnOk result (IsCounted self.new) }
        ensures table { OnOk result (table_view self.new.table.items ≡ table_view self.old.table.items ++ placed_view placed.entry ∷ []) }
    {
        let is_kept = placed.is_kept();
        self.table.push(placed)?;
        if is_kept {
            self.kept += 1;
        }
        Ok(())
    }

    /// Appends an entity, and gives what stands round its children.
    fn add(&mut self, round: Round, path: Text, entity: &'a Entity) -> Result<Round, AllocError>
        requires { IsCounted self.old }
        ensures counted { OnOk result (IsCounted self.new) }
        ensures table { OnOk result (table_view self.new.table.items ≡ table_view self.old.table.items ++ standing.standing (table_view self.old.table.items) (round_view round) path (entity_view entity.now) ∷ []) }
        ensures round { IfOk result (λ inside. round_view inside ≡ standing.round_in (length (table_view self.old.table.items)) (standing.standing (table_view self.old.table.items) (round_view round) path (entity_view entity.now))) }
    {
        let placed = Placed {
            round,
            number: self.kept,
            is_directed: has_director(&entity.properties),
            path,
            entity,
        };
        let inside = placed.round_inside(self.table.len());
        self.push(placed)?;
        Ok(inside)
    }

    /// Appends an entity and all that are in it.
    fn add_all(
        &mut self,
        alloc: Global,
        round: Round,
        path: Text,
        entity: &'a Entity,
    ) -> Result<(), AllocError>
        requires { IsCounted self.old }
        ensures counted { OnOk result (IsCounted self.new) }
        ensures table { OnOk result (table_view self.new.table.items ≡ standing.with_entity (table_view self.old.table.items) (round_view round) path (entity_view entity.now)) }
    {
        if entity.entities.as_slice().is_empty() {
            self.add(round, path, entity)?;
            return Ok(());
        }
        let kept = path.copy(alloc)?;
        let here = kept.as_str();
        let inside = self.add(round, path, entity)?;
        for child in &entity.entities {
            let path_inside = path_below(alloc, here, child.name.as_str())?;
            self.add_all(alloc, inside, path_inside, child)?;
        }
        Ok(())
    }
}

/// The entities of a job in the order of the document, the top first.
#[tactic(auto, unfolding(pt_net::specs::Standing::entities))]
pub fn survey<'a>(alloc: Global, job: &'a Job) -> Result<Vec<Placed<'a>>, AllocError>
    ensures { IfOk result (λ table. table_view table.items ≡ standing.entities (job_view job.now)) }
{
    let mut entities = Entities {
        table: Vec::new(alloc),
        kept: 0,
    };
    let round = Round {
        outer: None,
        parent: None,
        within: None,
        is_refinement: false,
    };
    entities.add_all(alloc, round, Text::of(alloc, ".")?, &job.model)?;
    Ok(entities.table)
}
