ghost use Rattle.std.specs.Prelude.{◌≡◌, ◌+◌, ◌++◌, length, IfOk, OnOk, map, replicate};
ghost use Rattle.pt_document.specs.View.{port_view};
ghost use Rattle.pt_net.specs.Net.{entity_view, transparent_view};
ghost use Rattle.pt_inequalities.specs.Passing as spec;
ghost use Rattle.pt_inequalities.specs.Passing.{all_ports, first_composite, first_relation, port_from, relation_from, of_joint, of_joints};
ghost use Rattle.pt_places.specs.Views.{IsAdded, port_lists};

use crate::place::add;
use pt_document::Port;
use pt_net::{Joint, JointPort, Net, NetEntity, Transparent};
use pt_typing::{Inequality, Term, Variable};
use std::alloc::{AllocError, Global};

/// Where the variables of transparent composites begin, behind those of the entities, and where those of relations begin.
#[derive(Clone, Copy, Debug)]
pub(crate) struct Behind {
    composites: usize,
    relations: usize,
}

/// A number that stands this far behind another. One that doesn't fit is told as want of memory.
fn number_from(first: usize, number: u32) -> Result<usize, AllocError>
    ensures { IfOk result (λ n. n ≡ first + number) }
{
    first.checked_add(number as usize).ok_or(AllocError)
}

fn add_entity_ports<'a>(
    lists: &mut Vec<&'a [Port]>,
    entities: &'a [NetEntity],
) -> Result<(), AllocError>
    ensures { OnOk result (port_lists lists.new.items ≡ port_lists lists.old.items ++ map (λ e. e.ports) (map entity_view entities.now)) }
{
    for entity in entities {
        lists.push(entity.ports.as_slice())?;
    }
    Ok(())
}

fn add_composite_ports<'a>(
    lists: &mut Vec<&'a [Port]>,
    composites: &'a [Transparent],
) -> Result<(), AllocError>
    ensures { OnOk result (port_lists lists.new.items ≡ port_lists lists.old.items ++ map (λ c. c.ports) (map transparent_view composites.now)) }
{
    for composite in composites {
        lists.push(composite.ports.as_slice())?;
    }
    Ok(())
}

/// The ports of the entities of a net, and behind them those of its transparent composites.
pub fn all_ports<'a>(alloc: Global, net: &'a Net) -> Result<Vec<&'a [Port]>, AllocError>
    ensures { IfOk result (λ lists. port_lists lists.items ≡ all_ports net.now) }
{
    let mut lists = Vec::with_capacity(alloc, net.entities.len())?;
    add_entity_ports(&mut lists, &net.entities)?;
    add_composite_ports(&mut lists, &net.transparent)?;
    Ok(lists)
}

/// How many ports there are. More than fit 32 bits are told as want of memory.
fn port_count(ports: &[Port]) -> Result<u32, AllocError>
    ensures { IfOk result (λ n. n ≡ length ports.now) }
{
    let count = ports.len();
    if count < u32::MAX as usize {
        Ok(count as u32)
    } else {
        Err(AllocError)
    }
}

fn add_counts(counts: &mut Vec<u32>, lists: &[&[Port]]) -> Result<(), AllocError>
    ensures { OnOk result (counts.new.items ≡ counts.old.items ++ map (λ ps. length ps) (port_lists lists.now)) }
{
    for ports in lists {
        counts.push(port_count(ports)?)?;
    }
    Ok(())
}

fn add_ones(counts: &mut Vec<u32>, count: u32) -> Result<(), AllocError>
    ensures { OnOk result (counts.new.items ≡ counts.old.items ++ replicate count 1) }
{
    for _number in 0..count {
        counts.push(1)?;
    }
    Ok(())
}

/// How many variables there are at each entity with these ports, and behind them one at each relation.
pub fn port_counts(
    alloc: Global,
    lists: &[&[Port]],
    relation_count: u32,
) -> Result<Vec<u32>, AllocError>
    ensures { IfOk result (λ counts. counts.items ≡ map (λ ps. length ps) (port_lists lists.now) ++ replicate relation_count 1) }
{
    let mut counts = Vec::with_capacity(alloc, lists.len())?;
    add_counts(&mut counts, lists)?;
    add_ones(&mut counts, relation_count)?;
    Ok(counts)
}

impl Behind {
    pub(crate) fn of(net: &Net) -> Result<Behind, AllocError>
        ensures composites { IfOk result (λ behind. behind.composites ≡ first_composite net.now) }
        ensures relations { IfOk result (λ behind. behind.relations ≡ first_relation net.now) }
    {
        let composites = net.entities.len();
        let relations = composites
            .checked_add(net.transparent.len())
            .ok_or(AllocError)?;
        Ok(Behind {
            composites,
            relations,
        })
    }

    /// What passes at a port that links join.
    fn port(&self, port: JointPort) -> Result<Variable, AllocError>
        ensures { IfOk result (λ found. found ≡ port_from self.now.composites port) }
    {
        match port {
            JointPort::Entity { entity, port } => {
                Ok(Variable::Port(entity as usize, port as usize))
            }
            JointPort::Transparent { composite, port } => Ok(Variable::Port(
                number_from(self.composites, composite)?,
                port as usize,
            )),
        }
    }

    /// What passes at a relation.
    fn relation(&self, relation: u32) -> Result<Variable, AllocError>
        ensures { IfOk result (λ found. found ≡ relation_from self.now.relations relation) }
    {
        Ok(Variable::Port(number_from(self.relations, relation)?, 0))
    }

    fn add_joint(&self, joint: Joint, inequalities: &mut Vec<Inequality>) -> Result<(), AllocError>
        ensures { OnOk result (IsAdded inequalities.old.items inequalities.new.items (of_joint self.now.composites self.now.relations joint)) }
    {
        match joint {
            Joint::Takes { port, relation } => {
                let relation = self.relation(relation)?;
                add(inequalities, self.port(port)?, Term::Same(relation))
            }
            Joint::Gives { port, relation } => {
                let port = self.port(port)?;
                add(inequalities, self.relation(relation)?, Term::Same(port))
            }
            Joint::Bond { first, second } => {
                let first = self.relation(first)?;
                let second = self.relation(second)?;
                add(inequalities, first, Term::Same(second))?;
                add(inequalities, second, Term::Same(first))
            }
        }
    }

    fn add_joints(
        &self,
        joints: &[Joint],
        inequalities: &mut Vec<Inequality>,
    ) -> Result<(), AllocError>
        ensures { OnOk result (IsAdded inequalities.old.items inequalities.new.items (of_joints self.now.composites self.now.relations joints.now)) }
    {
        for joint in joints {
            self.add_joint(*joint, inequalities)?;
        }
        Ok(())
    }
}

/// What passes between the ports and the relations of a net.
pub fn add_passing(net: &Net, inequalities: &mut Vec<Inequality>) -> Result<(), AllocError>
    ensures { OnOk result (IsAdded inequalities.old.items inequalities.new.items (spec.passing net.now)) }
{
    let behind = Behind::of(net)?;
    behind.add_joints(&net.joints, inequalities)
}
