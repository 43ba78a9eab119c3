ghost use Rattle.std.specs.Prelude.{◌≡◌, length, IfOk, IfErr};
ghost use Rattle.pt_document.specs.declared.refusal.DocFault.TheVariants.{Memory};
ghost use Rattle.pt_net.specs.declared.net.Joint.TheVariants as joint;
ghost use Rattle.pt_net.specs.declared.net.JointPort.TheVariants as kinds;
ghost use Rattle.pt_survey.specs.Survey.{tables_view, ports_view, port_at};
ghost use Rattle.pt_links.specs.Ties.{IsPortWithin};
ghost use Rattle.pt_net.specs.Joints as spec;
ghost use Rattle.pt_net.specs.Joints.{IsJointOf};
ghost use Rattle.pt_net.specs.Net.{AreJoints};
ghost use Rattle.pt_links.specs.Wiring.{IsWiring};

use crate::wiring::Wiring;
use pt_document::DocFault;
use pt_net::{Joint, JointPort, Wire};
use pt_survey::{PlacedPort, number};
use std::alloc::Global;

fn entity_port(entity: usize, port: usize) -> Result<JointPort, DocFault>
    ensures ok { IfOk result (λ found. found ≡ kinds.Entity entity port) }
    ensures err { IfErr result (λ e. e ≡ Memory) }
{
    Ok(JointPort::Entity {
        entity: number(entity)?,
        port: number(port)?,
    })
}

fn transparent_port(composite: usize, port: usize) -> Result<JointPort, DocFault>
    ensures ok { IfOk result (λ found. found ≡ kinds.Transparent composite port) }
    ensures err { IfErr result (λ e. e ≡ Memory) }
{
    Ok(JointPort::Transparent {
        composite: number(composite)?,
        port: number(port)?,
    })
}

fn joint_port(port: &PlacedPort) -> Result<JointPort, DocFault>
    ensures ok { IfOk result (λ found. found ≡ spec.joint_port (port_at port.now)) }
    ensures err { IfErr result (λ e. e ≡ Memory) }
{
    if port.is_kept() {
        entity_port(port.placed.number, port.number)
    } else {
        transparent_port(port.entity.saturating_sub(port.placed.number), port.number)
    }
}

/// What a port takes from a relation, or gives to it.
fn joint_at(takes: bool, port: &PlacedPort, relation: usize) -> Result<Joint, DocFault>
    ensures ok { IfOk result (λ found. found ≡ spec.joint_at takes (port_at port.now) relation) }
    ensures err { IfErr result (λ e. e ≡ Memory) }
{
    let port = joint_port(port)?;
    let relation = number(relation)?;
    if takes {
        Ok(Joint::Takes { port, relation })
    } else {
        Ok(Joint::Gives { port, relation })
    }
}

fn bond(first: usize, second: usize) -> Result<Joint, DocFault>
    ensures ok { IfOk result (λ found. found ≡ joint.Bond first second) }
    ensures err { IfErr result (λ e. e ≡ Memory) }
{
    Ok(Joint::Bond {
        first: number(first)?,
        second: number(second)?,
    })
}

/// What a wire joins, in numbers of the net.
fn joint(ports: &[PlacedPort], wire: Wire) -> Result<Joint, DocFault>
    requires { IsPortWithin (length ports.now) wire }
    ensures ok { IfOk result (IsJointOf (ports_view ports.now) wire) }
    ensures err { IfErr result (λ e. e ≡ Memory) }
{
    match wire {
        Wire::Outside { port, relation } => {
            let port = &ports[port];
            joint_at(port.is_input(), port, relation)
        }
        Wire::Inside { port, relation } => {
            let port = &ports[port];
            joint_at(!port.is_input(), port, relation)
        }
        Wire::Bond { first, second } => bond(first, second),
    }
}

/// What the links of a job join, in the order of the document.
pub fn joints(alloc: Global, wiring: &Wiring) -> Result<Vec<Joint>, DocFault>
    requires { IsWiring wiring.now }
    ensures ok { IfOk result (λ joints. AreJoints (tables_view wiring.now.tables.now) joints.items) }
    ensures err { IfErr result (λ e. e ≡ Memory) }
{
    let mut joints = Vec::with_capacity(alloc, wiring.wires.len())?;
    for wire in &wiring.wires {
        joints.push(joint(&wiring.tables.ports, *wire)?)?;
    }
    Ok(joints)
}
