ghost use Rattle.std.specs.Prelude.{◌≡◌, ◌<◌, ◌++◌, ◌∷◌, [], length, OnOk};
ghost use Rattle.pt_meaning.specs.Process.{puts_of, puts_of_port, to_each};
ghost use Rattle.pt_puts.specs.Puts.{puts_in};
ghost use Rattle.pt_value.specs.declared.token.Token.TheVariants.{Int};

use crate::rv_plan::Plan;
use pt_firing::Outputs;
use pt_puts::StagedPut;
use pt_value::Token;
use std::alloc::{AllocError, Global};
use std::collections::VecDeque;

/// Stages the puts of a firing of a process: in order of ports, then tokens, then channels.
pub fn stage_outputs(
    alloc: Global,
    staged: &mut VecDeque<StagedPut>,
    plan: &Plan,
    process: usize,
    outputs: &Outputs,
) -> Result<(), AllocError>
    requires { process < length plan.now.plan.net.places }
    ensures { OnOk result (puts_in staged.new.items ≡ puts_of plan.now.plan.net.sources process 0 outputs.now) }
{
    staged.clear();
    for port in 0..outputs.ports() {
        let fan = plan.fan(process, port);
        stage_port(alloc, staged, outputs.list(port), fan)?;
    }
    Ok(())
}

/// Stages the puts of a process that gave an integer on its one port.
pub fn stage_number(
    alloc: Global,
    staged: &mut VecDeque<StagedPut>,
    plan: &Plan,
    process: usize,
    number: i64,
) -> Result<(), AllocError>
    requires { process < length plan.now.plan.net.places }
    ensures { OnOk result (puts_in staged.new.items ≡ puts_of plan.now.plan.net.sources process 0 ((Int number ∷ []) ∷ [])) }
{
    staged.clear();
    let token = Token::Int(number);
    stage_token(alloc, staged, &token, plan.fan(process, 0))?;
    Ok(())
}

/// The tokens of a port in order, each to all of its channels.
pub(crate) fn stage_port(
    alloc: Global,
    staged: &mut VecDeque<StagedPut>,
    tokens: &[Token],
    fan: &[u32],
) -> Result<(), AllocError>
    ensures { OnOk result (puts_in staged.new.items ≡ puts_in staged.old.items ++ puts_of_port fan.now tokens.now) }
{
    for token in tokens {
        stage_token(alloc, staged, token, fan)?;
    }
    Ok(())
}

/// A copy of a token to each of the channels.
#[inline(always)]
pub(crate) fn stage_token(
    alloc: Global,
    staged: &mut VecDeque<StagedPut>,
    token: &Token,
    fan: &[u32],
) -> Result<(), AllocError>
    ensures { OnOk result (puts_in staged.new.items ≡ puts_in staged.old.items ++ to_each token.now fan.now) }
{
    for channel in fan {
        stage(alloc, staged, token, *channel)?;
    }
    Ok(())
}

/// A copy of a token to a channel.
fn stage(
    alloc: Global,
    staged: &mut VecDeque<StagedPut>,
    token: &Token,
    channel: u32,
) -> Result<(), AllocError>
    ensures { OnOk result (puts_in staged.new.items ≡ puts_in staged.old.items ++ to_each token.now (channel ∷ [])) }
{
    let token = token.copy(alloc)?;
    match staged.push_back(StagedPut { channel, token }) {
        Ok(()) => Ok(()),
        Err(_) => Err(AllocError),
    }
}
