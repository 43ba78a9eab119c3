ghost use Rattle.std.specs.Prelude.{◌≡◌, ℕ, ◌/◌, ◌<◌, length, map, Some, get_or};
ghost use Rattle.pt_meaning.specs.Sdf.{number_at, or_one};
ghost use Rattle.pt_sdf_parts.specs.Feeds.{no_feed, target_of, allowed_by, min_with};

use crate::feeds::Feed;
use pt_recv::Channels;

/// How many iterations the tokens on some channels from own inputs allow, and one where there is none.
pub fn iterations(channels: &Channels, arrivals: &[Feed], takes: &[usize]) -> usize
    requires { (k : ℕ) → k < length arrivals.now → (get_or arrivals.now k no_feed).channel < length channels.now.lists }
    ensures { result ≡ or_one (allowed_by takes.now (map target_of arrivals.now) channels.now.lists) }
{
    let mut least = None;
    for k in (0..arrivals.len()).rev() {
        let tokens = channels.len(arrivals[k].channel);
        least = Some(lesser(allowed(takes, arrivals[k].port, tokens), least));
    }
    least.unwrap_or(1)
}

fn lesser(m: usize, least: Option<usize>) -> usize
    ensures { result ≡ min_with m least }
{
    match least {
        None => m,
        Some(k) => m.min(k),
    }
}

/// How many iterations so many tokens of an own input allow.
fn allowed(takes: &[usize], port: u32, tokens: usize) -> usize
    ensures { result ≡ tokens / number_at takes.now port }
{
    let n = number_for(takes, port);
    if n == 0 { 0 } else { tokens / n }
}

/// How many tokens an iteration takes from an own input: one, where the list ends before it.
pub(crate) fn number_for(takes: &[usize], port: u32) -> usize
    ensures { result ≡ number_at takes.now port }
{
    if (port as usize) < takes.len() {
        takes[port as usize]
    } else {
        1
    }
}
