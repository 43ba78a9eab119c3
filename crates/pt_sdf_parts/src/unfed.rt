ghost use Rattle.std.specs.Prelude.{◌≡◌, ◌^◌, ◌<◌, ◌≤◌, length, map, drop};
ghost use Rattle.pt_meaning.specs.Sdf.{times, taken_from};
ghost use Rattle.pt_sdf_parts.specs.ByNeed.{skip_at};
ghost use Rattle.pt_core.specs.Source.{source_of};

use crate::outlets::owed_on;
use crate::turns::number_for;
use pt_core::Source;
use pt_recv::Channels;

/// Takes away what so many iterations take from the own inputs that feed nothing. Their channels are those from `from` on, of which `sources` says where each begins. It takes no memory.
pub fn use_up(
    channels: &mut Channels,
    sources: &[Source],
    takes: &[usize],
    turns: usize,
    from: usize,
)
    requires few { length channels.old.lists < 2 ^ 32 }
    requires counted { length sources.now ≡ length channels.old.lists }
    requires from { from ≤ length sources.now }
    ensures { channels.new.lists ≡ skip_at from (times turns (map (taken_from takes.now) (drop from (map source_of sources.now)))) channels.old.lists }
{
    for k in 0..sources.len() - from {
        let c = (from + k) as u32;
        let n = owed_on(channels, c, taken_in(takes, sources[from + k]), turns);
        channels.skip(c, n);
    }
}

/// How many tokens an iteration takes from a channel that ends nowhere.
fn taken_in(takes: &[usize], source: Source) -> usize
    ensures { result ≡ taken_from takes.now (source_of source) }
{
    match source {
        Source::Own(port) => number_for(takes, port),
        Source::Output(_, _) => 0,
    }
}
