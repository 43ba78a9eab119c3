ghost use Rattle.std.specs.Prelude.{◌≡◌, ℕ, ◌+◌, ◌^◌, ◌<◌, ◌≤◌, length, take, drop, get_or};
ghost use Rattle.pt_recv.specs.Lines.{list_at, spare_at};
ghost use Rattle.pt_sdf_parts.specs.ByNeed.{skip_at};

use pt_recv::Channels;

/// Takes away what `n` places from this one on need.
pub fn skip_places(channels: &mut Channels, needs: &[usize], from: usize, n: usize)
    requires few { length channels.old.lists < 2 ^ 32 }
    requires places { from + n ≤ length channels.old.lists }
    requires needed { from + n ≤ length needs.now }
    requires enough { (k : ℕ) → k < n → get_or needs.now (from + k) 0 ≤ length (list_at channels.old.lists (from + k)) }
    ensures lists { channels.new.lists ≡ skip_at from (take n (drop from needs.now)) channels.old.lists }
    ensures keeps { (d : ℕ) → spare_at channels.old.spares d ≤ spare_at channels.new.spares d }
{
    for k in 0..n {
        channels.skip((from + k) as u32, needs[from + k]);
    }
}
