ghost use Rattle.std.specs.Prelude.{◌≡◌, ℕ, ◌+◌, ◌^◌, ◌<◌, ◌≤◌, [], ◌∷◌, Some, length, map, take, drop, get_or, IsTrue, if◌then◌else◌};
ghost use Rattle.pt_value.specs.declared.token.Token.TheVariants.{Int};
ghost use Rattle.pt_recv.specs.Lines.{list_at, spare_at};
ghost use Rattle.pt_sdf_parts.specs.ByNeed.{skip_at};
ghost use Rattle.pt_sdf_parts.specs.Feeds.{put_back};
ghost use Rattle.pt_sdf_parts.specs.Lanes.{FitsInlet, IsInletIn, IsOutletIn, HasRow, row_left, targets_of, count_of};

use crate::lanes::{Inlet, Outlet};
use crate::skip::skip_places;
use pt_recv::Channels;

/// Puts the one number that a child gave on the channel that it feeds, if it feeds one and that is a matter of one store. `false` says that nothing was done.
#[inline(always)]
pub fn give_number(channels: &mut Channels, outlet: Outlet, number: i64) -> bool
    requires { IsOutletIn (length channels.old.lists) outlet }
    ensures lists { channels.new.lists ≡ (if result then put_back (targets_of outlet) ((Int number ∷ []) ∷ []) channels.old.lists else channels.old.lists) }
    ensures one { IsTrue result → count_of outlet ≡ Some 1 }
{
    match outlet {
        Outlet::One(c) => channels.push_number(c, number),
        Outlet::Nothing => true,
        Outlet::Burst(_, _) | Outlet::Several => false,
    }
}

/// Puts the numbers that a child gave on the one channel that it feeds, where it gives so many and nothing needs to be moved. `false` says that nothing was done.
#[inline(always)]
pub fn give_numbers(channels: &mut Channels, outlet: Outlet, numbers: &[i64]) -> bool
    requires { IsOutletIn (length channels.old.lists) outlet }
    ensures lists { channels.new.lists ≡ (if result then put_back (targets_of outlet) (map Int numbers.now ∷ []) channels.old.lists else channels.old.lists) }
    ensures all { IsTrue result → count_of outlet ≡ Some (length numbers.now) }
{
    match outlet {
        Outlet::Burst(c, rate) => rate == numbers.len() && channels.push_numbers(c, numbers),
        Outlet::One(c) => numbers.len() == 1 && channels.push_numbers(c, numbers),
        Outlet::Nothing => numbers.len() == 1,
        Outlet::Several => false,
    }
}

/// Takes away what so many firings need, where an inlet tells one place or none, and there is as much. `false` says that nothing was done.
#[inline(always)]
pub fn skip_rows(channels: &mut Channels, inlet: Inlet, firings: usize) -> bool
    requires { IsInletIn (length channels.old.lists) inlet }
    ensures lists { channels.new.lists ≡ (if result then row_left inlet firings channels.old.lists else channels.old.lists) }
    ensures enough { IsTrue result → HasRow inlet firings channels.old.lists }
    ensures keeps { (d : ℕ) → spare_at channels.old.spares d ≤ spare_at channels.new.spares d }
{
    match inlet {
        Inlet::Alone(c, need) => match firings.checked_mul(need) {
            Some(all) if all <= channels.len(c) => {
                channels.skip(c, all);
                true
            }
            _ => false,
        },
        Inlet::Nothing => true,
        Inlet::Each | Inlet::Several => false,
    }
}

/// Takes away what `n` places from this one on need, which an inlet tells.
#[inline(always)]
pub fn skip_inlet(channels: &mut Channels, inlet: Inlet, needs: &[usize], from: usize, n: usize)
    requires fits { FitsInlet needs.now from n inlet }
    requires few { length channels.old.lists < 2 ^ 32 }
    requires places { from + n ≤ length channels.old.lists }
    requires needed { from + n ≤ length needs.now }
    requires enough { (k : ℕ) → k < n → get_or needs.now (from + k) 0 ≤ length (list_at channels.old.lists (from + k)) }
    ensures lists { channels.new.lists ≡ skip_at from (take n (drop from needs.now)) channels.old.lists }
{
    match inlet {
        Inlet::Alone(c, need) => channels.skip(c, need),
        Inlet::Nothing => {}
        Inlet::Each | Inlet::Several => skip_places(channels, needs, from, n),
    }
}
