ghost use Rattle.std.specs.Prelude.{◌≡◌, ◌<◌, length};
ghost use Rattle.pt_de_parts.specs.Telling.{told_due, told_last};

use crate::agenda::Agenda;
use crate::net::Net;
use crate::turns::Turns;
use pt_wakes::DueChildren;

/// Where the child at whose place a channel ends has had no turn, it is due, or comes last where the channel ends at a delay.
#[inline(always)]
pub fn tell_reader(
    net: &Net,
    turns: &Turns,
    agenda: &mut Agenda,
    last: &mut DueChildren,
    channel: usize,
)
    requires there { channel < length net.now.plan.net.sources }
    requires turns { length turns.now ≡ length net.now.plan.net.places }
    requires wakes { length agenda.old.wakes ≡ length net.now.plan.net.places }
    requires dues { length agenda.old.set.due ≡ length net.now.plan.net.places }
    requires lasts { length last.old.due ≡ length net.now.plan.net.places }
    ensures agenda { agenda.new ≡ record { wakes = agenda.old.wakes; set = told_due net.now turns.now channel agenda.old.set } }
    ensures last { last.new ≡ told_last net.now turns.now channel last.old }
{
    let reader = net.reader(channel) as usize;
    if reader >= net.children() || !turns.waits(reader) {
        return;
    }
    if net.is_delayed(channel) {
        last.insert(reader);
    } else {
        agenda.insert(reader);
    }
}
