ghost use Rattle.std.specs.Prelude.{◌≡◌, ℕ, ◌+◌, ◌-◌, ◌<◌, ◌≤◌, ◌∷◌, length, get_or, set};
ghost use Rattle.pt_recv.specs.Lines.{spare_at, pushed, lowered};
ghost use Rattle.pt_puts.specs.Puts.{put_of, puts_in};
ghost use Rattle.pt_process.specs.Process.{count_on};
ghost use Rattle.pt_pn.specs.Puts.{all_put};
ghost use Rattle.pt_pn.specs.Noted.{tokens_came};

use crate::notes::Notes;
use pt_puts::StagedPut;
use pt_recv::Channels;
use std::collections::VecDeque;

/// Puts a token on its channel, where room was promised for it. It takes no memory.
pub(crate) fn put_promised(queues: &mut Channels, promised: &mut Vec<usize>, put: StagedPut)
    requires there { put.channel < length queues.old.lists }
    requires counted { length promised.old.items ≡ length queues.old.lists }
    requires spares { length queues.old.spares ≡ length queues.old.lists }
    requires room { (d : ℕ) → get_or promised.old.items d 0 ≤ spare_at queues.old.spares d }
    requires promised { 1 ≤ get_or promised.old.items put.channel 0 }
    ensures lists { queues.new.lists ≡ pushed queues.old.lists put.channel put.token }
    ensures spares { queues.new.spares ≡ lowered queues.old.spares put.channel }
    ensures promised { promised.new.items ≡ set promised.old.items put.channel (get_or promised.old.items put.channel 0 - 1) }
{
    let StagedPut { channel, token } = put;
    queues.put(channel, token);
    promised[channel as usize] -= 1;
}

/// Puts all that is staged on its channels, where room was promised for it, and wakes who waits for it. It takes no memory.
pub(crate) fn put_all(
    queues: &mut Channels,
    promised: &mut Vec<usize>,
    staged: &mut VecDeque<StagedPut>,
    notes: &mut Notes,
)
    requires counted { length promised.old.items ≡ length queues.old.lists }
    requires spares { length queues.old.spares ≡ length queues.old.lists }
    requires room { (d : ℕ) → get_or promised.old.items d 0 ≤ spare_at queues.old.spares d }
    requires promised { (d : ℕ) → count_on d (puts_in staged.old.items) ≤ get_or promised.old.items d 0 }
    ensures lists { queues.new.lists ≡ all_put (puts_in staged.old.items) queues.old.lists }
    ensures spares { length queues.new.spares ≡ length queues.old.spares }
    ensures counted { length promised.new.items ≡ length promised.old.items }
    ensures room { (d : ℕ) → get_or promised.new.items d 0 ≤ spare_at queues.new.spares d }
    ensures left { (d : ℕ) → get_or promised.old.items d 0 ≤ get_or promised.new.items d 0 + count_on d (puts_in staged.old.items) }
    ensures noted { notes.new ≡ tokens_came (puts_in staged.old.items) notes.old }
{
    for _ in 0..staged.len() {
        let put = next_staged(staged);
        notes.note_token(put.channel);
        put_promised(queues, promised, put);
    }
}

/// Takes out what was staged first.
fn next_staged(staged: &mut VecDeque<StagedPut>) -> StagedPut
    requires { 0 < length staged.old.items }
    ensures first { puts_in staged.old.items ≡ put_of result ∷ puts_in staged.new.items }
    ensures counted { length staged.old.items ≡ length staged.new.items + 1 }
{
    match staged.pop_front() {
        Some(put) => put,
        None => unreachable!(),
    }
}
