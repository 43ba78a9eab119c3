ghost use Rattle.std.specs.Prelude.{◌≡◌, ℕ, ◌<◌, ◌++◌, ◌∷◌, [], List, length, map, get_or, IfOk, OnOk};
ghost use Rattle.pt_net.specs.declared.net.Channel.{Channel};
ghost use Rattle.pt_start.specs.Counts.{one_more, AreCounts, AreSized};

use pt_net::{Channel, NetEntity};
use std::alloc::{AllocError, Global};
use std::marker::Model;

/// How many channels end at each port of an entity.
#[derive(Debug, Drop)]
pub struct Counts {
    counts: Vec<u32>,
}

impl Model for Counts {
    ghost use Rattle.std.specs.Prelude.{List, ℕ};

    ghost Value = { List ℕ };

    ghost view = { λ c. c.counts.items };
}

impl Counts {
    /// None at each of so many ports.
    fn none(alloc: Global, ports: usize) -> Result<Counts, AllocError>
        ensures counted { IfOk result (λ counts. length counts ≡ ports) }
        ensures zeros { IfOk result (λ counts. (i : ℕ) → get_or counts i 0 ≡ 0) }
    {
        let mut counts = Vec::with_capacity(alloc, ports)?;
        for _ in 0..ports {
            counts.push(0)?;
        }
        Ok(Counts { counts })
    }

    /// One more at a port that is there. More than 32 bits hold are told as want of memory.
    fn add(&mut self, port: usize) -> Result<(), AllocError>
        requires { port < length self.old }
        ensures { OnOk result (self.new ≡ one_more self.old port) }
    {
        let Some(more) = self.counts[port].checked_add(1) else {
            return Err(AllocError);
        };
        self.counts[port] = more;
        Ok(())
    }

    fn len(&self) -> usize
        ensures { result ≡ length self.now }
    {
        self.counts.len()
    }

    pub fn as_slice(&self) -> &[u32]
        ensures { result.now ≡ self.now }
    {
        &self.counts
    }
}

/// None yet at any port of these entities.
fn no_counts(alloc: Global, entities: &[NetEntity]) -> Result<Vec<Counts>, AllocError>
    ensures zeros { IfOk result (λ rows. (k i : ℕ) → get_or (get_or rows.items k []) i 0 ≡ 0) }
    ensures sized { IfOk result (λ rows. AreSized entities.now rows.items) }
{
    let mut rows = Vec::with_capacity(alloc, entities.len())?;
    for entity in entities {
        rows.push(Counts::none(alloc, entity.ports.len())?)?;
    }
    Ok(rows)
}

/// Counts a channel at the port where it ends.
fn add_channel(rows: &mut Vec<Counts>, channel: &Channel) -> Result<(), AllocError>
    ensures counts { OnOk result ((ks : List Channel) → AreCounts ks rows.old.items → AreCounts (ks ++ channel.now ∷ []) rows.new.items) }
    ensures sized { OnOk result (map length rows.new.items ≡ map length rows.old.items) }
{
    let entity = channel.to.entity as usize;
    if entity >= rows.len() {
        return Ok(());
    }
    let port = channel.to.port as usize;
    if port >= rows[entity].len() {
        return Ok(());
    }
    rows[entity].add(port)?;
    Ok(())
}

/// How many of these channels end at each port of each entity.
pub fn counts_of(
    alloc: Global,
    entities: &[NetEntity],
    channels: &[Channel],
) -> Result<Vec<Counts>, AllocError>
    ensures counts { IfOk result (λ rows. AreCounts channels.now rows.items) }
    ensures sized { IfOk result (λ rows. AreSized entities.now rows.items) }
{
    let mut rows = no_counts(alloc, entities)?;
    for channel in channels {
        add_channel(&mut rows, channel)?;
    }
    Ok(rows)
}
