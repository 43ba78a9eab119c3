ghost use Rattle.std.specs.Prelude.{◌≡◌, ◌<◌, ◌++◌, ◌∷◌, [], ℕ, List, length, map, replicate, get_or, false, true, IfOk};
ghost use Rattle.std.proofs.Common.{set};
ghost use Rattle.pt_net.specs.declared.net.End.{End};
ghost use Rattle.pt_check.specs.Joined.{ends_of};
ghost use Rattle.pt_check.specs.Marks.{AreMarks, AreSized};

use pt_net::{Channel, End, NetEntity};
use std::alloc::{AllocError, Global};
use std::marker::Model;

/// At which ports of an entity a channel begins or ends.
#[derive(Debug, Drop)]
pub struct Marks {
    marks: Vec<bool>,
}

impl Model for Marks {
    ghost use Rattle.std.specs.Prelude.{List, Bool};

    ghost Value = { List Bool };

    ghost view = { λ m. m.marks.items };
}

impl Marks {
    /// At none of so many ports.
    fn none(alloc: Global, ports: usize) -> Result<Marks, AllocError>
        ensures { IfOk result (λ marks. marks ≡ replicate ports false) }
    {
        let mut marks = Vec::with_capacity(alloc, ports)?;
        for _ in 0..ports {
            marks.push(false)?;
        }
        Ok(Marks { marks })
    }

    /// At this one, which is there.
    fn mark(&mut self, port: usize)
        requires { port < length self.old }
        ensures { self.new ≡ set self.old port true }
    {
        self.marks[port] = true;
    }

    fn len(&self) -> usize
        ensures { result ≡ length self.now }
    {
        self.marks.len()
    }

    /// Whether one does at this port.
    pub fn has(&self, port: usize) -> bool
        ensures { result ≡ get_or self.now port false }
    {
        match self.marks.get(port) {
            Some(mark) => *mark,
            None => false,
        }
    }
}

/// No marks at the ports of these entities.
fn no_marks(alloc: Global, entities: &[NetEntity]) -> Result<Vec<Marks>, AllocError>
    ensures unmarked { IfOk result (λ rows. AreMarks [] rows.items) }
    ensures sized { IfOk result (λ rows. AreSized entities.now rows.items) }
{
    let mut rows = Vec::with_capacity(alloc, entities.len())?;
    for entity in entities {
        rows.push(Marks::none(alloc, entity.ports.len())?)?;
    }
    Ok(rows)
}

/// Marks the port at this end of a channel.
fn mark_end(rows: &mut Vec<Marks>, end: End)
    ensures marks { (es : List End) → AreMarks es rows.old.items → AreMarks (es ++ end ∷ []) rows.new.items }
    ensures sized { map length rows.new.items ≡ map length rows.old.items }
{
    let entity = end.entity as usize;
    if entity >= rows.len() {
        return;
    }
    let port = end.port as usize;
    if port >= rows[entity].len() {
        return;
    }
    rows[entity].mark(port);
}

/// Marks the ports at both ends of a channel.
fn mark_channel(rows: &mut Vec<Marks>, channel: &Channel)
    ensures marks { (es : List End) → AreMarks es rows.old.items → AreMarks (es ++ channel.now.from ∷ channel.now.to ∷ []) rows.new.items }
    ensures sized { map length rows.new.items ≡ map length rows.old.items }
{
    mark_end(rows, channel.from);
    mark_end(rows, channel.to);
}

/// At which ports of each entity these channels begin or end. It looks at each of them once.
pub fn marks_of(
    alloc: Global,
    entities: &[NetEntity],
    channels: &[Channel],
) -> Result<Vec<Marks>, AllocError>
    ensures marks { IfOk result (λ rows. AreMarks (ends_of channels.now) rows.items) }
    ensures sized { IfOk result (λ rows. AreSized entities.now rows.items) }
{
    let mut rows = no_marks(alloc, entities)?;
    for channel in channels {
        mark_channel(&mut rows, channel);
    }
    Ok(rows)
}
