ghost use Rattle.std.specs.Prelude.{◌≡◌, ◌++◌, ◌∷◌, [], List, map, get_or, OnOk};
ghost use Rattle.pt_net.specs.declared.net.NetEntity.{NetEntity};
ghost use Rattle.pt_net.specs.Inside.{source_of, child_number, ports_at, port_number};
ghost use Rattle.pt_wiring.specs.Channels.{AreNumbers, source_view};

use crate::numbers::Numbers;
use pt_net::{Channel, End};
use std::alloc::{AllocError, Global};
use std::marker::Model;

/// Where a channel begins, seen from inside its composite: at an own input, or at an output of a child. Inputs, outputs and
/// children are numbered each for themselves.
#[derive(Clone, Copy, Debug, PartialEq, Eq)]
pub enum Source {
    Own(usize),
    Output { child: usize, port: usize },
}

/// Where the channels of a composite begin, in the order of their numbers.
#[derive(Debug, Drop)]
pub struct Sources {
    sources: Vec<Source>,
}

impl Model for Sources {
    ghost use Rattle.std.specs.Prelude.{List, map};
    ghost use Rattle.pt_meaning.specs.Net as net;
    ghost use Rattle.pt_wiring.specs.Channels.{source_view};

    ghost Value = { List net.Source };

    ghost view = { λ s. map source_view s.sources.items };
}

impl Sources {
    pub fn new(alloc: Global) -> Sources
        ensures { result ≡ [] }
    {
        Sources {
            sources: Vec::new(alloc),
        }
    }

    pub fn push(&mut self, source: Source) -> Result<(), AllocError>
        ensures { OnOk result (self.new ≡ self.old ++ source_view source ∷ []) }
    {
        self.sources.push(source)?;
        Ok(())
    }

    pub fn as_slice(&self) -> &[Source]
        ensures { map source_view result.now ≡ self.now }
    {
        &self.sources
    }
}

/// The numbers of entities among the children of their composites, and of their ports.
#[derive(Drop)]
pub struct Numbering {
    pub children: Vec<usize>,
    pub ports: Vec<Numbers>,
}

impl Numbering {
    fn child(&self, entity: usize) -> usize
        ensures { (es : List NetEntity) → AreNumbers es self.now.children.items self.now.ports.items → result ≡ child_number es entity }
    {
        match self.children.get(entity) {
            Some(number) => *number,
            None => 0,
        }
    }

    fn port(&self, end: End) -> usize
        ensures { (es : List NetEntity) → AreNumbers es self.now.children.items self.now.ports.items → result ≡ port_number (ports_at es end.entity) end.port }
    {
        match self.ports.get(end.entity as usize) {
            Some(numbers) => number_at(numbers.as_slice(), end.port as usize),
            None => 0,
        }
    }

    /// Where a channel begins.
    pub fn source(&self, channel: &Channel) -> Source
        ensures { (es : List NetEntity) → AreNumbers es self.now.children.items self.now.ports.items → source_view result ≡ source_of es channel.now }
    {
        let port = self.port(channel.from);
        if channel.from.entity == channel.composite {
            Source::Own(port)
        } else {
            Source::Output {
                child: self.child(channel.from.entity as usize),
                port,
            }
        }
    }
}

/// The number at a place, and 0 behind the last.
pub fn number_at(numbers: &[usize], place: usize) -> usize
    ensures { result ≡ get_or numbers.now place 0 }
{
    match numbers.get(place) {
        Some(number) => *number,
        None => 0,
    }
}
