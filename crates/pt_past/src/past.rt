ghost use Rattle.std.specs.Prelude.{◌≡◌, ◌+◌, ◌<◌, ◌^◌, Some};
ghost use Rattle.pt_meaning.specs.Tree as tree;
ghost use Rattle.pt_meaning.specs.NodeFacts.{at_first};

use pt_time::Tag;
use std::marker::Model;

/// How often a node has fired over the whole run, and the time of its last firing since the start or the last reset.
#[derive(Clone, Copy, Debug, PartialEq, Eq)]
pub struct Past {
    pub made: u64,
    pub last: Option<u64>,
}

impl Model for Past {
    ghost use Rattle.pt_meaning.specs.Tree as tree;

    ghost Value = { tree.Past };

    ghost view = { λ p. record { made = p.made; last = p.last } };

    ghost inverse = { λ p. record { made = p.made; last = p.last } };
}

impl Past {
    /// As many firings, and no time of the last.
    pub fn forgotten(self) -> Past
        ensures { result ≡ tree.forgotten self }
    {
        Past {
            made: self.made,
            last: None,
        }
    }

    /// The wake of a node with this past, of its own wake: where it begins by itself that is 0.0 until it has fired.
    pub fn wake(self, begins: bool, own: Option<Tag>) -> Option<Tag>
        ensures { result ≡ at_first begins self.last own }
    {
        match self.last {
            None if begins => Some(Tag { time: 0, step: 0 }),
            None | Some(_) => own,
        }
    }

    /// So many firings more, at that tag.
    pub fn fired_times(self, tag: Tag, firings: u64) -> Past
        requires { self.made + firings < 2 ^ 64 }
        ensures { result ≡ record { made = self.made + firings; last = Some tag.time } }
    {
        let last = Some(tag.time);
        Past {
            made: self.made + firings,
            last,
        }
    }

    /// One firing more, at that tag.
    pub fn fired_at(self, tag: Tag) -> Past
        requires { self.made + 1 < 2 ^ 64 }
        ensures { result ≡ tree.fired_at tag self }
    {
        Past {
            made: self.made + 1,
            last: Some(tag.time),
        }
    }
}
