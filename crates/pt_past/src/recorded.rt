ghost use Rattle.std.specs.Prelude.{◌≡◌, ◌++◌, [], ◌∷◌, IfOk, length, map, take};
ghost use Rattle.pt_meaning.specs.Basics.{with_tag};
ghost use Rattle.pt_value.specs.declared.token.Token.TheVariants.{Int};
ghost use Rattle.pt_past.specs.Recorded.{noting, recording, unnoted, empty};

use pt_firing::Outputs;
use pt_tagged::Tagged;
use pt_time::Tag;
use pt_value::{Text, Token};
use std::alloc::{AllocError, Global};
use std::marker::Model;

/// An output whose tokens a report lists: what it gave, each token with the tag of its firing.
/// The tokens of a firing are noted first, which may want memory, and recorded once it is known that the firing counts.
#[derive(Drop)]
pub struct Recorded {
    port: usize,
    number: usize,
    text: Text,
    tokens: Tagged,
    /// So many of the tokens are recorded, and those behind are noted.
    recorded: usize,
}

impl Model for Recorded {
    ghost use Rattle.std.specs.Prelude.{◌≤◌, length, take, drop};
    ghost use Rattle.pt_past.specs.Recorded.{RecordedPort, coded_port};

    ghost Value = { RecordedPort };

    ghost coded = { coded_port };

    ghost view = { λ r. record { port = r.port; number = r.number; text = r.text; trace = take r.recorded r.tokens; noted = drop r.recorded r.tokens } };

    ghost invariant = { λ r. r.recorded ≤ length r.tokens };
}

impl Recorded {
    /// The output of that number of its node, listed in the report at a place, under a text.
    pub fn new(alloc: Global, port: usize, number: usize, text: Text) -> Recorded
        ensures { result ≡ record { port = port; number = number; text = text; trace = []; noted = [] } }
    {
        Recorded {
            port,
            number,
            text,
            tokens: Tagged::new(alloc),
            recorded: 0,
        }
    }

    pub fn text(&self) -> &Text
        ensures { result.now ≡ self.now.text }
    {
        &self.text
    }

    pub fn number(&self) -> usize
        ensures { result ≡ self.now.number }
    {
        self.number
    }

    /// Notes what a firing gave, in place of what was noted before.
    #[inline(always)]
    pub fn note(&mut self, alloc: Global, tag: Tag, outputs: &Outputs) -> Result<(), AllocError>
        ensures noted { IfOk result (λ _. self.new ≡ noting tag outputs.now self.old) }
        ensures recorded { unnoted self.new ≡ unnoted self.old }
    {
        self.tokens.truncate(self.recorded);
        if self.port >= outputs.ports() {
            return Ok(());
        }
        note_all(alloc, tag, outputs.list(self.port), &mut self.tokens)
    }

    /// Notes the integers that a firing gave on its one output, in place of what was noted before.
    pub fn note_numbers(&mut self, tag: Tag, numbers: &[i64]) -> Result<(), AllocError>
        ensures noted { IfOk result (λ _. self.new ≡ noting tag (map Int numbers.now ∷ []) self.old) }
        ensures recorded { unnoted self.new ≡ unnoted self.old }
    {
        self.tokens.truncate(self.recorded);
        if self.port > 0 {
            return Ok(());
        }
        self.tokens.push_numbers(tag, numbers)
    }

    /// Records what was noted.
    pub fn record(&mut self)
        ensures { self.new ≡ recording self.old }
    {
        self.recorded = self.tokens.len();
    }

    /// Its text in a report, and the tokens that are recorded.
    pub fn into_told(self) -> (Text, Tagged)
        ensures text { result.0 ≡ self.text }
        ensures trace { result.1 ≡ self.trace }
    {
        let Recorded {
            port: _,
            number: _,
            text,
            mut tokens,
            recorded,
        } = self;
        tokens.truncate(recorded);
        (text, tokens)
    }

    /// The same port before any firing.
    pub fn empty(&self, alloc: Global) -> Result<Recorded, AllocError>
        ensures { IfOk result (λ port. port ≡ empty self.now) }
    {
        Ok(Recorded::new(alloc, self.port, self.number, self.text.copy(alloc)?))
    }
}

/// The recorded outputs of a node.
#[derive(Drop)]
pub struct Records {
    ports: Vec<Recorded>,
}

impl Model for Records {
    ghost use Rattle.std.specs.Prelude.{List};
    ghost use Rattle.std.specs.Coded.{coded_list};
    ghost use Rattle.pt_past.specs.Recorded.{RecordedPort, coded_port};

    ghost Value = { List RecordedPort };

    ghost coded = { coded_list coded_port };

    ghost view = { λ r. r.ports.items };
}

impl Records {
    pub fn of(ports: Vec<Recorded>) -> Records
        ensures { result ≡ ports.items }
    {
        Records { ports }
    }

    pub fn as_slice(&self) -> &[Recorded]
        ensures { result.now ≡ self.now }
    {
        self.ports.as_slice()
    }

    /// The ports themselves.
    pub fn into_ports(self) -> Vec<Recorded>
        ensures { result.items ≡ self }
    {
        self.ports
    }

    /// Notes what a firing gave on each of them. After want of memory nothing more is recorded.
    #[inline(always)]
    pub fn note(&mut self, alloc: Global, tag: Tag, outputs: &Outputs) -> Result<(), AllocError>
        ensures noted { IfOk result (λ _. self.new ≡ map (noting tag outputs.now) self.old) }
        ensures recorded { map unnoted self.new ≡ map unnoted self.old }
    {
        for k in 0..self.ports.len() {
            let port = &mut self.ports[k];
            port.note(alloc, tag, outputs)?;
        }
        Ok(())
    }

    /// Notes the integers that a firing gave on the one output of the node. After want of memory nothing more is recorded.
    pub fn note_numbers(&mut self, tag: Tag, numbers: &[i64]) -> Result<(), AllocError>
        ensures noted { IfOk result (λ _. self.new ≡ map (noting tag (map Int numbers.now ∷ [])) self.old) }
        ensures recorded { map unnoted self.new ≡ map unnoted self.old }
    {
        for k in 0..self.ports.len() {
            let port = &mut self.ports[k];
            port.note_numbers(tag, numbers)?;
        }
        Ok(())
    }

    /// Records what was noted.
    pub fn record(&mut self)
        ensures { self.new ≡ map recording self.old }
    {
        for k in 0..self.ports.len() {
            let port = &mut self.ports[k];
            port.record();
        }
    }

    /// The same outputs before any firing.
    pub fn empty(&self, alloc: Global) -> Result<Records, AllocError>
        ensures { IfOk result (λ records. records ≡ map empty self.now) }
    {
        let mut ports = Vec::with_capacity(alloc, self.ports.len())?;
        for port in &self.ports {
            ports.push(port.empty(alloc)?)?;
        }
        Ok(Records { ports })
    }
}

/// Puts copies of the tokens behind those that are there, each with the tag.
fn note_all(alloc: Global, tag: Tag, tokens: &[Token], noted: &mut Tagged) -> Result<(), AllocError>
    ensures noted { IfOk result (λ _. noted.new ≡ noted.old ++ with_tag tag tokens.now) }
    ensures before { take (length noted.old) noted.new ≡ noted.old }
{
    for token in tokens {
        noted.push(tag, token.copy(alloc)?)?;
    }
    Ok(())
}
