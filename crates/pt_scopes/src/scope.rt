ghost use Rattle.std.specs.Prelude.{◌≡◌, option_map, slice_get};
ghost use Rattle.pt_value.specs.Token.{value_of};
ghost use Rattle.pt_scopes.specs.Names.{seen_value, held_at, in_chain};

use crate::names::Names;
use pt_value::Token;

/// What an expression sees: the parameters of one composite, and behind them those of a chain of composites, the nearest
/// first, by their numbers among the frames.
#[derive(Drop)]
pub struct Seen<'a> {
    pub own: &'a Names,
    pub frames: &'a [Names],
    pub chain: &'a [u32],
}

impl Seen<'_> {
    /// The token of the nearest parameter of a name.
    pub fn get(&self, name: &str) -> Option<&Token>
        ensures { option_map (λ t. value_of t.now) result ≡ seen_value self.now name.now }
    {
        match self.own.get(name) {
            Some(token) => Some(token),
            None => in_chain(self.frames, self.chain, name),
        }
    }
}

/// The token under a name in one of the frames.
fn in_frame<'a>(frames: &'a [Names], number: u32, name: &str) -> Option<&'a Token>
    ensures { option_map (λ t. value_of t.now) result ≡ held_at (slice_get frames.now number) name.now }
{
    match frames.get(number as usize) {
        Some(names) => names.get(name),
        None => None,
    }
}

/// The token under a name in the first of the frames of a chain that has it.
fn in_chain<'a>(frames: &'a [Names], chain: &[u32], name: &str) -> Option<&'a Token>
    ensures { option_map (λ t. value_of t.now) result ≡ in_chain frames.now chain.now name.now }
{
    for number in chain {
        if let Some(token) = in_frame(frames, *number, name) {
            return Some(token);
        }
    }
    None
}
