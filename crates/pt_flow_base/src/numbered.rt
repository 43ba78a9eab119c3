ghost use Rattle.std.specs.Prelude.{◌≡◌, length};
ghost use Rattle.pt_meaning.specs.Basics.{Streams};
ghost use Rattle.pt_value.specs.declared.token.Token.{Token};
ghost use Rattle.pt_firing.specs.Row.{number_at, is_present};

use pt_firing::{Inputs, IntInputs};

/// What a firing takes, where only its numbers are read.
pub trait Numbered {
    /// The tokens at each place.
    ghost streams: { Self → Streams Token };

    fn places(&self) -> usize
        ensures { result ≡ length (streams self.now) };

    /// The first token of a place, where it is a number.
    fn number_at(&self, place: usize) -> Option<i64>
        ensures { result ≡ number_at (streams self.now) place };

    /// Whether a place has a token.
    fn is_present(&self, place: usize) -> bool
        ensures { result ≡ is_present (streams self.now) place };
}

impl<'a> Numbered for Inputs<'a> {
    ghost streams = { λ X. X };

    fn places(&self) -> usize {
        Inputs::places(self)
    }

    fn number_at(&self, place: usize) -> Option<i64> {
        Inputs::number_at(self, place)
    }

    fn is_present(&self, place: usize) -> bool {
        Inputs::is_present(self, place)
    }
}

impl<'a> Numbered for IntInputs<'a> {
    ghost streams = { λ X. X };

    #[inline(always)]
    fn places(&self) -> usize {
        IntInputs::places(self)
    }

    #[inline(always)]
    fn number_at(&self, place: usize) -> Option<i64> {
        IntInputs::number_at(self, place)
    }

    #[inline(always)]
    fn is_present(&self, place: usize) -> bool {
        IntInputs::is_present(self, place)
    }
}
