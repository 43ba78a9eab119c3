ghost use Rattle.std.specs.Prelude.{◌≡◌, [], ◌∷◌, IfOk, true};
ghost use Rattle.pt_meaning.specs.Machine as machine;
ghost use Rattle.pt_process.specs.Process.{need_kept};

use pt_firing::Counts;
use std::alloc::{AllocError, Global};

/// What a process needs before it can fire, as it is kept.
#[derive(Drop)]
pub(crate) enum KeptNeed {
    /// It fires no more.
    Over,
    /// So many tokens at each place.
    Counts(Counts),
    /// One token, at the only place.
    One,
}

impl KeptNeed {
    ghost use Rattle.std.specs.Prelude.{◌≡◌, IfOk};
    ghost use Rattle.pt_process.specs.Process.{need_in, need_kept, lined_in};

    /// A need of counts, or none where the process is over.
    pub(crate) fn new(need: Option<Counts>) -> KeptNeed
        ensures { need_kept result ≡ need_in need }
    {
        match need {
            Some(counts) => narrowed(counts),
            None => KeptNeed::Over,
        }
    }

    /// So many tokens are gathered at each place in the lines, and at the others none.
    pub(crate) fn lined(&self) -> &[usize]
        ensures { result.now ≡ lined_in self.now }
    {
        match self {
            KeptNeed::Counts(counts) => counts.as_slice(),
            KeptNeed::Over | KeptNeed::One => &[],
        }
    }

    /// The same need again.
    pub(crate) fn copy(&self, alloc: Global) -> Result<KeptNeed, AllocError>
        ensures { IfOk result (λ copy. copy ≡ self.now) }
    {
        match self {
            KeptNeed::Over => Ok(KeptNeed::Over),
            KeptNeed::Counts(counts) => match counts.copy(alloc) {
                Ok(counts) => Ok(KeptNeed::Counts(counts)),
                Err(fault) => Err(fault),
            },
            KeptNeed::One => Ok(KeptNeed::One),
        }
    }
}

/// A need of these counts, which aren't kept where they are one token at the only place.
pub(crate) fn narrowed(counts: Counts) -> KeptNeed
    ensures { need_kept result ≡ machine.Counts counts }
{
    if is_one(counts.as_slice()) {
        return KeptNeed::One;
    }
    KeptNeed::Counts(counts)
}

/// Whether these counts are one token at one place.
#[inline(always)]
pub(crate) fn is_one(counts: &[usize]) -> bool
    ensures { result ≡ true → counts.now ≡ 1 ∷ [] }
{
    match counts {
        [count] => *count == 1,
        _ => false,
    }
}
