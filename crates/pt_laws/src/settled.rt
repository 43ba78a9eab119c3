// Settled rounds as runs, and what two PN firings make as one.

ghost use Rattle.pt_laws.specs.SettledRuns.{RoundsCount, SettledIsRun, PnFiringIsRun, SdfFiringIsRun};
ghost use Rattle.pt_laws.specs.CutLaw.{RunsJoin, CutLaw};

/// Each round lies below the round whose number is the number of firings made in it.
pub fn rounds_count<T, S>()
    ensures { RoundsCount T S }
{}

/// A settled round is a run, at the end of which no child can fire.
pub fn settled_is_run<T, S>()
    ensures { SettledIsRun T S }
{}

/// A PN firing that is done is a run at the end of which no child can fire.
pub fn pn_firing_is_run<T, A>()
    ensures { PnFiringIsRun T A }
{}

/// An SDF firing that is done is a run in which each child has fired as often as its bound says.
pub fn sdf_firing_is_run<T, A>()
    ensures { SdfFiringIsRun T A }
{}

/// A run on some inputs, and then a run from there on others, are one run on both joined.
pub fn runs_join<T, S>()
    ensures { RunsJoin T S }
{}

/// Two PN firings at one tag, on some inputs and then on others, are one firing on both joined.
pub fn cut_law<T, A>()
    ensures { CutLaw T A }
{}
