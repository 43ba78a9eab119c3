ghost use Rattle.std.specs.Prelude.{◌≡◌, IfOk, IfSome, IfNone};

use crate::stays::{Stay, lag_of, pass, unentered};
use pt_chart::copied_tokens;
use pt_firing::Inputs;
use pt_transitions::Chart;
use pt_value::Token;
use std::alloc::{AllocError, Global};
use std::marker::Model;

/// Where a Modal is: its state, its Variables, and the times of its refinements.
#[derive(Drop)]
pub(crate) struct Modes {
    mode: u32,
    values: Vec<Token>,
    stays: Vec<Stay>,
}

impl Model for Modes {
    ghost use Rattle.pt_meaning.specs.Modal as modal;
    ghost use Rattle.pt_value.specs.declared.token.Token.{Token};
    ghost use Rattle.pt_modal_laws.specs.StateCode.{coded_modes};

    ghost Value = { modal.Modes Token };

    ghost coded = { coded_modes };

    ghost view = { λ m. record { mode = m.mode; values = m.values.items; stays = m.stays.items } };
}

impl Modes {
    ghost use Rattle.pt_meaning.specs.Modal.{first_modes, lag_of};
    ghost use Rattle.pt_modal_laws.specs.State.{moved_stays};
    ghost use Rattle.pt_chart.specs.Chart.{chart_of};
    ghost use Rattle.pt_modal.specs.Entered.{with_stays, in_mode};
    ghost use Rattle.pt_modal.specs.Signals.{PassesAlone};

    /// Where the Modal of a chart with so many refinements begins.
    pub(crate) fn first(
        alloc: Global,
        chart: &Chart,
        refinements: usize,
    ) -> Result<Modes, AllocError>
        ensures { IfOk result (λ modes. modes ≡ first_modes (chart_of chart.now) refinements) }
    {
        let values = chart.values(alloc)?;
        let stays = unentered(alloc, refinements)?;
        Ok(Modes {
            mode: chart.initial(),
            values,
            stays,
        })
    }

    /// The state.
    pub(crate) fn mode(&self) -> u32
        ensures { result ≡ self.now.mode }
    {
        self.mode
    }

    /// The values of the Variables.
    pub(crate) fn values(&self) -> &[Token]
        ensures { result.now ≡ self.now.values }
    {
        self.values.as_slice()
    }

    /// By how much the time of a refinement lags.
    pub(crate) fn lag(&self, refinement: u32) -> u64
        ensures { result ≡ lag_of self.now.stays refinement }
    {
        lag_of(&self.stays, refinement)
    }

    /// The refinements are left and entered at a time.
    pub(crate) fn pass(&mut self, time: u64, history: bool, left: Option<u32>, entered: Option<u32>)
        ensures { self.new ≡ with_stays (moved_stays time history left entered self.old.stays) self.old }
    {
        pass(&mut self.stays, time, history, left, entered);
    }

    /// Another state is entered, with these values of the Variables.
    pub(crate) fn enter(&mut self, mode: u32, values: Vec<Token>)
        ensures { self.new ≡ in_mode mode values.items self.old }
    {
        self.mode = mode;
        self.values = values;
    }

    /// A whole reaction in which no refinement is left, entered or fired, and the one own output has one integer at most. After `None` all is as before.
    #[inline(always)]
    pub(crate) fn signal(&mut self, chart: &Chart, inputs: &Inputs<'_>) -> Option<Option<i64>>
        ensures kept { IfNone result (self.new ≡ self.old) }
        ensures goes { IfSome result (λ given. PassesAlone (chart_of chart.now) inputs.now given self.old self.new) }
    {
        let signal = chart.signal(self.mode, &mut self.values, inputs)?;
        self.mode = signal.target;
        Some(signal.given)
    }

    pub(crate) fn copy(&self, alloc: Global) -> Result<Modes, AllocError>
        ensures { IfOk result (λ modes. modes ≡ self.now) }
    {
        Ok(Modes {
            mode: self.mode,
            values: copied_tokens(alloc, &self.values)?,
            stays: Vec::from_slice(alloc, &self.stays)?,
        })
    }
}
