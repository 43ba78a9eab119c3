ghost use Rattle.std.specs.Prelude.{◌≡◌, List, ℕ, IfOk, OnOk, false, unwrap_or};
ghost use Rattle.pt_meaning.specs.Streams.{get};
ghost use Rattle.pt_expr.specs.Env.{scope_of};
ghost use Rattle.pt_chart.specs.Names.{names_in, with_value};
ghost use Rattle.pt_chart.specs.Views.{names_view};
ghost use Rattle.pt_guards.specs.Reads.{reads_view};

use crate::names::{Reads, bind_names, bound, rebind};
use crate::shown::are_shown;
use pt_chart::Names;
use pt_expr::Env;
use pt_value::Token;
use std::alloc::{AllocError, Global};

/// What the names in guards and actions stand for. Parameters are bound once, and ports and Variables by each reaction that
/// tests a guard.
#[derive(Drop)]
pub struct Bindings {
    /// The names with what they are bound to.
    pub env: Env,
    /// Of each Variable, whether its name stands for it.
    pub shown: Vec<bool>,
}

impl Bindings {
    ghost use Rattle.pt_guards.specs.Bindings.{Fits};

    /// Those in which only the parameters are bound.
    pub fn of(alloc: Global, names: &Names) -> Result<Bindings, AllocError>
        ensures { IfOk result (Fits (names_view names.now)) }
    {
        let shown = are_shown(alloc, names)?;
        let env = bound(alloc, &names.parameters)?;
        Ok(Bindings { env, shown })
    }

    /// Binds each name of a port or a Variable to what it stands for.
    pub fn bind(
        &mut self,
        alloc: Global,
        names: &Names,
        reads: &Reads<'_>,
    ) -> Result<(), AllocError>
        requires fits { Fits (names_view names.now) self.old }
        ensures fits { Fits (names_view names.now) self.new }
        ensures bound { OnOk result (scope_of self.new.env ≡ names_in (names_view names.now) (reads_view reads.now)) }
    {
        bind_names(&mut self.env, alloc, names, reads)
    }

    /// Whether the name of a Variable stands for it.
    fn is_shown(&self, variable: usize) -> bool
        ensures { result ≡ unwrap_or (get self.now.shown.items variable) false }
    {
        variable < self.shown.len() && self.shown[variable]
    }

    /// Binds the name of a Variable to a token, where it stands for the Variable.
    pub(crate) fn set(
        &mut self,
        alloc: Global,
        names: &Names,
        variable: usize,
        token: &Token,
    ) -> Result<(), AllocError>
        requires fits { Fits (names_view names.now) self.old }
        ensures fits { Fits (names_view names.now) self.new }
        ensures set { OnOk result ((name : List ℕ) → scope_of self.new.env name ≡ with_value (names_view names.now) variable token.now (scope_of self.old.env) name) }
    {
        if !self.is_shown(variable) {
            return Ok(());
        }
        rebind(
            &mut self.env,
            alloc,
            names.variables.as_slice(),
            variable,
            token,
        )
    }
}
