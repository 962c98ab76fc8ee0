ghost use Rattle.std.specs.Prelude.{◌≡◌, IfOk};
ghost use Rattle.action_names.specs.Names.{IsName};
ghost use Rattle.run_model.specs.declared.step.Step.TheVariants.{Abort};

use action_names::Name;
use run_model::Step;
use std::alloc::AllocError;
use std::marker::Model;

/// The name of an action that was begun, kept in the step that aborts it: so that step takes no memory.
#[derive(Drop)]
pub(crate) struct Abortable {
    abort: Step,
}

impl Model for Abortable {
    ghost use Rattle.std.specs.Prelude.{◌≡◌};
    ghost use Rattle.action_names.specs.Names.{Name};
    ghost use Rattle.run_model.specs.declared.step.Step.TheVariants.{Abort};
    ghost use Rattle.activities.specs.Aborting.{aborted_by};

    ghost Value = { Name };

    ghost view = { λ a. aborted_by a.abort };

    ghost invariant = { λ a. a.abort ≡ Abort (aborted_by a.abort) };
}

impl Abortable {
    pub(crate) fn new(name: Name) -> Abortable
        ensures { result ≡ name }
    {
        Abortable {
            abort: Step::Abort(name),
        }
    }

    /// The step that aborts the action.
    pub(crate) fn abort(&self) -> &Step
        ensures { result.now ≡ Abort self.now }
    {
        &self.abort
    }

    pub(crate) fn as_name(&self) -> &Name
        ensures { result.now ≡ self.now }
    {
        match &self.abort {
            Step::Abort(name) => name,
            _ => unreachable!(),
        }
    }

    pub(crate) fn into_name(self) -> Name
        ensures { result ≡ self }
    {
        match self.abort {
            Step::Abort(name) => name,
            _ => unreachable!(),
        }
    }

    /// A copy of the name.
    pub(crate) fn copy(&self) -> Result<Name, AllocError>
        ensures ok { IfOk result (λ a. IsName a × (a ≡ self.now)) }
    {
        self.as_name().copy()
    }
}
