//! Names by their numbers.
ghost use Rattle.std.specs.Prelude.{◌≡◌, [], ◌∷◌, ◌++◌, IfOk, IfSome};
ghost use Rattle.packed_history.specs.Answers.{begun_name};

use run_model::Name;
use std::alloc::{AllocError, Global};

/// An action that a step began: a top action, or a child of the action that the step names, by its last number.
#[derive(Clone, Copy)]
pub(crate) enum Begun {
    Top(u32),
    Child(u32),
}

impl Begun {
    /// The name as that of a top action, or of a child of the action with these numbers, if it is one.
    pub(crate) fn of(name: &Name, action: &[u32]) -> Option<Begun>
        ensures { IfSome result (λ begun. begun_name action.now begun ≡ name.now) }
    {
        match name.components() {
            [number] => Some(Begun::Top(*number)),
            [above @ .., number] if above == action => Some(Begun::Child(*number)),
            _ => None,
        }
    }

    /// Its name.
    pub(crate) fn name(self, alloc: Global, action: &[u32]) -> Result<Name, AllocError>
        ensures { IfOk result (λ name. name ≡ begun_name action.now self) }
    {
        match self {
            Begun::Top(number) => Ok(top(alloc, number)?),
            Begun::Child(number) => child(&name_of(alloc, action)?, number),
        }
    }
}

/// The name of these numbers, which are those of a name.
pub(crate) fn name_of(alloc: Global, numbers: &[u32]) -> Result<Name, AllocError>
    ensures { IfOk result (λ name. name ≡ numbers.now) }
{
    let [first, rest @ ..] = numbers else {
        return Err(AllocError);
    };
    let mut name = top(alloc, *first)?;
    for number in rest {
        name = child(&name, *number)?;
    }
    Ok(name)
}

fn top(alloc: Global, number: u32) -> Result<Name, AllocError>
    ensures { IfOk result (λ name. name ≡ number ∷ []) }
{
    Name::top(alloc, number).map_err(|_| AllocError)
}

fn child(name: &Name, number: u32) -> Result<Name, AllocError>
    ensures { IfOk result (λ child. child ≡ name.now ++ number ∷ []) }
{
    name.child(number).map_err(|_| AllocError)
}
