//! The numbers and the names of arms.
ghost use Rattle.std.specs.Prelude.{◌≡◌, ◌≤◌, false, suc, [], ◌∷◌, IfOk};
ghost use Rattle.action_names.specs.Names.{child_of};
ghost use Rattle.run_model.specs.Refusals.{arm_names, max_number};
ghost use Rattle.step_answers.specs.Arms.{uses_up};

use action_names::{Name, Names};
use run_model::ArmKind;
use std::alloc::{AllocError, Global};

const MAX_NUMBER: u64 = 4294967295;

/// Whether arms with children from one number on and top actions from another need a number that is used up.
pub fn uses_up(mut child: u64, mut top: u64, kinds: &[ArmKind]) -> bool
    requires child { child ≤ suc max_number }
    requires top { top ≤ suc max_number }
    ensures { result ≡ uses_up child top kinds.now }
{
    for kind in kinds {
        match kind {
            ArmKind::Sub if child > MAX_NUMBER => return true,
            ArmKind::Sub => child += 1,
            ArmKind::Top if top > MAX_NUMBER => return true,
            ArmKind::Top => top += 1,
        }
    }
    false
}

/// The top action with this number. From 1 on there is one, so `Err` comes only if memory runs out.
pub fn top_name(alloc: Global, number: u64) -> Result<Name, AllocError>
    requires { number ≤ max_number }
    ensures { IfOk result (λ name. name ≡ number ∷ []) }
{
    Name::top(alloc, number as u32).map_err(|_| AllocError)
}

/// The child with this number. From 1 on, and with room for a level more, `Err` comes only if memory runs out.
pub fn child_name(parent: &Name, number: u64) -> Result<Name, AllocError>
    requires { number ≤ max_number }
    ensures { IfOk result (λ name. name ≡ child_of parent.now number) }
{
    parent.child(number as u32).map_err(|_| AllocError)
}

/// The names of arms, with children from one number on and top actions from another.
pub fn arm_names(
    alloc: Global,
    parent: &Name,
    mut child: u64,
    mut top: u64,
    kinds: &[ArmKind],
) -> Result<Names, AllocError>
    requires { uses_up child top kinds.now ≡ false }
    ensures { IfOk result (λ names. names ≡ arm_names parent.now child top kinds.now) }
{
    let mut names = Names::new(alloc);
    for kind in kinds {
        match kind {
            ArmKind::Sub => {
                names.push(child_name(parent, child)?)?;
                child += 1;
            }
            ArmKind::Top => {
                names.push(top_name(alloc, top)?)?;
                top += 1;
            }
        }
    }
    Ok(names)
}
