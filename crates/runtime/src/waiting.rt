//! When an operation that waits is answered, and when it sleeps.
ghost use Rattle.std.specs.Prelude.{◌≡◌};
ghost use Rattle.runtime.specs.Waiting.{sleeps, waits_for, waits_for_one};

use run_model::{Answer, Name};

/// Whether the operation waits, and for no action that one of these names has as an ancestor.
pub(crate) fn sleeps(answer: &Answer, starters: &[Name]) -> bool
    ensures { result ≡ sleeps answer.now starters.now }
{
    match answer {
        Answer::Waits(names) => !waits_for(names.as_slice(), starters),
        _ => false,
    }
}

/// Whether one of these names has one of the others as an ancestor.
fn waits_for(names: &[Name], starters: &[Name]) -> bool
    ensures { result ≡ waits_for names.now starters.now }
{
    names.iter().any(|name| waits_for_one(name, starters))
}

fn waits_for_one(name: &Name, starters: &[Name]) -> bool
    ensures { result ≡ waits_for_one name.now starters.now }
{
    starters.iter().any(|starter| name.is_ancestor(starter))
}
