//! What the answer of a step gives.
ghost use Rattle.std.specs.Prelude.{◌≡◌, ◌∷◌, [], Bool, List, ℕ};
ghost use Rattle.action_names.specs.Names.{Name};
ghost use Rattle.atomic_types.specs.declared.op.Reply.{Reply};
ghost use Rattle.service.specs.Calling.{BeganOne, BeganThese, IsReply, IsTaken, IsVote, Told};

use crate::fault::CallFault;
use action_names::{Name, Names};
use atomic_types::Reply;
use layer_contracts::Fault;
use run_model::Answer;

/// The answer of a step that happened. Else the error tells why it did not.
pub(crate) fn taken(made: Result<Answer, Fault>) -> Result<Answer, CallFault>
    ensures { IsTaken made result }
{
    match made? {
        Answer::Refused(why) => Err(CallFault::Refused(why)),
        Answer::Waits(names) => Err(CallFault::Waits(names)),
        answer => Ok(answer),
    }
}

/// The one action that began.
pub(crate) fn began_one(answer: Answer) -> Name
    requires { (name : Name) × BeganOne name answer }
    ensures { BeganOne result answer }
{
    match answer {
        Answer::Began(names) => only(names),
        _ => unreachable!(),
    }
}

/// The one name of the list.
fn only(names: Names) -> Name
    requires { (name : Name) × (names ≡ name ∷ []) }
    ensures { names ≡ result ∷ [] }
{
    match names.into_vec().pop() {
        Some(name) => name,
        None => unreachable!(),
    }
}

/// The actions that began.
pub(crate) fn began_these(answer: Answer) -> Names
    requires { (names : List Name) × BeganThese names answer }
    ensures { BeganThese result answer }
{
    match answer {
        Answer::Began(names) => names,
        _ => unreachable!(),
    }
}

/// The reply of an operation that was granted.
pub(crate) fn reply(answer: Answer) -> Reply
    requires { (reply : Reply) × IsReply reply answer }
    ensures { IsReply result answer }
{
    match answer {
        Answer::Granted(reply) => reply,
        _ => unreachable!(),
    }
}

/// Whether a guardian voted yes.
pub(crate) fn vote(answer: &Answer) -> bool
    requires { (yes : Bool) × IsVote yes answer.now }
    ensures { IsVote result answer.now }
{
    match answer {
        Answer::VoteYes => true,
        Answer::VoteNo => false,
        _ => unreachable!(),
    }
}

/// How many objects a telling changed.
pub(crate) fn told(answer: &Answer) -> u64
    requires { (count : ℕ) × Told count answer.now }
    ensures { Told result answer.now }
{
    match answer {
        Answer::Done(count) => *count,
        _ => unreachable!(),
    }
}
