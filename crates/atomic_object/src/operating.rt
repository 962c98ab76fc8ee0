//! Operations on an object.
ghost use Rattle.std.specs.Prelude.{◌≡◌, pos, IsTrue, IsFalse, IfNone, IfOk, IfSome, OnOk, OnErr, if◌then◌else◌};
ghost use Rattle.action_names.specs.Names.{Name, has_name, is_ancestor};
ghost use Rattle.values.specs.declared.content.Content.{Content};
ghost use Rattle.values.specs.declared.value.Value.TheVariants.{Int};
ghost use Rattle.atomic_types.specs.declared.operation.Operation.TheVariants.{Add};
ghost use Rattle.atomic_types.specs.Objects.{knows, reply_of, content_after};
ghost use Rattle.atomic_types.specs.Operations.{class_of, is_read, is_write, is_add};
ghost use Rattle.run_model.specs.declared.answer.Answer.TheVariants.{Granted, Waits};
ghost use Rattle.atomic_types.specs.declared.op.Reply.{Reply};
ghost use Rattle.run_model.specs.Answers.{operated_by};
ghost use Rattle.run_model.specs.Keeping.{Standing};
ghost use Rattle.object_model.specs.Stacks.{AreAbove, is_on_top, owners_of, top_of};
ghost use Rattle.object_model.specs.Locks.{must_wait, revoked};
ghost use Rattle.object_model.specs.Objects.{AddsBy, IsOperated, NamesRise, amount_of, owns, total_of};
ghost use Rattle.object_laws.specs.Shown.{Shows};
ghost use Rattle.atomic_object.specs.Kept.{number_in, replied, seen, KeepsOthersRows};
ghost use Rattle.atomic_object.specs.Ways.{IsShown, Operates};

use crate::object::Object;
use action_names::Name;
use atomic_types::{Class, Op, Reply};
use run_model::{Answer, Names};
use std::alloc::AllocError;
use values::Value;

impl Object {
    /// Keeps an operation of an action that waits for nobody, so that it is granted; what it is answered, `answer`
    /// says. If memory runs out, what is held of the object stays.
    pub fn grant(&mut self, action: &Name, op: &Op) -> Result<(), AllocError>
        requires named { IsTrue (is_ancestor action.now action.now) }
        requires shown { IsShown (seen self.old) }
        requires known { IsTrue (knows (seen self.old).stack.base op.now) }
        requires free { IsFalse (must_wait (seen self.old).locks action.now (class_of op.now)) }
        ensures operates { OnOk result
            ((r : Reply) → Operates action.now op.now (Granted r) (seen self.old) (seen self.new)) }
        ensures rows { KeepsOthersRows self.old self.new action.now }
        ensures err { OnErr result (seen self.new ≡ seen self.old) }
    {
        self.granted(action, op)
    }

    /// What the operation of an action would be answered, with nothing changed. Fails only if memory runs out.
    pub fn answer(&self, action: &Name, op: &Op) -> Result<Answer, AllocError>
        requires named { IsTrue (is_ancestor action.now action.now) }
        requires shown { IsShown (seen self.now) }
        requires known { IsTrue (knows (seen self.now).stack.base op.now) }
        ensures { IfOk result (λ answer. (c : Content) (s : Standing) → Shows c s (seen self.now)
            → answer ≡ operated_by c s action.now op.now) }
    {
        match self.waited_for(action, op)? {
            Some(names) => Ok(Answer::Waits(names)),
            None => Ok(Answer::Granted(self.reply(op)?)),
        }
    }

    // For whom the operation has to wait, if for anybody.
    fn waited_for(&self, action: &Name, op: &Op) -> Result<Option<Names>, AllocError>
        ensures waits { IfOk result (λ waited. IfSome waited (λ names. (c : Content) (s : Standing)
            → Shows c s (seen self.now) → Waits names ≡ operated_by c s action.now op.now)) }
        ensures free { IfOk result (λ waited. IfNone waited
            (IsFalse (must_wait (seen self.now).locks action.now (class_of op.now)))) }
    {
        if self.locks.must_wait(action, op.class()) {
            let names = self.locks.blockers(action, op.class())?;
            return Ok(Some(Names::from_vec(names)));
        }
        Ok(None)
    }

    // The reply to an operation for which nobody is waited for, with nothing changed.
    fn reply(&self, op: &Op) -> Result<Reply, AllocError>
        requires { IsTrue (knows (top_of (seen self.now).stack) op.now) }
        ensures { IfOk result (λ r. r ≡ replied (seen self.now) op.now) }
    {
        match op.class() {
            Class::Read => self.read_total(op),
            Class::Write | Class::Add => self.versions.top().reply(op),
        }
    }

    // Keeps an operation for which nobody is waited for.
    fn granted(&mut self, action: &Name, op: &Op) -> Result<(), AllocError>
        requires above { IsFalse (is_read op.now)
            → AreAbove (seen self.old).stack.versions action.now }
        requires owned { IsTrue (is_add op.now) → IsTrue (owns (seen self.old) action.now)
            → IsTrue (is_on_top (owners_of (seen self.old).stack.versions) action.now) }
        requires known { IsTrue (knows (top_of (seen self.old).stack) op.now) }
        requires rising { NamesRise (seen self.old).deltas }
        ensures ok { OnOk result (IsOperated action.now op.now (seen self.old) (seen self.new)) }
        ensures rows { KeepsOthersRows self.old self.new action.now }
        ensures err { OnErr result (seen self.new ≡ seen self.old) }
    {
        match op.class() {
            Class::Read => self.read(action, op),
            Class::Write => self.write(action, op),
            Class::Add => self.add(action, op),
        }
    }

    // A read, which leaves its lock alone.
    fn read(&mut self, action: &Name, op: &Op) -> Result<(), AllocError>
        requires reads { IsTrue (is_read op.now) }
        requires rising { NamesRise (seen self.old).deltas }
        ensures ok { OnOk result (IsOperated action.now op.now (seen self.old) (seen self.new)) }
        ensures rows { KeepsOthersRows self.old self.new action.now }
        ensures err { OnErr result (seen self.new ≡ seen self.old) }
    {
        self.locks.grant(action, Class::Read)?;
        Ok(())
    }

    // The reply of the content on top, with what is added beside it.
    fn read_total(&self, op: &Op) -> Result<Reply, AllocError>
        requires known { IsTrue (knows (top_of (seen self.now).stack) op.now) }
        requires reads { IsTrue (is_read op.now) }
        ensures { IfOk result (λ r. r ≡ reply_of (total_of (seen self.now)) op.now) }
    {
        let reply = self.versions.top().read(op)?;
        let beside = self.deltas.sum_beside(self.versions.top_owner());
        Ok(with_sum(reply, op, beside))
    }

    // A write on top, which leaves nothing of what the action added.
    fn write(&mut self, action: &Name, op: &Op) -> Result<(), AllocError>
        requires above { AreAbove (seen self.old).stack.versions action.now }
        requires known { IsTrue (knows (top_of (seen self.old).stack) op.now) }
        requires writes { IsTrue (is_write op.now) }
        ensures ok { OnOk result (IsOperated action.now op.now (seen self.old) (seen self.new)) }
        ensures rows { KeepsOthersRows self.old self.new action.now }
        ensures err { OnErr result (seen self.new ≡ seen self.old) }
    {
        let is_new = self.locks.grant(action, Class::Write)?;
        if let Err(refused) = self.versions.write(action, op) {
            self.take_back(action, Class::Write, is_new);
            return Err(refused);
        }
        self.deltas.take(action);
        Ok(())
    }

    // An add to the action's version, or else to its delta.
    fn add(&mut self, action: &Name, op: &Op) -> Result<(), AllocError>
        requires above { AreAbove (seen self.old).stack.versions action.now }
        requires owned { IsTrue (owns (seen self.old) action.now)
            → IsTrue (is_on_top (owners_of (seen self.old).stack.versions) action.now) }
        requires known { IsTrue (knows (top_of (seen self.old).stack) op.now) }
        requires adds { IsTrue (is_add op.now) }
        requires rising { NamesRise (seen self.old).deltas }
        ensures ok { OnOk result (IsOperated action.now op.now (seen self.old) (seen self.new)) }
        ensures rows { KeepsOthersRows self.old self.new action.now }
        ensures err { OnErr result (seen self.new ≡ seen self.old) }
    {
        let is_new = self.locks.grant(action, Class::Add)?;
        let added = self.add_up(action, op);
        if added.is_err() {
            self.take_back(action, Class::Add, is_new);
        }
        added
    }

    // Adds to the action's version, or else to its delta.
    fn add_up(&mut self, action: &Name, op: &Op) -> Result<(), AllocError>
        requires above { AreAbove (seen self.old).stack.versions action.now }
        requires owned { IsTrue (owns (seen self.old) action.now)
            → IsTrue (is_on_top (owners_of (seen self.old).stack.versions) action.now) }
        requires known { IsTrue (knows (top_of (seen self.old).stack) op.now) }
        requires adds { IsTrue (is_add op.now) }
        requires rising { NamesRise (seen self.old).deltas }
        ensures ok { OnOk result (AddsBy (owns (seen self.old) action.now) (seen self.old)
            (seen self.new) action.now op.now) }
        ensures rising { OnOk result (NamesRise (seen self.new).deltas) }
        ensures rows { (b : Name) → IsTrue (has_name self.old.deltas.room b)
            → IsTrue (has_name self.new.deltas.room b) }
        ensures locks { self.new.locks ≡ self.old.locks }
        ensures err { OnErr result (seen self.new ≡ seen self.old) }
    {
        if self.owns(action) {
            self.versions.write(action, op)?;
            return Ok(());
        }
        self.deltas.add(action, amount_of(op))
    }

    // Takes a lock back that was given for an operation which then failed.
    fn take_back(&mut self, action: &Name, class: Class, is_new: bool)
        ensures stack { self.new.stack ≡ self.old.stack }
        ensures deltas { self.new.deltas ≡ self.old.deltas }
        ensures locks { self.new.locks.locks ≡ (if is_new
            then revoked self.old.locks.locks action.now class else self.old.locks.locks) }
        ensures rows { KeepsOthersRows self.old self.new action.now }
    {
        if is_new {
            self.locks.revoke(action, class);
        }
    }
}

/// The reply to a read once so much is added to what answered it.
fn with_sum(reply: Reply, op: &Op, sum: i64) -> Reply
    ensures added { (c : Content) → reply ≡ reply_of c op.now → IsTrue (knows c op.now)
        → IsTrue (is_read op.now) → result ≡ reply_of (content_after c (Add (Int sum))) op.now }
    ensures none { sum ≡ pos 0 → result ≡ reply }
{
    match number_in(&reply) {
        Some(number) if matches!(op, Op::Total) => {
            Reply::Gives(Value::Int(number.wrapping_add(sum)))
        }
        _ => reply,
    }
}

/// The number that a reply gives, if it gives one.
fn number_in(reply: &Reply) -> Option<i64>
    ensures { result ≡ number_in reply.now }
{
    match reply {
        Reply::Gives(Value::Int(number)) => Some(*number),
        _ => None,
    }
}

/// How much an operation adds.
fn amount_of(op: &Op) -> i64
    ensures { result ≡ amount_of op.now }
{
    match op {
        Op::Add(Value::Int(by)) => *by,
        _ => 0,
    }
}
