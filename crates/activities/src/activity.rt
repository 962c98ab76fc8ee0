ghost use Rattle.std.specs.Prelude.{◌≡◌, ◌+◌, ◌≤◌, [], ◌∷◌, false, length, reverse, slice_get, IsTrue, IfErr, IfOk, IfSome, None};
ghost use Rattle.action_names.specs.Names.{Name, has_name};
ghost use Rattle.script_model.specs.Resolved.{asked, binding_is_bound, expr_is_bound, frames_after};
ghost use Rattle.activities.specs.Bodies.{AreArms, IsBody, IsCall, IsOf, IsStatement, SignalsFollow, SignalsHold, WhereEnded, Within, body_of, sizes};
ghost use Rattle.activities.specs.Failing.{EndBut, EndOrFail, IsCause};
ghost use Rattle.activities.specs.Making.{Makes, Tells};
ghost use Rattle.activities.specs.Ends.{commits, has_committed};
ghost use Rattle.activities.specs.Serial.{arms_run, budget, call_done, coenter_done, given_back, inner, nested_done, on_signal, repeated, returned, run, statement_done};
ghost use Rattle.activities.specs.Acting.{ComesSo, acting, doing, done};
ghost use Rattle.frames.specs.Operating.{given};
ghost use Rattle.activities.specs.declared.flow.Flow.TheVariants.{Aborted, Ended, Outwards};
ghost use Rattle.activities.specs.declared.flow.Reach.TheVariants.{TopAction};

use crate::activity_steps::ActivitySteps;
use crate::apart::{begun_arms, flow_of};
use crate::arms::{arm_body, begin_arms};
use crate::flow::{Flow, Reach};
use crate::open_action::{Called, OpenAction};
use crate::operations::{Outcome, perform};
use action_names::Name;
use atomic_types::Reply;
use frames::Frames;
use script_model::{Arm, Binding, Checked, Expr, HandlerCall, Statement};
use sqlite_items::Items;
use std::alloc::{AllocError, Global};
use stepping::Fault;
use values::Value;

/// How many statements and turns of `repeat` an activity may begin.
pub(crate) const BUDGET: u32 = 100_000;

/// A client under way.
#[derive(Drop)]
pub(crate) struct Activity<'s> {
    alloc: Global,
    script: &'s Checked,
    // statements and turns that it may still begin
    left: u32,
}

impl<'s> Activity<'s> {
    pub(crate) fn new(alloc: Global, script: &'s Checked) -> Activity<'s>
        ensures script { result.script.now ≡ script.now }
        ensures left { result.left ≡ budget }
    {
        Activity {
            alloc,
            script,
            left: BUDGET,
        }
    }

    /// Takes a statement or a turn from the budget; false where nothing is left.
    fn begin(&mut self) -> bool
        ensures left { IsTrue result → self.old.left ≡ self.new.left + 1 }
        ensures none { result ≡ false → (self.old.left ≡ 0) × (self.new.left ≡ 0) }
        ensures most { self.new.left ≤ self.old.left }
        ensures script { self.new.script.now ≡ self.old.script.now }
    {
        if self.left == 0 {
            return false;
        }
        self.left -= 1;
        true
    }

    /// Runs a body as the action and ends the action. After an error it aborts too.
    #[cycle(activity)]
    #[tactic(auto, using(crate::proofs::Making::steps))]
    pub(crate) fn run<W: ActivitySteps>(
        &mut self,
        world: &mut W,
        action: &mut OpenAction,
        frames: &mut Frames,
        body: &'s [Statement],
    ) -> Result<Flow, Fault>
        requires script { IsOf W.scripts self.old.script.now }
        requires body { IsBody self.old.script.now (sizes frames.old) body.now }
        ensures makes { Makes (action.old.name ∷ []) (action.old.name ∷ [])
            (W.run world.old) (W.run world.new) }
        ensures told { IfOk result
            (λ flow. Tells (commits flow) action.old.name (W.run world.old) (W.run world.new)) }
        ensures left { self.new.left ≤ self.old.left }
        ensures script { self.new.script.now ≡ self.old.script.now }
        ensures name { action.new.name ≡ action.old.name }
        ensures home { action.new.home ≡ action.old.home }
        ensures means { IfOk result (λ flow. W.alone → ComesSo self.old.script.now self.old.left
            (done (W.run world.new) self.new.left action.new frames.new flow)
            (λ go. run go (acting action.old) frames.old body.now
            (doing (W.run world.old) self.old.left action.old frames.old))) }
        ensures failed { IfErr result (IsCause W.fails) }
        ensures over { EndOrFail W.alone W.fails (action.old.name ∷ [])
            (W.run world.old) (W.run world.new) }
    {
        match self.body(world, action, frames, body) {
            Ok(flow) => action.end(world, flow),
            Err(fault) => {
                let _ = action.abort(world);
                Err(fault)
            }
        }
    }

    #[cycle(activity)]
    #[tactic(auto, using(crate::proofs::Making::turns))]
    pub(crate) fn body<W: ActivitySteps>(
        &mut self,
        world: &mut W,
        action: &mut OpenAction,
        frames: &mut Frames,
        body: &'s [Statement],
    ) -> Result<Flow, Fault>
        requires script { IsOf W.scripts self.old.script.now }
        requires body { IsBody self.old.script.now (sizes frames.old) body.now }
        ensures makes { Makes (action.old.name ∷ []) [] (W.run world.old) (W.run world.new) }
        ensures frames { IfOk result
            (λ flow. WhereEnded flow (Within (sizes frames.old) (sizes frames.new))) }
        ensures left { self.new.left ≤ self.old.left }
        ensures script { self.new.script.now ≡ self.old.script.now }
        ensures name { action.new.name ≡ action.old.name }
        ensures home { action.new.home ≡ action.old.home }
        ensures means { IfOk result (λ flow. W.alone → ComesSo self.old.script.now self.old.left
            (done (W.run world.new) self.new.left action.new frames.new flow)
            (λ go. go body.now (doing (W.run world.old) self.old.left action.old frames.old))) }
        ensures failed { IfErr result (IsCause W.fails) }
        ensures over { EndOrFail W.alone W.fails []
            (W.run world.old) (W.run world.new) }
    {
        for statement in body {
            if world.is_called_off() {
                return Ok(Flow::Outwards(Reach::Client));
            }
            if !self.begin() {
                return Ok(Flow::Outwards(Reach::Client));
            }
            let flow = self.statement(world, action, frames, statement)?;
            if !matches!(flow, Flow::Ended) {
                return Ok(flow);
            }
        }
        Ok(Flow::Ended)
    }

    /// A body within another: what it binds newly is forgotten at its end.
    #[cycle(activity)]
    #[tactic(auto, using(crate::proofs::Making::steps, crate::proofs::Following::cut_where_ended))]
    fn inner<W: ActivitySteps>(
        &mut self,
        world: &mut W,
        action: &mut OpenAction,
        frames: &mut Frames,
        body: &'s [Statement],
    ) -> Result<Flow, Fault>
        requires script { IsOf W.scripts self.old.script.now }
        requires body { IsBody self.old.script.now (sizes frames.old) body.now }
        ensures makes { Makes (action.old.name ∷ []) [] (W.run world.old) (W.run world.new) }
        ensures frames { IfOk result
            (λ flow. WhereEnded flow (sizes frames.new ≡ sizes frames.old)) }
        ensures left { self.new.left ≤ self.old.left }
        ensures script { self.new.script.now ≡ self.old.script.now }
        ensures name { action.new.name ≡ action.old.name }
        ensures home { action.new.home ≡ action.old.home }
        ensures means { IfOk result (λ flow. W.alone → ComesSo self.old.script.now self.old.left
            (done (W.run world.new) self.new.left action.new frames.new flow)
            (λ go. inner go body.now
            (doing (W.run world.old) self.old.left action.old frames.old))) }
        ensures failed { IfErr result (IsCause W.fails) }
        ensures over { EndOrFail W.alone W.fails []
            (W.run world.old) (W.run world.new) }
    {
        let sizes = frames.sizes();
        let flow = self.body(world, action, frames, body)?;
        frames.cut_to(sizes);
        Ok(flow)
    }

    #[cycle(activity)]
    #[tactic(auto, using(crate::proofs::Making::steps, crate::proofs::Resolving::statements))]
    fn statement<W: ActivitySteps>(
        &mut self,
        world: &mut W,
        action: &mut OpenAction,
        frames: &mut Frames,
        statement: &'s Statement,
    ) -> Result<Flow, Fault>
        requires script { IsOf W.scripts self.old.script.now }
        requires statement { IsStatement self.old.script.now (sizes frames.old) statement.now }
        ensures makes { Makes (action.old.name ∷ []) [] (W.run world.old) (W.run world.new) }
        ensures frames { IfOk result (λ flow.
            WhereEnded flow (sizes frames.new ≡ (asked statement.now).after (sizes frames.old))) }
        ensures left { self.new.left ≤ self.old.left }
        ensures script { self.new.script.now ≡ self.old.script.now }
        ensures name { action.new.name ≡ action.old.name }
        ensures home { action.new.home ≡ action.old.home }
        ensures means { IfOk result (λ flow. W.alone → ComesSo self.old.script.now self.old.left
            (done (W.run world.new) self.new.left action.new frames.new flow)
            (λ go. statement_done self.old.script.now.handlers go statement.now
            (doing (W.run world.old) self.old.left action.old frames.old))) }
        ensures failed { IfErr result (IsCause W.fails) }
        ensures over { EndOrFail W.alone W.fails []
            (W.run world.old) (W.run world.new) }
    {
        match statement {
            Statement::Op(call, signals) => match perform(world, action, frames, call)? {
                Outcome::Granted => Ok(Flow::Ended),
                Outcome::Signalled => self.run_signals(world, action, frames, signals),
                Outcome::Refused => Ok(Flow::Aborted),
                Outcome::Waits => Ok(wait()),
            },
            Statement::Call(call, signals) => self.call(world, action, frames, call, signals),
            Statement::Coenter(arms) => self.coenter(world, action, frames, arms.as_slice()),
            Statement::TopAction(body, signals) => {
                self.top_action(world, action, frames, body.as_slice(), signals.as_slice())
            }
            Statement::If(condition, first, second) => match frames.holds(condition) {
                Some(true) => self.inner(world, action, frames, first.as_slice()),
                Some(false) => self.inner(world, action, frames, second.as_slice()),
                None => Ok(Flow::Aborted),
            },
            Statement::Repeat(turns, body) => {
                self.repeat(world, action, frames, *turns, body.as_slice())
            }
            Statement::Abort => Ok(Flow::Aborted),
            Statement::Return(expr) => Ok(returned(frames, expr)?),
        }
    }

    /// What a statement does where it signals: its body for that, without which the innermost action aborts.
    #[cycle(activity)]
    #[tactic(auto, using(crate::proofs::Making::turns))]
    fn run_signals<W: ActivitySteps>(
        &mut self,
        world: &mut W,
        action: &mut OpenAction,
        frames: &mut Frames,
        signals: &'s Option<Items<Statement>>,
    ) -> Result<Flow, Fault>
        requires script { IsOf W.scripts self.old.script.now }
        requires signals { SignalsHold self.old.script.now (sizes frames.old) signals.now }
        ensures makes { Makes (action.old.name ∷ []) [] (W.run world.old) (W.run world.new) }
        ensures frames { IfOk result
            (λ flow. WhereEnded flow (sizes frames.new ≡ sizes frames.old)) }
        ensures unheard { signals.now ≡ None → IfOk result (λ flow. flow ≡ Aborted) }
        ensures left { self.new.left ≤ self.old.left }
        ensures script { self.new.script.now ≡ self.old.script.now }
        ensures name { action.new.name ≡ action.old.name }
        ensures home { action.new.home ≡ action.old.home }
        ensures means { IfOk result (λ flow. W.alone → ComesSo self.old.script.now self.old.left
            (done (W.run world.new) self.new.left action.new frames.new flow)
            (λ go. on_signal go signals.now
            (doing (W.run world.old) self.old.left action.old frames.old))) }
        ensures failed { IfErr result (IsCause W.fails) }
        ensures over { EndOrFail W.alone W.fails []
            (W.run world.old) (W.run world.new) }
    {
        match signals {
            Some(body) => self.inner(world, action, frames, body.as_slice()),
            None => Ok(Flow::Aborted),
        }
    }

    #[cycle(activity)]
    #[tactic(auto, using(crate::proofs::Making::turns))]
    fn repeat<W: ActivitySteps>(
        &mut self,
        world: &mut W,
        action: &mut OpenAction,
        frames: &mut Frames,
        turns: u32,
        body: &'s [Statement],
    ) -> Result<Flow, Fault>
        requires script { IsOf W.scripts self.old.script.now }
        requires body { IsBody self.old.script.now (sizes frames.old) body.now }
        ensures makes { Makes (action.old.name ∷ []) [] (W.run world.old) (W.run world.new) }
        ensures frames { IfOk result
            (λ flow. WhereEnded flow (sizes frames.new ≡ sizes frames.old)) }
        ensures left { self.new.left ≤ self.old.left }
        ensures script { self.new.script.now ≡ self.old.script.now }
        ensures name { action.new.name ≡ action.old.name }
        ensures home { action.new.home ≡ action.old.home }
        ensures means { IfOk result (λ flow. W.alone → ComesSo self.old.script.now self.old.left
            (done (W.run world.new) self.new.left action.new frames.new flow)
            (λ go. repeated go turns body.now
            (doing (W.run world.old) self.old.left action.old frames.old))) }
        ensures failed { IfErr result (IsCause W.fails) }
        ensures over { EndOrFail W.alone W.fails []
            (W.run world.old) (W.run world.new) }
    {
        for _ in 0..turns {
            if !self.begin() {
                return Ok(Flow::Outwards(Reach::Client));
            }
            let flow = self.inner(world, action, frames, body)?;
            if !matches!(flow, Flow::Ended) {
                return Ok(flow);
            }
        }
        Ok(Flow::Ended)
    }

    /// A handler call: the handler's body as a subaction at its guardian.
    #[cycle(activity)]
    #[tactic(auto, using(crate::proofs::Making::children))]
    fn call<W: ActivitySteps>(
        &mut self,
        world: &mut W,
        action: &mut OpenAction,
        frames: &mut Frames,
        call: &HandlerCall,
        signals: &'s Option<Items<Statement>>,
    ) -> Result<Flow, Fault>
        requires script { IsOf W.scripts self.old.script.now }
        requires call { IsCall self.old.script.now (sizes frames.old) call.now }
        requires signals { SignalsFollow self.old.script.now (sizes frames.old)
            call.now.binding signals.now }
        ensures makes { Makes (action.old.name ∷ []) [] (W.run world.old) (W.run world.new) }
        ensures frames { IfOk result (λ flow.
            WhereEnded flow (sizes frames.new ≡ frames_after (sizes frames.old) call.now.binding)) }
        ensures left { self.new.left ≤ self.old.left }
        ensures script { self.new.script.now ≡ self.old.script.now }
        ensures name { action.new.name ≡ action.old.name }
        ensures home { action.new.home ≡ action.old.home }
        ensures means { IfOk result (λ flow. W.alone → ComesSo self.old.script.now self.old.left
            (done (W.run world.new) self.new.left action.new frames.new flow)
            (λ go. call_done go (slice_get self.old.script.now.handlers call.now.handler) call.now
            signals.now (given frames.old call.now)
            (doing (W.run world.old) self.old.left action.old frames.old))) }
        ensures failed { IfErr result (IsCause W.fails) }
        ensures over { EndOrFail W.alone W.fails []
            (W.run world.old) (W.run world.new) }
    {
        let script = self.script;
        let handler = &script.handlers.as_slice()[call.handler as usize];
        let Some(mut inside) = frames.arguments(self.alloc, call)? else {
            return Ok(Flow::Aborted);
        };
        let reached = action.reached_by_call(self.alloc, handler.guardian)?;
        let name = match action.begin_call(world, handler.guardian)? {
            Called::Began(name) => name,
            Called::Signalled => return self.run_signals(world, action, frames, signals),
            Called::Refused => return Ok(Flow::Aborted),
        };
        let mut child = OpenAction::new(name, handler.guardian, reached);
        let ended = self.run(world, &mut child, &mut inside, handler.body.as_slice());
        let taken = action.take_in(&child, has_committed(&ended));
        let flow = ended?;
        taken?;
        match flow {
            Flow::Ended => Ok(bind_value(frames, call.binding, None)?),
            Flow::Returned(value) => Ok(bind_value(frames, call.binding, value)?),
            Flow::Aborted => self.run_signals(world, action, frames, signals),
            Flow::Outwards(reach) => Ok(Flow::Outwards(reach)),
        }
    }

    /// A nested top action, over a copy of the variables; where it aborts, the statement's body for that runs.
    #[cycle(activity)]
    #[tactic(auto, using(crate::proofs::Making::children))]
    fn top_action<W: ActivitySteps>(
        &mut self,
        world: &mut W,
        action: &mut OpenAction,
        frames: &mut Frames,
        body: &'s [Statement],
        signals: &'s [Statement],
    ) -> Result<Flow, Fault>
        requires script { IsOf W.scripts self.old.script.now }
        requires body { IsBody self.old.script.now (sizes frames.old) body.now }
        requires signals { IsBody self.old.script.now (sizes frames.old) signals.now }
        ensures makes { Makes (action.old.name ∷ []) [] (W.run world.old) (W.run world.new) }
        ensures frames { IfOk result
            (λ flow. WhereEnded flow (sizes frames.new ≡ sizes frames.old)) }
        ensures left { self.new.left ≤ self.old.left }
        ensures script { self.new.script.now ≡ self.old.script.now }
        ensures name { action.new.name ≡ action.old.name }
        ensures home { action.new.home ≡ action.old.home }
        ensures means { IfOk result (λ flow. W.alone → ComesSo self.old.script.now self.old.left
            (done (W.run world.new) self.new.left action.new frames.new flow)
            (λ go. nested_done go body.now signals.now
            (doing (W.run world.old) self.old.left action.old frames.old))) }
        ensures failed { IfErr result (IsCause W.fails) }
        ensures over { EndOrFail W.alone W.fails []
            (W.run world.old) (W.run world.new) }
    {
        let mut inside = frames.copy()?;
        let reached = action.reached_by_nested(self.alloc)?;
        let Some(name) = action.begin_nested(world)? else {
            return Ok(Flow::Aborted);
        };
        let mut nested = OpenAction::new(name, action.home, reached);
        match self.run(world, &mut nested, &mut inside, body)? {
            Flow::Aborted => self.inner(world, action, frames, signals),
            flow => Ok(flow),
        }
    }

    /// Arms are begun together; where one returns or is left, those that have not run are aborted.
    #[cycle(activity)]
    #[tactic(auto, using(crate::proofs::Making::together))]
    fn coenter<W: ActivitySteps>(
        &mut self,
        world: &mut W,
        action: &mut OpenAction,
        frames: &mut Frames,
        arms: &'s [Arm],
    ) -> Result<Flow, Fault>
        requires script { IsOf W.scripts self.old.script.now }
        requires arms { AreArms self.old.script.now (sizes frames.old) arms.now }
        ensures makes { Makes (action.old.name ∷ []) [] (W.run world.old) (W.run world.new) }
        ensures frames { IfOk result
            (λ flow. WhereEnded flow (sizes frames.new ≡ sizes frames.old)) }
        ensures left { self.new.left ≤ self.old.left }
        ensures script { self.new.script.now ≡ self.old.script.now }
        ensures name { action.new.name ≡ action.old.name }
        ensures home { action.new.home ≡ action.old.home }
        ensures means { IfOk result (λ flow. W.alone → ComesSo self.old.script.now self.old.left
            (done (W.run world.new) self.new.left action.new frames.new flow)
            (λ go. coenter_done go arms.now
            (doing (W.run world.old) self.old.left action.old frames.old))) }
        ensures failed { IfErr result (IsCause W.fails) }
        ensures over { EndOrFail W.alone W.fails []
            (W.run world.old) (W.run world.new) }
    {
        let Some(mut waiting) = begin_arms(self.alloc, world, action, arms)? else {
            return Ok(Flow::Aborted);
        };
        let ran = self.arms(world, action, frames, arms, &mut waiting);
        let aborted = action.abort_arms(world, waiting);
        let flow = ran?;
        aborted?;
        Ok(flow)
    }

    /// Runs the arms, apart where that is how arms run, and else in order.
    #[cycle(activity)]
    #[tactic(auto, using(crate::proofs::Making::turns))]
    fn arms<W: ActivitySteps>(
        &mut self,
        world: &mut W,
        action: &mut OpenAction,
        frames: &mut Frames,
        arms: &'s [Arm],
        waiting: &mut Vec<Name>,
    ) -> Result<Flow, Fault>
        requires script { IsOf W.scripts self.old.script.now }
        requires arms { AreArms self.old.script.now (sizes frames.old) arms.now }
        requires each { length waiting.old.items ≡ length arms.now }
        ensures makes { Makes waiting.old.items waiting.old.items
            (W.run world.old) (W.run world.new) }
        ensures rest { (a : Name) → IsTrue (has_name waiting.new.items a)
            → IsTrue (has_name waiting.old.items a) }
        ensures ran { IfOk result (λ flow. flow ≡ Ended → waiting.new.items ≡ []) }
        ensures frames { sizes frames.new ≡ sizes frames.old }
        ensures left { self.new.left ≤ self.old.left }
        ensures script { self.new.script.now ≡ self.old.script.now }
        ensures name { action.new.name ≡ action.old.name }
        ensures home { action.new.home ≡ action.old.home }
        ensures means { IfOk result (λ flow. W.alone → ComesSo self.old.script.now self.old.left
            (done (W.run world.new) self.new.left action.new frames.new flow, reverse waiting.new.items)
            (λ go. arms_run go arms.now (reverse waiting.old.items)
            (doing (W.run world.old) self.old.left action.old frames.old))) }
        ensures failed { IfErr result (IsCause W.fails) }
        ensures over { EndBut W.alone W.fails waiting.old.items waiting.new.items
            (W.run world.old) (W.run world.new) }
    {
        if !world.has_arms_apart() {
            return self.run_arms(world, action, frames, arms, waiting);
        }
        let begun = begun_arms(self.alloc, action, frames, arms, waiting)?;
        let ended = world.run_arms(begun)?;
        let count = ended.len();
        waiting.truncate(waiting.len() - count);
        let (_, rest) = arms.split_at(count);
        match flow_of(action, ended)? {
            Flow::Ended => self.run_arms(world, action, frames, rest, waiting),
            flow => Ok(flow),
        }
    }

    /// Runs the arms in order, to the first that returns or is left. Each is over a copy of the variables. Of the
    /// names that are waiting the last is that of the next arm.
    #[cycle(activity)]
    #[tactic(auto, using(crate::proofs::Making::turns))]
    fn run_arms<W: ActivitySteps>(
        &mut self,
        world: &mut W,
        action: &mut OpenAction,
        frames: &mut Frames,
        arms: &'s [Arm],
        waiting: &mut Vec<Name>,
    ) -> Result<Flow, Fault>
        requires script { IsOf W.scripts self.old.script.now }
        requires arms { AreArms self.old.script.now (sizes frames.old) arms.now }
        requires each { length waiting.old.items ≡ length arms.now }
        ensures makes { Makes waiting.old.items waiting.old.items
            (W.run world.old) (W.run world.new) }
        ensures rest { (a : Name) → IsTrue (has_name waiting.new.items a)
            → IsTrue (has_name waiting.old.items a) }
        ensures ran { IfOk result (λ flow. flow ≡ Ended → waiting.new.items ≡ []) }
        ensures frames { sizes frames.new ≡ sizes frames.old }
        ensures left { self.new.left ≤ self.old.left }
        ensures script { self.new.script.now ≡ self.old.script.now }
        ensures name { action.new.name ≡ action.old.name }
        ensures home { action.new.home ≡ action.old.home }
        ensures means { IfOk result (λ flow. W.alone → ComesSo self.old.script.now self.old.left
            (done (W.run world.new) self.new.left action.new frames.new flow, reverse waiting.new.items)
            (λ go. arms_run go arms.now (reverse waiting.old.items)
            (doing (W.run world.old) self.old.left action.old frames.old))) }
        ensures failed { IfErr result (IsCause W.fails) }
        ensures over { EndBut W.alone W.fails waiting.old.items waiting.new.items
            (W.run world.old) (W.run world.new) }
    {
        for arm in arms {
            let mut inside = frames.copy()?;
            let reached = action.reached_by_arm(self.alloc, arm)?;
            let mut child = OpenAction::new(waiting.pop().unwrap(), action.home, reached);
            let ended = self.run(world, &mut child, &mut inside, arm_body(arm));
            let taken = match arm {
                Arm::Sub(_) => action.take_in(&child, has_committed(&ended)),
                Arm::Top(_) => Ok(()),
            };
            let flow = ended?;
            taken?;
            if !matches!(flow, Flow::Ended | Flow::Aborted) {
                return Ok(flow);
            }
        }
        Ok(Flow::Ended)
    }
}

/// What comes of an operation that has to wait: nothing else runs meanwhile, so the enclosing top action aborts.
fn wait() -> Flow
    ensures { result ≡ Outwards TopAction }
{
    Flow::Outwards(Reach::TopAction)
}

/// How a body ends that returns: with the value, if the statement names one. A sum or a difference out of 64 bits
/// aborts.
fn returned(frames: &Frames, expr: &Option<Expr>) -> Result<Flow, AllocError>
    requires { IfSome expr.now (λ expr. IsTrue (expr_is_bound (sizes frames.now) expr)) }
    ensures { IfOk result (λ flow. flow ≡ returned frames.now expr.now) }
{
    let Some(expr) = expr else {
        return Ok(Flow::Returned(None));
    };
    match frames.value(expr)? {
        Some(value) => Ok(Flow::Returned(Some(value))),
        None => Ok(Flow::Aborted),
    }
}

/// Binds what a handler gave back, a value if it gave one. Where that does not fit the binding, the innermost action
/// aborts.
#[tactic(auto, using(frames::proofs::Counting::sizes_after, crate::proofs::Meaning::values_back))]
fn bind_value(
    frames: &mut Frames,
    binding: Binding,
    value: Option<Value>,
) -> Result<Flow, AllocError>
    requires { IsTrue (binding_is_bound (sizes frames.old) binding) }
    ensures sizes { IfOk result
        (λ flow. WhereEnded flow (sizes frames.new ≡ frames_after (sizes frames.old) binding)) }
    ensures means { IfOk result (λ flow. (flow, frames.new) ≡ given_back frames.old binding value) }
{
    let reply = match value {
        Some(value) => Reply::Gives(value),
        None => Reply::Done,
    };
    if frames.bind(binding, reply)? {
        Ok(Flow::Ended)
    } else {
        Ok(Flow::Aborted)
    }
}

/// Whether an action that came to this end committed.
pub(crate) fn has_committed(ended: &Result<Flow, Fault>) -> bool
    ensures { result ≡ has_committed ended.now }
{
    matches!(ended, Ok(Flow::Ended) | Ok(Flow::Returned(_)))
}
