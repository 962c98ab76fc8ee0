ghost use Rattle.std.specs.Prelude.{◌≡◌, ◌<◌, ◌⊎◌, [], Err, IfErr, IfOk, IfSome, IsTrue, OnErr, OnOk};
ghost use Rattle.std.specs.Prelude.{Option, option_map, vec_capacity, vec_len};
ghost use Rattle.action_names.specs.Names.{Name};
ghost use Rattle.script_model.specs.Resolved.{IsResolved, is_resolved_client};
ghost use Rattle.activities.specs.Acting.{acting};
ghost use Rattle.activities.specs.Bodies.{IsOf};
ghost use Rattle.activities.specs.Ends.{AllCame, AreTried, ClientMade, IsTopAt, IsTopOrNothing};
ghost use Rattle.activities.specs.Ends.{end_of, ends_with, listed, top_of};
ghost use Rattle.activities.specs.Failing.{EndOrFail, IsCause, StepFails};
ghost use Rattle.activities.specs.Making.{ClientMakes, once_begun};
ghost use Rattle.activities.specs.Serial.{after, asked, begun_at, begun_by, client_ran, serial_run};
ghost use Rattle.run_model.specs.declared.step.Step.TheVariants.{Top};

use crate::activity::Activity;
use crate::activity_steps::ActivitySteps;
use crate::client::ClientEnd;
use crate::flow::Flow;
use crate::open_action::{OpenAction, Reached, begun_by};
use action_names::{Name, Names};
use frames::Frames;
use run_model::Step;
use script_model::{Checked, Client};
use std::alloc::Global;
use stepping::{Fault, MakesSteps};

/// Runs the clients of a script one after another, each to its end, and gives how they ended, in their order. The
/// arms of a `coenter` are begun together and run in order. An operation that would wait aborts the enclosing top
/// action.
///
/// `Err` comes if memory runs out, or if the store of a guardian fails. A client to which that happens aborts its
/// open actions, outwards, as far as that succeeds, and the others are run all the same; the lowest such client's
/// fault is answered.
pub fn run_serial<W: MakesSteps>(
    alloc: Global,
    world: &mut W,
    script: &Checked,
) -> Result<Vec<ClientEnd>, Fault>
    requires { IsResolved script.now }
    ensures ok { IfOk result (λ ends. record { world = W.run world.new; ends = ends.items }
        ≡ serial_run script.now (W.run world.old)) }
    ensures err { OnErr result (AreTried script.now.clients (W.run world.old) (W.run world.new)) }
    ensures fault { IfErr result (λ fault. (W.run world.new ≡ W.run world.old)
        ⊎ AllCame script.now.clients (W.run world.old) (W.run world.new) (Err fault)) }
    ensures failed { IfErr result (IsCause (StepFails W.leaves)) }
    ensures over { EndOrFail (Unit {0}) (StepFails W.leaves) []
        (W.run world.old) (W.run world.new) }
{
    let clients = script.clients.as_slice();
    let room = Vec::with_capacity(alloc, clients.len())?;
    let mut ends = Ok(room);
    for client in clients {
        ends = with_end(ends, run_client(alloc, world, script, client));
    }
    ends
}

/// The ends of clients and of the next one. Of several faults the lowest client's is answered.
fn with_end(
    ends: Result<Vec<ClientEnd>, Fault>,
    next: Result<ClientEnd, Fault>,
) -> Result<Vec<ClientEnd>, Fault>
    requires room { IfOk ends (λ ends. vec_len ends < vec_capacity ends) }
    ensures ends { listed result ≡ ends_with (listed ends) next }
    ensures room { IfOk result
        (λ all. IfOk ends (λ ends. vec_capacity all ≡ vec_capacity ends)) }
{
    let mut ends = ends?;
    ends.push_reserved(next?);
    Ok(ends)
}

/// Runs one client, and says how it ended. After an error its open actions have aborted as far as that succeeded.
pub fn run_client<W: ActivitySteps>(
    alloc: Global,
    world: &mut W,
    script: &Checked,
    client: &Client,
) -> Result<ClientEnd, Fault>
    requires script { IsOf W.scripts script.now }
    requires client { IsTrue (is_resolved_client script.now client.now) }
    ensures made { IfOk result
        (λ end. ClientMade client.now.home end (W.run world.old) (W.run world.new)) }
    ensures top { IfOk result
        (λ end. W.alone → IsTopAt client.now.home (W.run world.old) (top_of end)) }
    ensures ok { IfOk result (λ end. W.alone
        → (W.run world.new, end) ≡ client_ran script.now.handlers client.now (W.run world.old)) }
    ensures cut { OnErr result
        ((top : Option Name) × ClientMakes client.now.home top (W.run world.old) (W.run world.new)
        × (W.alone → IsTopOrNothing client.now.home (W.run world.old) top)) }
    ensures failed { IfErr result (IsCause W.fails) }
    ensures over { EndOrFail W.alone W.fails []
        (W.run world.old) (W.run world.new) }
{
    let Some(mut top) = begin_top(alloc, world, client.home)? else {
        return Ok(ClientEnd::Aborted { top: None });
    };
    let mut frames = Frames::new(alloc);
    let body = client.body.as_slice();
    let flow = Activity::new(alloc, script).run(world, &mut top, &mut frames, body)?;
    Ok(end_of(top.name.into_name(), flow))
}

/// Begins a client's top action at its home; none if that is refused. After an error nothing has begun.
fn begin_top<W: ActivitySteps>(
    alloc: Global,
    world: &mut W,
    home: u32,
) -> Result<Option<OpenAction>, Fault>
    ensures left { IfOk result (λ found. W.run world.new
        ≡ once_begun home (option_map (λ top. top.name) found) (W.run world.old)) }
    ensures top { IfOk result (λ found. W.alone
        → IsTopAt home (W.run world.old) (option_map (λ top. top.name) found)) }
    ensures after { OnOk result (W.alone → W.run world.new ≡ after (Top home) (W.run world.old)) }
    ensures begun { IfOk result (λ found. W.alone → option_map (λ top. top.name) found
        ≡ begun_by (asked (Top home) (W.run world.old))) }
    ensures acting { IfOk result
        (λ found. IfSome found (λ top. acting top ≡ begun_at home top.name)) }
    ensures failed { IfErr result (IsCause W.fails) }
    ensures err { OnErr result (W.run world.new ≡ W.run world.old) }
{
    let reached = Reached::new(alloc, home, Names::new(alloc))?;
    let answer = world.make_step(&Step::Top(home))?;
    let Some(name) = begun_by(answer) else {
        return Ok(None);
    };
    let top = OpenAction::new(name, home, reached);
    Ok(Some(top))
}

/// How a client ended, if its top action ended so.
fn end_of(top: Name, flow: Flow) -> ClientEnd
    ensures { result ≡ end_of top flow }
{
    match flow {
        Flow::Ended => ClientEnd::Committed { top, value: None },
        Flow::Returned(value) => ClientEnd::Committed { top, value },
        Flow::Aborted | Flow::Outwards(_) => ClientEnd::Aborted { top: Some(top) },
    }
}
