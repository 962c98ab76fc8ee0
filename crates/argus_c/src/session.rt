//! A world over stores in memory, the answer of its last step, and which stores its caller has to keep.
ghost use Rattle.std.specs.Prelude.{◌≡◌, ◌≢◌, ◌⊎◌, List, ℕ, Err, IfErr, IfOk, IfSome, IfNone, IsErrOf, string_bytes};
ghost use Rattle.argus_c.specs.declared.codes.Code.TheVariants as code;
ghost use Rattle.argus_c.specs.declared.reading.Unread.TheVariants as unread;
ghost use Rattle.run_model.specs.declared.setup.SetupFault.TheVariants as fault;
ghost use Rattle.argus_c.specs.Sessions.{IsAnswerText, IsBaseText, IsMade, IsMadeOf, IsNoSetup, IsObject, IsOpened, IsUnmade};
ghost use Rattle.argus_c.specs.Keeping.{IsStoreTextOf, IsThere};

use crate::changes::Changes;
use crate::codes::Code;
use crate::reading::Unread;
use layer_contracts::Fault;
use run_model::{Answer, ObjectId, Setup, SetupFault, Step};
use stable_store::{PlainStable, Stable};
use std::alloc::{AllocError, Global};
use store_texts::store_text;
use world::World;

#[derive(Drop)]
pub(crate) struct Session {
    pub(crate) world: World<PlainStable>,
    pub(crate) last: Option<Answer>,
    pub(crate) changes: Changes,
}

impl Session {
    /// A new world over the setup that this document is.
    pub(crate) fn open(alloc: Global, setup: &[u8]) -> Result<Session, SetupFault>
        ensures opened { IfOk result (λ session. IsOpened setup.now session) }
        ensures bad { IsErrOf result fault.Bad → IsNoSetup setup.now }
    {
        let setup = Setup::read(alloc, setup)?;
        let changes = Changes::all(alloc, &setup)?;
        Ok(Session {
            world: World::in_memory(alloc, setup)?,
            last: None,
            changes,
        })
    }

    /// The same on the heap.
    pub(crate) fn boxed(alloc: Global, setup: &[u8]) -> Result<Box<Session>, Code>
        ensures opened { IfOk result (λ session. IsOpened setup.now session.value) }
        ensures bad { IsErrOf result code.Bad → IsNoSetup setup.now }
        ensures code { IfErr result (λ c. (c ≡ code.Bad) ⊎ (c ≡ code.Memory)) }
    {
        let session = match Session::open(alloc, setup) {
            Ok(session) => session,
            Err(SetupFault::Bad) => return Err(Code::Bad),
            Err(SetupFault::Memory) => return Err(Code::Memory),
        };
        match Box::new(alloc, session) {
            Ok(session) => Ok(session),
            Err(_) => Err(Code::Memory),
        }
    }

    /// Makes a step.
    pub(crate) fn make(&mut self, step: &Step) -> Code
        ensures made { result ≡ code.Done → IsMade step.now self.old self.new }
        ensures unmade { result ≢ code.Done → IsUnmade self.old self.new }
        ensures code { (result ≡ code.Done) ⊎ (result ≡ code.Memory) ⊎ (result ≡ code.Store) }
    {
        let Ok(()) = self.changes.mark(&self.world, step) else {
            return Code::Memory;
        };
        match self.world.step(step) {
            Ok(answer) => {
                self.changes.learn(step, &answer);
                self.changes.forget(step, &answer);
                self.last = Some(answer);
                Code::Done
            }
            Err(Fault::Memory) => Code::Memory,
            Err(Fault::Stable) => Code::Store,
        }
    }

    /// Makes the step that was read.
    pub(crate) fn make_read(&mut self, read: &Result<Step, Unread>) -> Code
        ensures made { result ≡ code.Done → IsMadeOf read.now self.old self.new }
        ensures bad { result ≡ code.Bad → read.now ≡ Err unread.Bad }
        ensures same { result ≡ code.Bad → self.new ≡ self.old }
        ensures unmade { result ≢ code.Done → IsUnmade self.old self.new }
        ensures code { (result ≡ code.Done) ⊎ (result ≡ code.Bad) ⊎ (result ≡ code.Memory)
            ⊎ (result ≡ code.Store) }
    {
        match read {
            Ok(step) => self.make(step),
            Err(Unread::Bad) => Code::Bad,
            Err(Unread::Memory) => Code::Memory,
        }
    }

    /// The line of the last step's answer; none before the first step.
    pub(crate) fn answer(&self, alloc: Global) -> Result<Option<String>, AllocError>
        ensures told { IfOk result (λ told. IfSome told
            (λ text. IsAnswerText self.now (string_bytes text))) }
        ensures none { IfOk result (λ told. IfNone told
            ((text : List ℕ) → IsAnswerText self.now text → ⊥)) }
    {
        match &self.last {
            Some(answer) => Ok(Some(answer.text(alloc)?)),
            None => Ok(None),
        }
    }

    /// The base of an object, as its text; none where there is no such object.
    pub(crate) fn base(
        &self,
        alloc: Global,
        guardian: u32,
        number: u32,
    ) -> Result<Option<String>, AllocError>
        ensures told { IfOk result (λ told. IfSome told
            (λ text. IsBaseText guardian number self.now (string_bytes text))) }
        ensures none { IfOk result (λ told. IfNone told
            (IsObject self.now guardian number → ⊥)) }
    {
        if guardian == 0 || number == 0 {
            return Ok(None);
        }
        if self.world.setup().objects(guardian).len() < number as usize {
            return Ok(None);
        }
        let content = self.world.base(ObjectId { guardian, number })?;
        Ok(Some(content.text(alloc)?))
    }

    /// The text of what a guardian's store contains; none where there is no such guardian.
    pub(crate) fn store(&self, alloc: Global, guardian: u32) -> Result<Option<String>, AllocError>
        ensures told { IfOk result (λ told. IfSome told
            (λ text. IsStoreTextOf guardian self.now (string_bytes text))) }
        ensures none { IfOk result (λ told. IfNone told (IsThere self.now guardian → ⊥)) }
    {
        if guardian == 0 || self.world.setup().guardians() < guardian as usize {
            return Ok(None);
        }
        let Some(found) = self.world.guardian(guardian) else {
            unreachable!();
        };
        match found.store().kept() {
            Some(kept) => Ok(Some(store_text(alloc, kept)?)),
            None => unreachable!(),
        }
    }
}
