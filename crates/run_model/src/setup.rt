ghost use Rattle.std.specs.Prelude.{string_bytes, IsUtf8, ◌≡◌, ◌≢◌, ◌⊎◌, List, ℕ, [], ◌∷◌, ◌++◌, length, ◌<◌, ◌≤◌, IfOk, IsErrOf, MatchOption, OnErr, OnOk};
ghost use Rattle.std.specs.List.{AllByRecursion};
ghost use Rattle.json.specs.Print.{print};
ghost use Rattle.json.specs.Tree.{json_tokens};
ghost use Rattle.serde_json.specs.Data.{Data, Items, array, object, no_members, member};
ghost use Rattle.serde_json.specs.View.{view, items_view};
ghost use Rattle.serde_json.specs.Written.{outline};
ghost use Rattle.values.specs.declared.content.Content.{Content};
ghost use Rattle.values.specs.Contents.{content_data};
ghost use Rattle.run_model.specs.Openings.{objects_at};
ghost use Rattle.run_model.specs.Texts.{AreObjectsOf, IsOpeningSetup, IsOpeningText, IsSetupOf, IsSetupText, IsTextOf, contents_items, guardians_items, setup_data, setup_text};
ghost use Rattle.limits.specs.Limits.{max_guardians, max_objects};
ghost use Rattle.run_model.specs.Documents.{IsWithin, guardian_data};

use json::Writer;
use limits::{MAX_GUARDIANS, MAX_OBJECTS};
use serde_json::Value as Json;
use std::alloc::{AllocError, AllocFailed, Global};
use std::marker::Model;
use thiserror::Error;
use values::{Content, ValueFault};

const GUARDIANS: &str = "guardians";

const OBJECTS: &str = "objects";

/// Which contents a document may have.
#[derive(Clone, Copy)]
enum Limits {
    /// Those of a setup's file.
    OfFiles,
    /// All that a store may hold: also an array that was emptied at the greatest index.
    OfStores,
}

/// The opening contents of one guardian's objects.
#[derive(Drop)]
struct Objects {
    contents: Vec<Content>,
}

impl Model for Objects {
    ghost use Rattle.std.specs.Prelude.{List, length, ◌≤◌};
    ghost use Rattle.values.specs.declared.content.Content.{Content};
    ghost use Rattle.limits.specs.Limits.{max_objects};

    ghost Value = { List Content };

    ghost view = { λ a. a.contents.items };

    ghost invariant = { λ a. length a.contents.items ≤ max_objects };
}

/// The guardians of a run, each with its objects and their opening contents. Both are numbered from 1.
#[derive(Drop)]
pub struct Setup {
    guardians: Vec<Objects>,
}

impl Model for Setup {
    ghost use Rattle.std.specs.Prelude.{List, length, ◌≤◌};
    ghost use Rattle.values.specs.declared.content.Content.{Content};
    ghost use Rattle.limits.specs.Limits.{max_guardians};

    ghost Value = { List (List Content) };

    ghost view = { λ a. a.guardians.items };

    ghost invariant = { λ a. length a.guardians.items ≤ max_guardians };
}

/// Why a document is no setup.
#[derive(Clone, Copy, Debug, PartialEq, Eq, Drop, Error)]
pub enum SetupFault {
    /// It is no JSON, has another shape, or passes a limit.
    #[error("not a setup")]
    Bad,
    #[error("out of memory")]
    Memory,
}

impl From<AllocError> for SetupFault {
    ghost use Rattle.std.specs.Prelude.{◌≡◌};
    ghost use Rattle.run_model.specs.declared.setup.SetupFault.TheVariants.{Memory};

    ghost from_gives = { λ _ e. e ≡ Memory };

    fn from(_refused: AllocError) -> SetupFault {
        SetupFault::Memory
    }
}

impl<T: Drop> From<AllocFailed<T>> for SetupFault {
    ghost use Rattle.std.specs.Prelude.{◌≡◌};
    ghost use Rattle.run_model.specs.declared.setup.SetupFault.TheVariants.{Memory};

    ghost from_gives = { λ _ e. e ≡ Memory };

    fn from(_refused: AllocFailed<T>) -> SetupFault {
        SetupFault::Memory
    }
}

impl From<ValueFault> for SetupFault {
    ghost use Rattle.std.specs.Prelude.{◌≡◌};
    ghost use Rattle.run_model.specs.Documents.{setup_fault};

    ghost from_gives = { λ fault e. e ≡ setup_fault fault };

    fn from(fault: ValueFault) -> SetupFault {
        match fault {
            ValueFault::Unfit => SetupFault::Bad,
            ValueFault::Memory => SetupFault::Memory,
        }
    }
}

impl Setup {
    /// The setup whose JSON document these bytes are, whatever its white space and the order of its members. `Bad`
    /// comes exactly where no setup is this document.
    pub fn read(alloc: Global, bytes: &[u8]) -> Result<Setup, SetupFault>
        ensures found { IfOk result (λ setup. IsSetupText bytes.now setup) }
        ensures refused { IsErrOf result SetupFault.Bad
            → (setup : List (List Content)) → IsSetupText bytes.now setup → ⊥ }
    {
        Setup::from_document(alloc, bytes, Limits::OfFiles)
    }

    /// As `read`, for the setup line of a trace. There the low index of an empty array may also be
    /// one above the greatest index, where `reml` of the last item leaves it. `Bad` comes exactly
    /// if no such setup is this document, `Memory` only if memory runs out.
    pub fn read_opening(alloc: Global, bytes: &[u8]) -> Result<Setup, SetupFault>
        ensures found { IfOk result (λ setup. IsOpeningText bytes.now setup) }
        ensures refused { IsErrOf result SetupFault.Bad
            → (setup : List (List Content)) → IsOpeningText bytes.now setup → ⊥ }
    {
        Setup::from_document(alloc, bytes, Limits::OfStores)
    }

    fn from_document(alloc: Global, bytes: &[u8], limits: Limits) -> Result<Setup, SetupFault>
        ensures found { IfOk result (λ setup. IsTextOf (IsWithin limits) bytes.now setup) }
        ensures refused { IsErrOf result SetupFault.Bad
            → (setup : List (List Content)) → IsTextOf (IsWithin limits) bytes.now setup → ⊥ }
    {
        match Json::from_slice(alloc, bytes) {
            Ok(json) => Setup::from_json(alloc, &json, limits),
            Err(error) if error.is_memory() => Err(SetupFault::Memory),
            Err(_) => Err(SetupFault::Bad),
        }
    }

    fn from_json(alloc: Global, json: &Json, limits: Limits) -> Result<Setup, SetupFault>
        ensures found { IfOk result (λ setup. IsSetupOf (IsWithin limits) setup
            × (view json.now ≡ setup_data setup)) }
        ensures refused { IsErrOf result SetupFault.Bad
            → (setup : List (List Content)) → IsSetupOf (IsWithin limits) setup
            → view json.now ≢ setup_data setup }
    {
        let Some(items) = only_array(json, GUARDIANS) else {
            return Err(SetupFault::Bad);
        };
        if items.is_empty() || items.len() > MAX_GUARDIANS {
            return Err(SetupFault::Bad);
        }
        let mut guardians = Vec::with_capacity(alloc, items.len())?;
        for item in items {
            guardians.push(Objects::from_json(alloc, item, limits)?)?;
        }
        Ok(Setup { guardians })
    }

    /// A setup of no guardians yet.
    pub fn new(alloc: Global) -> Setup
        ensures { result ≡ [] }
    {
        Setup {
            guardians: Vec::new(alloc),
        }
    }

    /// Adds a guardian with these objects, whose number follows those of the others. `Bad` comes where there are
    /// 1,024 guardians already, or more objects than 1,024, and nowhere else; after an error the setup is as it was.
    pub fn add_guardian(&mut self, contents: Vec<Content>) -> Result<(), SetupFault>
        ensures added { OnOk result (self.new ≡ self.old ++ (contents.items ∷ [])) }
        ensures refused { IsErrOf result SetupFault.Bad
            → (max_guardians ≤ length self.old) ⊎ (max_objects < length contents.items) }
        ensures full { (max_guardians ≤ length self.old) ⊎ (max_objects < length contents.items)
            → IsErrOf result SetupFault.Bad }
        ensures err { OnErr result (self.new ≡ self.old) }
    {
        if self.guardians.len() >= MAX_GUARDIANS || contents.len() > MAX_OBJECTS {
            return Err(SetupFault::Bad);
        }
        self.guardians.push(Objects { contents })?;
        Ok(())
    }

    /// How many guardians there are: at most 1,024.
    pub fn guardians(&self) -> usize
        ensures value { result ≡ length self.now }
        ensures limit { result ≤ max_guardians }
    {
        self.guardians.len()
    }

    /// The opening contents of a guardian's objects, at most 1,024; none where there is no such guardian.
    pub fn objects(&self, guardian: u32) -> &[Content]
        ensures found { 1 ≤ guardian → result.now ≡ objects_at self.now guardian }
        ensures none { guardian ≡ 0 → result.now ≡ [] }
        ensures limit { length result.now ≤ max_objects }
    {
        if guardian == 0 {
            return &[];
        }
        match self.guardians.get(guardian as usize - 1) {
            Some(objects) => objects.contents.as_slice(),
            None => &[],
        }
    }

    /// The document of the setup in its one spelling, with each content as `Content::text` writes it. `read_opening`
    /// reads it as this setup, if there is a guardian. It fails only if memory runs out.
    pub fn text(&self, alloc: Global) -> Result<String, AllocError>
        ensures text { IfOk result (λ text. string_bytes text ≡ setup_text self.now) }
        ensures read_back { IfOk result
            (λ text. IsOpeningSetup self.now → IsOpeningText (string_bytes text) self.now) }
    {
        let mut out = Writer::new(Vec::new(alloc));
        self.write_tokens(&mut out)?;
        Ok(finished(out))
    }

    fn write_tokens(&self, out: &mut Writer) -> Result<(), AllocError>
        ensures ok { OnOk result
            (out.new.tokens ≡ out.old.tokens ++ json_tokens (outline (setup_data self.now))) }
        ensures before { out.new.before ≡ out.old.before }
    {
        out.begin_object()?;
        out.key(GUARDIANS)?;
        write_guardians(&self.guardians, out)?;
        out.end_object()
    }

    /// An equal setup.
    pub fn copy(&self) -> Result<Setup, AllocError>
        ensures { IfOk result (λ copy. copy ≡ self.now) }
    {
        let mut guardians = Vec::with_capacity(*self.guardians.allocator(), self.guardians.len())?;
        for objects in &self.guardians {
            guardians.push(objects.copy()?)?;
        }
        Ok(Setup { guardians })
    }
}

impl Objects {
    fn from_json(alloc: Global, json: &Json, limits: Limits) -> Result<Objects, SetupFault>
        ensures found { IfOk result (λ contents. AreObjectsOf (IsWithin limits) contents
            × (view json.now ≡ guardian_data contents)) }
        ensures refused { IsErrOf result SetupFault.Bad
            → (contents : List Content) → AreObjectsOf (IsWithin limits) contents
            → view json.now ≢ guardian_data contents }
    {
        let Some(items) = only_array(json, OBJECTS) else {
            return Err(SetupFault::Bad);
        };
        if items.len() > MAX_OBJECTS {
            return Err(SetupFault::Bad);
        }
        let mut contents = Vec::with_capacity(alloc, items.len())?;
        for item in items {
            contents.push(content(alloc, item, limits)?)?;
        }
        Ok(Objects { contents })
    }

    fn write_tokens(&self, out: &mut Writer) -> Result<(), AllocError>
        ensures ok { OnOk result
            (out.new.tokens ≡ out.old.tokens ++ json_tokens (outline (guardian_data self.now))) }
        ensures before { out.new.before ≡ out.old.before }
    {
        out.begin_object()?;
        out.key(OBJECTS)?;
        write_contents(&self.contents, out)?;
        out.end_object()
    }

    fn copy(&self) -> Result<Objects, AllocError>
        ensures { IfOk result (λ copy. copy ≡ self.now) }
    {
        let mut contents = Vec::with_capacity(*self.contents.allocator(), self.contents.len())?;
        for content in &self.contents {
            contents.push(content.copy()?)?;
        }
        Ok(Objects { contents })
    }
}

fn write_guardians(guardians: &[Objects], out: &mut Writer) -> Result<(), AllocError>
    ensures ok { OnOk result (out.new.tokens
        ≡ out.old.tokens ++ json_tokens (outline (array (guardians_items guardians.now)))) }
    ensures before { out.new.before ≡ out.old.before }
{
    out.begin_array()?;
    for objects in guardians {
        objects.write_tokens(out)?;
    }
    out.end_array()
}

fn write_contents(contents: &[Content], out: &mut Writer) -> Result<(), AllocError>
    ensures ok { OnOk result (out.new.tokens
        ≡ out.old.tokens ++ json_tokens (outline (array (contents_items contents.now)))) }
    ensures before { out.new.before ≡ out.old.before }
{
    out.begin_array()?;
    for content in contents {
        content.write_tokens(out)?;
    }
    out.end_array()
}

/// What was written, where nothing stood before it.
fn finished(out: Writer) -> String
    requires { out.before ≡ [] }
    ensures text { string_bytes result ≡ print out.tokens }
    ensures utf8 { IsUtf8 (string_bytes result) }
{
    String::from_utf8(out.into_inner()).unwrap()
}

fn content(alloc: Global, json: &Json, limits: Limits) -> Result<Content, ValueFault>
    ensures found { IfOk result (λ c. IsWithin limits c × (view json.now ≡ content_data c)) }
    ensures refused { IsErrOf result ValueFault.Unfit
        → (c : Content) → IsWithin limits c → view json.now ≢ content_data c }
{
    match limits {
        Limits::OfFiles => Content::from_json(alloc, json),
        Limits::OfStores => Content::from_stored_json(alloc, json),
    }
}

/// The array under this name, of an object that has no other member.
fn only_array<'a>(json: &'a Json, name: &str) -> Option<&'a [Json]>
    ensures { MatchOption result
        ((items : Items) → view json.now ≢ object (member name.now (array items) no_members))
        (λ items. view json.now
        ≡ object (member name.now (array (items_view items.now)) no_members)) }
{
    let members = json.as_object()?;
    if members.len() != 1 {
        return None;
    }
    Some(json.get(name)?.as_array()?.as_slice())
}

/// A text is one setup at most.
pub fn one_setup()
    ensures files { (bytes : List ℕ) (s t : List (List Content))
        → IsSetupText bytes s → IsSetupText bytes t → s ≡ t }
    ensures openings { (bytes : List ℕ) (s t : List (List Content))
        → IsOpeningText bytes s → IsOpeningText bytes t → s ≡ t }
{}
