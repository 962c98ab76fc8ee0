ghost use Rattle.std.specs.Prelude.{◌≡◌, ◌≢◌, [], IfOk, IfErr};
ghost use Rattle.script_model.specs.Documents.{IsDocument, IsNoJson};
ghost use Rattle.script.specs.Documented.{document_of};
ghost use Rattle.script_model.specs.Reaching.{Fits, IsFirstFault};
ghost use Rattle.script_model.specs.Resolved.{IsResolved};

use crate::documents::script;
use crate::recursion::ask_endings;
use script_model::{Checked, FaultKind, ScriptFault};
use script_parts::Place;
use serde_json::Value as Json;
use std::alloc::Global;

/// A JSON document that may be a script.
#[derive(Drop)]
pub struct Script {
    document: Json,
}

/// The document that these bytes are. Fails where they are no JSON, or nest 128 levels deep or more.
pub fn read(alloc: Global, bytes: &[u8]) -> Result<Script, ScriptFault>
    ensures found { IfOk result (λ s. IsDocument bytes.now (document_of s)) }
    ensures refused { IfErr result (λ e. e ≢ ScriptFault.Memory
        → IsNoJson bytes.now × (e ≡ ScriptFault.Bad FaultKind.Shape [])) }
{
    match Json::from_slice(alloc, bytes) {
        Ok(document) => Ok(Script { document }),
        Err(error) if error.is_memory() => Err(ScriptFault::Memory),
        Err(_) => Err(Place::Root.fault(alloc, FaultKind::Shape)),
    }
}

/// The script that the document is, or its first fault.
pub fn check(alloc: Global, document: Script) -> Result<Checked, ScriptFault>
    ensures fits { IfOk result (λ c. Fits (document_of document) c) }
    ensures resolved { IfOk result (λ c. IsResolved c) }
    ensures refused { IfErr result (λ e. IsFirstFault (document_of document) e) }
{
    let checked = script(alloc, &document.document)?;
    ask_endings(alloc, &checked)?;
    Ok(checked)
}
