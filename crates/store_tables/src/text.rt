ghost use Rattle.std.specs.Prelude.{◌≡◌, ◌≢◌, ◌++◌, ℤ, [], Some, IfOk, OnOk, IsErrOf, codes, string_bytes};
ghost use Rattle.serde_json.specs.Data.{Data, object, no_members, member};
ghost use Rattle.serde_json.specs.View.{view};
ghost use Rattle.serde_json.specs.Read.{read};
ghost use Rattle.serde_json.specs.Written.{compact_text, outline};
ghost use Rattle.json.specs.Tree.{json_tokens};
ghost use Rattle.json.specs.Print.{print};
ghost use Rattle.values.specs.Totals.{IsCounter};
ghost use Rattle.values.specs.declared.words.ValueFault.TheVariants.{Memory, Unfit};
ghost use Rattle.atomic_types.specs.declared.part.Part.{Part as Spec};
ghost use Rattle.store_tables.specs.PartTexts.{IsStoredPart, delta_data, part_text as text_of};

use crate::shape::only_member;
use atomic_types::Part;
use json::Writer;
use serde_json::Value as Json;
use std::alloc::{AllocError, Global};
use values::{Content, Counter, ValueFault};

/// The name of the member that holds a delta.
const DELTA: &str = "delta";

/// The one spelling of a part.
pub fn part_text(alloc: Global, part: &Part) -> Result<String, AllocError>
    ensures text { IfOk result (λ s. string_bytes s ≡ text_of part.now) }
    ensures fits { OnOk result (IsStoredPart part.now) }
{
    match part {
        Part::Value(content) => content.text(alloc),
        Part::Delta(by) => delta_text(alloc, &Counter::new(*by)),
    }
}

/// The part whose one spelling this is. `Unfit` comes only where no part is spelled so.
pub fn part_from_text(alloc: Global, text: &str) -> Result<Part, ValueFault>
    ensures found { IfOk result (λ part. IsStoredPart part × (text.now ≡ text_of part)) }
    ensures refused { IsErrOf result Unfit → (part : Spec) → IsStoredPart part
        → text.now ≢ text_of part }
{
    match Content::from_stored_spelling(alloc, text) {
        Ok(content) => Ok(Part::Value(content)),
        Err(ValueFault::Memory) => Err(ValueFault::Memory),
        Err(ValueFault::Unfit) => Ok(Part::Delta(delta_from_text(alloc, text)?.number())),
    }
}

/// Parts that are spelled alike are equal.
pub fn one_part_spelling()
    ensures { (p q : Spec) → IsStoredPart p → IsStoredPart q → text_of p ≡ text_of q → p ≡ q }
{}

/// The one spelling of a delta.
fn delta_text(alloc: Global, by: &Counter) -> Result<String, AllocError>
    ensures text { IfOk result (λ s. string_bytes s ≡ compact_text (delta_data by.now)) }
    ensures fits { OnOk result (IsCounter by.now) }
{
    let mut out = Writer::new(Vec::new(alloc));
    write_delta(by, &mut out)?;
    Ok(finished(out))
}

fn write_delta(by: &Counter, out: &mut Writer) -> Result<(), AllocError>
    ensures ok { OnOk result
        (out.new.tokens ≡ out.old.tokens ++ json_tokens (outline (delta_data by.now))) }
    ensures before { out.new.before ≡ out.old.before }
    ensures fits { IsCounter by.now }
{
    let number = by.copy().number();
    out.begin_object()?;
    out.key(DELTA)?;
    out.i64(number)?;
    out.end_object()
}

/// What was written, where nothing stood before it.
fn finished(out: Writer) -> String
    requires { out.before ≡ [] }
    ensures { string_bytes result ≡ print out.tokens }
{
    String::from_utf8(out.into_inner()).unwrap()
}

/// The delta whose one spelling this is. `Unfit` comes only where no delta is spelled so.
fn delta_from_text(alloc: Global, text: &str) -> Result<Counter, ValueFault>
    ensures found { IfOk result (λ by. text.now ≡ compact_text (delta_data by)) }
    ensures refused { IsErrOf result Unfit → (by : ℤ) → IsCounter by
        → text.now ≢ compact_text (delta_data by) }
{
    let by = read_delta(alloc, text)?;
    if delta_text(alloc, &by)?.as_str() != text {
        return Err(ValueFault::Unfit);
    }
    Ok(by)
}

/// The delta that this text is, however it is spelled. `Unfit` comes only where no delta is this text.
fn read_delta(alloc: Global, text: &str) -> Result<Counter, ValueFault>
    ensures found { IfOk result (λ by. read text.now ≡ Some (delta_data by)) }
    ensures refused { IsErrOf result Unfit → (by : ℤ) → IsCounter by
        → read text.now ≢ Some (delta_data by) }
{
    let json = Json::from_str(alloc, text)?;
    delta_of(&json)
}

/// The delta that this document is. `Unfit` comes only where no delta is this document.
fn delta_of(json: &Json) -> Result<Counter, ValueFault>
    ensures found { IfOk result (λ by. view json.now ≡ delta_data by) }
    ensures refused { IsErrOf result Unfit → (by : ℤ) → IsCounter by
        → view json.now ≢ delta_data by }
    ensures memory { IsErrOf result Memory
        → (d : Data) × (view json.now ≡ object (member (codes "delta") d no_members)) }
{
    let (name, document) = only_member(json).ok_or(ValueFault::Unfit)?;
    if name != DELTA {
        return Err(ValueFault::Unfit);
    }
    Counter::from_json(document)
}
