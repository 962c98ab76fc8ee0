//! Writing a content.
ghost use Rattle.std.specs.Prelude.{◌≡◌, ◌++◌, ℕ, IfOk, IsUtf8, OnOk, [], string_bytes};
ghost use Rattle.json.specs.Print.{print};
ghost use Rattle.json.specs.Token.{Token};
ghost use Rattle.json.specs.Tree.{json_tokens};
ghost use Rattle.serde_json.specs.Data.{Data};
ghost use Rattle.serde_json.specs.Written.{outline};
ghost use Rattle.stable_store.specs.Held.{held, record_of, records_of};
ghost use Rattle.store_texts.specs.Texts.{AreNumbers, AreParts, AreRecords, IsContent, IsEntry, IsNumber, IsPart, IsRecord, IsStoreText, entry_data, list_data, lists_data, lists_of, number_data, part_data, record_data};

use atomic_types::Part;
use json::Writer;
use stable_store::{Kept, Prepared};
use std::alloc::{AllocError, Global};
use std::collections::{BTreeMap, BTreeSet};

/// The text of a content.
pub fn store_text(alloc: Global, kept: &Kept) -> Result<String, AllocError>
    ensures text { IfOk result (λ text. IsStoreText (string_bytes text) (held kept.now)) }
    ensures utf8 { IfOk result (λ text. IsUtf8 (string_bytes text)) }
{
    let mut out = Writer::new(Vec::new(alloc));
    write_content(kept, &mut out)?;
    Ok(finished(out))
}

fn write_content(kept: &Kept, out: &mut Writer) -> Result<(), AllocError>
    ensures ok { OnOk result (out.new.tokens
        ≡ out.old.tokens ++ json_tokens (outline (lists_data (lists_of kept.now)))) }
    ensures before { out.new.before ≡ out.old.before }
    ensures fits { OnOk result (IsContent (lists_of kept.now)) }
{
    out.begin_object()?;
    out.key("base")?;
    write_parts(&kept.base, out)?;
    out.key("count")?;
    out.u64(kept.count)?;
    out.key("decided")?;
    write_numbers(&kept.decided, out)?;
    out.key("next_top")?;
    out.u64(kept.next_top)?;
    out.key("prepared")?;
    write_records(&kept.prepared, out)?;
    out.end_object()
}

fn write_parts(parts: &BTreeMap<u32, Part>, out: &mut Writer) -> Result<(), AllocError>
    ensures ok { OnOk result (out.new.tokens ≡ out.old.tokens
        ++ json_tokens (outline (list_data entry_data parts.now.entries))) }
    ensures before { out.new.before ≡ out.old.before }
    ensures fits { OnOk result (AreParts parts.now.entries) }
{
    out.begin_array()?;
    for (&object, part) in parts {
        write_entry(object, part, out)?;
    }
    out.end_array()
}

fn write_entry(object: u32, part: &Part, out: &mut Writer) -> Result<(), AllocError>
    ensures ok { OnOk result (out.new.tokens ≡ out.old.tokens
        ++ json_tokens (outline (entry_data (object, part.now)))) }
    ensures before { out.new.before ≡ out.old.before }
    ensures fits { OnOk result (IsEntry (object, part.now)) }
{
    out.begin_array()?;
    write_number(object, out)?;
    write_part(part, out)?;
    out.end_array()
}

fn write_part(part: &Part, out: &mut Writer) -> Result<(), AllocError>
    ensures ok { OnOk result
        (out.new.tokens ≡ out.old.tokens ++ json_tokens (outline (part_data part.now))) }
    ensures before { out.new.before ≡ out.old.before }
    ensures fits { OnOk result (IsPart part.now) }
{
    match part {
        Part::Value(content) => content.write_tokens(out),
        Part::Delta(by) => {
            out.begin_object()?;
            out.key("delta")?;
            out.i64(*by)?;
            out.end_object()
        }
    }
}

#[tactic(auto, using(crate::proofs::Maps::records_rise))]
fn write_records(records: &BTreeMap<u32, Prepared>, out: &mut Writer) -> Result<(), AllocError>
    ensures ok { OnOk result (out.new.tokens ≡ out.old.tokens
        ++ json_tokens (outline (list_data record_data (records_of records.now.entries)))) }
    ensures before { out.new.before ≡ out.old.before }
    ensures fits { OnOk result (AreRecords (records_of records.now.entries)) }
{
    out.begin_array()?;
    for (&top, prepared) in records {
        write_record(top, prepared, out)?;
    }
    out.end_array()
}

fn write_record(top: u32, prepared: &Prepared, out: &mut Writer) -> Result<(), AllocError>
    ensures ok { OnOk result (out.new.tokens ≡ out.old.tokens
        ++ json_tokens (outline (record_data (top, record_of prepared.now)))) }
    ensures before { out.new.before ≡ out.old.before }
    ensures fits { OnOk result (IsRecord (top, record_of prepared.now)) }
{
    out.begin_array()?;
    write_number(top, out)?;
    write_number(prepared.home, out)?;
    write_parts(&prepared.parts, out)?;
    out.end_array()
}

fn write_numbers(numbers: &BTreeSet<u32>, out: &mut Writer) -> Result<(), AllocError>
    ensures ok { OnOk result (out.new.tokens ≡ out.old.tokens
        ++ json_tokens (outline (list_data number_data numbers.now.keys))) }
    ensures before { out.new.before ≡ out.old.before }
    ensures fits { OnOk result (AreNumbers numbers.now.keys) }
{
    out.begin_array()?;
    for &number in numbers {
        write_number(number, out)?;
    }
    out.end_array()
}

fn write_number(number: u32, out: &mut Writer) -> Result<(), AllocError>
    ensures ok { OnOk result
        (out.new.tokens ≡ out.old.tokens ++ json_tokens (outline (number_data number))) }
    ensures before { out.new.before ≡ out.old.before }
    ensures fits { OnOk result (IsNumber number) }
{
    out.u64(u64::from(number))
}

/// What was written, where nothing stood before it.
fn finished(out: Writer) -> String
    requires { out.before ≡ [] }
    ensures text { string_bytes result ≡ print out.tokens }
    ensures utf8 { IsUtf8 (string_bytes result) }
{
    String::from_utf8(out.into_inner()).unwrap()
}
