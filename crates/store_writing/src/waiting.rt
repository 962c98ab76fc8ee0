//! Parts that wait until one statement can write many.
ghost use Rattle.std.specs.Prelude.{◌≡◌, pos, ◌∷◌, ◌++◌, IfOk, OnOk};
ghost use Rattle.sqlite.specs.declared.types.Value.TheVariants.{Int};
ghost use Rattle.sqlite.specs.Values.{bound};
ghost use Rattle.store_writing.specs.Waiting.{HasOneMore, parameters_of};

use crate::parameters::{number, words};
use atomic_types::Part;
use sqlite::types::ValueRef;
use std::alloc::{AllocError, Global};
use store_tables::part_text;

/// How many parts one statement writes.
pub(crate) const RUN: usize = 16;

/// An object, and the text of a part of it.
#[derive(Drop)]
pub(crate) struct PartText {
    pub(crate) object: u32,
    pub(crate) text: String,
}

/// Puts the text of a part behind those that wait.
pub(crate) fn wait(
    alloc: Global,
    waiting: &mut Vec<PartText>,
    object: u32,
    part: &Part,
) -> Result<(), AllocError>
    ensures { OnOk result (HasOneMore waiting.old.items waiting.new.items (object, part.now)) }
{
    let text = part_text(alloc, part)?;
    waiting.push(PartText { object, text })?;
    Ok(())
}

/// The parameters of the statement that writes these parts of a record.
pub(crate) fn record_parameters<'a>(
    alloc: Global,
    top: u32,
    parts: &'a [PartText],
) -> Result<Vec<ValueRef<'a>>, AllocError>
    ensures { IfOk result (λ all. bound all.items ≡ Int (pos top) ∷ parameters_of parts.now) }
{
    let mut all = Vec::new(alloc);
    all.push(number(top))?;
    push_parameters(&mut all, parts)?;
    Ok(all)
}

/// The parameters of the statement that writes these parts into the base.
pub(crate) fn base_parameters<'a>(
    alloc: Global,
    parts: &'a [PartText],
) -> Result<Vec<ValueRef<'a>>, AllocError>
    ensures { IfOk result (λ all. bound all.items ≡ parameters_of parts.now) }
{
    let mut all = Vec::new(alloc);
    push_parameters(&mut all, parts)?;
    Ok(all)
}

/// Puts each object and its text behind these parameters.
fn push_parameters<'a>(all: &mut Vec<ValueRef<'a>>, parts: &'a [PartText]) -> Result<(), AllocError>
    ensures { OnOk result (bound all.new.items ≡ bound all.old.items ++ parameters_of parts.now) }
{
    for part in parts {
        all.push(number(part.object))?;
        all.push(words(&part.text))?;
    }
    Ok(())
}
