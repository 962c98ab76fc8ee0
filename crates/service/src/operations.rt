//! Operations that name a field or a tag, by its text.
ghost use Rattle.std.specs.Prelude.{◌≡◌, IfOk, IsErrOf};
ghost use Rattle.atomic_types.specs.declared.operation.Operation.TheVariants as operations;
ghost use Rattle.values.specs.Words.{IsIdentifier};

use atomic_types::Op;
use std::alloc::Global;
use values::{Identifier, Value, ValueFault};

/// Reads the field of a record. `Unfit` comes exactly if the text is no identifier.
pub fn get(alloc: Global, field: &str) -> Result<Op, ValueFault>
    ensures found { IfOk result (λ op. op ≡ operations.Get field.now) }
    ensures refused { IsErrOf result ValueFault.Unfit → ¬ IsIdentifier field.now }
{
    Ok(Op::Get(Identifier::parse(alloc, field)?))
}

/// Sets the field of a record. `Unfit` comes exactly if the text is no identifier.
pub fn set(alloc: Global, field: &str, value: Value) -> Result<Op, ValueFault>
    ensures found { IfOk result (λ op. op ≡ operations.Set field.now value) }
    ensures refused { IsErrOf result ValueFault.Unfit → ¬ IsIdentifier field.now }
{
    Ok(Op::Set(Identifier::parse(alloc, field)?, value))
}

/// Whether a variant has the tag. `Unfit` comes exactly if the text is no identifier.
pub fn is(alloc: Global, tag: &str) -> Result<Op, ValueFault>
    ensures found { IfOk result (λ op. op ≡ operations.Is tag.now) }
    ensures refused { IsErrOf result ValueFault.Unfit → ¬ IsIdentifier tag.now }
{
    Ok(Op::Is(Identifier::parse(alloc, tag)?))
}

/// The value of a variant under the tag. `Unfit` comes exactly if the text is no identifier.
pub fn value_of(alloc: Global, tag: &str) -> Result<Op, ValueFault>
    ensures found { IfOk result (λ op. op ≡ operations.ValueOf tag.now) }
    ensures refused { IsErrOf result ValueFault.Unfit → ¬ IsIdentifier tag.now }
{
    Ok(Op::ValueOf(Identifier::parse(alloc, tag)?))
}

/// Gives a variant the tag with the value. `Unfit` comes exactly if the text is no identifier.
pub fn change(alloc: Global, tag: &str, value: Value) -> Result<Op, ValueFault>
    ensures found { IfOk result (λ op. op ≡ operations.Change tag.now value) }
    ensures refused { IsErrOf result ValueFault.Unfit → ¬ IsIdentifier tag.now }
{
    Ok(Op::Change(Identifier::parse(alloc, tag)?, value))
}
