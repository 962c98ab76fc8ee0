ghost use Rattle.std.specs.Prelude.{◌≡◌, IsTrue, IfOk};
ghost use Rattle.script_model.specs.Resolved.{expr_is_bound, int_is_bound, operation_is_bound};
ghost use Rattle.atomic_types.specs.Operations.{arguments_of};
ghost use Rattle.atomic_types.specs.declared.operation.Arguments.TheVariants.{IndexValue};
ghost use Rattle.frames.specs.Bound.{sizes};
ghost use Rattle.frames.specs.Operating.{arguments_by, op_of};

use crate::frames::Frames;
use atomic_types::{Arguments, Op};
use script_model::{Expr, IntExpr, Operation};
use std::alloc::AllocError;
use values::{Identifier, Value};

impl Frames {
    /// The operation with its arguments computed; none where a sum or a difference is out of 64 bits. Fails only if
    /// memory runs out.
    pub fn operation(&self, operation: &Operation) -> Result<Option<Op>, AllocError>
        requires { IsTrue (operation_is_bound (sizes self.now) operation.now) }
        ensures { IfOk result (λ found. found ≡ op_of self.now operation.now) }
    {
        match self.op_arguments(operation)? {
            Some(arguments) => Ok(Op::of(operation.name(), arguments)),
            None => Ok(None),
        }
    }

    /// The values of an operation's arguments; none where a sum or a difference is out of 64 bits.
    fn op_arguments(
        &self,
        operation: &Operation,
    ) -> Result<Option<Arguments<Identifier, i64, Value>>, AllocError>
        requires { IsTrue (operation_is_bound (sizes self.now) operation.now) }
        ensures { IfOk result
            (λ found. found ≡ arguments_by self.now (arguments_of operation.now)) }
    {
        match operation.arguments() {
            Arguments::Nothing => Ok(Some(Arguments::Nothing)),
            Arguments::Word(word) => Ok(Some(Arguments::Word(word.copy()?))),
            Arguments::WordValue(word, expr) => {
                let word = word.copy()?;
                Ok(
                    self.value(expr)?
                        .map(|value| Arguments::WordValue(word, value)),
                )
            }
            Arguments::Index(index) => Ok(self.int(index).map(Arguments::Index)),
            Arguments::IndexValue(index, expr) => self.index_and_value(index, expr),
            Arguments::Value(expr) => Ok(self.value(expr)?.map(Arguments::Value)),
        }
    }

    fn index_and_value(
        &self,
        index: &IntExpr,
        expr: &Expr,
    ) -> Result<Option<Arguments<Identifier, i64, Value>>, AllocError>
        requires index { IsTrue (int_is_bound (sizes self.now).ints index.now) }
        requires value { IsTrue (expr_is_bound (sizes self.now) expr.now) }
        ensures { IfOk result
            (λ found. found ≡ arguments_by self.now (IndexValue index.now expr.now)) }
    {
        let Some(index) = self.int(index) else {
            return Ok(None);
        };
        Ok(
            self.value(expr)?
                .map(|value| Arguments::IndexValue(index, value)),
        )
    }
}
