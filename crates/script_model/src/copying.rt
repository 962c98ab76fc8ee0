//! Copies of the bodies of scripts: a copy equals what it copies.
ghost use Rattle.std.specs.Prelude.{◌≡◌, IfOk};

use crate::expression::{Condition, Expr, IntExpr, TextExpr};
use crate::statement::{Arm, HandlerCall, ObjectCall, Operation, Statement};
use sqlite_items::{Boxed, Items};
use std::alloc::{AllocError, Global};

impl IntExpr {
    pub fn copy(&self, alloc: Global) -> Result<IntExpr, AllocError>
        ensures { IfOk result (λ copy. copy ≡ self.now) }
    {
        Ok(match self {
            IntExpr::Literal(value) => IntExpr::Literal(*value),
            IntExpr::Variable(place) => IntExpr::Variable(*place),
            IntExpr::Sum(x, y) => IntExpr::Sum(
                Boxed::new(alloc, x.get().copy(alloc)?)?,
                Boxed::new(alloc, y.get().copy(alloc)?)?,
            ),
            IntExpr::Difference(x, y) => IntExpr::Difference(
                Boxed::new(alloc, x.get().copy(alloc)?)?,
                Boxed::new(alloc, y.get().copy(alloc)?)?,
            ),
        })
    }
}

impl TextExpr {
    pub fn copy(&self) -> Result<TextExpr, AllocError>
        ensures { IfOk result (λ copy. copy ≡ self.now) }
    {
        Ok(match self {
            TextExpr::Literal(text) => TextExpr::Literal(text.copy()?),
            TextExpr::Variable(place) => TextExpr::Variable(*place),
        })
    }
}

impl Expr {
    pub fn copy(&self, alloc: Global) -> Result<Expr, AllocError>
        ensures { IfOk result (λ copy. copy ≡ self.now) }
    {
        Ok(match self {
            Expr::Int(expr) => Expr::Int(expr.copy(alloc)?),
            Expr::Text(expr) => Expr::Text(expr.copy()?),
        })
    }
}

impl Condition {
    pub fn copy(&self, alloc: Global) -> Result<Condition, AllocError>
        ensures { IfOk result (λ copy. copy ≡ self.now) }
    {
        Ok(match self {
            Condition::SameInts(x, y) => Condition::SameInts(x.copy(alloc)?, y.copy(alloc)?),
            Condition::SameTexts(x, y) => Condition::SameTexts(x.copy()?, y.copy()?),
            Condition::Less(x, y) => Condition::Less(x.copy(alloc)?, y.copy(alloc)?),
            Condition::Truth(place) => Condition::Truth(*place),
        })
    }
}

impl ObjectCall {
    pub fn copy(&self, alloc: Global) -> Result<ObjectCall, AllocError>
        ensures { IfOk result (λ copy. copy ≡ self.now) }
    {
        Ok(ObjectCall {
            object: self.object,
            operation: copy_of(alloc, &self.operation)?,
            binding: self.binding,
        })
    }
}

fn copy_of(alloc: Global, operation: &Operation) -> Result<Operation, AllocError>
    ensures { IfOk result (λ copy. copy ≡ operation.now) }
{
    Ok(match operation {
        Operation::Get(field) => Operation::Get(field.copy()?),
        Operation::Set(field, value) => Operation::Set(field.copy()?, value.copy(alloc)?),
        Operation::Low => Operation::Low,
        Operation::High => Operation::High,
        Operation::Size => Operation::Size,
        Operation::Fetch(index) => Operation::Fetch(index.copy(alloc)?),
        Operation::Store(index, value) => Operation::Store(index.copy(alloc)?, value.copy(alloc)?),
        Operation::AddHigh(value) => Operation::AddHigh(value.copy(alloc)?),
        Operation::AddLow(value) => Operation::AddLow(value.copy(alloc)?),
        Operation::RemoveHigh => Operation::RemoveHigh,
        Operation::RemoveLow => Operation::RemoveLow,
        Operation::Is(tag) => Operation::Is(tag.copy()?),
        Operation::ValueOf(tag) => Operation::ValueOf(tag.copy()?),
        Operation::Change(tag, value) => Operation::Change(tag.copy()?, value.copy(alloc)?),
        Operation::Total => Operation::Total,
        Operation::Put(value) => Operation::Put(value.copy(alloc)?),
        Operation::Add(value) => Operation::Add(value.copy(alloc)?),
    })
}

impl HandlerCall {
    pub fn copy(&self, alloc: Global) -> Result<HandlerCall, AllocError>
        ensures { IfOk result (λ copy. copy ≡ self.now) }
    {
        Ok(HandlerCall {
            handler: self.handler,
            ints: int_copies(alloc, self.ints.as_slice())?,
            texts: text_copies(alloc, self.texts.as_slice())?,
            binding: self.binding,
        })
    }
}

fn int_copies(alloc: Global, exprs: &[IntExpr]) -> Result<Items<IntExpr>, AllocError>
    ensures { IfOk result (λ copies. copies ≡ exprs.now) }
{
    let mut copies = Items::new(alloc);
    for expr in exprs {
        copies.push(expr.copy(alloc)?)?;
    }
    Ok(copies)
}

fn text_copies(alloc: Global, exprs: &[TextExpr]) -> Result<Items<TextExpr>, AllocError>
    ensures { IfOk result (λ copies. copies ≡ exprs.now) }
{
    let mut copies = Items::new(alloc);
    for expr in exprs {
        copies.push(expr.copy()?)?;
    }
    Ok(copies)
}

/// A copy of a body.
#[cycle(copying)]
pub fn body_copy(alloc: Global, body: &[Statement]) -> Result<Items<Statement>, AllocError>
    ensures { IfOk result (λ copy. copy ≡ body.now) }
{
    let mut copy = Items::new(alloc);
    for statement in body {
        copy.push(statement_copy(alloc, statement)?)?;
    }
    Ok(copy)
}

#[cycle(copying)]
fn statement_copy(alloc: Global, statement: &Statement) -> Result<Statement, AllocError>
    ensures { IfOk result (λ copy. copy ≡ statement.now) }
{
    Ok(match statement {
        Statement::Op(call, None) => Statement::Op(call.copy(alloc)?, None),
        Statement::Op(call, Some(body)) => {
            Statement::Op(call.copy(alloc)?, Some(body_copy(alloc, body.as_slice())?))
        }
        Statement::Call(call, None) => Statement::Call(call.copy(alloc)?, None),
        Statement::Call(call, Some(body)) => {
            Statement::Call(call.copy(alloc)?, Some(body_copy(alloc, body.as_slice())?))
        }
        Statement::Coenter(arms) => Statement::Coenter(arms_copy(alloc, arms.as_slice())?),
        Statement::TopAction(body, signals) => Statement::TopAction(
            body_copy(alloc, body.as_slice())?,
            body_copy(alloc, signals.as_slice())?,
        ),
        Statement::If(condition, first, second) => Statement::If(
            condition.copy(alloc)?,
            body_copy(alloc, first.as_slice())?,
            body_copy(alloc, second.as_slice())?,
        ),
        Statement::Repeat(turns, body) => {
            Statement::Repeat(*turns, body_copy(alloc, body.as_slice())?)
        }
        Statement::Abort => Statement::Abort,
        Statement::Return(None) => Statement::Return(None),
        Statement::Return(Some(expr)) => Statement::Return(Some(expr.copy(alloc)?)),
    })
}

#[cycle(copying)]
fn arms_copy(alloc: Global, arms: &[Arm]) -> Result<Items<Arm>, AllocError>
    ensures { IfOk result (λ copy. copy ≡ arms.now) }
{
    let mut copy = Items::new(alloc);
    for arm in arms {
        copy.push(arm_copy(alloc, arm)?)?;
    }
    Ok(copy)
}

#[cycle(copying)]
fn arm_copy(alloc: Global, arm: &Arm) -> Result<Arm, AllocError>
    ensures { IfOk result (λ copy. copy ≡ arm.now) }
{
    Ok(match arm {
        Arm::Sub(body) => Arm::Sub(body_copy(alloc, body.as_slice())?),
        Arm::Top(body) => Arm::Top(body_copy(alloc, body.as_slice())?),
    })
}
