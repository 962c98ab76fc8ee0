use crate::expression::{Condition, Expr, IntExpr, TextExpr};
use sqlite_items::Items;

/// An operation whose arguments are still to be computed.
pub type Operation = atomic_types::Operation<IntExpr, Expr>;

/// What a reply is, and the place at which it is bound in the frame of its kind, if it is. The place that follows the
/// last bound one binds a new variable; an earlier place binds that variable again.
#[derive(Clone, Copy, Debug, PartialEq, Eq)]
pub enum Binding {
    Nothing,
    Int(Option<u32>),
    Text(Option<u32>),
    Truth(Option<u32>),
}

/// An operation on an object of the guardian where the code runs; objects are numbered from 1.
#[derive(Drop)]
pub struct ObjectCall {
    pub object: u32,
    pub operation: Operation,
    pub binding: Binding,
}

/// A call of a handler, which is its number among those of the whole script, from 0. The arguments are as many ints
/// and texts as the handler takes; what they give stands in its frames when its body begins. The binding is of the
/// kind that the handler gives, and is `Nothing` where it gives no value.
#[derive(Drop)]
pub struct HandlerCall {
    pub handler: u32,
    pub ints: Items<IntExpr>,
    pub texts: Items<TextExpr>,
    pub binding: Binding,
}

/// A statement of a body. Where it has a second body, or an optional one, that runs when the statement signals.
#[cycle(statement)]
#[derive(Drop)]
pub enum Statement {
    Op(ObjectCall, Option<Items<Statement>>),
    Call(HandlerCall, Option<Items<Statement>>),
    Coenter(Items<Arm>),
    TopAction(Items<Statement>, Items<Statement>),
    If(Condition, Items<Statement>, Items<Statement>),
    Repeat(u32, Items<Statement>),
    Abort,
    Return(Option<Expr>),
}

/// An arm of a `coenter`: a subaction or a nested top action.
#[cycle(statement)]
#[derive(Drop)]
pub enum Arm {
    Sub(Items<Statement>),
    Top(Items<Statement>),
}
