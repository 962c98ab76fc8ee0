use sqlite_items::Boxed;
use values::Text;

/// An expression that gives an int. A variable is its place in the frame of ints.
#[derive(Drop)]
pub enum IntExpr {
    Literal(i64),
    Variable(u32),
    Sum(Boxed<IntExpr>, Boxed<IntExpr>),
    Difference(Boxed<IntExpr>, Boxed<IntExpr>),
}

/// An expression that gives a text. A variable is its place in the frame of texts.
#[derive(Drop)]
pub enum TextExpr {
    Literal(Text),
    Variable(u32),
}

/// An expression that gives a value.
#[derive(Drop)]
pub enum Expr {
    Int(IntExpr),
    Text(TextExpr),
}

/// What an `if` asks. A truth variable is its place in the frame of truths.
#[derive(Drop)]
pub enum Condition {
    SameInts(IntExpr, IntExpr),
    SameTexts(TextExpr, TextExpr),
    Less(IntExpr, IntExpr),
    Truth(u32),
}
