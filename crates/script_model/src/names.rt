use values::Kind;

/// What kind of thing a variable or an expression is. It is unknown where a handler that does not say what it gives is
/// called: that handler's own fault stands later in the document, and until then such a variable fits everywhere.
#[derive(Clone, Copy, Debug, PartialEq, Eq)]
pub enum Sort {
    Int,
    Text,
    Truth,
    Unknown,
}

/// What a body may return: the body of a client anything or nothing.
#[derive(Clone, Copy, Debug, PartialEq, Eq)]
pub enum Gives {
    Anything,
    Nothing,
    Value(Kind),
}
