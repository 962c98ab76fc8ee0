use values::Value;

/// How far aborts go outwards from the innermost action.
#[derive(Clone, Copy, Debug, PartialEq, Eq)]
pub(crate) enum Reach {
    /// To the enclosing top action.
    TopAction,
    /// To the client's top action.
    Client,
}

/// How a body came to its end, or an action to its own.
#[derive(Drop)]
pub(crate) enum Flow {
    /// It ended well.
    Ended,
    /// It returned, with this value if with one.
    Returned(Option<Value>),
    /// The innermost action aborts; of an action, it has aborted.
    Aborted,
    /// Actions abort from the innermost one outwards.
    Outwards(Reach),
}
