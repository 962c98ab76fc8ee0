use action_names::Name;
use values::Value;

/// How a client ended.
#[derive(Drop)]
pub enum ClientEnd {
    /// Its top action committed.
    Committed {
        top: Name,
        /// The value that the client returned, if it returned one.
        value: Option<Value>,
    },
    /// Its top action did not commit.
    Aborted {
        /// The top action; none where it could not be begun.
        top: Option<Name>,
    },
}
