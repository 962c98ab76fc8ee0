use atomic_types::Reply;

/// What an overlay alone shows of the reply to a read.
#[derive(Debug, PartialEq, Eq, Drop)]
pub enum Seen {
    /// The whole reply, whatever lies below.
    Reply(Reply),
    /// The reply is what the object below answers.
    Below,
}
