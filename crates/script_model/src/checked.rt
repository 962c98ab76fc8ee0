use crate::statement::Statement;
use sqlite_items::Items;
use values::{Content, Identifier, Kind};

/// A handler: its name, the guardian that has it, numbered from 1, how many ints and texts it takes, the kind of what
/// it gives back, if it gives a value, and its body.
#[derive(Drop)]
pub struct Handler {
    pub name: Identifier,
    pub guardian: u32,
    pub ints: u32,
    pub texts: u32,
    pub gives: Option<Kind>,
    pub body: Items<Statement>,
}

/// A client: the guardian at which it runs, numbered from 1, and its body.
#[derive(Drop)]
pub struct Client {
    pub home: u32,
    pub body: Items<Statement>,
}

/// A script that was checked: the opening contents of each guardian's objects, the handlers of all guardians in order,
/// and the clients.
#[derive(Drop)]
pub struct Checked {
    pub guardians: Items<Items<Content>>,
    pub handlers: Items<Handler>,
    pub clients: Items<Client>,
}
