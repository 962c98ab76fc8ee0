ghost use Rattle.client_threads.specs.Laws.{EndsAreSo};

/// Where the receipts of all clients are those of one run, the end of each client says committed exactly where its top
/// action is committed in that run.
pub fn ends_are_so()
    ensures { EndsAreSo }
{}
