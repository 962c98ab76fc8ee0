//! What a call answers, as a number and as a text.
ghost use Rattle.std.specs.Prelude.{◌≡◌, ◌≢◌, ℕ, IfSome, IfNone};
ghost use Rattle.argus_c.specs.Codes.{code_number, code_text};

/// What came of a call.
#[derive(Clone, Copy, PartialEq, Eq, Drop)]
pub(crate) enum Code {
    Done,
    Bad,
    Nothing,
    Memory,
    Small,
    Closed,
    Open,
    Store,
    NotOurs,
}

impl Code {
    pub(crate) fn number(self) -> u32
        ensures { result ≡ code_number self }
    {
        self as u32
    }

    /// The code with this number.
    pub(crate) fn of(number: u32) -> Option<Code>
        ensures found { IfSome result (λ code. code_number code ≡ number) }
        ensures none { IfNone result ((code : Code) → code_number code ≢ number) }
    {
        match number {
            0 => Some(Code::Done),
            1 => Some(Code::Bad),
            2 => Some(Code::Nothing),
            3 => Some(Code::Memory),
            4 => Some(Code::Small),
            5 => Some(Code::Closed),
            6 => Some(Code::Open),
            7 => Some(Code::Store),
            8 => Some(Code::NotOurs),
            _ => None,
        }
    }

    pub(crate) fn text(self) -> &'static str
        ensures { result.now ≡ code_text self }
    {
        match self {
            Code::Done => "done",
            Code::Bad => "not a setup, stores, a step or a name",
            Code::Nothing => "nothing to tell",
            Code::Memory => "out of memory",
            Code::Small => "the place is too small",
            Code::Closed => "the handle is closed",
            Code::Open => "the handle is open already",
            Code::Store => "a store failed",
            Code::NotOurs => "not the stores of this setup",
        }
    }
}
