ghost use Rattle.std.specs.Prelude.{◌≡◌, string_bytes};
ghost use Rattle.script_model.specs.Faults.{fault_number};

use std::alloc::{AllocError, AllocFailed};
use std::fmt;
use std::marker::Model;
use thiserror::Error;

/// What is wrong with a script.
#[derive(Clone, Copy, Debug, PartialEq, Eq)]
pub enum FaultKind {
    /// It is no JSON, or something in it has another shape.
    Shape,
    /// There is no such guardian.
    Guardian,
    /// There is no such object.
    Object,
    /// There is no such handler.
    Handler,
    /// The object does not have the operation, the field or the tag.
    Operation,
    /// The arguments are too many or too few.
    Arguments,
    /// A value, a condition or a result has the wrong kind.
    Kind,
    /// The variable is not bound.
    Unbound,
    /// The variable is bound with another kind.
    Rebound,
    /// A limit is passed, or a number or count is below its least.
    Limit,
    /// A value is bound or returned where there is none, or cannot be, or may be missing.
    Flow,
    /// The handler can reach itself by calls.
    Recursion,
}

/// The place of a fault in a document: the names and indices that lead to it, each after a `/` (RFC 6901). The root is
/// the empty text, and is printed as `/`.
#[derive(Debug, Drop)]
pub struct Pointer {
    text: String,
}

impl Model for Pointer {
    ghost use Rattle.std.specs.Prelude.{List, ℕ, string_bytes};

    ghost Value = { List ℕ };

    ghost view = { λ a. string_bytes a.text };
}

impl Pointer {
    /// The place of this text.
    pub fn new(text: String) -> Pointer
        ensures { result ≡ string_bytes text }
    {
        Pointer { text }
    }

    /// Its text; the root's is empty.
    pub fn as_str(&self) -> &str
        ensures { result.now ≡ self.now }
    {
        self.text.as_str()
    }
}

/// Why a script is not accepted.
#[derive(Debug, Drop, Error)]
pub enum ScriptFault {
    #[error("out of memory")]
    Memory,
    #[error("fault {0} {1}")]
    Bad(FaultKind, Pointer),
}

impl FaultKind {
    /// Its number, from 1 to 12.
    pub fn number(self) -> u8
        ensures { result ≡ fault_number self }
    {
        match self {
            FaultKind::Shape => 1,
            FaultKind::Guardian => 2,
            FaultKind::Object => 3,
            FaultKind::Handler => 4,
            FaultKind::Operation => 5,
            FaultKind::Arguments => 6,
            FaultKind::Kind => 7,
            FaultKind::Unbound => 8,
            FaultKind::Rebound => 9,
            FaultKind::Limit => 10,
            FaultKind::Flow => 11,
            FaultKind::Recursion => 12,
        }
    }
}

/// Its number in decimal.
impl fmt::Display for FaultKind {
    ghost use Rattle.std.specs.Prelude.{Some, decimal};
    ghost use Rattle.script_model.specs.Faults.{fault_number};

    ghost output = { λ kind. Some (decimal (fault_number kind)) };

    fn fmt<W: fmt::Write>(&self, f: &mut fmt::Formatter<W>) -> fmt::Result {
        self.number().fmt(f)
    }
}

impl fmt::Display for Pointer {
    ghost use Rattle.std.specs.Prelude.{Some};
    ghost use Rattle.script_model.specs.Faults.{printed};

    ghost output = { λ place. Some (printed place) };

    fn fmt<W: fmt::Write>(&self, f: &mut fmt::Formatter<W>) -> fmt::Result {
        if self.text.is_empty() {
            return f.pad("/");
        }
        f.pad(self.text.as_str())
    }
}

impl From<AllocError> for ScriptFault {
    ghost use Rattle.std.specs.Prelude.{◌≡◌};
    ghost use Rattle.script_model.specs.declared.fault.ScriptFault.TheVariants.{Memory};

    ghost from_gives = { λ _ e. e ≡ Memory };

    fn from(_refused: AllocError) -> ScriptFault {
        ScriptFault::Memory
    }
}

impl<T: Drop> From<AllocFailed<T>> for ScriptFault {
    ghost use Rattle.std.specs.Prelude.{◌≡◌};
    ghost use Rattle.script_model.specs.declared.fault.ScriptFault.TheVariants.{Memory};

    ghost from_gives = { λ _ e. e ≡ Memory };

    fn from(_refused: AllocFailed<T>) -> ScriptFault {
        ScriptFault::Memory
    }
}
