ghost use Rattle.std.specs.Prelude.{◌≡◌, ◌≢◌, ◌++◌, ℤ, IfOk, OnOk, IsErrOf};
ghost use Rattle.json.specs.Tree.{json_tokens};
ghost use Rattle.serde_json.specs.View.{view};
ghost use Rattle.serde_json.specs.Written.{outline};
ghost use Rattle.values.specs.Totals.{IsCounter, counter_data};

use crate::words::ValueFault;
use json::Writer;
use serde_json::Value as Json;
use std::alloc::AllocError;
use std::marker::Model;

/// What counts: a whole number of signed 64 bits.
#[derive(Debug, Drop)]
pub struct Counter {
    number: i64,
}

impl Model for Counter {
    ghost use Rattle.std.specs.Prelude.{ℤ};

    ghost Value = { ℤ };

    ghost view = { λ a. a.number };
}

impl Counter {
    /// The counter at this number.
    pub fn new(number: i64) -> Counter
        ensures { result ≡ number }
    {
        Counter { number }
    }

    /// Its number.
    pub fn number(&self) -> i64
        ensures { result ≡ self.now }
    {
        self.number
    }

    /// The same counter again.
    pub fn copy(&self) -> Counter
        ensures same { result ≡ self.now }
        ensures fits { IsCounter self.now }
    {
        Counter {
            number: self.number,
        }
    }

    /// The counter that this document is. `Unfit` comes exactly where no counter is this document.
    pub fn from_json(json: &Json) -> Result<Counter, ValueFault>
        ensures found { IfOk result (λ c. IsCounter c × (view json.now ≡ counter_data c)) }
        ensures refused { IsErrOf result ValueFault.Unfit → (n : ℤ) → IsCounter n
            → view json.now ≢ counter_data n }
    {
        match json {
            Json::Number(number) => Ok(Counter {
                number: number.as_i64().ok_or(ValueFault::Unfit)?,
            }),
            _ => Err(ValueFault::Unfit),
        }
    }

    pub(crate) fn write_tokens(&self, out: &mut Writer) -> Result<(), AllocError>
        ensures ok { OnOk result
            (out.new.tokens ≡ out.old.tokens ++ json_tokens (outline (counter_data self.now))) }
        ensures before { out.new.before ≡ out.old.before }
        ensures fits { IsCounter self.now }
    {
        out.i64(self.number)
    }
}
