//! Parameters of statements.
ghost use Rattle.std.specs.Prelude.{◌≡◌, ◌≤◌, pos, string_bytes};
ghost use Rattle.sqlite_value.specs.Value.{owned};
ghost use Rattle.sqlite.specs.declared.types.Value.TheVariants.{Int, Text};

use sqlite::types::ValueRef;

/// A text as a parameter.
pub(crate) fn words(text: &String) -> ValueRef<'_>
    ensures { owned result ≡ Text (string_bytes text.now) }
{
    ValueRef::Text(text.as_bytes())
}

/// A number as a parameter.
pub fn number(n: u32) -> ValueRef<'static>
    ensures { owned result ≡ Int (pos n) }
{
    ValueRef::Int(i64::from(n))
}

/// A delta as a parameter.
pub fn amount(by: i64) -> ValueRef<'static>
    ensures { owned result ≡ Int by }
{
    ValueRef::Int(by)
}

/// A count as a parameter.
pub fn great_number(n: u64) -> ValueRef<'static>
    requires { n ≤ 9223372036854775807 }
    ensures { owned result ≡ Int (pos n) }
{
    ValueRef::Int(n as i64)
}
