ghost use Rattle.std.specs.Prelude.{◌≡◌, length, IsTrue, IfOk, MatchOption, None, Some};
ghost use Rattle.std.specs.List.{list_all};
ghost use Rattle.script_model.specs.Resolved.{int_is_bound, text_is_bound};
ghost use Rattle.frames.specs.Evaluating.{int_value, text_value};
ghost use Rattle.frames.specs.Operating.{each};

use script_model::{IntExpr, TextExpr};
use std::alloc::{AllocError, Global};
use values::Text;

/// The value of an int expression; none where a sum or a difference in it is out of 64 bits.
pub(crate) fn int_value(ints: &[i64], expr: &IntExpr) -> Option<i64>
    requires { IsTrue (int_is_bound (length ints.now) expr.now) }
    ensures { result ≡ int_value ints.now expr.now }
{
    match expr {
        IntExpr::Literal(value) => Some(*value),
        IntExpr::Variable(place) => Some(ints[*place as usize]),
        IntExpr::Sum(x, y) => int_value(ints, x.get())?.checked_add(int_value(ints, y.get())?),
        IntExpr::Difference(x, y) => {
            int_value(ints, x.get())?.checked_sub(int_value(ints, y.get())?)
        }
    }
}

/// The value of a text expression.
pub(crate) fn text_value<'a>(texts: &'a [Text], expr: &'a TextExpr) -> &'a Text
    requires { IsTrue (text_is_bound (length texts.now) expr.now) }
    ensures { text_value texts.now expr.now ≡ Some result.now }
{
    match expr {
        TextExpr::Literal(text) => text,
        TextExpr::Variable(place) => &texts[*place as usize],
    }
}

/// What each of the int expressions gives, in order; none where one of them has no value.
#[tactic(auto, using(crate::proofs::Each::each_more, crate::proofs::Each::each_missing))]
pub(crate) fn int_values(
    alloc: Global,
    ints: &[i64],
    exprs: &[IntExpr],
) -> Result<Option<Vec<i64>>, AllocError>
    requires { IsTrue (list_all (λ e. int_is_bound (length ints.now) e) exprs.now) }
    ensures { IfOk result (λ found. MatchOption found
        (each (int_value ints.now) exprs.now ≡ None)
        (λ values. each (int_value ints.now) exprs.now ≡ Some values.items)) }
{
    let mut values = Vec::new(alloc);
    for expr in exprs {
        let Some(value) = int_value(ints, expr) else {
            return Ok(None);
        };
        values.push(value)?;
    }
    Ok(Some(values))
}

/// What each of the text expressions gives, in order.
#[tactic(auto, using(crate::proofs::Each::each_more))]
pub(crate) fn text_values(
    alloc: Global,
    texts: &[Text],
    exprs: &[TextExpr],
) -> Result<Vec<Text>, AllocError>
    requires { IsTrue (list_all (λ e. text_is_bound (length texts.now) e) exprs.now) }
    ensures { IfOk result (λ values. each (text_value texts.now) exprs.now ≡ Some values.items) }
{
    let mut values = Vec::new(alloc);
    for expr in exprs {
        values.push(text_value(texts, expr).copy()?)?;
    }
    Ok(values)
}
