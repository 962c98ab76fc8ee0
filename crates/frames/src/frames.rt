ghost use Rattle.std.specs.Prelude.{◌≡◌, false, length, IsTrue, IfOk, None, OnErr, OnOk, Some};
ghost use Rattle.std.specs.List.{list_all};
ghost use Rattle.script_model.specs.Resolved.{binding_is_bound, condition_is_bound, expr_is_bound, int_is_bound, is_place, text_is_bound};
ghost use Rattle.frames.specs.Binding.{bound_after, bound_at};
ghost use Rattle.frames.specs.Bound.{cut_back, nothing_bound, sizes};
ghost use Rattle.frames.specs.Evaluating.{int_value, text_value, truth_of, value_of};
ghost use Rattle.frames.specs.Operating.{given};

use crate::evaluating::{int_value, int_values, text_value, text_values};
use atomic_types::Reply;
use script_model::{Binding, Condition, Expr, HandlerCall, IntExpr, TextExpr};
use std::alloc::{AllocError, Global};
use std::marker::Model;
use values::{Text, Value};

/// The variables that are bound, by kind: each is at its place in the frame of its kind.
#[derive(Drop)]
pub struct Frames {
    ints: Vec<i64>,
    texts: Vec<Text>,
    truths: Vec<bool>,
}

impl Model for Frames {
    ghost use Rattle.frames.specs.Bound.{Bound};

    ghost Value = { Bound };

    ghost view = { λ a.
        record { ints = a.ints.items; texts = a.texts.items; truths = a.truths.items } };
}

/// How many variables of each kind are bound.
#[derive(Clone, Copy)]
pub struct Sizes {
    ints: usize,
    texts: usize,
    truths: usize,
}

impl Model for Sizes {
    ghost use Rattle.script_model.specs.Resolved as resolved;

    ghost Value = { resolved.Frames };

    ghost view = { λ a. record { ints = a.ints; texts = a.texts; truths = a.truths } };

    ghost inverse = { λ s. record { ints = s.ints; texts = s.texts; truths = s.truths } };
}

impl Frames {
    /// Frames in which nothing is bound.
    pub fn new(alloc: Global) -> Frames
        ensures { result ≡ nothing_bound }
    {
        Frames {
            ints: Vec::new(alloc),
            texts: Vec::new(alloc),
            truths: Vec::new(alloc),
        }
    }

    /// How many variables of each kind are bound.
    pub fn sizes(&self) -> Sizes
        ensures { result ≡ sizes self.now }
    {
        Sizes {
            ints: self.ints.len(),
            texts: self.texts.len(),
            truths: self.truths.len(),
        }
    }

    /// Forgets what was bound after the frames had these sizes.
    pub fn cut_to(&mut self, sizes: Sizes)
        ensures { self.new ≡ cut_back sizes self.old }
    {
        self.ints.truncate(sizes.ints);
        self.texts.truncate(sizes.texts);
        self.truths.truncate(sizes.truths);
    }

    /// Equal frames. Fails only if memory runs out.
    pub fn copy(&self) -> Result<Frames, AllocError>
        ensures { IfOk result (λ copy. copy ≡ self.now) }
    {
        let mut texts = Vec::with_capacity(*self.texts.allocator(), self.texts.len())?;
        for text in &self.texts {
            texts.push(text.copy()?)?;
        }
        Ok(Frames {
            ints: self.ints.clone()?,
            texts,
            truths: self.truths.clone()?,
        })
    }

    /// The value of an expression; none where a sum or a difference is out of 64 bits.
    pub(crate) fn int(&self, expr: &IntExpr) -> Option<i64>
        requires { IsTrue (int_is_bound (sizes self.now).ints expr.now) }
        ensures { result ≡ int_value self.now.ints expr.now }
    {
        int_value(&self.ints, expr)
    }

    fn text<'a>(&'a self, expr: &'a TextExpr) -> &'a Text
        requires { IsTrue (text_is_bound (sizes self.now).texts expr.now) }
        ensures { text_value self.now.texts expr.now ≡ Some result.now }
    {
        text_value(&self.texts, expr)
    }

    /// The value of an expression; none where a sum or a difference is out of 64 bits. Fails only if memory runs out.
    pub fn value(&self, expr: &Expr) -> Result<Option<Value>, AllocError>
        requires { IsTrue (expr_is_bound (sizes self.now) expr.now) }
        ensures { IfOk result (λ found. found ≡ value_of self.now expr.now) }
    {
        match expr {
            Expr::Int(expr) => Ok(self.int(expr).map(Value::Int)),
            Expr::Text(expr) => Ok(Some(Value::Text(self.text(expr).copy()?))),
        }
    }

    /// Whether a condition holds; none where a sum or a difference is out of 64 bits.
    pub fn holds(&self, condition: &Condition) -> Option<bool>
        requires { IsTrue (condition_is_bound (sizes self.now) condition.now) }
        ensures { result ≡ truth_of self.now condition.now }
    {
        match condition {
            Condition::SameInts(x, y) => Some(self.int(x)? == self.int(y)?),
            Condition::SameTexts(x, y) => Some(self.text(x) == self.text(y)),
            Condition::Less(x, y) => Some(self.int(x)? < self.int(y)?),
            Condition::Truth(place) => Some(self.truths[*place as usize]),
        }
    }

    /// The frames with which the handler's body begins; none where a sum or a difference is out of 64 bits. Fails
    /// only if memory runs out.
    pub fn arguments(&self, alloc: Global, call: &HandlerCall) -> Result<Option<Frames>, AllocError>
        requires ints { IsTrue
            (list_all (λ e. int_is_bound (sizes self.now).ints e) call.now.ints) }
        requires texts { IsTrue
            (list_all (λ e. text_is_bound (sizes self.now).texts e) call.now.texts) }
        ensures { IfOk result (λ found. found ≡ given self.now call.now) }
    {
        let Some(ints) = int_values(alloc, &self.ints, call.ints.as_slice())? else {
            return Ok(None);
        };
        Ok(Some(Frames {
            ints,
            texts: text_values(alloc, &self.texts, call.texts.as_slice())?,
            truths: Vec::new(alloc),
        }))
    }

    /// Binds a reply, and says whether it is of the kind that the binding asks; one of another kind binds nothing.
    /// Fails only if memory runs out, and then binds nothing either.
    pub fn bind(&mut self, binding: Binding, reply: Reply) -> Result<bool, AllocError>
        requires { IsTrue (binding_is_bound (sizes self.old) binding) }
        ensures fits { IfOk result
            (λ fits. IsTrue fits → bound_after self.old binding reply ≡ Some self.new) }
        ensures unfit { IfOk result
            (λ fits. fits ≡ false → bound_after self.old binding reply ≡ None) }
        ensures kept { IfOk result (λ fits. fits ≡ false → self.new ≡ self.old) }
        ensures err { OnErr result (self.new ≡ self.old) }
    {
        match (binding, reply) {
            (Binding::Nothing, Reply::Done) => (),
            (Binding::Int(place), Reply::Gives(Value::Int(value))) => {
                put(&mut self.ints, place, value)?;
            }
            (Binding::Text(place), Reply::Gives(Value::Text(value))) => {
                put(&mut self.texts, place, value)?;
            }
            (Binding::Truth(place), Reply::Truth(value)) => put(&mut self.truths, place, value)?,
            _ => return Ok(false),
        }
        Ok(true)
    }
}

/// Puts a value at a place of a frame, if there is a place: that of a bound variable, or the one after the last.
/// Fails only if memory runs out, and then leaves the frame as it was.
fn put<T: Drop>(frame: &mut Vec<T>, place: Option<u32>, value: T) -> Result<(), AllocError>
    requires { IsTrue (is_place (length frame.old.items) place) }
    ensures ok { OnOk result (frame.new.items ≡ bound_at frame.old.items place value) }
    ensures err { OnErr result (frame.new.items ≡ frame.old.items) }
{
    match place {
        None => Ok(()),
        Some(place) if (place as usize) < frame.len() => {
            frame[place as usize] = value;
            Ok(())
        }
        Some(_) => {
            frame.push(value)?;
            Ok(())
        }
    }
}
