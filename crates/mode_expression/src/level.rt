ghost use Rattle.std.specs.Prelude.{◌≡◌, ◌≢◌, map, IfOk, OnOk, IfErr, OnErr, length, ◌∷◌, []};
ghost use Rattle.mode_expression.specs.Form.{form_of};
ghost use Rattle.mode_expression.specs.Grammar.{sequence, alternative};
ghost use Rattle.mode_expression.specs.inside.Machine.{empty_frame, with_part, with_choice};
ghost use Rattle.mode_expression.specs.inside.Machine.{group_of, repeat_in};

use crate::expr::Expr;
use std::alloc::{AllocError, Global};
use std::mem;

/// What was read of a group: its earlier alternatives, and the items of the one that is being read.
#[derive(Drop)]
pub struct Level {
    choices: Vec<Expr>,
    parts: Vec<Expr>,
}

/// The only part, or the parts as they were.
fn only_part(mut parts: Vec<Expr>) -> Result<Expr, Vec<Expr>>
    ensures one { IfOk result (λ part. parts.items ≡ part ∷ []) }
    ensures many { IfErr result (λ same. same.items ≡ parts.items) }
    ensures count { OnErr result (length parts.items ≢ 1) }
{
    if parts.len() != 1 {
        return Err(parts);
    }
    parts.pop().ok_or(parts)
}

/// A sequence of one part is that part.
fn make_sequence(parts: Vec<Expr>) -> Expr
    ensures { form_of result ≡ sequence (map form_of parts.items) }
{
    match only_part(parts) {
        Ok(part) => part,
        Err(parts) => Expr::Seq(parts),
    }
}

/// An alternative of one part is that part.
fn make_alternative(parts: Vec<Expr>) -> Expr
    ensures { form_of result ≡ alternative (map form_of parts.items) }
{
    match only_part(parts) {
        Ok(part) => part,
        Err(parts) => Expr::Alt(parts),
    }
}

impl Level {
    ghost use Rattle.mode_expression.specs.inside.Views.{frame_of, IsLevelAfter};

    pub fn new(alloc: Global) -> Level
        ensures { frame_of result ≡ empty_frame }
    {
        Level {
            choices: Vec::new(alloc),
            parts: Vec::new(alloc),
        }
    }

    /// Adds an item.
    pub fn push(&mut self, part: Expr) -> Result<(), AllocError>
        ensures { OnOk result (frame_of self.new ≡ with_part (frame_of self.old) (form_of part)) }
    {
        self.parts.push(part)?;
        Ok(())
    }

    /// Repeats the last item, where there is one.
    pub fn repeat_last(
        &mut self,
        alloc: Global,
        least: u32,
        most: Option<u32>,
    ) -> Result<bool, AllocError>
        ensures { IfOk result (IsLevelAfter (repeat_in (frame_of self.old) least most) self.new) }
    {
        match self.parts.pop() {
            None => Ok(false),
            Some(part) => {
                let of = Box::new(alloc, part)?;
                self.parts.push(Expr::Repeat { of, least, most })?;
                Ok(true)
            }
        }
    }

    /// Ends an alternative of the group.
    pub fn end_row(&mut self, alloc: Global) -> Result<(), AllocError>
        ensures { OnOk result (frame_of self.new ≡ with_choice (frame_of self.old)) }
    {
        let parts = mem::replace(&mut self.parts, Vec::new(alloc));
        self.choices.push(make_sequence(parts))?;
        Ok(())
    }

    /// The expression of the group.
    pub fn whole(self) -> Result<Expr, AllocError>
        ensures { IfOk result (λ expr. form_of expr ≡ group_of (frame_of self)) }
    {
        let Level { mut choices, parts } = self;
        choices.push(make_sequence(parts))?;
        Ok(make_alternative(choices))
    }
}
