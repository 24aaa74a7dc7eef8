//! What is kept while the text of an expression stays.

ghost use Rattle.std.specs.Prelude.{◌≡◌, IfOk, IfSome, IsTrue};
ghost use Rattle.mode_expression.specs.Form.{form_of, IsUsable};
ghost use Rattle.mode_expression.specs.Reading.{IsExpression};
ghost use Rattle.kept_automata.specs.Texts.{IsMadeOfText, IsSpelledIn};

use crate::maker::Maker;
use crate::text::expression_text;
use journey::Query;
use mode_expression::{Expr, outcome_is_unique};
use std::alloc::{AllocError, Global};

/// What was made of the expression that was asked for last: of each maker one at most.
#[derive(Drop)]
pub struct Kept<M: Maker> {
    list: Vec<Expressed<M>>,
}

/// What a maker made of the expression of a text.
#[derive(Drop)]
pub struct Expressed<M: Maker> {
    text: Vec<u8>,
    maker: M,
    pub made: M::Made,
    ghost spelled: { ∥ IsMadeOfText text.items (λ form. M.is_made maker form made) ∥₁ },
}

impl<M: Maker> Kept<M> {
    /// Takes no memory.
    pub fn new(alloc: Global) -> Kept<M> {
        Kept {
            list: Vec::new(alloc),
        }
    }

    /// Gives out what a maker makes of a query's expression: what is kept where the text is the same, else a new one. What is
    /// kept of other texts is dropped. Until it is put back the maker's is not kept.
    pub fn take(
        &mut self,
        alloc: Global,
        maker: M,
        query: &Query,
    ) -> Result<Expressed<M>, AllocError>
        requires can { M.can_make maker }
        requires usable { IsUsable (form_of query.now.expr) }
        requires spelled { IsSpelledIn query.now.line (form_of query.now.expr) }
        ensures { IfOk result (λ it. M.is_made maker (form_of query.now.expr) it.made) }
    {
        let text = expression_text(query.line.as_slice());
        self.drop_others(text);
        match self.take_out(text, &maker) {
            Some(expressed) => Ok(expressed),
            None => Expressed::new(alloc, text, maker, &query.expr),
        }
    }

    /// Puts back what was given out.
    pub fn put(&mut self, expressed: Expressed<M>) -> Result<(), AllocError> {
        self.list.push(expressed)?;
        Ok(())
    }

    /// Drops all if what is kept was made of another text.
    fn drop_others(&mut self, text: &[u8]) {
        if let Some(first) = self.list.first() {
            if !first.has_text(text) {
                self.list.clear();
            }
        }
    }

    /// Takes out what this maker made of this text, if it is kept.
    fn take_out(&mut self, text: &[u8], maker: &M) -> Option<Expressed<M>>
        ensures { IfSome result (λ it. (it.text.items ≡ text.now) × (it.maker ≡ maker.now)) }
    {
        for place in 0..self.list.len() {
            if self.list[place].is_for(text, maker) {
                return Some(self.list.swap_remove(place));
            }
        }
        None
    }
}

impl<M: Maker> Expressed<M> {
    /// Whether its expression has this text.
    fn has_text(&self, text: &[u8]) -> bool
        ensures { IsTrue result → self.now.text.items ≡ text.now }
    {
        self.text.as_slice() == text
    }

    /// Whether this maker made it of an expression with this text.
    fn is_for(&self, text: &[u8], maker: &M) -> bool
        ensures { IsTrue result → (self.now.text.items ≡ text.now) × (self.now.maker ≡ maker.now) }
    {
        self.has_text(text) && self.maker.is_same(maker)
    }

    /// What a maker makes of an expression with this text.
    fn new(alloc: Global, text: &[u8], maker: M, expr: &Expr) -> Result<Expressed<M>, AllocError>
        requires can { M.can_make maker }
        requires usable { IsUsable (form_of expr.now) }
        requires spelled { IsExpression text.now (form_of expr.now) }
        ensures { IfOk result (λ it. M.is_made maker (form_of expr.now) it.made) }
    {
        let made = maker.make(alloc, expr)?;
        let text = Vec::from_slice(alloc, text)?;
        outcome_is_unique();
        Ok(Expressed { text, maker, made })
    }
}
