ghost use Rattle.std.specs.Prelude.{◌≡◌, map, reverse, IfOk, OnOk, false, [], ◌∷◌, ◌-◌};
ghost use Rattle.mode_expression.specs.Form.{form_of, in_turn, one_of};
ghost use Rattle.automaton.specs.Written.{written, letter, plus, copies_in_turn, options, repeat};

use crate::position_set::PositionSet;
use mode_expression::Expr;
use std::alloc::{AllocError, Global};

/// A position: its letters, and what may be read right after it.
#[derive(Clone, Copy)]
pub struct Draft {
    pub letters: u32,
    pub next: PositionSet,
}

/// Numbers the positions of an expression from the last one back, and finds what may be read after each.
#[derive(Drop)]
pub struct Builder {
    /// The positions that are left to number.
    at: u8,
    /// Whether only what may be read first is looked for.
    dry: bool,
    /// The positions, from the last one back.
    drafts: Vec<Draft>,
}

impl Builder {
    ghost use Rattle.automaton.specs.inside.Builds.{AddsTo, built_of, draft_row, grown};

    pub fn new(alloc: Global, positions: u8) -> Builder
        ensures { built_of result ≡ record { at = positions; dry = false; rows = [] } }
    {
        Builder {
            at: positions,
            dry: false,
            drafts: Vec::new(alloc),
        }
    }

    /// Numbers one position, and keeps its row but in a dry pass.
    fn add_row(&mut self, draft: Draft) -> Result<(), AllocError>
        ensures { OnOk result (built_of self.new ≡ record {
          at = self.old.at - 1;
          dry = self.old.dry;
          rows = grown self.old.dry (map draft_row self.old.drafts.items) (draft_row draft ∷ []);
        }) }
    {
        self.at = self.at.saturating_sub(1);
        if self.dry {
            return Ok(());
        }
        self.drafts.push(draft)?;
        Ok(())
    }

    fn add_letter(&mut self, bits: u32, after: PositionSet) -> Result<PositionSet, AllocError>
        ensures { IfOk result (AddsTo self.old self.new (letter bits) after) }
    {
        let place = PositionSet::just(self.at);
        self.add_row(Draft {
            letters: bits,
            next: after,
        })?;
        Ok(place)
    }

    /// Adds the positions of parts that stand one after the other, before `after`. Answers what may be
    /// read first.
    #[cycle(build)]
    fn add_sequence(
        &mut self,
        parts: &[Expr],
        after: PositionSet,
    ) -> Result<PositionSet, AllocError>
        ensures { IfOk result (AddsTo self.old self.new (written (in_turn (map form_of parts.now))) after) }
    {
        let mut next = after;
        for left in (0..parts.len()).rev() {
            next = self.add(&parts[left], next)?;
        }
        Ok(next)
    }

    #[cycle(build)]
    fn add_choice(&mut self, parts: &[Expr], after: PositionSet) -> Result<PositionSet, AllocError>
        ensures { IfOk result (AddsTo self.old self.new (written (one_of (map form_of parts.now))) after) }
    {
        let mut entered = PositionSet::empty();
        for left in (0..parts.len()).rev() {
            entered = self.add(&parts[left], after)?.or(entered);
        }
        Ok(entered)
    }

    #[cycle(build)]
    fn add_plus(&mut self, part: &Expr, after: PositionSet) -> Result<PositionSet, AllocError>
        ensures { IfOk result (AddsTo self.old self.new (plus (written (form_of part.now))) after) }
    {
        if self.dry {
            return self.add(part, after);
        }
        let at = self.at;
        self.dry = true;
        let first = self.add(part, PositionSet::empty())?;
        self.dry = false;
        self.at = at;
        self.add(part, first.or(after))
    }

    #[cycle(build)]
    fn add_copies(
        &mut self,
        part: &Expr,
        count: u32,
        after: PositionSet,
    ) -> Result<PositionSet, AllocError>
        ensures { IfOk result (AddsTo self.old self.new (copies_in_turn count
            (written (form_of part.now))) after) }
    {
        let mut next = after;
        for _ in 0..count {
            next = self.add(part, next)?;
        }
        Ok(next)
    }

    #[cycle(build)]
    fn add_options(
        &mut self,
        part: &Expr,
        count: u32,
        after: PositionSet,
    ) -> Result<PositionSet, AllocError>
        ensures { IfOk result (AddsTo self.old self.new (options count (written (form_of part.now))) after) }
    {
        let mut next = after;
        for _ in 0..count {
            next = after.or(self.add(part, next)?);
        }
        Ok(next)
    }

    #[cycle(build)]
    fn add_repeat(
        &mut self,
        part: &Expr,
        least: u32,
        most: Option<u32>,
        after: PositionSet,
    ) -> Result<PositionSet, AllocError>
        ensures { IfOk result (AddsTo self.old self.new (repeat (written (form_of part.now)) least
            most) after) }
    {
        match most {
            None => {
                let entered = self.add_plus(part, after)?;
                Ok(if least == 0 {
                    after.or(entered)
                } else {
                    entered
                })
            }
            Some(most) => {
                let next = self.add_options(part, most.saturating_sub(least), after)?;
                self.add_copies(part, least, next)
            }
        }
    }

    /// Adds the positions of an expression that stands before `after`. Answers what may be read first.
    #[cycle(build)]
    pub fn add(&mut self, expr: &Expr, after: PositionSet) -> Result<PositionSet, AllocError>
        ensures { IfOk result (AddsTo self.old self.new (written (form_of expr.now)) after) }
    {
        match expr {
            Expr::Letters(bits) => self.add_letter(*bits, after),
            Expr::Seq(parts) => self.add_sequence(parts, after),
            Expr::Alt(parts) => self.add_choice(parts, after),
            Expr::Repeat { of, least, most } => self.add_repeat(of, *least, *most, after),
        }
    }

    /// The positions in order.
    pub fn into_drafts(self) -> Vec<Draft>
        ensures { map draft_row result.items ≡ reverse (built_of self).rows }
    {
        let Builder {
            at: _,
            dry: _,
            mut drafts,
        } = self;
        drafts.reverse();
        drafts
    }
}
