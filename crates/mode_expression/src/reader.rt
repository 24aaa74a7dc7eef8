ghost use Rattle.std.specs.Prelude.{◌≡◌, IfOk, OnOk, Some, option_map, true};
ghost use Rattle.mode_expression.specs.Form.{form_of};
ghost use Rattle.mode_expression.specs.inside.Machine.{empty_reading, finish, at_place};
ghost use Rattle.mode_expression.specs.inside.Machine.{put_atom, open_group, close_group, end_row, repeat_last};
ghost use Rattle.mode_expression.specs.inside.Machine.{step, step_atom, step_item, step_suffix};
ghost use Rattle.mode_expression.specs.inside.Machine.{step_after_least, step_most};

use crate::expr::Expr;
use crate::level::Level;
use crate::place::Place;
use crate::token::Token;
use std::alloc::{AllocError, Global};
use std::mem;

/// What was read of an expression: the groups that are open around this one, this one, and what may
/// stand next.
#[derive(Drop)]
pub struct Reader {
    alloc: Global,
    outer: Vec<Level>,
    level: Level,
    place: Place,
}

impl Reader {
    ghost use Rattle.mode_expression.specs.inside.Views.{IsAfter, state_of_reader};

    pub fn new(alloc: Global) -> Reader
        ensures { state_of_reader result ≡ empty_reading }
    {
        Reader {
            alloc,
            outer: Vec::new(alloc),
            level: Level::new(alloc),
            place: Place::NeedsAtom,
        }
    }

    fn put_atom(&mut self, atom: Expr) -> Result<(), AllocError>
        ensures { OnOk result (state_of_reader self.new ≡ put_atom (state_of_reader self.old)
            (form_of atom)) }
    {
        self.level.push(atom)?;
        self.place = Place::AfterAtom;
        Ok(())
    }

    fn open_group(&mut self) -> Result<(), AllocError>
        ensures { OnOk result (state_of_reader self.new ≡ open_group (state_of_reader self.old)) }
    {
        let around = mem::replace(&mut self.level, Level::new(self.alloc));
        self.outer.push(around)?;
        self.place = Place::NeedsAtom;
        Ok(())
    }

    /// Ends this group, where it is one in parentheses.
    fn close_group(&mut self) -> Result<bool, AllocError>
        ensures { IfOk result (IsAfter (close_group (state_of_reader self.old)) self.new) }
    {
        match self.outer.pop() {
            None => Ok(false),
            Some(around) => {
                let group = mem::replace(&mut self.level, around);
                self.put_atom(group.whole()?)?;
                Ok(true)
            }
        }
    }

    fn end_row(&mut self) -> Result<(), AllocError>
        ensures { OnOk result (state_of_reader self.new ≡ end_row (state_of_reader self.old)) }
    {
        self.level.end_row(self.alloc)?;
        self.place = Place::NeedsAtom;
        Ok(())
    }

    fn repeat_last(&mut self, least: u32, most: Option<u32>) -> Result<bool, AllocError>
        ensures { IfOk result (IsAfter (repeat_last (state_of_reader self.old) least most) self.new) }
    {
        let done = self.level.repeat_last(self.alloc, least, most)?;
        if done {
            self.place = Place::AfterItem;
        }
        Ok(done)
    }

    fn move_to(&mut self, place: Place) -> bool
        ensures place { state_of_reader self.new ≡ at_place (state_of_reader self.old) place }
        ensures done { result ≡ true }
    {
        self.place = place;
        true
    }

    fn read_atom(&mut self, token: Token) -> Result<bool, AllocError>
        ensures { IfOk result (IsAfter (step_atom (state_of_reader self.old) token) self.new) }
    {
        match token {
            Token::Name(bits) => self.put_atom(Expr::Letters(bits))?,
            Token::Open => self.open_group()?,
            _ => return Ok(false),
        }
        Ok(true)
    }

    fn read_item(&mut self, token: Token) -> Result<bool, AllocError>
        ensures { IfOk result (IsAfter (step_item (state_of_reader self.old) token) self.new) }
    {
        match token {
            Token::Bar => {
                self.end_row()?;
                Ok(true)
            }
            Token::Close => self.close_group(),
            _ => self.read_atom(token),
        }
    }

    fn read_suffix(&mut self, token: Token) -> Result<bool, AllocError>
        ensures { IfOk result (IsAfter (step_suffix (state_of_reader self.old) token) self.new) }
    {
        match token {
            Token::Star => self.repeat_last(0, None),
            Token::Plus => self.repeat_last(1, None),
            Token::Question => self.repeat_last(0, Some(1)),
            Token::OpenBrace => Ok(self.move_to(Place::Least)),
            _ => self.read_item(token),
        }
    }

    fn read_after_least(&mut self, least: u32, token: Token) -> Result<bool, AllocError>
        ensures { IfOk result (IsAfter (step_after_least (state_of_reader self.old) least token) self.new) }
    {
        match token {
            Token::CloseBrace if least >= 1 => self.repeat_last(least, Some(least)),
            Token::Comma => Ok(self.move_to(Place::Most(least))),
            _ => Ok(false),
        }
    }

    fn read_most(&mut self, least: u32, token: Token) -> bool
        ensures { IsAfter (step_most (state_of_reader self.old) least token) self.new result }
    {
        match token {
            Token::Number(most) if most >= 1 && least <= most => self.move_to(Place::AfterMost(
                least, most,
            )),
            _ => false,
        }
    }

    /// Reads one more token, if it may stand here.
    pub fn read(&mut self, token: Token) -> Result<bool, AllocError>
        ensures { IfOk result (IsAfter (step (state_of_reader self.old) token) self.new) }
    {
        match self.place {
            Place::NeedsAtom => self.read_atom(token),
            Place::AfterAtom => self.read_suffix(token),
            Place::AfterItem => self.read_item(token),
            Place::Least => match token {
                Token::Number(least) => Ok(self.move_to(Place::AfterLeast(least))),
                _ => Ok(false),
            },
            Place::AfterLeast(least) => self.read_after_least(least, token),
            Place::Most(least) => Ok(self.read_most(least, token)),
            Place::AfterMost(least, most) => match token {
                Token::CloseBrace => self.repeat_last(least, Some(most)),
                _ => Ok(false),
            },
        }
    }

    /// The expression, if the text may end here.
    pub fn finish(self) -> Result<Option<Expr>, AllocError>
        ensures { IfOk result (λ whole. option_map form_of whole ≡ finish (state_of_reader self)) }
    {
        let Reader {
            alloc: _,
            outer,
            level,
            place,
        } = self;
        let ends = matches!(place, Place::AfterAtom | Place::AfterItem) && outer.is_empty();
        if ends {
            Ok(Some(level.whole()?))
        } else {
            Ok(None)
        }
    }
}
