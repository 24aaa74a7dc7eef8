//! Expressions and the words that their automata accept.

ghost use Rattle.std.specs.Prelude.{◌<◌};
ghost use Rattle.mode_expression.specs.Form.{form_of, IsUsable};

use crate::parts;
use automaton::{Collapsed, Positions};
use case_script::Answer;
use mode_expression::{Expr, parse};
use search_laws::Labels;
use std::alloc::Global;

/// `accepts WORD EXPR`, the letters of the word parted by `,`: whether the positions accept the word, and whether the
/// collapsed automaton does.
pub fn accepts(out: &mut Answer, words: &[u8]) {
    match parse(out.alloc(), parts::behind(words, 1)) {
        Ok(expr) => print_accepted(out, &expr, parts::word(words, 0)),
        Err(fault) => out.shown("", &fault),
    }
}

fn print_accepted(out: &mut Answer, expr: &Expr, word: &[u8])
    requires { IsUsable (form_of expr.now) }
{
    let alloc = out.alloc();
    if let Ok(positions) = Positions::of(alloc, expr) {
        out.shown("positions ", is_accepted(alloc, &positions, word));
        let collapsed = Collapsed::new(positions);
        out.shown(", collapsed ", is_accepted(alloc, &collapsed, word));
    }
}

/// `size EXPRESSION`: how many states the position automaton has, and how many moves its last one.
pub fn size(out: &mut Answer, text: &[u8]) {
    match parse(out.alloc(), text) {
        Ok(expr) => print_size(out, &expr),
        Err(fault) => out.shown("", &fault),
    }
}

fn print_size(out: &mut Answer, expr: &Expr)
    requires { IsUsable (form_of expr.now) }
{
    if let Ok(positions) = Positions::of(out.alloc(), expr) {
        let count = positions.states();
        let moves = match count.checked_sub(1) {
            Some(last) => positions.moves(last),
            None => 0,
        };
        out.shown("", count);
        out.shown(" states; the last has ", moves);
        out.text(" moves");
    }
}

/// `states EXPR`: the moves of each state of the positions, and of the collapsed automaton; a move as the bits of its
/// letters and the state that it leads to.
pub fn states(out: &mut Answer, text: &[u8]) {
    match parse(out.alloc(), text) {
        Ok(expr) => print_automata(out, &expr),
        Err(fault) => out.shown("", &fault),
    }
}

fn print_automata(out: &mut Answer, expr: &Expr)
    requires { IsUsable (form_of expr.now) }
{
    if let Ok(positions) = Positions::of(out.alloc(), expr) {
        print_states(out, "", &positions);
        print_states(out, "\ncollapsed ", &Collapsed::new(positions));
    }
}

/// Whether the automaton, of at most 128 states, reads the letters from one of its start states to an accepting one.
fn is_accepted<L: Labels>(alloc: Global, labels: &L, word: &[u8]) -> bool {
    let mut here = starts(labels);
    for i in 0..parts::count(word, b',') {
        if let Ok(Expr::Letters(letters)) = parse(alloc, parts::part(word, b',', i)) {
            here = after(labels, here, letters);
        }
    }
    is_accepting(labels, here)
}

/// The start states, as bits.
fn starts<L: Labels>(labels: &L) -> u128 {
    let mut starts = 0;
    for state in 0..labels.states() {
        if labels.is_start(state) {
            starts |= bit(state);
        }
    }
    starts
}

/// The states after one of some letters, as bits.
fn after<L: Labels>(labels: &L, here: u128, letters: u32) -> u128 {
    let mut next = 0;
    for state in 0..labels.states() {
        if here & bit(state) != 0 {
            next |= moved(labels, state, letters);
        }
    }
    next
}

/// The states after one of some letters that is read in a state.
fn moved<L: Labels>(labels: &L, state: u32, letters: u32) -> u128
    requires { state < (L.automaton labels.now).states }
{
    let mut next = 0;
    for i in 0..labels.moves(state) {
        let step = labels.move_at(state, i);
        if step.letters & letters != 0 {
            next |= bit(step.to);
        }
    }
    next
}

fn is_accepting<L: Labels>(labels: &L, here: u128) -> bool {
    for state in 0..labels.states() {
        if here & bit(state) != 0 && labels.accepts(state) {
            return true;
        }
    }
    false
}

fn bit(state: u32) -> u128 {
    1u128 << (state % 128)
}

fn print_states<L: Labels>(out: &mut Answer, before: &str, labels: &L) {
    out.shown(before, labels.states());
    out.text(" states:");
    for state in 0..labels.states() {
        print_moves(out, labels, state);
    }
}

/// The moves of a state by some letter, if there are any.
fn print_moves<L: Labels>(out: &mut Answer, labels: &L, state: u32)
    requires { state < (L.automaton labels.now).states }
{
    let mut some = false;
    for i in 0..labels.moves(state) {
        let step = labels.move_at(state, i);
        if step.letters != 0 {
            if !some {
                out.shown(" ", state);
                out.text("[");
            } else {
                out.text(" ");
            }
            out.hexadecimal("", u128::from(step.letters));
            out.shown(">", step.to);
            some = true;
        }
    }
    if some {
        out.text("]");
    }
}
