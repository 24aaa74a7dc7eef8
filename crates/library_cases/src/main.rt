//! Calls the libraries on the cases of the files in `cases`, and prints which answer otherwise than is wanted.
//!
//! A case is a line: the name of a call and its words. The texts that it names stand before it, and the wanted answer behind it;
//! `case_script` says how.
#![tactic(auto)]

mod arcs;
mod automata;
mod calendars;
mod certificates;
mod drawn;
mod ends;
mod expressions;
mod feeds;
mod hierarchies;
mod maps;
mod networks;
mod parts;
mod places;
mod queries;
mod roads;
mod texts;

use case_script::{Answer, Calls, Script, play};
use std::io;

fn main(rt: HostRuntime) -> io::Result<()> {
    play(&rt, "cases", &mut Libraries { rt: &rt })
}

/// The calls of the libraries.
#[derive(Drop)]
struct Libraries<'a> {
    rt: &'a HostRuntime,
}

impl Calls for Libraries<'_> {
    /// What a call answers, and a line feed behind it.
    fn answer(
        &mut self,
        script: &Script,
        call: &str,
        words: &[u8],
        out: &mut Answer,
    ) -> io::Result<()> {
        match call {
            "folder_of_run" => ends::folder(self.rt, out),
            _ => answer(out, script, call, words),
        }
        out.text("\n");
        Ok(())
    }
}

/// What a call answers that is about texts or files.
fn answer(out: &mut Answer, script: &Script, call: &str, words: &[u8]) {
    match call {
        "digits" => texts::digits(out, words),
        "written" => texts::written(out, words),
        "name" => texts::name(out, script.text(words)),
        "lines" => texts::lines(out, script.text(words)),
        "whole" => ends::whole(out, script, words),
        "reads" => ends::reads(out, script, words),
        "written_to" => ends::written_to(out, words),
        _ => answer_of_places(out, script, call, words),
    }
}

/// What a call answers that is about places, dates or days.
fn answer_of_places(out: &mut Answer, script: &Script, call: &str, words: &[u8]) {
    match call {
        "degrees" => places::degrees(out, words),
        "length" => places::length(out, words),
        "walk" => places::walk(out, words),
        "nearest" => places::nearest(out, words),
        "set" => places::set(out, words),
        "limits" => places::limits(out, words),
        "date" => calendars::date(out, words),
        "days" | "day" | "clock" | "service" => calendars::of_days(out, script, call, words),
        _ => answer_of_files(out, script, call, words),
    }
}

/// What a call answers that is about a map, a feed, a region, a hierarchy or a certificate.
fn answer_of_files(out: &mut Answer, script: &Script, call: &str, words: &[u8]) {
    match call {
        "map" => maps::map(out, script, words),
        "cuts" => maps::cuts(out, script.text(words)),
        "bytewise" => maps::bytewise(out, script.text(words)),
        "again" => maps::again(out, script, words),
        "roads" => roads::roads(out, script, words),
        "feed" => feeds::feed(out, script, words),
        "region" => networks::region(out, script, words),
        "hierarchy" => hierarchies::hierarchy(out, script, words),
        "sweep" => hierarchies::sweep(out, script, words),
        "descend" => hierarchies::descend(out, script, words),
        "certificate" => certificates::certificate(out, script.text(words)),
        _ => answer_of_expressions(out, script, call, words),
    }
}

/// What a call answers that is about expressions, automata or drawn graphs, or about a network.
fn answer_of_expressions(out: &mut Answer, script: &Script, call: &str, words: &[u8]) {
    match call {
        "expression" => expressions::expression(out, words),
        "spelled" => expressions::expression(out, script.text(words)),
        "letters" => expressions::letters(out),
        "accepts" => automata::accepts(out, words),
        "size" => automata::size(out, words),
        "states" => automata::states(out, words),
        "searches" => drawn::searches(out, words),
        "lists" => drawn::lists(out, words),
        _ => networks::of_network(out, script, call, words),
    }
}
