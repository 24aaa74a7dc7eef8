//! A late certificate, line by line.

ghost use Rattle.std.specs.Prelude.{◌≡◌, option_map, OnOk};
ghost use Rattle.late_certificate.specs.Reading as spec;

use crate::due::Due;
use crate::kinds::line_of;
use crate::late::LateCertificate;
use crate::lines::Line;
use certificate::line_by_line::Lined;
use certificate::lines::Line as UsualLine;
use mode_network::{Bytes, Journey, Step};
use plan_base::Time;
use std::alloc::{AllocError, Global};

/// Puts the start of the journey, if there is a journey.
fn put_start(answer: &mut Option<Journey>, node: u32, at: Time)
    ensures { answer.new ≡ option_map (spec.started node at) answer.old }
{
    if let Some(journey) = answer {
        journey.start = node;
        journey.at = at;
    }
}

/// Puts a step at the end of the journey, if there is a journey.
fn put_step(answer: &mut Option<Journey>, step: Step) -> Result<(), AllocError>
    ensures { OnOk result (answer.new ≡ option_map (spec.with_step step) answer.old) }
{
    if let Some(journey) = answer {
        journey.steps.push(step)?;
    }
    Ok(())
}

/// Puts what a line says that any certificate may have.
fn put_usual(certificate: &mut LateCertificate, said: UsualLine) -> Result<(), AllocError>
    ensures { OnOk result (certificate.new ≡ spec.put_usual certificate.old said) }
{
    match said {
        UsualLine::Query(line) => certificate.line = line,
        UsualLine::Nothing => certificate.result = None,
        UsualLine::Start { node, at } => put_start(&mut certificate.result, node, at),
        UsualLine::Step(step) => put_step(&mut certificate.result, step)?,
        UsualLine::Label(label) => certificate.labels.push(label)?,
        _ => {}
    }
    Ok(())
}

impl Lined for LateCertificate {
    ghost use Rattle.late_certificate.specs.Reading.{late_meaning};

    type Line = Line;

    type Due = Due;

    ghost meaning = { late_meaning };

    fn line_of(alloc: Global, text: &[u8]) -> Result<Option<Line>, AllocError> {
        line_of(alloc, text)
    }

    fn first() -> Due {
        Due::Head
    }

    fn behind(place: Due, line: &Line) -> Option<Due> {
        place.behind(line)
    }

    fn is_last(place: Due) -> bool {
        place.is_last()
    }

    fn nothing(alloc: Global) -> LateCertificate {
        LateCertificate {
            line: Bytes::from(Vec::new(alloc)),
            result: None,
            labels: Vec::new(alloc),
        }
    }

    fn put(&mut self, alloc: Global, said: Line) -> Result<(), AllocError> {
        match said {
            Line::Head => {}
            Line::Depart(at) => {
                self.result = Some(Journey {
                    start: 0,
                    at,
                    steps: Vec::new(alloc),
                });
            }
            Line::Usual(said) => put_usual(self, said)?,
        }
        Ok(())
    }
}
