//! A certificate, line by line.

ghost use Rattle.std.specs.Prelude.{◌≡◌, option_map, OnOk};
ghost use Rattle.certificate.specs.Reading as spec;

use crate::certificate::Certificate;
use crate::due::Due;
use crate::kinds::line_of;
use crate::line_by_line::Lined;
use crate::lines::Line;
use mode_network::{Bytes, Journey, Step};
use plan_base::Time;
use std::alloc::{AllocError, Global};

/// Puts the start of the journey, if there is a journey.
fn put_start(answer: &mut Option<(Time, Journey)>, node: u32, at: Time)
    ensures { answer.new ≡ option_map (spec.started node at) answer.old }
{
    if let Some((_, journey)) = answer {
        journey.start = node;
        journey.at = at;
    }
}

/// Puts a step at the end of the journey, if there is a journey.
fn put_step(answer: &mut Option<(Time, Journey)>, step: Step) -> Result<(), AllocError>
    ensures { OnOk result (answer.new ≡ option_map (spec.with_step step) answer.old) }
{
    if let Some((_, journey)) = answer {
        journey.steps.push(step)?;
    }
    Ok(())
}

impl Lined for Certificate {
    ghost use Rattle.certificate.specs.Reading.{cert_meaning};

    type Line = Line;

    type Due = Due;

    ghost meaning = { cert_meaning };

    fn line_of(alloc: Global, text: &[u8]) -> Result<Option<Line>, AllocError> {
        line_of(alloc, text)
    }

    fn first() -> Due {
        Due::Head
    }

    fn behind(place: Due, line: &Line) -> Option<Due> {
        place.behind(line)
    }

    fn is_last(place: Due) -> bool {
        place.is_last()
    }

    fn nothing(alloc: Global) -> Certificate {
        Certificate {
            line: Bytes::from(Vec::new(alloc)),
            phases: false,
            result: None,
            labels: Vec::new(alloc),
        }
    }

    fn put(&mut self, alloc: Global, said: Line) -> Result<(), AllocError> {
        match said {
            Line::Query(line) => self.line = line,
            Line::Graph { phases } => self.phases = phases,
            Line::Arrive(at) => {
                let journey = Journey {
                    start: 0,
                    at: 0,
                    steps: Vec::new(alloc),
                };
                self.result = Some((at, journey));
            }
            Line::Nothing => self.result = None,
            Line::Start { node, at } => put_start(&mut self.result, node, at),
            Line::Step(step) => put_step(&mut self.result, step)?,
            Line::Label(label) => self.labels.push(label)?,
            Line::Head | Line::Labels { .. } | Line::End => {}
        }
        Ok(())
    }
}
