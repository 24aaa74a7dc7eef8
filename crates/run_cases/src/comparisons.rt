//! Answers over hierarchies beside those without.

use crate::drawn::{Dice, push_queries, push_region};
use crate::runs::output;
use case_script::{Answer, Script, words};
use std::alloc::{AllocError, Global};

/// How many queries each region is asked, with and without each hierarchy.
const QUERIES: u64 = 25;

/// What was compared: the hierarchies, those of them that are sound, the queries, those with a journey, and those that arrive alike
/// with the hierarchy and without.
#[derive(Clone, Copy, Drop)]
struct Compared {
    hierarchies: u32,
    sound: u32,
    queries: u32,
    journeys: u32,
    alike: u32,
}

/// `equal FIRST END`: contracts the regions that are drawn from the numbers from FIRST on and below END, with no node kept and with
/// two, and asks each the same queries with the hierarchy and without.
pub fn equal(out: &mut Answer, words: &[u8]) -> Result<(), AllocError> {
    let (first, end) = words::cut(words);
    let mut compared = Compared {
        hierarchies: 0,
        sound: 0,
        queries: 0,
        journeys: 0,
        alike: 0,
    };
    for seed in words::number(first)..words::number(end) {
        compare_drawn(out.alloc(), seed, &mut compared)?;
    }
    tell(out, compared);
    Ok(())
}

fn tell(out: &mut Answer, compared: Compared) {
    out.shown("", compared.sound);
    out.shown(" of ", compared.hierarchies);
    out.shown(" hierarchies are sound; ", compared.journeys);
    out.shown(" of ", compared.queries);
    out.shown(" queries have a journey, ", compared.alike);
    out.text(" arrive alike\n");
}

/// Compares the answers over the region that is drawn from a number.
fn compare_drawn(alloc: Global, seed: u64, compared: &mut Compared) -> Result<(), AllocError> {
    let mut script = Script::new(alloc);
    let mut dice = Dice::new(seed);
    push_drawn(alloc, &mut script, &mut dice)?;
    compare_all(alloc, &mut script, compared)
}

fn push_drawn(alloc: Global, script: &mut Script, dice: &mut Dice) -> Result<(), AllocError> {
    push_region(alloc, script, dice)?;
    push_queries(alloc, script, dice, QUERIES)
}

fn compare_all(
    alloc: Global,
    script: &mut Script,
    compared: &mut Compared,
) -> Result<(), AllocError> {
    compare(alloc, script, b"modeplan|contract|region", compared)?;
    compare(
        alloc,
        script,
        b"modeplan|contract|region|--keep|2",
        compared,
    )
}

/// Makes a hierarchy, and compares the answers.
fn compare(
    alloc: Global,
    script: &mut Script,
    contract: &[u8],
    compared: &mut Compared,
) -> Result<(), AllocError> {
    let hierarchy = output(alloc, script, contract)?;
    push_bytes(alloc, script, &hierarchy)?;
    compared.hierarchies = compared.hierarchies.saturating_add(1);
    let sound = is_sound(alloc, script)?;
    compared.sound = compared.sound.saturating_add(u32::from(sound));
    compare_answers(alloc, script, compared)
}

/// Whether the program calls the hierarchy sound.
fn is_sound(alloc: Global, script: &Script) -> Result<bool, AllocError> {
    let checked = output(alloc, script, b"modeplan|check|region|hierarchy")?;
    Ok(checked.as_slice() == b"sound\n".as_slice())
}

fn compare_answers(
    alloc: Global,
    script: &Script,
    compared: &mut Compared,
) -> Result<(), AllocError> {
    let plain = output(alloc, script, b"modeplan|answer|region|queries")?;
    let over = output(
        alloc,
        script,
        b"modeplan|answer|region|queries|--hierarchy|hierarchy",
    )?;
    count(&plain, &over, compared);
    Ok(())
}

/// Counts the queries, those with a journey, and those that arrive alike.
fn count(plain: &[u8], over: &[u8], compared: &mut Compared) {
    let mut others = over.split(|byte| *byte == b'\n').filter(|line| tells(line));
    for line in plain.split(|byte| *byte == b'\n') {
        if tells(&line) {
            compared.queries = compared.queries.saturating_add(1);
            let journey = u32::from(line.starts_with(b"arrive "));
            compared.journeys = compared.journeys.saturating_add(journey);
            let alike = u32::from(others.next() == Some(line));
            compared.alike = compared.alike.saturating_add(alike);
        }
    }
}

/// Whether a line of a block tells when the journey arrives, or that there is none.
fn tells(line: &&[u8]) -> bool {
    line.starts_with(b"arrive ") || *line == b"no journey".as_slice()
}

/// Puts bytes into the script as the text `hierarchy`.
fn push_bytes(alloc: Global, script: &mut Script, bytes: &[u8]) -> Result<(), AllocError> {
    script.takes(alloc, b"text hierarchy")?;
    let line = written_out(alloc, bytes)?;
    script.takes(alloc, line.as_bytes())?;
    Ok(())
}

/// A line of a text of a script that stands for bytes.
fn written_out(alloc: Global, bytes: &[u8]) -> Result<String, AllocError> {
    let mut line = String::from_str(alloc, "|")?;
    for byte in bytes {
        write!(line, "\\x{byte:02x}")?;
    }
    line.push('\\')?;
    Ok(line)
}
