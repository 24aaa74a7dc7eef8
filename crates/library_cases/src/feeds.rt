//! Timetable feeds.

use crate::parts;
use case_script::{Answer, Script, words};
use gtfs_tables::{Feed, FeedFiles, read_feed};

/// `feed FOLDER [KIND MOST]`: the rows of the feed whose files are the texts in a folder; or its first fault, in both spellings.
pub fn feed(out: &mut Answer, script: &Script, words: &[u8]) {
    let folder = parts::word(words, 0);
    let files = FeedFiles {
        agency: file(script, folder, "/agency.txt"),
        stops: file(script, folder, "/stops.txt"),
        routes: file(script, folder, "/routes.txt"),
        calendar: file(script, folder, "/calendar.txt"),
        calendar_dates: file(script, folder, "/calendar_dates.txt"),
        trips: file(script, folder, "/trips.txt"),
        frequencies: file(script, folder, "/frequencies.txt"),
        stop_times: file(script, folder, "/stop_times.txt"),
    };
    let caps = words::caps(parts::behind(words, 1));
    match read_feed(out.alloc(), &files, &caps) {
        Ok(feed) => print_feed(out, &feed),
        Err(fault) => out.debug("", &fault),
    }
}

/// The text of a folder and a file name, if there is one.
fn file<'a>(script: &'a Script, folder: &[u8], name: &str) -> Option<&'a [u8]> {
    for text in script.texts() {
        if text.name.strip_prefix(folder) == Some(name.as_bytes()) {
            return Some(&text.bytes);
        }
    }
    None
}

fn print_feed(out: &mut Answer, feed: &Feed) {
    out.text("a feed");
    for row in &feed.stops {
        print_row(out, "\nstop ", row.id.as_bytes(), row.row);
        out.debug(": ", row.place);
    }
    for row in &feed.routes {
        print_row(out, "\nroute ", row.id.as_bytes(), row.row);
        out.shown(": letter ", row.letter);
    }
    print_services(out, feed);
    print_trips(out, feed);
}

/// Prints the id of a row behind a text, and its number.
fn print_row(out: &mut Answer, before: &str, id: &[u8], row: u64) {
    out.text(before);
    out.bytes(id);
    out.shown(", row ", row);
}

fn print_services(out: &mut Answer, feed: &Feed) {
    for row in &feed.services {
        print_row(out, "\nservice ", row.id.as_bytes(), row.row);
        out.debug(": ", row.rule);
    }
    for row in &feed.dates {
        print_row(out, "\ndate of ", row.id.as_bytes(), row.row);
        out.shown(": ", row.date);
        out.shown(", added ", row.added);
    }
}

fn print_trips(out: &mut Answer, feed: &Feed) {
    for row in &feed.trips {
        print_row(out, "\ntrip ", row.id.as_bytes(), row.row);
        out.shown(": route ", row.route);
        out.text(", service ");
        out.bytes(row.service.as_bytes());
    }
    for row in &feed.frequencies {
        out.debug("\n", row);
    }
    for row in &feed.calls {
        out.debug("\n", row);
    }
}
