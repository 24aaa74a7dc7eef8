//! Reading the files of a timetable feed.

ghost use Rattle.std.specs.Prelude.{◌≡◌, List, map, IfErr, IfOk, Ok, option_map, string_bytes};
ghost use Rattle.plan_base.specs.Shelves.{IsLater};
ghost use Rattle.plan_base.specs.declared.limits.Caps as c;
ghost use Rattle.gtfs_tables.specs.Feeds.{feed_of};
ghost use Rattle.gtfs_tables.specs.Sound.{IsFeed};
ghost use Rattle.compile_commands.specs.Feeds.{AreTables, IsFeedUnread, IsFileOfFeed, IsTableUnread, feed_files_of, may_be_absent, order_of_file, path_of, text_of};
ghost use Rattle.compile_commands.specs.inside.Working.{HasFeed, IsFeedOutcome, IsListsOutcome};

use fault_notes::bad_feed;
use gtfs_tables::{Feed, FeedFault, FeedFile, FeedFiles, read_feed};
use plan_base::{Caps, Shelf, Sink};
use run_steps::{FileRole, Outcome, SourceFault, read_file, read_file_if_there, tell};
use std::alloc::{AllocError, Global};

/// The files of a feed in the order in which they are read.
const IN_ORDER: [FeedFile; 8] = [
    FeedFile::Agency,
    FeedFile::Stops,
    FeedFile::Routes,
    FeedFile::Calendar,
    FeedFile::CalendarDates,
    FeedFile::Trips,
    FeedFile::Frequencies,
    FeedFile::StopTimes,
];

/// The timetable feed whose files lie in this folder. If there is none, `notes` is told why.
pub(crate) fn read_feed_in<F: Shelf, E: Sink>(
    alloc: Global,
    shelf: &mut F,
    folder: &str,
    caps: &Caps,
    notes: &mut E,
) -> Result<Feed, Outcome>
    ensures later { IsLater (F.meaning shelf.old) (F.meaning shelf.new) }
    ensures ok { IfOk result (HasFeed caps.now (F.meaning shelf.old) folder.now) }
    ensures sound { IfOk result IsFeed }
    ensures err { IfErr result (IsFeedOutcome caps.now (F.meaning shelf.old) (F.meaning shelf.new)
        folder.now) }
{
    let texts = read_tables(alloc, shelf, folder, &IN_ORDER, notes)?;
    lists(alloc, &texts, folder, caps, notes)
}

/// What the files of a feed hold, in this order; None for one that is absent and may be.
fn read_tables<F: Shelf, E: Sink>(
    alloc: Global,
    shelf: &mut F,
    folder: &str,
    tables: &[FeedFile],
    notes: &mut E,
) -> Result<Vec<Option<Vec<u8>>>, Outcome>
    ensures later { IsLater (F.meaning shelf.old) (F.meaning shelf.new) }
    ensures ok { IfOk result (λ texts. AreTables (F.meaning shelf.old) folder.now tables.now
        (map (option_map (λ bytes. bytes.items)) texts.items)) }
    ensures err { IfErr result (IsFeedUnread (F.meaning shelf.old) (F.meaning shelf.new) folder.now
        tables.now) }
{
    let mut texts = Vec::new(alloc);
    for table in tables {
        let text = read_table(alloc, shelf, folder, *table, notes)?;
        tell_large(alloc, folder, *table, text.as_deref(), notes);
        texts.push(text)?;
    }
    Ok(texts)
}

/// Tells that a file of a feed is read, where it is large.
fn tell_large<E: Sink>(
    alloc: Global,
    folder: &str,
    table: FeedFile,
    text: Option<&[u8]>,
    notes: &mut E,
) {
    let mebibytes = text.unwrap_or(&[]).len() >> 20;
    if mebibytes > 0 {
        let name = table.name();
        tell(
            alloc,
            notes,
            format!(in alloc; "{folder}/{name}: {mebibytes} MiB are read"),
        );
    }
}

/// What a file of a feed holds; None for one that is absent and may be.
fn read_table<F: Shelf, E: Sink>(
    alloc: Global,
    shelf: &mut F,
    folder: &str,
    table: FeedFile,
    notes: &mut E,
) -> Result<Option<Vec<u8>>, Outcome>
    ensures later { IsLater (F.meaning shelf.old) (F.meaning shelf.new) }
    ensures ok { IfOk result (λ text. IsFileOfFeed (F.meaning shelf.old) folder.now table
        (option_map (λ bytes. bytes.items) text)) }
    ensures err { IfErr result (IsTableUnread (F.meaning shelf.old) (F.meaning shelf.new) folder.now table
        (may_be_absent table)) }
{
    let path = path_of(alloc, folder, table)?;
    let role = FileRole::Feed(table);
    if may_be_absent(table) {
        return read_file_if_there(alloc, shelf, &path, role, notes);
    }
    let text = read_file(alloc, shelf, &path, role, notes)?;
    Ok(Some(text))
}

/// Whether a feed may be without this file.
fn may_be_absent(table: FeedFile) -> bool
    ensures { result ≡ may_be_absent table }
{
    match table {
        FeedFile::Calendar | FeedFile::CalendarDates | FeedFile::Frequencies => true,
        FeedFile::Agency
        | FeedFile::Stops
        | FeedFile::Routes
        | FeedFile::Trips
        | FeedFile::StopTimes => false,
    }
}

/// The path of a file of the feed in this folder.
fn path_of(alloc: Global, folder: &str, table: FeedFile) -> Result<String, AllocError>
    ensures { IfOk result (λ path. string_bytes path ≡ path_of folder.now table) }
{
    let mut path = String::from_str(alloc, folder)?;
    path.push_str("/")?;
    path.push_str(table.name())?;
    Ok(path)
}

/// The feed of what its files hold.
fn lists<E: Sink>(
    alloc: Global,
    texts: &[Option<Vec<u8>>],
    folder: &str,
    caps: &Caps,
    notes: &mut E,
) -> Result<Feed, Outcome>
    ensures ok { IfOk result (λ feed. feed_of caps.now (feed_files_of
        (map (option_map (λ bytes. bytes.items)) texts.now)) ≡ Ok feed) }
    ensures sound { IfOk result IsFeed }
    ensures err { IfErr result (IsListsOutcome caps.now (map (option_map (λ bytes. bytes.items)) texts.now)) }
{
    let files = files_of(texts);
    match read_feed(alloc, &files, caps) {
        Ok(feed) => Ok(feed),
        Err(FeedFault::OutOfMemory) => Err(Outcome::OutOfMemory),
        Err(fault) => {
            tell(alloc, notes, bad_feed(alloc, folder, &files, fault));
            Err(Outcome::BadFeed {
                fault: SourceFault::Feed(fault),
            })
        }
    }
}

/// The files that hold these texts in order.
fn files_of(texts: &[Option<Vec<u8>>]) -> FeedFiles<'_>
    ensures { (caps : c.Caps) → feed_of caps result ≡ feed_of caps
        (feed_files_of (map (option_map (λ bytes. bytes.items)) texts.now)) }
{
    FeedFiles {
        agency: text_of(texts, FeedFile::Agency),
        stops: text_of(texts, FeedFile::Stops),
        routes: text_of(texts, FeedFile::Routes),
        calendar: text_of(texts, FeedFile::Calendar),
        calendar_dates: text_of(texts, FeedFile::CalendarDates),
        trips: text_of(texts, FeedFile::Trips),
        frequencies: text_of(texts, FeedFile::Frequencies),
        stop_times: text_of(texts, FeedFile::StopTimes),
    }
}

/// What a file of the feed holds, where these are what they hold in order.
fn text_of(texts: &[Option<Vec<u8>>], table: FeedFile) -> Option<&[u8]>
    ensures { option_map (λ bytes. bytes.now) result ≡ text_of
        (map (option_map (λ bytes. bytes.items)) texts.now) table }
{
    match texts.get(place_of(table)) {
        Some(Some(bytes)) => Some(bytes.as_slice()),
        _ => None,
    }
}

/// Where a file of the feed stands in the order.
fn place_of(table: FeedFile) -> usize
    ensures { result ≡ order_of_file table }
{
    match table {
        FeedFile::Agency => 0,
        FeedFile::Stops => 1,
        FeedFile::Routes => 2,
        FeedFile::Calendar => 3,
        FeedFile::CalendarDates => 4,
        FeedFile::Trips => 5,
        FeedFile::Frequencies => 6,
        FeedFile::StopTimes => 7,
    }
}
