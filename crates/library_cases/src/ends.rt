//! What files are read from and output is written to: in memory, and a folder's.

use crate::parts;
use case_script::{Answer, Script, words};
use plan_base::{
    FolderShelf, MemoryShelf, MemorySink, ReadFault, Shelf, Sink, StreamSink, read_whole, write_all,
};
use std::alloc::{AllocError, Global};
use std::collections::BTreeMap;
use std::fs;

/// `whole TEXT NAME CAP [K ..]`: the text of this name as the file `a`, the K-th reads of which fail; what reading the file NAME
/// whole answers, of at most CAP bytes.
pub fn whole(out: &mut Answer, script: &Script, words: &[u8]) {
    let text = script.text(parts::word(words, 0));
    let (name, cap) = (words::text(parts::word(words, 1)), parts::number(words, 2));
    if let Ok(mut shelf) = shelf_of(out.alloc(), text, parts::behind(words, 3)) {
        print_whole(out, &mut shelf, name, cap);
    }
}

/// Prints what reading a file whole answers, of at most so many bytes.
fn print_whole<S: Shelf>(out: &mut Answer, shelf: &mut S, name: &str, cap: u64) {
    let read = read_whole(out.alloc(), shelf, name, cap);
    print_read(out, read);
}

/// `reads TEXT ROOM AT ..`: what reads of the text of this name answer from each place in turn, into the same room.
pub fn reads(out: &mut Answer, script: &Script, words: &[u8]) {
    let text = script.text(parts::word(words, 0));
    let size = parts::number(words, 1) as usize;
    if let Ok(mut shelf) = shelf_of(out.alloc(), text, b"") {
        if let Ok(mut room) = vec![in out.alloc(); b'.'; size] {
            print_reads(out, &mut shelf, &mut room, parts::behind(words, 2));
        }
    }
}

fn print_reads(out: &mut Answer, shelf: &mut MemoryShelf, room: &mut [u8], places: &[u8]) {
    for i in 0..parts::count(places, b' ') {
        let answer = shelf.read("a", parts::number(places, i), room);
        out.debug("", answer);
        print_room(out, room);
        out.text("; ");
    }
}

/// `written_to ROOM MOST K BYTES`: whether all bytes were written to a sink with room for so many, of which each write takes so
/// many at most and the K-th write fails; and what was.
pub fn written_to(out: &mut Answer, words: &[u8]) {
    if let Ok(mut sink) = sink_of(out.alloc(), words) {
        let whole = write_all(&mut sink, parts::behind(words, 3)).is_ok();
        out.shown("whole ", whole);
        out.text(": ");
        out.bytes(sink.bytes());
    }
}

fn sink_of(alloc: Global, words: &[u8]) -> Result<MemorySink, AllocError> {
    let (room, most) = (parts::number(words, 0), parts::number(words, 1));
    let fail = vec![in alloc; parts::number(words, 2)]?;
    MemorySink::new(alloc, room as usize, (most as usize).max(1), fail)
}

/// `folder_of_run`: what is read of files that are written to the folder of the run: one of two pieces; none; the folder itself;
/// one that is replaced while it is read. And what a stream with room for four bytes says to five.
pub fn folder(rt: &HostRuntime, out: &mut Answer) {
    out.shown("written ", write(rt, "written.txt", "first ", "second"));
    print_file(rt, out, "written.txt", 12);
    print_file(rt, out, "written.txt", 11);
    print_file(rt, out, "absent.txt", 12);
    print_file(rt, out, ".", 12);
    print_file(rt, out, "written.txt/below", 12);
    remove(rt, "written.txt");
    let mut room = [b'.'; 4];
    print_replaced(rt, out, &mut room);
    let full = write_all(&mut StreamSink::new(room.as_mut_slice()), b"12345").is_ok();
    out.shown("\nfive bytes fit into four: ", full);
}

/// Prints what is read of a file in the folder of the run, of at most so many bytes.
fn print_file(rt: &HostRuntime, out: &mut Answer, name: &str, cap: u64) {
    out.text("\n");
    out.text(name);
    out.text(": ");
    print_whole(out, &mut FolderShelf::new(rt), name, cap);
}

/// Writes a file of two pieces to the folder of the run; whether all was written.
fn write(rt: &HostRuntime, name: &str, front: &str, back: &str) -> bool {
    match fs::create(rt, name) {
        Ok(file) => {
            let mut sink = StreamSink::new(file);
            write_all(&mut sink, front.as_bytes()).is_ok()
                && write_all(&mut sink, back.as_bytes()).is_ok()
        }
        Err(_) => false,
    }
}

fn remove(rt: &HostRuntime, name: &str) {
    let _ = fs::remove_file(rt, name);
}

/// What is read of a file, piece by piece, into the room of a piece, that is replaced behind the first piece.
fn print_replaced(rt: &HostRuntime, out: &mut Answer, room: &mut [u8]) {
    let old = write(rt, "old.txt", "old ", "bytes");
    let new = write(rt, "new.txt", "new", "");
    out.shown("\nwritten ", (old && new));
    let mut shelf = FolderShelf::new(rt);
    print_piece(out, &mut shelf, ", first ", 0, room);
    let _ = fs::rename(rt, "new.txt", "old.txt");
    print_piece(out, &mut shelf, ", next ", 4, room);
    print_room(out, room);
    print_piece(out, &mut shelf, ", again ", 0, room);
    print_room(out, room);
    remove(rt, "old.txt");
}

/// Reads a piece of the file that is replaced.
fn print_piece<S: Shelf>(
    out: &mut Answer,
    shelf: &mut S,
    before: &str,
    from: u64,
    room: &mut [u8],
) {
    let answer = shelf.read("old.txt", from, room);
    out.debug(before, answer);
}

fn print_room(out: &mut Answer, room: &[u8]) {
    out.text(" ");
    out.bytes(room);
}

/// A shelf with the file `a`, whose reads of these numbers fail.
fn shelf_of(alloc: Global, bytes: &[u8], fail: &[u8]) -> Result<MemoryShelf, AllocError> {
    let mut files = BTreeMap::new(alloc);
    put_file(alloc, &mut files, bytes)?;
    Ok(MemoryShelf::new(files, numbers_of(alloc, fail)?))
}

fn put_file(
    alloc: Global,
    files: &mut BTreeMap<String, Vec<u8>>,
    bytes: &[u8],
) -> Result<(), AllocError> {
    let name = String::from_str(alloc, "a")?;
    files.insert(name, Vec::from_slice(alloc, bytes)?)?;
    Ok(())
}

fn numbers_of(alloc: Global, words: &[u8]) -> Result<Vec<u64>, AllocError> {
    let mut numbers = Vec::new(alloc);
    for i in 0..parts::count(words, b' ') {
        numbers.push(parts::number(words, i))?;
    }
    Ok(numbers)
}

fn print_read(out: &mut Answer, read: Result<Vec<u8>, ReadFault>) {
    match read {
        Ok(bytes) if bytes.len() < 100 => out.bytes(&bytes),
        Ok(bytes) => {
            out.shown("", bytes.len());
            out.text(" bytes");
        }
        Err(fault) => out.debug("", &fault),
    }
}
