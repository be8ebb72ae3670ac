// Files in and out. An output file is never left half written: a temporary name, then rename.
ghost use Rattle.std.specs.Prelude.{◌≤◌, length};

use std::env::Env;
use std::fmt::Display;
use std::io::{ErrorKind, Read, Write};
use std::rt::Files;
use std::{fs, io};

// Room for a name.
const NAME: usize = 4096;

// Room for the name of a part: of a name shorter than the longest, and `.part` behind it.
const PART: usize = 4100;

// Room for the words of an error.
const WORDS: usize = 512;

// What stands in a room that is filled but for its last bytes.
fn front(room: &[u8], left: usize) -> &[u8]
    ensures { length result.now ≤ length room.now }
{
    &room[..room.len().saturating_sub(left)]
}

// A text, written into the room; empty where it does not fit: a line with the name alone is then said.
fn written<D: Display + Drop>(text: D, room: &mut [u8]) -> &str {
    let mut rest = &mut room[..];
    if write!(rest, "{text}").is_err() {
        return "";
    }
    let left = rest.len();
    str::from_utf8(front(room, left)).unwrap_or("")
}

// A line on standard error: a file's name, and the system's words for an error, without the number that std puts behind them.
fn fail(rt: &impl Eprint, name: &str, error: io::Error) {
    let mut room = [0u8; WORDS];
    let said = written(error, &mut room);
    let words = said
        .split_once(" (os error ")
        .map_or(said, |(words, _)| words);
    let _ = eprintln!(rt; "{name}: {words}");
}

// The name that argument i is; empty where it is too long or there is none. No Option: std opens no file of an empty name, and
// its words for that are what is said.
fn argument<'a>(rt: &impl Env, i: usize, room: &'a mut [u8]) -> &'a [u8]
    ensures { length result.now ≤ length room.old }
{
    let len = rt.arg(i, room).unwrap_or(0);
    &room[..len]
}

// A file's name as text: std opens no other.
fn text<'a>(rt: &impl Eprint, name: &'a [u8]) -> io::Result<&'a str> {
    str::from_utf8(name).map_err(|_| {
        let error = io::Error::from(ErrorKind::InvalidFilename);
        fail(rt, "a name that is no text", error);
        error
    })
}

// Opens the file that argument i names.
pub fn open<R: Env + Files + Eprint>(rt: &R, i: usize) -> io::Result<R::File> {
    let mut room = [0u8; NAME];
    let path = text(rt, argument(rt, i, &mut room))?;
    fs::open(rt, path).inspect_err(|error| fail(rt, path, *error))
}

// Reads until the room is full, the file ends or a read fails: what then stands in it.
pub fn fill<'a>(file: &mut impl Read, room: &'a mut [u8]) -> &'a [u8]
    ensures { length result.now ≤ length room.old }
{
    let most = room.len() as u64;
    let mut rest = &mut room[..];
    let _ = io::copy(&mut file.by_ref().take(most), &mut rest);
    let left = rest.len();
    front(room, left)
}

// How many bytes are left of a file: nothing says that it ends, so the reads are counted. What is read between two ends of the
// file, or in 4,096 bytes, is a part; an empty one ends it: a terminal goes on after an end.
pub fn count_rest(file: &mut impl Read) -> usize {
    let mut chunk = [0u8; 4096];
    let (mut rest, mut part) = (0usize, 0usize);
    for _ in 0..1u64 << 32 {
        match file.read(&mut chunk) {
            Ok(n) if n > 0 => {
                rest = rest.saturating_add(n);
                part = part.saturating_add(n) % 4096;
            }
            _ if part == 0 => break,
            _ => part = 0,
        }
    }
    rest
}

// The name under which a result is written first: the name it is to have, with `.part` behind it; empty
// where that does not fit, as in `argument`.
fn part_name<'a>(path: &[u8], room: &'a mut [u8]) -> &'a [u8]
    ensures { length result.now ≤ length room.old }
{
    let len = path.len().saturating_add(5);
    if len > room.len() {
        return &[];
    }
    let part = &mut room[..len];
    part[..path.len()].copy_from_slice(path);
    part[path.len()..].copy_from_slice(b".part");
    part
}

// Whether the bytes are written whole; the file is closed then.
fn write_whole<F: Write + Drop>(mut file: F, bytes: &[u8]) -> io::Result<()> {
    file.write_all(bytes)
}

// Says what failed at the file of a name, and takes the part away again.
fn give_up(rt: &(impl Files + Eprint), part: &str, name: &str, error: io::Error) {
    fail(rt, name, error);
    let _ = fs::remove_file(rt, part);
}

// Writes the bytes to the file that argument i names.
pub fn store(rt: &(impl Env + Files + Eprint), i: usize, bytes: &[u8]) -> io::Result<()> {
    let (mut room, mut part_room) = ([0u8; NAME], [0u8; PART]);
    let name = part_name(argument(rt, i, &mut room), &mut part_room);
    let part = text(rt, name)?;
    let path = part.strip_suffix(".part").unwrap_or(part);
    let file = fs::create(rt, part).inspect_err(|error| fail(rt, part, *error))?;
    write_whole(file, bytes).inspect_err(|error| give_up(rt, part, part, *error))?;
    fs::rename(rt, part, path).inspect_err(|error| give_up(rt, part, path, *error))
}
