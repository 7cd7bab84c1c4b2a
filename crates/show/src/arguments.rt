// The files that the arguments name. What is wrong with one is said on standard error, a line for each.

ghost use Rattle.std.specs.Prelude.{◌≤◌, length};

use catalogue::Catalogue;
use std::env::{Env, FillError};
use std::fs;
use std::io::{Error, ErrorKind, Read};
use std::rt::Files;

// A name list: 64 entries of 16 bytes, and one byte more by which a longer list is known.
const ENTRY: usize = 16;

const LIST: usize = 64 * ENTRY;

pub const LIST_AND_ONE: usize = LIST + 1;

// The system's number for an argument that is longer than any path.
const NAME_TOO_LONG: i32 = 36;

// There is no use in going on, and why was said.
#[derive(Clone, Copy, Debug, PartialEq, Eq)]
pub struct Told;

fn fail<R: Eprint>(rt: &R, what: &str, error: Error) -> Told {
    text::fail(rt, what, error);
    Told
}

fn tell<R: Eprint>(rt: &R, path: &str, words: &str) {
    let _ = eprintln!(rt; "{path}: {words}");
}

// The path that an argument gives. One that is missing or empty gives none.
fn path_of<'a, R: Env + Eprint>(
    rt: &R,
    argument: usize,
    what: &str,
    buf: &'a mut [u8],
) -> Result<Option<&'a str>, Told> {
    let n = match rt.arg(argument, buf) {
        Ok(0) | Err(FillError::NotPresent) => return Ok(None),
        Ok(n) => n,
        Err(FillError::TooLong) => {
            return Err(fail(rt, what, Error::from_raw_os_error(NAME_TOO_LONG)));
        }
    };
    match str::from_utf8(&buf[..n]) {
        Ok(path) => Ok(Some(path)),
        Err(_) => Err(fail(
            rt,
            what,
            Error::new(ErrorKind::InvalidInput, "its name is not UTF-8"),
        )),
    }
}

fn tell_length<R: Eprint>(rt: &R, path: &str, bytes: usize) {
    if bytes == 0 {
        tell(rt, path, "no name at all");
    } else if LIST < bytes {
        tell(
            rt,
            path,
            "longer than 64 names of 16 bytes; the rest is not looked at",
        );
    } else if bytes % ENTRY != 0 {
        tell(
            rt,
            path,
            "not a whole number of 16-byte names; the last one is not looked at",
        );
    }
}

// The names of a file, or as many of its bytes as there are.
fn names_in<'a, R: Eprint, F: Read>(
    rt: &R,
    file: &mut F,
    path: &str,
    list: &'a mut [u8],
) -> &'a [u8]
    ensures { length result.now ≤ length list.old }
{
    match intake::read_whole(file, list) {
        Ok(bytes) => {
            tell_length(rt, path, bytes);
            &list[..bytes]
        }
        Err(unread) => {
            text::fail(rt, path, unread.error);
            &list[..unread.bytes]
        }
    }
}

// A name list, or as much of it as there is: a job whose name it doesn't have is shown by its number.
pub fn read_names<'a, R: Files + Env + Eprint>(
    rt: &R,
    argument: usize,
    what: &str,
    list: &'a mut [u8],
) -> &'a [u8]
    ensures { length result.now ≤ length list.old }
{
    let mut buf = io::buffer();
    let Ok(Some(path)) = path_of(rt, argument, what, &mut buf) else {
        return &[];
    };
    match fs::open(rt, path) {
        Ok(mut file) => names_in(rt, &mut file, path, list),
        Err(error) => {
            text::fail(rt, path, error);
            &[]
        }
    }
}

fn catalogue_in<R: Eprint, F: Read>(rt: &R, file: &mut F, path: &str) -> Result<Catalogue, Told> {
    let mut text = io::large_buffer();
    let bytes = intake::read_whole(file, &mut text).map_err(|unread| fail(rt, path, unread.error))?;
    if bytes == text.len() {
        tell(rt, path, "too long for a catalogue");
        return Err(Told);
    }
    match Catalogue::parse(&text[..bytes]) {
        Ok(catalogue) => {
            if catalogue.more {
                tell(
                    rt,
                    path,
                    "a file can name only the first 254 numbers; the rest is not looked at",
                );
            }
            Ok(catalogue)
        }
        Err(line) => {
            let _ = eprintln!(rt; "{path}: {line}");
            Err(Told)
        }
    }
}

// The catalogue, or an empty one where the argument names none. Where it can't be had no answer would be right.
pub fn read_catalogue<R: Files + Env + Eprint>(
    rt: &R,
    argument: usize,
    what: &str,
) -> Result<Catalogue, Told> {
    let mut buf = io::buffer();
    let Some(path) = path_of(rt, argument, what, &mut buf)? else {
        return Ok(Catalogue::new());
    };
    match fs::open(rt, path) {
        Ok(mut file) => catalogue_in(rt, &mut file, path),
        Err(error) => Err(fail(rt, path, error)),
    }
}
