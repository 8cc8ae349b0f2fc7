// What comes in: arguments and files.
ghost use Rattle.std.specs.Prelude.{length, ◌≤◌, IfOk};
ghost use Rattle.print.specs.Parsing.{Within};

use page::complaints::Argument;
use print::NotANumber;
use std::env::{Env, FillError};
use std::io::{Input, Read};
use std::rt::Files;
use std::{fs, io, str};

// ---- Arguments.
// Linux starts no program with a longer argument.
const ARGUMENT_MOST: usize = 131072;

// Copies an argument to the start of `text`, as it was given, and gives its length: 0 where it is missing or longer
// than `text`.
fn copy_argument<R: Env>(rt: &R, argument: Argument, text: &mut [u8]) -> usize
    ensures { result ≤ length text.new }
{
    rt.arg(argument as usize, text).unwrap_or(0)
}

// The number up to `most` that an argument spells in decimal. The argument's room is in a frame of its own, which is
// gone when the image is read.
#[inline(never)]
fn number<R: Env>(rt: &R, argument: Argument, most: u64) -> Result<u64, NotANumber>
    ensures { Within most result }
{
    let mut text = [0u8; ARGUMENT_MOST];
    let n = copy_argument(rt, argument, &mut text);
    print::parse(&text[..n], most)
}

pub fn id<R: Env>(rt: &R) -> Result<u32, NotANumber> {
    let id = number(rt, Argument::Id, 4294967295)?;
    Ok(id as u32)
}

pub fn recording<R: Env>(rt: &R) -> Result<u64, NotANumber> {
    number(rt, Argument::Recording, u64::MAX)
}

// Whether the first argument is --help.
pub fn wants_help<R: Env>(rt: &R) -> bool {
    let mut text = [0u8; 4096];
    let n = copy_argument(rt, Argument::Image, &mut text);
    &text[..n] == b"--help".as_slice()
}

// Whether there is an argument i.
fn is_given<R: Env>(rt: &R, i: usize) -> bool {
    let mut text = [0u8; 1];
    !matches!(rt.arg(i, &mut text), Err(FillError::NotPresent))
}

// Whether there are four arguments behind the program's name.
pub fn are_four<R: Env>(rt: &R) -> bool {
    is_given(rt, 4) && !is_given(rt, 5)
}

// ---- Files.
// std opens a file by a name that is text.
fn open<R: Files>(rt: &R, name: &[u8]) -> io::Result<R::File> {
    match str::from_utf8(name) {
        Ok(text) => fs::open(rt, text),
        Err(_) => Err(io::Error::other("the name is not UTF-8")),
    }
}

// Reads until the buffer is full or the file ends, and gives the number of bytes. Each read asks for all that is still
// wanted, and one that fails ends it: `io::copy` reads 8,192 bytes at a time, which cuts a longer packet and lets an
// image change in between, and goes on for ever where each read is interrupted.
fn read_full<F: Read>(file: &mut F, room: &mut [u8]) -> io::Result<usize>
    ensures { IfOk result (λ n. n ≤ length room.new) }
{
    let mut done: usize = 0;
    while done < room.len() {
        let n = file.read(&mut room[done..])?;
        if n == 0 {
            return Ok(done);
        }
        done += n;
    }
    Ok(done)
}

fn read_file<R: Files>(rt: &R, name: &[u8], room: &mut [u8]) -> io::Result<usize>
    ensures { IfOk result (λ n. n ≤ length room.new) }
{
    let mut file = open(rt, name)?;
    read_full(&mut file, room)
}

// - is standard input.
pub fn read_image<R: Env + Files + Input>(rt: &R, room: &mut [u8]) -> io::Result<usize>
    ensures { IfOk result (λ n. n ≤ length room.new) }
{
    let mut name = [0u8; 4096];
    let n = copy_argument(rt, Argument::Image, &mut name);
    if &name[..n] == b"-".as_slice() {
        return read_full(&mut rt.reader(), room);
    }
    read_file(rt, &name[..n], room)
}

pub fn read_key<R: Env + Files>(rt: &R, room: &mut [u8]) -> io::Result<usize>
    ensures { IfOk result (λ n. n ≤ length room.new) }
{
    let mut name = [0u8; 4096];
    let n = copy_argument(rt, Argument::Key, &mut name);
    read_file(rt, &name[..n], room)
}
