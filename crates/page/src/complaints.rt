// What goes wrong: a line on standard error that says what is wrong and what was expected.
use numbers::{BLOCK_BYTES, IMAGE_MOST};
use print::NotANumber;
use std::env::Env;
use std::io::Write;
use std::{fmt, io, str};

// What stands behind the program's name, in its order.
#[derive(Clone, Copy, Debug, PartialEq, Eq)]
pub enum Argument {
    Image = 1,
    Key = 2,
    Id = 3,
    Recording = 4,
}

impl fmt::Display for Argument {
    fn fmt<W: fmt::Write>(&self, f: &mut fmt::Formatter<W>) -> fmt::Result {
        match self {
            Argument::Image => write!(f, "image"),
            Argument::Key => write!(f, "key"),
            Argument::Id => write!(f, "cartridge id"),
            Argument::Recording => write!(f, "recording number"),
        }
    }
}

// Why a walk is not done. A key file that is no key may be one with a line end behind it, or a key in hexadecimal.
#[derive(Clone, Copy)]
pub enum Complaint {
    Usage,
    WrongId(NotANumber),
    WrongRecording(NotANumber),
    UnreadableImage(io::Error),
    UnreadableKey(io::Error),
    WrongImage {
        bytes: usize,
    },
    WrongKey {
        bytes: usize,
        is_line: bool,
        is_hexadecimal: bool,
    },
    Output(io::Error),
}

// ---- Parts of a line. `rt` has the arguments, and `err` is standard error. A part that can't be written is passed
// over, and the next one tried: nobody is left to be told.
const IMAGE_LIMIT: usize = IMAGE_MOST * BLOCK_BYTES;

// Of a key file this much is read, and told: a key in hexadecimal too.
pub const KEY_SHOWN: usize = 64;

// An argument's bytes, which need not be text.
fn as_given<R: Env, E: Print>(rt: &R, err: &E, argument: Argument) {
    let mut text = [0u8; 4096];
    if let Ok(n) = rt.arg(argument as usize, &mut text) {
        let _ = err.write_all(&text[..n]);
    }
}

// How many bytes a file has, of which at most one more than `most` were read.
#[derive(Clone, Copy)]
struct Size {
    bytes: usize,
    most: usize,
}

impl fmt::Display for Size {
    fn fmt<W: fmt::Write>(&self, f: &mut fmt::Formatter<W>) -> fmt::Result {
        let Size { bytes, most } = *self;
        if most < bytes {
            write!(f, "more than {most} bytes")
        } else {
            write!(f, "{bytes} bytes")
        }
    }
}

// An error's words, without the number of the system's in brackets behind them.
#[derive(Clone, Copy)]
struct Words(io::Error);

impl fmt::Display for Words {
    fn fmt<W: fmt::Write>(&self, f: &mut fmt::Formatter<W>) -> fmt::Result {
        let error = self.0;
        let mut room = [0u8; 256];
        let mut rest = &mut room[..];
        let _ = write!(rest, "{error}");
        let n = 256usize.saturating_sub(rest.len());
        let text = str::from_utf8(&room[..n]).unwrap_or("");
        match text.split_once(" (os error ") {
            Some((words, _)) => write!(f, "{words}"),
            None => write!(f, "{text}"),
        }
    }
}

impl Complaint {
    pub fn tell<R: Env, E: Print>(self, rt: &R, err: &E) {
        match self {
            Complaint::Usage => usage(err),
            Complaint::WrongId(why) => {
                wrong_number(rt, err, Argument::Id, why, u64::from(u32::MAX))
            }
            Complaint::WrongRecording(why) => {
                wrong_number(rt, err, Argument::Recording, why, u64::MAX)
            }
            Complaint::UnreadableImage(error) => unreadable(rt, err, Argument::Image, error),
            Complaint::UnreadableKey(error) => unreadable(rt, err, Argument::Key, error),
            Complaint::WrongImage { bytes } => wrong_image(rt, err, bytes),
            Complaint::WrongKey {
                bytes,
                is_line,
                is_hexadecimal,
            } => { wrong_key(rt, err, bytes, is_line, is_hexadecimal) }
            Complaint::Output(error) => output(err, error),
        }
    }
}

fn usage<E: Print>(err: &E) {
    let _ = println!(err; "walk: expected 4 arguments");
    let _ = println!(err; "usage: walk IMAGE KEY ID RECORDING (walk --help says more)");
}

fn wrong_number<R: Env, E: Print>(rt: &R, err: &E, argument: Argument, why: NotANumber, most: u64) {
    let _ = print!(err; "walk: the {argument} \"");
    as_given(rt, err, argument);
    let _ = println!(err; "\" {why}: it is a number from 0 to {most}");
}

fn unreadable<R: Env, E: Print>(rt: &R, err: &E, argument: Argument, error: io::Error) {
    let _ = print!(err; "walk: can't read the {argument} ");
    as_given(rt, err, argument);
    let _ = println!(err; ": {}", Words(error));
}

fn output<E: Print>(err: &E, error: io::Error) {
    let _ = println!(err; "walk: can't write to standard output: {}", Words(error));
}

fn wrong_image<R: Env, E: Print>(rt: &R, err: &E, bytes: usize) {
    let most = IMAGE_LIMIT;
    let _ = print!(err; "walk: the image ");
    as_given(rt, err, Argument::Image);
    let _ = print!(err; " has {}", Size { bytes, most });
    if bytes < IMAGE_LIMIT && bytes % BLOCK_BYTES != 0 {
        let _ = print!(err; " and ends inside a block");
    }
    let _ = println!(err; ": an image has 4 to 128 blocks of 512 bytes");
}

fn wrong_key<R: Env, E: Print>(rt: &R, err: &E, bytes: usize, is_line: bool, is_hexadecimal: bool) {
    let most = KEY_SHOWN;
    let _ = print!(err; "walk: the key ");
    as_given(rt, err, Argument::Key);
    let _ = print!(err; " has {}", Size { bytes, most });
    if is_line {
        let _ = print!(err; ", the last a newline");
    }
    if is_hexadecimal {
        let _ = print!(err; " and looks like hexadecimal");
    }
    let _ = println!(err; ": a key file has 24 bytes and nothing else");
}
