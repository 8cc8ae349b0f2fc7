// What `walk` writes: its page on standard output, and its complaints on standard error.
#![tactic(auto)]

pub mod complaints;
mod drawing;

use block::Cartridge;
use numbers::{IMAGE_MOST, RECORD_MAX};
use reader::Outcome;
use std::{fmt, io};
use survey::Tally;

fn title<P: Print>(out: &P, cartridge: Cartridge) -> io::Result<()> {
    let id = cartridge.id;
    let recording = cartridge.recording;
    println!(out;
        "cartridge {id}, recording {recording}, blocks {}\n",
        cartridge.capacity()
    )
}

// ---- The walk.
// What a read told, as its line says it.
#[derive(Clone, Copy)]
struct Told(Outcome);

impl fmt::Display for Told {
    fn fmt<W: fmt::Write>(&self, f: &mut fmt::Formatter<W>) -> fmt::Result {
        match self.0 {
            Outcome::Record(n) => write!(f, "record {n}"),
            Outcome::Mark => write!(f, "mark"),
            Outcome::End => write!(f, "end"),
            Outcome::Bad => write!(f, "bad"),
            Outcome::Stray => write!(f, "stray"),
            Outcome::Cut(q) => write!(f, "cut {q}"),
        }
    }
}

// Reads at p and tells the answer; gives the place where the walk goes on, where it does.
fn visit<P: Print>(out: &P, cartridge: Cartridge, p: usize) -> io::Result<Option<usize>> {
    let mut record = [0u8; RECORD_MAX];
    let got = reader::read(cartridge, p, &mut record);
    let Ok(outcome) = got.outcome else {
        return Ok(None);
    };
    println!(out; "{p} {}", Told(outcome))?;
    match outcome {
        Outcome::End => Ok(None),
        _ => Ok(Some(got.next)),
    }
}

// A walk has no more reads than blocks, and an image 128 of them at the most: the range says that it ends, where a
// `while` would need the reader's law that an answer lies behind the one before.
fn list<P: Print>(out: &P, cartridge: Cartridge) -> io::Result<()> {
    let mut place = Some(0);
    for _ in 0..IMAGE_MOST {
        match place.filter(|p| *p < cartridge.capacity()) {
            Some(p) => place = visit(out, cartridge, p)?,
            None => return Ok(()),
        }
    }
    Ok(())
}

fn count<P: Print>(out: &P, tally: Tally) -> io::Result<()> {
    let Tally {
        records,
        marks,
        ends,
        bads,
        strays,
        cuts,
    } = tally;
    println!(out;
        "records {records} marks {marks} ends {ends} bads {bads} strays {strays} cuts {cuts}\n"
    )
}

// ---- What to do.
fn advice(tally: Tally, clean: bool) -> &'static str {
    if clean {
        return "Clean: end of data was met, and nothing before it is damaged.";
    }
    match tally {
        Tally {
            records: 0,
            marks: 0,
            ends: 0,
            strays: 0,
            cuts: 0,
            ..
        } => { "Nothing opens: the key, the cartridge id or the recording number may be wrong." }
        Tally { ends: 0, .. } => {
            "No end of data: the image may be cut short, or the recording was not closed."
        }
        _ => {
            "Damaged: what is listed as a record or a mark is whole; blocks shown as x, s and c are lost."
        }
    }
}

// The page of a walk: the picture, the list, the counts and what to do.
pub fn tell<P: Print>(out: &P, cartridge: Cartridge, tally: Tally, clean: bool) -> io::Result<()> {
    title(out, cartridge)?;
    drawing::show(out, cartridge)?;
    list(out, cartridge)?;
    count(out, tally)?;
    println!(out; "{}", advice(tally, clean))
}

// ---- The usage page.
pub fn help<P: Print>(out: &P) -> io::Result<()> {
    println!(out; "usage: walk IMAGE KEY ID RECORDING\n")?;
    println!(out;
        "Walks a cartridge image and tells what is on it: a picture, one character a block; a line"
    )?;
    println!(out; "for each record, file mark and damaged place; and the counts.\n")?;
    println!(out; "  IMAGE      the image, 4 to 128 blocks of 512 bytes; - is standard input")?;
    println!(out; "  KEY        the key file, 24 bytes and nothing else")?;
    println!(out; "  ID         the cartridge id, 0 to {}", u32::MAX)?;
    println!(out; "  RECORDING  the recording number, 0 to {}\n", u64::MAX)?;
    println!(out; "Exit status: 0 clean, 1 walked and damage was found, 2 not done.")
}
