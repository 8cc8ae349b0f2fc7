// The reader. A returned part can't cross: its place and length do.
ghost use Rattle.std.specs.Prelude.{◌≡◌};
ghost use Rattle.reader.specs.Reading.{look_number};
ghost use Rattle.notchbadger.specs.FlatReader.{outcome_code, outcome_data, flat_got, FlatRead, record_place, looked_at};

use super::number_of;
use block::Cartridge;
use numbers::{BLOCK_BYTES, Refusal};
use reader::{Got, Outcome};

// ---- What crosses.
#[repr(C)]
#[derive(Clone, Copy)]
pub struct NbGot {
    pub outcome: u8,
    pub number: u8,
    pub data: usize,
    pub next: usize,
}

#[repr(C)]
#[derive(Clone, Copy)]
pub struct NbPart {
    pub offset: usize,
    pub length: usize,
}

// An outcome's codes: C has no enum whose cases hold a value.
pub const GOT_RECORD: u8 = 0;

pub const GOT_MARK: u8 = 1;

pub const GOT_END: u8 = 2;

pub const GOT_BAD: u8 = 3;

pub const GOT_STRAY: u8 = 4;

pub const GOT_CUT: u8 = 5;

pub const GOT_REFUSED: u8 = 6;

fn outcome_code(outcome: Result<Outcome, Refusal>) -> u8
    ensures { result ≡ outcome_code outcome }
{
    match outcome {
        Ok(Outcome::Record(_)) => GOT_RECORD,
        Ok(Outcome::Mark) => GOT_MARK,
        Ok(Outcome::End) => GOT_END,
        Ok(Outcome::Bad) => GOT_BAD,
        Ok(Outcome::Stray) => GOT_STRAY,
        Ok(Outcome::Cut(_)) => GOT_CUT,
        Err(_) => GOT_REFUSED,
    }
}

// A record's length, a cut's place.
fn outcome_data(outcome: Result<Outcome, Refusal>) -> usize
    ensures { result ≡ outcome_data outcome }
{
    match outcome {
        Ok(Outcome::Record(n)) => n,
        Ok(Outcome::Cut(q)) => q,
        _ => 0,
    }
}

impl From<Got> for NbGot {
    ghost from_gives = { λ got flat. flat ≡ flat_got got };

    fn from(got: Got) -> NbGot {
        NbGot {
            outcome: outcome_code(got.outcome),
            number: number_of(got.outcome),
            data: outcome_data(got.outcome),
            next: got.next,
        }
    }
}

// ---- The calls. C lends what a Cartridge holds part by part.
#[unsafe(no_mangle)]
pub extern "C" fn nb_read(
    key: &[u8],
    id: u32,
    recording: u64,
    image: &[u8],
    p: usize,
    buffer: &mut [u8],
) -> NbGot
    ensures { FlatRead key.now id recording image.now p buffer.old
        result buffer.new }
{
    let cartridge = Cartridge {
        key,
        id,
        recording,
        image,
    };
    NbGot::from(reader::read(cartridge, p, buffer))
}

#[unsafe(no_mangle)]
pub extern "C" fn nb_record_part(buffer: &[u8], length: usize) -> NbPart
    ensures { result ≡ record_place buffer.now length }
{
    let front = reader::record_part(buffer, length);
    NbPart {
        offset: 0,
        length: front.len(),
    }
}

#[unsafe(no_mangle)]
pub extern "C" fn nb_look_number(image: &[u8], p: usize) -> u8
    ensures { result ≡ look_number image.now p }
{
    number_of(reader::look_number(image, p))
}

#[unsafe(no_mangle)]
pub extern "C" fn nb_look(image: &[u8], p: usize) -> NbPart
    ensures { result ≡ looked_at image.now p }
{
    let length = reader::look(image, p).len();
    match reader::look_number(image, p) {
        Ok(()) => NbPart {
            offset: BLOCK_BYTES * p,
            length,
        },
        Err(_) => NbPart { offset: 0, length },
    }
}
