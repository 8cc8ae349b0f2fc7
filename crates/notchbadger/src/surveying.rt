// Spacing and the report.
ghost use Rattle.std.specs.Prelude.{◌≡◌};
ghost use Rattle.survey.specs.Report.{report_of};
ghost use Rattle.survey.specs.Spacing.{spacing};
ghost use Rattle.notchbadger.specs.FlatSurvey.{spaced_code, spaced_marks, flat_spaced, flat_tally};

use super::number_of;
use block::Cartridge;
use numbers::Refusal;
use survey::{Reach, Spaced, Tally};

// ---- What crosses.
#[repr(C)]
#[derive(Clone, Copy)]
pub struct NbSpaced {
    pub kind: u8,
    pub number: u8,
    pub position: usize,
    pub marks: usize,
}

#[repr(C)]
#[derive(Clone, Copy)]
pub struct NbTally {
    pub number: u8,
    pub records: usize,
    pub marks: usize,
    pub ends: usize,
    pub bads: usize,
    pub strays: usize,
    pub cuts: usize,
}

// The kinds of a spacing's answer: C has no enum whose cases hold a value.
pub const SPACED_AT: u8 = 0;

pub const SPACED_SHORT: u8 = 1;

pub const SPACED_REFUSED: u8 = 2;

fn spaced_code(reach: Result<Reach, Refusal>) -> u8
    ensures { result ≡ spaced_code reach }
{
    match reach {
        Ok(Reach::There) => SPACED_AT,
        Ok(Reach::Short(_)) => SPACED_SHORT,
        Err(_) => SPACED_REFUSED,
    }
}

// The marks passed, where it fell short.
fn spaced_marks(reach: Result<Reach, Refusal>) -> usize
    ensures { result ≡ spaced_marks reach }
{
    match reach {
        Ok(Reach::Short(marks)) => marks,
        _ => 0,
    }
}

impl From<Spaced> for NbSpaced {
    ghost from_gives = { λ spaced flat. flat ≡ flat_spaced spaced };

    fn from(spaced: Spaced) -> NbSpaced {
        NbSpaced {
            kind: spaced_code(spaced.reach),
            number: number_of(spaced.reach),
            position: spaced.position,
            marks: spaced_marks(spaced.reach),
        }
    }
}

impl From<Result<Tally, Refusal>> for NbTally {
    ghost from_gives = { λ report flat. flat ≡ flat_tally report };

    fn from(report: Result<Tally, Refusal>) -> NbTally {
        let tally = report.unwrap_or_default();
        NbTally {
            number: number_of(report),
            records: tally.records,
            marks: tally.marks,
            ends: tally.ends,
            bads: tally.bads,
            strays: tally.strays,
            cuts: tally.cuts,
        }
    }
}

// ---- The calls. C lends what a Cartridge holds part by part.
#[unsafe(no_mangle)]
pub extern "C" fn nb_space(
    key: &[u8],
    id: u32,
    recording: u64,
    image: &[u8],
    p: usize,
    n: usize,
) -> NbSpaced
    ensures { result ≡ flat_spaced (spacing key.now id recording image.now p n) }
{
    let cartridge = Cartridge {
        key,
        id,
        recording,
        image,
    };
    NbSpaced::from(survey::space(cartridge, p, n))
}

#[unsafe(no_mangle)]
pub extern "C" fn nb_report(key: &[u8], id: u32, recording: u64, image: &[u8]) -> NbTally
    ensures { result ≡ flat_tally (report_of key.now id recording image.now) }
{
    let cartridge = Cartridge {
        key,
        id,
        recording,
        image,
    };
    NbTally::from(survey::report(cartridge))
}
