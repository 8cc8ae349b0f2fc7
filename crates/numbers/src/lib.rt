// The numbers that a caller can get back, and the sizes and limits of the format: each stands here once, and the
// enum of the causes. The header's defines are held to
// this table by ./check (NB_ before the name), and the definitions in specs/ say them again as the pages do, so that a proof fails where
// the two differ.
#![tactic(auto)]

ghost use Rattle.std.specs.Prelude.{◌≡◌};
ghost use Rattle.numbers.specs.Refusals.{cause_number};

// ---- Carried out, and the causes of a refusal.
pub const DONE: u8 = 0;

// an image that is not 4 to 128 whole blocks
pub const WRONG_IMAGE: u8 = 1;

// a key, a nonce or a buffer of a wrong length
pub const WRONG_LENGTH: u8 = 2;

// a warning zone outside 1 to c - 1
pub const WRONG_ZONE: u8 = 3;

// a record of no bytes or of more than RECORD_MAX
pub const WRONG_RECORD: u8 = 4;

// an item that does not fit before the held block
pub const NO_ROOM: u8 = 5;

// a recording that is closed
pub const CLOSED: u8 = 6;

// a tag that does not fit
pub const WRONG_TAG: u8 = 7;

// a position, or a state, that is not lawful for the image
pub const UNLAWFUL: u8 = 8;

// more bytes than OPERATION_MAX, DATA_MAX or MESSAGE_MAX
pub const ABOVE_LIMIT: u8 = 9;

// Why a call was refused, a case for each number.
#[derive(Clone, Copy, Debug, PartialEq, Eq)]
pub enum Refusal {
    WrongImage,
    WrongLength,
    WrongZone,
    WrongRecord,
    NoRoom,
    Closed,
    WrongTag,
    Unlawful,
    AboveLimit,
}

impl From<Refusal> for u8 {
    ghost from_gives = { λ refusal number. number ≡ cause_number refusal };

    fn from(refusal: Refusal) -> u8 {
        match refusal {
            Refusal::WrongImage => WRONG_IMAGE,
            Refusal::WrongLength => WRONG_LENGTH,
            Refusal::WrongZone => WRONG_ZONE,
            Refusal::WrongRecord => WRONG_RECORD,
            Refusal::NoRoom => NO_ROOM,
            Refusal::Closed => CLOSED,
            Refusal::WrongTag => WRONG_TAG,
            Refusal::Unlawful => UNLAWFUL,
            Refusal::AboveLimit => ABOVE_LIMIT,
        }
    }
}

// ---- Sealing.
pub const STATE_BYTES: usize = 64;

pub const RATE_BYTES: usize = 32;

pub const KEY_BYTES: usize = 24;

pub const NONCE_BYTES: usize = 16;

pub const TAG_BYTES: usize = 16;

pub const OPERATION_MAX: usize = 65536;

pub const DATA_MAX: usize = 65536;

pub const MESSAGE_MAX: usize = 65520;

pub const DOMAIN_KEY: u8 = 0x10;

pub const DOMAIN_NONCE: u8 = 0x20;

pub const DOMAIN_DATA: u8 = 0x40;

pub const DOMAIN_MESSAGE: u8 = 0x50;

pub const DOMAIN_TAG: u8 = 0x60;

// ---- The cartridge image.
pub const BLOCK_BYTES: usize = 512;

pub const BLOCK_PAYLOAD: usize = 488;

pub const IMAGE_FEWEST: usize = 4;

pub const IMAGE_MOST: usize = 128;

// the longest record, and its blocks
pub const RECORD_MAX: usize = 31232;

pub const RECORD_BLOCKS: usize = 64;
