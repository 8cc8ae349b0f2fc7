// One block of a cartridge at its place: sealed at the front of a lent part, opened straight into a lent buffer.
#![tactic(auto)]

ghost use Rattle.std.specs.Prelude.{◌≡◌, [], ◌∷◌, ◌++◌, ◌≤◌, length};
ghost use Rattle.laws.specs.Lists.{splice};
ghost use Rattle.numbers.specs.Refusals.{number_of};
ghost use Rattle.aead.specs.Sealing.{sealed};
ghost use Rattle.block.specs.Content.{flag, kind_of, last_of, bytes_of};
ghost use Rattle.block.specs.Format.{nonce_at, header, payload, number4, number2, all_zero, used_ok, content_of};
ghost use Rattle.block.specs.Image.{capacity_of, size_ok, image_then_key};
ghost use Rattle.block.specs.Calls.{content_for, fits_kind, SealedAt, seen_of, OpenedAt};
ghost use Rattle.block.specs.Steps.{kind_said, seen_as, head_says};

use numbers::{
    BLOCK_BYTES, BLOCK_PAYLOAD, IMAGE_FEWEST, IMAGE_MOST, KEY_BYTES, NONCE_BYTES, Refusal,
};

// The smallest and the largest image.
const SMALLEST: usize = IMAGE_FEWEST * BLOCK_BYTES;

const LARGEST: usize = IMAGE_MOST * BLOCK_BYTES;

// What is sealed: for a record's blocks byte 5, whether it is the record's last.
#[derive(Clone, Copy, Debug, PartialEq, Eq)]
pub enum Kind {
    First(bool),
    More(bool),
    Mark,
    End,
}

// What opens at a place: for a record's blocks byte 5 and the bytes used. That nothing does is a case beside the others,
// as in `Content`: an Option around them would part what every `match` asks together.
#[derive(Clone, Copy, Debug, PartialEq, Eq)]
pub enum Seen {
    Shut,
    First(bool, usize),
    More(bool, usize),
    Mark,
    End,
}

// What a read is lent: an image, and what its blocks are sealed under, a key, the cartridge's id and the number of
// its recording.
#[derive(Clone, Copy)]
pub struct Cartridge<'a> {
    pub key: &'a [u8],
    pub id: u32,
    pub recording: u64,
    pub image: &'a [u8],
}

impl Cartridge<'_> {
    // How many blocks the image has.
    #[tactic(auto, unfolding(crate::specs::Image::capacity_of))]
    pub fn capacity(self) -> usize
        ensures { result ≡ capacity_of self.entry.image.now }
    {
        self.image.len() / BLOCK_BYTES
    }
}

// Whether an image of `size` bytes has 4 to 128 whole blocks.
#[tactic(auto, using(std::proofs::lemmas::Bool::Decides::nat_tests), unfolding(crate::specs::Image::size_ok))]
pub fn is_image(size: usize) -> bool
    ensures { result ≡ size_ok size }
{
    size % BLOCK_BYTES == 0 && (SMALLEST..=LARGEST).contains(&size)
}

// What every call on an image under a key asks first: 1 the image, 2 the key.
#[tactic(auto, unfolding(crate::specs::Image::image_then_key, crate::specs::Image::image_ok, aead::specs::Sealing::key_ok))]
pub fn image_then_key(key: &[u8], image: &[u8]) -> Result<(), Refusal>
    ensures { number_of result ≡ image_then_key key.now image.now 0 }
{
    if !is_image(image.len()) {
        return Err(Refusal::WrongImage);
    }
    if key.len() != KEY_BYTES {
        return Err(Refusal::WrongLength);
    }
    Ok(())
}

// ---- A header: the block's number, its kind, byte 5 and the count of bytes used.
impl Kind {
    // Bytes 4 and 5.
    fn bytes(self) -> [u8; 2]
        ensures { result ≡ kind_of (content_for self []) ∷ last_of (content_for self []) ∷ [] }
    {
        match self {
            Kind::First(last) => [1, u8::from(last)],
            Kind::More(last) => [2, u8::from(last)],
            Kind::Mark => [3, 0],
            Kind::End => [4, 0],
        }
    }

    // The kind that bytes 4 and 5 say.
    #[tactic(auto, unfolding(crate::specs::Steps::kind_said))]
    fn said(kind: u8, last: u8) -> Option<Kind>
        ensures { result ≡ kind_said kind last }
    {
        match kind {
            1 if last <= 1 => Some(Kind::First(last == 1)),
            2 if last <= 1 => Some(Kind::More(last == 1)),
            3 if last == 0 => Some(Kind::Mark),
            4 if last == 0 => Some(Kind::End),
            _ => None,
        }
    }

    // Whether it can have `used` bytes of payload.
    fn fits(self, used: usize) -> bool
        ensures { result ≡ fits_kind self used }
    {
        match self {
            Kind::First(last) | Kind::More(last) => is_used(last, used),
            Kind::Mark | Kind::End => used == 0,
        }
    }

    // What opens as it.
    fn seen(self, used: usize) -> Seen
        ensures { result ≡ seen_as self used }
    {
        match self {
            Kind::First(last) => Seen::First(last, used),
            Kind::More(last) => Seen::More(last, used),
            Kind::Mark => Seen::Mark,
            Kind::End => Seen::End,
        }
    }
}

// How many bytes a record's block has: all where the record goes on, at least one in its last.
#[tactic(auto, using(std::proofs::lemmas::Bool::Decides::nat_tests), unfolding(crate::specs::Format::used_ok))]
fn is_used(last: bool, used: usize) -> bool
    ensures { result ≡ used_ok (flag last) used }
{
    if last {
        (1..=BLOCK_PAYLOAD).contains(&used)
    } else {
        used == BLOCK_PAYLOAD
    }
}

#[tactic(auto, unfolding(crate::specs::Format::header))]
fn header_of(p: u32, kind: Kind, used: u16) -> [u8; 8]
    ensures { result ≡ header p (kind_of (content_for kind [])) (last_of (content_for kind [])) used }
{
    let [a, b, c, d] = p.to_be_bytes();
    let [first, last] = kind.bytes();
    let [high, low] = used.to_be_bytes();
    [a, b, c, d, first, last, high, low]
}

fn number_in(part: &[u8]) -> u32
    requires { 8 ≤ length part.now }
    ensures { result ≡ number4 part.now 0 }
{
    u32::from_be_bytes([part[0], part[1], part[2], part[3]])
}

fn used_in(part: &[u8]) -> u16
    requires { 8 ≤ length part.now }
    ensures { result ≡ number2 part.now 6 }
{
    u16::from_be_bytes([part[6], part[7]])
}

#[tactic(auto, unfolding(crate::specs::Format::nonce_at))]
fn nonce_at(id: u32, recording: u64, p: u32) -> [u8; NONCE_BYTES]
    ensures { result ≡ nonce_at id recording p }
{
    let mut nonce = [0u8; NONCE_BYTES];
    nonce[..4].copy_from_slice(&id.to_be_bytes());
    nonce[4..12].copy_from_slice(&recording.to_be_bytes());
    nonce[12..].copy_from_slice(&p.to_be_bytes());
    nonce
}

// ---- Sealing.
// The bytes and zeros behind them, 488 in all.
fn payload_of(bytes: &[u8]) -> [u8; BLOCK_PAYLOAD]
    requires { length bytes.now ≤ 488 }
    ensures { result ≡ payload bytes.now }
{
    let mut message = [0u8; BLOCK_PAYLOAD];
    buffer::copy(&mut message, bytes);
    message
}

// Lays the header and the sealed message over the first 512 bytes of `part`.
fn seal_parts(
    key: &[u8],
    nonce: &[u8; NONCE_BYTES],
    head: &[u8; 8],
    message: &[u8; BLOCK_PAYLOAD],
    part: &mut [u8],
) -> Result<(), Refusal>
    requires { (length key.now ≡ 24) × (512 ≤ length part.old) }
    ensures done { number_of result ≡ 0 }
    ensures bytes { part.new ≡ splice part.old 0
        (head.now ++ sealed key.now nonce.now head.now message.now) }
{
    buffer::copy(part, head);
    aead::seal(key, nonce, head, message, &mut part[8..BLOCK_BYTES])
}

// Seals a block at the front of `part`, and writes no byte beyond its 512. The writer lends `part` to be written, so no
// Cartridge can hold it. 2: a key or a part of a wrong length, or a payload that does not fit its kind: 488 bytes where
// the record goes on, 1 to 488 in its last block, none for a mark or end of data. Refused, `part` stays.
pub fn seal_block(
    key: &[u8],
    id: u32,
    recording: u64,
    p: u32,
    kind: Kind,
    bytes: &[u8],
    part: &mut [u8],
) -> Result<(), Refusal>
    ensures { SealedAt key.now id recording p kind bytes.now part.old (number_of result)
        part.new }
{
    if key.len() != KEY_BYTES {
        return Err(Refusal::WrongLength);
    }
    if part.len() < BLOCK_BYTES {
        return Err(Refusal::WrongLength);
    }
    if !kind.fits(bytes.len()) {
        return Err(Refusal::WrongLength);
    }
    let nonce = nonce_at(id, recording, p);
    let head = header_of(p, kind, bytes.len() as u16);
    let message = payload_of(bytes);
    seal_parts(key, &nonce, &head, &message, part)
}

// ---- Opening.
// Whether all bytes are zero. All of them are looked at, whatever the first ones hold.
fn is_zero(bytes: &[u8]) -> bool
    ensures { result ≡ all_zero bytes.now }
{
    let mut any = 0;
    for byte in bytes {
        any |= byte;
    }
    any == 0
}

// What a header says of a payload whose unused bytes are zero.
fn said(kind: u8, last: u8, used: usize) -> Seen
    ensures { result ≡ head_says kind last used }
{
    let Some(kind) = Kind::said(kind, last) else {
        return Seen::Shut;
    };
    if kind.fits(used) {
        kind.seen(used)
    } else {
        Seen::Shut
    }
}

// What a header and an opened payload are; where that is unlawful, `out` becomes zero.
fn settle(kind: u8, last: u8, used: usize, out: &mut [u8]) -> Seen
    requires { length out.old ≡ 488 }
    ensures says { result ≡ seen_of (content_of kind last used out.old) }
    ensures bytes { out.new ≡ payload (bytes_of (content_of kind last used out.old)) }
{
    if !is_zero(&out[used.min(BLOCK_PAYLOAD)..]) {
        buffer::zero(out);
        return Seen::Shut;
    }
    let seen = said(kind, last, used);
    if let Seen::Shut = seen {
        buffer::zero(out);
    }
    seen
}

// Opens the block at the front of `part` as block p, its payload into the 488 bytes of `out`; where it does not open,
// `out` is zero. 2: a key, a part or an `out` of a wrong length. Refused, `out` stays.
pub fn open_block(
    key: &[u8],
    id: u32,
    recording: u64,
    p: u32,
    part: &[u8],
    out: &mut [u8],
) -> Result<Seen, Refusal>
    ensures { OpenedAt key.now id recording p part.now out.old result
        out.new }
{
    if key.len() != KEY_BYTES {
        return Err(Refusal::WrongLength); // the key
    }
    if part.len() < BLOCK_BYTES {
        return Err(Refusal::WrongLength);
    }
    if out.len() != BLOCK_PAYLOAD {
        return Err(Refusal::WrongLength);
    }
    if number_in(part) != p {
        buffer::zero(out);
        return Ok(Seen::Shut);
    }
    let nonce = nonce_at(id, recording, p);
    match aead::open(key, &nonce, &part[..8], &part[8..BLOCK_BYTES], out) {
        Ok(()) => Ok(settle(part[4], part[5], usize::from(used_in(part)), out)),
        Err(_) => Ok(Seen::Shut),
    }
}
