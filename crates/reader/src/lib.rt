// The reader: read, the record's part, the raw look.
#![tactic(auto)]

ghost use Rattle.std.specs.Prelude.{◌≡◌, ◌+◌, ◌-◌, ◌*◌, ◌≤◌, ◌<◌, length, replicate, Ok};
ghost use Rattle.block.specs.Calls.{seen_of};
ghost use Rattle.block.specs.Content.{bytes_of};
ghost use Rattle.block.specs.Format.{payload};
ghost use Rattle.laws.specs.Lists.{splice};
ghost use Rattle.numbers.specs.Refusals.{number_of};
ghost use Rattle.reader.specs.Reading.{read_number, got_of, filled, Read, part_of, look_number, look_part, look_place};
ghost use Rattle.reader.specs.Steps.{Readable, shown, answer_of, rest_answer};

use block::{Cartridge, Seen};
use numbers::{BLOCK_BYTES, BLOCK_PAYLOAD, RECORD_BLOCKS, RECORD_MAX, Refusal};

// What is told at a place: a record by its length, a cut by the place of the break.
#[derive(Clone, Copy, Debug, PartialEq, Eq)]
pub enum Outcome {
    Record(usize),
    Mark,
    End,
    Bad,
    Stray,
    Cut(usize),
}

#[derive(Clone, Copy, Debug, PartialEq, Eq)]
pub struct Got {
    pub outcome: Result<Outcome, Refusal>,
    pub next: usize,
}

// ---- Reading into the lent buffer; parts of what is lent.

// Whether a read at p into `room` bytes is refused: 1 the image, 2 the key or the room, 8 the position.
fn allowed(cartridge: Cartridge, p: usize, room: usize) -> Result<(), Refusal>
    ensures { number_of result ≡ read_number cartridge.entry.key.now cartridge.entry.image.now p room }
{
    block::image_then_key(cartridge.key, cartridge.image)?;
    if room < RECORD_MAX {
        return Err(Refusal::WrongLength);
    }
    if cartridge.capacity() <= p {
        return Err(Refusal::Unlawful);
    }
    Ok(())
}

// Opens block q straight into its place, the 488 bytes of `buffer` from `at` on. Nothing refuses it.
fn open_at(cartridge: Cartridge, q: usize, buffer: &mut [u8], at: usize) -> Seen
    requires { (length cartridge.key.now ≡ 24) × (q * 512 + 512 ≤ length cartridge.image.now) × (q < 128)
        × (at + 488 ≤ length buffer.old) }
    ensures says { result ≡ seen_of (shown cartridge.entry q) }
    ensures leaves { buffer.new ≡ splice buffer.old at (payload (bytes_of (shown cartridge.entry q))) }
{
    let start = BLOCK_BYTES * q;
    let opened = block::open_block(
        cartridge.key,
        cartridge.id,
        cartridge.recording,
        q as u32,
        &cartridge.image[start..],
        &mut buffer[at..at + BLOCK_PAYLOAD],
    );
    opened.unwrap()
}

// An answer that leaves the first `kept` bytes of `buffer`, and zeros behind them up to 31,232.
fn answer_with(buffer: &mut [u8], kept: usize, outcome: Outcome, next: usize) -> Got
    requires { (kept ≤ 31232) × (31232 ≤ length buffer.old) }
    ensures says { (result.outcome ≡ Ok outcome) × (result.next ≡ next) }
    ensures leaves { buffer.new
        ≡ splice buffer.old kept (replicate (31232 - kept) 0) }
{
    buffer::zero(&mut buffer[kept..RECORD_MAX]);
    Got {
        outcome: Ok(outcome),
        next,
    }
}

// The rest of the record that begins at p, whose first block stands in the first 488 bytes of `buffer`.
fn read_rest(cartridge: Cartridge, p: usize, buffer: &mut [u8]) -> Got
    requires { Readable cartridge.key.now cartridge.image.now p (length buffer.old) }
    ensures says { result ≡ got_of (rest_answer cartridge.entry p buffer.old) }
    ensures leaves { buffer.new ≡ splice buffer.old 0 (filled (rest_answer cartridge.entry p buffer.old).told) }
{
    let end = cartridge.capacity().min(p + RECORD_BLOCKS);
    for q in p + 1..end {
        let at = (q - p) * BLOCK_PAYLOAD;
        let after = q + 1;
        match open_at(cartridge, q, buffer, at) {
            Seen::Shut => return answer_with(buffer, 0, Outcome::Cut(q), after),
            Seen::More(true, used) => {
                let kept = at + BLOCK_PAYLOAD;
                return answer_with(buffer, kept, Outcome::Record(at + used), after);
            }
            Seen::More(false, _) => {}
            Seen::First(_, _) | Seen::Mark | Seen::End => {
                return answer_with(buffer, 0, Outcome::Cut(q), q);
            }
        }
    }
    answer_with(buffer, 0, Outcome::Cut(end), end)
}

// A read at p that nothing refuses: block p, and the rest of the record that begins there.
fn read_lent(cartridge: Cartridge, p: usize, buffer: &mut [u8]) -> Got
    requires { Readable cartridge.key.now cartridge.image.now p (length buffer.old) }
    ensures says { result ≡ got_of (answer_of cartridge.entry p) }
    ensures leaves { buffer.new ≡ splice buffer.old 0 (filled (answer_of cartridge.entry p).told) }
{
    match open_at(cartridge, p, buffer, 0) {
        Seen::Shut => answer_with(buffer, 0, Outcome::Bad, p + 1),
        Seen::First(true, used) => answer_with(buffer, BLOCK_PAYLOAD, Outcome::Record(used), p + 1),
        Seen::First(false, _) => read_rest(cartridge, p, buffer),
        Seen::More(_, _) => answer_with(buffer, 0, Outcome::Stray, p + 1),
        Seen::Mark => answer_with(buffer, 0, Outcome::Mark, p + 1),
        Seen::End => answer_with(buffer, 0, Outcome::End, p),
    }
}

// Reads at p into the lent buffer. A record fills its front; the rest of its first 31,232 bytes is zero, and all of
// them for any other outcome. Refused (1, 2, 8), the buffer stays.
pub fn read(cartridge: Cartridge, p: usize, buffer: &mut [u8]) -> Got
    ensures { Read cartridge.entry.key.now cartridge.entry.id cartridge.entry.recording cartridge.entry.image.now p buffer.old
        result buffer.new }
{
    match allowed(cartridge, p, buffer.len()) {
        Ok(()) => read_lent(cartridge, p, buffer),
        Err(refusal) => Got {
            outcome: Err(refusal),
            next: p,
        },
    }
}

// The record of a read before: the front part of the lent buffer, by its length; a length beyond the buffer gives the
// empty part.
pub fn record_part(buffer: &[u8], length: usize) -> &[u8]
    ensures bytes { result.now ≡ part_of buffer.now length }
    ensures place { result.ref_ptr ≡ buffer.entry.ref_ptr }
{
    if length <= buffer.len() {
        &buffer[..length]
    } else {
        &buffer[..0]
    }
}

// The number of a raw look at block p: 1 the image, 8 the position.
pub fn look_number(image: &[u8], p: usize) -> Result<(), Refusal>
    ensures { number_of result ≡ look_number image.now p }
{
    if !block::is_image(image.len()) {
        return Err(Refusal::WrongImage);
    }
    if p < image.len() / BLOCK_BYTES {
        Ok(())
    } else {
        Err(Refusal::Unlawful)
    }
}

// The 512 bytes of block p as a part of the image; refused, the empty part at its front.
pub fn look(image: &[u8], p: usize) -> &[u8]
    ensures bytes { result.now ≡ look_part image.now p }
    ensures place { (result.ref_ptr.0 ≡ image.entry.ref_ptr.0)
        × (result.ref_ptr.1 ≡ look_place image.now p + image.entry.ref_ptr.1) }
{
    if look_number(image, p).is_ok() {
        let at = BLOCK_BYTES * p;
        &image[at..at + BLOCK_BYTES]
    } else {
        &image[..0]
    }
}
