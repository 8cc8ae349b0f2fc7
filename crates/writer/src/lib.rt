// The writer: a state by value that comes back from each call, an image that is lent.
#![tactic(auto)]

ghost use Rattle.std.specs.Prelude.{◌≡◌, true, [], ◌+◌, ◌*◌, ◌≤◌, ◌<◌, length};
ghost use Rattle.std.specs.Result.{IfOk};
ghost use Rattle.numbers.specs.Refusals.{number_of};
ghost use Rattle.block.specs.Format.{seal_block};
ghost use Rattle.block.specs.Image.{set_block, lay};
ghost use Rattle.block.specs.Calls.{content_for, fits_kind};
ghost use Rattle.writer.specs.Items.{rec, fmark, blocks_for, blocks, piece_at};
ghost use Rattle.writer.specs.Writing.{zone_ok, place_ok, marks_ok, lawful, close_number, answer_at, start, write, close, Did};
ghost use Rattle.writer.specs.Steps.{handed, begun};

use numbers::{BLOCK_BYTES, BLOCK_PAYLOAD, KEY_BYTES, RECORD_MAX, Refusal};

#[derive(Clone, Copy, Debug, PartialEq, Eq)]
pub struct WriterState {
    pub id: u32,
    pub recording: u64,
    pub capacity: usize,
    pub zone: usize,
    pub position: usize,
    pub closed: bool,
    pub marks: usize,
}

// An item was written; warned, where the position behind it is in the zone.
#[derive(Clone, Copy, Debug, PartialEq, Eq)]
pub enum Reply {
    Plain,
    Warned,
}

#[derive(Clone, Copy, Debug, PartialEq, Eq)]
pub struct Wrote {
    pub state: WriterState,
    pub reply: Result<Reply, Refusal>,
}

// The state that a refused start gives: it is lawful for no image.
const NONE: WriterState = WriterState {
    id: 0,
    recording: 0,
    capacity: 0,
    zone: 0,
    position: 0,
    closed: true,
    marks: 0,
};

// ---- Start.
#[tactic(auto, using(std::proofs::lemmas::Bool::Decides::nat_tests), unfolding(crate::specs::Writing::zone_ok))]
fn is_zone(c: usize, e: usize) -> bool
    ensures { result ≡ zone_ok c e }
{
    (1..c).contains(&e)
}

// Fills the image with zeros and gives the state at block 0, open.
fn first_state(
    id: u32,
    recording: u64,
    zone: usize,
    image: &mut [u8],
) -> Result<WriterState, Refusal>
    ensures { Did (start id recording zone image.old) (begun result) image.new }
{
    if !block::is_image(image.len()) {
        return Err(Refusal::WrongImage);
    }
    let capacity = image.len() / BLOCK_BYTES;
    if !is_zone(capacity, zone) {
        return Err(Refusal::WrongZone);
    }
    buffer::zero(image);
    Ok(WriterState {
        id,
        recording,
        capacity,
        zone,
        closed: false,
        ..NONE
    })
}

// Starts a recording on an image. 1: the image; 3: the zone; then the image stays, and the state is lawful for no
// image.
pub fn start(id: u32, recording: u64, zone: usize, image: &mut [u8]) -> Wrote
    ensures { Did (start id recording zone image.old) result image.new }
{
    match first_state(id, recording, zone, image) {
        Ok(state) => Wrote {
            state,
            reply: Ok(Reply::Plain),
        },
        Err(refusal) => Wrote {
            state: NONE,
            reply: Err(refusal),
        },
    }
}

// The blocks that a record of n bytes takes.
#[tactic(auto, unfolding(crate::specs::Items::blocks_for))]
fn blocks_for(n: usize) -> usize
    requires { n ≤ 31232 }
    ensures { (result ≡ blocks_for n) × (result ≤ 64) }
{
    n.div_ceil(BLOCK_PAYLOAD)
}

impl WriterState {
    // ---- What is laid.
    // Seals block i of the k blocks of a record that begins at the position: the image is lent on from there.
    fn lay_piece(self, key: &[u8; KEY_BYTES], bytes: &[u8], k: usize, i: usize, image: &mut [u8])
        requires { ((self.position + i) * 512 + 512 ≤ length image.old) × (self.position + i < 128) × (i < k) ×
            (k ≡ blocks_for (length bytes.now)) }
        ensures { image.new ≡ set_block image.old (self.position + i)
            (seal_block key.now self.id self.recording (self.position + i) (piece_at bytes.now k i)) }
    {
        let p = self.position + i;
        let from = i * BLOCK_PAYLOAD;
        let last = i + 1 == k;
        let to = bytes.len().min(from + BLOCK_PAYLOAD);
        let kind = if i == 0 {
            block::Kind::First(last)
        } else {
            block::Kind::More(last)
        };
        self.lay_block(key, p, kind, &bytes[from..to], image);
    }

    // Lays the k blocks of a record from the position on. By their numbers: over `bytes.chunks(488).enumerate()` what a
    // piece is stays open (`lay_block-requires`), since std says nothing of what such a walk has left.
    fn lay_record(self, key: &[u8; KEY_BYTES], bytes: &[u8], k: usize, image: &mut [u8])
        requires { ((self.position + k) * 512 ≤ length image.old) × (self.position + k ≤ 128) ×
            (k ≡ blocks_for (length bytes.now)) }
        ensures { image.new ≡ lay key.now self.id self.recording image.old self.position
            (blocks (rec bytes.now)) }
    {
        for i in 0..k {
            self.lay_piece(key, bytes, k, i, image);
        }
    }

    // Seals a block at p.
    fn lay_block(
        self,
        key: &[u8; KEY_BYTES],
        p: usize,
        kind: block::Kind,
        bytes: &[u8],
        image: &mut [u8],
    )
        requires { (p * 512 + 512 ≤ length image.old) × (p < 128) × (fits_kind kind (length bytes.now) ≡ true) }
        ensures { image.new ≡ set_block image.old p
            (seal_block key.now self.id self.recording p (content_for kind bytes.now)) }
    {
        let at = p * BLOCK_BYTES;
        // what it could refuse, key, part and payload, is as it asks: `lent_part` says so
        let _ = block::seal_block(
            key,
            self.id,
            self.recording,
            p as u32,
            kind,
            bytes,
            &mut image[at..],
        );
    }

    // ---- What is asked first.
    // A mark takes a block, so no more of them stand before the position than blocks.
    #[tactic(auto, unfolding(crate::specs::Writing::marks_ok))]
    fn has_blocks_for_marks(self) -> bool
        ensures { result ≡ marks_ok self }
    {
        self.marks <= self.position
    }

    #[tactic(auto, using(std::proofs::lemmas::Bool::Decides::nat_tests), unfolding(crate::specs::Writing::place_ok))]
    fn is_placed(self) -> bool
        ensures { result ≡ place_ok self }
    {
        if self.closed {
            (1..=self.capacity).contains(&self.position)
        } else {
            self.position < self.capacity
        }
    }

    // Whether the state is lawful for an image of c blocks: any numbers may stand in its fields.
    #[tactic(auto, unfolding(crate::specs::Writing::lawful))]
    fn is_lawful(self, c: usize) -> bool
        ensures { result ≡ lawful self c }
    {
        self.capacity == c
            && is_zone(self.capacity, self.zone)
            && self.has_blocks_for_marks()
            && self.is_placed()
    }

    // What every call asks first: 1, 2, 8, 6. It gives the key as the 24 bytes that it is.
    fn allowed<'a>(self, key: &'a [u8], image: &[u8]) -> Result<&'a [u8; KEY_BYTES], Refusal>
        ensures code { number_of result ≡ close_number self key.now image.now }
        ensures key { IfOk result (λ k. k.now ≡ key.now) }
    {
        block::image_then_key(key, image)?;
        if !self.is_lawful(image.len() / BLOCK_BYTES) {
            return Err(Refusal::Unlawful);
        }
        if self.closed {
            return Err(Refusal::Closed);
        }
        match key.as_array() {
            Some(key) => Ok(key),
            None => Err(Refusal::WrongLength),
        }
    }

    // The answer to a record or mark that was written, by the position behind it.
    fn answer_at(self, p: usize) -> Reply
        requires { self.zone ≤ self.capacity }
        ensures { result ≡ answer_at self p }
    {
        if self.capacity - self.zone < p {
            Reply::Warned
        } else {
            Reply::Plain
        }
    }

    // ---- What is written.
    fn write_record(&mut self, key: &[u8], bytes: &[u8], image: &mut [u8]) -> Result<Reply, Refusal>
        ensures { Did (write self.old key.now image.old (rec bytes.now)) (handed self.new result) image.new }
    {
        let key = self.allowed(key, image)?;
        if !(1..=RECORD_MAX).contains(&bytes.len()) {
            return Err(Refusal::WrongRecord);
        }
        let k = blocks_for(bytes.len());
        let end = self.position + k;
        if self.capacity <= end {
            return Err(Refusal::NoRoom);
        }
        self.lay_record(key, bytes, k, image);
        self.position = end;
        Ok(self.answer_at(end))
    }

    fn write_mark(&mut self, key: &[u8], image: &mut [u8]) -> Result<Reply, Refusal>
        ensures { Did (write self.old key.now image.old fmark) (handed self.new result) image.new }
    {
        let key = self.allowed(key, image)?;
        let next = self.position + 1;
        if self.capacity <= next {
            return Err(Refusal::NoRoom);
        }
        self.lay_block(key, self.position, block::Kind::Mark, &[], image);
        self.position = next;
        self.marks += 1;
        Ok(self.answer_at(next))
    }

    fn write_end(&mut self, key: &[u8], image: &mut [u8]) -> Result<Reply, Refusal>
        ensures { Did (close self.old key.now image.old) (handed self.new result) image.new }
    {
        let key = self.allowed(key, image)?;
        self.lay_block(key, self.position, block::Kind::End, &[], image);
        self.position += 1;
        self.closed = true;
        Ok(Reply::Plain) // nothing can follow: there is nothing to warn of
    }

    // ---- The calls. Refused, the given state comes back and the image stays.
    // Writes a record behind what is there: 1, 2, 8, 6, 4, 5.
    pub fn record(self, key: &[u8], bytes: &[u8], image: &mut [u8]) -> Wrote
        ensures { Did (write self key.now image.old (rec bytes.now)) result
            image.new }
    {
        let mut state = self;
        let reply = state.write_record(key, bytes, image);
        Wrote { state, reply }
    }

    // Writes a file mark: 1, 2, 8, 6, 5.
    pub fn mark(mut self, key: &[u8], image: &mut [u8]) -> Wrote
        ensures { Did (write self key.now image.old fmark) result image.new }
    {
        let reply = self.write_mark(key, image);
        Wrote { state: self, reply }
    }

    // Writes end of data into the held block or before it: 1, 2, 8, 6.
    pub fn close(mut self, key: &[u8], image: &mut [u8]) -> Wrote
        ensures { Did (close self key.now image.old) result image.new }
    {
        let reply = self.write_end(key, image);
        Wrote { state: self, reply }
    }
}
