// The writer. Its state crosses as one struct; the closed flag is 0 or 1.
ghost use Rattle.std.specs.Prelude.{◌≡◌};
ghost use Rattle.numbers.specs.Refusals.{number_of};
ghost use Rattle.writer.specs.Items.{rec, fmark};
ghost use Rattle.writer.specs.Writing.{start, write, close};
ghost use Rattle.notchbadger.specs.FlatWriter.{reply_code, flat_state, state_of, came_in, flat_wrote};
ghost use Rattle.notchbadger.specs.FlatWriter.{flag_number, sent_back, FlatDid, FlatStarted};

use super::number_of;
use numbers::Refusal;
use writer::{Reply, WriterState, Wrote};

// ---- What crosses.
#[repr(C)]
#[derive(Clone, Copy)]
pub struct NbState {
    pub id: u32,
    pub recording: u64,
    pub capacity: usize,
    pub zone: usize,
    pub position: usize,
    pub closed: u8,
    pub marks: usize,
}

#[repr(C)]
#[derive(Clone, Copy)]
pub struct NbWrote {
    pub state: NbState,
    pub reply: u8,
    pub number: u8,
}

// A reply's codes: C has no enum whose cases hold a value.
pub const PLAIN: u8 = 0;

pub const WARNED: u8 = 1;

pub const REFUSED: u8 = 2;

fn reply_code(reply: Result<Reply, Refusal>) -> u8
    ensures { result ≡ reply_code reply }
{
    match reply {
        Ok(Reply::Plain) => PLAIN,
        Ok(Reply::Warned) => WARNED,
        Err(_) => REFUSED,
    }
}

impl From<WriterState> for NbState {
    ghost from_gives = { λ state flat. flat ≡ flat_state state };

    fn from(state: WriterState) -> NbState {
        NbState {
            id: state.id,
            recording: state.recording,
            capacity: state.capacity,
            zone: state.zone,
            position: state.position,
            closed: u8::from(state.closed),
            marks: state.marks,
        }
    }
}

impl From<Wrote> for NbWrote {
    ghost from_gives = { λ wrote flat. flat ≡ flat_wrote wrote };

    fn from(wrote: Wrote) -> NbWrote {
        NbWrote {
            state: NbState::from(wrote.state),
            reply: reply_code(wrote.reply),
            number: number_of(wrote.reply),
        }
    }
}

// A state as it came in is the writer's where its flag is 0 or 1.
impl TryFrom<NbState> for WriterState {
    type Error = Refusal;

    ghost try_from_gives = { λ state writer. writer ≡ came_in state };

    fn try_from(state: NbState) -> Result<WriterState, Refusal> {
        if 1 < state.closed {
            return Err(Refusal::Unlawful);
        }
        Ok(WriterState {
            id: state.id,
            recording: state.recording,
            capacity: state.capacity,
            zone: state.zone,
            position: state.position,
            closed: state.closed == 1,
            marks: state.marks,
        })
    }
}

// Why a call on a state with another flag is refused: the image and the key come first.
fn odd_flag(key: &[u8], image: &[u8]) -> Result<(), Refusal>
    ensures { number_of result ≡ flag_number key.now image.now }
{
    block::image_then_key(key, image)?;
    Err(Refusal::Unlawful)
}

// The answer to it: the state as it was given.
fn sent_back(state: NbState, key: &[u8], image: &[u8]) -> NbWrote
    ensures { result ≡ sent_back state (flag_number key.now image.now) }
{
    NbWrote {
        state,
        reply: REFUSED,
        number: number_of(odd_flag(key, image)),
    }
}

// ---- The calls.
#[unsafe(no_mangle)]
pub extern "C" fn nb_start(id: u32, recording: u64, zone: usize, image: &mut [u8]) -> NbWrote
    ensures { FlatStarted (start id recording zone image.old) result image.new }
{
    NbWrote::from(writer::start(id, recording, zone, image))
}

#[unsafe(no_mangle)]
pub extern "C" fn nb_record(state: NbState, key: &[u8], bytes: &[u8], image: &mut [u8]) -> NbWrote
    ensures { FlatDid state key.now image.old
        (write (state_of state) key.now image.old (rec bytes.now))
        result image.new }
{
    match WriterState::try_from(state) {
        Ok(writer) => NbWrote::from(writer.record(key, bytes, image)),
        Err(_) => sent_back(state, key, image),
    }
}

#[unsafe(no_mangle)]
pub extern "C" fn nb_mark(state: NbState, key: &[u8], image: &mut [u8]) -> NbWrote
    ensures { FlatDid state key.now image.old
        (write (state_of state) key.now image.old fmark) result image.new }
{
    match WriterState::try_from(state) {
        Ok(writer) => NbWrote::from(writer.mark(key, image)),
        Err(_) => sent_back(state, key, image),
    }
}

#[unsafe(no_mangle)]
pub extern "C" fn nb_close(state: NbState, key: &[u8], image: &mut [u8]) -> NbWrote
    ensures { FlatDid state key.now image.old
        (close (state_of state) key.now image.old) result image.new }
{
    match WriterState::try_from(state) {
        Ok(writer) => NbWrote::from(writer.close(key, image)),
        Err(_) => sent_back(state, key, image),
    }
}
