// walk IMAGE KEY ID RECORDING: what a support engineer runs on a customer's image. It prints a picture of the
// cartridge, the walk, a line an answer, the report, and what to do; the program walker ends with what `walk_run`
// answers.
#![tactic(auto)]

mod input;

ghost use Rattle.std.specs.Prelude.{◌≡◌, ◌≤◌, Ok};
ghost use Rattle.survey.specs.Report.{report_of};
ghost use Rattle.walk.specs.Status.{status_number, status_of, ended, Ends};

use block::Cartridge;
use numbers::{BLOCK_BYTES, IMAGE_MOST, KEY_BYTES, Refusal};
use page::complaints::{Complaint, KEY_SHOWN};
use std::env::Env;
use std::io::Input;
use std::rt::Files;
use survey::Tally;

// ---- What the program ends with.
#[derive(Clone, Copy, Debug, PartialEq, Eq)]
enum Status {
    Clean,
    Damaged,
    NotDone,
}

impl From<Status> for u8 {
    ghost from_gives = { λ status number. number ≡ status_number status };

    fn from(status: Status) -> u8 {
        match status {
            Status::Clean => 0,
            Status::Damaged => 1,
            Status::NotDone => 2,
        }
    }
}

// Clean: end of data was met, and nothing before it was bad, stray or cut.
impl From<Tally> for Status {
    ghost from_gives = { λ tally status. status_number status ≡ status_of (Ok tally) };

    #[tactic(auto, unfolding(crate::specs::Status::clean))]
    fn from(tally: Tally) -> Status {
        match tally {
            Tally { ends: 0, .. } => Status::Damaged,
            Tally {
                bads: 0,
                strays: 0,
                cuts: 0,
                ..
            } => Status::Clean,
            _ => Status::Damaged,
        }
    }
}

// ---- The run.
// A longer file is read one byte beyond what may be asked for, so that it is refused and not cut.
const IMAGE_ROOM: usize = IMAGE_MOST * BLOCK_BYTES + 1;

const KEY_ROOM: usize = KEY_SHOWN + 1;

// What is wrong with a cartridge that is refused: its image or its key has not its size.
fn refused(refusal: Refusal, cartridge: Cartridge) -> Complaint {
    let key = cartridge.key;
    match refusal {
        Refusal::WrongImage => Complaint::WrongImage {
            bytes: cartridge.image.len(),
        },
        _ => Complaint::WrongKey {
            bytes: key.len(),
            is_line: is_line(key),
            is_hexadecimal: is_hexadecimal(key),
        },
    }
}

// A key with a line end behind it, of one byte or two.
fn is_line(text: &[u8]) -> bool {
    matches!(text.len().saturating_sub(KEY_BYTES), 1 | 2) && text.ends_with(b"\n")
}

// Whether a text begins with a key in hexadecimal, and no digit more.
fn is_hexadecimal(text: &[u8]) -> bool {
    let digits = text.iter().take_while(|c| c.is_ascii_hexdigit()).count();
    digits == 2 * KEY_BYTES
}

fn serve<P: Print>(out: &P, cartridge: Cartridge) -> Result<Status, Complaint>
    ensures { let c = cartridge.entry in
        Ends (report_of c.key.now c.id c.recording c.image.now) (ended result) }
{
    let tally = match survey::report(cartridge) {
        Ok(tally) => tally,
        Err(refusal) => return Err(refused(refusal, cartridge)),
    };
    let ends = Status::from(tally);
    page::tell(out, cartridge, tally, ends == Status::Clean).map_err(Complaint::Output)?;
    Ok(ends)
}

// The image and the key are read once the arguments are: each of those has 128 KiB of the stack while it is read, and
// this has it behind them, in a frame of its own.
#[inline(never)]
fn walk_on<R: Env + Files + Input + Print>(
    rt: &R,
    id: u32,
    recording: u64,
) -> Result<Status, Complaint> {
    let mut image = [0u8; IMAGE_ROOM];
    let n = input::read_image(rt, &mut image).map_err(Complaint::UnreadableImage)?;
    let mut key = [0u8; KEY_ROOM];
    let k = input::read_key(rt, &mut key).map_err(Complaint::UnreadableKey)?;
    let cartridge = Cartridge {
        key: &key[..k],
        id,
        recording,
        image: &image[..n],
    };
    serve(rt, cartridge)
}

fn walk<R: Env + Files + Input + Print>(rt: &R) -> Result<Status, Complaint> {
    if !input::are_four(rt) {
        return Err(Complaint::Usage);
    }
    let id = input::id(rt).map_err(Complaint::WrongId)?;
    let recording = input::recording(rt).map_err(Complaint::WrongRecording)?;
    walk_on(rt, id, recording)
}

fn help<P: Print>(out: &P) -> Result<Status, Complaint> {
    page::help(out).map_err(Complaint::Output)?;
    Ok(Status::Clean)
}

// The status of a run; where it is not done, why is told.
fn end<R: Env, E: Print>(rt: &R, err: &E, run: Result<Status, Complaint>) -> u8
    ensures { result ≡ ended run }
{
    match run {
        Ok(status) => u8::from(status),
        Err(complaint) => {
            complaint.tell(rt, err);
            u8::from(Status::NotDone)
        }
    }
}

// Answers the status: clean, damaged or not done. The arguments, the files, standard input and standard output are
// `rt`'s; `err` is standard error.
pub fn walk_run<R: Env + Files + Input + Print, E: Print>(rt: &R, err: &E) -> u8
    ensures { result ≤ 2 }
{
    if input::wants_help(rt) {
        return end(rt, err, help(rt));
    }
    end(rt, err, walk(rt))
}
