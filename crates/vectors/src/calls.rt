// The calls that the input asks for, a line each.
//
// A line is a letter and six numbers of five digits. Byte i of a buffer with seed s begins as s + 17 i + 3 (i / 256),
// modulo 256; the seeds are state 1, key 2, nonce 3, associated data 4, message or cipher 5, receiving buffer 6.
ghost use Rattle.std.specs.Prelude.{◌≡◌, ◌≤◌, ◌<◌, length};

use crate::show::Buffer;
use numbers::{KEY_BYTES, NONCE_BYTES, Refusal, TAG_BYTES};
use std::io::Read;

// No number of five digits is above it.
const ROOM: usize = 100000;

// ---- A line.
// What is done to a state.
#[derive(Clone, Copy)]
enum Step {
    Permute,
    PermuteBack,
    Put,
    Get,
    Enc,
    Dec,
}

#[derive(Clone, Copy)]
enum Sealing {
    Seal,
    Open,
}

#[derive(Clone, Copy)]
enum Call {
    OnState(Step),
    Sealing(Sealing),
}

// The call that a line's letter asks for.
impl From<u8> for Call {
    fn from(letter: u8) -> Call {
        match letter {
            b's' => Call::Sealing(Sealing::Seal),
            b'o' => Call::Sealing(Sealing::Open),
            b'p' => Call::OnState(Step::Permute),
            b'q' => Call::OnState(Step::PermuteBack),
            b'u' => Call::OnState(Step::Put),
            b'g' => Call::OnState(Step::Get),
            b'e' => Call::OnState(Step::Enc),
            _ => Call::OnState(Step::Dec),
        }
    }
}

// A line without its end.
#[derive(Clone, Copy)]
struct Line<'a> {
    text: &'a [u8],
    ghost whole: { length text.now ≡ 37 },
}

impl Line<'_> {
    fn call(self) -> Call {
        Call::from(self.text[0])
    }

    // Field k: five digits behind the letter and k spaces.
    fn field(self, k: usize) -> usize
        requires { k < 6 }
        ensures { result < 100000 }
    {
        let at = 2 + k * 6;
        match print::parse(&self.text[at..at + 5], 99999) {
            Ok(n) => n as usize,
            Err(_) => 0,
        }
    }

    fn domain(self) -> u8 {
        (self.field(2) % 256) as u8
    }

    // The length of the receiving buffer, which a get has in the field of the others' text.
    fn out(self, step: Step) -> usize
        ensures { result < 100000 }
    {
        match step {
            Step::Get => self.field(1),
            _ => self.field(3),
        }
    }
}

// The line, and the number that its call gave: 0 where it was carried out.
fn show_answer<P: Print>(rt: &P, line: Line, answer: Result<(), Refusal>) {
    let _ = rt.write_all(line.text);
    let _ = println!(rt; " = {}", answer.err().map_or(0, u8::from));
}

// ---- Buffers.
// Filled where it stands: a buffer that is returned by value stood twice in its caller's frame.
fn fill(buffer: &mut [u8; ROOM], seed: usize) {
    for (i, byte) in buffer.iter_mut().enumerate() {
        *byte = ((seed % 256 + i % 256 * 17 + i / 256 % 256 * 3) % 256) as u8;
    }
}

// ---- Calls on a state. By a match: the six calls take different arguments, and a closure for each would repeat them.
fn on_state(
    step: Step,
    state: &mut [u8],
    text: &[u8],
    out: &mut [u8],
    domain: u8,
) -> Result<(), Refusal> {
    match step {
        Step::Permute => permutation::permute(state),
        Step::PermuteBack => permutation::permute_back(state),
        Step::Put => sponge::put(state, text, domain),
        Step::Get => sponge::get(state, out, domain),
        Step::Enc => sponge::enc(state, text, out, domain),
        Step::Dec => sponge::dec(state, text, out, domain),
    }
}

fn show_out<P: Print>(rt: &P, out: &[u8]) {
    let _ = println!(rt; "out {}", Buffer(out));
}

// In a frame of its own, as sealing and opening are: each has 100,000 bytes for each buffer.
#[inline(never)]
fn call_on_state<P: Print>(rt: &P, line: Line, step: Step) {
    let mut text = [0u8; ROOM];
    fill(&mut text, 5);
    let mut whole_state = [0u8; ROOM];
    fill(&mut whole_state, 1);
    let mut whole_out = [0u8; ROOM];
    fill(&mut whole_out, 6);
    let state = &mut whole_state[..line.field(0)];
    let out = &mut whole_out[..line.out(step)];
    let answer = on_state(step, state, &text[..line.field(1)], out, line.domain());
    show_answer(rt, line, answer);
    let _ = println!(rt; "state {}", Buffer(state));
    match step {
        Step::Permute | Step::PermuteBack | Step::Put => {}
        Step::Get | Step::Enc | Step::Dec => show_out(rt, out),
    }
}

// ---- Sealing and opening.
// Byte f - 1 takes 01 by xor; none for f = 0.
fn damage(sealed: &mut [u8], f: usize) {
    if 0 < f && f <= sealed.len() {
        sealed[f - 1] ^= 1;
    }
}

// Seals the pattern of the message under whole key and nonce; where sealing refuses, so does opening, and the bare
// pattern stays.
fn make_sealed(text: &mut [u8], data: &[u8], f: usize)
    requires { length text.old < 100000 }
{
    let mut key = [0u8; ROOM];
    fill(&mut key, 2);
    let mut nonce = [0u8; ROOM];
    fill(&mut nonce, 3);
    let mut message = [0u8; ROOM];
    fill(&mut message, 5);
    let m = text.len().saturating_sub(TAG_BYTES);
    let _ = aead::seal(
        &key[..KEY_BYTES],
        &nonce[..NONCE_BYTES],
        data,
        &message[..m],
        text,
    );
    damage(text, f);
}

// What an opening is given is sealed first.
#[inline(never)]
fn call_sealing<P: Print>(rt: &P, line: Line, sealing: Sealing) {
    let mut whole_key = [0u8; ROOM];
    fill(&mut whole_key, 2);
    let mut whole_nonce = [0u8; ROOM];
    fill(&mut whole_nonce, 3);
    let mut whole_data = [0u8; ROOM];
    fill(&mut whole_data, 4);
    let mut whole_text = [0u8; ROOM];
    fill(&mut whole_text, 5);
    let mut whole_out = [0u8; ROOM];
    fill(&mut whole_out, 6);
    let key = &whole_key[..line.field(0)];
    let nonce = &whole_nonce[..line.field(1)];
    let data = &whole_data[..line.field(2)];
    let text = &mut whole_text[..line.field(3)];
    let out = &mut whole_out[..line.field(4)];
    let answer = match sealing {
        Sealing::Seal => aead::seal(key, nonce, data, text, out),
        Sealing::Open => {
            make_sealed(text, data, line.field(5));
            aead::open(key, nonce, data, text, out)
        }
    };
    show_answer(rt, line, answer);
    show_out(rt, out);
}

// ---- The input.
fn serve<P: Print>(rt: &P, line: Line) {
    match line.call() {
        Call::OnState(step) => call_on_state(rt, line, step),
        Call::Sealing(sealing) => call_sealing(rt, line, sealing),
    }
}

// The lines of the input, 1,000 at most.
pub fn all<R: Print + Input>(rt: &R) {
    let mut input = rt.reader();
    for _ in 0usize..1000 {
        let mut line = [0u8; 38];
        if input.read_exact(&mut line).is_err() {
            return;
        }
        serve(rt, Line { text: &line[0..37] });
    }
}
