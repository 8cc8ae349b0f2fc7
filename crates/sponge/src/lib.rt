// The four BLNK block operations.
#![tactic(auto)]

ghost use Rattle.std.specs.Prelude.{◌≡◌, ◌-◌, ◌/◌, ◌≤◌, ◌<◌, leb, length};
ghost use Rattle.laws.specs.Choose.{first_of};
ghost use Rattle.laws.specs.Xor.{xor};
ghost use Rattle.numbers.specs.Refusals.{number_of};
ghost use Rattle.pi.specs.Permutation.{π};
ghost use Rattle.sponge.specs.Blink.{Op, put, get, enc, dec, into, after, Put, Ran};
ghost use Rattle.sponge.specs.Ways.{Worked, RanAll};

use numbers::{OPERATION_MAX, RATE_BYTES, Refusal, STATE_BYTES};

type State = [u8; STATE_BYTES];

// ---- A group: at most 32 bytes against the front of the state, taken in by xor.
// What an operation that gives bytes does with one group.
trait Way {
    ghost op: { Op };

    fn work(state: &mut State, group: &mut [u8])
        requires { length group.old ≤ 32 }
        ensures { Worked op group.old state.old state.new group.new };
}

struct Squeeze;

impl Way for Squeeze {
    ghost op = { get };

    #[tactic(auto, using(crate::proofs::Groups::laid), unfolding(crate::specs::Blink::kept, crate::specs::Blink::given))]
    fn work(state: &mut State, group: &mut [u8]) {
        buffer::copy(group, state);
    }
}

struct Encrypt;

impl Way for Encrypt {
    ghost op = { enc };

    fn work(state: &mut State, group: &mut [u8]) {
        buffer::add(state, group);
        buffer::copy(group, state); // the ciphertext
    }
}

// Masks the ciphertext; the plaintext, added, then makes it the state's front.
struct Decrypt;

impl Way for Decrypt {
    ghost op = { dec };

    fn work(state: &mut State, group: &mut [u8]) {
        buffer::add(group, state);
        buffer::add(state, group);
    }
}

// ---- The padding, and π.
// x into byte i, by xor.
#[tactic(auto, unfolding(crate::specs::Blink::into, laws::specs::Xor::xor))]
fn into_byte(state: &mut State, i: usize, x: u8)
    requires { i < 64 }
    ensures { state.new ≡ into i x state.old }
{
    state[i] ^= x;
}

#[tactic(auto, using(crate::proofs::CallLaws::accepted), unfolding(pi::specs::Permutation::is_state))]
fn turn(state: &mut State)
    ensures { state.new ≡ π state.old }
{
    permutation::permute(state).unwrap();
}

// Behind a group that is not the last.
fn between(state: &mut State, domain: u8)
    ensures { state.new ≡ π (into 32 domain state.old) }
{
    into_byte(state, RATE_BYTES, domain);
    turn(state);
}

// Behind the last group, which has n bytes.
#[tactic(auto, unfolding(laws::specs::Xor::xor))]
fn close(state: &mut State, n: usize, domain: u8)
    requires { n ≤ 32 }
    ensures { state.new ≡ π (into 32 (xor 0x02 domain) (into n 0x01 state.old)) }
{
    into_byte(state, n, 0x01);
    into_byte(state, RATE_BYTES, 0x02 ^ domain);
    turn(state);
}

// ---- The groups, one after another.
// The number of the last group of n bytes, counted from 0.
fn last(n: usize) -> usize
    ensures { result ≡ (n - 1) / 32 }
{
    n.saturating_sub(1) / RATE_BYTES
}

// All of the bytes into the state. Apart from `run`: this reads what it is lent, that writes it, and no type stands for
// both.
fn absorb(state: &mut State, bytes: &[u8], domain: u8)
    ensures { state.new ≡ after put domain state.old bytes.now }
{
    let n = bytes.len();
    let at = last(n) * RATE_BYTES;
    for group in bytes[..at].chunks_exact(RATE_BYTES) {
        buffer::add(state, group);
        between(state, domain);
    }
    buffer::add(state, &bytes[at..]);
    close(state, n - at, domain);
}

// All of io, in place. By index: what is written through `chunks_exact_mut` is not known to a proof afterwards.
fn run<W: Way>(state: &mut State, io: &mut [u8], domain: u8)
    ensures { RanAll W.op domain io.old state.old state.new io.new }
{
    let n = io.len();
    let m = last(n);
    for k in 0..m {
        let at = k * RATE_BYTES;
        W::work(state, &mut io[at..at + RATE_BYTES]);
        between(state, domain);
    }
    let at = m * RATE_BYTES;
    W::work(state, &mut io[at..]);
    close(state, n - at, domain);
}

// ---- The calls. Refused, nothing is changed.
fn limited(n: usize) -> Result<(), Refusal>
    ensures { number_of result ≡ first_of (leb n 65536) 9 0 }
{
    if n > OPERATION_MAX {
        Err(Refusal::AboveLimit)
    } else {
        Ok(())
    }
}

// Absorbs the bytes.
#[tactic(auto, unfolding(crate::specs::Blink::number, pi::specs::Permutation::is_state))]
pub fn put(state: &mut [u8], bytes: &[u8], domain: u8) -> Result<(), Refusal>
    ensures { Put domain bytes.now state.old (number_of result) state.new }
{
    let state = state
        .as_mut_array::<STATE_BYTES>()
        .ok_or(Refusal::WrongLength)?;
    limited(bytes.len())?;
    absorb(state, bytes, domain);
    Ok(())
}

// Squeezes out as many bytes as `out` has.
#[tactic(auto, unfolding(crate::specs::Blink::number, pi::specs::Permutation::is_state))]
pub fn get(state: &mut [u8], out: &mut [u8], domain: u8) -> Result<(), Refusal>
    ensures { Ran get domain out.old state.old out.old (number_of result) state.new
        out.new }
{
    let state = state
        .as_mut_array::<STATE_BYTES>()
        .ok_or(Refusal::WrongLength)?;
    limited(out.len())?;
    run::<Squeeze>(state, out, domain);
    Ok(())
}

// The bytes, into a buffer of their length. Not by `copy_from_slice`: where LLVM can't tell the two apart it makes that
// a `memmove`, which a program that links the archive would have to bring.
fn copy_all(out: &mut [u8], bytes: &[u8])
    requires { length out.old ≡ length bytes.now }
    ensures { out.new ≡ bytes.now }
{
    buffer::copy(out, bytes);
}

// enc and dec: the bytes are copied, then worked on in place.
#[tactic(auto, unfolding(crate::specs::Blink::number, pi::specs::Permutation::is_state))]
fn through<W: Way>(
    state: &mut [u8],
    bytes: &[u8],
    out: &mut [u8],
    domain: u8,
) -> Result<(), Refusal>
    ensures { Ran W.op domain bytes.now state.old out.old (number_of result)
        state.new out.new }
{
    let state = state
        .as_mut_array::<STATE_BYTES>()
        .ok_or(Refusal::WrongLength)?;
    if out.len() != bytes.len() {
        return Err(Refusal::WrongLength);
    }
    limited(bytes.len())?;
    copy_all(out, bytes);
    run::<W>(state, out, domain);
    Ok(())
}

// Encrypts the message to `out`.
pub fn enc(state: &mut [u8], message: &[u8], out: &mut [u8], domain: u8) -> Result<(), Refusal>
    ensures { Ran enc domain message.now state.old out.old (number_of result) state.new
        out.new }
{
    through::<Encrypt>(state, message, out, domain)
}

// Decrypts the ciphertext to `out`.
pub fn dec(state: &mut [u8], cipher: &[u8], out: &mut [u8], domain: u8) -> Result<(), Refusal>
    ensures { Ran dec domain cipher.now state.old out.old (number_of result) state.new
        out.new }
{
    through::<Decrypt>(state, cipher, out, domain)
}
