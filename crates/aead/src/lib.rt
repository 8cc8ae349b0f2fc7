// Sealing and opening: STRIBOBr2.
#![tactic(auto)]

ghost use Rattle.std.specs.Prelude.{◌≡◌, ◌+◌, ◌≤◌, IfOk, IsOk, length, replicate};
ghost use Rattle.laws.specs.Choose.{pick, first_of};
ghost use Rattle.numbers.specs.Refusals.{number_of};
ghost use Rattle.aead.specs.Sealing.{keyed, sealed_from, opened_from, fits_from, sized, limited, Sealed, Opened};

use numbers::{
    DATA_MAX, DOMAIN_DATA, DOMAIN_KEY, DOMAIN_MESSAGE, DOMAIN_NONCE, KEY_BYTES, MESSAGE_MAX,
    NONCE_BYTES, Refusal, STATE_BYTES, TAG_BYTES,
};

type State = [u8; STATE_BYTES];

// The state that key, nonce and associated data leave. No put is refused: each has a length within its limit.
fn keyed(key: &[u8; KEY_BYTES], nonce: &[u8; NONCE_BYTES], associated: &[u8]) -> State
    requires { length associated.now ≤ 65536 }
    ensures { result ≡ keyed key.now nonce.now associated.now }
{
    let mut state = [0u8; STATE_BYTES];
    sponge::put(&mut state, key, DOMAIN_KEY).unwrap();
    sponge::put(&mut state, nonce, DOMAIN_NONCE).unwrap();
    sponge::put(&mut state, associated, DOMAIN_DATA).unwrap();
    state
}

// What sealing and opening begin with: that state, where key and nonce have their lengths, the longer text has 16 bytes
// more than the shorter, and data and text keep their limits.
#[tactic(auto, unfolding(crate::specs::Sealing::sized, crate::specs::Sealing::key_ok, crate::specs::Sealing::limited))]
fn begin(
    key: &[u8],
    nonce: &[u8],
    associated: &[u8],
    long: usize,
    short: usize,
) -> Result<State, Refusal>
    ensures number { number_of result ≡ first_of (sized key.now nonce.now long short) 2 (first_of (limited associated.now short) 9 0) }
    ensures state { IfOk result (λ v. v ≡ keyed key.now nonce.now associated.now) }
{
    let key = key.as_array::<KEY_BYTES>().ok_or(Refusal::WrongLength)?;
    let nonce = nonce.as_array::<NONCE_BYTES>().ok_or(Refusal::WrongLength)?;
    if long.checked_sub(TAG_BYTES) != Some(short) {
        return Err(Refusal::WrongLength);
    }
    if associated.len() > DATA_MAX || short > MESSAGE_MAX {
        return Err(Refusal::AboveLimit);
    }
    Ok(keyed(key, nonce, associated))
}

// Seals from that state: the ciphertext, then the tag.
fn seal_from(mut state: State, message: &[u8], out: &mut [u8])
    requires { (length message.now ≤ 65520) × (length out.old ≡ length message.now + 16) }
    ensures { out.new ≡ sealed_from state message.now }
{
    let (cipher, tag) = out.split_at_mut(message.len());
    sponge::enc(&mut state, message, cipher, DOMAIN_MESSAGE).unwrap();
    buffer::copy(tag, &state[..TAG_BYTES]);
}

// Opens from that state, and says whether the tag fits. All of the text is worked through, then all of the tag
// compared; where it does not fit, `out` is left all zero.
fn open_from(mut state: State, sealed: &[u8], out: &mut [u8]) -> bool
    requires { (length out.old ≤ 65520) × (length sealed.now ≡ length out.old + 16) }
    ensures { (result ≡ fits_from state sealed.now) ×
        (out.new ≡ pick result (opened_from state sealed.now) (replicate (length out.old) 0)) }
{
    let (cipher, tag) = sealed.split_at(out.len());
    sponge::dec(&mut state, cipher, out, DOMAIN_MESSAGE).unwrap();
    let fit = buffer::same(&state[..TAG_BYTES], tag);
    if !fit {
        buffer::zero(out);
    }
    fit
}

// Seals the message into `out`, 16 bytes longer. WrongLength: of key, nonce or `out`; AboveLimit: associated data above
// 65,536 bytes or message above 65,520. Refused, `out` is untouched.
#[tactic(auto, unfolding(crate::specs::Sealing::seal_number, crate::specs::Sealing::seal_leaves, crate::specs::Sealing::sealed, crate::specs::Sealing::sized, crate::specs::Sealing::key_ok, crate::specs::Sealing::limited))]
pub fn seal(
    key: &[u8],
    nonce: &[u8],
    associated: &[u8],
    message: &[u8],
    out: &mut [u8],
) -> Result<(), Refusal>
    ensures { Sealed key.now nonce.now associated.now message.now
        out.old (number_of result) out.new }
{
    let state = begin(key, nonce, associated, out.len(), message.len())?;
    seal_from(state, message, out);
    Ok(())
}

// Opens what was sealed into `out`, 16 bytes shorter. Refused as sealing is, `out` untouched; WrongTag: the tag does not
// fit, `out` is all zero.
#[tactic(auto, unfolding(crate::specs::Sealing::open_number, crate::specs::Sealing::open_leaves, crate::specs::Sealing::opened, crate::specs::Sealing::fits, crate::specs::Sealing::sized, crate::specs::Sealing::key_ok, crate::specs::Sealing::limited))]
pub fn open(
    key: &[u8],
    nonce: &[u8],
    associated: &[u8],
    sealed: &[u8],
    out: &mut [u8],
) -> Result<(), Refusal>
    ensures { Opened key.now nonce.now associated.now sealed.now
        out.old (number_of result) out.new }
{
    let state = begin(key, nonce, associated, sealed.len(), out.len())?;
    if open_from(state, sealed, out) {
        Ok(())
    } else {
        Err(Refusal::WrongTag)
    }
}
