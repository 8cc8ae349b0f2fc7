// The rounds of π on planes of bits: no table is indexed and no branch taken by what the state holds. The planes hold
// the state plus 62, on the way back plus 5D: then the circuits need no NOT.
#![tactic(auto)]

ghost use Rattle.std.specs.Prelude.{◌≡◌, List, ℕ, ◌+◌, ◌*◌, ◌<◌};
ghost use lib.Dec.{lit<};
ghost use Rattle.pi.specs.Permutation.{substitute, shift, mix, added, constant, π, Permuted, substitute⁻, shift⁻, mix⁻, π⁻};
ghost use Rattle.pi.proofs.StateLaws.{Full};
ghost use Rattle.numbers.specs.Refusals.{number_of};
ghost use Rattle.planes.specs.Planes.{flipped, plus, bytes_of};
ghost use Rattle.rounds.specs.Rounds.{halves, word_at, constant_planes, alike, held};

use numbers::{Refusal, STATE_BYTES};
use planes::Planes;

mod constants;
mod table;

// ---- The constants.
#[tactic(auto, unfolding(crate::specs::Rounds::word_at))]
fn word(t: &[u32; 192], k: usize) -> u64
    requires { k + 1 < 192 }
    ensures { result ≡ word_at t.now k }
{
    u64::from(t[k + 1]) * 4294967296 + u64::from(t[k])
}

fn constant_planes(t: &[u32; 192], r: usize) -> Planes
    requires { (t.now ≡ halves) × (r < 12) }
    ensures { result ≡ constant_planes r }
{
    let mut words = [0u64; 8];
    for b in 0..8usize {
        words[b] = word(t, r * 16 + 2 * b);
    }
    Planes { words }
}

const ONES: u64 = 0xFFFFFFFFFFFFFFFF;

// The planes of a state each byte of which is this one.
fn every(byte: u8) -> Planes
    ensures { bytes_of result ≡ flipped (alike byte) }
{
    let mut words = [0u64; 8];
    for b in 0..8usize {
        words[b] = u64::from((byte >> b) % 2) * ONES;
    }
    Planes { words }
}

// ---- In and out: planes of the state plus what c holds.
#[inline(always)]
fn pack(q: &[u8; 64], s: &mut [u8; 64], c: Planes)
    ensures full { Full q.now }
    ensures packs { s.new ≡ added (bytes_of c) (flipped q.now) }
{
    planes::put_words(s, planes::sum(planes::transposed(planes::words(q)), c));
}

#[inline(always)]
fn unpack(s: &[u8; 64], q: &mut [u8; 64], c: Planes)
    ensures { q.new ≡ flipped (added (bytes_of c) s.now) }
{
    planes::put_words(q, planes::transposed(planes::sum(planes::words(s), c)));
}

// ---- A round, by way of q.
fn scrambled(s: &[u8; 64], q: &mut [u8; 64]) -> Planes
    ensures { flipped (bytes_of result) ≡ mix (shift (plus 0xD5 (substitute (plus 0x62 (flipped s.now))))) }
{
    boxes::substitute(s, q);
    mixing::mixed(planes::words(q))
}

#[tactic(auto, using(crate::proofs::PlaneRounds::keyed))]
fn round(t: &[u32; 192], s: &mut [u8; 64], q: &mut [u8; 64], r: usize)
    requires { (t.now ≡ halves) × (r < 12) }
    ensures { flipped s.new
        ≡ added (constant r) (mix (shift (plus 0xD5 (substitute (plus 0x62 (flipped s.old)))))) }
{
    let p = scrambled(s, q);
    planes::put_words(s, planes::sum(p, constant_planes(t, r)));
}

// ---- And back.
#[tactic(auto, using(crate::proofs::PlaneRounds::unmixed))]
fn unscrambled(s: &[u8; 64], k: Planes) -> Planes
    ensures { flipped (bytes_of result) ≡ mix⁻ (added (flipped (bytes_of k)) (flipped s.now)) }
{
    mixing::mixed_back(planes::sum(planes::words(s), k))
}

#[tactic(auto, using(crate::proofs::PlaneRounds::keyed_back))]
fn round_back(t: &[u32; 192], s: &mut [u8; 64], q: &mut [u8; 64], r: usize)
    requires { (t.now ≡ halves) × (r < 12) }
    ensures { flipped s.new
        ≡ plus 0x5D (substitute⁻ (plus 0x26 (shift⁻ (mix⁻ (added (added (alike 0x37) (constant r)) (flipped s.old)))))) }
{
    let k = planes::sum(constant_planes(t, r), every(0x37));
    planes::put_words(q, unscrambled(s, k));
    boxes::substitute_back(q, s);
}

// ---- All rounds, either way, on planes of the state plus HELD.
trait Way {
    ghost HELD: { ℕ };

    ghost whole: { List ℕ → List ℕ };

    const HELD: u8;

    fn rounds(t: &[u32; 192], s: &mut [u8; 64], q: &mut [u8; 64])
        requires { t.now ≡ halves }
        ensures { held HELD s.new ≡ whole (held HELD s.old) };

    ghost small: { HELD < 256 };
}

struct Forth;

impl Way for Forth {
    ghost HELD = { 0x62 };

    ghost whole = { π };

    const HELD: u8 = 0x62;

    fn rounds(t: &[u32; 192], s: &mut [u8; 64], q: &mut [u8; 64]) {
        for r in 0..12usize {
            round(t, s, q, r);
        }
    }

    ghost small = { lit< tt };
}

struct Back;

impl Way for Back {
    ghost HELD = { 0x5D };

    ghost whole = { π⁻ };

    const HELD: u8 = 0x5D;

    fn rounds(t: &[u32; 192], s: &mut [u8; 64], q: &mut [u8; 64]) {
        for r in (0..12usize).rev() {
            round_back(t, s, q, r);
        }
    }

    ghost small = { lit< tt };
}

fn through<W: Way>(state: &mut [u8; 64])
    ensures { state.new ≡ W.whole state.old }
{
    let t = constants::constants();
    let mut s = [0u8; 64];
    let mut q = [0u8; 64];
    pack(state, &mut s, every(W::HELD));
    W::rounds(&t, &mut s, &mut q);
    unpack(&s, state, every(W::HELD));
}

// The state becomes π of it, with 0; or stays, with 2, where its length is not 64.
#[tactic(auto, unfolding(pi::specs::Permutation::is_state))]
pub fn permute(state: &mut [u8]) -> Result<(), Refusal>
    ensures { Permuted π state.old (number_of result) state.new }
{
    let state = state
        .as_mut_array::<STATE_BYTES>()
        .ok_or(Refusal::WrongLength)?;
    through::<Forth>(state);
    Ok(())
}

// The state becomes the one that π takes to it, with 0; or stays, with 2, where its length is not 64.
#[tactic(auto, unfolding(pi::specs::Permutation::is_state))]
pub fn permute_back(state: &mut [u8]) -> Result<(), Refusal>
    ensures { Permuted π⁻ state.old (number_of result) state.new }
{
    let state = state
        .as_mut_array::<STATE_BYTES>()
        .ok_or(Refusal::WrongLength)?;
    through::<Back>(state);
    Ok(())
}
