// The permutation of STRIBOBr2, its inverse, one round of either, and the rule of its table. π itself goes by planes
// (`rounds`); a round with a key of the caller's, by bytes. No table is indexed and no branch taken by what a state, a
// key or a byte holds.
#![tactic(auto)]

ghost use Rattle.std.specs.Prelude.{◌≡◌, List, ℕ, ◌+◌, ◌*◌, ◌/◌, ◌%◌, ◌≤◌, ◌<◌, length};
ghost use Rattle.laws.specs.Lists.{listed};
ghost use Rattle.pi.specs.Table.{S, S⁻};
ghost use Rattle.pi.specs.Field.{double};
ghost use Rattle.pi.specs.Permutation.{source, target, first_row, first_row⁻, mix_with};
ghost use Rattle.pi.specs.Permutation.{scramble, scramble⁻, added, round, round⁻, π, π⁻, Permuted, Rounded};
ghost use Rattle.numbers.specs.Refusals.{number_of};
ghost use Rattle.permutation.specs.Rows.{each, moved, swapped, row_at, eight, column};

use numbers::{Refusal, STATE_BYTES};

type State = [u8; STATE_BYTES];

// The state becomes π of it, with 0; or stays, with 2, where its length is not 64.
pub fn permute(state: &mut [u8]) -> Result<(), Refusal>
    ensures { Permuted π state.old (number_of result) state.new }
{
    rounds::permute(state)
}

// The state becomes the one that π takes to it, with 0; or stays, with 2, where its length is not 64.
pub fn permute_back(state: &mut [u8]) -> Result<(), Refusal>
    ensures { Permuted π⁻ state.old (number_of result) state.new }
{
    rounds::permute_back(state)
}

// ---- A byte.
// 1D where bit 7 was set, by a factor of 0 or 1 and not by a branch.
fn double(x: u8) -> u8
    ensures { result ≡ double x }
{
    (x << 1) ^ ((x >> 7) * 0x1D)
}

// The two halves change places.
fn exchanged(x: u8) -> u8
    ensures { result ≡ swapped x }
{
    ((x & 15) << 4) | (x >> 4)
}

// ---- The way that a round goes: what a byte becomes, where the byte that comes to k is taken from, and the last
// column of a row's product with the matrix.
trait Way {
    ghost made: { ℕ → ℕ };

    ghost place: { ℕ → ℕ };

    ghost first: { List ℕ };

    fn replaced(x: u8) -> u8
        ensures { result ≡ made x };

    fn taken_from(k: usize) -> usize
        requires { k < 64 }
        ensures { (result ≡ place k) × (result < 64) };

    fn cell(a: u8, b: u8, c: u8, d: u8, e: u8, f: u8, g: u8, h: u8) -> u8
        ensures { result ≡ column first (eight a b c d e f g h) 7 };
}

struct Forth;

impl Way for Forth {
    ghost made = { S };

    ghost place = { source };

    ghost first = { first_row };

    // From the miniboxes. Inlined where it is called, so that LLVM takes several bytes of a loop at once.
    #[inline(always)]
    fn replaced(x: u8) -> u8 {
        let u = gates::box_e(x >> 4);
        let v = gates::box_e_back(x & 15);
        let w = gates::box_r(u ^ v);
        (gates::box_e(u ^ w) << 4) | gates::box_e_back(v ^ w)
    }

    #[tactic(auto, unfolding(pi::specs::Permutation::source))]
    fn taken_from(k: usize) -> usize {
        (k / 8 + 8 - k % 8) % 8 * 8 + k % 8
    }

    // 9a + 2b + 5c + 8d + 1e + 4f + 1g + 1h, from the highest bit of the coefficients down.
    fn cell(a: u8, b: u8, c: u8, d: u8, e: u8, f: u8, g: u8, h: u8) -> u8 {
        a ^ c ^ e ^ g ^ h ^ double(b ^ double(c ^ f ^ double(a ^ d)))
    }
}

struct Back;

impl Way for Back {
    ghost made = { S⁻ };

    ghost place = { target };

    ghost first = { first_row⁻ };

    // The halves change places on the way in and on the way out: then the same miniboxes undo it.
    #[inline(always)]
    fn replaced(x: u8) -> u8 {
        exchanged(Forth::replaced(exchanged(x)))
    }

    #[tactic(auto, unfolding(pi::specs::Permutation::target))]
    fn taken_from(k: usize) -> usize {
        (k / 8 + k % 8) % 8 * 8 + k % 8
    }

    // 3Ea + CBb + C2c + C2d + A4e + 0Ef + AFg + 04h, bit by bit as above.
    fn cell(a: u8, b: u8, c: u8, d: u8, e: u8, f: u8, g: u8, h: u8) -> u8 {
        let p = a ^ e ^ g ^ double(b ^ c ^ d ^ double(b ^ c ^ d ^ e ^ g));
        let q = a ^ b ^ f ^ g ^ double(a ^ double(p));
        let r = a ^ b ^ c ^ d ^ f ^ g ^ double(a ^ e ^ f ^ g ^ h ^ double(q));
        b ^ g ^ double(r)
    }
}

// The table's entry at x.
pub fn minibox(x: u8) -> u8
    ensures { result ≡ S x }
{
    Forth::replaced(x)
}

// ---- The steps.
fn substitute<W: Way>(bytes: &mut [u8])
    ensures { bytes.new ≡ each W.made bytes.old }
{
    for b in bytes.iter_mut() {
        *b = W::replaced(*b);
    }
}

fn shift<W: Way>(from: &State, to: &mut State)
    ensures { to.new ≡ moved W.place from.now }
{
    for k in 0..64 {
        to[k] = from[W::taken_from(k)];
    }
}

// The row that begins at i, mixed: each column is the last one of the row turned.
fn mixed_row<W: Way>(from: &State, i: usize) -> [u8; 8]
    requires { i + 8 ≤ 64 }
    ensures { result ≡ listed 0 8 (column W.first (row_at from.now i)) }
{
    let a = from[i];
    let b = from[i + 1];
    let c = from[i + 2];
    let d = from[i + 3];
    let e = from[i + 4];
    let f = from[i + 5];
    let g = from[i + 6];
    let h = from[i + 7];
    [
        W::cell(b, c, d, e, f, g, h, a),
        W::cell(c, d, e, f, g, h, a, b),
        W::cell(d, e, f, g, h, a, b, c),
        W::cell(e, f, g, h, a, b, c, d),
        W::cell(f, g, h, a, b, c, d, e),
        W::cell(g, h, a, b, c, d, e, f),
        W::cell(h, a, b, c, d, e, f, g),
        W::cell(a, b, c, d, e, f, g, h),
    ]
}

fn mix<W: Way>(from: &State, to: &mut State)
    ensures { to.new ≡ mix_with W.first from.now }
{
    for i in 0..8 {
        let x = mixed_row::<W>(from, i * 8);
        to[i * 8..i * 8 + 8].copy_from_slice(&x);
    }
}

// ---- A round.
fn scramble(state: &mut State)
    ensures { state.new ≡ scramble state.old }
{
    let mut u = [0u8; STATE_BYTES];
    substitute::<Forth>(state);
    shift::<Forth>(state, &mut u);
    mix::<Forth>(&u, state);
}

// The other way round, each step undone: one function for both ways would only call what a way lists.
fn scramble_back(state: &mut State)
    ensures { state.new ≡ scramble⁻ state.old }
{
    let mut u = [0u8; STATE_BYTES];
    mix::<Back>(state, &mut u);
    shift::<Back>(&u, state);
    substitute::<Back>(state);
}

fn add_key(state: &mut State, key: &State)
    ensures { state.new ≡ added key.now state.old }
{
    buffer::add(state, key);
}

// One round with a key of the caller's, with 0; or the state stays, with 2, where either length is not 64.
#[tactic(auto, unfolding(pi::specs::Permutation::is_state, pi::specs::Permutation::round))]
pub fn round(state: &mut [u8], key: &[u8]) -> Result<(), Refusal>
    ensures { Rounded round key.now state.old (number_of result) state.new }
{
    let state = state
        .as_mut_array::<STATE_BYTES>()
        .ok_or(Refusal::WrongLength)?;
    let key = key.as_array::<STATE_BYTES>().ok_or(Refusal::WrongLength)?;
    scramble(state);
    add_key(state, key);
    Ok(())
}

// The state becomes the one that a round with this key takes to it, with 0; or stays, with 2, where either length is
// not 64.
#[tactic(auto, using(crate::proofs::Each::undone), unfolding(pi::specs::Permutation::is_state))]
pub fn round_back(state: &mut [u8], key: &[u8]) -> Result<(), Refusal>
    ensures { Rounded round⁻ key.now state.old (number_of result) state.new }
{
    let state = state
        .as_mut_array::<STATE_BYTES>()
        .ok_or(Refusal::WrongLength)?;
    let key = key.as_array::<STATE_BYTES>().ok_or(Refusal::WrongLength)?;
    add_key(state, key);
    scramble_back(state);
    Ok(())
}
