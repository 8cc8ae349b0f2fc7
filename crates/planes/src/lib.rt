// A state as planes of bits: packing, and the way back.
#![tactic(auto)]

ghost use Rattle.std.specs.Prelude.{◌≡◌, ◌+◌, ◌≤◌, length};
ghost use Rattle.pi.specs.Permutation.{added};
ghost use Rattle.planes.specs.Planes.{flipped, bytes_of};
ghost use Rattle.planes.specs.Packing.{Holds, stored, Across, Crosswise, Crossed};

// Eight words: byte j of word b is byte 8b + j of the planes.
#[derive(Clone, Copy)]
pub struct Planes {
    pub words: [u64; 8],
}

// ---- Bytes to words and back.
// Eight bytes from `at` on, the first lowest.
fn row(s: &[u8], at: usize) -> u64
    requires { at + 8 ≤ length s.now }
    ensures { Holds s.now at result }
{
    u64::from_le_bytes([
        s[at],
        s[at + 1],
        s[at + 2],
        s[at + 3],
        s[at + 4],
        s[at + 5],
        s[at + 6],
        s[at + 7],
    ])
}

// The eight bytes of w, the lowest first, from `at` on. A line for each, so that an edit can put one elsewhere.
fn store(s: &mut [u8; 64], at: usize, w: u64)
    requires { at + 8 ≤ 64 }
    ensures { s.new ≡ stored s.old at w }
{
    let bytes = w.to_le_bytes();
    s[at] = bytes[0];
    s[at + 1] = bytes[1];
    s[at + 2] = bytes[2];
    s[at + 3] = bytes[3];
    s[at + 4] = bytes[4];
    s[at + 5] = bytes[5];
    s[at + 6] = bytes[6];
    s[at + 7] = bytes[7];
}

// The 64 bytes as eight words. Inlined where it is called, as what stands below is: by calls π takes 5,500 instructions.
#[inline(always)]
pub fn words(s: &[u8; 64]) -> Planes
    ensures { bytes_of result ≡ s.now }
{
    let mut words = [0u64; 8];
    for b in 0..8usize {
        words[b] = row(s, 8 * b);
    }
    Planes { words }
}

// And back.
#[inline(always)]
pub fn put_words(s: &mut [u8; 64], p: Planes)
    ensures { s.new ≡ bytes_of p }
{
    for b in 0..8usize {
        store(s, 8 * b, p.words[b]);
    }
}

// ---- The transposition.
#[derive(Drop)]
struct Pair {
    a: u64,
    b: u64,
}

// The bits of a that m has not, d places higher, change places with the bits of b that m has.
#[tactic(auto, using(crate::proofs::Crossing::cross_is))]
fn cross(a: u64, b: u64, d: usize, m: u64) -> Pair
    requires { Crossed d m }
    ensures { Crosswise d a b result.a result.b }
{
    let t = ((a >> d) ^ b) & m;
    Pair {
        a: a ^ (t << d),
        b: b ^ t,
    }
}

// Each word without the digit D is crossed with the one that has it.
fn across<const D: usize>(w: Planes, m: u64) -> Planes
    requires { Crossed D m }
    ensures { Across D w result }
{
    let mut words = [0u64; 8];
    for i in 0..8usize {
        if i / D % 2 == 0 {
            let crossed = cross(w.words[i], w.words[i + D], D, m);
            words[i] = crossed.a;
            words[i + D] = crossed.b;
        }
    }
    Planes { words }
}

// A state's words to its planes, and planes to the state's words.
pub fn transposed(w: Planes) -> Planes
    ensures { bytes_of result ≡ flipped (bytes_of w) }
{
    let x = across::<1>(w, 0x5555555555555555);
    let y = across::<2>(x, 0x3333333333333333);
    across::<4>(y, 0x0F0F0F0F0F0F0F0F)
}

// Word by word by xor.
#[inline(always)]
pub fn sum(p: Planes, q: Planes) -> Planes
    ensures { bytes_of result ≡ added (bytes_of q) (bytes_of p) }
{
    let mut words = [0u64; 8];
    for b in 0..8usize {
        words[b] = p.words[b] ^ q.words[b];
    }
    Planes { words }
}
