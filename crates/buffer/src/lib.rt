// What every layer does with lent buffers: zero one, copy or add into one, compare two.
#![tactic(auto)]

ghost use Rattle.std.specs.Prelude.{◌≡◌, length, take, replicate};
ghost use Rattle.std.specs.Int.Bits.{bit_or, bit_xor};
ghost use Rattle.std.specs.List.{fold, zip};
ghost use Rattle.laws.specs.Lists.{splice, same};
ghost use Rattle.laws.specs.Xor.{xor_into};

// Fills `out` with zeros.
pub fn zero(out: &mut [u8])
    ensures { out.new ≡ replicate (length out.old) 0 }
{
    for k in 0..out.len() {
        out[k] = 0;
    }
}

// Lays `from` over the front of `to`, as much of it as there is room for.
pub fn copy(to: &mut [u8], from: &[u8])
    ensures { to.new ≡ splice to.old 0 (take (length to.old) from.now) }
{
    let n = to.len().min(from.len());
    for at in 0..n {
        to[at] = from[at];
    }
}

// Takes `from` into the front of `to` by xor, as far as both go. By index: what is written through `iter_mut` beside
// `zip` is not known to a proof afterwards.
pub fn add(to: &mut [u8], from: &[u8])
    ensures { to.new ≡ xor_into from.now to.old }
{
    let n = to.len().min(from.len());
    for k in 0..n {
        to[k] ^= from[k];
    }
}

// The differences, gathered. Every byte of both is looked at, whatever the first ones say.
fn differing(a: &[u8], b: &[u8]) -> u8
    ensures { result ≡ fold (λ d p. bit_or d (bit_xor p.0 p.1)) 0 (zip a.now b.now) }
{
    a.iter().zip(b).fold(0, |d, (x, y)| d | (x ^ y))
}

// Whether both hold the same bytes.
pub fn same(a: &[u8], b: &[u8]) -> bool
    ensures { result ≡ same a.now b.now }
{
    a.len() == b.len() && differing(a, b) == 0
}
