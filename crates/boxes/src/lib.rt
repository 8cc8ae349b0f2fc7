// The substitution and the shift on planes of bits, by gates: no table is indexed.
#![tactic(auto)]

ghost use Rattle.std.specs.Prelude.{◌≡◌, ℕ, ◌+◌, ◌-◌, ◌%◌, ◌<◌, length};
ghost use Rattle.pi.specs.Permutation.{substitute, shift, substitute⁻, shift⁻};
ghost use Rattle.planes.specs.Planes.{bit, flipped, plus};
ghost use Rattle.gates.specs.Gates.{Same16, half};
ghost use Rattle.boxes.specs.Boxes.{byte, quarter, turned_by, stored, Columns, forth, back};

use gates::Four;

// The eight planes of a column, each byte twice in its word.
#[derive(Clone, Copy, Drop)]
struct Both {
    low: Four,
    high: Four,
}

impl Both {
    fn exchanged(self) -> Both
        ensures { (result.low ≡ self.high) × (result.high ≡ self.low) }
    {
        Both {
            low: self.high,
            high: self.low,
        }
    }
}

// A byte twice, so that a shift turns it.
fn twice(x: u8) -> u16
    ensures { Same16 (λ n. bit n result) (λ n. bit (n % 8) x) }
{
    u16::from(x) | (u16::from(x) << 8)
}

// The low byte of a word that holds it twice, turned left by k.
#[tactic(auto, unfolding(crate::specs::Boxes::turned_by))]
fn turned(x: u16, k: u16) -> u8
    requires { k < 8 }
    ensures { result ≡ turned_by k x }
{
    (((x << k) >> 8) % 256) as u8
}

// Four planes of a column, from `at` on.
fn loaded(s: &[u8; 64], at: usize) -> Four
    requires { at < 40 }
    ensures { Same16 (half result) (λ n. quarter s.now at (n % 8)) }
{
    Four {
        p0: twice(s[at]),
        p1: twice(s[at + 8]),
        p2: twice(s[at + 16]),
        p3: twice(s[at + 24]),
    }
}

// And back to their places, each turned left by k.
fn store(q: &mut [u8; 64], at: usize, x: Four, k: u16)
    requires { (at < 40) × (k < 8) }
    ensures { q.new ≡ stored q.old at k x }
{
    q[at] = turned(x.p0, k);
    q[at + 8] = turned(x.p1, k);
    q[at + 16] = turned(x.p2, k);
    q[at + 24] = turned(x.p3, k);
}

// The way that a substitution goes: what it makes of a column, and by how much it turns column j.
trait Way {
    ghost made: { ℕ → ℕ };

    ghost turn: { ℕ → ℕ };

    fn column(x: Both) -> Both
        ensures { Same16 (byte result) (λ n. made (byte x n)) };

    fn turn_of(j: usize) -> u16
        requires { j < 8 }
        ensures { (result ≡ turn j) × (result < 8) };
}

// S (x + 62) + D5. A column is inlined where it is called: LLVM then takes the eight of the loop as one vector.
struct Forth;

impl Way for Forth {
    ghost made = { forth };

    ghost turn = { λ j. j };

    #[inline(always)]
    fn column(x: Both) -> Both {
        let u = gates::high_in(x.high);
        let v = gates::low_in(x.low);
        let w = gates::between(u ^ v);
        let h = gates::high_out(u ^ w);
        let l = gates::low_out(v ^ w);
        Both { low: l, high: h }
    }

    fn turn_of(j: usize) -> u16 {
        j as u16
    }
}

// The table's inverse is the table between two exchanges of the halves.
struct Back;

impl Way for Back {
    ghost made = { back };

    ghost turn = { λ j. (8 - j) % 8 };

    #[inline(always)]
    fn column(x: Both) -> Both {
        let y = Forth::column(x.exchanged());
        y.exchanged()
    }

    fn turn_of(j: usize) -> u16 {
        ((8 - j) % 8) as u16
    }
}

// Each column made and turned. By way of a local array: LLVM then knows it apart from s, also where the call is not
// inlined.
fn by_columns<W: Way>(s: &[u8; 64], q: &mut [u8; 64])
    ensures { Columns W.made W.turn s.now q.new }
{
    let mut t = [0u8; 64];
    for j in 0..8usize {
        let k = W::turn_of(j);
        let y = W::column(Both {
            low: loaded(s, j),
            high: loaded(s, j + 32),
        });
        store(&mut t, j, y.low, k);
        store(&mut t, j + 32, y.high, k);
    }
    *q = t;
}

// The substitution and the shift on planes of a state plus 62.
pub fn substitute(s: &[u8; 64], q: &mut [u8; 64])
    ensures { (length q.new ≡ 64) × (flipped q.new ≡ shift (plus 0xD5 (substitute (plus 0x62 (flipped s.now))))) }
{
    by_columns::<Forth>(s, q);
}

// The shift and the substitution undone, on planes: what comes out is the state plus 5D.
pub fn substitute_back(s: &[u8; 64], q: &mut [u8; 64])
    ensures { (length q.new ≡ 64) × (flipped q.new ≡ plus 0x5D (substitute⁻ (plus 0x26 (shift⁻ (flipped s.now))))) }
{
    by_columns::<Back>(s, q);
}
