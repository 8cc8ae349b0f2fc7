// The miniboxes on planes of bits, without a NOT: a box is taken as x to B(x + a) + B(a), which sends 0 to 0.
// With a byte a of 62 these translations fit: S(62) = D5, and 03 times D5 is 62 again, so that a state whose
// bytes all are the true ones plus 62 stays so through substitute, shift, mix and the constants.
#![tactic(auto)]

ghost use Rattle.std.specs.Prelude.{◌≡◌, ◌%◌, get_or};
ghost use Rattle.laws.specs.Xor.{xor};
ghost use Rattle.pi.specs.Table.{E, E⁻, R};
ghost use Rattle.gates.specs.Gates.{Same16, half, Minibox};
ghost use Rattle.gates.specs.declared.Four.{Four};

use std::ops::BitXor;

#[derive(Clone, Copy)]
pub struct Four {
    pub p0: u16,
    pub p1: u16,
    pub p2: u16,
    pub p3: u16,
}

// The sum of half bytes, at every place.
impl BitXor for Four {
    type Output = Four;

    ghost bitxor_gives = { λ x y r. Same16 (half r) (λ n. xor (half x n) (half y n)) };

    fn bitxor(self, y: Four) -> Four {
        Four {
            p0: self.p0 ^ y.p0,
            p1: self.p1 ^ y.p1,
            p2: self.p2 ^ y.p2,
            p3: self.p3 ^ y.p3,
        }
    }
}

// E(x + 6) + F
pub fn high_in(x: Four) -> Four
    ensures { Minibox E 6 0xF x result }
{
    let t0 = x.p0;
    let t1 = x.p1;
    let t2 = x.p2;
    let t3 = x.p3;
    let t4 = t0 | t1;
    let t5 = t0 ^ t1;
    let t6 = t2 & t5;
    let t7 = t1 ^ t2;
    let t8 = t7 & t0;
    let t9 = t6 ^ t7;
    let t10 = t4 ^ t6;
    let t11 = (t3 ^ 0xFFFF) & t9;
    let t12 = t11 ^ t10;
    let t13 = t10 | t3;
    let t14 = t8 | t3;
    let t15 = t9 ^ t14;
    let t16 = t14 & t4;
    let t17 = (t8 ^ 0xFFFF) & t1;
    let t18 = t13 ^ t17;
    Four {
        p0: t16,
        p1: t15,
        p2: t12,
        p3: t18,
    }
}

// E'(x + 2) + D
pub fn low_in(x: Four) -> Four
    ensures { Minibox E⁻ 2 0xD x result }
{
    let t0 = x.p0;
    let t1 = x.p1;
    let t2 = x.p2;
    let t3 = x.p3;
    let t4 = (t0 ^ 0xFFFF) & t1;
    let t5 = t3 ^ t4;
    let t6 = t2 ^ t3;
    let t7 = (t5 ^ 0xFFFF) & t2;
    let t8 = t0 ^ t7;
    let t9 = t5 | t0;
    let t10 = t1 ^ t0;
    let t11 = t10 & t5;
    let t12 = t1 ^ t11;
    let t13 = (t1 ^ 0xFFFF) & t2;
    let t14 = t9 & t2;
    let t15 = t12 ^ t14;
    let t16 = (t13 ^ 0xFFFF) & t10;
    let t17 = (t16 ^ 0xFFFF) & t9;
    let t18 = t12 & t6;
    let t19 = t10 ^ t18;
    Four {
        p0: t17,
        p1: t19,
        p2: t15,
        p3: t8,
    }
}

// R(x + 2) + B
pub fn between(x: Four) -> Four
    ensures { Minibox R 2 0xB x result }
{
    let t0 = x.p0;
    let t1 = x.p1;
    let t2 = x.p2;
    let t3 = x.p3;
    let t4 = t2 | t1;
    let t5 = t1 & t2;
    let t6 = t0 ^ t5;
    let t7 = (t6 ^ 0xFFFF) & t1;
    let t8 = t3 ^ t1;
    let t9 = t6 | t8;
    let t10 = t9 ^ t3;
    let t11 = t3 & t4;
    let t12 = t7 | t11;
    let t13 = t0 ^ t4;
    let t14 = (t0 ^ 0xFFFF) & t12;
    let t15 = t8 ^ t14;
    let t16 = t7 | t15;
    let t17 = t16 ^ t13;
    Four {
        p0: t15,
        p1: t17,
        p2: t10,
        p3: t12,
    }
}

// E(x + 4) + D
pub fn high_out(x: Four) -> Four
    ensures { Minibox E 4 0xD x result }
{
    let t0 = x.p0;
    let t1 = x.p1;
    let t2 = x.p2;
    let t3 = x.p3;
    let t4 = t0 ^ t1;
    let t5 = (t4 ^ 0xFFFF) & t2;
    let t6 = t2 ^ t1;
    let t7 = (t6 ^ 0xFFFF) & t0;
    let t8 = (t0 ^ 0xFFFF) & t1;
    let t9 = t6 ^ t5;
    let t10 = t7 | t1;
    let t11 = t8 ^ t5;
    let t12 = t7 | t3;
    let t13 = (t8 ^ 0xFFFF) & t12;
    let t14 = t12 ^ t9;
    let t15 = t3 | t9;
    let t16 = t15 ^ t11;
    let t17 = (t3 ^ 0xFFFF) & t11;
    let t18 = t10 ^ t17;
    Four {
        p0: t13,
        p1: t14,
        p2: t16,
        p3: t18,
    }
}

// E'(x + 6) + 5
pub fn low_out(x: Four) -> Four
    ensures { Minibox E⁻ 6 5 x result }
{
    let t0 = x.p0;
    let t1 = x.p1;
    let t2 = x.p2;
    let t3 = x.p3;
    let t4 = (t0 ^ 0xFFFF) & t1;
    let t5 = t3 ^ t4;
    let t6 = (t5 ^ 0xFFFF) & t2;
    let t7 = t6 ^ t1;
    let t8 = t0 ^ t6;
    let t9 = (t5 ^ 0xFFFF) & t7;
    let t10 = t8 ^ t5;
    let t11 = (t6 ^ 0xFFFF) & t10;
    let t12 = t2 ^ t9;
    let t13 = t11 ^ t12;
    let t14 = t2 | t13;
    let t15 = (t12 ^ 0xFFFF) & t8;
    let t16 = t7 ^ t15;
    let t17 = (t16 ^ 0xFFFF) & t14;
    let t18 = t8 ^ t17;
    Four {
        p0: t18,
        p1: t16,
        p2: t13,
        p3: t10,
    }
}

// ---- A minibox of one half byte, without a lookup.
// Bit b of x to place 0 of word b; what stands at the other places is left open.
fn spread(x: u8) -> Four
    ensures { half result 0 ≡ x % 16 }
{
    let w = u16::from(x);
    Four {
        p0: w,
        p1: w >> 1,
        p2: w >> 2,
        p3: w >> 3,
    }
}

// The bits at place 0 of the four words.
fn gathered(x: Four) -> u8
    ensures { result ≡ half x 0 }
{
    let w = (x.p0 & 1) | ((x.p1 & 1) << 1) | ((x.p2 & 1) << 2) | ((x.p3 & 1) << 3);
    (w % 256) as u8
}

// The low half of x, plus a, through a circuit, plus c: the sums that stand around a minibox undone.
#[inline(always)]
fn alone<F: Fn(Four) -> Four>(circuit: F, a: u8, c: u8, x: u8) -> u8
    requires { F.IsAlwaysCallable circuit }
    ensures { (h : Four) × (y : Four) × (half h 0 ≡ xor x a % 16) × F.post circuit h y × (result ≡ xor (half y 0) c) }
{
    gathered(circuit(spread(x ^ a))) ^ c
}

// E of the low half of x.
#[inline(always)]
pub fn box_e(x: u8) -> u8
    ensures { result ≡ get_or E (x % 16) 0 }
{
    alone(high_in, 6, 0xF, x)
}

// E' of the low half of x.
#[inline(always)]
pub fn box_e_back(x: u8) -> u8
    ensures { result ≡ get_or E⁻ (x % 16) 0 }
{
    alone(low_in, 2, 0xD, x)
}

// R of the low half of x.
#[inline(always)]
pub fn box_r(x: u8) -> u8
    ensures { result ≡ get_or R (x % 16) 0 }
{
    alone(between, 2, 0xB, x)
}
