// The mix and its inverse on planes, by turns of words.
#![tactic(auto)]

ghost use Rattle.std.specs.Prelude.{◌≡◌, ◌*◌, ◌<◌};
ghost use Rattle.pi.specs.Permutation.{mix, mix⁻};
ghost use Rattle.planes.specs.Planes.{flipped, bytes_of};
ghost use Rattle.mixing.specs.Turns.{Turned, Rows_turned, bytes_doubled};

use planes::Planes;

// Turned left by so many columns of eight bits.
fn turn<const COLUMNS: u32>(x: u64) -> u64
    requires { (0 < COLUMNS) × (COLUMNS < 8) }
    ensures { Turned (8 * COLUMNS) x result }
{
    x.rotate_left(8 * COLUMNS)
}

// Each row of the state turned by so many columns.
fn turned<const COLUMNS: u32>(p: Planes) -> Planes
    requires { (0 < COLUMNS) × (COLUMNS < 8) }
    ensures { Rows_turned COLUMNS p result }
{
    Planes {
        words: p.words.map(turn::<COLUMNS>),
    }
}

// Each byte of the state doubled in the field: bit 7 goes to the bits of 1D.
fn doubled(p: Planes) -> Planes
    ensures { flipped (bytes_of result) ≡ bytes_doubled (flipped (bytes_of p)) }
{
    let [p0, p1, p2, p3, p4, p5, p6, p7] = p.words;
    Planes {
        words: [p7, p0, p1 ^ p7, p2 ^ p7, p3 ^ p7, p4, p5, p6],
    }
}

// The mix of the state that the planes hold. With T for the turn by one column it is
// 1 + T((1 + T²)(1 + T⁴) + 2T(T⁴ + 2(1 + T³)(1 + 2T²))).
pub fn mixed(p: Planes) -> Planes
    ensures { flipped (bytes_of result) ≡ mix (flipped (bytes_of p)) }
{
    let d = planes::sum(p, turned::<3>(p)); // 1 + T³
    let e = planes::sum(d, doubled(turned::<2>(d))); // (1 + T³)(1 + 2T²)
    let a = turned::<4>(p); // T⁴
    let f = planes::sum(a, doubled(e));
    let b = planes::sum(p, a); // 1 + T⁴
    let c = planes::sum(b, turned::<2>(b)); // (1 + T²)(1 + T⁴)
    let g = planes::sum(c, doubled(turned::<1>(f)));
    planes::sum(p, turned::<1>(g))
}

// The mix undone: the inverse row's even places and its odd ones, each by turns of two columns; the odd ones are
// turned by one more. A circuit of words: by operations on whole planes π back took 7,289 instructions (bar: 6,500).
pub fn mixed_back(p: Planes) -> Planes
    ensures { flipped (bytes_of result) ≡ mix⁻ (flipped (bytes_of p)) }
{
    let [p0, p1, p2, p3, p4, p5, p6, p7] = p.words;
    let [a0_2, a1_2, a2_2, a3_2, a4_2, a5_2, a6_2, a7_2] = turned::<2>(p).words;
    let [a0_4, a1_4, a2_4, a3_4, a4_4, a5_4, a6_4, a7_4] = turned::<4>(p).words;
    let [a0_6, a1_6, a2_6, a3_6, a4_6, a5_6, a6_6, a7_6] = turned::<6>(p).words;
    let t0 = a3_4 ^ a7_6;
    let t1 = a0_6 ^ a1_6;
    let t2 = a5_2 ^ a1_4;
    let t3 = a2_2 ^ a4_4;
    let t4 = a1_2 ^ t0;
    let t5 = a2_4 ^ t1;
    let t6 = a0_4 ^ a6_4;
    let t7 = p0 ^ a3_6;
    let t8 = a2_6 ^ t5;
    let t9 = a7_2 ^ a5_4;
    let t10 = a7_4 ^ t2;
    let t11 = a6_2 ^ a6_6;
    let t12 = a2_4 ^ a4_6;
    let t13 = a4_2 ^ t6;
    let t14 = p6 ^ t3;
    let t15 = a0_2 ^ t7;
    let t16 = p7 ^ a3_2;
    let t17 = p1 ^ a5_6;
    let t18 = t8 ^ t10;
    let t19 = a5_4 ^ t12;
    let t20 = a4_4 ^ t4;
    let t21 = a6_6 ^ t16;
    let t22 = a6_2 ^ t6;
    let t23 = a0_6 ^ t0;
    let t24 = a5_6 ^ t14;
    let t25 = p4 ^ t13;
    let t26 = p7 ^ a4_6;
    let t27 = t23 ^ t25;
    let t28 = t1 ^ t11;
    let t29 = a7_6 ^ t3;
    let t30 = t15 ^ t20;
    let t31 = a6_4 ^ t18;
    let t32 = a2_6 ^ a4_6;
    let t33 = p5 ^ t9;
    let t34 = p3 ^ t19;
    let t35 = a7_2 ^ t24;
    let t36 = p6 ^ a6_2;
    let t37 = a3_6 ^ t4;
    let t38 = p2 ^ t35;
    let t39 = t14 ^ t31;
    let t40 = t11 ^ t29;
    let t41 = t7 ^ t21;
    let t42 = a5_2 ^ t9;
    let even = Planes {
        words: [
            t9 ^ t18 ^ t36 ^ a7_6,
            t8 ^ t22 ^ p7 ^ a0_2 ^ a7_2 ^ a3_4 ^ a3_6,
            t19 ^ t30 ^ t36 ^ a5_2,
            t4 ^ t17 ^ t26 ^ t39 ^ a0_2,
            t2 ^ t21 ^ t37 ^ t38,
            t16 ^ t34 ^ t40 ^ a4_2,
            t27 ^ t42 ^ a3_2 ^ a5_6,
            t10 ^ t13 ^ t28 ^ p5 ^ a4_4,
        ],
    };
    let odd = Planes {
        words: [
            t10 ^ t17 ^ t34 ^ t41 ^ a1_2,
            t11 ^ t12 ^ t17 ^ t27 ^ p0 ^ p2 ^ a2_2,
            t5 ^ t26 ^ t30 ^ t33 ^ p2,
            t39 ^ t41 ^ a3_4,
            t2 ^ t20 ^ t28 ^ p3 ^ a4_2 ^ a2_6 ^ a5_6,
            t8 ^ t15 ^ t40 ^ t42 ^ p4,
            t22 ^ t32 ^ t33 ^ t37 ^ p1 ^ a3_2 ^ a1_6,
            t13 ^ t15 ^ t32 ^ t38 ^ a1_4 ^ a7_4,
        ],
    };
    planes::sum(even, turned::<1>(odd))
}
