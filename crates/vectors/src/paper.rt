// The paper's own tables and vectors: 1.1 by its miniboxes, 1.3.1 round by round, 1.3.2 sealed and traced.
// Each state here has 64 bytes, and no part is above a limit, so none of these calls is refused.
use crate::show::Buffer;
use numbers::{DOMAIN_DATA, DOMAIN_KEY, DOMAIN_MESSAGE, DOMAIN_NONCE, Refusal};

fn show_table<P: Print>(rt: &P) {
    for k in 0u8..=255 {
        let _ = print!(rt; "{:02X}", permutation::minibox(k));
        if k % 16 == 15 {
            let _ = println!(rt);
        }
    }
}

// ---- 1.3.1: twelve rounds forward, and then back.
const X0: [u8; 64] = [
    0x77, 0x38, 0xE1, 0xB5, 0x41, 0xA0, 0x36, 0xEA, 0x45, 0x8D, 0x50, 0xF8, 0x0F, 0xA0, 0x1C, 0x44,
    0x72, 0x88, 0xCE, 0x97, 0xD1, 0xA0, 0xDC, 0xF0, 0x16, 0x95, 0xFF, 0xD6, 0xE7, 0x1D, 0x09, 0x25,
    0x33, 0xBE, 0x30, 0x9F, 0x01, 0x2A, 0x59, 0x09, 0x72, 0x91, 0x14, 0x59, 0x5F, 0x08, 0x6E, 0x76,
    0x07, 0x18, 0xAF, 0xE3, 0x65, 0xBC, 0x09, 0xDE, 0xB6, 0xAF, 0xA1, 0x80, 0xBC, 0xEC, 0x2A, 0x98,
];

// The key of round r: the table's entries from 8r on in row 0.
fn constant(r: u8) -> [u8; 64] {
    let mut key = [0u8; 64];
    for j in 0u8..8 {
        key[j as usize] = permutation::minibox(r % 16 * 8 + j);
    }
    key
}

fn show_rounds<P: Print>(rt: &P) {
    let mut state = X0;
    let _ = println!(rt; "# 1.3.1 forward\nx0 {}", Buffer(&state));
    for r in 0u8..12 {
        let _ = permutation::round(&mut state, &constant(r));
        let _ = println!(rt; "x{} {}", r + 1, Buffer(&state));
    }
    let _ = println!(rt; "# 1.3.1 back\nx12 {}", Buffer(&state));
    for r in (0u8..12).rev() {
        let _ = permutation::round_back(&mut state, &constant(r));
        let _ = println!(rt; "x{r} {}", Buffer(&state));
    }
}

// ---- 1.3.2: what is sealed, and the trace found from its end, by undoing π and what was added before it.
const KEY: [u8; 24] = *b"192-bit Secret Key value";

const NONCE: [u8; 16] = *b"Nonces Used Once";

const DATA: [u8; 32] = *b"AAD Test Vector Exact Block 32 B";

const MESSAGE: [u8; 38] = *b"2 Block Test Vector for stribob192r2d2";

fn show_sealed<P: Print>(rt: &P) {
    let mut sealed = [0u8; 54];
    let _ = aead::seal(&KEY, &NONCE, &DATA, &MESSAGE, &mut sealed);
    let _ = println!(rt; "# 1.3.2 sealed\n{}", Buffer(&sealed));
}

// What each step adds: its bytes, 01 behind them where it closes an operation, and at 32 the domain byte and what
// closes.
const ADDED: [[u8; 33]; 5] = [
    *b"192-bit Secret Key value\x01\0\0\0\0\0\0\0\x12",
    *b"Nonces Used Once\x01\0\0\0\0\0\0\0\0\0\0\0\0\0\0\0\x22",
    *b"AAD Test Vector Exact Block 32 B\x43",
    *b"2 Block Test Vector for stribob1\x50",
    *b"92r2d2\x01\0\0\0\0\0\0\0\0\0\0\0\0\0\0\0\0\0\0\0\0\0\0\0\0\0\x52",
];

// What sealing leaves in the state.
fn sealed(state: &mut [u8; 64]) -> Result<(), Refusal> {
    let mut cipher = [0u8; 38];
    sponge::put(state, &KEY, DOMAIN_KEY)?;
    sponge::put(state, &NONCE, DOMAIN_NONCE)?;
    sponge::put(state, &DATA, DOMAIN_DATA)?;
    sponge::enc(state, &MESSAGE, &mut cipher, DOMAIN_MESSAGE)
}

// From π's output at each step to that of the step before.
fn show_trace<P: Print>(rt: &P) {
    let mut state = [0u8; 64];
    let _ = sealed(&mut state);
    let _ = println!(rt; "# 1.3.2 trace, from its end");
    for (n, added) in ADDED.iter().enumerate().rev() {
        let _ = println!(rt; "out {n} {}", Buffer(&state));
        let _ = permutation::permute_back(&mut state);
        let _ = println!(rt; "Block {n} {}", Buffer(&state));
        buffer::add(&mut state, added);
    }
}

pub fn all<P: Print>(rt: &P) {
    let _ = println!(rt; "# table 1.1 by the miniboxes");
    show_table(rt);
    show_rounds(rt);
    show_sealed(rt);
    show_trace(rt);
}
