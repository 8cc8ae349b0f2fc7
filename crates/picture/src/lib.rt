// The cartridge as a picture, one character a block: what a walk says of each.
#![tactic(auto)]

ghost use Rattle.std.specs.Prelude.{◌≡◌, ◌≤◌, ◌<◌, length};
ghost use Rattle.block.specs.Image.{capacity_of};
ghost use Rattle.numbers.specs.Refusals.{number_of};
ghost use Rattle.reader.specs.Walk.{walk};
ghost use Rattle.reader.specs.Reading.{read_number, got_of};
ghost use Rattle.reader.specs.Steps.{shown, answer_of};
ghost use Rattle.picture.specs.Picture.{glyph_of, pictured, draw_number, drawn};
ghost use Rattle.picture.specs.Steps.{reaches, painted, reached, answered};

use block::Cartridge;
use numbers::{RECORD_MAX, Refusal};
use reader::{Got, Outcome};

// Block b in the answer at p.
fn glyph(outcome: Outcome, p: usize, b: usize) -> u8
    ensures { result ≡ glyph_of outcome p b }
{
    match outcome {
        Outcome::Record(_) => if b == p { b'R' } else { b'r' },
        Outcome::Mark => b'M',
        Outcome::End => if b == p { b'E' } else { b'.' },
        Outcome::Bad => b'x',
        Outcome::Stray => b's',
        Outcome::Cut(q) => if b < q { b'c' } else { b'x' },
    }
}

// The blocks from p up to q.
fn paint(out: &mut [u8], outcome: Outcome, p: usize, q: usize)
    requires { (p ≤ q) × (q ≤ length out.old) }
    ensures { out.new ≡ painted outcome p q out.old }
{
    for b in p..q {
        out[b] = glyph(outcome, p, b);
    }
}

// Where an answer reaches that goes on at `next`, of c blocks.
fn reach_of(outcome: Outcome, next: usize, c: usize) -> usize
    ensures { result ≡ reaches outcome next c }
{
    match outcome {
        Outcome::End => c,
        _ => next,
    }
}

// The answer at p, without its bytes.
fn answer_at(cartridge: Cartridge, p: usize) -> Got
    requires { read_number cartridge.key.now cartridge.image.now p 31232 ≡ 0 }
    ensures { result ≡ got_of (answer_of cartridge.entry p) }
{
    let mut buffer = [0u8; RECORD_MAX];
    reader::read(cartridge, p, &mut buffer)
}

// The blocks of the answer at p, which nothing refuses. It gives the place behind them.
fn draw_answer(cartridge: Cartridge, out: &mut [u8], p: usize) -> usize
    requires { (draw_number cartridge.key.now cartridge.image.now (length out.old) ≡ 0) × (p < length out.old) }
    ensures says { result ≡ reached (answer_of cartridge.entry p) (length out.old) }
    ensures leaves { out.new ≡ answered (answer_of cartridge.entry p) p out.old }
{
    let got = answer_at(cartridge, p);
    let outcome = got.outcome.unwrap();
    let q = reach_of(outcome, got.next, out.len());
    paint(out, outcome, p, q);
    q
}

// Answer after answer: how far p goes is each answer's to say, so no range counts it.
fn draw_all(cartridge: Cartridge, out: &mut [u8])
    requires { draw_number cartridge.key.now cartridge.image.now (length out.old) ≡ 0 }
    ensures { out.new
        ≡ pictured (capacity_of cartridge.entry.image.now)
        (walk (shown cartridge.entry) (capacity_of cartridge.entry.image.now)) }
{
    let mut p = 0;
    while p < out.len() {
        p = draw_answer(cartridge, out, p);
    }
}

// The picture of an image, a character a block, in `out`: 1 the image, 2 the key or `out`, and then `out` is untouched.
pub fn draw(cartridge: Cartridge, out: &mut [u8]) -> Result<(), Refusal>
    ensures says { number_of result
        ≡ draw_number cartridge.entry.key.now cartridge.entry.image.now (length out.old) }
    ensures leaves { out.new
        ≡ drawn cartridge.entry.key.now cartridge.entry.id cartridge.entry.recording cartridge.entry.image.now out.old }
{
    block::image_then_key(cartridge.key, cartridge.image)?;
    if out.len() != cartridge.capacity() {
        return Err(Refusal::WrongLength);
    }
    draw_all(cartridge, out);
    Ok(())
}
