// What reads on without a receiving buffer: spacing over file marks, the report.
#![tactic(auto)]

ghost use Rattle.std.specs.Prelude.{List, ◌≡◌, ℕ, ◌+◌, ◌-◌, ◌≤◌, ◌<◌, IfOk};
ghost use Rattle.block.specs.Calls.{seen_of};
ghost use Rattle.block.specs.Image.{capacity_of};
ghost use Rattle.numbers.specs.Refusals.{number_of};
ghost use Rattle.reader.specs.Steps.{shown};
ghost use Rattle.reader.specs.Walk.{gather};
ghost use Rattle.survey.specs.Report.{counted, report_of};
ghost use Rattle.survey.specs.Spacing.{space_from, space_number, SpacedOver};
ghost use Rattle.survey.specs.Steps.{place, list_of, told_between, told_inside, passed_inside, step_by, total, count_on, count_answer};

mod lent;

use block::{Cartridge, Seen};
use lent::Lent;
use numbers::{BLOCK_PAYLOAD, RECORD_BLOCKS, Refusal};

// Where spacing came to: to the place behind the marks that were asked for, or short of them, with the marks that it
// passed.
#[derive(Clone, Copy, Debug, PartialEq, Eq)]
pub enum Reach {
    There,
    Short(usize),
}

#[derive(Clone, Copy, Debug, PartialEq, Eq)]
pub struct Spaced {
    pub reach: Result<Reach, Refusal>,
    pub position: usize,
}

#[derive(Clone, Copy, Debug, Default, PartialEq, Eq)]
pub struct Tally {
    pub records: usize,
    pub marks: usize,
    pub ends: usize,
    pub bads: usize,
    pub strays: usize,
    pub cuts: usize,
}

// What is told of an answer's last block, and counted.
#[derive(Clone, Copy, Debug, PartialEq, Eq)]
enum Told {
    Record,
    Mark,
    End,
    Bad,
    Stray,
    Cut,
}

impl Tally {
    // One more of what is told.
    fn count(&mut self, told: Told)
        requires { total self.old ≤ 256 }
        ensures counts { list_of self.new ≡ counted (place told) (list_of self.old) }
        ensures more { total self.new ≡ total self.old + 1 }
    {
        match told {
            Told::Record => self.records += 1,
            Told::Mark => self.marks += 1,
            Told::End => self.ends += 1,
            Told::Bad => self.bads += 1,
            Told::Stray => self.strays += 1,
            Told::Cut => self.cuts += 1,
        }
    }
}

// Spacing from p on, with n marks wanted and m passed: it falls back on itself with fewer blocks left.
fn space_on(lent: &Lent, scratch: &mut [u8; BLOCK_PAYLOAD], p: usize, n: usize, m: usize) -> Spaced
    requires { (p ≤ capacity_of lent.now.cartridge.image.now) × (m ≤ p) }
    ensures { (f : ℕ) → capacity_of lent.now.cartridge.image.now - p ≤ f
        → result ≡ space_from f (shown lent.now.cartridge) (capacity_of lent.now.cartridge.image.now) p n m }
{
    if n == 0 {
        return Spaced {
            reach: Ok(Reach::There),
            position: p,
        };
    }
    if lent.capacity() <= p {
        return Spaced {
            reach: Ok(Reach::Short(m)),
            position: p,
        };
    }
    match lent.seen_at(scratch, p) {
        Seen::End => Spaced {
            reach: Ok(Reach::Short(m)),
            position: p,
        },
        Seen::Mark => space_on(lent, scratch, p + 1, n - 1, m + 1),
        _ => space_on(lent, scratch, p + 1, n, m),
    }
}

// Whether spacing from p on is refused: 1 the image, 2 the key, 8 the position.
fn lent_from(cartridge: Cartridge<'_>, p: usize) -> Result<Lent<'_>, Refusal>
    ensures number { number_of result ≡ space_number cartridge.entry.key.now cartridge.entry.image.now p }
    ensures same { IfOk result (λ t. (t.cartridge ≡ cartridge.entry)
        × (p < capacity_of cartridge.entry.image.now)) }
{
    let lent = Lent::of(cartridge)?;
    if lent.capacity() <= p {
        return Err(Refusal::Unlawful);
    }
    Ok(lent)
}

// Spacing over n marks from p on: the place after the nth, or how many there were and the place of End (or the
// capacity). Refused, it gives the refusal and p.
pub fn space(cartridge: Cartridge, p: usize, n: usize) -> Spaced
    ensures { SpacedOver cartridge.entry.key.now cartridge.entry.id cartridge.entry.recording cartridge.entry.image.now p n result }
{
    match lent_from(cartridge, p) {
        Ok(lent) => {
            let mut scratch = [0u8; BLOCK_PAYLOAD];
            space_on(&lent, &mut scratch, p, n, 0)
        }
        Err(refusal) => Spaced {
            reach: Err(refusal),
            position: p,
        },
    }
}

// Of a block between records; nothing yet, where its record goes on.
fn told_between(seen: Seen) -> Option<Told>
    ensures { result ≡ told_between seen }
{
    match seen {
        Seen::Shut => Some(Told::Bad),
        Seen::First(true, _) => Some(Told::Record),
        Seen::First(false, _) => None,
        Seen::More(_, _) => Some(Told::Stray),
        Seen::Mark => Some(Told::Mark),
        Seen::End => Some(Told::End),
    }
}

// Of a block inside a record; and how many blocks on the walk goes on, 1 or 0.
fn told_inside(seen: Seen) -> Option<Told>
    ensures { result ≡ told_inside seen }
{
    match seen {
        Seen::More(true, _) => Some(Told::Record),
        Seen::More(false, _) => None,
        Seen::Shut | Seen::First(_, _) | Seen::Mark | Seen::End => Some(Told::Cut),
    }
}

fn passed_inside(seen: Seen) -> usize
    ensures says { result ≡ passed_inside seen }
    ensures most { result ≤ 1 }
{
    match seen {
        Seen::Shut | Seen::More(_, _) => 1,
        Seen::First(_, _) | Seen::Mark | Seen::End => 0,
    }
}

#[derive(Clone, Copy, Debug, PartialEq, Eq)]
struct Step {
    told: Option<Told>,
    next: usize,
}

// Block q inside a record that ends before `end` at the latest.
fn step_at(lent: &Lent, scratch: &mut [u8; BLOCK_PAYLOAD], end: usize, q: usize) -> Step
    requires { end ≤ capacity_of lent.now.cartridge.image.now }
    ensures { result ≡ step_by (end - q) (shown lent.now.cartridge) q }
{
    if end <= q {
        return Step {
            told: Some(Told::Cut),
            next: q,
        };
    }
    let seen = lent.seen_at(scratch, q);
    Step {
        told: told_inside(seen),
        next: q + passed_inside(seen),
    }
}

// The report between records: block p is the next.
#[cycle(between_inside)]
fn between(lent: &Lent, scratch: &mut [u8; BLOCK_PAYLOAD], tally: &mut Tally, p: usize)
    requires place { p ≤ capacity_of lent.now.cartridge.image.now }
    requires few { total tally.old ≤ p }
    ensures { (f : ℕ) → capacity_of lent.now.cartridge.image.now - p ≤ f
        → list_of tally.new
        ≡ count_on f (shown lent.now.cartridge) (capacity_of lent.now.cartridge.image.now) p (list_of tally.old) }
{
    let c = lent.capacity();
    if c <= p {
        return;
    }
    let Some(told) = told_between(lent.seen_at(scratch, p)) else {
        inside(lent, scratch, tally, c.min(p + RECORD_BLOCKS), p + 1);
        return;
    };
    tally.count(told);
    if let Told::End = told {
        return;
    }
    between(lent, scratch, tally, p + 1);
}

// The report inside a record that ends before `end` at the latest: block q is the next.
#[cycle(between_inside)]
fn inside(lent: &Lent, scratch: &mut [u8; BLOCK_PAYLOAD], tally: &mut Tally, end: usize, q: usize)
    requires place { (q ≤ end) × (end ≤ capacity_of lent.now.cartridge.image.now) }
    requires few { total tally.old < q }
    ensures { (f : ℕ) (b : List ℕ) → capacity_of lent.now.cartridge.image.now - q ≤ f
        → list_of tally.new
        ≡ count_answer (gather (end - q) (shown lent.now.cartridge) q b)
        (list_of tally.old) (count_on f (shown lent.now.cartridge) (capacity_of lent.now.cartridge.image.now)) }
{
    let step = step_at(lent, scratch, end, q);
    let next = step.next;
    let Some(told) = step.told else {
        inside(lent, scratch, tally, end, next);
        return;
    };
    tally.count(told);
    between(lent, scratch, tally, next);
}

// The answers of the walk, counted by outcome.
pub fn report(cartridge: Cartridge) -> Result<Tally, Refusal>
    ensures { result ≡ report_of cartridge.entry.key.now cartridge.entry.id cartridge.entry.recording cartridge.entry.image.now }
{
    let lent = Lent::of(cartridge)?;
    let mut tally = Tally::default();
    let mut scratch = [0u8; BLOCK_PAYLOAD];
    between(&lent, &mut scratch, &mut tally, 0);
    Ok(tally)
}
