// What the programs share: bytes in hexadecimal and a writer's answer as text, and a decimal number as it stands in an
// argument.
#![tactic(auto)]

ghost use Rattle.std.specs.Prelude.{◌≡◌, ◌<◌};
ghost use Rattle.print.specs.Parsing.{digit_behind, spelled_with, spelled, Within};

use numbers::Refusal;
use std::error::Error;
use std::fmt;
use writer::Reply;

// ---- Writing.
// Bytes in hexadecimal, two digits each.
#[derive(Clone, Copy)]
pub struct Hex<'a>(pub &'a [u8]);

impl fmt::Display for Hex<'_> {
    fn fmt<W: fmt::Write>(&self, f: &mut fmt::Formatter<W>) -> fmt::Result {
        for byte in self.0 {
            write!(f, "{byte:02X}")?;
        }
        Ok(())
    }
}

// The answer to a writer's call, as a line ends with it.
#[derive(Clone, Copy)]
pub struct Answered(pub Result<Reply, Refusal>);

impl fmt::Display for Answered {
    fn fmt<W: fmt::Write>(&self, f: &mut fmt::Formatter<W>) -> fmt::Result {
        match self.0 {
            Ok(Reply::Plain) => write!(f, "plain"),
            Ok(Reply::Warned) => write!(f, "warned"),
            Err(refusal) => write!(f, "refused {}", u8::from(refusal)),
        }
    }
}

// ---- Reading.
// Why a text spells no number that was asked for: one above the greatest, or none at all.
#[derive(Clone, Copy, Debug, PartialEq, Eq)]
pub enum NotANumber {
    TooLarge,
    NotDecimal,
}

impl fmt::Display for NotANumber {
    fn fmt<W: fmt::Write>(&self, f: &mut fmt::Formatter<W>) -> fmt::Result {
        match self {
            NotANumber::TooLarge => write!(f, "is too large"),
            NotANumber::NotDecimal => write!(f, "is not a decimal number"),
        }
    }
}

impl Error for NotANumber {}

// The number up to `most` that a text spells in decimal. Any number of digits, one at least; zeros in front count for
// nothing.
pub fn parse(text: &[u8], most: u64) -> Result<u64, NotANumber>
    ensures says { result ≡ spelled most text.now }
    ensures within { Within most result }
{
    if text.is_empty() {
        return Err(NotANumber::NotDecimal);
    }
    let mut spelled = Ok(0);
    for c in text {
        spelled = longer(spelled, *c, most);
    }
    spelled
}

// What is spelled with c behind it.
#[tactic(auto, unfolding(crate::specs::Parsing::spelled_with))]
fn longer(spelled: Result<u64, NotANumber>, c: u8, most: u64) -> Result<u64, NotANumber>
    ensures says { result ≡ spelled_with most spelled c }
    ensures within { Within most result }
{
    match c {
        b'0'..=b'9' => grown(spelled?, c - b'0', most),
        _ => Err(NotANumber::NotDecimal),
    }
}

// 10 n + d, where that is not above `most`.
#[tactic(auto, unfolding(crate::specs::Parsing::digit_behind))]
fn grown(n: u64, digit: u8, most: u64) -> Result<u64, NotANumber>
    ensures says { result ≡ digit_behind most n digit }
    ensures within { Within most result }
{
    n.checked_mul(10)
        .and_then(|tens| tens.checked_add(u64::from(digit)))
        .filter(|number| *number <= most)
        .ok_or(NotANumber::TooLarge)
}
