// The kit for C: a thin boundary, a file for each room. Each `nb_` function is the call of its name, with the same
// definitions in its contract. A slice crosses as a pointer and a length, a struct by value, an enum as numbers, and a
// returned part as its place and length.
#![tactic(auto)]

ghost use Rattle.std.specs.Prelude.{◌≡◌};
ghost use Rattle.numbers.specs.Refusals.{number_of};

pub mod cipher;
pub mod reading;
pub mod surveying;
pub mod writing;

use numbers::{DONE, Refusal};

// Of the header and what its calls promise: higher where a program written for the last one could go wrong.
pub const VERSION: u32 = 2;

#[unsafe(no_mangle)]
pub extern "C" fn nb_version() -> u32
    ensures { result ≡ 2 }
{
    VERSION
}

// C has no Result: an answer crosses as its number, 0 where the call was carried out.
fn number_of<T: Copy>(answer: Result<T, Refusal>) -> u8
    ensures { result ≡ number_of answer }
{
    match answer {
        Ok(_) => DONE,
        Err(refusal) => u8::from(refusal),
    }
}
