// A buffer as it is shown.
use print::Hex;
use std::fmt;

// Whole up to 80 bytes, else its first and its last 16, and its sum.
#[derive(Clone, Copy)]
pub struct Buffer<'a>(pub &'a [u8]);

impl fmt::Display for Buffer<'_> {
    fn fmt<W: fmt::Write>(&self, f: &mut fmt::Formatter<W>) -> fmt::Result {
        let bytes = self.0;
        let n = bytes.len();
        if n <= 80 {
            return write!(f, "{}", Hex(bytes));
        }
        let first = Hex(&bytes[..16]);
        let last = Hex(&bytes[n - 16..]);
        write!(f, "{first} {last} {:08X}", sum_of(bytes))
    }
}

// The sum h = 31 h + byte, modulo 2^32.
fn sum_of(bytes: &[u8]) -> u32 {
    bytes.iter().fold(0u32, |h, byte| {
        h.wrapping_mul(31).wrapping_add(u32::from(*byte))
    })
}
