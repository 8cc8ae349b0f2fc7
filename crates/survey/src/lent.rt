// A lent cartridge at which nothing refuses a read: its image and its key have been asked for.
ghost use Rattle.std.specs.Prelude.{◌≡◌, ◌*◌, ◌≤◌, length};
ghost use Rattle.block.specs.Image.{capacity_of};

use block::{Cartridge, Seen};
use numbers::{BLOCK_BYTES, BLOCK_PAYLOAD, Refusal};

#[derive(Clone, Copy)]
pub(crate) struct Lent<'a> {
    pub cartridge: Cartridge<'a>,
    pub ghost key24: { length cartridge.key.now ≡ 24 },
    pub ghost blocks: { capacity_of cartridge.image.now * 512 ≤ length cartridge.image.now },
    pub ghost most: { capacity_of cartridge.image.now ≤ 128 },
}

impl<'a> Lent<'a> {
    ghost use Rattle.std.specs.Prelude.{◌<◌, IfOk};
    ghost use Rattle.numbers.specs.Refusals.{number_of};
    ghost use Rattle.block.specs.Image.{image_then_key};
    ghost use Rattle.block.specs.Calls.{seen_of};
    ghost use Rattle.reader.specs.Steps.{shown};

    // 1 the image, 2 the key.
    pub(crate) fn of(cartridge: Cartridge<'a>) -> Result<Self, Refusal>
        ensures number { number_of result ≡ image_then_key cartridge.entry.key.now cartridge.entry.image.now 0 }
        ensures same { IfOk result (λ t. t.cartridge ≡ cartridge.entry) }
    {
        block::image_then_key(cartridge.key, cartridge.image)?;
        Ok(Self { cartridge })
    }

    pub(crate) fn capacity(&self) -> usize
        ensures { result ≡ capacity_of self.now.cartridge.image.now }
    {
        self.cartridge.capacity()
    }

    // What opens at block q, by way of the 488 bytes of `scratch`, which are lent since the callers call themselves. The
    // reader opens into a part of a longer buffer: one function for both would be public, and owe an answer for any q.
    pub(crate) fn seen_at(&self, scratch: &mut [u8; BLOCK_PAYLOAD], q: usize) -> Seen
        requires { q < capacity_of self.now.cartridge.image.now }
        ensures { result ≡ seen_of (shown self.now.cartridge q) }
    {
        let lent = self.cartridge;
        let start = BLOCK_BYTES * q;
        let opened = block::open_block(
            lent.key,
            lent.id,
            lent.recording,
            q as u32,
            &lent.image[start..],
            scratch,
        );
        opened.unwrap()
    }
}
