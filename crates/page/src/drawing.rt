// The picture in rows of 32 blocks, each behind the position of its first.
use block::Cartridge;
use numbers::IMAGE_MOST;
use std::io;

const ROW: usize = 32;

pub fn show<P: Print>(out: &P, cartridge: Cartridge) -> io::Result<()> {
    let mut room = [b'.'; IMAGE_MOST];
    let blocks = &mut room[..cartridge.capacity().min(IMAGE_MOST)];
    let _ = picture::draw(cartridge, blocks);
    for (first, row) in [0, 32, 64, 96].iter().zip(blocks.chunks(ROW)) {
        print!(out; "{first:>2}  ")?;
        out.write_all(row)?;
        println!(out)?;
    }
    println!(out;
        "R record, r its other blocks, M mark, E end of data, x bad, s stray, c cut, . unused\n"
    )
}
