// Runs the paper's tables and vectors, starts at the edges, and each call that a line of the input asks for.
#![tactic(auto)]

mod calls;
mod paper;
mod show;

ghost use Rattle.std.specs.Prelude.{◌≤◌};

use print::Answered;

// ---- Starts at the edges of what an image and a warning zone may be: size, zone, the state's capacity, result.
// A start on so many bytes, of 129 blocks at the most.
fn start_of<P: Print>(rt: &P, size: usize, zone: usize)
    requires { size ≤ 66048 }
{
    let mut image = [0u8; 66048];
    let wrote = writer::start(1, 1, zone, &mut image[..size]);
    let capacity = wrote.state.capacity;
    let _ = println!(rt; "start {size} {zone} {capacity} {}", Answered(wrote.reply));
}

fn sizes<P: Print>(rt: &P) {
    start_of(rt, 2048, 1);
    start_of(rt, 1536, 1);
    start_of(rt, 65536, 1);
    start_of(rt, 66048, 1);
    start_of(rt, 2049, 1);
    start_of(rt, 2559, 1);
    start_of(rt, 2560, 1);
    start_of(rt, 511, 1);
    start_of(rt, 0, 1);
}

fn zones<P: Print>(rt: &P) {
    start_of(rt, 2048, 0);
    start_of(rt, 2048, 1);
    start_of(rt, 2048, 3);
    start_of(rt, 2048, 4);
    start_of(rt, 2048, usize::MAX);
}

// Where a line can't be written the next is tried all the same, and the input is read to its end; the status is 0 then
// too.
fn main(rt: HostRuntime) {
    paper::all(&rt);
    let _ = println!(&rt; "# starts");
    sizes(&rt);
    zones(&rt);
    let _ = println!(&rt; "# calls");
    calls::all(&rt);
}
