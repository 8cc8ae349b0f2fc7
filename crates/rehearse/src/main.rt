// A rehearsal of a cartridge of 8 blocks with a warning zone of 3: what each call answers, a line each.
#![tactic(auto)]

ghost use Rattle.std.specs.Prelude.{◌≤◌};

use print::Answered;
use writer::{WriterState, Wrote};

const KEY: [u8; 24] = [7; 24];

// Verb, length, position afterwards, result; the state goes on, also where the line can't be written.
fn show<P: Print>(rt: &P, verb: &str, length: usize, wrote: Wrote) -> WriterState {
    let state = wrote.state;
    let _ = println!(rt;
        "{verb} {length} {} {}",
        state.position,
        Answered(wrote.reply)
    );
    state
}

// Records n bytes.
fn record<P: Print>(rt: &P, state: WriterState, n: usize, image: &mut [u8]) -> WriterState
    requires { n ≤ 1464 }
{
    let reel = [0x5Au8; 1464];
    show(rt, "record", n, state.record(&KEY, &reel[..n], image))
}

fn main(rt: HostRuntime) {
    let mut image = [0u8; 4096];
    let mut state = writer::start(1, 1, 3, &mut image).state;
    state = record(&rt, state, 5, &mut image);
    state = record(&rt, state, 489, &mut image);
    state = show(&rt, "mark", 0, state.mark(&KEY, &mut image));
    state = record(&rt, state, 1464, &mut image);
    state = record(&rt, state, 1, &mut image);
    show(&rt, "close", 0, state.close(&KEY, &mut image));
}
