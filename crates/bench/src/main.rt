// The bench program: each line of standard input is a message, and each gets one line of answer on standard output.
#![tactic(auto)]

use line::Bench;

mod line;

fn main(rt: HostRuntime) {
    let mut input = [0u8; serving::ROOM];
    let mut output = [0u8; serving::ROOM];
    serving::serve::<Bench>(&rt, &mut input, &mut output);
}
