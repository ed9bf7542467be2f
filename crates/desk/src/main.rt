// The desk: each line of standard input is a call, and each gets one line of answer on standard output.
#![tactic(auto)]

ghost use Rattle.calls.specs.Answers.{answer_to};
ghost use Rattle.desk.specs.LongLines.{long_lines_alike};

use serving::Answerer;

struct Desk;

impl Answerer for Desk {
    // So many bytes of a line that hasn't ended tell that it is too long, whatever it goes on with.
    const OVER: usize = 4097;

    const LONGEST: usize = 1024;

    ghost OVER = { 4097 };

    ghost LONGEST = { 1024 };

    ghost line_answer = { answer_to };

    ghost alike = { long_lines_alike };

    fn answer(line: &[u8], out: &mut [u8]) -> usize {
        calls::answer(line, out)
    }
}

fn main(rt: HostRuntime) {
    let mut input = [0u8; serving::ROOM];
    let mut output = [0u8; serving::ROOM];
    serving::serve::<Desk>(&rt, &mut input, &mut output);
}
