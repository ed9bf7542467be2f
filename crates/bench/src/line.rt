// A line of the bench program: a message in, the widths of its symbol or the refusal out. Nothing here reads or writes anything but the
// bytes it is lent.
ghost use Rattle.bench.specs.Line.{answers, longest_answer};
ghost use Rattle.bench.specs.LongLines.{long_lines_alike};

use answers::{Form, put_made};
use gs1_128::Gs1128;
use serving::Answerer;

pub struct Bench;

impl Answerer for Bench {
    // One byte more than a message has at the most: what is longer is refused for its count alone.
    const OVER: usize = 49;

    const LONGEST: usize = 356;

    ghost OVER = { 49 };

    ghost LONGEST = { longest_answer };

    ghost line_answer = { answers };

    ghost alike = { long_lines_alike };

    fn answer(line: &[u8], out: &mut [u8]) -> usize {
        let mut message = [0u8; Self::OVER];
        let mut widths = [0u8; Gs1128::WRITTEN];
        let end = text::message_in(line, &mut message);
        let answer = Gs1128::write(&message[..end], &mut widths);
        put_made(answer, Form::Widths, b" ", &widths, out)
    }
}
