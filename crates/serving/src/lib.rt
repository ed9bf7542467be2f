// A program that answers each line of standard input with a line on standard output, whatever answers a line.
//
// It takes the input in blocks, has `block` answer the lines that end in each, and writes the answers out.
#![tactic(auto)]

ghost use Rattle.std.specs.Prelude.{ℕ, ◌≡◌, ◌≤◌, ◌<◌, List, IfSome, length, take, drop};
ghost use Rattle.text.specs.Puts.{Puts};
ghost use Rattle.blocks.specs.Blocks.{filled, IfBlock};
ghost use Rattle.serving.specs.Block.{IsLine, Cut, Held};

use blocks::{Block, Taken};

mod block;

// Bytes of room for the input, and for the answers: enough that little time goes to the calls that read and write.
pub const ROOM: usize = 65536;

// What answers a line, given without its byte 10, whatever its length. The answer's last byte is its byte 10.
pub trait Answerer {
    // Lines of so many bytes or more are answered alike, so of a line that hasn't ended no more is kept.
    const OVER: usize;

    // Room for any answer.
    const LONGEST: usize;

    ghost OVER: { ℕ };

    ghost LONGEST: { ℕ };

    ghost line_answer: { List ℕ → List ℕ };

    fn answer(line: &[u8], out: &mut [u8]) -> usize
        requires { LONGEST ≤ length out.old }
        ensures { Puts (line_answer line.now) out.old result out.new };

    ghost alike: { (line other : List ℕ) → OVER ≤ length line → OVER ≤ length other → line_answer line ≡ line_answer other };
}

// Answers the lines of standard input, until it ends or can't be read, or the answers can't be written.
pub fn serve<A: Answerer>(rt: &(impl Input + Print + Eprint), input: &mut [u8], output: &mut [u8])
    requires in_bounds { A.OVER < length input.old }
    requires longest_answer_in_bounds { A.LONGEST ≤ length output.old }
{
    let mut taken = blocks::first(rt, input);
    while let Taken::More(block) | Taken::Last(block) = taken {
        taken = take_block::<A>(rt, block, input, output);
    }
}

// Answers the lines that end in a block, and takes the next one, which begins with what is left of it. Where the answers can't be written
// there is no next block.
fn take_block<A: Answerer>(
    rt: &(impl Input + Print + Eprint),
    block: Block,
    input: &mut [u8],
    output: &mut [u8],
) -> Taken
    requires block_in_bounds { filled block ≤ length input.old }
    requires in_bounds { A.OVER < length input.old }
    requires longest_answer_in_bounds { A.LONGEST ≤ length output.old }
    ensures held { IfBlock result (λ after. Held A.OVER (take (filled block) input.old) after.held input.new) }
    ensures result_in_bounds { IfBlock result (λ after. filled after ≤ length input.old) }
    ensures left { IfBlock result (λ after. after.left < block.left) }
{
    let end = block.held + block.more;
    let Some(start) = answer_block::<A>(rt, &input[..end], output) else {
        return Taken::End;
    };
    blocks::next(rt, input, block, start, A::OVER)
}

// Answers each line that ends in a block, with one write for as many as `output` holds, and gives the place where the line after the last
// of them begins. It stops at a write that fails.
fn answer_block<A: Answerer>(
    rt: &(impl Print + Eprint),
    block: &[u8],
    output: &mut [u8],
) -> Option<usize>
    requires { A.LONGEST ≤ length output.old }
    ensures cut { IfSome result (λ start. Cut block.now start) }
    ensures start_in_bounds { IfSome result (λ start. (start ≤ length block.now) × IsLine (drop start block.now)) }
{
    let mut done = block::answer_lines::<A>(block, 0, output);
    // No `for`: how many lines one write takes, their answers tell.
    while 0 < done.put {
        if !blocks::write_out(rt, &output[..done.put]) {
            return None;
        }
        done = block::answer_lines::<A>(block, done.next, output);
    }
    Some(done.next)
}
