// The lines that end in a block of bytes, answered one after the other.
ghost use Rattle.std.specs.Prelude.{◌⊎◌, ◌+◌, ◌≤◌, ◌<◌, length, drop};
ghost use Rattle.serving.specs.Block.{IsLine, Answered};

use crate::Answerer;

// Where the first line begins that isn't answered yet, and how many bytes of answers have been put.
#[derive(Clone, Copy)]
pub struct Progress {
    pub next: usize,
    pub put: usize,
}

// Answers the lines that end in a block, from the one that begins at `from` on, while there is room for an answer.
pub fn answer_lines<A: Answerer>(block: &[u8], from: usize, out: &mut [u8]) -> Progress
    requires { from ≤ length block.now }
    ensures answered { Answered A.line_answer block.now from out.old result.next result.put out.new }
    ensures from_le_next { (from ≤ result.next) × (result.next ≤ length block.now) }
    ensures line { IsLine (drop result.next block.now) ⊎ (length out.old < result.put + A.LONGEST) }
{
    let mut next = from;
    let mut put = 0;
    let mut end = lines::line_end(block, from);
    // No `for`: it stops where the room doesn't do for another answer, and the lines differ in length.
    while end < block.len() && A::LONGEST <= out.len() - put {
        put += A::answer(&block[next..end], &mut out[put..]);
        next = end + 1;
        end = lines::line_end(block, next);
    }
    Progress { next, put }
}
