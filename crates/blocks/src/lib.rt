// What every program that answers lines shares: standard input taken in blocks, and answers written to standard output.
//
// What follows the last line that ends in a block is held at the front of the input while the next block is read after it.
#![tactic(auto)]

ghost use Rattle.std.specs.Prelude.{◌≡◌, ◌-◌, ◌≤◌, ◌<◌, min, length, take};
ghost use Rattle.blocks.specs.Blocks.{filled, IfBlock, IfLast, Holds};

use std::io::Read;

// The front of the input: `held` bytes of a line that the blocks before have begun, and `more` bytes that were read after them. A proved
// loop has to end, and nothing says that the input does, so blocks are counted down, from a number that no run uses up: so many are left,
// this one too.
#[derive(Clone, Copy)]
pub struct Block {
    pub held: usize,
    pub more: usize,
    pub left: u64,
}

// What comes next of the input. Where it ends, bytes that are held are a line too: they are the last block, with the byte 10 that ends
// them. A terminal may go on after an end, so no block is left after that one, and none is read.
#[derive(Clone, Copy)]
pub enum Taken {
    More(Block),
    Last(Block),
    End,
}

pub fn first(rt: &(impl Input + Eprint), input: &mut [u8]) -> Taken
    requires { 0 < length input.old }
    ensures result_in_bounds { IfBlock result (λ block. filled block ≤ length input.old) }
    ensures last { IfLast result (λ block. block.left ≡ 1) }
{
    read_after(rt, 0, input, u64::MAX)
}

// Holds what a block has from `start` on, `most` bytes of it at the most, and takes the block that goes on with it.
pub fn next(
    rt: &(impl Input + Eprint),
    input: &mut [u8],
    block: Block,
    start: usize,
    most: usize,
) -> Taken
    requires start_in_bounds { (start ≤ filled block) × (filled block ≤ length input.old) }
    requires most_in_bounds { most < length input.old }
    ensures holds { Holds (take (filled block) input.old) start most (min (filled block - start) most) input.new }
    ensures held { IfBlock result (λ after. after.held ≡ min (filled block - start) most) }
    ensures result_in_bounds { IfBlock result (λ after. filled after ≤ length input.old) }
    ensures left { IfBlock result (λ after. (0 < after.left) × (after.left < block.left)) }
    ensures last { IfLast result (λ after. after.left ≡ 1) }
{
    let held = (block.held + block.more - start).min(most);
    input.copy_within(start..start + held, 0);
    read_after(rt, held, &mut input[held..], block.left.saturating_sub(1))
}

// Writes answers out, and tells whether that was done. Where it can't be, standard error says so.
pub fn write_out(rt: &(impl Print + Eprint), answers: &[u8]) -> bool {
    if rt.write_all(answers).is_ok() {
        return true;
    }
    let _ = eprintln!(rt; "error: the output can't be written");
    false
}

// Reads after the bytes held, unless no block is left. Where reading fails they may be a part of a line, and there is no block.
fn read_after(rt: &(impl Input + Eprint), held: usize, space: &mut [u8], left: u64) -> Taken
    requires { 0 < length space.old }
    ensures held { IfBlock result (λ block. block.held ≡ held) }
    ensures more { IfBlock result (λ block. block.more ≤ length space.old) }
    ensures left { IfBlock result (λ block. (0 < block.left) × (block.left ≤ left)) }
    ensures last { IfLast result (λ block. block.left ≡ 1) }
{
    if left == 0 {
        return Taken::End;
    }
    let Ok(more) = rt.reader().read(space) else {
        let _ = eprintln!(rt; "error: the input can't be read");
        return Taken::End;
    };
    if 0 < more {
        return Taken::More(Block { held, more, left });
    }
    if held == 0 {
        return Taken::End;
    }
    space[0] = b'\n';
    Taken::Last(Block {
        held,
        more: 1,
        left: 1,
    })
}
