// A program of a user's own, the example of README.md: a carton's message is built up in one lent buffer, and its symbol is drawn in another.
#![tactic(auto)]

use gs1_128::Gs1128;
use refusal::Refusal;
use std::io;

fn main(rt: HostRuntime) -> io::Result<()> {
    let mut message = [0u8; 48];
    let mut widths = [0u8; Gs1128::WRITTEN];
    print(&rt, draw_carton(b"ABC123", &mut message, &mut widths))?;
    print(&rt, draw_carton(b"", &mut message, &mut widths))
}

// Draws a symbol of the carton's GTIN and a batch: the count of widths, or the first refusal.
fn draw_carton(batch: &[u8], message: &mut [u8], widths: &mut [u8]) -> Result<usize, Refusal> {
    let count = adding::add(message, 0, 1, b"10012345678902")?;
    let count = adding::add(message, count, 10, batch)?;
    Gs1128::write(&message[..count], widths)
}

// The count, or the refusal and its place.
fn print(rt: &impl Print, answer: Result<usize, Refusal>) -> io::Result<()> {
    match answer {
        Ok(count) => println!(rt; "0 {count}"),
        Err(refusal) => println!(rt; "{refusal}"),
    }
}
