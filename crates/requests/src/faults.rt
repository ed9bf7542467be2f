// What the desk says of itself: the line of `help`, and the lines for what is no request. The room is a clause, since the bytes are lent as a
// slice.
ghost use Rattle.std.specs.Prelude.{◌≤◌, length};
ghost use Rattle.text.specs.Puts.{Puts};
ghost use Rattle.requests.specs.Texts.{help_line, described, fault_line};

use crate::{Argument, Fault};
use answers::put_text;

// Every word with its arguments.
pub fn put_help(out: &mut [u8]) -> usize
    requires { 400 ≤ length out.old }
    ensures { Puts help_line out.old result out.new }
{
    put_text(
        b"digit DIGITS, ean13 NUMBER, ean8 NUMBER, upce NUMBER, itf14 NUMBER, gs1 MESSAGE, read-ean13 WIDTHS, read-ean8 WIDTHS, read-upce WIDTHS, read-itf14 WIDTHS, read-gs1 WIDTHS, read WIDTHS, test MESSAGE, split MESSAGE, ask ID MESSAGE, add ID DATA MESSAGE, room N CALL, help\n",
        out,
    )
}

pub fn put_fault(fault: Fault, out: &mut [u8]) -> usize
    requires { 500 ≤ length out.old }
    ensures { Puts (fault_line fault) out.old result out.new }
{
    match fault {
        Fault::Empty => put_text(b"error: no such call\n", out),
        Fault::NoSuchCall => {
            let at = put_text(b"error: no such call; there are ", out);
            at + put_help(&mut out[at..])
        }
        Fault::Missing(argument) => {
            let at = put_text(b"error: missing ", out);
            at + put_described(argument, &mut out[at..])
        }
        Fault::Malformed(argument) => {
            let at = put_text(b"error: wrong ", out);
            at + put_described(argument, &mut out[at..])
        }
    }
}

// An argument's name, what it must be, and byte 10.
fn put_described(argument: Argument, out: &mut [u8]) -> usize
    requires { 100 ≤ length out.old }
    ensures { Puts (described argument) out.old result out.new }
{
    match argument {
        Argument::Places => put_text(b"N: a number from 0 to 700\n", out),
        Argument::Call => put_text(b"CALL: one of those that help names, after a space\n", out),
        Argument::Digits => put_text(b"DIGITS: 1 to 17 digits, after a space\n", out),
        Argument::Number => put_text(b"NUMBER: digits with the check digit, after a space\n", out),
        Argument::Message => put_text(
            b"MESSAGE: element strings, ^ for a separator, after a space\n",
            out,
        ),
        Argument::Widths => put_text(
            b"WIDTHS: digits, or numbers from 0 to 255 with one space between two\n",
            out,
        ),
        Argument::Identifier => put_text(b"ID: a decimal number, after a space\n", out),
        Argument::Data => put_text(b"DATA: the data of an element string, after a space\n", out),
    }
}
