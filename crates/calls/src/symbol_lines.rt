// Symbols drawn, and lists of widths read.
ghost use Rattle.std.specs.Prelude.{◌≡◌, ◌≤◌, ◌<◌, length};
ghost use Rattle.text.specs.Puts.{Puts};
ghost use Rattle.text.specs.Widths.{widths_in};
ghost use Rattle.answers.specs.declared.Form.TheVariants.{Widths as AsWidths, Bytes as AsBytes};
ghost use Rattle.answers.specs.Lines.{line_of, list_line};
ghost use Rattle.symbols.specs.Kinds.{reads_as, writes_as};
ghost use Rattle.symbols.specs.Readings.{reads};
ghost use Rattle.calls.specs.Answers.{kind_name, named_line, read_line, read_typed};

use answers::{Form, put_answer, put_made};
use requests::faults::put_fault;
use requests::{Argument, Fault};
use symbols::Kind;

pub fn draw(kind: Kind, content: &[u8], widths: &mut [u8], out: &mut [u8]) -> usize
    requires widths_len_bound { length widths.old ≤ 700 }
    requires in_bounds { 1024 ≤ length out.old }
    ensures { Puts (list_line AsWidths (writes_as kind content.now (length widths.old))) out.old result out.new }
{
    let answer = symbols::write_as(kind, content, widths);
    put_made(answer, Form::Widths, b" ", widths, out)
}

pub fn read(kind: Option<Kind>, typed: &[u8], content: &mut [u8], out: &mut [u8]) -> usize
    requires typed_len_bound { length typed.now ≤ 4096 }
    requires content_len_bound { length content.old ≤ 700 }
    requires in_bounds { 1024 ≤ length out.old }
    ensures { Puts (read_typed kind (widths_in typed.now) (length content.old)) out.old result out.new }
{
    let mut widths = [0u8; 4097];
    read_in(kind, typed, &mut widths, content, out)
}

fn read_in(
    kind: Option<Kind>,
    typed: &[u8],
    widths: &mut [u8],
    content: &mut [u8],
    out: &mut [u8],
) -> usize
    requires typed_in_bounds { length typed.now < length widths.old }
    requires content_len_bound { length content.old ≤ 700 }
    requires in_bounds { 1024 ≤ length out.old }
    ensures { Puts (read_typed kind (widths_in typed.now) (length content.old)) out.old result out.new }
{
    let Some(count) = text::widths_in(typed, widths) else {
        return put_fault(Fault::Malformed(Argument::Widths), out);
    };
    read_list(kind, &widths[..count], content, out)
}

fn read_list(kind: Option<Kind>, widths: &[u8], content: &mut [u8], out: &mut [u8]) -> usize
    requires content_len_bound { length content.old ≤ 700 }
    requires in_bounds { 1024 ≤ length out.old }
    ensures { Puts (read_line kind widths.now (length content.old)) out.old result out.new }
{
    match kind {
        Some(kind) => read_as(kind, b" ", widths, content, out),
        None => read_any(widths, content, out),
    }
}

fn read_any(widths: &[u8], content: &mut [u8], out: &mut [u8]) -> usize
    requires content_len_bound { length content.old ≤ 700 }
    requires in_bounds { 1024 ≤ length out.old }
    ensures { Puts (named_line (reads widths.now (length content.old))) out.old result out.new }
{
    match symbols::kind_of(widths) {
        Ok(kind) => read_as(kind, name_of(kind), widths, content, out),
        Err(refusal) => put_answer(Err(refusal), out),
    }
}

// A symbol of one kind, with some text between the count and what it holds.
fn read_as(kind: Kind, between: &[u8], widths: &[u8], content: &mut [u8], out: &mut [u8]) -> usize
    requires between_len_bound { length between.now ≤ 27 }
    requires content_len_bound { length content.old ≤ 700 }
    requires in_bounds { 1024 ≤ length out.old }
    ensures { Puts (line_of AsBytes between.now (reads_as kind widths.now (length content.old))) out.old result out.new }
{
    let answer = symbols::read_as(kind, widths, content);
    put_made(answer, Form::Bytes, between, content, out)
}

// A kind's name, with a space before it and one after it.
fn name_of(kind: Kind) -> &'static [u8]
    ensures { result.now ≡ kind_name kind }
{
    match kind {
        Kind::Ean13 => b" ean13 ",
        Kind::Ean8 => b" ean8 ",
        Kind::UpcE => b" upce ",
        Kind::Itf14 => b" itf14 ",
        Kind::Gs1128 => b" gs1 ",
    }
}
