// The kinds of symbol, and a list of widths whose kind is not named.
#![tactic(auto)]

ghost use Rattle.std.specs.Prelude.{◌≡◌, length};
ghost use Rattle.refusal.specs.Fills.{Fills, answered};
ghost use Rattle.symbols.specs.Kinds.{kind_of, reads_as, writes_as};
ghost use Rattle.symbols.specs.Readings.{reads, FillsNamed};

use ean8::Ean8;
use ean13::Ean13;
use gs1_128::Gs1128;
use itf14::Itf14;
use refusal::Refusal;
use upc_e::UpcE;

#[derive(Clone, Copy)]
pub enum Kind {
    Ean13,
    Ean8,
    UpcE,
    Itf14,
    Gs1128,
}

// Reads a symbol of any kind: its kind is named, and it is read as that.
pub fn read(widths: &[u8], bytes: &mut [u8]) -> Result<(Kind, usize), Refusal>
    ensures { FillsNamed (reads widths.now (length bytes.old)) bytes.old result bytes.new }
{
    let kind = kind_of(widths)?;
    let count = read_as(kind, widths, bytes)?;
    Ok((kind, count))
}

// Names the kind by the count of widths, and where two kinds have the count, by the first width; or refuses as 1.
pub fn kind_of(widths: &[u8]) -> Result<Kind, Refusal>
    ensures { result ≡ answered (kind_of widths.now) }
{
    let count = widths.len();
    if count == Ean13::WIDTHS {
        return Ok(Kind::Ean13);
    }
    if count == Ean8::WIDTHS {
        if widths[0] == 1 {
            return Ok(Kind::Ean8);
        }
        return Ok(Kind::Gs1128);
    }
    if count == UpcE::WIDTHS {
        return Ok(Kind::UpcE);
    }
    if count == Itf14::WIDTHS {
        return Ok(Kind::Itf14);
    }
    if !Gs1128::permits(count) {
        return Err(Refusal::Count);
    }
    Ok(Kind::Gs1128)
}

// Reads a symbol of a named kind. The kinds are closed and each has its rule, so a `match` says which.
pub fn read_as(kind: Kind, widths: &[u8], bytes: &mut [u8]) -> Result<usize, Refusal>
    ensures { Fills (reads_as kind widths.now (length bytes.old)) bytes.old result bytes.new }
{
    match kind {
        Kind::Ean13 => Ean13::read(widths, bytes),
        Kind::Ean8 => Ean8::read(widths, bytes),
        Kind::UpcE => UpcE::read(widths, bytes),
        Kind::Itf14 => Itf14::read(widths, bytes),
        Kind::Gs1128 => Gs1128::read(widths, bytes),
    }
}

// Draws a symbol of a named kind, by a `match` as well.
pub fn write_as(kind: Kind, content: &[u8], widths: &mut [u8]) -> Result<usize, Refusal>
    ensures { Fills (writes_as kind content.now (length widths.old)) widths.old result widths.new }
{
    match kind {
        Kind::Ean13 => Ean13::write(content, widths),
        Kind::Ean8 => Ean8::write(content, widths),
        Kind::UpcE => UpcE::write(content, widths),
        Kind::Itf14 => Itf14::write(content, widths),
        Kind::Gs1128 => Gs1128::write(content, widths),
    }
}
