// GS1-128: a symbol from a message, and back.
#![tactic(auto)]

ghost use Rattle.std.specs.Prelude.{◌≡◌, ◌+◌, ◌-◌, ◌*◌, ◌/◌, ◌≤◌, ◌<◌, length};
ghost use Rattle.refusal.specs.Outcome.{◌>>=◌ as ◌then◌};
ghost use Rattle.refusal.specs.Fills.{Fills, FillsOwn};
ghost use Rattle.gs1_128.specs.Symbol.{permitted};
ghost use Rattle.gs1_128.specs.Scanning.{values_in, judged_values};
ghost use Rattle.gs1_128.specs.Rules.{message_from, message_in, reads, writes};

use refusal::Refusal;

mod drawing;
mod scanning;
mod values;

// A symbol's start, 103 to 105, and its n: how many characters stand between the start and the check, the first FNC1 among them.
#[derive(Clone, Copy)]
pub struct Gs1128 {
    start: usize,
    count: usize,
}

impl Gs1128 {
    // How many widths a symbol has: the least, the most, a character's, and those of the start, the check and the stop together.
    pub const LEAST: usize = 31;

    pub const MOST: usize = 619;

    pub const CHARACTER: usize = 6;

    pub const ENDS: usize = 19;

    pub const STOP: [u8; 7] = code128::characters::STOP;

    pub const STOP_WIDTHS: usize = 7;

    // The most characters between start and check; and the most bytes of a message, the room that any reading fits in.
    pub const CHARACTERS: usize = 100;

    pub const BYTES: usize = 48;

    // What is written has at most so many characters, start and check among them, and so many widths, the room that any writing fits in.
    pub const WRITTEN_CHARACTERS: usize = 51;

    pub const WRITTEN: usize = Gs1128::CHARACTER * Gs1128::WRITTEN_CHARACTERS + Gs1128::STOP_WIDTHS;

    // The lowest start: the values allowed after a start are those below it. The first of them is FNC1.
    pub const LEAST_START: u8 = 103;

    pub const FNC1: u8 = 102;

    // Draws a message in its best spelling; or refuses the message, with 1, 2, 9, 10 or 11, or the room, with 12.
    pub fn write(message: &[u8], widths: &mut [u8]) -> Result<usize, Refusal>
        ensures { Fills (writes message.now (length widths.old)) widths.old result widths.new }
    {
        elements::test(message)?;
        let mut characters = [0u8; Gs1128::WRITTEN_CHARACTERS];
        let count = drawing::characters_of(message, &mut characters);
        drawing::draw(&characters[..count], widths)
    }

    // Reads a symbol: refusals 1, 4, 5, 6, 7, 8, those of the message, 9, 10 and 11, and 12; or the message.
    pub fn read(widths: &[u8], message: &mut [u8]) -> Result<usize, Refusal>
        ensures { Fills (reads widths.now (length message.old)) message.old result message.new }
    {
        let mut text = [0u8; Gs1128::BYTES];
        Gs1128::read_in(widths, &mut text, message)
    }

    // Makes the message in a list of the call's own, and lays it in the lent one last.
    fn read_in(widths: &[u8], text: &mut [u8; 48], message: &mut [u8]) -> Result<usize, Refusal>
        ensures { Fills (reads widths.now (length message.old)) message.old result message.new }
    {
        let count = Gs1128::message_in(widths, text)?;
        refusal::lay(&text[..count], message)
    }

    // The message that widths hold, in a list of the call's own.
    fn message_in(widths: &[u8], text: &mut [u8; 48]) -> Result<usize, Refusal>
        ensures { FillsOwn (message_in widths.now) text.old result text.new }
    {
        if !Gs1128::permits(widths.len()) {
            return Err(Refusal::Count);
        }
        let start = scanning::start_of(widths)?;
        let symbol = Gs1128::of_widths(start, widths.len());
        let end = symbol.count + 1;
        let mut values = [0u8; Gs1128::CHARACTERS + 1];
        symbol.message(widths, &mut values[..end], text)
    }

    // Whether a symbol can have so many widths.
    pub fn permits(widths: usize) -> bool
        ensures { result ≡ permitted widths }
    {
        Gs1128::LEAST <= widths
            && widths <= Gs1128::MOST
            && (widths - Gs1128::ENDS) % Gs1128::CHARACTER == 0
    }

    // The symbol of so many widths that has this start.
    fn of_widths(start: usize, widths: usize) -> Self
        requires { 19 ≤ widths }
        ensures start_value { result.start ≡ start }
        ensures count_value { result.count ≡ (widths - 19) / 6 }
    {
        Self {
            start,
            count: (widths - Gs1128::ENDS) / Gs1128::CHARACTER,
        }
    }

    // The symbol's message, once its values stand in a list of the call's own: refusals 5 to 11.
    fn message(self, widths: &[u8], own: &mut [u8], text: &mut [u8; 48]) -> Result<usize, Refusal>
        requires start_bound { self.start < 106 }
        requires le_count { (2 ≤ self.count) × (self.count ≤ 100) }
        requires widths_len { length widths.now ≡ 6 * self.count + 19 }
        requires own_len { length own.old ≡ self.count + 1 }
        ensures { FillsOwn (values_in widths.now then (λ values. judged_values self.start values then message_from self.start)) text.old result text.new }
    {
        let start = self.start;
        let count = self.count;
        scanning::values_in(widths, own)?;
        values::judged(start, own)?;
        values::message_from(start, &own[1..count], text)
    }
}
