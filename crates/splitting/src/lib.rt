// Splitting a message into a lent list of records.
#![tactic(auto)]

ghost use Rattle.std.specs.Prelude.{◌≡◌, min, length, replicate};
ghost use Rattle.refusal.specs.Fills.{Fills};
ghost use Rattle.splitting.specs.Splitting.{record_of, splits};
ghost use Rattle.splitting.specs.Records.{blank_record};

use elements::Element;
use refusal::Refusal;

// What splitting writes for an element string: the identifier as a number, where its data begins and how long it is.
#[derive(Clone, Copy)]
pub struct Record {
    pub identifier: usize,
    pub begin: usize,
    pub length: usize,
}

impl Record {
    // A record that nothing was written to.
    const BLANK: Self = Self {
        identifier: 0,
        begin: 0,
        length: 0,
    };
}

// The one place that makes a record of an element string.
impl From<Element> for Record {
    ghost from_gives = { λ element r. r ≡ record_of element };

    fn from(element: Element) -> Self {
        Self {
            identifier: element.identifier,
            begin: element.begin,
            length: element.length,
        }
    }
}

// What splitting into twelve records gives: the answer, and the records then.
#[derive(Clone, Copy)]
pub struct Splitting {
    pub answer: Result<usize, Refusal>,
    pub records: [Record; 12],
}

// Splits a message into a lent list, one record for each element string: their count; or refusal 1, 2, 9, 10, 11 or 12.
pub fn split(message: &[u8], records: &mut [Record]) -> Result<usize, Refusal>
    ensures { Fills (splits message.now (length records.old)) records.old result records.new }
{
    let count = elements::test(message)?;
    if records.len() < count {
        return Err(Refusal::Room);
    }
    let mut at = 0;
    // The test has passed, so no string is refused here and every record is written.
    for record in records[..count].iter_mut() {
        let element = elements::string_at(message, at)?;
        *record = Record::from(element);
        at = element.next;
    }
    Ok(count)
}

// The same into a list of its own, of as many places as `room` says but at most twelve, which always suffice; blank records elsewhere.
pub fn split_twelve(message: &[u8], room: usize) -> Splitting
    ensures { Fills (splits message.now (min room 12)) (replicate 12 blank_record) result.answer result.records }
{
    let mut records = [Record::BLANK; 12];
    let answer = split(message, &mut records[..room.min(12)]);
    Splitting { answer, records }
}
