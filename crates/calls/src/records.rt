// A message split into records.
ghost use Rattle.std.specs.Prelude.{◌≤◌, length, take};
ghost use Rattle.text.specs.Puts.{Puts};
ghost use Rattle.splitting.specs.Splitting.{splits};
ghost use Rattle.calls.specs.Answers.{records_line, split_line};

use answers::put_answer;
use splitting::Record;

pub fn split(message: &[u8], places: usize, out: &mut [u8]) -> usize
    requires { 1024 ≤ length out.old }
    ensures { Puts (split_line (splits message.now places)) out.old result out.new }
{
    let split = splitting::split_twelve(message, places);
    let Ok(count) = split.answer else {
        return put_answer(split.answer, out);
    };
    put_records(&split.records[..count], out)
}

fn put_records(records: &[Record], out: &mut [u8]) -> usize
    requires records_len_bound { length records.now ≤ 12 }
    requires in_bounds { 1024 ≤ length out.old }
    ensures { Puts (records_line records.now) out.old result out.new }
{
    let mut at = text::put_pair(0, records.len(), out);
    for record in records {
        at += text::put_record(
            record.identifier,
            record.begin,
            record.length,
            &mut out[at..],
        );
    }
    out[at] = b'\n';
    at + 1
}
