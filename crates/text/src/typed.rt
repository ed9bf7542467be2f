// Messages as they are typed, and bytes as they are.
ghost use Rattle.std.specs.Prelude.{◌≡◌, map, min, length, take};
ghost use Rattle.text.specs.Puts.{Puts};
ghost use Rattle.text.specs.Typed.{replacing, message_of, typed_of};

// Puts the message that typed bytes stand for at the front of `message`, as far as it fits, and answers the count of bytes put.
pub fn message_in(typed: &[u8], message: &mut [u8]) -> usize
    ensures puts { Puts (take (length message.old) (message_of typed.now)) message.old result message.new }
    ensures value { result ≡ min (length message.old) (length typed.now) }
{
    put_replacing(b'^', 29, typed, message)
}

// Writes a message as it is typed, as far as it fits, and answers the count of bytes written.
pub fn put_message(message: &[u8], out: &mut [u8]) -> usize
    ensures puts { Puts (take (length out.old) (typed_of message.now)) out.old result out.new }
    ensures value { result ≡ min (length out.old) (length message.now) }
{
    put_replacing(29, b'^', message, out)
}

// Writes bytes as they are, as far as they fit, and answers the count of bytes written.
pub fn put_fitting(source: &[u8], out: &mut [u8]) -> usize
    ensures { Puts (take (length out.old) source.now) out.old result out.new }
{
    let count = source.len().min(out.len());
    out[..count].copy_from_slice(&source[..count]);
    count
}

fn put_replacing(old: u8, new: u8, bytes: &[u8], out: &mut [u8]) -> usize
    ensures puts { Puts (take (length out.old) (map (replacing old new) bytes.now)) out.old result out.new }
    ensures value { result ≡ min (length out.old) (length bytes.now) }
{
    let count = bytes.len().min(out.len());
    for i in 0..count {
        out[i] = replaced(old, new, bytes[i]);
    }
    count
}

fn replaced(old: u8, new: u8, byte: u8) -> u8
    ensures { result ≡ replacing old new byte }
{
    if byte == old { new } else { byte }
}
