//! Writes the texts of replies.

ghost use Rattle.std.specs.Prelude.{◌≡◌, ◌+◌, ◌≤◌, ◌++◌, length, take};
ghost use Rattle.pud_defs.specs.Output.Texts.{line_of, refusal_word, reply_text};

use itoa::Buffer;
use pud_defs::layout::REPLY_LIMIT;
use pud_defs::machine::{Refusal, Reply};

/// The word for the refusal in a reply.
fn word_of(refusal: Refusal) -> &'static [u8]
    ensures word { result.now ≡ refusal_word refusal }
    ensures short { length result.now ≤ 8 }
{
    match refusal {
        Refusal::Bad => b"bad",
        Refusal::Client => b"client",
        Refusal::Taken => b"taken",
        Refusal::Pool => b"pool",
        Refusal::Exists => b"exists",
        Refusal::Wild => b"wild",
        Refusal::Denied => b"denied",
        Refusal::Busy => b"busy",
        Refusal::OpenHere => b"open",
        Refusal::Tx => b"tx",
        Refusal::NoType => b"type",
        Refusal::Object => b"object",
        Refusal::Field => b"field",
        Refusal::Kind => b"kind",
        Refusal::Held => b"held",
        Refusal::Deep => b"deep",
        Refusal::Logs => b"logs",
        Refusal::TooBig => b"toobig",
        Refusal::File => b"file",
        Refusal::Memory => b"memory",
        Refusal::BadFile => b"badfile",
        Refusal::Clash => b"clash",
        Refusal::Full => b"full",
        Refusal::Space => b"space",
    }
}

/// Writes the line `front` and then `rest` at the start of `out`. Returns the number of its bytes, with its newline.
fn print_line(front: &[u8], rest: &[u8], out: &mut [u8; REPLY_LIMIT]) -> usize
    requires short { length front.now + length rest.now ≤ 31 }
    ensures within { result ≤ REPLY_LIMIT }
    ensures text { take result out.new ≡ line_of (front.now ++ rest.now) }
{
    let end = front.len() + rest.len();
    out[..front.len()].copy_from_slice(front);
    out[front.len()..end].copy_from_slice(rest);
    out[end] = b'\n';
    end + 1
}

/// Writes the text of the reply, with its newline, at the start of `out`. Returns the number of its bytes. It promises
/// nothing about the bytes of `out` after the text.
#[tactic(auto, unfolding(pud_defs::specs::Output::Texts::reply_text))]
pub fn print_reply(reply: Reply, out: &mut [u8; REPLY_LIMIT]) -> usize
    ensures within { result ≤ REPLY_LIMIT }
    ensures text { take result out.new ≡ reply_text reply }
{
    match reply {
        Reply::Ok => print_line(b"ok", b"", out),
        Reply::Num(value) => print_line(b"ok ", Buffer::new().format(value).as_bytes(), out),
        Reply::Ref(serial) => print_line(b"ok @", Buffer::new().format(serial).as_bytes(), out),
        Reply::No(refusal) => print_line(b"no ", word_of(refusal), out),
        Reply::Cut => print_line(b"cut", b"", out),
    }
}
