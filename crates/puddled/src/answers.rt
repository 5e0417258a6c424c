//! The answer to a line, and how it is printed.
ghost use Rattle.std.specs.Prelude.{◌≡◌, ◌≢◌, ◌≤◌, ◌++◌, codes, Option};
ghost use Rattle.pm_model.specs.Words.{Image, reads};
ghost use Rattle.pm_model.specs.Counts.{after_fault, fault_of};
ghost use Rattle.pm_model.specs.Calls.{Says};
ghost use Rattle.pud_defs.specs.declared.layout.TheConstants.{MAX_FRAMES};
ghost use Rattle.pud_defs.specs.Formats.Layout.{tables_end};
ghost use Rattle.pud_defs.specs.Output.Texts.{line_of, reply_text};
ghost use Rattle.puddled.specs.LineAnswers.{said_text};

use daemon_memory::{LineAnswer, Text};
use pm_model::{Host, HostFault};
use pool_list::say_pools;
use pud_defs::layout::REPLY_LIMIT;
use pud_defs::machine::Reply;
use script::print_reply;

/// Prints the reply and a newline.
fn say_reply<H: Host>(h: &mut H, reply: Reply) -> Result<(), HostFault>
    ensures says { H.tells → Says (reply_text reply) (fault_of result) (H.state h.old) (H.state h.new) }
    ensures cause { H.counts h.new ≡ after_fault (fault_of result) (H.counts h.old) }
    ensures never_cut { fault_of result ≢ Option.Some HostFault.Cut }
{
    let mut text = [0u8; REPLY_LIMIT];
    let length = print_reply(reply, &mut text);
    h.say(&text[..length])
}

/// Prints `ok`, a space, the text and a newline.
fn say_text<H: Host>(h: &mut H, text: &Text) -> Result<(), HostFault>
    ensures says { H.tells → Says (line_of (codes "ok " ++ text.now)) (fault_of result) (H.state h.old) (H.state h.new) }
    ensures cause { H.counts h.new ≡ after_fault (fault_of result) (H.counts h.old) }
    ensures never_cut { fault_of result ≢ Option.Some HostFault.Cut }
{
    h.say(b"ok ")?;
    h.say(text.as_slice())?;
    h.say(b"\n")
}

/// Prints the answer and a newline. `frames` is the device's number of frames.
pub(crate) fn say_answer<H: Host>(
    h: &mut H,
    frames: u32,
    answered: &LineAnswer,
) -> Result<(), HostFault>
    requires few { frames ≤ MAX_FRAMES }
    requires table { tables_end frames ≤ (H.counts h.old).size }
    ensures says { H.tells → (image : Image) → reads (H.state h.old).now.words ≡ image
        → Says (said_text frames image answered.now) (fault_of result) (H.state h.old) (H.state h.new) }
    ensures cause { H.counts h.new ≡ after_fault (fault_of result) (H.counts h.old) }
    ensures never_cut { fault_of result ≢ Option.Some HostFault.Cut }
{
    match answered {
        LineAnswer::Reply(reply) => say_reply(h, *reply),
        LineAnswer::Text(text) => say_text(h, text),
        LineAnswer::Pools => say_pools(h, frames),
    }
}
