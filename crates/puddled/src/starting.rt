//! What a start prints: which logs it refuses, and that it is ready.

ghost use Rattle.std.specs.Prelude.{◌≡◌, ◌+◌, ◌≤◌, ◌<◌, ◌++◌, slice_index_or};
ghost use Rattle.pm_model.specs.Counts.{after_fault, fault_of};
ghost use Rattle.pm_model.specs.Calls.{Says};
ghost use Rattle.arrayvec.specs.ArrayString.{array_string_len};
ghost use Rattle.pud_defs.specs.Formats.Image.{Image};
ghost use Rattle.pud_defs.specs.Logging.Settled.{ALL_LOGS};
ghost use Rattle.pud_defs.specs.Output.StartText.{refused_line, refused_lines};
ghost use Rattle.pud_defs.specs.Output.Texts.{ready_text};
ghost use Rattle.recover.specs.Verdicts.{is_refused_mark};
ghost use Rattle.puddled.specs.Starting.{AreMarks, refused_text};
ghost use Rattle.puddled.specs.declared.starting.TheConstants.{LINE_LIMIT, TEXT_LIMIT};

use arrayvec::ArrayString;
use itoa::Buffer;
use pm_model::{Host, HostFault};
use pud_defs::layout::{CLIENT_LOGS, CLIENTS, LOGS};
use recover::Mark;

/// What a start found out about each client log, by the log's number.
pub(crate) type Marks = [Mark; LOGS];

/// The most bytes that a line on a refused log has, with its newline.
const LINE_LIMIT: usize = 12;

/// The most bytes that the lines on refused logs have: one line for each log.
const TEXT_LIMIT: usize = LINE_LIMIT * LOGS;

/// The lines on refused logs.
type RefusedText = ArrayString<TEXT_LIMIT>;

/// Adds the line on a refused log: its client, and its number among the client's logs. The text must have room for the
/// line.
fn add_refused(text: &mut RefusedText, number: u32)
    requires known { number < ALL_LOGS }
    requires room { array_string_len text.old + LINE_LIMIT ≤ TEXT_LIMIT }
    ensures line { text.new.bytes ≡ text.old.bytes ++ refused_line number }
    ensures within { array_string_len text.new ≤ array_string_len text.old + LINE_LIMIT }
{
    text.push_str("refused ");
    text.push_str(Buffer::new().format(number / CLIENT_LOGS));
    text.push(' ');
    text.push_str(Buffer::new().format(number % CLIENT_LOGS));
    text.push('\n');
}

/// A line for each log that was found refused, in the order of the log numbers.
fn refused_text(marks: &Marks) -> RefusedText
    ensures { result.bytes ≡ refused_lines (λ number. is_refused_mark (slice_index_or marks.now number Mark.Closed)) }
{
    let mut text = RefusedText::new();
    for number in 0..CLIENTS * CLIENT_LOGS {
        if marks[number as usize].is_refused() {
            add_refused(&mut text, number);
        }
    }
    text
}

/// Prints a line for each log that was found refused. If there is none, prints nothing.
pub(crate) fn say_refused<H: Host>(h: &mut H, marks: &Marks) -> Result<(), HostFault>
    ensures says { H.tells → (image : Image) → AreMarks image marks.now → Says (refused_text image) (fault_of result) (H.state h.old) (H.state h.new) }
    ensures cause { H.counts h.new ≡ after_fault (fault_of result) (H.counts h.old) }
{
    let text = refused_text(marks);
    if text.is_empty() {
        return Ok(());
    }
    h.say(text.as_bytes())
}

/// Prints that the daemon is ready.
pub(crate) fn say_ready<H: Host>(h: &mut H) -> Result<(), HostFault>
    ensures says { H.tells → Says ready_text (fault_of result) (H.state h.old) (H.state h.new) }
    ensures cause { H.counts h.new ≡ after_fault (fault_of result) (H.counts h.old) }
{
    h.say(b"ready\n")
}
