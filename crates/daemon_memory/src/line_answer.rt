//! What a line is answered.
ghost use Rattle.std.specs.Prelude.{◌≡◌};
ghost use Rattle.pud_defs.specs.StateMachine.World.{World};
ghost use Rattle.pud_defs.specs.Output.Texts.{begins_with_ok};
ghost use Rattle.daemon_memory.specs.LineAnswers.{as_line_answer, answer_of};

use pm_model::HostFault;
use pud_defs::machine::Reply;
use std::marker::Model;

/// The text that a line asks for. All of it is built before any of it is printed. Contracts see it as a list of bytes.
#[derive(Drop)]
pub struct Text {
    bytes: Vec<u8>,
}

impl Model for Text {
    ghost use Rattle.std.specs.Prelude.{ℕ, List};

    ghost Value = { List ℕ };

    ghost view = { λ t. t.bytes.items };
}

impl Text {
    /// Makes a text of these bytes.
    pub fn new(bytes: Vec<u8>) -> Text
        ensures { result ≡ bytes.items }
    {
        Text { bytes }
    }

    /// The text's bytes.
    pub fn as_slice(&self) -> &[u8]
        ensures { result.now ≡ self.now }
    {
        self.bytes.as_slice()
    }
}

/// The answer to a line that was carried out or refused.
#[derive(Drop)]
pub enum LineAnswer {
    /// This reply.
    Reply(Reply),
    /// `ok`, a space, and this text.
    Text(Text),
    /// `ok` and the list of the pools. The list is read from the device while it is printed.
    Pools,
}

impl LineAnswer {
    /// Whether the line was carried out, that is, whether the answer's text begins with `ok`.
    pub fn is_ok(&self) -> bool
        ensures { (w : World) → result ≡ begins_with_ok (answer_of w self.now) }
    {
        match self {
            LineAnswer::Reply(reply) => reply.is_ok(),
            LineAnswer::Text(_) | LineAnswer::Pools => true,
        }
    }
}

/// The answer to a command that has a reply.
pub fn with_reply(done: Result<Reply, HostFault>) -> Result<LineAnswer, HostFault>
    ensures { result ≡ as_line_answer done }
{
    match done {
        Ok(reply) => Ok(LineAnswer::Reply(reply)),
        Err(fault) => Err(fault),
    }
}
