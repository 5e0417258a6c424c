//! Reads lines that are commands.
//!
//! A line is a command word and its arguments, with exactly one space between each two. It has at most 128 bytes
//! without its newline. These are the commands:
//!
//! - `client C uid gid`: the client C from 0 to 7, its owner and its group, each from 0 to 65,535;
//! - `leave C`;
//! - `type T n list`: the type id T from 1 to 65,535, the number of fields n from 1 to 30, and the list of the fields
//!   that are pointers;
//! - `pool C P mode`: the client C, the name P of 1 to 16 bytes from `a` to `z`, `0` to `9` and `_`, and the mode of
//!   three digits, each 0, 2, 4 or 6;
//! - `chmod C P mode`;
//! - `drop C P`;
//! - `begin C P`;
//! - `commit C P`;
//! - `abort C P`;
//! - `new C P T`;
//! - `set C P o.f x`: the serial o of an object from 1 to 2^64 - 1, the number f of a field from 0 to 29, and the value
//!   x: a number below 2^64, or `@` and a serial below 2^64; `@0` is null;
//! - `later C P o.f x`;
//! - `root C P o`: the serial o of an object, or 0 for null;
//! - `free C P o`;
//! - `get C P o.f`;
//! - `dump C P`;
//! - `export C P file`: the name of the file has the form of a pool's name;
//! - `import C P file mode`;
//! - `rewrite P n`: the number of steps n, from 1 to 3,984;
//! - `pools`;
//! - `cut N`: the pick N, any number below 2^64;
//! - `arm K N`: the step K from 1 to 1,000,000, and the pick N.

ghost use Rattle.std.specs.Prelude.{◌≡◌, IfOk};
ghost use Rattle.std.specs.Result.{result_ok};
ghost use Rattle.pud_defs.specs.StateMachine.Grammar.{split_at, client_by, leave_by, define_by, pool_line_by, chmod_by, drop_by, begin_by, commit_by, abort_by, new_by, set_by, later_by, root_by, free_by, get_by, dump_by, export_by, import_by, rewrite_by, pools_by, cut_by, arm_by, transaction_lines, command_among, command_with, command_by, command_of, IsLegalCommand};

use crate::arguments::Arguments;
use crate::pieces::cut;
use pud_defs::layout::LINE_LIMIT;
use pud_defs::machine::Command;

/// The line is not in the grammar.
#[derive(Clone, Copy, Debug, PartialEq, Eq, thiserror::Error)]
#[error("the line is not a command")]
pub struct Bad;

/// Reads the arguments of `client`, which registers a client. None if they have another form.
#[tactic(auto, unfolding(pud_defs::specs::StateMachine::Grammar::client_by))]
fn read_client(mut arguments: Arguments) -> Option<Command>
    ensures { result ≡ client_by arguments.entry }
{
    let client = arguments.client()?;
    let uid = arguments.owner()?;
    let gid = arguments.owner()?;
    arguments.end(Command::Client { client, uid, gid })
}

/// Reads the arguments of `leave`, which removes a client. None if they have another form.
#[tactic(auto, unfolding(pud_defs::specs::StateMachine::Grammar::leave_by))]
fn read_leave(mut arguments: Arguments) -> Option<Command>
    ensures { result ≡ leave_by arguments.entry }
{
    let client = arguments.client()?;
    arguments.end(Command::Leave { client })
}

/// Reads the arguments of `type`, which defines a type. None if they have another form.
#[tactic(auto, unfolding(pud_defs::specs::StateMachine::Grammar::define_by))]
fn read_definition(mut arguments: Arguments) -> Option<Command>
    ensures { result ≡ define_by arguments.entry }
{
    let t = arguments.type_id()?;
    let fields = arguments.fields()?;
    let map = arguments.map(fields)?;
    arguments.end(Command::Define { t, map })
}

/// Reads the arguments of `pool`, which makes a pool. None if they have another form.
#[tactic(auto, unfolding(pud_defs::specs::StateMachine::Grammar::pool_line_by))]
fn read_pool(mut arguments: Arguments) -> Option<Command>
    ensures { result ≡ pool_line_by arguments.entry }
{
    let client = arguments.client()?;
    let name = arguments.name()?;
    let mode = arguments.mode()?;
    arguments.end(Command::Pool { client, name, mode })
}

/// Reads the arguments of `chmod`, which changes a pool's mode. None if they have another form.
#[tactic(auto, unfolding(pud_defs::specs::StateMachine::Grammar::chmod_by))]
fn read_chmod(mut arguments: Arguments) -> Option<Command>
    ensures { result ≡ chmod_by arguments.entry }
{
    let client = arguments.client()?;
    let name = arguments.name()?;
    let mode = arguments.mode()?;
    arguments.end(Command::Chmod { client, name, mode })
}

/// Reads the arguments of `drop`, which drops a pool. None if they have another form.
#[tactic(auto, unfolding(pud_defs::specs::StateMachine::Grammar::drop_by))]
fn read_drop(mut arguments: Arguments) -> Option<Command>
    ensures { result ≡ drop_by arguments.entry }
{
    let client = arguments.client()?;
    let name = arguments.name()?;
    arguments.end(Command::Drop { client, name })
}

/// Reads the arguments of `begin`, which begins a transaction. None if they have another form.
#[tactic(auto, unfolding(pud_defs::specs::StateMachine::Grammar::begin_by))]
fn read_begin(mut arguments: Arguments) -> Option<Command>
    ensures { result ≡ begin_by arguments.entry }
{
    let client = arguments.client()?;
    let name = arguments.name()?;
    arguments.end(Command::Begin { client, name })
}

/// Reads the arguments of `commit`, which ends a transaction and keeps its changes. None if they have another form.
#[tactic(auto, unfolding(pud_defs::specs::StateMachine::Grammar::commit_by))]
fn read_commit(mut arguments: Arguments) -> Option<Command>
    ensures { result ≡ commit_by arguments.entry }
{
    let client = arguments.client()?;
    let name = arguments.name()?;
    arguments.end(Command::Commit { client, name })
}

/// Reads the arguments of `abort`, which undoes a transaction. None if they have another form.
#[tactic(auto, unfolding(pud_defs::specs::StateMachine::Grammar::abort_by))]
fn read_abort(mut arguments: Arguments) -> Option<Command>
    ensures { result ≡ abort_by arguments.entry }
{
    let client = arguments.client()?;
    let name = arguments.name()?;
    arguments.end(Command::Abort { client, name })
}

/// Reads the arguments of `new`, which makes an object. None if they have another form.
#[tactic(auto, unfolding(pud_defs::specs::StateMachine::Grammar::new_by))]
fn read_new(mut arguments: Arguments) -> Option<Command>
    ensures { result ≡ new_by arguments.entry }
{
    let client = arguments.client()?;
    let name = arguments.name()?;
    let t = arguments.type_id()?;
    arguments.end(Command::New { client, name, t })
}

/// Reads the arguments of `set`, which sets a field. None if they have another form.
#[tactic(auto, unfolding(pud_defs::specs::StateMachine::Grammar::set_by))]
fn read_set(mut arguments: Arguments) -> Option<Command>
    ensures { result ≡ set_by arguments.entry }
{
    let client = arguments.client()?;
    let name = arguments.name()?;
    let (s, f) = arguments.place()?;
    let x = arguments.value()?;
    arguments.end(Command::Set {
        client,
        name,
        s,
        f,
        x,
    })
}

/// Reads the arguments of `later`, which defers a value of a field. None if they have another form.
#[tactic(auto, unfolding(pud_defs::specs::StateMachine::Grammar::later_by))]
fn read_later(mut arguments: Arguments) -> Option<Command>
    ensures { result ≡ later_by arguments.entry }
{
    let client = arguments.client()?;
    let name = arguments.name()?;
    let (s, f) = arguments.place()?;
    let x = arguments.value()?;
    arguments.end(Command::Later {
        client,
        name,
        s,
        f,
        x,
    })
}

/// Reads the arguments of `root`, which sets the root. None if they have another form.
#[tactic(auto, unfolding(pud_defs::specs::StateMachine::Grammar::root_by))]
fn read_root(mut arguments: Arguments) -> Option<Command>
    ensures { result ≡ root_by arguments.entry }
{
    let client = arguments.client()?;
    let name = arguments.name()?;
    let s = arguments.object_or_null()?;
    arguments.end(Command::Root { client, name, s })
}

/// Reads the arguments of `free`, which frees an object. None if they have another form.
#[tactic(auto, unfolding(pud_defs::specs::StateMachine::Grammar::free_by))]
fn read_free(mut arguments: Arguments) -> Option<Command>
    ensures { result ≡ free_by arguments.entry }
{
    let client = arguments.client()?;
    let name = arguments.name()?;
    let s = arguments.object()?;
    arguments.end(Command::Free { client, name, s })
}

/// Reads the arguments of `get`, which reads a field. None if they have another form.
#[tactic(auto, unfolding(pud_defs::specs::StateMachine::Grammar::get_by))]
fn read_get(mut arguments: Arguments) -> Option<Command>
    ensures { result ≡ get_by arguments.entry }
{
    let client = arguments.client()?;
    let name = arguments.name()?;
    let (s, f) = arguments.place()?;
    arguments.end(Command::Get { client, name, s, f })
}

/// Reads the arguments of `dump`, which gives the text of a pool's graph. None if they have another form.
#[tactic(auto, unfolding(pud_defs::specs::StateMachine::Grammar::dump_by))]
fn read_dump(mut arguments: Arguments) -> Option<Command>
    ensures { result ≡ dump_by arguments.entry }
{
    let client = arguments.client()?;
    let name = arguments.name()?;
    arguments.end(Command::Dump { client, name })
}

/// Reads the arguments of `export`, which writes a pool into a file. None if they have another form.
#[tactic(auto, unfolding(pud_defs::specs::StateMachine::Grammar::export_by))]
fn read_export(mut arguments: Arguments) -> Option<Command>
    ensures { result ≡ export_by arguments.entry }
{
    let client = arguments.client()?;
    let name = arguments.name()?;
    let file = arguments.name()?;
    arguments.end(Command::Export { client, name, file })
}

/// Reads the arguments of `import`, which makes a pool from a file. None if they have another form.
#[tactic(auto, unfolding(pud_defs::specs::StateMachine::Grammar::import_by))]
fn read_import(mut arguments: Arguments) -> Option<Command>
    ensures { result ≡ import_by arguments.entry }
{
    let client = arguments.client()?;
    let name = arguments.name()?;
    let file = arguments.name()?;
    let mode = arguments.mode()?;
    arguments.end(Command::Import {
        client,
        name,
        file,
        mode,
    })
}

/// Reads the arguments of `rewrite`, which rewrites a pool's pointers. None if they have another form.
#[tactic(auto, unfolding(pud_defs::specs::StateMachine::Grammar::rewrite_by))]
fn read_rewrite(mut arguments: Arguments) -> Option<Command>
    ensures { result ≡ rewrite_by arguments.entry }
{
    let name = arguments.name()?;
    let n = arguments.steps()?;
    arguments.end(Command::Rewrite { name, n })
}

/// Reads the arguments of `pools`, which lists the pools. It has no arguments; None if there are any.
#[tactic(auto, unfolding(pud_defs::specs::StateMachine::Grammar::pools_by))]
fn read_pools(arguments: Arguments) -> Option<Command>
    ensures { result ≡ pools_by arguments.entry }
{
    arguments.end(Command::Pools)
}

/// Reads the arguments of `cut`, which loses power at once. None if they have another form.
#[tactic(auto, unfolding(pud_defs::specs::StateMachine::Grammar::cut_by))]
fn read_cut(mut arguments: Arguments) -> Option<Command>
    ensures { result ≡ cut_by arguments.entry }
{
    let pick = arguments.pick()?;
    arguments.end(Command::Cut { pick })
}

/// Reads the arguments of `arm`, which arms a power loss. None if they have another form.
#[tactic(auto, unfolding(pud_defs::specs::StateMachine::Grammar::arm_by))]
fn read_arm(mut arguments: Arguments) -> Option<Command>
    ensures { result ≡ arm_by arguments.entry }
{
    let step = arguments.step()?;
    let pick = arguments.pick()?;
    arguments.end(Command::Arm { step, pick })
}

/// Reads a command of a transaction from its word and its arguments. None if they are no such command.
fn read_in_transaction(word: &[u8], arguments: Arguments) -> Option<Command>
    ensures { result ≡ command_among transaction_lines word.now arguments.entry }
{
    if word == b"begin".as_slice() {
        read_begin(arguments)
    } else if word == b"commit".as_slice() {
        read_commit(arguments)
    } else if word == b"abort".as_slice() {
        read_abort(arguments)
    } else if word == b"new".as_slice() {
        read_new(arguments)
    } else if word == b"set".as_slice() {
        read_set(arguments)
    } else if word == b"later".as_slice() {
        read_later(arguments)
    } else if word == b"root".as_slice() {
        read_root(arguments)
    } else if word == b"free".as_slice() {
        read_free(arguments)
    } else {
        None
    }
}

/// Reads a command from its word and its arguments. None if they are no command.
#[tactic(auto, unfolding(pud_defs::specs::StateMachine::Grammar::command_with))]
fn read_with(word: &[u8], arguments: Arguments) -> Option<Command>
    ensures { result ≡ command_with word.now arguments.entry }
{
    if word == b"client".as_slice() {
        read_client(arguments)
    } else if word == b"leave".as_slice() {
        read_leave(arguments)
    } else if word == b"type".as_slice() {
        read_definition(arguments)
    } else if word == b"pool".as_slice() {
        read_pool(arguments)
    } else if word == b"chmod".as_slice() {
        read_chmod(arguments)
    } else if word == b"drop".as_slice() {
        read_drop(arguments)
    } else if word == b"get".as_slice() {
        read_get(arguments)
    } else if word == b"dump".as_slice() {
        read_dump(arguments)
    } else if word == b"export".as_slice() {
        read_export(arguments)
    } else if word == b"import".as_slice() {
        read_import(arguments)
    } else if word == b"rewrite".as_slice() {
        read_rewrite(arguments)
    } else if word == b"pools".as_slice() {
        read_pools(arguments)
    } else if word == b"cut".as_slice() {
        read_cut(arguments)
    } else if word == b"arm".as_slice() {
        read_arm(arguments)
    } else {
        read_in_transaction(word, arguments)
    }
}

/// Reads a line of any length as a command. None if it is no command.
fn read_command(line: &[u8]) -> Option<Command>
    ensures { result ≡ command_by (split_at 32 line.now) }
{
    let (word, rest) = cut(line, b' ');
    read_with(word, Arguments::after_word(rest))
}

/// Reads a line, without its newline, as a command. The line may have any length and any bytes. The result is `Bad`
/// exactly if the line is no command.
#[tactic(auto, unfolding(pud_defs::specs::StateMachine::Grammar::command_of))]
pub fn parse_line(line: &[u8]) -> Result<Command, Bad>
    ensures command { result_ok result ≡ command_of line.now }
    ensures legal { IfOk result IsLegalCommand }
{
    if line.len() > LINE_LIMIT {
        return Err(Bad);
    }
    read_command(line).ok_or(Bad)
}
