//! What a line asks for, and what it is answered.

ghost use Rattle.std.specs.Prelude.{◌≡◌};
ghost use Rattle.pud_defs.specs.StateMachine.Step.Answer.{of_reply};
ghost use Rattle.pud_defs.specs.Output.Texts.{begins_with_ok};

use crate::objects::FieldValue;
use crate::records::Name;

/// What a line asks for.
#[derive(Clone, Copy, Debug, PartialEq, Eq)]
pub enum Command {
    /// `client C uid gid`: registers the client, 0 to 7. It acts as this user and this group, each 0 to 65,535.
    Client {
        client: u8,
        uid: u32,
        gid: u32,
    },
    /// `leave C`: removes the client, 0 to 7.
    Leave {
        client: u8,
    },
    /// `type T n list`: defines the type `t`, with the fields and pointers of the map word `map`.
    Define {
        t: u32,
        map: u64,
    },
    /// `pool C P mode`: the client, 0 to 7, makes the pool of this name with this mode.
    Pool {
        client: u8,
        name: Name,
        mode: u32,
    },
    /// `chmod C P mode`: the client, 0 to 7, gives the pool of this name this mode.
    Chmod {
        client: u8,
        name: Name,
        mode: u32,
    },
    /// `drop C P`: the client, 0 to 7, drops the pool of this name and its puddles.
    Drop {
        client: u8,
        name: Name,
    },
    /// `get C P o.f`: the client, 0 to 7, reads field `f`, 0 to 29, of the object with serial `s`, at least 1, in the
    /// pool of this name.
    Get {
        client: u8,
        name: Name,
        s: u64,
        f: u32,
    },
    /// `begin C P`: the client, 0 to 7, begins a transaction on the pool of this name, or makes its own one deeper.
    Begin {
        client: u8,
        name: Name,
    },
    /// `commit C P`: the client, 0 to 7, makes its transaction on the pool of this name one less deep. At depth 1 the
    /// transaction ends, and what it changed stays.
    Commit {
        client: u8,
        name: Name,
    },
    /// `abort C P`: the client, 0 to 7, undoes its transaction on the pool of this name, whatever its depth, and ends
    /// it.
    Abort {
        client: u8,
        name: Name,
    },
    /// `new C P T`: the client, 0 to 7, makes an object of type `t`, 1 to 65,535, in its transaction on the pool of
    /// this name. All its fields are 0 or null.
    New {
        client: u8,
        name: Name,
        t: u32,
    },
    /// `set C P o.f x`: the client, 0 to 7, gives the value `x` to field `f`, 0 to 29, of the object with serial `s`,
    /// at least 1, in its transaction on the pool of this name.
    Set {
        client: u8,
        name: Name,
        s: u64,
        f: u32,
        x: FieldValue,
    },
    /// `later C P o.f x`: the client, 0 to 7, defers a value in its transaction on the pool of this name. The commit
    /// that ends the transaction gives the value `x` to field `f`, 0 to 29, of the object with serial `s`, at least 1.
    /// It does so after all that was set in the transaction, and after all that was deferred before.
    Later {
        client: u8,
        name: Name,
        s: u64,
        f: u32,
        x: FieldValue,
    },
    /// `root C P o`: the client, 0 to 7, makes the object with serial `s` the root of the pool of this name, in its
    /// transaction. If `s` is 0 the pool then has no root.
    Root {
        client: u8,
        name: Name,
        s: u64,
    },
    /// `free C P o`: the client, 0 to 7, frees the object with serial `s`, at least 1, in its transaction on the pool
    /// of this name.
    Free {
        client: u8,
        name: Name,
        s: u64,
    },
    /// `dump C P`: the client, 0 to 7, reads the graph of the pool of this name as the text of a JSON object.
    Dump {
        client: u8,
        name: Name,
    },
    /// `export C P file`: the client, 0 to 7, writes the pool `name` into the export file `file` on the shelf.
    Export {
        client: u8,
        name: Name,
        file: Name,
    },
    /// `import C P file mode`: the client, 0 to 7, makes the pool `name` with this mode from the export file `file` on
    /// the shelf.
    Import {
        client: u8,
        name: Name,
        file: Name,
        mode: u32,
    },
    /// `rewrite P n`: does the next `n` rewriting steps of the pool of this name, 1 to 3,984, or all that are left.
    Rewrite {
        name: Name,
        n: u32,
    },
    /// `pools`: lists the pools.
    Pools,
    /// `cut N`: power is lost at once. `pick` chooses what is left of words that are not durable.
    Cut {
        pick: u64,
    },
    /// `arm K N`: power is lost with this pick in device step `step` from now on, 1 to 1,000,000.
    Arm {
        step: u32,
        pick: u64,
    },
}

/// The answer to a line, unless it is a text that the line asks for.
#[derive(Clone, Copy, Debug, PartialEq, Eq)]
pub enum Reply {
    /// The line was carried out.
    Ok,
    /// The line was carried out. This is the number that it asks for.
    Num(u64),
    /// The line was carried out. This is the serial of the object that it made or asks for; 0 is null.
    Ref(u64),
    /// The line was refused, and nothing changed.
    No(Refusal),
    /// Power was lost while the line was carried out, and the daemon started again. The world is the one before the
    /// line or the one that the line gives, with no client present and no transaction open. Rewriting steps do not show
    /// in the world: of those that the line does, none, some or all may be done.
    Cut,
}

impl Reply {
    /// Whether the line was carried out: the text of the reply begins with `ok`.
    #[tactic(auto, unfolding(crate::specs::Output::Texts::reply_text))]
    pub fn is_ok(self) -> bool
        ensures { result ≡ begins_with_ok (of_reply self) }
    {
        match self {
            Reply::Ok | Reply::Num(_) | Reply::Ref(_) => true,
            Reply::No(_) | Reply::Cut => false,
        }
    }
}

/// Why a line is refused. Each command may be refused for some of these reasons. They are tested in this order, and the
/// first that holds is the answer.
#[derive(Clone, Copy, Debug, PartialEq, Eq)]
pub enum Refusal {
    /// The line is no command.
    Bad,
    /// The client is not present.
    Client,
    /// The client is present.
    Taken,
    /// There is no pool of this name.
    Pool,
    /// There is a pool of this name.
    Exists,
    /// What is stored of the pool is no graph.
    Wild,
    /// The pool's mode does not let the client read it, or, for `begin`, write it. Or, for `chmod` and `drop`, the
    /// client's user is not the pool's owner.
    Denied,
    /// Another client has a transaction open on the pool.
    Busy,
    /// The client itself has a transaction open on the pool.
    OpenHere,
    /// The client has no transaction open on the pool.
    Tx,
    /// The type is not defined.
    NoType,
    /// The pool has no object with this serial, or none with the serial that is to be the value or the root.
    Object,
    /// The object's type has no such field.
    Field,
    /// The value is a number and the field is a pointer, or the other way round.
    Kind,
    /// The object is referenced: by the root, by a field of an object, itself included, or by a deferred value that is
    /// for one of its fields or names it.
    Held,
    /// The client's transaction on the pool has the depth 16.
    Deep,
    /// The client has no transaction open on the pool, and four on other pools.
    Logs,
    /// The client's transaction has too few units left.
    TooBig,
    /// The shelf has no file of this name.
    File,
    /// The line needs memory, and an allocation failed.
    Memory,
    /// The file is no export file.
    BadFile,
    /// The type, or one of the file's types, is defined with another map.
    Clash,
    /// The tables or the pool have no room for what the line adds, or too few UUID numbers or serials are left.
    Full,
    /// Too few frames are free.
    Space,
}
