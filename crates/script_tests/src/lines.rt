//! The lines of random scripts, as the model reads them.
use std::alloc::{AllocError, Global};

/// A client's user id and group id.
#[derive(Clone, Copy)]
pub struct Owner {
    pub uid: u8,
    pub gid: u8,
}

/// A value of a field.
#[derive(Clone, Copy)]
pub enum Value {
    Number(u64),
    Object(u64),
}

/// What a client asks about a pool.
#[derive(Clone, Copy)]
pub enum Ask {
    /// The mode, in the digits that the line has.
    Make(u16),
    Change(u16),
    Drop,
    /// The serial of the object, and the field.
    Get(u64, u8),
    Begin,
    Commit,
    Abort,
    /// The type of the object.
    New(u8),
    Set(u64, u8, Value),
    Later(u64, u8, Value),
    Root(u64),
    Free(u64),
    /// Writes the file `x`.
    Export,
    /// The name of the file, and the mode of the pool.
    Import(char, u16),
}

/// A line of a script.
#[derive(Clone, Copy)]
pub enum Line {
    /// A line that is no command.
    Bad,
    Come(u8, Owner),
    Leave(u8),
    /// Defines a type, by one of its two maps.
    Define(u8, bool),
    List,
    /// Rewrites a pool, by so many steps.
    Rewrite(u8, u16),
    Cut(u64),
    /// What a client asks about a pool.
    On(u8, u8, Ask),
}

/// How many fields an object may have.
pub const MOST_FIELDS: u8 = 8;

/// The class of a puddle.
#[derive(Clone, Copy)]
pub enum Class {
    Large,
    Small,
}

/// The class of the puddles in which objects with so many fields are made.
fn class_for(fields: u8) -> Class {
    if fields <= 6 {
        Class::Small
    } else {
        Class::Large
    }
}

/// A pool of one puddle that is there at first: the uid of its owner, which is the gid too; how many objects it has,
/// each of type 1; and the class of its puddle.
pub type First = (u8, u8, Class);

/// The fields of a type.
#[derive(Clone, Copy)]
pub struct Kind {
    fields: u8,
    pointers: [bool; MOST_FIELDS as usize],
}

impl Kind {
    /// The class of the puddles in which objects of the type are made.
    pub fn class(self) -> Class {
        class_for(self.fields)
    }

    /// Whether the field of this number is a pointer. None if there is no such field.
    pub fn pointer(self, f: u8) -> Option<bool> {
        if f < self.fields {
            return self.pointers.get(usize::from(f)).copied();
        }
        None
    }
}

/// A field that is a pointer, and one that is none.
const P: bool = true;

const N: bool = false;

/// The two maps of each type. Of each map: its text, the number of fields, and which fields are pointers.
const KINDS: [[(&str, u8, [bool; MOST_FIELDS as usize]); 2]; 4] = [
    [
        ("2 1", 2, [N, P, N, N, N, N, N, N]),
        ("2 0", 2, [P, N, N, N, N, N, N, N]),
    ],
    [
        ("7 -", 7, [N, N, N, N, N, N, N, N]),
        ("1 0", 1, [P, N, N, N, N, N, N, N]),
    ],
    [
        ("8 0,7", 8, [P, N, N, N, N, N, N, P]),
        ("3 -", 3, [N, N, N, N, N, N, N, N]),
    ],
    [
        ("6 0,1", 6, [P, P, N, N, N, N, N, N]),
        ("7 1", 7, [N, P, N, N, N, N, N, N]),
    ],
];

/// The first or the second map of a type.
fn map_of(kind: u8, is_second: bool) -> (&'static str, u8, [bool; MOST_FIELDS as usize]) {
    let [first, second] = KINDS[usize::from(kind % 4)];
    if is_second { second } else { first }
}

/// The fields of a type, by its first or its second map.
pub fn kind_of(kind: u8, is_second: bool) -> Kind {
    let (_, fields, pointers) = map_of(kind, is_second);
    Kind { fields, pointers }
}

/// The name of a pool, a letter.
pub fn name(pool: u8) -> char {
    char::from(b'a' + pool % 26)
}

impl Value {
    fn text(self, alloc: Global) -> Result<String, AllocError> {
        match self {
            Value::Number(number) => format!(in alloc; "{number}"),
            Value::Object(serial) => format!(in alloc; "@{serial}"),
        }
    }
}

impl Ask {
    fn text(self, alloc: Global, c: u8, p: char) -> Result<String, AllocError> {
        match self {
            Ask::Make(mode) => format!(in alloc; "pool {c} {p} {mode:03}\n"),
            Ask::Change(mode) => format!(in alloc; "chmod {c} {p} {mode:03}\n"),
            Ask::Drop => format!(in alloc; "drop {c} {p}\n"),
            Ask::Get(s, f) => format!(in alloc; "get {c} {p} {s}.{f}\n"),
            Ask::Begin => format!(in alloc; "begin {c} {p}\n"),
            Ask::Commit => format!(in alloc; "commit {c} {p}\n"),
            Ask::Abort => format!(in alloc; "abort {c} {p}\n"),
            Ask::New(t) => format!(in alloc; "new {c} {p} {}\n", u32::from(t) + 1),
            Ask::Set(s, f, x) => {
                let x = x.text(alloc)?;
                format!(in alloc; "set {c} {p} {s}.{f} {x}\n")
            }
            Ask::Later(s, f, x) => {
                let x = x.text(alloc)?;
                format!(in alloc; "later {c} {p} {s}.{f} {x}\n")
            }
            Ask::Root(s) => format!(in alloc; "root {c} {p} {s}\n"),
            Ask::Free(s) => format!(in alloc; "free {c} {p} {s}\n"),
            Ask::Export => format!(in alloc; "export {c} {p} x\n"),
            Ask::Import(file, mode) => format!(in alloc; "import {c} {p} {file} {mode:03}\n"),
        }
    }
}

impl Line {
    /// The text of the line, with its newline.
    pub fn text(self, alloc: Global) -> Result<String, AllocError> {
        match self {
            Line::Bad => String::from_str(alloc, "set 0 a 1.0 01\n"),
            Line::Come(c, who) => format!(in alloc; "client {c} {} {}\n", who.uid, who.gid),
            Line::Leave(c) => format!(in alloc; "leave {c}\n"),
            Line::Define(t, is_second) => {
                let (fields, _, _) = map_of(t, is_second);
                format!(in alloc; "type {} {fields}\n", u32::from(t) + 1)
            }
            Line::List => String::from_str(alloc, "pools\n"),
            Line::Rewrite(pool, n) => format!(in alloc; "rewrite {} {n}\n", name(pool)),
            Line::Cut(pick) => format!(in alloc; "cut {pick}\n"),
            Line::On(c, pool, ask) => ask.text(alloc, c, name(pool)),
        }
    }
}
