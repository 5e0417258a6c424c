//! Random lines, made from a seed.
use crate::lines::{Ask, Line, MOST_FIELDS, Owner, Value};
use std::alloc::Global;
use std::process::Abort;

/// The modes of pools. By each of them the owner may read the pool.
const MODES: [u16; 8] = [666, 666, 600, 660, 606, 646, 404, 426];

/// The source of random numbers. Each number is the one before it times a constant, modulo a prime.
#[derive(Drop)]
struct Dice {
    now: u64,
    /// The client that asks, the pool that it asks about, and how many of its lines are left.
    client: u8,
    pool: u8,
    left: u8,
    /// Whether pools are exported and files imported.
    has_files: bool,
}

impl Dice {
    /// A random number below `below`.
    fn roll(&mut self, below: u8) -> u8 {
        self.now = self.now % 2_147_483_647 * 48_271 % 2_147_483_647;
        (self.now / 8 % u64::from(below.max(1))) as u8
    }

    fn owner(&mut self) -> Owner {
        Owner {
            uid: 5 + self.roll(3) % 3,
            gid: 5 + self.roll(2) % 2,
        }
    }

    fn mode(&mut self) -> u16 {
        let at = usize::from(self.roll(8));
        MODES.get(at).copied().unwrap_or(600)
    }

    fn serial(&mut self) -> u64 {
        let most = 1 + self.roll(4) % 4;
        1 + u64::from(self.roll(most))
    }

    /// A value for the field of this number. For field 1 it is mostly a pointer, for any other field mostly a number.
    fn value(&mut self, f: u8) -> Value {
        if (f == 1) != (self.roll(4) > 0) {
            return Value::Number(u64::from(self.roll(100)));
        }
        let most = 2 + self.roll(4) % 4;
        Value::Object(u64::from(self.roll(most)))
    }

    /// The number of a field: mostly one of the first three, at times any, or one beyond all.
    fn number(&mut self) -> u8 {
        match self.roll(8) {
            0 => self.roll(MOST_FIELDS + 1),
            _ => self.roll(3),
        }
    }

    /// A field of an object, and a value for it.
    fn field(&mut self) -> (u64, u8, Value) {
        let serial = self.serial();
        let f = self.number();
        (serial, f, self.value(f))
    }

    /// An import. Mostly it is of the file that exports write, else of a file that is no export file, or of a file
    /// that is not there.
    fn import(&mut self) -> Ask {
        let file = match self.roll(8) {
            0 => 'y',
            1 => 'z',
            _ => 'x',
        };
        Ask::Import(file, self.mode())
    }

    fn ask(&mut self) -> Ask {
        match self.roll(48) {
            0..=1 => Ask::Make(self.mode()),
            2 => Ask::Change(self.mode()),
            3 if self.roll(2) == 0 => Ask::Drop,
            3..=8 => Ask::Get(self.serial(), self.number()),
            9 => Ask::Begin,
            10 => Ask::Commit,
            11 => Ask::Abort,
            12..=20 => Ask::New(self.roll(4)),
            21..=30 => {
                let (serial, f, x) = self.field();
                Ask::Set(serial, f, x)
            }
            31..=38 => {
                let (serial, f, x) = self.field();
                Ask::Later(serial, f, x)
            }
            39..=41 => Ask::Root(self.serial().saturating_sub(1)),
            _ => Ask::Free(1 + u64::from(self.roll(5))),
        }
    }

    /// The next line of a client on a pool. The client begins, asks a number of times, and mostly commits.
    fn ask_on(&mut self) -> Line {
        let left = self.left;
        let ask = match left {
            0 => {
                self.client = self.roll(8);
                self.pool = self.roll(7);
                self.left = 2 + self.roll(14) % 14;
                Ask::Begin
            }
            1 => match self.roll(8) {
                0 => self.ask(),
                1 => Ask::Abort,
                _ => Ask::Commit,
            },
            _ => self.ask(),
        };
        self.left = self.left.saturating_sub(1);
        Line::On(self.client, self.pool, ask)
    }

    fn line(&mut self) -> Line {
        match self.roll(64) {
            0 => Line::Bad,
            1 => Line::Leave(self.roll(8)),
            2 => Line::List,
            3..=5 => Line::Come(self.roll(8), self.owner()),
            6 => Line::Come(self.client, self.owner()),
            7..=9 => Line::Define(self.roll(4), self.roll(4) == 0),
            10 if self.roll(4) == 0 => Line::Cut(u64::from(self.roll(2))),
            11..=12 => Line::Rewrite(self.roll(7), 1 + u16::from(self.roll(16))),
            13..=14 if self.has_files => Line::On(self.roll(8), self.roll(7), Ask::Export),
            15..=17 if self.has_files => { Line::On(self.roll(8), self.roll(7), self.import()) }
            _ => self.ask_on(),
        }
    }

    /// How often the line comes. One in sixteen of the lines that begin or make an object comes a random number of
    /// times below `most`. Any other line comes once.
    fn times(&mut self, line: Line, most: u8) -> u8 {
        match line {
            Line::On(_, _, Ask::Begin | Ask::New(_)) if self.roll(16) == 0 => self.roll(most),
            _ => 1,
        }
    }
}

/// Adds a line for each client by which it comes.
fn come(rt: &impl Abort, dice: &mut Dice, lines: &mut Vec<Line>) {
    for client in 0..8 {
        let line = Line::Come(client, dice.owner());
        lines.push(line).expect(rt, "memory");
    }
}

/// Adds lines by which the client begins on each pool.
fn begin_all(rt: &impl Abort, client: u8, lines: &mut Vec<Line>) {
    for pool in 0..7 {
        let line = Line::On(client, pool, Ask::Begin);
        lines.push(line).expect(rt, "memory");
    }
}

/// Makes `count` lines from this seed, or a few more. All clients come first, and again after each power loss. Some
/// lines come several times, fewer than `most`. After a line that is no command, a client begins on all pools. Lines
/// about files are among them if `has_files`.
pub fn lines_of(
    rt: &impl Abort,
    alloc: Global,
    seed: u64,
    (count, most): (usize, u8),
    has_files: bool,
) -> Vec<Line> {
    let mut dice = Dice {
        now: seed,
        client: 0,
        pool: 0,
        left: 0,
        has_files,
    };
    let mut lines = Vec::new(alloc);
    come(rt, &mut dice, &mut lines);
    for _ in 0..count {
        let line = dice.line();
        for _ in 0..dice.times(line, most) {
            lines.push(line).expect(rt, "memory");
        }
        match line {
            Line::Cut(_) => come(rt, &mut dice, &mut lines),
            Line::Bad => begin_all(rt, dice.client, &mut lines),
            _ => {}
        }
    }
    lines
}
