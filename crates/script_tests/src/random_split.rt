//! Tests of random lines of eight clients on seven pools, split by sets of pools. A set's own lines, run by
//! themselves, get the same replies as among all lines.
use crate::dice::lines_of;
use crate::lines::{Line, name};
use crate::machine::{Machine, Reply};
use crate::program::{EVERY_OTHER, Seen, run};
use crate::random::{device, first_machine, reading};
use crate::talk::Talk;
use puddle_cli::DONE;
use std::alloc::Global;
use std::process::Abort;

/// Sets of pools, by their names.
const SETS: [&str; 8] = ["a", "b", "d", "g", "ac", "bdf", "cdefg", ""];

/// The pool that the line names, if it names one.
fn pool_of(line: Line) -> Option<u8> {
    match line {
        Line::On(_, pool, _) | Line::Rewrite(pool, _) => Some(pool),
        _ => None,
    }
}

/// Whether the set has the pool.
fn has(set: &str, pool: u8) -> bool {
    set.contains(name(pool))
}

/// The words by which a line is refused because of a limit that pools share.
const LIMITS: [&str; 3] = ["space", "logs", "full"];

/// Whether the reply is such a refusal.
fn is_limit(reply: Reply) -> bool {
    match reply {
        Reply::No(word) => LIMITS.contains(&word),
        _ => false,
    }
}

/// The machine of all lines, and the machine of a set's own lines.
#[derive(Drop)]
struct Machines {
    all: Machine,
    own: Machine,
}

impl Machines {
    /// Takes the next line. If the line is one of the set's own, and does not meet a shared limit among all lines, it
    /// is added with the reply that it has to get. If it names a pool, that is its reply among all lines. For any
    /// other line, as for the list of the pools, it is the reply among the own lines, since the two may differ.
    /// Returns whether a line that was added names a pool of the set.
    fn go_on(
        &mut self,
        rt: &impl Abort,
        alloc: Global,
        talk: &mut Talk,
        set: &str,
        line: Line,
    ) -> bool {
        let among_all = self.all.step(rt, alloc, line);
        let pool = pool_of(line);
        if is_limit(among_all) || pool.is_some_and(|pool| !has(set, pool)) {
            return false;
        }
        let alone = self.own.step(rt, alloc, line);
        let text = line.text(alloc).expect(rt, "memory");
        let wanted = match pool {
            Some(_) => self.all.text(alloc, among_all),
            None => self.own.text(alloc, alone),
        };
        talk.add(rt, &text, &wanted.expect(rt, "memory"));
        pool.is_some()
    }
}

/// The set's own lines among those of a seed have to get the same replies as among all lines. After that and a power
/// loss, the set's pools are read in the same way. Returns how many of the lines named a pool of the set.
fn run_own(rt: &impl Abort, alloc: Global, seed: u64, set: &str) -> u32 {
    let mut lines = lines_of(rt, alloc, seed, (200, 8), false);
    lines.push(Line::Cut(EVERY_OTHER)).expect(rt, "memory");
    let mut machines = Machines {
        all: first_machine(rt, alloc),
        own: first_machine(rt, alloc),
    };
    let mut talk = Talk::new(rt, alloc);
    let mut named = 0u32;
    for line in &lines {
        if machines.go_on(rt, alloc, &mut talk, set, *line) {
            named = named.saturating_add(1);
        }
    }
    let read = reading(rt, alloc, [&machines.all, &machines.own]);
    for line in &read {
        machines.go_on(rt, alloc, &mut talk, set, *line);
    }
    let mut host = device(rt, alloc, (65_536, 32_768), &talk.script);
    assert!(rt; run(alloc, &mut host) == Some(DONE));
    assert!(rt; host.heard() == talk.said.as_bytes(), "{seed}");
    named
}

#[test]
fn own_lines_alone_are_replied_to_as_they_are_among_all(rt: HostRuntime) {
    for set in SETS {
        let mut named = 0u32;
        for seed in 1..4 {
            named = named.saturating_add(run_own(&rt, rt.alloc(), seed * 9_001, set));
        }
        assert!(&rt; (named > 40) == !set.is_empty(), "{named}");
    }
}
