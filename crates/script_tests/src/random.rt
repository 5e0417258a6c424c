//! Tests of random lines of eight clients on seven pools, compared with the model.
use crate::dice::lines_of;
use crate::lines::{Ask, Class, First, Line, MOST_FIELDS, Owner};
use crate::machine::{Machine, Reply};
use crate::pokes::{Pools, device_with};
use crate::program::{EVERY_OTHER, Seen, run};
use crate::talk::Talk;
use pm_mem::{MemHost, Plan};
use puddle_cli::DONE;
use std::alloc::Global;
use std::process::Abort;
use test_device::poke;

/// How many frames the device has. Four of them are free at first.
const FRAMES: u8 = 10;

/// The pools that are there at first. In each of the first two there is room for two objects more of its class. Half
/// of the pools have their objects, which have two fields, in a large puddle.
const POOLS: [First; 6] = [
    (5, 246, Class::Small),
    (6, 60, Class::Large),
    (7, 4, Class::Small),
    (5, 2, Class::Large),
    (6, 1, Class::Small),
    (5, 1, Class::Large),
];

/// The pointer of the last pool's object. It leads into the middle of that object.
const WILD: (u32, u64) = (44_691, 0x1000_0001_4208);

/// Words that make the first object of the first pool its root and let it name the second. They do so for a pool that
/// moved and of which only the root is rewritten: the old base, the frontier and the class, the root over the base, and
/// the pointer over the old base.
const MOVED: [(u32, u64); 4] = [
    (1_539, 0x1000_0020_0000),
    (1_540, 0x1_0000_0001),
    (34_388, 0x1000_0000_0200),
    (34_451, 0x1000_0020_0240),
];

/// The content of the file `y` on the shelf, which is no export file.
const OTHER_FILE: &[u8] = b"no export file";

/// A device with these pools, with room for so many device steps and printed bytes. Every client may read and write
/// the pools. There is room for two more types.
pub fn device(rt: &impl Abort, alloc: Global, room: (u32, u32), script: &str) -> MemHost {
    let pools = Pools {
        frames: FRAMES,
        pools: &POOLS,
        room,
    };
    let mut host = device_with(rt, alloc, pools, script, Plan::none(alloc));
    assert!(rt; poke(&mut host, &[WILD]));
    assert!(rt; poke(&mut host, &MOVED));
    for pool in 0..6u32 {
        assert!(rt; poke(&mut host, &[(1_219 + 8 * pool, 0o666)]));
    }
    for record in 3..64u32 {
        let words = [
            (1_088 + 2 * record, 1_000 + u64::from(record)),
            (1_089 + 2 * record, 0x1_0000_0000),
        ];
        assert!(rt; poke(&mut host, &words));
    }
    host.put_shelf(alloc, "y", OTHER_FILE).expect(rt, "memory");
    host
}

/// The model of that device.
pub fn first_machine(rt: &impl Abort, alloc: Global) -> Machine {
    Machine::new(rt, alloc, FRAMES, &POOLS)
}

/// The words by which lines are refused.
const REFUSED: [&str; 23] = [
    "bad", "client", "taken", "pool", "exists", "wild", "denied", "busy", "open", "tx", "type",
    "object", "field", "kind", "held", "deep", "logs", "toobig", "file", "badfile", "clash",
    "full", "space",
];

/// The place among those words, if the reply is a refusal. Any other reply to the line has a place after them.
fn place_of(line: Line, reply: Reply) -> usize {
    match (reply, line) {
        (Reply::No(word), _) => REFUSED
            .iter()
            .position(|known| *known == word)
            .unwrap_or(99),
        (Reply::Number(_), _) => 23,
        (Reply::Object(_), _) => 24,
        (Reply::List, _) => 25,
        (Reply::Done, Line::On(_, _, Ask::Later(_, _, _))) => 26,
        (Reply::Done, Line::On(_, _, Ask::Root(_))) => 27,
        (Reply::Done, Line::On(_, _, Ask::Free(_))) => 28,
        (Reply::Done, Line::Rewrite(_, _)) => 29,
        (Reply::Done, Line::On(_, _, Ask::Export)) => 30,
        (Reply::Done, Line::On(_, _, Ask::Import(_, _))) => 31,
        (Reply::New(_, Class::Large, false), _) => 32,
        (Reply::New(_, Class::Small, false), _) => 33,
        (Reply::New(_, Class::Large, true), _) => 34,
        (Reply::New(_, Class::Small, true), _) => 35,
        (Reply::Done, _) => 36,
    }
}

/// How often each reply came.
pub type Counts = [u32; 37];

/// The machine takes these lines next. They and its replies are added to the talk, and the replies are counted.
pub fn go_on(
    rt: &impl Abort,
    alloc: Global,
    (machine, talk): (&mut Machine, &mut Talk),
    lines: &[Line],
    counts: &mut Counts,
) {
    for line in lines {
        let reply = machine.step(rt, alloc, *line);
        let text = line.text(alloc).expect(rt, "memory");
        let answer = machine.text(alloc, reply).expect(rt, "memory");
        talk.add(rt, &text, &answer);
        if let Some(count) = counts.get_mut(place_of(*line, reply)) {
            *count = count.saturating_add(1);
        }
    }
}

/// Adds what the client of the owner's uid asks about a pool: each field of the first objects, of the last ones and of
/// one beyond them, and then which of the first are referenced.
fn read_pool(rt: &impl Abort, lines: &mut Vec<Line>, at: u8, uid: u8, objects: u64) {
    let client = uid.saturating_sub(5);
    for number in 1..10u64 {
        let last = objects.saturating_add(number).saturating_sub(8);
        let serial = if number < 5 { number } else { last.max(1) };
        for f in 0..MOST_FIELDS {
            let line = Line::On(client, at, Ask::Get(serial, f));
            lines.push(line).expect(rt, "memory");
        }
    }
    for ask in [
        Ask::Begin,
        Ask::Free(1),
        Ask::Free(2),
        Ask::Free(3),
        Ask::Free(4),
        Ask::Abort,
    ] {
        lines.push(Line::On(client, at, ask)).expect(rt, "memory");
    }
}

/// The lines that read either of these machines. A client of each uid comes and reads the pools of that uid.
pub fn reading(rt: &impl Abort, alloc: Global, machines: [&Machine; 2]) -> Vec<Line> {
    let mut lines = Vec::new(alloc);
    for client in 0..3u8 {
        let who = Owner {
            uid: 5 + client,
            gid: 5,
        };
        lines.push(Line::Come(client, who)).expect(rt, "memory");
    }
    lines.push(Line::List).expect(rt, "memory");
    let [one, other] = machines;
    for at in 0..7 {
        if let Some(pool) = one.pool(at).or(other.pool(at)) {
            read_pool(rt, &mut lines, at, pool.owner().uid, pool.objects());
        }
    }
    lines
}

/// The lines of a seed have to get the model's replies. After that and a power loss, all pools are read in the same
/// way.
fn run_seed(rt: &impl Abort, alloc: Global, seed: u64, counts: &mut Counts) {
    let mut lines = lines_of(rt, alloc, seed, (400, 100), true);
    lines.push(Line::Cut(EVERY_OTHER)).expect(rt, "memory");
    let mut machine = first_machine(rt, alloc);
    let mut talk = Talk::new(rt, alloc);
    go_on(rt, alloc, (&mut machine, &mut talk), &lines, counts);
    let read = reading(rt, alloc, [&machine, &machine]);
    go_on(rt, alloc, (&mut machine, &mut talk), &read, counts);
    let mut host = device(rt, alloc, (65_536, 32_768), &talk.script);
    assert!(rt; run(alloc, &mut host) == Some(DONE));
    assert!(rt; host.heard() == talk.said.as_bytes(), "{seed}");
}

#[test]
fn lines_that_come_by_chance_are_replied_to_as_the_model_has_it(rt: HostRuntime) {
    let mut counts: Counts = [0; 37];
    for seed in 5..13 {
        run_seed(&rt, rt.alloc(), seed * 8_009, &mut counts);
    }
    for (place, count) in counts.iter().enumerate() {
        assert!(&rt; *count > 0, "{place}: {counts:?}");
    }
}
