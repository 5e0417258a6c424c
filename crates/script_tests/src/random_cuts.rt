//! Tests of a line that is cut off at its device steps, after other random lines, compared with the model.
use crate::dice::lines_of;
use crate::lines::{Ask, Line};
use crate::machine::{Machine, Reply};
use crate::program::{EVERY_OTHER, NEWEST, OLDEST, Seen, run};
use crate::random::{Counts, device, first_machine, go_on, reading};
use crate::talk::Talk;
use puddle_cli::DONE;
use std::alloc::Global;
use std::process::Abort;

/// The kinds of lines that are cut off.
const KINDS: usize = 14;

/// The place of the line among these kinds, or a larger number.
fn kind_of(line: Line) -> usize {
    match line {
        Line::Come(_, _) => 0,
        Line::Leave(_) => 1,
        Line::On(_, _, Ask::Begin) => 2,
        Line::On(_, _, Ask::Abort) => 3,
        Line::On(_, _, Ask::New(_)) => 4,
        Line::On(_, _, Ask::Set(_, _, _)) => 5,
        Line::On(_, _, Ask::Later(_, _, _)) => 6,
        Line::On(_, _, Ask::Root(_)) => 7,
        Line::On(_, _, Ask::Free(_)) => 8,
        Line::On(_, _, Ask::Commit) => 9,
        Line::Define(_, _) => 10,
        Line::On(_, _, Ask::Make(_)) => 11,
        Line::On(_, _, Ask::Change(_)) => 12,
        Line::On(_, _, Ask::Drop) => 13,
        _ => KINDS,
    }
}

/// The machine after these lines, and the talk about them.
fn machine_after(rt: &impl Abort, alloc: Global, lines: &[Line]) -> (Machine, Talk) {
    let mut machine = first_machine(rt, alloc);
    let mut talk = Talk::new(rt, alloc);
    let mut counts: Counts = [0; 37];
    go_on(rt, alloc, (&mut machine, &mut talk), lines, &mut counts);
    (machine, talk)
}

/// The talk about these lines, by the machine that was left.
fn said_by(rt: &impl Abort, alloc: Global, machine: &mut Machine, lines: &[Line]) -> Talk {
    let mut talk = Talk {
        script: String::new(alloc),
        said: String::new(alloc),
    };
    let mut counts: Counts = [0; 37];
    go_on(rt, alloc, (machine, &mut talk), lines, &mut counts);
    talk
}

/// A line that is cut off. `before` has the lines before it. `rest` has the line and those that read what is left;
/// for a type, another line then defines it also by its other map. `said_before` is what is printed for the lines
/// before. `said` is what is printed for the line and for what is read: if a cut leaves the world before the line, if
/// a cut leaves the world after it, and if the line is not cut off.
#[derive(Drop)]
struct Tried {
    before: String,
    rest: String,
    said_before: String,
    said: [String; 3],
}

/// The line of this number, ready to be cut off.
fn make_tried(rt: &impl Abort, alloc: Global, lines: &[Line], at: usize) -> Tried {
    let next = at.saturating_add(1);
    let before = lines.get(..at).unwrap_or(&[]);
    let through = lines.get(..next).unwrap_or(&[]);
    let line = lines.get(at..next).unwrap_or(&[]);
    let (mut old, talk) = machine_after(rt, alloc, before);
    let (mut new, _) = machine_after(rt, alloc, through);
    let (mut whole, _) = machine_after(rt, alloc, before);
    old.restart();
    new.restart();
    let mut read = reading(rt, alloc, [&old, &new]);
    if let [Line::Define(kind, is_second)] = line {
        let other = Line::Define(*kind, !*is_second);
        read.push(other).expect(rt, "memory");
    }
    let replied = said_by(rt, alloc, &mut whole, line);
    let old = said_by(rt, alloc, &mut old, &read);
    let new = said_by(rt, alloc, &mut new, &read);
    let whole = said_by(rt, alloc, &mut whole, &read);
    let script = replied.script;
    let reply = replied.said;
    let read = whole.script;
    let said = [
        format!(in alloc; "ok\ncut\nok\n{}", old.said).expect(rt, "memory"),
        format!(in alloc; "ok\ncut\nok\n{}", new.said).expect(rt, "memory"),
        format!(in alloc; "ok\n{reply}ok\n{}", whole.said).expect(rt, "memory"),
    ];
    Tried {
        before: talk.script,
        rest: format!(in alloc; "{script}arm 1000000 0\n{read}").expect(rt, "memory"),
        said_before: talk.said,
        said,
    }
}

/// The number of the text that is printed if the line is cut off at this step of it.
fn case_at(rt: &impl Abort, alloc: Global, tried: &Tried, step: u32, pick: u64) -> usize {
    let (before, rest) = (&tried.before, &tried.rest);
    let script = format!(in alloc; "{before}arm {step} {pick}\n{rest}");
    let script = script.expect(rt, "memory");
    let mut host = device(rt, alloc, (16_384, 8_192), &script);
    assert!(rt; run(alloc, &mut host) == Some(DONE));
    let said = host.heard().strip_prefix(tried.said_before.as_bytes());
    for (case, text) in tried.said.iter().enumerate() {
        if said == Some(text.as_bytes()) {
            return case;
        }
    }
    assert!(rt; false, "none of them is said: {pick}, {step}");
    0
}

/// Cuts the line off at steps of it: at each of the first ones, then at some of those that write a frame or rewrite a
/// puddle. Counts the steps of each case. Once a step leaves the world after the line, later steps do too.
fn cut_off(rt: &impl Abort, alloc: Global, tried: &Tried, pick: u64, counts: &mut [u32; 3]) {
    let mut last = 0usize;
    for step in 1..2_500u32 {
        if last < 2 && (step < 40 || step % 100 == 1 || step > 2_315) {
            let case = case_at(rt, alloc, tried, step, pick);
            assert!(rt; last <= case, "{pick}, {step}");
            last = case;
            if let Some(count) = counts.get_mut(case) {
                *count = count.saturating_add(1);
            }
        }
    }
    assert!(rt; last == 2);
}

/// Whether the line defines a type that the machine has. Such a line changes nothing.
fn is_known(machine: &Machine, line: Line) -> bool {
    match line {
        Line::Define(kind, _) => machine.map(kind).is_some(),
        _ => false,
    }
}

/// The number of the last line of each kind that is not refused and changes something, and whether a pool grew by it.
/// None if a kind has no such line.
fn last_lines(rt: &impl Abort, alloc: Global, lines: &[Line]) -> [Option<(usize, bool)>; KINDS] {
    let mut last = [None; KINDS];
    let mut machine = first_machine(rt, alloc);
    for (at, line) in lines.iter().enumerate() {
        let is_known = is_known(&machine, *line);
        let reply = machine.step(rt, alloc, *line);
        if let Some(place) = last.get_mut(kind_of(*line))
            && matches!(reply, Reply::Done | Reply::New(_, _, _))
            && !is_known
        {
            *place = Some((at, matches!(reply, Reply::New(_, _, true))));
        }
    }
    last
}

/// Cuts off, by this pick, the last line of each kind among those of a seed, after the lines before it. What a
/// transaction did is then gone, and the clients are gone; but a pool that grew for a new object keeps its puddle. Any
/// other line was done or not, and both cases come. But that a type is there is durable only with the last step. The
/// seeds are such that each kind is there, and that one of the lines is the first use of the pool that moved. By one
/// seed a pool grows by a large puddle, by another by a small one.
fn cut_off_each(rt: &impl Abort, alloc: Global, seed: u64, pick: u64) {
    let lines = lines_of(rt, alloc, seed, (80, 3), false);
    for (kind, last) in last_lines(rt, alloc, &lines).iter().enumerate() {
        let mut is_kept = kind > 8 && (kind != 10 || pick != OLDEST);
        let mut counts = [0u32; 3];
        if let Some((at, grows)) = last {
            is_kept = is_kept || *grows;
            let tried = make_tried(rt, alloc, &lines, *at);
            cut_off(rt, alloc, &tried, pick, &mut counts);
        }
        let [before, after, whole] = counts;
        assert!(rt;
            before > 0 && (after > 0) == is_kept && whole == 1,
            "{kind}: {before}, {after}, {whole}"
        );
    }
}

#[test]
fn each_kind_of_line_after_lines_that_come_by_chance_is_cut_off_with_the_newest_values(
    rt: HostRuntime,
) {
    cut_off_each(&rt, rt.alloc(), 3_636_361, NEWEST);
}

#[test]
fn each_kind_of_line_after_lines_that_come_by_chance_is_cut_off_with_the_oldest_values(
    rt: HostRuntime,
) {
    cut_off_each(&rt, rt.alloc(), 20_479_575, OLDEST);
}

#[test]
fn each_kind_of_line_after_lines_that_come_by_chance_is_cut_off_with_every_other_newest_value(
    rt: HostRuntime,
) {
    cut_off_each(&rt, rt.alloc(), 7_017_717, EVERY_OTHER);
}
