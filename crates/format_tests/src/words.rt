//! Tests of command lines that are modes, and of words that are none.
use command_line::{Mode, WordsFault, read_words};
use std::alloc::Global;
use std::process::Abort;

// One function for each mode with numbers, so that a row of a table is one line.
fn format(frames: u32, id: u64) -> Mode {
    Mode::Format { frames, id }
}

fn generate(seed: u32, count: u32) -> Mode {
    Mode::Gen { seed, count }
}

const RUN: Mode = Mode::Run;

const LAYOUT: Mode = Mode::Layout;

const CHECK: Mode = Mode::Check;

/// Reads the words of this line, which has a `|` between them.
fn read_line(rt: &impl Abort, alloc: Global, line: &str) -> Result<Mode, WordsFault> {
    let mut words = Vec::new(alloc);
    for word in line.split('|') {
        let word = String::from_str(alloc, word).expect(rt, "memory");
        words.push(word).expect(rt, "memory");
    }
    read_words(alloc, words.as_slice())
}

/// Asserts that each line of `rows` is its mode, and that each of `others` is no mode. There must be lines of both
/// kinds.
fn are_read(rt: &impl Abort, alloc: Global, rows: &[(&str, Mode)], others: &[&str]) {
    let mut taken = false;
    for (line, mode) in rows {
        assert!(rt; read_line(rt, alloc, line) == Ok(*mode), "{line}");
        taken = true;
    }
    let mut refused = false;
    for line in others {
        let read = read_line(rt, alloc, line);
        assert!(rt; read == Err(WordsFault::Usage), "{line}");
        refused = true;
    }
    assert!(rt; taken && refused, "lines of both kinds");
}

#[test]
fn no_words_are_no_mode(rt: HostRuntime) {
    assert!(rt; read_words(rt.alloc(), &[]) == Err(WordsFault::Usage));
}

#[test]
fn words_of_modes(rt: HostRuntime) {
    are_read(
        &rt,
        rt.alloc(),
        &[
            ("puddle|run", RUN),
            ("puddle|layout", LAYOUT),
            ("puddle|check", CHECK),
            ("puddle|format|4|7", format(4, 7)),
            ("puddle|gen|1|3", generate(1, 3)),
            ("|run", RUN),
            ("--help|run", RUN),
            ("run|layout", LAYOUT),
        ],
        &[
            "puddle",
            "run",
            "",
            "puddle|",
            "puddle||run",
            "puddle|checks",
            "puddle|chec",
            "puddle|Check",
            "puddle|puddle|run",
            "puddle|lay",
            "puddle|r",
            "puddle|runs",
            "puddle|formats|4|7",
            "puddle|Run",
            "puddle|LAYOUT",
            "puddle|Format|4|7",
            "puddle|gens|1|3",
            "puddle|ge|1|3",
            "puddle|Gen|1|3",
            "puddle|generate|1|3",
            "puddle| run",
            "puddle|run ",
            "puddle|format 4 7",
        ],
    );
}

#[test]
fn words_too_few_or_too_many(rt: HostRuntime) {
    are_read(
        &rt,
        rt.alloc(),
        &[
            ("puddle|format|1024|0", format(1024, 0)),
            ("puddle|gen|0|992", generate(0, 992)),
        ],
        &[
            "puddle|format",
            "puddle|format|4",
            "puddle|format|4|7|7",
            "puddle|format|4|7|",
            "puddle|format|4|7|run",
            "puddle|4|7|format",
            "puddle|4|format|7",
            "puddle|run|now",
            "puddle|run|run",
            "puddle|run|",
            "puddle|run|4|7",
            "puddle|layout|4",
            "puddle|layout|4|7",
            "puddle|layout|run",
            "puddle|check|now",
            "puddle|check|4|7",
            "puddle|check|check",
            "puddle|gen",
            "puddle|gen|1",
            "puddle|gen|1|3|3",
            "puddle|gen|1|3|",
            "puddle|gen|1|3|run",
            "puddle|1|3|gen",
            "puddle|1|gen|3",
        ],
    );
}

#[test]
fn help_versions_and_options(rt: HostRuntime) {
    are_read(
        &rt,
        rt.alloc(),
        &[("puddle|run", RUN)],
        &[
            "puddle|help",
            "puddle|help|run",
            "puddle|--help",
            "puddle|-h",
            "puddle|--version",
            "puddle|-V",
            "puddle|-v",
            "puddle|--run",
            "puddle|-run",
            "puddle|-",
            "puddle|--help|run",
            "puddle|-h|run",
            "puddle|run|--help",
            "puddle|run|-h",
            "puddle|layout|--version",
            "puddle|layout|-V",
            "puddle|layout|-",
            "puddle|check|--help",
            "puddle|check|-",
            "puddle|format|--help",
            "puddle|format|-h",
            "puddle|format|4|7|--help",
            "puddle|format|4|-h|7",
            "puddle|format|--frames=4|--id=7",
            "puddle|format|--frames|4|--id|7",
            "puddle|format|frames=4|id=7",
            "puddle|gen|--help",
            "puddle|gen|1|3|-h",
            "puddle|gen|--seed=1|--count=3",
            "puddle|gen|--seed|1|--count|3",
            "puddle|run=now",
        ],
    );
}

#[test]
fn numbers_of_frames(rt: HostRuntime) {
    are_read(
        &rt,
        rt.alloc(),
        &[
            ("puddle|format|4|7", format(4, 7)),
            ("puddle|format|5|7", format(5, 7)),
            ("puddle|format|1023|7", format(1023, 7)),
            ("puddle|format|1024|7", format(1024, 7)),
        ],
        &[
            "puddle|format|3|7",
            "puddle|format|1|7",
            "puddle|format|0|7",
            "puddle|format|1025|7",
            "puddle|format|65540|7",
            "puddle|format|4294967300|7",
            "puddle|format|18446744073709551620|7",
            "puddle|format|+4|7",
            "puddle|format|-4|7",
            "puddle|format|-1024|7",
            "puddle|format|04|7",
            "puddle|format|0004|7",
            "puddle|format||7",
            "puddle|format| 4|7",
            "puddle|format|4 |7",
            "puddle|format|1,024|7",
            "puddle|format|0x10|7",
            "puddle|format|4.0|7",
            "puddle|format|four|7",
            "puddle|format|é|7",
            "puddle|format|/|7",
            "puddle|format|:|7",
            "puddle|format|-|7",
            "puddle|format|-é|7",
        ],
    );
}

#[test]
fn numbers_of_machines(rt: HostRuntime) {
    are_read(
        &rt,
        rt.alloc(),
        &[
            ("puddle|format|4|0", format(4, 0)),
            ("puddle|format|4|9", format(4, 9)),
            ("puddle|format|4|4294967296", format(4, 4_294_967_296)),
            (
                "puddle|format|4|18446744073709551615",
                format(4, 18_446_744_073_709_551_615),
            ),
        ],
        &[
            "puddle|format|4|18446744073709551616",
            "puddle|format|4|18446744073709551623",
            "puddle|format|4|1111111111111111111111111111111111111111",
            "puddle|format|4|+7",
            "puddle|format|4|-7",
            "puddle|format|4|07",
            "puddle|format|4|00",
            "puddle|format|4|",
            "puddle|format|4| 7",
            "puddle|format|4|7 ",
            "puddle|format|4|7a",
            "puddle|format|4|0x7",
            "puddle|format|4|-",
        ],
    );
}

#[test]
fn numbers_of_generated_scripts(rt: HostRuntime) {
    are_read(
        &rt,
        rt.alloc(),
        &[
            ("puddle|gen|0|1", generate(0, 1)),
            ("puddle|gen|7|991", generate(7, 991)),
            ("puddle|gen|65534|992", generate(65534, 992)),
            ("puddle|gen|65535|9", generate(65535, 9)),
        ],
        &[
            "puddle|gen|65536|3",
            "puddle|gen|65537|3",
            "puddle|gen|4294967296|3",
            "puddle|gen|18446744073709551617|3",
            "puddle|gen|1|0",
            "puddle|gen|1|993",
            "puddle|gen|1|65535",
            "puddle|gen|1|4294967297",
            "puddle|gen|+1|3",
            "puddle|gen|-1|3",
            "puddle|gen|01|3",
            "puddle|gen|00|3",
            "puddle|gen||3",
            "puddle|gen|1|",
            "puddle|gen|1|+3",
            "puddle|gen|1|-3",
            "puddle|gen|1|03",
            "puddle|gen|1|3 ",
            "puddle|gen| 1|3",
            "puddle|gen|65,535|3",
            "puddle|gen|0x1|3",
            "puddle|gen|1.0|3",
            "puddle|gen|one|3",
            "puddle|gen|1|é",
        ],
    );
}

#[test]
fn two_dashes_alone(rt: HostRuntime) {
    are_read(
        &rt,
        rt.alloc(),
        &[
            ("puddle|run|--", RUN),
            ("puddle|layout|--", LAYOUT),
            ("puddle|check|--", CHECK),
            ("puddle|format|--|4|7", format(4, 7)),
            ("puddle|format|4|--|7", format(4, 7)),
            ("puddle|format|4|7|--", format(4, 7)),
            ("puddle|gen|--|1|3", generate(1, 3)),
            ("puddle|gen|1|--|3", generate(1, 3)),
            ("puddle|gen|1|3|--", generate(1, 3)),
            ("--|run", RUN),
        ],
        &[
            "puddle|--",
            "puddle|--|--",
            "puddle|--|run",
            "puddle|--|format|4|7",
            "puddle|run|--|--",
            "puddle|layout|--|--",
            "puddle|check|--|--",
            "puddle|check|--|now",
            "puddle|run|--|now",
            "puddle|run|--|--help",
            "puddle|run|---",
            "puddle|format|--|--|4|7",
            "puddle|format|--|4|--|7",
            "puddle|format|4|--|--",
            "puddle|format|--|4|7|--",
            "puddle|format|--|4",
            "puddle|format|4|--",
            "puddle|format|--",
            "puddle|format|--|-4|7",
            "puddle|format|4|--|+7",
            "puddle|format|--|4|7|7",
            "puddle|gen|--|--|1|3",
            "puddle|gen|1|--|--",
            "puddle|gen|--|1",
            "puddle|gen|--|-1|3",
            "puddle|--|gen|1|3",
        ],
    );
}
