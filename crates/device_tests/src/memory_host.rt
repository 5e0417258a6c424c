//! Tests of the host in memory: what its calls answer, and what a power loss leaves.
ghost use Rattle.std.specs.Prelude.{◌≡◌, ◌<◌, IfOk};
ghost use Rattle.pm_mem.specs.MemHost.{mem_counts};

use crate::calls::{Call, DONE, END, FAILED, LOST, answer, answers, done, has_file, number};
use pm_mem::{MemHost, Plan};
use pm_model::{Host, HostFault};
use std::alloc::Global;
use std::process::Abort;
use test_device::{cuts, failures, poke};

/// A host with two lines of words, "hi" to read, and room for eight steps and four bytes.
fn host(rt: &impl Abort, alloc: Global, plan: Plan) -> MemHost {
    MemHost::new(alloc, 16, b"hi", 8, 4, plan).expect(rt, "memory")
}

/// Prints each of these texts. The answer has to be this.
fn says<H: Host>(rt: &impl Abort, host: &mut H, rows: &[(&str, u64)]) {
    for (text, want) in rows {
        assert!(rt; done(host.say(text.as_bytes())) == *want, "{text}");
    }
}

/// Makes the calls in turn. Each has to succeed.
fn make_all<H: Host>(rt: &impl Abort, host: &mut H, calls: &[Call]) {
    for (at, call) in calls.iter().enumerate() {
        assert!(rt; answer(rt, host, *call) == DONE, "call {at}");
    }
}

/// Makes the calls in turn on a new host. The newest words that they leave have to be these.
fn leaves(rt: &impl Abort, alloc: Global, calls: &[Call], want: &[u64]) {
    let mut host = host(rt, alloc, Plan::none(alloc));
    make_all(rt, &mut host, calls);
    let left = host.read_back(alloc).expect(rt, "memory");
    assert!(rt; left.as_slice() == want, "{want:?}");
}

fn has_said(rt: &impl Abort, host: &MemHost, want: &[u8]) {
    assert!(rt; host.said() == want);
}

fn watch(host: &mut MemHost, w: u32) {
    host.watch(w);
}

fn has_watched(rt: &impl Abort, host: &MemHost, want: u32) {
    assert!(rt; host.watched() == want, "{want} loads");
}

fn refill(rt: &impl Abort, alloc: Global, host: &mut MemHost, script: &[u8]) {
    host.refill(alloc, script).expect(rt, "memory");
}

// What is stored is read again, if the host tells.
fn store_and_load<H: Host>(host: &mut H, w: u32, v: u64) -> Result<u64, HostFault>
    requires { w < (H.counts host.old).size }
    ensures { H.tells → IfOk result (λ got. got ≡ v) }
{
    host.store(w, v)?;
    host.load(w)
}

// A host in memory does tell.
fn store_and_load_in_memory(host: &mut MemHost, w: u32, v: u64) -> Result<u64, HostFault>
    requires { w < (mem_counts host.old).size }
    ensures { IfOk result (λ got. got ≡ v) }
{
    store_and_load(host, w, v)
}

#[test]
fn what_is_stored_is_read(rt: HostRuntime) {
    let mut host = host(&rt, rt.alloc(), Plan::none(rt.alloc()));
    assert!(rt; 5 < host.words());
    assert!(rt; number(store_and_load_in_memory(&mut host, 5, 50)) == 50);
}

#[test]
fn a_loss_keeps_values_by_its_pick(rt: HostRuntime) {
    let stores = [
        Call::Store(0, 5),
        Call::Store(1, 5),
        Call::Store(2, 5),
        Call::Store(9, 5),
    ];
    let [a, b, c, d] = stores;
    let rows: [(u64, [u64; 16]); 3] = [
        (0, [0; 16]),
        (1, [5, 5, 5, 0, 0, 0, 0, 0, 0, 5, 0, 0, 0, 0, 0, 0]),
        (
            0b10_0000_0110,
            [0, 5, 5, 0, 0, 0, 0, 0, 0, 5, 0, 0, 0, 0, 0, 0],
        ),
    ];
    for (pick, want) in rows {
        leaves(&rt, rt.alloc(), &[a, b, c, d, Call::Cut(pick)], &want);
    }
}

#[test]
fn a_flush_and_a_fence_make_a_line_durable(rt: HostRuntime) {
    let calls = [
        Call::Store(3, 7),
        Call::Store(7, 8),
        Call::Store(8, 9),
        Call::Flush(0),
        Call::Store(7, 10),
        Call::Fence,
        Call::Cut(0),
    ];
    let want = [0, 0, 0, 7, 0, 0, 0, 8, 0, 0, 0, 0, 0, 0, 0, 0];
    leaves(&rt, rt.alloc(), &calls, &want);
}

// Line 0 was settled by a fence, and is stored to again.
#[test]
fn a_line_that_was_durable_loses_what_is_not_fenced(rt: HostRuntime) {
    let calls = [
        Call::Store(4, 1),
        Call::Flush(0),
        Call::Fence,
        Call::Store(4, 2),
        Call::Store(5, 3),
        Call::Flush(0),
        Call::Cut(2 | 1 << 5),
    ];
    let want = [0, 0, 0, 0, 1, 3, 0, 0, 0, 0, 0, 0, 0, 0, 0, 0];
    leaves(&rt, rt.alloc(), &calls, &want);
}

#[test]
fn a_planned_cut_is_not_carried_out(rt: HostRuntime) {
    let plan = cuts(rt.alloc(), &[(2, 1)]).expect(&rt, "memory");
    let mut host = host(&rt, rt.alloc(), plan);
    answers(
        &rt,
        &mut host,
        &[
            (Call::Store(3, 7), DONE),
            (Call::Store(3, 8), LOST),
            (Call::Load(3), 7),
            (Call::Store(3, 9), DONE),
        ],
    );
}

#[test]
fn an_armed_cut_falls_on_its_step_alone(rt: HostRuntime) {
    let mut host = host(&rt, rt.alloc(), Plan::none(rt.alloc()));
    answers(
        &rt,
        &mut host,
        &[
            (Call::Arm(2, 0), DONE),
            (Call::Cut(1), DONE),
            (Call::Store(3, 7), DONE),
            (Call::Fence, LOST),
            (Call::Load(3), 0),
            (Call::Fence, DONE),
        ],
    );
}

#[test]
fn a_call_fails_by_the_plan_and_is_not_done(rt: HostRuntime) {
    let plan = failures(rt.alloc(), &[2]).expect(&rt, "memory");
    let mut host = host(&rt, rt.alloc(), plan);
    says(
        &rt,
        &mut host,
        &[("ab", DONE), ("cd", FAILED), ("ef", DONE)],
    );
    has_said(&rt, &host, b"abef");
}

#[test]
fn what_goes_beyond_the_steps_or_the_room_fails(rt: HostRuntime) {
    let mut host = host(&rt, rt.alloc(), Plan::none(rt.alloc()));
    for _step in 0..8 {
        answers(&rt, &mut host, &[(Call::Fence, DONE), (Call::Cut(0), DONE)]);
    }
    answers(&rt, &mut host, &[(Call::Fence, FAILED)]);
    says(
        &rt,
        &mut host,
        &[("abcde", FAILED), ("abcd", DONE), ("e", FAILED)],
    );
    has_said(&rt, &host, b"abcd");
}

#[test]
fn a_poked_word_has_one_value(rt: HostRuntime) {
    let mut host = host(&rt, rt.alloc(), Plan::none(rt.alloc()));
    answers(&rt, &mut host, &[(Call::Store(3, 7), DONE)]);
    assert!(rt; poke(&mut host, &[(3, 11)]));
    let rows = [
        (Call::Load(3), 11),
        (Call::Cut(0), DONE),
        (Call::Load(3), 11),
    ];
    answers(&rt, &mut host, &rows);
}

#[test]
fn loads_of_the_watched_word_are_counted(rt: HostRuntime) {
    let mut host = host(&rt, rt.alloc(), Plan::none(rt.alloc()));
    answers(&rt, &mut host, &[(Call::Load(3), 0)]);
    has_watched(&rt, &host, 0);
    watch(&mut host, 3);
    let rows = [
        (Call::Load(3), 0),
        (Call::Load(4), 0),
        (Call::Store(3, 7), DONE),
        (Call::Load(3), 7),
    ];
    answers(&rt, &mut host, &rows);
    has_watched(&rt, &host, 2);
    watch(&mut host, 4);
    has_watched(&rt, &host, 0);
}

#[test]
fn the_script_is_read_to_its_end_and_filled_again(rt: HostRuntime) {
    let mut host = host(&rt, rt.alloc(), Plan::none(rt.alloc()));
    answers(
        &rt,
        &mut host,
        &[
            (Call::Read, u64::from(b'h')),
            (Call::Read, u64::from(b'i')),
            (Call::Read, END),
        ],
    );
    refill(&rt, rt.alloc(), &mut host, b"x");
    answers(
        &rt,
        &mut host,
        &[(Call::Read, u64::from(b'x')), (Call::Read, END)],
    );
}

/// Looks for each of these files on any host. It has to be there with these bytes, or not to be there.
fn has_files<H: Host>(
    rt: &impl Abort,
    alloc: Global,
    host: &mut H,
    rows: &[(&str, Option<&[u8]>)],
) {
    for (name, want) in rows {
        has_file(rt, alloc, host, name, *want);
    }
}

/// Replaces the file `x` on any host that has it and `y`, and looks for both before and after.
fn replace<H: Host>(rt: &impl Abort, alloc: Global, host: &mut H) {
    let rows: [(&str, Option<&[u8]>); 3] = [
        ("x", Some(b"old")),
        ("y", Some(b"other")),
        ("z", None),
    ];
    has_files(rt, alloc, host, &rows);
    host.file_put(alloc, "x", b"new!").expect(rt, "memory");
    let rows: [(&str, Option<&[u8]>); 3] = [
        ("x", Some(b"new!")),
        ("y", Some(b"other")),
        ("z", None),
    ];
    has_files(rt, alloc, host, &rows);
}

fn shelve(rt: &impl Abort, alloc: Global, host: &mut MemHost, name: &str, bytes: &[u8]) {
    host.put_shelf(alloc, name, bytes).expect(rt, "memory");
}

#[test]
fn files_are_replaced_whole(rt: HostRuntime) {
    let mut host = host(&rt, rt.alloc(), Plan::none(rt.alloc()));
    shelve(&rt, rt.alloc(), &mut host, "x", b"old");
    shelve(&rt, rt.alloc(), &mut host, "y", b"other");
    replace(&rt, rt.alloc(), &mut host);
}
