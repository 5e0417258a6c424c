//! Tests of the sessions: how deep a transaction may be, and on how many pools a client may have one.

use crate::{EnterFault, Sessions};
use std::process::Abort;

/// The client begins a transaction on the pool, or begins its own once more. Returns the result.
fn enter(
    rt: &impl Abort,
    sessions: &mut Sessions,
    client: u8,
    pool: u32,
) -> Result<(), EnterFault> {
    assert!(rt; client < 8 && pool < 32);
    if let Some(holder) = sessions.holder(pool) {
        assert!(rt; holder == client);
    }
    // The log number is the slot of the pool. For these tests it only has to be below 32.
    sessions.enter(client, pool, pool)
}

/// The client commits once on the pool. Returns the depth of its transaction after that.
fn leave(rt: &impl Abort, sessions: &mut Sessions, client: u8, pool: u32) -> u32 {
    assert!(rt; pool < 32);
    assert!(rt; sessions.holder(pool) == Some(client));
    sessions.leave(client, pool)
}

/// The client's transaction on the pool ends, however often it was begun.
fn end(rt: &impl Abort, sessions: &mut Sessions, client: u8, pool: u32) {
    assert!(rt; pool < 32);
    assert!(rt; sessions.holder(pool) == Some(client));
    sessions.end(pool);
}

/// The client whose transaction is open on the pool, and how often it was begun.
fn open_on(rt: &impl Abort, sessions: &Sessions, pool: u32) -> (Option<u8>, u32) {
    assert!(rt; pool < 32);
    (sessions.holder(pool), sessions.depth(pool))
}

/// Counts one more refusal at place 1, or one more success at place 0.
fn count(counts: &mut [u32; 2], refused: bool) {
    let place = &mut counts[usize::from(refused)];
    *place = place.saturating_add(1);
}

#[test]
fn a_transaction_is_begun_16_times_and_no_more(rt: HostRuntime) {
    let mut sessions = Sessions::new();
    let mut counts = [0; 2];
    for n in 1..=20u32 {
        let deep = n > 16;
        let answer = enter(&rt, &mut sessions, 3, 31);
        assert!(rt;
            answer == if deep { Err(EnterFault::Deep) } else { Ok(()) },
            "begin {n}"
        );
        assert!(rt;
            open_on(&rt, &sessions, 31) == (Some(3), n.min(16)),
            "begin {n}"
        );
        count(&mut counts, deep);
    }
    assert!(rt; counts == [16, 4]);
}

#[test]
fn a_client_has_four_pools_and_no_fifth(rt: HostRuntime) {
    let mut sessions = Sessions::new();
    let mut counts = [0; 2];
    for pool in [7, 0, 31, 16, 1, 30] {
        let fifth = pool == 1 || pool == 30;
        let answer = enter(&rt, &mut sessions, 0, pool);
        assert!(rt;
            answer == if fifth { Err(EnterFault::Logs) } else { Ok(()) },
            "pool {pool}"
        );
        let open = if fifth { (None, 0) } else { (Some(0), 1) };
        assert!(rt; open_on(&rt, &sessions, pool) == open, "pool {pool}");
        count(&mut counts, fifth);
    }
    assert!(rt; counts == [4, 2]);
}

// One of the four is begun once more, and then left at each depth; another is ended.
#[test]
fn a_fifth_pool_is_free_once_one_of_four_is_left(rt: HostRuntime) {
    let mut sessions = Sessions::new();
    for pool in [0, 1, 2, 3, 2] {
        assert!(rt; enter(&rt, &mut sessions, 6, pool) == Ok(()), "pool {pool}");
    }
    let mut counts = [0; 2];
    for (pool, depth) in [(2, 1), (2, 0)] {
        assert!(rt; leave(&rt, &mut sessions, 6, pool) == depth);
        let refused = depth > 0;
        let answer = enter(&rt, &mut sessions, 6, 9);
        assert!(rt;
            answer
                == if refused {
                    Err(EnterFault::Logs)
                } else {
                    Ok(())
                },
            "depth {depth}"
        );
        count(&mut counts, refused);
    }
    assert!(rt; counts == [1, 1]);
    assert!(rt; enter(&rt, &mut sessions, 6, 2) == Err(EnterFault::Logs));
    end(&rt, &mut sessions, 6, 9);
    assert!(rt; enter(&rt, &mut sessions, 6, 2) == Ok(()));
}

#[test]
fn four_pools_of_each_client_stand_apart(rt: HostRuntime) {
    let mut sessions = Sessions::new();
    for pool in 0..32u32 {
        let client = (pool % 8) as u8;
        assert!(rt;
            enter(&rt, &mut sessions, client, pool) == Ok(()),
            "pool {pool}"
        );
    }
    let mut held = [0u32; 8];
    for pool in 0..32u32 {
        let client = (pool % 8) as u8;
        assert!(rt;
            open_on(&rt, &sessions, pool) == (Some(client), 1),
            "pool {pool}"
        );
        let place = &mut held[client as usize];
        *place = place.saturating_add(1);
    }
    assert!(rt; held == [4; 8]);
}

/// What a client does with its transaction.
#[derive(Clone, Copy)]
enum Step {
    Begin,
    Commit,
    Abort,
}

#[test]
fn depths_of_a_transaction_begun_committed_and_undone(rt: HostRuntime) {
    let mut sessions = Sessions::new();
    for (number, (step, depth)) in [
        (Step::Begin, 1),
        (Step::Begin, 2),
        (Step::Begin, 3),
        (Step::Commit, 2),
        (Step::Abort, 0),
        (Step::Begin, 1),
        (Step::Commit, 0),
        (Step::Begin, 1),
        (Step::Abort, 0),
    ]
    .iter()
    .enumerate()
    {
        match *step {
            Step::Begin => {
                assert!(rt; enter(&rt, &mut sessions, 5, 20) == Ok(()));
            }
            Step::Commit => {
                assert!(rt; leave(&rt, &mut sessions, 5, 20) == *depth);
            }
            Step::Abort => end(&rt, &mut sessions, 5, 20),
        }
        let holder = if *depth > 0 { Some(5) } else { None };
        assert!(rt;
            open_on(&rt, &sessions, 20) == (holder, *depth),
            "step {number}"
        );
    }
}
