//! Plans whose waves were worked out by hand.

use batch_flatten::{BATCH_LIMIT, waves};
use call_history::{Job, Request};
use cvl_text::Call;
use std::alloc::Global;
use std::process::Abort;

/// Whether requests of these lines, in their order, get these waves, and 0 past the last.
fn are_waves(rt: &impl Abort, alloc: Global, lines: &[&[u8]], wanted: &[u8]) -> bool {
    let mut requests = Vec::new(alloc);
    for line in lines {
        let call = Call::read(alloc, line).expect(rt, "no call");
        let job = Job::One(call);
        requests
            .push(Request { caller: 0, job })
            .expect(rt, "memory");
    }
    assert!(rt; requests.len() <= BATCH_LIMIT && wanted.len() <= BATCH_LIMIT);
    let found = waves(&requests);
    let past = found[wanted.len()..].iter().all(|wave| *wave == 0);
    &found[..wanted.len()] == wanted && past
}

#[test]
fn joins_the_first_wave_that_it_may(rt: HostRuntime) {
    let lines: [&[u8]; 8] = [
        b"a = add_wuz a s",
        b"b = add_wuz b s",
        // Reads two targets of wave 0.
        b"c = add_wuz a b",
        // Reads a target of wave 1 alone.
        b"a = add_wuz c c",
        b"get a",
        // Reads a target of wave 0 and one of wave 1.
        b"d = add_wuz a c",
        // Reads what it frees, a target of wave 2.
        b"fre_fov d",
        b"e = bck_pez a b c d",
    ];
    assert!(rt; are_waves(&rt, rt.alloc(), &lines, &[0, 0, 1, 0, 1, 2, 0, 3]));
}

#[test]
fn updates_of_one_name_wait_for_one_another(rt: HostRuntime) {
    let lines: [&[u8]; 4] = [
        b"counter = add_wuz counter step",
        b"counter = add_wuz counter step",
        b"counter = add_wuz counter step",
        b"step = cpy_wuz counter",
    ];
    assert!(rt; are_waves(&rt, rt.alloc(), &lines, &[0, 1, 2, 3]));
}

#[test]
fn few_requests_need_no_plan(rt: HostRuntime) {
    assert!(rt; are_waves(&rt, rt.alloc(), &[], &[]));
    assert!(rt; are_waves(&rt, rt.alloc(), &[b"a = add_wuz a a"], &[0]));
}
