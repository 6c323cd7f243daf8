//! The worked row of the profile that is too long for a table.

use crate::program::expect_answer;

/// Room 4,096 is full with as many names: room is judged before names, and a name that is freed makes room for another.
#[test]
fn frees_a_name_among_many(rt: HostRuntime) {
    let mut script = Vec::new(rt.alloc());
    let mut text = Vec::new(rt.alloc());
    for number in 0..4096u64 {
        let line = format!(in rt.alloc(); "0: n{number} = z 1\n").expect(&rt, "memory");
        script
            .extend_from_slice(line.as_bytes())
            .expect(&rt, "memory");
        text.extend_from_slice(b"0 ok\n").expect(&rt, "memory");
    }
    let script_end =
        b"0: m = z 1\n0: m = z\n0: n0 = z\n0: m = z 1\n0: fre_fov n0\n0: m = z 1\n0: get n0\n0: get m\n";
    script.extend_from_slice(script_end).expect(&rt, "memory");
    let text_end = b"0 fault 9\n0 fault 10\n0 ok\n0 fault 10\n0 ok\n0 ok\n0 fault 1\n0 z 1\n";
    text.extend_from_slice(text_end).expect(&rt, "memory");
    expect_answer(&rt, &["serial", "4096"], &script, &text, 0);
}
