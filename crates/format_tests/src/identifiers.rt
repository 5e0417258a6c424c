//! Tests of the texts of identifiers. The expected texts were worked out apart from the code.
use std::process::Abort;
use uid_make::{print_uuid, puddle_uuid};

/// Asserts that the identifier of each machine and UUID number has its text, although the buffer had other bytes
/// before.
fn are_texts(rt: &impl Abort, rows: &[(u64, u64, &str)]) {
    for (machine, number, text) in rows {
        let mut out = [b'?'; 36];
        print_uuid(puddle_uuid(*machine, *number), &mut out);
        assert!(rt; out.as_slice() == text.as_bytes(), "{text}");
    }
}

#[test]
fn identifiers_have_the_machine_and_the_number_as_they_are(rt: HostRuntime) {
    are_texts(
        &rt,
        &[
            (0, 0, "00000000-0000-0000-0000-000000000000"),
            (7, 1, "00000000-0000-0007-0000-000000000001"),
            (7, (1 << 63) - 1, "00000000-0000-0007-7fff-ffffffffffff"),
            (u64::MAX, u64::MAX, "ffffffff-ffff-ffff-ffff-ffffffffffff"),
            (
                0x0123_4567_89ab_cdef,
                0xfedc_ba98_7654_3210,
                "01234567-89ab-cdef-fedc-ba9876543210",
            ),
            (1 << 60, 1 << 60, "10000000-0000-0000-1000-000000000000"),
            (10, 10, "00000000-0000-000a-0000-00000000000a"),
            (0x9a << 56, 0xbf, "9a000000-0000-0000-0000-0000000000bf"),
        ],
    );
}
