//! Tests of map words and type ids.
use pud_defs::type_map::{is_legal_map, is_legal_type_id, map_fields, map_is_pointer};

/// Two fields. Field 1 is a pointer.
const TWO_FIELDS: u64 = 8_589_934_594;

/// Thirty fields. The first and the last are pointers.
const THIRTY_FIELDS: u64 = 129_385_889_793;

#[test]
fn fields_of_maps(rt: HostRuntime) {
    assert!(rt; map_fields(TWO_FIELDS) == 2 && map_fields(THIRTY_FIELDS) == 30);
}

#[test]
fn pointers_of_maps(rt: HostRuntime) {
    for (v, f, pointer) in [
        (TWO_FIELDS, 0, false),
        (TWO_FIELDS, 1, true),
        (THIRTY_FIELDS, 0, true),
        (THIRTY_FIELDS, 28, false),
        (THIRTY_FIELDS, 29, true),
        (u64::MAX, 63, true),
        (u64::MAX, 64, false),
        (u64::MAX, u32::MAX, false),
    ] {
        assert!(rt; map_is_pointer(v, f) == pointer, "bit {f} of {v}");
    }
}

#[test]
fn legal_maps(rt: HostRuntime) {
    for (v, legal) in [
        (TWO_FIELDS, true),
        (THIRTY_FIELDS, true),
        (4_294_967_296, true),
        (128_849_018_880, true),
        (0, false),
        (133_143_986_176, false),
        (8_589_934_596, false),
        (146_028_888_064, false),
        (u64::MAX, false),
    ] {
        assert!(rt; is_legal_map(v) == legal, "map {v}");
    }
}

#[test]
fn legal_type_ids(rt: HostRuntime) {
    for (v, legal) in [
        (0, false),
        (1, true),
        (65_535, true),
        (65_536, false),
        (u64::MAX, false),
    ] {
        assert!(rt; is_legal_type_id(v) == legal, "id {v}");
    }
}
