//! Tests of lines that are commands, and of lines that are none.
use pud_defs::objects::FieldValue;
use pud_defs::records::Name;
use script::{Command, parse_line};
use std::process::Abort;

// One function for each command, so that a row of a table is one line.
fn client(client: u8, uid: u32, gid: u32) -> Command {
    Command::Client { client, uid, gid }
}

fn leave(client: u8) -> Command {
    Command::Leave { client }
}

fn define(t: u32, map: u64) -> Command {
    Command::Define { t, map }
}

fn pool(client: u8, name: Name, mode: u32) -> Command {
    Command::Pool { client, name, mode }
}

fn chmod(client: u8, name: Name, mode: u32) -> Command {
    Command::Chmod { client, name, mode }
}

fn drop_pool(client: u8, name: Name) -> Command {
    Command::Drop { client, name }
}

fn begin(client: u8, name: Name) -> Command {
    Command::Begin { client, name }
}

fn commit(client: u8, name: Name) -> Command {
    Command::Commit { client, name }
}

fn abort(client: u8, name: Name) -> Command {
    Command::Abort { client, name }
}

fn new_object(client: u8, name: Name, t: u32) -> Command {
    Command::New { client, name, t }
}

fn set(client: u8, name: Name, s: u64, f: u32, x: FieldValue) -> Command {
    Command::Set {
        client,
        name,
        s,
        f,
        x,
    }
}

fn later(client: u8, name: Name, s: u64, f: u32, x: FieldValue) -> Command {
    Command::Later {
        client,
        name,
        s,
        f,
        x,
    }
}

fn root(client: u8, name: Name, s: u64) -> Command {
    Command::Root { client, name, s }
}

fn free(client: u8, name: Name, s: u64) -> Command {
    Command::Free { client, name, s }
}

fn get(client: u8, name: Name, s: u64, f: u32) -> Command {
    Command::Get { client, name, s, f }
}

fn dump(client: u8, name: Name) -> Command {
    Command::Dump { client, name }
}

fn export(client: u8, name: Name, file: Name) -> Command {
    Command::Export { client, name, file }
}

fn import(client: u8, name: Name, file: Name, mode: u32) -> Command {
    Command::Import {
        client,
        name,
        file,
        mode,
    }
}

fn rewrite(name: Name, n: u32) -> Command {
    Command::Rewrite { name, n }
}

fn cut(pick: u64) -> Command {
    Command::Cut { pick }
}

fn arm(step: u32, pick: u64) -> Command {
    Command::Arm { step, pick }
}

/// Asserts that each line is its command.
fn are_commands(rt: &impl Abort, rows: &[(&str, Command)]) {
    for (line, command) in rows {
        assert!(rt; parse_line(line.as_bytes()) == Ok(*command), "{line}");
    }
}

/// Asserts that no line is a command.
fn are_none(rt: &impl Abort, lines: &[&str]) {
    for line in lines {
        assert!(rt; parse_line(line.as_bytes()).is_err(), "{line}");
    }
}

#[test]
fn definitions_of_types(rt: HostRuntime) {
    let every_field =
        "type 65535 30 0,1,2,3,4,5,6,7,8,9,10,11,12,13,14,15,16,17,18,19,20,21,22,23,24,25,26,27,28,29";
    are_commands(
        &rt,
        &[
            ("type 1 2 1", define(1, 8_589_934_594)),
            ("type 1 2 -", define(1, 8_589_934_592)),
            ("type 7 1 0", define(7, 4_294_967_297)),
            ("type 10 3 0,2", define(10, 12_884_901_893)),
            ("type 2 30 0,29", define(2, 129_385_889_793)),
            ("type 65535 1 -", define(65_535, 4_294_967_296)),
            (every_field, define(65_535, 129_922_760_703)),
        ],
    );
}

#[test]
fn lines_of_clients_and_of_power(rt: HostRuntime) {
    are_commands(
        &rt,
        &[
            ("client 0 0 0", client(0, 0, 0)),
            ("client 7 65535 5", client(7, 65_535, 5)),
            ("leave 0", leave(0)),
            ("leave 7", leave(7)),
            ("cut 0", cut(0)),
            ("cut 18446744073709551615", cut(u64::MAX)),
            ("arm 1 0", arm(1, 0)),
            ("arm 1000000 7", arm(1_000_000, 7)),
        ],
    );
}

#[test]
fn lines_of_pools(rt: HostRuntime) {
    let p = *b"p\0\0\0\0\0\0\0\0\0\0\0\0\0\0\0";
    let seven = *b"7\0\0\0\0\0\0\0\0\0\0\0\0\0\0\0";
    let low_line = *b"_\0\0\0\0\0\0\0\0\0\0\0\0\0\0\0";
    let digits = *b"0123456789_az\0\0\0";
    let sixteen = *b"abcdefghijklmnop";
    are_commands(
        &rt,
        &[
            ("pool 0 p 600", pool(0, p, 0o600)),
            ("pool 7 abcdefghijklmnop 000", pool(7, sixteen, 0)),
            ("chmod 0 p 666", chmod(0, p, 0o666)),
            ("chmod 7 0123456789_az 246", chmod(7, digits, 0o246)),
            ("drop 0 p", drop_pool(0, p)),
            ("drop 7 abcdefghijklmnop", drop_pool(7, sixteen)),
            ("drop 1 7", drop_pool(1, seven)),
            ("drop 2 _", drop_pool(2, low_line)),
            ("pools", Command::Pools),
            ("dump 0 p", dump(0, p)),
            ("dump 7 abcdefghijklmnop", dump(7, sixteen)),
            ("export 0 p p", export(0, p, p)),
            ("export 1 7 _", export(1, seven, low_line)),
            (
                "export 7 abcdefghijklmnop 0123456789_az",
                export(7, sixteen, digits),
            ),
            ("import 0 p p 600", import(0, p, p, 0o600)),
            ("import 1 7 _ 000", import(1, seven, low_line, 0)),
            (
                "import 7 abcdefghijklmnop 0123456789_az 246",
                import(7, sixteen, digits, 0o246),
            ),
            ("rewrite p 1", rewrite(p, 1)),
            ("rewrite 7 10", rewrite(seven, 10)),
            ("rewrite abcdefghijklmnop 3984", rewrite(sixteen, 3_984)),
            ("get 0 p 1.0", get(0, p, 1, 0)),
            ("get 1 7 10.10", get(1, seven, 10, 10)),
            ("get 2 _ 4294967296.1", get(2, low_line, 4_294_967_296, 1)),
            (
                "get 7 abcdefghijklmnop 18446744073709551615.29",
                get(7, sixteen, u64::MAX, 29),
            ),
        ],
    );
}

#[test]
fn lines_of_transactions(rt: HostRuntime) {
    let p = *b"p\0\0\0\0\0\0\0\0\0\0\0\0\0\0\0";
    let sixteen = *b"abcdefghijklmnop";
    are_commands(
        &rt,
        &[
            ("begin 0 p", begin(0, p)),
            ("begin 7 abcdefghijklmnop", begin(7, sixteen)),
            ("commit 1 p", commit(1, p)),
            ("abort 2 p", abort(2, p)),
            ("new 0 p 1", new_object(0, p, 1)),
            (
                "new 7 abcdefghijklmnop 65535",
                new_object(7, sixteen, 65_535),
            ),
            ("set 0 p 1.0 0", set(0, p, 1, 0, FieldValue::Num(0))),
            ("set 0 p 1.0 10", set(0, p, 1, 0, FieldValue::Num(10))),
            ("set 0 p 1.1 @0", set(0, p, 1, 1, FieldValue::Ref(0))),
            ("set 0 p 12.1 @10", set(0, p, 12, 1, FieldValue::Ref(10))),
            (
                "set 7 p 18446744073709551615.29 18446744073709551615",
                set(7, p, u64::MAX, 29, FieldValue::Num(u64::MAX)),
            ),
            (
                "set 7 p 1.29 @18446744073709551615",
                set(7, p, 1, 29, FieldValue::Ref(u64::MAX)),
            ),
        ],
    );
}

#[test]
fn lines_of_transactions_that_are_none(rt: HostRuntime) {
    are_none(
        &rt,
        &[
            "begin",
            "begin 0",
            "begin 0 ",
            "begin 0 p ",
            "begin 0 p p",
            "begin 8 p",
            "begin 0 P",
            "Begin 0 p",
            "begins 0 p",
            "commit 0",
            "commit 0 p 0",
            "commit 8 p",
            "abort 0",
            "abort 0 p 0",
            "abort 8 p",
            "new 0 p",
            "new 0 p 0",
            "new 0 p 01",
            "new 0 p 65536",
            "new 0 p @1",
            "new 0 p 1 1",
            "new 8 p 1",
            "set 0 p 1.0",
            "set 0 p 1.0 1 1",
            "set 0 p  1.0 1",
            "set 0 p 1.0  1",
            "set 0 p 1 1",
            "set 0 p 0.0 1",
            "set 0 p 1.30 1",
            "set 8 p 1.0 1",
            "set 0 abcdefghijklmnopq 1.0 1",
        ],
    );
}

#[test]
fn lines_of_values_to_come_roots_and_freed_objects(rt: HostRuntime) {
    let p = *b"p\0\0\0\0\0\0\0\0\0\0\0\0\0\0\0";
    let sixteen = *b"abcdefghijklmnop";
    are_commands(
        &rt,
        &[
            ("later 0 p 1.0 0", later(0, p, 1, 0, FieldValue::Num(0))),
            ("later 0 p 12.1 @0", later(0, p, 12, 1, FieldValue::Ref(0))),
            (
                "later 1 p 12.1 @10",
                later(1, p, 12, 1, FieldValue::Ref(10)),
            ),
            (
                "later 7 p 18446744073709551615.29 18446744073709551615",
                later(7, p, u64::MAX, 29, FieldValue::Num(u64::MAX)),
            ),
            (
                "later 7 abcdefghijklmnop 1.29 @18446744073709551615",
                later(7, sixteen, 1, 29, FieldValue::Ref(u64::MAX)),
            ),
            ("root 0 p 0", root(0, p, 0)),
            ("root 1 p 1", root(1, p, 1)),
            (
                "root 7 abcdefghijklmnop 18446744073709551615",
                root(7, sixteen, u64::MAX),
            ),
            ("free 0 p 1", free(0, p, 1)),
            (
                "free 7 abcdefghijklmnop 18446744073709551615",
                free(7, sixteen, u64::MAX),
            ),
        ],
    );
}

#[test]
fn lines_of_values_to_come_that_are_none(rt: HostRuntime) {
    are_none(
        &rt,
        &[
            "later",
            "later 0 p",
            "later 0 p 1.0",
            "later 0 p 1.0 ",
            "later 0 p 1.0 1 1",
            "later 0 p  1.0 1",
            "later 0 p 1.0  1",
            "later 0 p 1 1",
            "later 0 p 0.0 1",
            "later 0 p 1.30 1",
            "later 0 p 1.0 01",
            "later 0 p 1.0 18446744073709551616",
            "later 0 p 1.0 @",
            "later 0 p 1.0 @01",
            "later 0 p 1.0 @18446744073709551616",
            "later 8 p 1.0 1",
            "later 0 P 1.0 1",
            "later 0 abcdefghijklmnopq 1.0 1",
            "Later 0 p 1.0 1",
            "late 0 p 1.0 1",
            "laters 0 p 1.0 1",
        ],
    );
}

#[test]
fn lines_of_roots_and_freed_objects_that_are_none(rt: HostRuntime) {
    are_none(
        &rt,
        &[
            "root",
            "root 0 p",
            "root 0 p ",
            "root 0 p 1 1",
            "root 0 p  1",
            "root 0 p 00",
            "root 0 p 01",
            "root 0 p @1",
            "root 0 p -1",
            "root 0 p 1.0",
            "root 0 p null",
            "root 0 p 18446744073709551616",
            "root 8 p 1",
            "root 0 P 1",
            "Root 0 p 1",
            "free",
            "free 0 p",
            "free 0 p ",
            "free 0 p 0",
            "free 0 p 1 1",
            "free 0 p  1",
            "free 0 p 01",
            "free 0 p @1",
            "free 0 p 1.0",
            "free 0 p 18446744073709551616",
            "free 8 p 1",
            "free 0 P 1",
            "frees 0 p 1",
        ],
    );
}

#[test]
fn lines_of_rewriting_that_are_none(rt: HostRuntime) {
    are_none(
        &rt,
        &[
            "rewrite",
            "rewrite p",
            "rewrite p ",
            "rewrite p 1 ",
            "rewrite p 1 1",
            "rewrite p  1",
            "rewrite  p 1",
            "rewrite  1",
            "rewrite 0 p 1",
            "rewrite p 0",
            "rewrite p 01",
            "rewrite p +1",
            "rewrite p -1",
            "rewrite p @1",
            "rewrite p 3985",
            "rewrite p 4294967297",
            "rewrite p 18446744073709551617",
            "rewrite P 1",
            "rewrite abcdefghijklmnopq 1",
            "Rewrite p 1",
            "rewrit p 1",
            "rewrites p 1",
        ],
    );
}

#[test]
fn lines_of_files_that_are_none(rt: HostRuntime) {
    are_none(
        &rt,
        &[
            "import",
            "import 0",
            "import 0 p",
            "import 0 p x",
            "import 0 p x ",
            "import 0 p 600",
            "import 0 p  600",
            "import 0  x 600",
            "import 0 p x  600",
            "import 0 p x 600 ",
            "import 0 p x 600 600",
            "import 0 p x y 600",
            "import p x 600",
            "import 8 p x 600",
            "import 0 P x 600",
            "import 0 p X 600",
            "import 0 p x.y 600",
            "import 0 abcdefghijklmnopq x 600",
            "import 0 p abcdefghijklmnopq 600",
            "import 0 p x 60",
            "import 0 p x 0600",
            "import 0 p x 610",
            "import 0 p 600 x",
            "Import 0 p x 600",
            "imports 0 p x 600",
            "export 0 p x 600",
        ],
    );
}

#[test]
fn values_of_fields_that_are_none(rt: HostRuntime) {
    are_none(
        &rt,
        &[
            "set 0 p 1.0 ",
            "set 0 p 1.0 01",
            "set 0 p 1.0 00",
            "set 0 p 1.0 +1",
            "set 0 p 1.0 -1",
            "set 0 p 1.0 1a",
            "set 0 p 1.0 null",
            "set 0 p 1.0 18446744073709551616",
            "set 0 p 1.0 @",
            "set 0 p 1.0 @01",
            "set 0 p 1.0 @00",
            "set 0 p 1.0 @@1",
            "set 0 p 1.0 @+1",
            "set 0 p 1.0 @-1",
            "set 0 p 1.0 @1@",
            "set 0 p 1.0 @1a",
            "set 0 p 1.0 @ 1",
            "set 0 p 1.0 1@",
            "set 0 p 1.0 @18446744073709551616",
            "set 0 p 1.0 A1",
        ],
    );
}

#[test]
fn words_and_spaces_that_are_wrong(rt: HostRuntime) {
    are_none(
        &rt,
        &[
            "",
            " ",
            "types 1 2 1",
            "Type 1 2 1",
            "TYPE 1 2 1",
            "type  1 2 1",
            "type 1  2 1",
            " type 1 2 1",
            "type 1 2 1 ",
            "type\t1 2 1",
            "type 1 2 1\n",
            "leave 0 ",
            "Pool 0 p 600",
            "pool  0 p 600",
            "pool 0 p  600",
            "pool 0 p 600 ",
            "chmod 0 p 600 ",
            "drop 0 p ",
            "dropp 0 p",
            "pools ",
            " pools",
            "Get 0 p 1.0",
            "gets 0 p 1.0",
            "get  0 p 1.0",
            "get 0  p 1.0",
            "get 0 p  1.0",
            "get 0 p 1.0 ",
            "get 0 p 1 .0",
            "get 0 p 1. 0",
        ],
    );
}

#[test]
fn arguments_too_few_or_too_many(rt: HostRuntime) {
    are_none(
        &rt,
        &[
            "type",
            "type 1 2",
            "type 1 2 ",
            "type 1 2 1 1",
            "client",
            "client 0 5",
            "client 0 5 5 5",
            "leave",
            "leave 0 0",
            "pool",
            "pool 0 p",
            "pool 0 p 600 600",
            "chmod 0 p",
            "chmod 0 p 600 600",
            "drop 0",
            "drop 0 p 600",
            "pools 0",
            "pools p",
            "get",
            "get 0 p",
            "get 0 p ",
            "get 0 1.0",
            "get 0 p 1.0 1.0",
            "cut",
            "cut 0 0",
            "arm 1",
            "arm 1 0 0",
        ],
    );
}

#[test]
fn numbers_in_another_form(rt: HostRuntime) {
    are_none(
        &rt,
        &[
            "type 01 2 1",
            "type 1 02 1",
            "type +1 2 1",
            "type -1 2 1",
            "type 1a 2 1",
            "type / 2 1",
            "type : 2 1",
            "type é 2 1",
            "client 00 5 5",
        ],
    );
}

#[test]
fn numbers_out_of_range(rt: HostRuntime) {
    are_none(
        &rt,
        &[
            "type 0 2 1",
            "type 65536 2 1",
            "type 1 0 -",
            "type 1 31 -",
            "type 18446744073709551617 2 1",
            "type 1 4294967298 1",
            "type 1111111111111111111111111111111111111111 2 1",
            "client 8 5 5",
            "client 256 5 5",
            "client 0 65536 5",
            "client 0 5 65536",
            "leave 8",
            "pool 8 p 600",
            "chmod 8 p 600",
            "drop 8 p",
            "cut 18446744073709551616",
            "arm 0 0",
            "arm 1000001 0",
            "arm 1 18446744073709551616",
        ],
    );
}

#[test]
fn lists_of_fields_that_are_none(rt: HostRuntime) {
    are_none(
        &rt,
        &[
            "type 1 2 2",
            "type 1 30 30",
            "type 1 2 01",
            "type 1 2 00",
            "type 1 2 é",
            "type 1 2 1,0",
            "type 1 2 1,1",
            "type 1 2 0,",
            "type 1 2 ,0",
            "type 1 3 0,,2",
            "type 1 2 -,1",
            "type 1 2 --",
            "type 1 2 1000000000000000000000000000000000000000000000000000000000000000000000000000000000000000000000000000",
        ],
    );
}

#[test]
fn places_of_fields_that_are_none(rt: HostRuntime) {
    are_none(
        &rt,
        &[
            "get 0 p 1",
            "get 0 p .",
            "get 0 p 1.",
            "get 0 p .1",
            "get 0 p 1..0",
            "get 0 p 1.0.",
            "get 0 p 1.0.0",
            "get 0 p .1.0",
            "get 0 p 1,0",
            "get 0 p 1:0",
            "get 0 p @1.0",
            "get 0 p 1.@0",
            "get 0 p 0.0",
            "get 0 p 01.0",
            "get 0 p 00.0",
            "get 0 p +1.0",
            "get 0 p -1.0",
            "get 0 p 1a.0",
            "get 0 p é.0",
            "get 0 p 18446744073709551616.0",
            "get 0 p 18446744073709551617.0",
            "get 0 p 1.30",
            "get 0 p 1.00",
            "get 0 p 1.01",
            "get 0 p 1.+0",
            "get 0 p 1.-0",
            "get 0 p 1.-",
            "get 0 p 1.a",
            "get 0 p 1.4294967296",
            "get 0 p 1.18446744073709551616",
            "get 8 p 1.0",
            "get 0 P 1.0",
            "get 0 abcdefghijklmnopq 1.0",
        ],
    );
}

#[test]
fn names_of_pools_that_are_none(rt: HostRuntime) {
    are_none(
        &rt,
        &[
            "pool 0  600",
            "chmod 0  600",
            "drop 0 ",
            "pool 0 abcdefghijklmnopq 600",
            "chmod 0 abcdefghijklmnopq 600",
            "drop 0 abcdefghijklmnopq",
            "pool 0 P 600",
            "chmod 0 pooL 600",
            "drop 0 A",
            "drop 0 Z",
            "pool 0 a-b 600",
            "drop 0 -",
            "dump 0 ",
            "dump 0 P",
            "dump 0 p p",
            "export 0 p",
            "export 0 p ",
            "export 0 p P",
            "export 0 P p",
            "export 0 p p.",
            "export 0 p abcdefghijklmnopq",
            "export 0 p p p",
            "drop 0 p\0",
            "drop 0 /",
            "drop 0 :",
            "drop 0 ^",
            "drop 0 `",
            "drop 0 {",
            "drop 0 é",
        ],
    );
}

#[test]
fn modes_of_pools_that_are_none(rt: HostRuntime) {
    are_none(
        &rt,
        &[
            "pool 0 p ",
            "pool 0 p 6",
            "pool 0 p 66",
            "pool 0 p 6666",
            "chmod 0 p 0600",
            "pool 0 p 100",
            "pool 0 p 010",
            "pool 0 p 001",
            "chmod 0 p 366",
            "chmod 0 p 656",
            "chmod 0 p 667",
            "chmod 0 p 866",
            "chmod 0 p 6.6",
            "chmod 0 p -66",
            "chmod 0 p 66a",
            "chmod 0 p rw-",
        ],
    );
}

#[test]
fn lines_of_128_and_of_129_bytes(rt: HostRuntime) {
    are_none(
        &rt,
        &[
            "type 1 2 11111111111111111111111111111111111111111111111111111111111111111111111111111111111111111111111111111111111111111111111",
            "type 1 2 111111111111111111111111111111111111111111111111111111111111111111111111111111111111111111111111111111111111111111111111",
        ],
    );
}
