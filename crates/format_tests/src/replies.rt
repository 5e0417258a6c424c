//! Tests of the texts of replies.
use script::{Refusal, Reply, print_reply};
use std::process::Abort;

/// Asserts that each reply has its text.
fn have_texts(rt: &impl Abort, rows: &[(Reply, &str)]) {
    for (reply, text) in rows {
        let mut out = [0; 32];
        let length = print_reply(*reply, &mut out);
        assert!(rt; &out[..length] == text.as_bytes(), "{text}");
    }
}

#[test]
fn texts_of_replies(rt: HostRuntime) {
    have_texts(
        &rt,
        &[
            (Reply::Ok, "ok\n"),
            (Reply::Num(0), "ok 0\n"),
            (Reply::Num(u64::MAX), "ok 18446744073709551615\n"),
            (Reply::Ref(0), "ok @0\n"),
            (Reply::Ref(u64::MAX), "ok @18446744073709551615\n"),
            (Reply::No(Refusal::Bad), "no bad\n"),
            (Reply::No(Refusal::Client), "no client\n"),
            (Reply::No(Refusal::Taken), "no taken\n"),
            (Reply::No(Refusal::Pool), "no pool\n"),
            (Reply::No(Refusal::Exists), "no exists\n"),
            (Reply::No(Refusal::Wild), "no wild\n"),
            (Reply::No(Refusal::Denied), "no denied\n"),
            (Reply::No(Refusal::Busy), "no busy\n"),
            (Reply::No(Refusal::OpenHere), "no open\n"),
            (Reply::No(Refusal::Tx), "no tx\n"),
            (Reply::No(Refusal::NoType), "no type\n"),
            (Reply::No(Refusal::Object), "no object\n"),
            (Reply::No(Refusal::Field), "no field\n"),
            (Reply::No(Refusal::Kind), "no kind\n"),
            (Reply::No(Refusal::Held), "no held\n"),
            (Reply::No(Refusal::Deep), "no deep\n"),
            (Reply::No(Refusal::Logs), "no logs\n"),
            (Reply::No(Refusal::TooBig), "no toobig\n"),
            (Reply::No(Refusal::File), "no file\n"),
            (Reply::No(Refusal::Memory), "no memory\n"),
            (Reply::No(Refusal::BadFile), "no badfile\n"),
            (Reply::No(Refusal::Clash), "no clash\n"),
            (Reply::No(Refusal::Full), "no full\n"),
            (Reply::No(Refusal::Space), "no space\n"),
            (Reply::Cut, "cut\n"),
        ],
    );
}
