//! The table of names of words. It follows the records that `pud_defs` defines. Where these records stand is in
//! `layouts`.
use crate::layouts::Records;
use crate::layouts::Records::*;
use pud_defs::files::{
    FILE_HEADER_WORDS, FILE_MACHINE_WORD, FILE_MAGIC_WORD, FILE_NUMBER_WORD, FILE_PUDDLES_WORD,
    FILE_TYPES_WORD, FILE_VERSION_WORD,
};
use pud_defs::layout::{
    DAEMON_LOG, FRAME_WORDS, FRAMES_WORD, LOG_ENTRY_WORDS, LOG_HEADER_WORDS, LOG_WORDS,
    MACHINE_WORD, MAGIC_WORD, NEXT_NUMBER_WORD, PUDDLE_RECORD_WORDS, SPACE_RECORD_WORDS,
    TYPE_RECORD_WORDS, VERSION_WORD,
};
use pud_defs::records::{
    NAME_WORDS, POOL_MODE_WORD, POOL_NUMBER_WORD, POOL_OWNER_WORD, POOL_RECORD_WORDS,
    PUDDLE_BASE_WORD, PUDDLE_FRONTIER_WORD, PUDDLE_MEMBER_WORD, PUDDLE_NUMBER_WORD,
    PUDDLE_OLD_BASE_WORD,
};
use pud_defs::space::{
    FRAME_HEADER_WORDS, FRAME_MAGIC_WORD, FRAME_NUMBER_WORD, FRAME_ORDINAL_WORD, LARGE_SLOT_WORDS,
    NEXT_SERIAL_WORD, ROOT_WORD, SLOT_SERIAL_WORD, SLOT_TYPE_WORD, SMALL_SLOT_WORDS,
};

/// A name: its words, with `#` for each number that tells the records apart; the records of which it is a name; the
/// first of the words for which it stands, counted in the record; and how many these are.
pub type Name = (&'static str, Records, u32, u32);

/// All names of words.
pub const NAMES: [Name; 57] = [
    ("device", Device, 0, DAEMON_LOG),
    ("device magic", Device, MAGIC_WORD, 1),
    ("device version", Device, VERSION_WORD, 1),
    ("device machine", Device, MACHINE_WORD, 1),
    ("device frames", Device, FRAMES_WORD, 1),
    ("device next-number", Device, NEXT_NUMBER_WORD, 1),
    ("daemon-log", DaemonLog, 0, LOG_WORDS),
    ("daemon-log gate", DaemonLog, 0, 1),
    (
        "daemon-log entries",
        DaemonLog,
        LOG_HEADER_WORDS,
        LOG_ENTRY_WORDS,
    ),
    ("type #", Types, 0, TYPE_RECORD_WORDS),
    ("type # id", Types, 0, 1),
    ("type # map", Types, 1, 1),
    ("pool #", Pools, 0, POOL_RECORD_WORDS),
    ("pool # name", Pools, 0, NAME_WORDS),
    ("pool # owner", Pools, POOL_OWNER_WORD, 1),
    ("pool # mode", Pools, POOL_MODE_WORD, 1),
    ("pool # number", Pools, POOL_NUMBER_WORD, 1),
    ("log-space #", LogSpaces, 0, SPACE_RECORD_WORDS),
    ("log-space # registered", LogSpaces, 0, 1),
    ("log-space # uid", LogSpaces, 1, 1),
    ("log-space # gid", LogSpaces, 2, 1),
    ("log # #", Logs, 0, LOG_WORDS),
    ("log # # gate", Logs, 0, 1),
    ("log # # entries", Logs, LOG_HEADER_WORDS, LOG_ENTRY_WORDS),
    ("log number #", NumberedLogs, 0, LOG_WORDS),
    ("log number # gate", NumberedLogs, 0, 1),
    (
        "log number # entries",
        NumberedLogs,
        LOG_HEADER_WORDS,
        LOG_ENTRY_WORDS,
    ),
    ("puddle # record", Puddles, 0, PUDDLE_RECORD_WORDS),
    ("puddle # record member", Puddles, PUDDLE_MEMBER_WORD, 1),
    ("puddle # record number", Puddles, PUDDLE_NUMBER_WORD, 1),
    ("puddle # record base", Puddles, PUDDLE_BASE_WORD, 1),
    ("puddle # record old-base", Puddles, PUDDLE_OLD_BASE_WORD, 1),
    ("puddle # record frontier", Puddles, PUDDLE_FRONTIER_WORD, 1),
    ("puddle # frame", Frames, 0, FRAME_WORDS),
    ("puddle # header", Frames, 0, FRAME_HEADER_WORDS),
    ("puddle # header magic", Frames, FRAME_MAGIC_WORD, 1),
    ("puddle # header number", Frames, FRAME_NUMBER_WORD, 1),
    ("puddle # header ordinal", Frames, FRAME_ORDINAL_WORD, 1),
    ("puddle # header next-serial", Frames, NEXT_SERIAL_WORD, 1),
    ("puddle # header root", Frames, ROOT_WORD, 1),
    ("puddle # slot #", Slots, 0, LARGE_SLOT_WORDS),
    ("puddle # slot # serial", Slots, SLOT_SERIAL_WORD, 1),
    ("puddle # slot # type", Slots, SLOT_TYPE_WORD, 1),
    ("puddle # slot # field #", Fields, 0, 1),
    ("puddle # small-slot #", SmallSlots, 0, SMALL_SLOT_WORDS),
    (
        "puddle # small-slot # serial",
        SmallSlots,
        SLOT_SERIAL_WORD,
        1,
    ),
    ("puddle # small-slot # type", SmallSlots, SLOT_TYPE_WORD, 1),
    ("puddle # small-slot # field #", SmallFields, 0, 1),
    ("header", File, 0, FILE_HEADER_WORDS),
    ("header magic", File, FILE_MAGIC_WORD, 1),
    ("header version", File, FILE_VERSION_WORD, 1),
    ("header types", File, FILE_TYPES_WORD, 1),
    ("header puddles", File, FILE_PUDDLES_WORD, 1),
    ("header machine", File, FILE_MACHINE_WORD, 1),
    ("header number", File, FILE_NUMBER_WORD, 1),
    ("base #", Bases, 0, 1),
    ("class #", Classes, 0, 1),
];

/// The names of whole tables. Each stands for all records of one table.
pub const TABLES: [(&str, Records); 6] = [
    ("types", Types),
    ("pools", Pools),
    ("log-spaces", LogSpaces),
    ("puddle-records", Puddles),
    ("logs", NumberedLogs),
    ("frames", Frames),
];
