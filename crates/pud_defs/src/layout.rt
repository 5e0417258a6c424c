//! Where things lie on a device: word numbers, sizes and limits.

ghost use Rattle.std.specs.Prelude.{◌≡◌, ◌<◌, ◌≤◌};
ghost use Rattle.pud_defs.specs.Formats.Layout.{tables_end, log_at, frames_at, device_words};
ghost use Rattle.pud_defs.specs.Logging.Settled.{ALL_LOGS, log_number_at};
ghost use Rattle.pud_defs.specs.RegistryTables.Types.{type_record_at};
ghost use Rattle.pud_defs.specs.RegistryTables.Pools.{pool_record_at};
ghost use Rattle.pud_defs.specs.RegistryTables.Spaces.{space_record_at};
ghost use Rattle.pud_defs.specs.RegistryTables.Puddles.{puddle_record_at};

use crate::records::{POOL_RECORD_WORDS, POOL_RECORDS};

/// The number of a log among the 32 of a device, 0 to 31. Log `k` of client `c` has the number `4 * c + k`.
pub type LogNumber = u32;

/// The value of word 0 of a formatted device: the eight bytes `PUDDEV01`, lowest first.
pub const DEVICE_MAGIC: u64 = 0x3130_5645_4444_5550;

/// The value of word 1 of a formatted device: the present version of the formats.
pub const VERSION: u64 = 2;

/// The first version. A device of it is read as it stands: its formats are the present ones, and each puddle is large.
pub const FIRST_VERSION: u64 = 1;

/// The word that stores the device magic.
pub const MAGIC_WORD: u32 = 0;

/// The word that stores the version.
pub const VERSION_WORD: u32 = 1;

/// The word that stores the machine id.
pub const MACHINE_WORD: u32 = 2;

/// The word that stores the number of frames.
pub const FRAMES_WORD: u32 = 3;

/// The word that stores the next UUID number.
pub const NEXT_NUMBER_WORD: u32 = 4;

/// The first word of the daemon log, which is its gate.
pub const DAEMON_LOG: u32 = 64;

/// How many words a log has.
pub const LOG_WORDS: u32 = 1024;

/// How many words a log has before its entry words: the gate, and seven that are not read.
pub const LOG_HEADER_WORDS: u32 = 8;

/// How many entry words a log has.
pub const LOG_ENTRY_WORDS: u32 = LOG_WORDS - LOG_HEADER_WORDS;

/// How many words an entry has before its values: the address, and the word that tells how many values there are.
pub const ENTRY_HEADER_WORDS: u32 = 2;

/// The most values that an entry has.
pub const MAX_ENTRY_VALUES: u32 = 32;

/// The most words that an entry has, with its header and its values.
pub const MAX_ENTRY_WORDS: u32 = ENTRY_HEADER_WORDS + MAX_ENTRY_VALUES;

/// The first word of the type table.
pub const TYPE_TABLE: u32 = 1088;

/// How many records the type table has.
pub const TYPE_RECORDS: u32 = 64;

/// How many words a type record has: the type id, which is 0 if the record is free, and the map word.
pub const TYPE_RECORD_WORDS: u32 = 2;

/// The first word of the pool table.
pub const POOL_TABLE: u32 = 1216;

/// The first word of the log-space table.
pub const SPACE_TABLE: u32 = 1472;

/// How many words a log-space record has.
pub const SPACE_RECORD_WORDS: u32 = 8;

/// How many clients there are. Each has a log-space record of its own.
pub const CLIENTS: u32 = 8;

/// How many logs each client has.
pub const CLIENT_LOGS: u32 = 4;

/// How many logs all clients have.
pub const LOGS: usize = (CLIENTS * CLIENT_LOGS) as usize;

/// The largest depth of a transaction. Its first `begin` gives it the depth 1. Each further `begin` makes it one
/// deeper, and each `commit` one less deep.
pub const MAX_DEPTH: u32 = 16;

/// How many units of its log a transaction uses to set a field (at once or at the commit), to set the root or to free
/// an object. These are the entry words of an entry of one word.
pub const SET_UNITS: u32 = ENTRY_HEADER_WORDS + 1;

/// The first word of the puddle table, which has a record for each frame.
pub const PUDDLE_TABLE: u32 = 1536;

/// How many words a puddle record has.
pub const PUDDLE_RECORD_WORDS: u32 = 8;

/// How many words a frame has.
pub const FRAME_WORDS: u32 = 2048;

/// The fewest frames that a device has.
pub const MIN_FRAMES: u32 = 4;

/// The most frames that a device has.
pub const MAX_FRAMES: u32 = 1024;

/// The largest value that the next UUID number may have, 2^63.
pub const NUMBER_LIMIT: u64 = 0x8000_0000_0000_0000;

/// The largest type id.
pub const MAX_TYPE_ID: u32 = 65535;

/// The largest uid, and the largest gid.
pub const MAX_OWNER_ID: u32 = 65535;

/// The most fields that a type has.
pub const MAX_FIELDS: u32 = 30;

/// The largest step at which `arm` may let power be lost. Device steps are counted from the arming on.
pub const MAX_ARMED_STEP: u32 = 1_000_000;

/// The most bytes that a line may have, without its newline.
pub const LINE_LIMIT: usize = 128;

/// The most bytes that the text of a reply has, its newline included.
pub const REPLY_LIMIT: usize = 32;

/// The most bytes of a script that are taken, 2^20.
pub const SCRIPT_LIMIT: u32 = 0x10_0000;

/// The first word of a record of the type table. For the index `TYPE_RECORDS` it is the first word after the table.
pub const fn type_record_at(index: u32) -> u32
    requires { index ≤ TYPE_RECORDS }
    ensures { result ≡ type_record_at index }
{
    TYPE_TABLE + TYPE_RECORD_WORDS * index
}

/// The first word of the pool record of a slot.
pub const fn pool_record_at(slot: u32) -> u32
    requires { slot < POOL_RECORDS }
    ensures { result ≡ pool_record_at slot }
{
    POOL_TABLE + POOL_RECORD_WORDS * slot
}

/// The first word of the log-space record of a client.
pub const fn space_record_at(client: u32) -> u32
    requires { client < CLIENTS }
    ensures { result ≡ space_record_at client }
{
    SPACE_TABLE + SPACE_RECORD_WORDS * client
}

/// The first word of the puddle record of a frame.
pub const fn puddle_record_at(frame: u32) -> u32
    requires { frame < MAX_FRAMES }
    ensures { result ≡ puddle_record_at frame }
{
    PUDDLE_TABLE + PUDDLE_RECORD_WORDS * frame
}

/// The first word after the puddle table, on a device with `frames` frames.
pub const fn tables_end(frames: u32) -> u32
    requires { frames ≤ MAX_FRAMES }
    ensures { result ≡ tables_end frames }
{
    PUDDLE_TABLE + PUDDLE_RECORD_WORDS * frames
}

/// The gate of log `number` of client `client`, on a device with `frames` frames.
pub const fn log_at(frames: u32, client: u32, number: u32) -> u32
    requires few_frames { frames ≤ MAX_FRAMES }
    requires known_client { client < CLIENTS }
    requires known_log { number < CLIENT_LOGS }
    ensures { result ≡ log_at frames client number }
{
    tables_end(frames) + LOG_WORDS * (CLIENT_LOGS * client + number)
}

/// The gate of a log, given its number among the logs of all clients, on a device with `frames` frames.
pub const fn log_number_at(frames: u32, number: LogNumber) -> u32
    requires few_frames { frames ≤ MAX_FRAMES }
    requires known { number < ALL_LOGS }
    ensures { result ≡ log_number_at frames number }
{
    log_at(frames, number / CLIENT_LOGS, number % CLIENT_LOGS)
}

/// The first word of the first frame, on a device with `frames` frames. Between the puddle table and the frames lie 32
/// logs of 1,024 words.
pub const fn frames_at(frames: u32) -> u32
    requires { frames ≤ MAX_FRAMES }
    ensures { result ≡ frames_at frames }
{
    tables_end(frames) + CLIENTS * CLIENT_LOGS * LOG_WORDS
}

/// How many words a device with `frames` frames needs. A device may be larger; the rest is not read.
pub const fn device_words(frames: u32) -> u32
    requires { frames ≤ MAX_FRAMES }
    ensures { result ≡ device_words frames }
{
    frames_at(frames) + FRAME_WORDS * frames
}
