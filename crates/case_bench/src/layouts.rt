//! Where the records of a device and of an export file stand.
use pud_defs::files::{FILE_HEADER_WORDS, FIRST_FILE_VERSION};
use pud_defs::layout::{
    CLIENT_LOGS, CLIENTS, DAEMON_LOG, FRAME_WORDS, LOG_WORDS, POOL_TABLE, PUDDLE_RECORD_WORDS,
    PUDDLE_TABLE, SPACE_RECORD_WORDS, SPACE_TABLE, TYPE_RECORD_WORDS, TYPE_RECORDS, TYPE_TABLE,
};
use pud_defs::records::{POOL_RECORD_WORDS, POOL_RECORDS};
use pud_defs::space::{
    FRAME_HEADER_WORDS, LARGE, SLOT_FIELDS_WORD, SMALL, class_slot_words, class_slots,
};

/// A kind of records: all of them have the same words.
#[derive(Clone, Copy)]
pub enum Records {
    /// The words of a device before its daemon log.
    Device,
    DaemonLog,
    Types,
    Pools,
    LogSpaces,
    /// The records of the puddle table.
    Puddles,
    /// The clients' logs, each by its client and its number among that client's logs.
    Logs,
    /// The clients' logs, each by its number among the logs of all clients.
    NumberedLogs,
    Frames,
    /// The slots of large puddles.
    Slots,
    /// The fields of the slots of large puddles.
    Fields,
    /// The slots of small puddles.
    SmallSlots,
    /// The fields of the slots of small puddles.
    SmallFields,
    /// The words of an export file before its types.
    File,
    /// The bases of an export file.
    Bases,
    /// The classes of an export file.
    Classes,
}

/// What decides where records stand.
#[derive(Clone, Copy)]
pub enum Layout {
    /// A device with this many frames.
    Device {
        frames: u64,
    },
    /// An export file of this version with this many types and puddles.
    File {
        version: u64,
        types: u64,
        puddles: u64,
    },
}

/// A number that tells records apart: how many words lie from the start of one record to the next, and how many records
/// there are.
#[derive(Clone, Copy)]
pub struct Step {
    pub words: u64,
    pub count: u64,
}

/// Where records stand.
#[derive(Clone, Copy)]
pub struct Span {
    /// The first word of the first record.
    pub first: u64,
    /// A step for each number that tells the records apart.
    pub steps: [Step; 3],
    /// How many words a record has.
    pub words: u64,
}

/// The step for a number that a name does not have.
const NONE: Step = Step { words: 0, count: 1 };

/// How many words all the clients' logs have.
const LOGS_WORDS: u64 = (LOG_WORDS * CLIENT_LOGS * CLIENTS) as u64;

impl Layout {
    /// Where these records stand, or `None` if this layout has no such records.
    pub fn span(self, records: Records) -> Option<Span> {
        match self {
            Layout::Device { frames } => device_span(frames, records),
            Layout::File {
                version,
                types,
                puddles,
            } => file_span(version, types, puddles, records),
        }
    }
}

fn step_of(words: u32, count: u32) -> Step {
    Step {
        words: u64::from(words),
        count: u64::from(count),
    }
}

/// This many records, one after the other from this word on.
fn rows(first: u64, words: u32, count: u64) -> Span {
    let words = u64::from(words);
    Span {
        first,
        steps: [Step { words, count }, NONE, NONE],
        words,
    }
}

fn device_span(frames: u64, records: Records) -> Option<Span> {
    let puddles = rows(u64::from(PUDDLE_TABLE), PUDDLE_RECORD_WORDS, frames);
    let logs = puddles
        .first
        .saturating_add(puddles.words.saturating_mul(frames));
    let span = match records {
        Records::Device => rows(0, DAEMON_LOG, 1),
        Records::DaemonLog => rows(u64::from(DAEMON_LOG), LOG_WORDS, 1),
        Records::Types => types_span(u64::from(TYPE_TABLE), u64::from(TYPE_RECORDS)),
        Records::Pools => rows(
            u64::from(POOL_TABLE),
            POOL_RECORD_WORDS,
            u64::from(POOL_RECORDS),
        ),
        Records::LogSpaces => rows(
            u64::from(SPACE_TABLE),
            SPACE_RECORD_WORDS,
            u64::from(CLIENTS),
        ),
        Records::Puddles => puddles,
        Records::Logs => Span {
            first: logs,
            steps: [
                step_of(LOG_WORDS * CLIENT_LOGS, CLIENTS),
                step_of(LOG_WORDS, CLIENT_LOGS),
                NONE,
            ],
            words: u64::from(LOG_WORDS),
        },
        Records::NumberedLogs => rows(logs, LOG_WORDS, u64::from(CLIENT_LOGS * CLIENTS)),
        _ => return frames_span(logs.saturating_add(LOGS_WORDS), frames, records),
    };
    Some(span)
}

fn file_span(version: u64, types: u64, puddles: u64, records: Records) -> Option<Span> {
    let header = u64::from(FILE_HEADER_WORDS);
    let bases = header.saturating_add(u64::from(TYPE_RECORD_WORDS).saturating_mul(types));
    let classes = bases.saturating_add(puddles);
    let count = match version {
        FIRST_FILE_VERSION => 0,
        _ => puddles,
    };
    match records {
        Records::File => Some(rows(0, FILE_HEADER_WORDS, 1)),
        Records::Types => Some(types_span(header, types)),
        Records::Bases => Some(rows(bases, 1, puddles)),
        Records::Classes => Some(rows(classes, 1, count)),
        _ => frames_span(classes.saturating_add(count), puddles, records),
    }
}

fn types_span(first: u64, count: u64) -> Span {
    rows(first, TYPE_RECORD_WORDS, count)
}

/// Where the frames stand, or what lies in each of them, if this many frames begin at this word.
fn frames_span(first: u64, count: u64, records: Records) -> Option<Span> {
    let frames = rows(first, FRAME_WORDS, count);
    let step = frames.steps[0];
    match records {
        Records::Frames => Some(frames),
        Records::Slots => Some(slots_span(first, step, LARGE)),
        Records::Fields => Some(fields_span(first, step, LARGE)),
        Records::SmallSlots => Some(slots_span(first, step, SMALL)),
        Records::SmallFields => Some(fields_span(first, step, SMALL)),
        _ => None,
    }
}

/// Where the slots of each puddle stand, if the frames begin at this word and each puddle is of this class.
fn slots_span(first: u64, puddle: Step, class: u32) -> Span {
    let words = class_slot_words(class);
    Span {
        first: first.saturating_add(u64::from(FRAME_HEADER_WORDS)),
        steps: [puddle, step_of(words, class_slots(class)), NONE],
        words: u64::from(words),
    }
}

/// Where the fields of each slot stand, if the frames begin at this word and each puddle is of this class.
fn fields_span(first: u64, puddle: Step, class: u32) -> Span {
    let slots = slots_span(first, puddle, class);
    let fields = class_slot_words(class).saturating_sub(SLOT_FIELDS_WORD);
    Span {
        first: slots.first.saturating_add(u64::from(SLOT_FIELDS_WORD)),
        steps: [slots.steps[0], slots.steps[1], step_of(1, fields)],
        words: 1,
    }
}
