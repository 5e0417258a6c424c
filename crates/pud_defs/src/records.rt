//! The records of pools, puddles and clients, and their packed words.
//!
//! An owner word has the uid in bits 0 to 31 and the gid in bits 32 to 63. A member word has the pool's slot plus 1 in
//! bits 0 to 31, which are 0 in a free record, and the ordinal in bits 32 to 63. The readers answer for every word,
//! legal or not.

ghost use Rattle.std.specs.Prelude.{◌≡◌, ◌<◌};
ghost use Rattle.pud_defs.specs.Formats.Modes.{is_legal_mode};
ghost use Rattle.pud_defs.specs.Formats.Names.{name_by, is_name_byte};
ghost use Rattle.pud_defs.specs.RegistryTables.Pools.{owner_uid, owner_gid, owner_word};
ghost use Rattle.pud_defs.specs.RegistryTables.Puddles.{member_pool, member_ordinal, member_word, frontier_part, class_part, frontier_with_class};

/// How many records the pool table has.
pub const POOL_RECORDS: u32 = 32;

/// How many words a pool record has.
pub const POOL_RECORD_WORDS: u32 = 8;

/// How many bytes a name has. A shorter one is filled with zeros.
pub const NAME_BYTES: usize = 16;

/// How many words of a pool record store its name, from the first word on. The record is free if the first word is 0.
pub const NAME_WORDS: u32 = 2;

/// The word of a pool record that stores the pool's owner and group.
pub const POOL_OWNER_WORD: u32 = 2;

/// The word of a pool record that stores the pool's mode.
pub const POOL_MODE_WORD: u32 = 3;

/// The word of a pool record that stores the pool's UUID number.
pub const POOL_NUMBER_WORD: u32 = 4;

/// The word of a puddle record that tells whose puddle it is. It is 0 if the record is free.
pub const PUDDLE_MEMBER_WORD: u32 = 0;

/// The word of a puddle record that stores the puddle's UUID number.
pub const PUDDLE_NUMBER_WORD: u32 = 1;

/// The word of a puddle record that stores the puddle's base.
pub const PUDDLE_BASE_WORD: u32 = 2;

/// The word of a puddle record that stores the puddle's old base.
pub const PUDDLE_OLD_BASE_WORD: u32 = 3;

/// The word of a puddle record that stores the puddle's frontier and its class.
pub const PUDDLE_FRONTIER_WORD: u32 = 4;

/// How many words of a pool record or of a puddle record are read, from the first word on.
pub const RECORD_WORDS_READ: u32 = 5;

/// The most puddles that a pool has.
pub const MAX_PUDDLES: u32 = 16;

/// The largest mode: each digit is 6.
pub const MAX_MODE: u32 = 0o666;

/// A name: 1 to 16 bytes, and then zeros.
pub type Name = [u8; NAME_BYTES];

/// The user and the group as which a client acts.
#[derive(Clone, Copy, Debug, PartialEq, Eq)]
pub struct Owner {
    /// The uid, 0 to 65,535 in a legal record.
    pub uid: u32,
    /// The gid, 0 to 65,535 in a legal record.
    pub gid: u32,
}

/// What a pool record states.
#[derive(Clone, Copy, Debug, Default, PartialEq, Eq)]
pub struct PoolRecord {
    /// The name, filled with zeros to 16 bytes.
    pub name: Name,
    /// The uid of the owner, 0 to 65,535 in a legal record.
    pub uid: u32,
    /// The gid of the group, 0 to 65,535 in a legal record.
    pub gid: u32,
    /// The mode. In a legal record it has three octal digits out of 0, 2, 4, 6, for owner, group and others.
    pub mode: u32,
    /// The UUID number, at least 1 and below the next one in a legal record.
    pub number: u64,
}

/// What a puddle record states about its puddle, but not whose it is.
#[derive(Clone, Copy, Debug, Default, PartialEq, Eq)]
pub struct Puddle {
    /// The UUID number, at least 1 and below the next one in a legal record.
    pub number: u64,
    /// The first address of the puddle's range.
    pub base: u64,
    /// The base that stored pointers to this puddle stand over until they are rewritten.
    pub old_base: u64,
    /// How many steps of the puddle are rewritten. In a legal record they are at most all of them.
    pub frontier: u32,
    /// The puddle's class: how many slots it has, and how many words each of them has.
    pub class: u32,
}

/// What a puddle record states: its puddle, and whose it is.
#[derive(Clone, Copy, Debug, Default, PartialEq, Eq)]
pub struct PuddleRecord {
    /// The slot of the pool in the pool table, 0 to 31.
    pub pool: u32,
    /// The place of the puddle in its pool, 0 to 15.
    pub ordinal: u32,
    /// The UUID number, at least 1 and below the next one in a legal record.
    pub number: u64,
    /// The first address of the puddle's range.
    pub base: u64,
    /// The base that stored pointers to this puddle stand over until they are rewritten.
    pub old_base: u64,
    /// How many steps of the puddle are rewritten. In a legal record they are at most all of them.
    pub frontier: u32,
    /// The puddle's class: how many slots it has, and how many words each of them has.
    pub class: u32,
}

/// A slot of a puddle, with the puddle's frame and ordinal.
#[derive(Clone, Copy, Debug, PartialEq, Eq)]
pub struct Slot {
    /// The number of the puddle's frame.
    pub frame: u32,
    /// The place of the puddle in its pool, 0 to 15.
    pub ordinal: u32,
    /// The number of the slot in the puddle.
    pub slot: u32,
    /// The class of the puddle.
    pub class: u32,
}

/// A change of one record, to be part of a batch: the first `n` of these values are written from word `w` of the device
/// on.
#[derive(Clone, Copy, Debug, PartialEq, Eq)]
pub struct Put {
    /// The number of the first word.
    pub w: u32,
    /// How many words are written, 1 to 8.
    pub n: usize,
    /// The values of these words, and then zeros.
    pub vals: [u64; 8],
}

/// The uid in an owner word.
pub fn owner_uid(v: u64) -> u32
    ensures { result ≡ owner_uid v }
{
    (v % (1 << 32)) as u32
}

/// The gid in an owner word.
pub fn owner_gid(v: u64) -> u32
    ensures { result ≡ owner_gid v }
{
    (v >> 32) as u32
}

/// The owner word of this uid and gid.
pub fn owner_word(uid: u32, gid: u32) -> u64
    ensures { result ≡ owner_word uid gid }
{
    u64::from(uid) + (u64::from(gid) << 32)
}

/// The pool's slot plus 1 in a member word.
pub fn member_pool(v: u64) -> u32
    ensures { result ≡ member_pool v }
{
    (v % (1 << 32)) as u32
}

/// The ordinal in a member word.
pub fn member_ordinal(v: u64) -> u32
    ensures { result ≡ member_ordinal v }
{
    (v >> 32) as u32
}

/// The member word of an ordinal of a pool. `pool` is the pool's slot plus 1.
pub fn member_word(pool: u32, ordinal: u32) -> u64
    ensures { result ≡ member_word pool ordinal }
{
    u64::from(pool) + (u64::from(ordinal) << 32)
}

/// The frontier that the last word of a puddle record stores.
pub fn frontier_part(v: u64) -> u32
    ensures { result ≡ frontier_part v }
{
    (v % (1 << 32)) as u32
}

/// The class that the last word of a puddle record stores.
pub fn class_part(v: u64) -> u32
    ensures { result ≡ class_part v }
{
    (v >> 32) as u32
}

/// The last word of the record of a puddle that has this frontier and this class.
pub fn frontier_with_class(frontier: u32, class: u32) -> u64
    ensures word { result ≡ frontier_with_class frontier class }
    ensures frontier { frontier_part result ≡ frontier }
    ensures class { class_part result ≡ class }
{
    u64::from(frontier) + (u64::from(class) << 32)
}

/// Whether the value is a mode: three octal digits out of 0, 2, 4, 6.
pub fn is_legal_mode(v: u64) -> bool
    ensures { result ≡ is_legal_mode v }
{
    v <= u64::from(MAX_MODE) && v % 2 == 0 && v / 8 % 2 == 0 && v / 64 % 2 == 0
}

/// Whether the byte may be in a name: it is a small letter, a digit, or `_`.
pub fn is_name_byte(byte: u8) -> bool
    ensures { result ≡ is_name_byte byte }
{
    matches!(byte, b'a'..=b'z' | b'0'..=b'9' | b'_')
}

/// The 16 bytes of the name that these two words store.
pub fn name_by(first: u64, next: u64) -> Name
    ensures { result ≡ name_by first next }
{
    let mut bytes = [0u8; NAME_BYTES];
    bytes[..8].copy_from_slice(&first.to_le_bytes());
    bytes[8..].copy_from_slice(&next.to_le_bytes());
    bytes
}
