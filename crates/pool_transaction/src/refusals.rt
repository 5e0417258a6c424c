//! Finds why a line in an open transaction is refused. Nothing here writes.
ghost use Rattle.std.specs.Prelude.{◌≡◌, ◌+◌, ◌<◌, ◌≤◌, ℕ, true, false, All, Option, IfOk, IfSome, IfNone};
ghost use Rattle.pm_model.specs.Words.{reads};
ghost use Rattle.pm_model.specs.Counts.{fault_of};
ghost use Rattle.pm_model.specs.Reads.{OnlyReads};
ghost use Rattle.pud_defs.specs.declared.layout.TheConstants.{LOG_ENTRY_WORDS, MAX_FRAMES, MAX_FIELDS, SET_UNITS};
ghost use Rattle.pud_defs.specs.declared.machine.Command.TheVariants as commands;
ghost use Rattle.pud_defs.specs.declared.objects.FieldValue.{FieldValue};
ghost use Rattle.pud_defs.specs.declared.space.TheConstants.{SLOT_FIELDS_WORD};
ghost use Rattle.pud_defs.specs.Formats.Geometry.{class_slot_words};
ghost use Rattle.pud_defs.specs.Formats.Bases.{is_legal_base};
ghost use Rattle.pud_defs.specs.Formats.Image.{Image};
ghost use Rattle.pud_defs.specs.Formats.Layout.{device_words};
ghost use Rattle.pud_defs.specs.PoolGraphs.Graph.{object_at};
ghost use Rattle.pud_defs.specs.PoolGraphs.Stored.{IsOnDevice};
ghost use Rattle.pud_defs.specs.StateMachine.World.{World};
ghost use Rattle.pud_defs.specs.StateMachine.Step.{differ_in_kind, refusal_of};
ghost use Rattle.daemon_memory.specs.Memory.{Memory};
ghost use Rattle.daemon_memory.specs.ActiveTransactions.{IsActiveWithin};
ghost use Rattle.puddle_header.specs.Places.{place_of_slot, IsSlotOf};
ghost use Rattle.graph_read.specs.Reading.{table_in, read_by};
ghost use Rattle.hybrid_tx.specs.Objects.Stores.{word_for, IsPlaceAndWord, LacksPlaceOrWord};
ghost use Rattle.known_pool.specs.Known.{IsKnown};
ghost use Rattle.registry.specs.Places.{refusal_in};
ghost use Rattle.pool_transaction.specs.Changing.{IsActiveWith, command_of_update, field_change, IsLegalUpdate, IsFoundWithin, IsUpdate};
ghost use Rattle.pool_transaction.specs.Refusing.{room_refusal, field_refusal, refusal_to_free};
ghost use Rattle.daemon_memory.specs.Ready.{IsReady};

use crate::changing::{FoundUpdate, Update};
use daemon_memory::PoolTransaction;
use graph_read::{FieldRead, field_at};
use hybrid_tx::{has_field, slot_address};
use known_pool::KnownPool;
use pm_model::{Host, HostFault};
use pud_defs::layout::{LOG_ENTRY_WORDS, SET_UNITS};
use pud_defs::machine::Refusal;
use pud_defs::objects::FieldValue;
use pud_defs::records::{Puddle, Slot};

/// Whether one value is a number and the other a reference.
fn differ_in_kind(was: FieldValue, x: FieldValue) -> bool
    ensures { result ≡ differ_in_kind (Option.Some was) x }
{
    match (was, x) {
        (FieldValue::Num(_), FieldValue::Num(_)) | (FieldValue::Ref(_), FieldValue::Ref(_)) =>
            false,
        _ => true,
    }
}

/// Why an update that is otherwise allowed is not made, or `None`. It depends on how many units are used: too few may
/// be left.
fn room_refusal(units: u32) -> Option<Refusal>
    requires { units ≤ LOG_ENTRY_WORDS }
    ensures refusal { result ≡ room_refusal units }
    ensures fits { IfNone result (units + SET_UNITS ≤ LOG_ENTRY_WORDS) }
{
    if LOG_ENTRY_WORDS < units + SET_UNITS {
        Some(Refusal::TooBig)
    } else {
        None
    }
}

/// Why a field is not set to the value `x`, or `None`. It depends on what was read of the field and on how many units
/// are used.
fn field_refusal(read: FieldRead, x: FieldValue, units: u32) -> Option<Refusal>
    requires { units ≤ LOG_ENTRY_WORDS }
    ensures refusal { result ≡ field_refusal read x units }
    ensures fits { IfNone result (units + SET_UNITS ≤ LOG_ENTRY_WORDS) }
{
    match read {
        FieldRead::NoObject => Some(Refusal::Object),
        FieldRead::NoField => Some(Refusal::Field),
        FieldRead::Value(was) => {
            if differ_in_kind(was, x) {
                return Some(Refusal::Kind);
            }
            room_refusal(units)
        }
    }
}

/// Why an object that is there is not freed, or `None`. It depends on whether the root or a field names the object, on
/// whether a deferred value names it, and on how many units are used.
fn refusal_to_free(referenced: bool, asked: bool, units: u32) -> Option<Refusal>
    requires { units ≤ LOG_ENTRY_WORDS }
    ensures refusal { result ≡ refusal_to_free referenced asked units }
    ensures fits { IfNone result (units + SET_UNITS ≤ LOG_ENTRY_WORDS) }
{
    if referenced || asked {
        return Some(Refusal::Held);
    }
    room_refusal(units)
}

/// The word that stands for a value in the pool: the number, 0 for null, or the address of the object with the serial.
/// It is `None` exactly if there is no such object. If the daemon keeps an index of the pool, nothing is read.
fn word_known<H: Host>(
    h: &mut H,
    frames: u32,
    pool: &KnownPool,
    x: FieldValue,
) -> Result<Option<u64>, HostFault>
    requires few { frames ≤ MAX_FRAMES }
    requires room { device_words frames ≤ (H.counts h.old).size }
    requires known { IsOnDevice frames pool.now.puddles }
    ensures word { H.tells → All (λ e. is_legal_base e.1.base ≡ true) pool.now.puddles → (image : Image) → reads (H.state h.old).now.words ≡ image → IsKnown frames image pool.now
        → IfOk result (λ word. word ≡ word_for frames pool.now.puddles image x) }
    ensures only_reads { OnlyReads H.tells H.state H.counts (fault_of result) h.old h.new }
{
    match x {
        FieldValue::Num(v) => Ok(Some(v)),
        FieldValue::Ref(r) => {
            if r == 0 {
                return Ok(Some(0));
            }
            match pool.find(h, frames, r)? {
                Some(at) => Ok(Some(slot_address(pool.as_slice(), &at))),
                None => Ok(None),
            }
        }
    }
}

/// The slot of the object with serial `s`, and the word that stands for the value `x`, in the pool. It is `None`
/// exactly if there is no such object, or no object that the value is to name. The value is looked up first, and each
/// of the two once.
fn place_known<H: Host>(
    h: &mut H,
    frames: u32,
    pool: &KnownPool,
    s: u64,
    x: FieldValue,
) -> Result<Option<(Slot, u64)>, HostFault>
    requires few { frames ≤ MAX_FRAMES }
    requires room { device_words frames ≤ (H.counts h.old).size }
    requires known { IsOnDevice frames pool.now.puddles }
    ensures found { H.tells → All (λ e. is_legal_base e.1.base ≡ true) pool.now.puddles → (image : Image) → reads (H.state h.old).now.words ≡ image → IsKnown frames image pool.now
        → IfOk result (λ found. IfSome found (IsPlaceAndWord frames pool.now.puddles image s x)) }
    ensures none { H.tells → All (λ e. is_legal_base e.1.base ≡ true) pool.now.puddles → (image : Image) → reads (H.state h.old).now.words ≡ image → IsKnown frames image pool.now
        → IfOk result (λ found. found ≡ Option.None → LacksPlaceOrWord frames pool.now.puddles image s x) }
    ensures within { IfOk result (λ found. IfSome found (λ at. IsSlotOf pool.now.puddles at.0)) }
    ensures only_reads { OnlyReads H.tells H.state H.counts (fault_of result) h.old h.new }
{
    let Some(word) = word_known(h, frames, pool, x)? else {
        return Ok(None);
    };
    match pool.find(h, frames, s)? {
        Some(at) => Ok(Some((at, word))),
        None => Ok(None),
    }
}

/// What is read of field `f`, 0 to 29, of the object in a slot. A slot without a word for the field has no such field.
fn field_in<H: Host>(
    h: &mut H,
    frames: u32,
    pool: &[(u32, Puddle)],
    at: &Slot,
    f: u32,
) -> Result<FieldRead, HostFault>
    requires few { frames ≤ MAX_FRAMES }
    requires room { device_words frames ≤ (H.counts h.old).size }
    requires known { IsOnDevice frames pool.now }
    requires within { IsSlotOf pool.now at.now }
    requires field { f < MAX_FIELDS }
    ensures read { H.tells → (image : Image) → reads (H.state h.old).now.words ≡ image
        → IfOk result (λ read. read ≡ read_by (Option.Some (object_at (table_in frames pool.now image) (place_of_slot at.now))) f) }
    ensures fits { IfOk result (λ read. (was : FieldValue) → read ≡ FieldRead.Value was → SLOT_FIELDS_WORD + f < class_slot_words at.now.class) }
    ensures only_reads { OnlyReads H.tells H.state H.counts (fault_of result) h.old h.new }
{
    if !has_field(at, f) {
        return Ok(FieldRead::NoField);
    }
    field_at(h, frames, pool, at, f)
}

/// Finds how field `f`, 0 to 29, of the object with serial `s` gets the value `x`, at once or at the commit: the
/// object's slot, and the word of the value. Or it finds why the line is refused.
///
/// The device has `frames` frames. Each object is looked up once, by the index if one is kept. The only errors are
/// the host's own, and nothing changes.
fn find_field<H: Host>(
    opened: &PoolTransaction,
    h: &mut H,
    frames: u32,
    pool: &KnownPool,
    s: u64,
    f: u32,
    x: FieldValue,
    later: bool,
) -> Result<Result<FoundUpdate, Refusal>, HostFault>
    requires few { frames ≤ MAX_FRAMES }
    requires device { device_words frames ≤ (H.counts h.old).size }
    requires within { IsActiveWithin frames opened.now }
    requires known { IsOnDevice frames pool.now.puddles }
    requires field { f < MAX_FIELDS }
    ensures refusal { H.tells → (size : ℕ) → (w : World) → (memory : Memory) → IsActiveWith frames opened.now pool.now memory → IsReady size w memory (H.state h.old)
        → IfOk result (λ found. refusal_in found ≡ refusal_of w (commands.Set (opened.now).client (opened.now).name s f x)) }
    ensures update { H.tells → (size : ℕ) → (w : World) → (memory : Memory) → IsActiveWith frames opened.now pool.now memory → IsReady size w memory (H.state h.old)
        → IfOk result (λ found. IfOk found (IsUpdate frames opened.now pool.now w (reads (H.state h.old).now.words) (field_change later s f x))) }
    ensures within { IfOk result (λ found. IfOk found (IsFoundWithin pool.now.puddles)) }
    ensures room { IfOk result (λ found. IfOk found (λ _. (opened.now).tx.units + SET_UNITS ≤ LOG_ENTRY_WORDS)) }
    ensures only_reads { OnlyReads H.tells H.state H.counts (fault_of result) h.old h.new }
{
    let Some((at, word)) = place_known(h, frames, pool, s, x)? else {
        return Ok(Err(Refusal::Object));
    };
    let read = field_in(h, frames, pool.as_slice(), &at, f)?;
    match field_refusal(read, x, opened.tx.units()) {
        Some(refusal) => Ok(Err(refusal)),
        None => Ok(Ok(FoundUpdate::Field {
            at,
            f,
            word,
            read,
            x,
            later,
        })),
    }
}

/// Finds how the object with serial `s` becomes the root of the pool, or, with 0, how the root is taken away: the
/// word of the object, and the serial of the present root. Or it finds why the line is refused.
///
/// The device has `frames` frames. The object is looked up once. The only errors are the host's own, and nothing
/// changes.
fn find_root<H: Host>(
    opened: &PoolTransaction,
    h: &mut H,
    frames: u32,
    pool: &KnownPool,
    s: u64,
) -> Result<Result<FoundUpdate, Refusal>, HostFault>
    requires few { frames ≤ MAX_FRAMES }
    requires device { device_words frames ≤ (H.counts h.old).size }
    requires within { IsActiveWithin frames opened.now }
    requires known { IsOnDevice frames pool.now.puddles }
    ensures refusal { H.tells → (size : ℕ) → (w : World) → (memory : Memory) → IsActiveWith frames opened.now pool.now memory → IsReady size w memory (H.state h.old)
        → IfOk result (λ found. refusal_in found ≡ refusal_of w (commands.Root (opened.now).client (opened.now).name s)) }
    ensures update { H.tells → (size : ℕ) → (w : World) → (memory : Memory) → IsActiveWith frames opened.now pool.now memory → IsReady size w memory (H.state h.old)
        → IfOk result (λ found. IfOk found (IsUpdate frames opened.now pool.now w (reads (H.state h.old).now.words) (Update.Root s))) }
    ensures within { IfOk result (λ found. IfOk found (IsFoundWithin pool.now.puddles)) }
    ensures room { IfOk result (λ found. IfOk found (λ _. (opened.now).tx.units + SET_UNITS ≤ LOG_ENTRY_WORDS)) }
    ensures only_reads { OnlyReads H.tells H.state H.counts (fault_of result) h.old h.new }
{
    let Some(word) = word_known(h, frames, pool, FieldValue::Ref(s))? else {
        return Ok(Err(Refusal::Object));
    };
    if let Some(refusal) = room_refusal(opened.tx.units()) {
        return Ok(Err(refusal));
    }
    let was = pool.root(h, frames)?;
    Ok(Ok(FoundUpdate::Root { word, was, s }))
}

/// Finds the slot of the object with serial `s`, at least 1, so that it can be freed, or why it may not be freed.
///
/// The device has `frames` frames. If no index of the pool is kept, the call looks the object up and then makes one
/// pass over the pool. It makes one pass over the log. The only errors are the host's own, and nothing changes.
fn find_free<H: Host>(
    opened: &PoolTransaction,
    h: &mut H,
    frames: u32,
    pool: &KnownPool,
    s: u64,
) -> Result<Result<FoundUpdate, Refusal>, HostFault>
    requires few { frames ≤ MAX_FRAMES }
    requires device { device_words frames ≤ (H.counts h.old).size }
    requires within { IsActiveWithin frames opened.now }
    requires known { IsOnDevice frames pool.now.puddles }
    requires serial { 1 ≤ s }
    ensures refusal { H.tells → (size : ℕ) → (w : World) → (memory : Memory) → IsActiveWith frames opened.now pool.now memory → IsReady size w memory (H.state h.old)
        → IfOk result (λ found. refusal_in found ≡ refusal_of w (commands.Free (opened.now).client (opened.now).name s)) }
    ensures update { H.tells → (size : ℕ) → (w : World) → (memory : Memory) → IsActiveWith frames opened.now pool.now memory → IsReady size w memory (H.state h.old)
        → IfOk result (λ found. IfOk found (IsUpdate frames opened.now pool.now w (reads (H.state h.old).now.words) (Update.Free s))) }
    ensures within { IfOk result (λ found. IfOk found (IsFoundWithin pool.now.puddles)) }
    ensures room { IfOk result (λ found. IfOk found (λ _. (opened.now).tx.units + SET_UNITS ≤ LOG_ENTRY_WORDS)) }
    ensures only_reads { OnlyReads H.tells H.state H.counts (fault_of result) h.old h.new }
{
    let Some(at) = pool.find(h, frames, s)? else {
        return Ok(Err(Refusal::Object));
    };
    let referenced = pool.is_referenced(h, frames, s)?;
    let asked = opened
        .tx
        .deferred_names_at(h, frames, pool.as_slice(), s, &at)?;
    match refusal_to_free(referenced, asked, opened.tx.units()) {
        Some(refusal) => Ok(Err(refusal)),
        None => Ok(Ok(FoundUpdate::Object { at, s })),
    }
}

/// Finds what the update needs, or why it is not made. A deferred value is refused for the same reasons as one that
/// is set at once.
///
/// The device has `frames` frames. The only errors are the host's own, and nothing changes.
pub(crate) fn find_update<H: Host>(
    opened: &PoolTransaction,
    h: &mut H,
    frames: u32,
    pool: &KnownPool,
    update: Update,
) -> Result<Result<FoundUpdate, Refusal>, HostFault>
    requires few { frames ≤ MAX_FRAMES }
    requires device { device_words frames ≤ (H.counts h.old).size }
    requires within { IsActiveWithin frames opened.now }
    requires known { IsOnDevice frames pool.now.puddles }
    requires legal { IsLegalUpdate update }
    ensures refusal { H.tells → (size : ℕ) → (w : World) → (memory : Memory) → IsActiveWith frames opened.now pool.now memory → IsReady size w memory (H.state h.old)
        → IfOk result (λ found. refusal_in found ≡ refusal_of w (command_of_update update (opened.now).client (opened.now).name)) }
    ensures update { H.tells → (size : ℕ) → (w : World) → (memory : Memory) → IsActiveWith frames opened.now pool.now memory → IsReady size w memory (H.state h.old)
        → IfOk result (λ found. IfOk found (IsUpdate frames opened.now pool.now w (reads (H.state h.old).now.words) update)) }
    ensures within { IfOk result (λ found. IfOk found (IsFoundWithin pool.now.puddles)) }
    ensures room { IfOk result (λ found. IfOk found (λ _. (opened.now).tx.units + SET_UNITS ≤ LOG_ENTRY_WORDS)) }
    ensures only_reads { OnlyReads H.tells H.state H.counts (fault_of result) h.old h.new }
{
    match update {
        Update::Set { s, f, x } => find_field(opened, h, frames, pool, s, f, x, false),
        Update::Later { s, f, x } => find_field(opened, h, frames, pool, s, f, x, true),
        Update::Root { s } => find_root(opened, h, frames, pool, s),
        Update::Free { s } => find_free(opened, h, frames, pool, s),
    }
}
