//! The lines on frames, pools and puddles, and on what pools hold, each as a text.

ghost use Rattle.std.specs.Prelude.{◌≡◌, ◌+◌, ◌≤◌, ◌∷◌, ◌++◌};
ghost use Rattle.arrayvec.specs.ArrayVec.{array_vec_len};
ghost use Rattle.pool_list.specs.declared.text.TheConstants.{TEXT_LIMIT};
ghost use Rattle.pud_defs.specs.Formats.Identifiers.{puddle_uuid, uuid_text};
ghost use Rattle.pud_defs.specs.Output.CheckText.{count_line};
ghost use Rattle.pud_defs.specs.Output.LayoutText.{address_text, class_text, frames_line, pool_line};
ghost use Rattle.pud_defs.specs.Output.Listing.{space};
ghost use Rattle.pud_check.specs.Checked.{objects_text, objects_line};
ghost use Rattle.pud_check.specs.LayoutListed.{field_text, record_line};
ghost use Rattle.pud_check.specs.Summary.{summed_text, summed_line, refusals_line};

use crate::sums::Summed;
use pool_list::text::{Text, add, add_identifier, add_long, add_mode, add_name, add_number};
use pud_defs::records::{Name, PoolRecord, PuddleRecord};
use pud_defs::space::SMALL;
use uid_make::print_uuid;

/// Adds a space and the number.
fn add_field(text: &mut Text, number: u32)
    requires { array_vec_len text.old + 11 ≤ TEXT_LIMIT }
    ensures field { text.new.items ≡ text.old.items ++ field_text number }
    ensures within { array_vec_len text.new ≤ array_vec_len text.old + 11 }
{
    text.push(b' ');
    add_number(text, number);
}

/// Adds a space and the address. Its twelve digits are the last group of the identifier with the same number.
fn add_address(text: &mut Text, address: u64)
    requires { array_vec_len text.old + 13 ≤ TEXT_LIMIT }
    ensures address { text.new.items ≡ text.old.items ++ space ∷ address_text address }
    ensures within { array_vec_len text.new ≡ array_vec_len text.old + 13 }
{
    let mut identifier = [0; 36];
    print_uuid(u128::from(address), &mut identifier);
    text.push(b' ');
    add(text, &identifier[24..]);
}

/// Adds a space and the identifier of the UUID number on the machine of this id.
fn add_uuid(text: &mut Text, id: u64, number: u64)
    requires { array_vec_len text.old + 37 ≤ TEXT_LIMIT }
    ensures identifier { text.new.items ≡ text.old.items ++ space ∷ uuid_text (puddle_uuid id number) }
    ensures within { array_vec_len text.new ≡ array_vec_len text.old + 37 }
{
    text.push(b' ');
    add_identifier(text, id, number);
}

/// Adds a space and the name of the class.
fn add_class(text: &mut Text, class: u32)
    requires { array_vec_len text.old + 6 ≤ TEXT_LIMIT }
    ensures class { text.new.items ≡ text.old.items ++ space ∷ class_text class }
    ensures within { array_vec_len text.new ≡ array_vec_len text.old + 6 }
{
    text.push(b' ');
    if class == SMALL {
        add(text, b"small");
    } else {
        add(text, b"large");
    }
}

/// `frames F used U next N`, at most 60 bytes.
pub fn frames_line(frames: u32, used: u32, next: u64) -> Text
    ensures { result.items ≡ frames_line frames used next }
{
    let mut text = Text::new();
    add(&mut text, b"frames ");
    add_number(&mut text, frames);
    add(&mut text, b" used ");
    add_number(&mut text, used);
    add(&mut text, b" next ");
    add_long(&mut text, next);
    text.push(b'\n');
    text
}

/// `pool NAME uid gid mode identifier`, on the machine of this id: at most 85 bytes.
pub fn pool_line(id: u64, rec: &PoolRecord) -> Text
    ensures { result.items ≡ pool_line id rec.now }
{
    let mut text = Text::new();
    add(&mut text, b"pool ");
    add_name(&mut text, &rec.name);
    add_field(&mut text, rec.uid);
    add_field(&mut text, rec.gid);
    text.push(b' ');
    add_mode(&mut text, rec.mode);
    add_uuid(&mut text, id, rec.number);
    text.push(b'\n');
    text
}

/// `puddle ordinal frame base old_base frontier identifier class`, on the machine of this id: at most 109 bytes.
pub fn puddle_line(id: u64, frame: u32, rec: &PuddleRecord) -> Text
    ensures { result.items ≡ record_line id (frame, rec.now) }
{
    let mut text = Text::new();
    add(&mut text, b"puddle ");
    add_number(&mut text, rec.ordinal);
    add_field(&mut text, frame);
    add_address(&mut text, rec.base);
    add_address(&mut text, rec.old_base);
    add_field(&mut text, rec.frontier);
    add_uuid(&mut text, id, rec.number);
    add_class(&mut text, rec.class);
    text.push(b'\n');
    text
}

/// Adds ` sound objects O puddles K`, or ` wild` if `objects` is None.
fn add_objects(text: &mut Text, objects: Option<u32>, puddles: u32)
    requires { array_vec_len text.old + 44 ≤ TEXT_LIMIT }
    ensures objects { text.new.items ≡ text.old.items ++ objects_text objects puddles }
    ensures within { array_vec_len text.new ≤ array_vec_len text.old + 44 }
{
    match objects {
        None => add(text, b" wild"),
        Some(objects) => {
            add(text, b" sound objects ");
            add_number(text, objects);
            add(text, b" puddles ");
            add_number(text, puddles);
        }
    }
}

/// `NAME sound objects O puddles K`, or `NAME wild` if `objects` is None: at most 61 bytes.
pub fn objects_line(name: &Name, objects: Option<u32>, puddles: u32) -> Text
    ensures { result.items ≡ objects_line name.now objects puddles }
{
    let mut text = Text::new();
    add_name(&mut text, name);
    add_objects(&mut text, objects, puddles);
    text.push(b'\n');
    text
}

/// `pools P`, at most 17 bytes.
pub fn count_line(pools: u32) -> Text
    ensures { result.items ≡ count_line pools }
{
    let mut text = Text::new();
    add(&mut text, b"pools ");
    add_number(&mut text, pools);
    text.push(b'\n');
    text
}

/// Adds ` objects O sum V`, ` wild` or ` absent`.
fn add_summed(text: &mut Text, summed: Summed)
    requires { array_vec_len text.old + 44 ≤ TEXT_LIMIT }
    ensures summed { text.new.items ≡ text.old.items ++ summed_text summed }
    ensures within { array_vec_len text.new ≤ array_vec_len text.old + 44 }
{
    match summed {
        Summed::Absent => add(text, b" absent"),
        Summed::Wild => add(text, b" wild"),
        Summed::Objects(count, sum) => {
            add(text, b" objects ");
            add_number(text, count);
            add(text, b" sum ");
            add_long(text, sum);
        }
    }
}

/// `NAME objects O sum V`, `NAME wild` or `NAME absent`, at most 61 bytes.
pub fn summed_line(name: &Name, summed: Summed) -> Text
    ensures { result.items ≡ summed_line name.now summed }
{
    let mut text = Text::new();
    add_name(&mut text, name);
    add_summed(&mut text, summed);
    text.push(b'\n');
    text
}

/// `lines L refused R`, at most 36 bytes.
pub fn refused_line(lines: u32, refused: u32) -> Text
    ensures { result.items ≡ refusals_line lines refused }
{
    let mut text = Text::new();
    add(&mut text, b"lines ");
    add_number(&mut text, lines);
    add(&mut text, b" refused ");
    add_number(&mut text, refused);
    text.push(b'\n');
    text
}
