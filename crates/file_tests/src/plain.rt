//! A reader of export files that is the tests' own and follows the grammar alone. It looks each thing up by a walk over
//! all things, and it knows a pointer by the addresses of the live slots.

const FILE_MAGIC: u64 = 0x3130_5058_4544_5550;

const FRAME_MAGIC: u64 = 0x3130_454c_4444_5550;

/// The addresses of the space: the first, how many there are, and how many a puddle has.
const START: u64 = 0x1000_0000_0000;

const ADDRESSES: u64 = 0x100_0000_0000;

const RANGE: u64 = 16_384;

/// Bytes, with the version and the counts of types and puddles that they state.
#[derive(Clone, Copy)]
struct Read<'a> {
    bytes: &'a [u8],
    version: u64,
    types: u64,
    puddles: u64,
}

/// Word `k`, from its eighth byte down to its first. A byte that is not there is 0.
pub fn word(bytes: &[u8], k: u64) -> u64 {
    let mut value = 0u64;
    for place in 0..8u64 {
        let at = k.wrapping_mul(8).wrapping_add(7 - place);
        let byte = bytes.get(at as usize).copied().unwrap_or(0);
        value = value.wrapping_mul(256).wrapping_add(u64::from(byte));
    }
    value
}

/// Bit `f` of a word.
fn bit(v: u64, f: u64) -> bool {
    let mut rest = v;
    for _ in 0..f {
        rest /= 2;
    }
    rest % 2 == 1
}

/// How many fields a map states, or None if the map is not legal. A legal map has 1 to 30 fields, and in its low 32
/// bits no bit is set from that number on.
fn fields(map: u64) -> Option<u64> {
    let count = map / 0x1_0000_0000;
    if count < 1 || count > 30 {
        return None;
    }
    for f in 0..32u64 {
        if f >= count && bit(map, f) {
            return None;
        }
    }
    Some(count)
}

impl<'a> Read<'a> {
    fn id(&self, i: u64) -> u64 {
        word(self.bytes, i.wrapping_mul(2).wrapping_add(8))
    }

    fn map(&self, i: u64) -> u64 {
        word(self.bytes, i.wrapping_mul(2).wrapping_add(9))
    }

    /// The word of the base of ordinal 0.
    fn bases(&self) -> u64 {
        self.types.wrapping_mul(2).wrapping_add(8)
    }

    /// The word of the frame of ordinal 0. In version 2 it comes after the bases and the classes, in version 1 after the
    /// bases.
    fn frames(&self) -> u64 {
        let bases_end = self.bases().wrapping_add(self.puddles);
        if self.version == 1 {
            bases_end
        } else {
            bases_end.wrapping_add(self.puddles)
        }
    }

    fn base(&self, o: u64) -> u64 {
        word(self.bytes, self.bases().wrapping_add(o))
    }

    /// The class of a puddle. Version 1 states none, and each of its puddles is large.
    fn class(&self, o: u64) -> u64 {
        if self.version == 1 {
            return 0;
        }
        let at = self.bases().wrapping_add(self.puddles).wrapping_add(o);
        word(self.bytes, at)
    }

    /// Word `k` of a frame.
    fn at(&self, o: u64, k: u64) -> u64 {
        let frame = o.wrapping_mul(2048).wrapping_add(self.frames());
        word(self.bytes, frame.wrapping_add(k))
    }

    /// How many slots a puddle has: 248 if it is small, else 62.
    fn slots(&self, o: u64) -> u64 {
        if self.class(o) == 1 { 248 } else { 62 }
    }

    /// How many words each slot of a puddle has.
    fn slot_words(&self, o: u64) -> u64 {
        if self.class(o) == 1 { 8 } else { 32 }
    }

    /// Word `k` of a slot.
    fn in_slot(&self, o: u64, s: u64, k: u64) -> u64 {
        let begins = s.wrapping_mul(self.slot_words(o)).wrapping_add(64);
        self.at(o, begins.wrapping_add(k))
    }

    fn has_header(&self) -> bool {
        let words = self.frames().wrapping_add(self.puddles.wrapping_mul(2048));
        let version = self.version == 1 || self.version == 2;
        let known = word(self.bytes, 0) == FILE_MAGIC && version;
        let counts = self.types <= 64 && self.puddles >= 1 && self.puddles <= 16;
        let zeroes = word(self.bytes, 6) == 0 && word(self.bytes, 7) == 0;
        known && counts && zeroes && self.bytes.len() as u64 == words.wrapping_mul(8)
    }

    /// How many live slots have an object of this type id.
    fn of_type(&self, id: u64) -> u64 {
        let mut count = 0u64;
        for o in 0..self.puddles {
            for s in 0..self.slots(o) {
                if self.in_slot(o, s, 0) != 0 && self.in_slot(o, s, 1) == id {
                    count = count.wrapping_add(1);
                }
            }
        }
        count
    }

    fn has_types(&self) -> bool {
        for i in 0..self.types {
            let id = self.id(i);
            if id < 1 || id > 65_535 || fields(self.map(i)).is_none() || self.of_type(id) == 0 {
                return false;
            }
            for j in 0..i {
                if self.id(j) >= id {
                    return false;
                }
            }
        }
        true
    }

    fn has_bases(&self) -> bool {
        for o in 0..self.puddles {
            let base = self.base(o);
            if base < START || base >= START + ADDRESSES || base % RANGE != 0 {
                return false;
            }
            for other in 0..o {
                if self.base(other) == base {
                    return false;
                }
            }
        }
        true
    }

    /// Whether each puddle is large or small: no other class is known.
    fn has_classes(&self) -> bool {
        for o in 0..self.puddles {
            if self.class(o) > 1 {
                return false;
            }
        }
        true
    }

    /// Whether a pointer is null, or the address of a live slot.
    fn leads(&self, v: u64) -> bool {
        if v == 0 {
            return true;
        }
        for o in 0..self.puddles {
            for s in 0..self.slots(o) {
                let address = self
                    .base(o)
                    .wrapping_add(512)
                    .wrapping_add(s.wrapping_mul(self.slot_words(o)).wrapping_mul(8));
                if address == v && self.in_slot(o, s, 0) != 0 {
                    return true;
                }
            }
        }
        false
    }

    /// How many live slots have this serial.
    fn of_serial(&self, serial: u64) -> u64 {
        let mut count = 0u64;
        for o in 0..self.puddles {
            for s in 0..self.slots(o) {
                if self.in_slot(o, s, 0) == serial {
                    count = count.wrapping_add(1);
                }
            }
        }
        count
    }

    /// Whether the words of a slot are 0 from word `from` on.
    fn is_blank(&self, o: u64, s: u64, from: u64) -> bool {
        for k in from..self.slot_words(o) {
            if self.in_slot(o, s, k) != 0 {
                return false;
            }
        }
        true
    }

    /// Whether the object in a slot is an object of type `i`, whose fields have room there.
    fn is_object(&self, o: u64, s: u64, i: u64) -> bool {
        let map = self.map(i);
        let Some(count) = fields(map) else {
            return false;
        };
        if count.wrapping_add(2) > self.slot_words(o) {
            return false;
        }
        for f in 0..count {
            if bit(map, f) && !self.leads(self.in_slot(o, s, f.wrapping_add(2))) {
                return false;
            }
        }
        self.is_blank(o, s, count.wrapping_add(2))
    }

    fn has_slot(&self, o: u64, s: u64) -> bool {
        let serial = self.in_slot(o, s, 0);
        if serial == 0 {
            return self.is_blank(o, s, 0);
        }
        if serial >= self.at(0, 3) || self.of_serial(serial) != 1 {
            return false;
        }
        for i in 0..self.types {
            if self.id(i) == self.in_slot(o, s, 1) {
                return self.is_object(o, s, i);
            }
        }
        false
    }

    fn has_frame(&self, o: u64) -> bool {
        if self.at(o, 0) != FRAME_MAGIC || self.at(o, 2) != o {
            return false;
        }
        if o == 0 {
            let next = self.at(0, 3);
            if next < 1 || next > 0x8000_0000_0000_0000 || !self.leads(self.at(0, 4)) {
                return false;
            }
        }
        for k in 3..64u64 {
            if (o != 0 || k >= 5) && self.at(o, k) != 0 {
                return false;
            }
        }
        for s in 0..self.slots(o) {
            if !self.has_slot(o, s) {
                return false;
            }
        }
        true
    }

    fn has_frames(&self) -> bool {
        for o in 0..self.puddles {
            if !self.has_frame(o) {
                return false;
            }
        }
        true
    }
}

/// Whether the bytes are an export file.
pub fn is_file(bytes: &[u8]) -> bool {
    let read = Read {
        bytes,
        version: word(bytes, 1),
        types: word(bytes, 2),
        puddles: word(bytes, 3),
    };
    read.has_header()
        && read.has_types()
        && read.has_bases()
        && read.has_classes()
        && read.has_frames()
}
