//! A small model of the machine: what the lines do, and what is replied to them.
use crate::lines::{Ask, Class, First, Kind, Line, MOST_FIELDS, Owner, Value, kind_of, name};
use std::alloc::{AllocError, Global};
use std::array;
use std::process::Abort;

/// The units that a transaction has, and the units that a line takes of them that updates an object or the root.
const UNITS: u16 = 1_016;

const SET: u16 = 3;

/// The units that a line takes that makes an object in a puddle of a class.
fn new_units(class: Class) -> u16 {
    match class {
        Class::Large => 37,
        Class::Small => 13,
    }
}

/// How many objects a puddle of a class has room for.
fn puddle_objects(class: Class) -> usize {
    match class {
        Class::Large => 62,
        Class::Small => 248,
    }
}

/// How many puddles of each class a pool has.
#[derive(Clone, Copy)]
struct Puddles {
    large: u8,
    small: u8,
}

/// No puddle.
const NONE: Puddles = Puddles { large: 0, small: 0 };

impl Puddles {
    fn of(self, class: Class) -> u8 {
        match class {
            Class::Large => self.large,
            Class::Small => self.small,
        }
    }

    fn all(self) -> u8 {
        self.large.saturating_add(self.small)
    }

    /// The same with one more puddle of a class.
    fn with(self, class: Class) -> Puddles {
        match class {
            Class::Large => Puddles {
                large: self.large.saturating_add(1),
                small: self.small,
            },
            Class::Small => Puddles {
                large: self.large,
                small: self.small.saturating_add(1),
            },
        }
    }
}

/// The reply to a line.
#[derive(Clone, Copy)]
pub enum Reply {
    Done,
    Number(u64),
    Object(u64),
    /// An object that was made in a puddle of a class, and whether the pool got this puddle for it.
    New(u64, Class, bool),
    /// The list of the pools.
    List,
    No(&'static str),
}

/// An object, with the class of its puddle. Its serial is its place in its pool, counted from 1.
#[derive(Clone, Copy)]
struct Object {
    kind: Kind,
    class: Class,
    fields: [u64; MOST_FIELDS as usize],
    is_freed: bool,
}

/// A deferred value, which is set at the commit.
#[derive(Clone, Copy)]
struct DeferredValue {
    serial: u64,
    f: u8,
    x: Value,
}

/// An open transaction.
#[derive(Drop)]
struct Open {
    client: u8,
    depth: u8,
    units: u16,
    deferred: Vec<DeferredValue>,
    /// The objects and the root when it began.
    objects: Vec<Object>,
    root: u64,
}

/// A pool, and its open transaction if it has one.
#[derive(Drop)]
pub struct Pool {
    owner: Owner,
    mode: u16,
    number: u64,
    puddles: Puddles,
    /// Whether its words are no graph.
    is_wild: bool,
    objects: Vec<Object>,
    root: u64,
    open: Option<Open>,
}

/// The content of the file that exports write. Each of its types is defined, since types are never removed.
#[derive(Drop)]
struct Exported {
    puddles: Puddles,
    objects: Vec<Object>,
    root: u64,
}

/// What the lines change. There is room for one type fewer than there are.
#[derive(Drop)]
pub struct Machine {
    frames: usize,
    next: u64,
    clients: [Option<Owner>; 8],
    /// Which of its maps each type has, if it is defined.
    kinds: [Option<bool>; 4],
    pools: [Option<Pool>; 7],
    /// The file `x`, if it was written. The file `y` is no export file, and there is no file `z`.
    file: Option<Exported>,
}

/// A new object.
fn new_object(kind: Kind, class: Class) -> Object {
    Object {
        kind,
        class,
        fields: [0; MOST_FIELDS as usize],
        is_freed: false,
    }
}

impl Object {
    /// Whether the object takes a slot in a puddle of a class.
    fn is_in(&self, class: Class) -> bool {
        matches!(
            (self.class, class),
            (Class::Large, Class::Large) | (Class::Small, Class::Small)
        ) && !self.is_freed
    }

    /// Whether the object has a pointer to the object of this serial. A freed object has none.
    fn names(&self, serial: u64) -> bool {
        let mut names = false;
        for f in 0..MOST_FIELDS {
            let value = self.fields.get(usize::from(f));
            if self.kind.pointer(f) == Some(true) && value == Some(&serial) {
                names = true;
            }
        }
        names && !self.is_freed
    }
}

impl DeferredValue {
    /// Whether the value is for a field of the object of this serial, or is a pointer to that object.
    fn names(&self, serial: u64) -> bool {
        match self.x {
            Value::Object(named) if named == serial => true,
            _ => self.serial == serial,
        }
    }
}

impl Pool {
    fn object(&self, serial: u64) -> Option<&Object> {
        let object = self.objects.get(serial.checked_sub(1)? as usize)?;
        if object.is_freed { None } else { Some(object) }
    }

    /// How many objects the pool has, freed ones included.
    pub fn objects(&self) -> u64 {
        self.objects.len() as u64
    }

    /// The pool's owner, who may read it. If the first clients have the first uids, the owner's uid gives the client.
    pub fn owner(&self) -> Owner {
        self.owner
    }

    fn units(&self) -> u16 {
        self.open.as_ref().map_or(0, |open| open.units)
    }

    /// Whether each slot of the puddles of a class has an object.
    fn is_full(&self, class: Class) -> bool {
        let live = self.objects.iter().filter(|object| object.is_in(class));
        let slots = puddle_objects(class).saturating_mul(usize::from(self.puddles.of(class)));
        slots <= live.count()
    }

    /// The digit of the mode that applies to the client.
    fn right(&self, who: Owner) -> u16 {
        if who.uid == self.owner.uid {
            self.mode / 100
        } else if who.gid == self.owner.gid {
            self.mode / 10 % 10
        } else {
            self.mode % 10
        }
    }

    fn denies(&self, who: Owner, ask: Ask) -> bool {
        match ask {
            Ask::Change(_) | Ask::Drop => who.uid != self.owner.uid,
            Ask::Get(_, _) | Ask::Export => self.right(who) & 4 == 0,
            Ask::Begin => self.right(who) & 2 == 0,
            _ => false,
        }
    }

    /// Why the client is refused, before the model looks at what it asks.
    fn refusal(&self, who: Owner, client: u8, ask: Ask) -> Option<&'static str> {
        let is_of_record = matches!(ask, Ask::Change(_) | Ask::Drop);
        if self.is_wild && !is_of_record {
            return Some("wild");
        }
        if self.denies(who, ask) {
            return Some("denied");
        }
        match &self.open {
            Some(open) if open.client != client => Some("busy"),
            Some(_) if is_of_record || matches!(ask, Ask::Export) => Some("open"),
            None
                if matches!(
                    ask,
                    Ask::Commit
                        | Ask::Abort
                        | Ask::New(_)
                        | Ask::Set(_, _, _)
                        | Ask::Later(_, _, _)
                        | Ask::Root(_)
                        | Ask::Free(_)
                ) => { Some("tx") }
            _ => None,
        }
    }

    fn refusal_to_get(&self, serial: u64, f: u8) -> Option<&'static str> {
        let Some(object) = self.object(serial) else {
            return Some("object");
        };
        match object.kind.pointer(f) {
            None => Some("field"),
            Some(_) => None,
        }
    }

    fn refusal_to_set(&self, serial: u64, f: u8, x: Value) -> Option<&'static str> {
        let (is_pointer, is_there) = match x {
            Value::Number(_) => (false, true),
            Value::Object(named) => (true, named == 0 || self.object(named).is_some()),
        };
        let Some(object) = self.object(serial) else {
            return Some("object");
        };
        match object.kind.pointer(f) {
            _ if !is_there => Some("object"),
            None => Some("field"),
            Some(wanted) if wanted != is_pointer => Some("kind"),
            Some(_) => self.refusal_by_units(),
        }
    }

    fn refusal_by_units(&self) -> Option<&'static str> {
        if UNITS - SET < self.units() {
            return Some("toobig");
        }
        None
    }

    fn refusal_to_root(&self, serial: u64) -> Option<&'static str> {
        if serial != 0 && self.object(serial).is_none() {
            return Some("object");
        }
        self.refusal_by_units()
    }

    /// Whether the root or a pointer of an object references the object, or a deferred value names it.
    fn is_referenced(&self, serial: u64) -> bool {
        if self.objects.iter().any(|object| object.names(serial)) {
            return true;
        }
        match &self.open {
            Some(open) if open.deferred.iter().any(|value| value.names(serial)) => true,
            _ => self.root == serial,
        }
    }

    fn refusal_to_free(&self, serial: u64) -> Option<&'static str> {
        if self.object(serial).is_none() {
            return Some("object");
        }
        if self.is_referenced(serial) {
            return Some("held");
        }
        self.refusal_by_units()
    }

    fn read(&self, serial: u64, f: u8) -> Reply {
        let Some(object) = self.object(serial) else {
            return Reply::Done;
        };
        let value = object.fields.get(usize::from(f)).copied().unwrap_or(0);
        match object.kind.pointer(f) {
            Some(true) => Reply::Object(value),
            _ => Reply::Number(value),
        }
    }

    fn take_units(&mut self, units: u16) {
        if let Some(open) = &mut self.open {
            open.units = open.units.saturating_add(units);
        }
    }

    fn set(&mut self, serial: u64, f: u8, x: Value) {
        let value = match x {
            Value::Number(value) | Value::Object(value) => value,
        };
        let at = serial.saturating_sub(1) as usize;
        if let Some(object) = self.objects.get_mut(at)
            && let Some(field) = object.fields.get_mut(usize::from(f))
        {
            *field = value;
        }
    }

    fn defer(&mut self, rt: &impl Abort, value: DeferredValue) {
        if let Some(open) = &mut self.open {
            open.deferred.push(value).expect(rt, "memory");
        }
    }

    fn free(&mut self, serial: u64) {
        let at = serial.saturating_sub(1) as usize;
        if let Some(object) = self.objects.get_mut(at) {
            object.is_freed = true;
        }
    }

    fn begin(&mut self, rt: &impl Abort, alloc: Global, client: u8) {
        match &mut self.open {
            Some(open) => open.depth = open.depth.saturating_add(1),
            None => {
                let objects = Vec::from_slice(alloc, &self.objects).expect(rt, "memory");
                self.open = Some(Open {
                    client,
                    depth: 1,
                    units: 0,
                    deferred: Vec::new(alloc),
                    objects,
                    root: self.root,
                });
            }
        }
    }

    fn commit(&mut self) {
        match &mut self.open {
            Some(open) if open.depth > 1 => open.depth -= 1,
            _ => self.end(),
        }
    }

    /// Sets the deferred values, in order, and ends the transaction.
    fn end(&mut self) {
        if let Some(open) = self.open.take() {
            for value in open.deferred.iter() {
                self.set(value.serial, value.f, value.x);
            }
        }
    }

    fn undo(&mut self) {
        if let Some(open) = self.open.take() {
            self.objects = open.objects;
            self.root = open.root;
        }
    }

    /// Makes one more object, and one more puddle of its class if there is no room.
    fn make_object(&mut self, rt: &impl Abort, kind: Kind) -> Reply {
        let class = kind.class();
        let grows = self.is_full(class);
        if grows {
            self.puddles = self.puddles.with(class);
        }
        self.objects
            .push(new_object(kind, class))
            .expect(rt, "memory");
        self.take_units(new_units(class));
        Reply::New(self.objects(), class, grows)
    }

    /// Whether the transaction is open for the client.
    fn is_open_to(&self, client: u8) -> bool {
        self.open.as_ref().is_some_and(|open| open.client == client)
    }

    /// Carries out a line that takes three units.
    fn change(&mut self, rt: &impl Abort, ask: Ask) {
        match ask {
            Ask::Set(serial, f, x) => self.set(serial, f, x),
            Ask::Later(serial, f, x) => self.defer(rt, DeferredValue { serial, f, x }),
            Ask::Root(serial) => self.root = serial,
            Ask::Free(serial) => self.free(serial),
            _ => return,
        }
        self.take_units(SET);
    }

    fn carry_out(&mut self, rt: &impl Abort, alloc: Global, client: u8, ask: Ask) -> Reply {
        match ask {
            Ask::Change(mode) => self.mode = mode,
            Ask::Get(serial, f) => return self.read(serial, f),
            Ask::Begin => self.begin(rt, alloc, client),
            Ask::Commit => self.commit(),
            Ask::Abort => self.undo(),
            _ => self.change(rt, ask),
        }
        Reply::Done
    }
}

/// A pool of one small puddle, without objects, of this mode and number.
fn new_pool(alloc: Global, owner: Owner, (mode, number): (u16, u64)) -> Pool {
    Pool {
        owner,
        mode,
        number,
        puddles: NONE.with(Class::Small),
        is_wild: false,
        objects: Vec::new(alloc),
        root: 0,
        open: None,
    }
}

impl Machine {
    /// The machine of a device of so many frames with these pools. The last pool is wild. The root of the first pool
    /// is its first object, which names the second. Type 1 is defined.
    pub fn new(rt: &impl Abort, alloc: Global, frames: u8, pools: &[First; 6]) -> Machine {
        let mut machine = Machine {
            frames: usize::from(frames),
            next: 1,
            clients: [None; 8],
            kinds: [None; 4],
            pools: array::from_fn(|_| None),
            file: None,
        };
        machine.define(0, false);
        for (place, (id, objects, class)) in machine.pools.iter_mut().zip(pools) {
            let owner = Owner { uid: *id, gid: *id };
            let mut pool = new_pool(alloc, owner, (666, machine.next));
            pool.puddles = NONE.with(*class);
            for _ in 0..*objects {
                let mut object = new_object(kind_of(0, false), *class);
                object.fields[0] = 10;
                pool.objects.push(object).expect(rt, "memory");
            }
            machine.next = machine.next.saturating_add(2);
            *place = Some(pool);
        }
        if let Some(first) = &mut machine.pools[0] {
            first.root = 1;
            first.set(1, 1, Value::Object(2));
        }
        if let Some(last) = &mut machine.pools[5] {
            last.is_wild = true;
        }
        machine
    }

    pub fn pool(&self, pool: u8) -> Option<&Pool> {
        self.pools.get(usize::from(pool))?.as_ref()
    }

    fn client(&self, client: u8) -> Option<Owner> {
        *self.clients.get(usize::from(client))?
    }

    /// Which map the type has, if it is defined.
    pub fn map(&self, kind: u8) -> Option<bool> {
        *self.kinds.get(usize::from(kind))?
    }

    /// How many puddles all pools have.
    fn puddles(&self) -> usize {
        let mut puddles = 0usize;
        for pool in self.pools.iter().flatten() {
            puddles = puddles.saturating_add(usize::from(pool.puddles.all()));
        }
        puddles
    }

    fn has_space(&self) -> bool {
        self.puddles() < self.frames
    }

    fn refusal_to_define(&self, kind: u8, is_second: bool) -> Option<&'static str> {
        match self.map(kind) {
            Some(known) if known != is_second => Some("clash"),
            Some(_) => None,
            None if self.kinds.iter().flatten().count() == 3 => Some("full"),
            None => None,
        }
    }

    fn refusal_to_begin(&self, pool: &Pool, client: u8) -> Option<&'static str> {
        match &pool.open {
            Some(open) if open.depth == 16 => Some("deep"),
            Some(_) => None,
            None => {
                let own = self.pools.iter().flatten();
                let own = own.filter(|pool| pool.is_open_to(client)).count();
                if own == 4 { Some("logs") } else { None }
            }
        }
    }

    fn refusal_to_make_object(&self, pool: &Pool, kind: u8) -> Option<&'static str> {
        let Some(is_second) = self.map(kind) else {
            return Some("type");
        };
        let class = kind_of(kind, is_second).class();
        if UNITS < pool.units().saturating_add(new_units(class)) {
            Some("toobig")
        } else if pool.is_full(class) && !self.has_space() {
            Some("space")
        } else {
            None
        }
    }

    fn refusal_to_import(&self, file: char) -> Option<&'static str> {
        match (file, &self.file) {
            ('x', Some(file)) => {
                let puddles = self
                    .puddles()
                    .saturating_add(usize::from(file.puddles.all()));
                if puddles > self.frames {
                    Some("space")
                } else {
                    None
                }
            }
            ('y', _) => Some("badfile"),
            _ => Some("file"),
        }
    }

    fn refusal_on(&self, client: u8, pool: u8, ask: Ask) -> Option<&'static str> {
        let Some(who) = self.client(client) else {
            return Some("client");
        };
        let Some(pool) = self.pool(pool) else {
            return match ask {
                Ask::Make(_) if self.has_space() => None,
                Ask::Make(_) => Some("space"),
                Ask::Import(file, _) => self.refusal_to_import(file),
                _ => Some("pool"),
            };
        };
        if let Ask::Make(_) | Ask::Import(_, _) = ask {
            return Some("exists");
        }
        if let Some(word) = pool.refusal(who, client, ask) {
            return Some(word);
        }
        match ask {
            Ask::Begin => self.refusal_to_begin(pool, client),
            Ask::New(kind) => self.refusal_to_make_object(pool, kind),
            Ask::Get(serial, f) => pool.refusal_to_get(serial, f),
            Ask::Set(serial, f, x) | Ask::Later(serial, f, x) => pool.refusal_to_set(serial, f, x),
            Ask::Root(serial) => pool.refusal_to_root(serial),
            Ask::Free(serial) => pool.refusal_to_free(serial),
            _ => None,
        }
    }

    fn refusal_to_rewrite(&self, pool: u8) -> Option<&'static str> {
        match self.pool(pool) {
            None => Some("pool"),
            Some(pool) if pool.is_wild => Some("wild"),
            Some(_) => None,
        }
    }

    fn refusal(&self, line: Line) -> Option<&'static str> {
        match line {
            Line::Bad => Some("bad"),
            Line::Come(client, _) if self.client(client).is_some() => Some("taken"),
            Line::Leave(client) if self.client(client).is_none() => Some("client"),
            Line::Define(kind, is_second) => self.refusal_to_define(kind, is_second),
            Line::Rewrite(pool, _) => self.refusal_to_rewrite(pool),
            Line::On(client, pool, ask) => self.refusal_on(client, pool, ask),
            _ => None,
        }
    }

    /// Draws so many numbers, and returns the first.
    fn draw(&mut self, numbers: u64) -> u64 {
        let first = self.next;
        self.next = first.saturating_add(numbers);
        first
    }

    fn put_pool(&mut self, at: u8, pool: Option<Pool>) {
        if let Some(place) = self.pools.get_mut(usize::from(at)) {
            *place = pool;
        }
    }

    fn put_client(&mut self, at: u8, client: Option<Owner>) {
        if let Some(place) = self.clients.get_mut(usize::from(at)) {
            *place = client;
        }
    }

    fn make(&mut self, alloc: Global, client: u8, at: u8, mode: u16) {
        if let Some(owner) = self.client(client) {
            let number = self.draw(2);
            let pool = new_pool(alloc, owner, (mode, number));
            self.put_pool(at, Some(pool));
        }
    }

    fn export(&mut self, rt: &impl Abort, alloc: Global, at: u8) {
        if let Some(pool) = self.pool(at) {
            let objects = Vec::from_slice(alloc, &pool.objects).expect(rt, "memory");
            self.file = Some(Exported {
                puddles: pool.puddles,
                objects,
                root: pool.root,
            });
        }
    }

    /// Makes a pool with the content of the file. This draws one number more than the pool has puddles.
    fn import(&mut self, rt: &impl Abort, alloc: Global, client: u8, at: u8, mode: u16) {
        if let Some(owner) = self.client(client)
            && let Some(file) = &self.file
        {
            let mut pool = new_pool(alloc, owner, (mode, self.next));
            pool.puddles = file.puddles;
            pool.objects = Vec::from_slice(alloc, &file.objects).expect(rt, "memory");
            pool.root = file.root;
            self.draw(u64::from(pool.puddles.all()).saturating_add(1));
            self.put_pool(at, Some(pool));
        }
    }

    fn make_object(&mut self, rt: &impl Abort, at: u8, kind: Kind) -> Reply {
        if self.pool(at).is_some_and(|pool| pool.is_full(kind.class())) {
            self.draw(1);
        }
        match self.pools.get_mut(usize::from(at)) {
            Some(Some(pool)) => pool.make_object(rt, kind),
            _ => Reply::Done,
        }
    }

    fn carry_out(&mut self, rt: &impl Abort, alloc: Global, client: u8, at: u8, ask: Ask) -> Reply {
        match ask {
            Ask::Make(mode) => self.make(alloc, client, at, mode),
            Ask::Drop => self.put_pool(at, None),
            Ask::Export => self.export(rt, alloc, at),
            Ask::Import(_, mode) => self.import(rt, alloc, client, at, mode),
            Ask::New(kind) => {
                if let Some(is_second) = self.map(kind) {
                    return self.make_object(rt, at, kind_of(kind, is_second));
                }
            }
            _ => {
                if let Some(Some(pool)) = self.pools.get_mut(usize::from(at)) {
                    return pool.carry_out(rt, alloc, client, ask);
                }
            }
        }
        Reply::Done
    }

    fn leave(&mut self, client: u8) {
        for pool in self.pools.iter_mut().flatten() {
            if pool.is_open_to(client) {
                pool.undo();
            }
        }
        self.put_client(client, None);
    }

    /// Does what a start does: each client leaves.
    pub fn restart(&mut self) {
        for client in 0..8 {
            self.leave(client);
        }
    }

    fn define(&mut self, kind: u8, is_second: bool) {
        if let Some(place) = self.kinds.get_mut(usize::from(kind)) {
            *place = Some(is_second);
        }
    }

    /// Takes the line, and returns the reply to it.
    pub fn step(&mut self, rt: &impl Abort, alloc: Global, line: Line) -> Reply {
        if let Some(word) = self.refusal(line) {
            return Reply::No(word);
        }
        match line {
            Line::Bad | Line::Rewrite(_, _) => {}
            Line::Come(client, who) => self.put_client(client, Some(who)),
            Line::Leave(client) => self.leave(client),
            Line::Define(kind, is_second) => self.define(kind, is_second),
            Line::List => return Reply::List,
            Line::Cut(_) => self.restart(),
            Line::On(client, at, ask) => return self.carry_out(rt, alloc, client, at, ask),
        }
        Reply::Done
    }

    /// The list of the pools, as it is printed.
    fn list(&self, alloc: Global) -> Result<String, AllocError> {
        let mut text = String::from_str(alloc, "ok")?;
        for at in 0..7u8 {
            if let Some(pool) = self.pool(at) {
                let (name, mode, puddles, number) = (
                    name(at),
                    pool.mode,
                    pool.puddles.all(),
                    pool.number,
                );
                let Owner { uid, gid } = pool.owner;
                let one = format!(in alloc;
                    " {name}:{uid}:{gid}:{mode:03}:{puddles}:00000000-0000-0007-0000-{number:012x}"
                )?;
                text.push_str(&one)?;
            }
        }
        text.push('\n')?;
        Ok(text)
    }

    /// The text of the reply to a line that the machine has taken.
    pub fn text(&self, alloc: Global, reply: Reply) -> Result<String, AllocError> {
        match reply {
            Reply::Done => String::from_str(alloc, "ok\n"),
            Reply::Number(number) => format!(in alloc; "ok {number}\n"),
            Reply::Object(serial) | Reply::New(serial, _, _) => format!(in alloc; "ok @{serial}\n"),
            Reply::No(word) => format!(in alloc; "no {word}\n"),
            Reply::List => self.list(alloc),
        }
    }
}
