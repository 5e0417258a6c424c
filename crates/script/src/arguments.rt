//! Takes the arguments of a line one by one from the front, each by its kind.

ghost use Rattle.std.specs.Prelude.{◌≡◌, ◌≤◌, ℕ, List, IfSome};
ghost use Rattle.pud_defs.specs.StateMachine.Grammar.{client_number, owner_id, type_id, field_total, listed_map, pool_name, pool_mode, word_number, object_serial, field_place, value_named, step_count, armed_step, loss_pick, at_end};
ghost use Rattle.script.specs.Pieces.{pieces_of, with_front};
ghost use Rattle.script.specs.Taken.{IsTaken};

use crate::fields::read_map;
use crate::names::{read_mode, read_name};
use crate::numbers::{read_number, read_within};
use crate::pieces::cut;
use crate::places::{read_place, read_serial};
use crate::values::read_value;
use pud_defs::layout::{CLIENTS, MAX_ARMED_STEP, MAX_FIELDS, MAX_OWNER_ID, MAX_TYPE_ID};
use pud_defs::machine::Command;
use pud_defs::objects::FieldValue;
use pud_defs::records::Name;
use pud_defs::space::MAX_STEPS;
use std::marker::Model;

/// The arguments that are left. Contracts see them as a list with the bytes of each argument. A call that takes an
/// argument returns None if no argument is left, or if the argument is not of its kind. The line is then no command,
/// and the caller takes nothing more.
#[derive(Drop)]
pub(crate) struct Arguments<'a> {
    left: Option<&'a [u8]>,
}

impl<'a> Model for Arguments<'a> {
    ghost Value = { List (List ℕ) };

    ghost view = { λ a. pieces_of 32 a.left };
}

impl<'a> Arguments<'a> {
    /// The arguments in the bytes after the first space of a line. There are no arguments if the line has no space.
    pub(crate) fn after_word(left: Option<&'a [u8]>) -> Self
        ensures { result ≡ pieces_of 32 left.entry }
    {
        Arguments { left }
    }

    /// Takes the next argument. None if no argument is left.
    fn front(&mut self) -> Option<&'a [u8]>
        ensures { self.old ≡ with_front result self.new }
    {
        let (front, rest) = cut(self.left?, b' ');
        self.left = rest;
        Some(front)
    }

    /// Takes the next argument as the number of a client, from 0 to 7.
    #[tactic(auto, using(crate::proofs::Taken::taken))]
    pub(crate) fn client(&mut self) -> Option<u8>
        ensures { IsTaken client_number self.old result self.new }
    {
        u8::try_from(read_within(self.front()?, 0, CLIENTS)?).ok()
    }

    /// Takes the next argument as a uid or a gid, from 0 to 65,535.
    #[tactic(auto, using(crate::proofs::Taken::taken))]
    pub(crate) fn owner(&mut self) -> Option<u32>
        ensures { IsTaken owner_id self.old result self.new }
    {
        read_within(self.front()?, 0, MAX_OWNER_ID + 1)
    }

    /// Takes the next argument as a type id, from 1 to 65,535.
    #[tactic(auto, using(crate::proofs::Taken::taken))]
    pub(crate) fn type_id(&mut self) -> Option<u32>
        ensures { IsTaken type_id self.old result self.new }
    {
        read_within(self.front()?, 1, MAX_TYPE_ID + 1)
    }

    /// Takes the next argument as a type's number of fields, from 1 to 30.
    #[tactic(auto, using(crate::proofs::Taken::taken))]
    pub(crate) fn fields(&mut self) -> Option<u32>
        ensures taken { IsTaken field_total self.old result self.new }
        ensures few { IfSome result (λ n. n ≤ MAX_FIELDS) }
    {
        read_within(self.front()?, 1, MAX_FIELDS + 1)
    }

    /// Takes the next argument as the list of a type's pointers, and returns the type's map word. The type has `fields`
    /// fields.
    #[tactic(auto, using(crate::proofs::Taken::taken))]
    pub(crate) fn map(&mut self, fields: u32) -> Option<u64>
        requires { fields ≤ MAX_FIELDS }
        ensures { IsTaken (listed_map fields) self.old result self.new }
    {
        read_map(self.front()?, fields)
    }

    /// Takes the next argument as the name of a pool or of a file.
    #[tactic(auto, using(crate::proofs::Taken::taken))]
    pub(crate) fn name(&mut self) -> Option<Name>
        ensures { IsTaken pool_name self.old result self.new }
    {
        read_name(self.front()?)
    }

    /// Takes the next argument as the mode of a pool.
    #[tactic(auto, using(crate::proofs::Taken::taken))]
    pub(crate) fn mode(&mut self) -> Option<u32>
        ensures { IsTaken pool_mode self.old result self.new }
    {
        read_mode(self.front()?)
    }

    /// Takes the next argument as the place of a field: the serial of its object, and the field's number.
    #[tactic(auto, using(crate::proofs::Taken::taken))]
    pub(crate) fn place(&mut self) -> Option<(u64, u32)>
        ensures { IsTaken field_place self.old result self.new }
    {
        read_place(self.front()?)
    }

    /// Takes the next argument as the serial of an object, from 1 to 2^64 - 1.
    #[tactic(auto, using(crate::proofs::Taken::taken))]
    pub(crate) fn object(&mut self) -> Option<u64>
        ensures { IsTaken object_serial self.old result self.new }
    {
        read_serial(self.front()?)
    }

    /// Takes the next argument as the serial of an object, or 0 for null.
    #[tactic(auto, using(crate::proofs::Taken::taken))]
    pub(crate) fn object_or_null(&mut self) -> Option<u64>
        ensures { IsTaken word_number self.old result self.new }
    {
        read_number(self.front()?)
    }

    /// Takes the next argument as the value of a field.
    #[tactic(auto, using(crate::proofs::Taken::taken))]
    pub(crate) fn value(&mut self) -> Option<FieldValue>
        ensures { IsTaken value_named self.old result self.new }
    {
        read_value(self.front()?)
    }

    /// Takes the next argument as a number of rewriting steps, from 1 to 3,984.
    #[tactic(auto, using(crate::proofs::Taken::taken))]
    pub(crate) fn steps(&mut self) -> Option<u32>
        ensures { IsTaken step_count self.old result self.new }
    {
        read_within(self.front()?, 1, MAX_STEPS + 1)
    }

    /// Takes the next argument as the device step at which an armed power loss comes, from 1 to 1,000,000.
    #[tactic(auto, using(crate::proofs::Taken::taken))]
    pub(crate) fn step(&mut self) -> Option<u32>
        ensures { IsTaken armed_step self.old result self.new }
    {
        read_within(self.front()?, 1, MAX_ARMED_STEP + 1)
    }

    /// Takes the next argument as the pick of a power loss, any number below 2^64.
    #[tactic(auto, using(crate::proofs::Taken::taken))]
    pub(crate) fn pick(&mut self) -> Option<u64>
        ensures { IsTaken loss_pick self.old result self.new }
    {
        read_number(self.front()?)
    }

    /// Returns the command if no argument is left, and None otherwise.
    #[tactic(auto, using(crate::proofs::Taken::taken))]
    pub(crate) fn end(self, command: Command) -> Option<Command>
        ensures { result ≡ at_end command self.entry }
    {
        self.left.is_none().then_some(command)
    }
}
