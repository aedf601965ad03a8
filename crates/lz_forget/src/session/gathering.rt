//! Commands that are carried out together: those of one kind that have come one after the other.
ghost use Rattle.std.specs.Prelude.{◌≡◌, IfOk, None, OnOk};
ghost use Rattle.lz_forget.specs.Sessions.{answers_of, gathered, gathering, holding, refusing, telling, upcoming};

use super::rounds::{answers_of, push_keys};
use super::{Next, Session, Stage};
use crate::answers::Told;
use crate::asking::Ask;
use crate::wanted::Wanted;
use lz_proto::Request;
use lz_resp::{Form, Requests};
use std::alloc::AllocError;
use std::mem;

/// How many keys are held before no command more is.
const MOST_KEYS: usize = 256;

impl Session {
    // The client's next command, if one has come.
    pub(super) fn upcoming(&mut self) -> Result<Option<Wanted>, AllocError>
        ensures { IfOk result (λ wanted. (wanted, self.new) ≡ upcoming self.old) }
    {
        match mem::replace(&mut self.held, None) {
            Some(wanted) => Ok(Some(wanted)),
            None => self.commands.next(),
        }
    }

    // Holds a command alone.
    pub(super) fn hold(&mut self, form: Form, requests: &[Request]) -> Result<(), AllocError>
        ensures { OnOk result (self.new ≡ holding form requests.now self.old) }
    {
        let mut keys = Vec::new(self.alloc);
        let count = push_keys(&mut keys, requests)?;
        let told = Vec::from_slice(self.alloc, &[(form, count)])?;
        self.stage = Stage::Holds(Ask::of(form), told, keys);
        Ok(())
    }

    // Takes the client's next command to those that are held, if it is of their kind.
    pub(super) fn gather(&mut self) -> Result<Next, AllocError>
        ensures { IfOk result (λ next. (next, self.new) ≡ gathering self.old) }
    {
        let Some(wanted) = self.upcoming()? else {
            return Ok(Next::Begins);
        };
        match wanted {
            Wanted::Asks(form, requests) => self.gather_asked(form, requests),
            other => {
                self.held = Some(other);
                Ok(Next::Begins)
            }
        }
    }

    // The same of one that asks of keys.
    fn gather_asked(&mut self, form: Form, requests: Requests) -> Result<Next, AllocError>
        ensures { IfOk result (λ next. (next, self.new) ≡ gathered form requests self.old) }
    {
        if let Stage::Holds(ask, told, keys) = &mut self.stage {
            if ask.is(Ask::of(form)) && keys.len() < MOST_KEYS {
                let count = push_keys(keys, requests.as_slice())?;
                told.push((form, count))?;
                return Ok(Next::GoesOn);
            }
        }
        self.held = Some(Wanted::Asks(form, requests));
        Ok(Next::Begins)
    }

    /// Tells commands that have changed nothing that the service stops: those that are held, and those of which rooms are asked.
    pub fn refuse(&mut self) -> Result<(), AllocError>
        ensures { OnOk result (self.new ≡ refusing self.old) }
    {
        match mem::replace(&mut self.stage, Stage::Rests) {
            Stage::Holds(_, told, keys) => self.tell_none(told.as_slice(), keys.len()),
            Stage::Glances(told, keys, _) => self.tell_none(told.as_slice(), keys.len()),
            Stage::Finds(told, keys, _) => self.tell_none(told.as_slice(), keys),
            Stage::HoldsTime(..) | Stage::Times(..) => self.tell_none(&[(Form::Found, 1)], 1),
            other => {
                self.stage = other;
                Ok(())
            }
        }
    }

    // Tells commands that none of so many requests was begun.
    fn tell_none(&mut self, told: &[Told], count: usize) -> Result<(), AllocError>
        ensures { OnOk result (self.new ≡ telling told.now (answers_of None count) self.old) }
    {
        let none = answers_of(self.alloc, None, count)?;
        self.tell(told, none.as_slice())
    }
}
