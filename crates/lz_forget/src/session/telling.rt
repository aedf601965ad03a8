//! What a client is told.
ghost use Rattle.std.specs.Prelude.{◌≡◌, ◌++◌, ◌/◌, OnOk, codes, decimal};
ghost use Rattle.lz_resp.specs.Frames.{line_end};
ghost use Rattle.lz_forget.specs.Answers.{found_in};
ghost use Rattle.lz_forget.specs.Sessions.{Work, telling, time_in, time_text};

use super::{Session, Stage};
use crate::answers::{Answer, Told, found_in, push_text, push_texts};
use crate::live::MOST_EPOCHS;
use lz_proto::Reply;
use lz_resp::{Form, push_plain};
use std::alloc::AllocError;

impl Session {
    // Tells what came of commands. Nothing is under way then.
    pub(super) fn tell(&mut self, told: &[Told], answers: &[Answer]) -> Result<(), AllocError>
        ensures its { OnOk result (self.new ≡ telling told.now answers.now self.old) }
        ensures heard { self.new.heard ≡ self.old.heard }
    {
        self.stage = Stage::Rests;
        self.seeks.clear();
        push_texts(self.alloc, &mut self.says, told, answers)
    }

    // Tells for how long the key is remembered yet that the rooms have by these answers, the newest first: the least that it may be.
    pub(super) fn tell_time(
        &mut self,
        unit: u64,
        left: &[u64; MOST_EPOCHS as usize],
        answers: &[Answer],
    ) -> Result<(), AllocError>
        ensures its { OnOk result (self.new ≡ record self.old { work = Work.rests; says = self.old.says ++ time_text unit left.now answers.now (found_in answers.now) }) }
        ensures heard { self.new.heard ≡ self.old.heard }
    {
        match found_in(answers) {
            Some(Reply::Yes) => {
                self.stage = Stage::Rests;
                push_time(&mut self.says, unit, time_in(left, answers))
            }
            Some(Reply::No) => {
                self.stage = Stage::Rests;
                self.says.extend_from_slice(b":-2\r\n")
            }
            other => {
                self.stage = Stage::Rests;
                push_text(self.alloc, &mut self.says, Form::Found, &[other])
            }
        }
    }
}

// How much is left of the first epoch whose room has the key.
fn time_in(left: &[u64; MOST_EPOCHS as usize], answers: &[Answer]) -> u64
    ensures { result ≡ time_in left.now answers.now }
{
    let mut times = left.as_slice();
    let mut rest = answers;
    'answers: while let [time, later @ ..] = times {
        let [answer, others @ ..] = rest else {
            return 0;
        };
        if *answer == Some(Reply::Yes) {
            return *time;
        }
        times = later;
        rest = others;
    }
    0
}

// Tells a time in these units.
fn push_time(text: &mut Vec<u8>, unit: u64, time: u64) -> Result<(), AllocError>
    ensures { OnOk result (text.new.items ≡ text.old.items ++ codes ":" ++ decimal (time / unit) ++ line_end) }
{
    let Some(units) = time.checked_div(unit) else {
        return Err(AllocError);
    };
    text.extend_from_slice(b":")?;
    push_plain(text, units)?;
    text.extend_from_slice(b"\r\n")
}
