//! What is sought or asked together, one round after the other.
ghost use Rattle.std.specs.Prelude.{◌≡◌, ◌≤◌, ◌-◌, ◌++◌, [], IfOk, OnOk, length};
ghost use Rattle.lz_forget.specs.Lives.{IsLive};
ghost use Rattle.lz_forget.specs.Sessions.{adding, asking, beginning_by, beginning_of, completed, HasLive, work_of, glancing, answers_of, keys_of, open_of, removing, seeking, Work};

use super::{Session, Stage};
use crate::answers::{Answer, Told, filled, groups, joined};
use crate::asking::{Ask, push_rooms};
use crate::live::{Live, MOST_EPOCHS};
use lz_proto::{Reply, Request};
use lz_resp::Requests;
use lz_slot::Key;
use std::alloc::{AllocError, Global};
use std::mem;

impl Session {
    // Begins what is asked of these keys.
    pub(super) fn ask(
        &mut self,
        ask: Ask,
        told: Vec<Told>,
        keys: Vec<Key>,
        live: Live,
    ) -> Result<(), AllocError>
        requires { IsLive live }
        ensures { OnOk result (self.new ≡ beginning_of ask told.items keys.items live self.old) }
    {
        match ask {
            Ask::Add => self.glance(told, keys, live),
            Ask::Has => {
                let finds = Stage::Finds(told, keys.len(), live);
                self.find(keys.as_slice(), live, finds)
            }
            Ask::Remove => {
                let found = answers_of(self.alloc, Some(Reply::No), keys.len())?;
                self.remove(told, keys, live, 0, found)
            }
        }
    }

    // Begins to ask for how long a key is remembered yet.
    pub(super) fn ask_time(
        &mut self,
        unit: u64,
        requests: Requests,
        live: Live,
        left: &[u64; MOST_EPOCHS as usize],
    ) -> Result<(), AllocError>
        requires { IsLive live }
        ensures { OnOk result (self.new ≡ beginning_by (Work.holds_time unit requests) live left.now self.old) }
    {
        let mut keys = Vec::new(self.alloc);
        push_keys(&mut keys, requests.as_slice())?;
        self.find(keys.as_slice(), live, Stage::Times(unit, *left))
    }

    // Seeks these keys in each room.
    fn find(&mut self, keys: &[Key], live: Live, finds: Stage) -> Result<(), AllocError>
        requires live { IsLive live }
        requires work { HasLive (work_of finds) }
        ensures { OnOk result (self.new ≡ seeking live 0 live.count keys.now (work_of finds) self.old) }
    {
        self.seek(live, 0, live.count, keys)?;
        self.stage = finds;
        Ok(())
    }

    // Seeks these keys in the older rooms, before they are added to the newest.
    fn glance(&mut self, told: Vec<Told>, keys: Vec<Key>, live: Live) -> Result<(), AllocError>
        requires { IsLive live }
        ensures its { OnOk result (self.new ≡ glancing told.items keys.items live self.old) }
        ensures heard { self.new.heard ≡ self.old.heard }
    {
        if live.count == 1 {
            let found = answers_of(self.alloc, Some(Reply::No), keys.len())?;
            return self.add(told, keys, live, found);
        }
        self.seek(live, 1, live.count, keys.as_slice())?;
        self.stage = Stage::Glances(told, keys, live);
        Ok(())
    }

    // Asks the newest room to add those of these keys that weren't found.
    #[tactic(auto, unfolding(crate::specs::Sessions::adding))]
    fn add(
        &mut self,
        told: Vec<Told>,
        keys: Vec<Key>,
        live: Live,
        found: Vec<Answer>,
    ) -> Result<(), AllocError>
        requires { IsLive live }
        ensures its { OnOk result (self.new ≡ adding told.items keys.items live found.items self.old) }
        ensures heard { self.new.heard ≡ self.old.heard }
    {
        let left = open_of(self.alloc, keys.as_slice(), found.as_slice())?;
        if left.is_empty() || !live.takes {
            let refused = answers_of(self.alloc, Some(Reply::Full), left.len())?;
            let all = filled(self.alloc, found.as_slice(), refused.as_slice())?;
            return self.tell(told.as_slice(), all.as_slice());
        }
        self.ask_rooms(Ask::Add, live, 0, 1, left.as_slice())?;
        self.stage = Stage::Adds(told, found);
        Ok(())
    }

    // Asks the room of the epoch of this age to remove these keys.
    fn remove(
        &mut self,
        told: Vec<Told>,
        keys: Vec<Key>,
        live: Live,
        age: u8,
        found: Vec<Answer>,
    ) -> Result<(), AllocError>
        requires { IsLive live }
        ensures its { OnOk result (self.new ≡ removing told.items keys.items live age found.items self.old) }
        ensures heard { self.new.heard ≡ self.old.heard }
    {
        if age >= live.count {
            return self.tell(told.as_slice(), found.as_slice());
        }
        self.ask_rooms(Ask::Remove, live, age, age + 1, keys.as_slice())?;
        self.stage = Stage::Removes(told, keys, live, age, found);
        Ok(())
    }

    // Seeks these keys in each room whose epoch is of an age from this one on, up to that one.
    fn seek(&mut self, live: Live, from: u8, to: u8, keys: &[Key]) -> Result<(), AllocError>
        requires live { IsLive live }
        requires ages { (from ≤ to) × (to ≤ live.count) }
        ensures its { OnOk result (self.new ≡ seeking live from (to - from) keys.now self.old.work self.old) }
        ensures heard { self.new.heard ≡ self.old.heard }
    {
        let Some(awaits) = keys.len().checked_mul(usize::from(to - from)) else {
            return Err(AllocError);
        };
        self.seeks.clear();
        push_rooms(&mut self.seeks, live, from, to, keys)?;
        self.awaits = awaits;
        self.answers.clear();
        self.answers.reserve(awaits)
    }

    // Asks of these keys in each room whose epoch is of an age from this one on, up to that one.
    fn ask_rooms(
        &mut self,
        ask: Ask,
        live: Live,
        from: u8,
        to: u8,
        keys: &[Key],
    ) -> Result<(), AllocError>
        requires live { IsLive live }
        requires ages { (from ≤ to) × (to ≤ live.count) }
        ensures its { OnOk result (self.new ≡ asking ask live from (to - from) keys.now self.old.work self.old) }
        ensures heard { self.new.heard ≡ self.old.heard }
    {
        self.seek(live, from, to, keys)?;
        self.ask_all(ask)
    }

    // What all the answers to what was asked together come to.
    pub(super) fn complete(&mut self) -> Result<(), AllocError>
        ensures its { OnOk result (self.new ≡ completed self.old.work self.old.answers (record self.old { answers = []; work = Work.rests })) }
        ensures heard { self.new.heard ≡ self.old.heard }
    {
        let answers = mem::replace(&mut self.answers, Vec::new(self.alloc));
        let answers = answers.as_slice();
        match mem::replace(&mut self.stage, Stage::Rests) {
            Stage::Glances(told, keys, live) => {
                let each = usize::from(live.count - 1);
                let found = groups(self.alloc, keys.len(), each, answers)?;
                self.add(told, keys, live, found)
            }
            Stage::Adds(told, found) => {
                let all = filled(self.alloc, found.as_slice(), answers)?;
                self.tell(told.as_slice(), all.as_slice())
            }
            Stage::Finds(told, keys, live) => {
                let each = usize::from(live.count);
                let found = groups(self.alloc, keys, each, answers)?;
                self.tell(told.as_slice(), found.as_slice())
            }
            Stage::Times(unit, left) => self.tell_time(unit, &left, answers),
            Stage::Removes(told, keys, live, age, found) => {
                let all = joined(self.alloc, found.as_slice(), answers)?;
                self.remove(told, keys, live, age.saturating_add(1), all)
            }
            other => {
                self.stage = other;
                Ok(())
            }
        }
    }
}

// Puts the keys of these requests after others, and says how many they are.
pub(super) fn push_keys(keys: &mut Vec<Key>, requests: &[Request]) -> Result<usize, AllocError>
    ensures keys { OnOk result (keys.new.items ≡ keys.old.items ++ keys_of requests.now) }
    ensures count { IfOk result (λ count. count ≡ length (keys_of requests.now)) }
{
    let before = keys.len();
    let mut rest = requests;
    'requests: while let [request, others @ ..] = rest {
        match request {
            Request::Add(key) | Request::Remove(key) | Request::Has(key) => keys.push(*key)?,
            Request::Quit => {}
        }
        rest = others;
    }
    Ok(keys.len() - before)
}

// This answer to each of so many requests.
#[tactic(auto, using(crate::proofs::Steps::more_answers))]
pub(super) fn answers_of(
    alloc: Global,
    answer: Answer,
    count: usize,
) -> Result<Vec<Answer>, AllocError>
    ensures { IfOk result (λ answers. answers.items ≡ answers_of answer count) }
{
    let mut answers = Vec::with_capacity(alloc, count)?;
    let mut left = count;
    'keys: while left > 0 {
        answers.push(answer)?;
        left -= 1;
    }
    Ok(answers)
}

// Those of these keys that weren't found.
fn open_of(alloc: Global, keys: &[Key], found: &[Answer]) -> Result<Vec<Key>, AllocError>
    ensures { IfOk result (λ its. its.items ≡ open_of keys.now found.now) }
{
    let mut its = Vec::with_capacity(alloc, keys.len())?;
    let mut left = keys;
    let mut rest = found;
    'keys: while let [key, others @ ..] = left {
        let [answer, after @ ..] = rest else {
            return Ok(its);
        };
        if *answer == Some(Reply::No) {
            its.push(*key)?;
        }
        left = others;
        rest = after;
    }
    Ok(its)
}
