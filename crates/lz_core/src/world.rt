//! A rehearsal: a service over a disk in memory, and what its callers do to it, step by step.
ghost use Rattle.std.specs.Prelude.{◌≡◌, ◌≤◌, ◌↔◌, ◌==◌, ◌||◌, IfOk, IfErr, IfNone, OnErr, IsErrOf, IsTrue, IfSome, Some, None, [], ◌∷◌, length};
ghost use Rattle.lz_slot.specs.Limits.{most_buckets, most_rehearsed};
ghost use Rattle.lz_slot.specs.Sets.{members};
ghost use Rattle.lz_slot.specs.Counted.{of_pass};
ghost use Rattle.lz_core.specs.Worlds.{Ascend, IsChain, IsLawful, IsNew, IsOutcome, IsTold, IsUp, MayCall, LacksMemory, MayStepOn, PlaysOn, Shows, StepsOn, StopsAt, StopsEarly, TakesTurn, event_asked, event_loaded, mark_list, next_of};
ghost use Rattle.lz_machine.specs.Kinds.{kind_of};

use crate::disks::{arm_yard, armed, crash_disk, made_disk, stop_disk};
use crate::open_calls::{OpenCall, next_of_call, no_calls, take_outcome};
use crate::play::Step;
use crate::reopening::{fault_told, open_again};
use crate::shown::members_of;
use lz_disk::{MemoryDisk, Pick};
use lz_machine::{Event, Kind, Outcome};
use lz_slot::{Command, Format, Found, HistoryEvent, Key, MOST_ACTORS};
use lz_yard::{Caller, Yard};
use std::alloc::{AllocError, Global};
use std::marker::Model;

/// How many actors a world has: as many as a history may have.
pub const ACTORS: usize = MOST_ACTORS as usize;

/// Why a play ended before its last step. Steps count from 1, and a turn by itself is step 1.
#[derive(Clone, Copy, Debug, PartialEq, Eq)]
pub enum PlayFault {
    /// The step isn't lawful now: its actor isn't one of the world's, calls where it has a call open, or takes a turn where it
    /// has none; or it calls or takes a turn without an open service; or it opens where a service is open.
    NotNow(usize),
    /// There is no memory, or no number is left for a call.
    Memory,
}

impl PlayFault {
    ghost use Rattle.lz_core.specs.Worlds.{play_fault_number};

    /// The number by which a program tells the fault.
    pub fn number(self) -> u8
        ensures { result ≡ play_fault_number self }
    {
        match self {
            PlayFault::NotNow(_) => 1,
            PlayFault::Memory => 2,
        }
    }
}

/// What a turn was.
#[derive(Drop)]
pub struct Turned {
    pub kind: Kind,
    pub outcome: Outcome,
    /// How its call ended, if it did.
    pub mark: Option<HistoryEvent>,
}

/// A service over a fresh disk in memory, with the calls of 64 actors. What a device would do it does where the disk was
/// tripped, and crashes fall between the steps: one inside a device call leaves nothing that one between couldn't leave.
#[derive(Drop)]
pub struct World {
    slots: usize,
    buckets: usize,
    // The open service, or else the disk that the last one left.
    yard: Option<Yard<MemoryDisk>>,
    disk: Option<MemoryDisk>,
    callers: Vec<Option<OpenCall>>,
    calls: u64,
    // The next device call is to fail.
    tripped: bool,
}

impl Model for World {
    ghost use Rattle.lz_core.specs.Worlds.{IsWorld, WorldOver, world_shown};

    ghost Value = { WorldOver };

    ghost view = { λ w. world_shown (record { slots = w.slots; buckets = w.buckets; passes = 64 }) w.yard w.disk w.callers.items w.calls w.tripped };

    ghost invariant = { λ w. IsWorld (record { slots = w.slots; buckets = w.buckets; passes = 64 }) w.yard w.disk w.callers.items w.calls };
}

impl World {
    /// A disk in memory, made of this format and opened.
    pub fn new(
        alloc: Global,
        slots: usize,
        buckets: usize,
        format: Format,
    ) -> Result<World, AllocError>
        requires slots { (1 ≤ slots) × (slots ≤ most_rehearsed) }
        requires buckets { (1 ≤ buckets) × (buckets ≤ most_buckets) }
        ensures { IfOk result (λ world. IsNew (record { slots = slots; buckets = buckets; passes = 64 }) format world) }
    {
        let callers = no_calls(alloc)?;
        let disk = made_disk(alloc, format, slots)?;
        match Yard::open(alloc, disk, buckets, ACTORS) {
            Ok(yard) => Ok(World {
                slots,
                buckets,
                yard: Some(yard),
                disk: None,
                callers,
                calls: 0,
                tripped: false,
            }),
            Err(_) => Err(AllocError),
        }
    }

    /// Plays the next event of an actor's call. A Claim that found a lock taken is played too: the actor's next turn claims
    /// again. The device call of a turn fails where the device was tripped; where it finds no memory the turn is told as Memory.
    pub fn turn(&mut self, actor: usize) -> Result<Turned, PlayFault>
        ensures ok { IfOk result (λ turned. PlaysOn self.old (Step.Turn actor ∷ []) (mark_list turned.mark) self.new) }
        ensures told { IfOk result (λ turned. IsTold self.old.state actor turned.kind turned.outcome self.new.state) }
        ensures goes_on { IfOk result (λ turned. turned.mark ≡ None → IsLawful self.new.state (Step.Turn actor)) }
        ensures not_now { (i : _) → IsErrOf result (PlayFault.NotNow i) → (i ≡ 1) × (self.new ≡ self.old) × ¬ IsLawful self.old.state (Step.Turn actor) }
        ensures memory { IsErrOf result PlayFault.Memory → LacksMemory self.old (Step.Turn actor) self.new }
    {
        let Some(event) = self.next_event(actor) else {
            return Err(PlayFault::NotNow(1));
        };
        match self.play_event(actor, event) {
            Some(turned) => Ok(turned),
            None => Err(PlayFault::Memory),
        }
    }

    /// The members now, ascending: the keys that are linked and not marked. There are none without an open service.
    pub fn members(&self, alloc: Global) -> Result<Vec<Key>, AllocError>
        ensures members { IfOk result (λ keys. Shows self.now.state keys.items) }
        ensures ascending { IfOk result (λ keys. Ascend keys.items) }
    {
        match &self.yard {
            None => Ok(Vec::new(alloc)),
            Some(yard) => members_of(alloc, yard),
        }
    }

    /// Whether a service is open.
    pub fn is_open(&self) -> bool
        ensures { IsTrue result ↔ IsUp self.now.state }
    {
        self.yard.is_some()
    }

    /// Plays the steps in their order, and answers their marks. After Memory the world is as after some of the first steps,
    /// the last of which may be an open that was refused for lack of memory, or a turn or an open whose device call found none.
    pub fn play(&mut self, alloc: Global, steps: &[Step]) -> Result<Vec<HistoryEvent>, PlayFault>
        ensures ok { IfOk result (λ marks. PlaysOn self.old steps.now marks.items self.new) }
        ensures chain { IfOk result (λ marks. IsChain self.old marks.items self.new) }
        ensures not_now { (step : _) → IsErrOf result (PlayFault.NotNow step) → StopsAt self.old steps.now step self.new }
        ensures first { IsErrOf result (PlayFault.NotNow 1) → self.new ≡ self.old }
        ensures memory { IsErrOf result PlayFault.Memory → StopsEarly self.old steps.now self.new }
    {
        let _whole = &self.callers;
        let mut marks = Vec::new(alloc);
        for (before, step) in steps.iter().enumerate() {
            if marks.reserve(1).is_err() {
                return Err(PlayFault::Memory);
            }
            if let Some(mark) = self.play_step(alloc, *step, before + 1)? {
                marks.push_reserved(mark);
            }
        }
        Ok(marks)
    }

    // Plays the step with this number.
    #[tactic(auto, using(crate::proofs::Runs::PlayedStep::early, crate::proofs::Runs::JoinedPlays::early_lack))]
    fn play_step(
        &mut self,
        alloc: Global,
        step: Step,
        number: usize,
    ) -> Result<Option<HistoryEvent>, PlayFault>
        ensures ok { IfOk result (λ mark. PlaysOn self.old (step ∷ []) (mark_list mark) self.new) }
        ensures not_now { (i : _) → IsErrOf result (PlayFault.NotNow i) → (i ≡ number) × (self.new ≡ self.old) × ¬ IsLawful self.old.state step }
        ensures memory { IsErrOf result PlayFault.Memory → StopsEarly self.old (step ∷ []) self.new }
    {
        match step {
            Step::Call(actor, command) => self.call(actor, command, number),
            Step::Turn(actor) => match self.turn(actor) {
                Ok(turned) => Ok(turned.mark),
                Err(PlayFault::NotNow(_)) => Err(PlayFault::NotNow(number)),
                Err(PlayFault::Memory) => Err(PlayFault::Memory),
            },
            Step::Trip => {
                self.trip();
                Ok(None)
            }
            Step::Stop => {
                self.stop();
                Ok(Some(HistoryEvent::Stop))
            }
            Step::Crash(pick) => self.crash(pick),
            Step::Open => self.reopen(alloc, number),
        }
    }

    // Makes the call of the step with this place. Where no number is left for it there is no room.
    #[tactic(auto, using(crate::proofs::Runs::PlayedStep::early))]
    fn call(
        &mut self,
        actor: usize,
        command: Command,
        place: usize,
    ) -> Result<Option<HistoryEvent>, PlayFault>
        ensures ok { IfOk result (λ mark. PlaysOn self.old (Step.Call actor command ∷ []) (mark_list mark) self.new) }
        ensures not_now { (i : _) → IsErrOf result (PlayFault.NotNow i) → (i ≡ place) × (self.new ≡ self.old) × ¬ IsLawful self.old.state (Step.Call actor command) }
        ensures memory { IsErrOf result PlayFault.Memory → StopsEarly self.old (Step.Call actor command ∷ []) self.new }
    {
        if !may_call(&self.yard, &self.callers, actor) {
            return Err(PlayFault::NotNow(place));
        }
        if self.calls == u64::MAX {
            return Err(PlayFault::Memory);
        }
        let told = command;
        let asked = command;
        let played = command;
        let _key = asked.key().rank();
        let outcome = step_on(&mut self.yard, actor, Event::Invoke(played));
        self.calls += 1;
        self.callers[actor - 1] = Some(OpenCall {
            number: self.calls,
            caller: Caller::begun(command, self.buckets, ACTORS, outcome),
        });
        Ok(Some(HistoryEvent::Call(self.calls, actor, told)))
    }

    // The next event of an actor's call, if it has one.
    fn next_event(&self, actor: usize) -> Option<Event>
        ensures { result ≡ next_of self.now.state actor }
    {
        match &self.yard {
            None => None,
            Some(yard) => next_on(yard, &self.callers, actor),
        }
    }

    // Plays an actor's next event. None where its device call found no memory.
    fn play_event(&mut self, actor: usize, event: Event) -> Option<Turned>
        requires { next_of self.old.state actor ≡ Some event }
        ensures kind { IfSome result (λ turned. turned.kind ≡ kind_of event) }
        ensures outcome { IfSome result (λ turned. IsOutcome self.old.state actor event turned.outcome self.new.state) }
        ensures plays { IfSome result (λ turned. PlaysOn self.old (Step.Turn actor ∷ []) (mark_list turned.mark) self.new) }
        ensures goes_on { IfSome result (λ turned. turned.mark ≡ None → IsLawful self.new.state (Step.Turn actor)) }
        ensures lacks { IfNone result (LacksMemory self.old (Step.Turn actor) self.new) }
    {
        let turned = self.take_turn(actor, event);
        if !is_fault(&turned.outcome) {
            return Some(turned);
        }
        if !self.tripped {
            return None;
        }
        self.tripped = false;
        Some(turned)
    }

    // Plays an actor's next event. Its device call fails where the device was tripped.
    fn take_turn(&mut self, actor: usize, event: Event) -> Turned
        requires { next_of self.old.state actor ≡ Some event }
        ensures kind { result.kind ≡ kind_of event }
        ensures outcome { IsOutcome self.old.state actor event result.outcome self.new.state }
        ensures takes { TakesTurn self.old actor result.outcome (mark_list result.mark) self.new }
        ensures goes_on { result.mark ≡ None → IsLawful self.new.state (Step.Turn actor) }
    {
        let played = event;
        arm_yard(&mut self.yard, self.tripped);
        let outcome = step_on(&mut self.yard, actor, event);
        let told = outcome;
        let mark = take_outcome(&mut self.callers[actor - 1], outcome);
        Turned {
            kind: played.kind(),
            outcome: told,
            mark,
        }
    }

    fn trip(&mut self)
        ensures { PlaysOn self.old (Step.Trip ∷ []) [] self.new }
    {
        self.tripped = true;
    }

    fn stop(&mut self)
        ensures { PlaysOn self.old (Step.Stop ∷ []) (HistoryEvent.Stop ∷ []) self.new }
    {
        stop_disk(&mut self.yard, &mut self.disk);
        self.tripped = false;
    }

    fn crash(&mut self, pick: Pick) -> Result<Option<HistoryEvent>, PlayFault>
        ensures ok { IfOk result (λ mark. PlaysOn self.old (Step.Crash pick ∷ []) (mark_list mark) self.new) }
        ensures fault { IfErr result (λ fault. fault ≡ PlayFault.Memory) }
        ensures err { OnErr result (self.new ≡ self.old) }
    {
        match crash_disk(&mut self.yard, &mut self.disk, pick) {
            Ok(()) => {
                self.tripped = false;
                Ok(Some(HistoryEvent::Crash))
            }
            Err(_) => Err(PlayFault::Memory),
        }
    }

    // Opens the disk again, whose next call fails where it was tripped. Where there is no room for the keys that were found, the
    // open is refused.
    #[tactic(auto, using(crate::proofs::Runs::PlayedStep::early))]
    fn reopen(&mut self, alloc: Global, number: usize) -> Result<Option<HistoryEvent>, PlayFault>
        ensures ok { IfOk result (λ mark. PlaysOn self.old (Step.Open ∷ []) (mark_list mark) self.new) }
        ensures not_now { (i : _) → IsErrOf result (PlayFault.NotNow i) → (i ≡ number) × (self.new ≡ self.old) × ¬ IsLawful self.old.state Step.Open }
        ensures memory { IsErrOf result PlayFault.Memory → StopsEarly self.old (Step.Open ∷ []) self.new }
    {
        if self.disk.is_none() {
            return Err(PlayFault::NotNow(number));
        }
        let Ok(callers) = no_calls(alloc) else {
            return Err(PlayFault::Memory);
        };
        let Some(disk) = self.disk.take() else {
            return Err(PlayFault::NotNow(number));
        };
        let tripped = self.tripped;
        self.tripped = false;
        match open_again(alloc, armed(disk, tripped), self.buckets) {
            Ok(opened) => {
                self.callers = callers;
                self.yard = Some(opened.yard);
                Ok(Some(HistoryEvent::Opened(Found::new(opened.keys))))
            }
            Err(refused) => {
                self.disk = Some(refused.disk);
                match fault_told(refused.fault, tripped) {
                    None => Err(PlayFault::Memory),
                    Some(number) => Ok(Some(HistoryEvent::OpenFailed(number))),
                }
            }
        }
    }
}

// Whether the device call of an event failed.
fn is_fault(outcome: &Outcome) -> bool
    ensures { IsTrue result ↔ (outcome.now ≡ Outcome.Fault) }
{
    matches!(outcome, Outcome::Fault)
}

// Whether the service is open, and the actor is one of the world's and has no call.
fn may_call(yard: &Option<Yard<MemoryDisk>>, callers: &[Option<OpenCall>], actor: usize) -> bool
    requires { length callers.now ≡ 64 }
    ensures { IsTrue result ↔ MayCall yard.now callers.now actor }
{
    yard.is_some() && 1 <= actor && actor <= ACTORS && callers[actor - 1].is_none()
}

// The next event of an actor's call on this yard, if it has one.
fn next_on(yard: &Yard<MemoryDisk>, callers: &[Option<OpenCall>], actor: usize) -> Option<Event>
    requires { IfSome (of_pass callers.now actor None) (λ call. call.caller.passes ≡ yard.now.yard.shape.passes) }
    ensures { result ≡ event_loaded yard.now.yard.words (event_asked (of_pass callers.now actor None)) }
{
    let event = next_of_call(callers, actor)?;
    Some(yard.load(event))
}

// Plays an event on an open yard.
fn step_on(yard: &mut Option<Yard<MemoryDisk>>, actor: usize, event: Event) -> Outcome
    requires { IfSome yard.old (λ yard. MayStepOn yard actor event) }
    ensures { StepsOn yard.old actor event result yard.new }
{
    match yard {
        None => Outcome::NotNow,
        Some(yard) => yard.step(actor, event).outcome,
    }
}
