//! A call as a value, and how it is played on.
ghost use Rattle.std.specs.Prelude.{◌≡◌, ◌≢◌, ℕ, IfSome, IsSomeAnd, None, Some, true};
ghost use Rattle.std.specs.Sync.Mutex.{mutex_guard_value};
ghost use Rattle.lz_slot.specs.declared.command.Command.{Command as Asked};
ghost use Rattle.lz_slot.specs.declared.format.Format.{Format};
ghost use Rattle.lz_machine.specs.declared.event.Event.TheVariants.{Hop, Sync};
ghost use Rattle.lz_machine.specs.Calls.{event_at};
ghost use Rattle.lz_machine.specs.Laws.{hop_of};
ghost use Rattle.lz_machine.specs.Orders.{shape_with};
ghost use Rattle.lz_machine.specs.Runs.{reply_at};
ghost use Rattle.lz_machine.specs.Table.{is_sure};
ghost use Rattle.lz_board.specs.declared.view.Part.{Part};
ghost use Rattle.lz_board.specs.Seats.{IsOf, part};
ghost use Rattle.lz_refinement.specs.Answers.{Answers};
ghost use Rattle.lz_refinement.specs.Counting.{Counts, CountsOn, IsCounted};
ghost use Rattle.lz_refinement.specs.OneCaller.{IsPlainAnswer, keys_in};
ghost use Rattle.lz_set.specs.Answers.{reply_of};
ghost use Rattle.lz_set.specs.Names.{MayCall};
ghost use Rattle.lz_set.specs.Stages.{HasPlayed, PlaysOne, StandsAt, StandsBefore, StepsUnfailed, StepsWithout, StopsBefore};

use crate::fault::Fault;
use crate::gate::StepGate;
use crate::group_commit::Stay;
use crate::held_lock::{Held, HeldLock};
use crate::set::Set;
use lz_board::Pass;
use lz_disk::Disk;
use lz_list::Word;
use lz_machine::{Event, Kind, Reply};
use lz_refinement::{Locked, Named, load_next, walk_on};
use lz_slot::Command;
use lz_yard::Caller;
use std::marker::Model;
use std::sync::Wait;

/// A call under way. Its pass stays with its owner, who hands it in beside the call.
#[derive(Drop)]
pub struct Underway {
    caller: Caller,
    stay: Stay,
}

impl Model for Underway {
    ghost use Rattle.lz_machine.specs.Orders.{Calling};

    ghost Value = { Calling };

    ghost view = { λ u. u.caller };
}

/// Why a call stopped.
#[derive(Clone, Copy, Debug, PartialEq, Eq)]
pub enum Blocked {
    /// Its next event is a Sync, which calls the device.
    Syncs,
    /// Its next event is the Claim of a node that another call holds.
    Busy,
    /// It has its reply.
    Answers,
}

impl<D: Disk, G: StepGate, N: Named> Set<D, G, N> {
    /// Begins a call. Its owner is to play it on to its answer, since others may wait for a node that it holds. No sync of `add`,
    /// `remove` or `has` waits for it, and it waits for no other call: `go_on`, `sync` and `answer` take the lock alone.
    pub fn begin<'a, R: Wait>(
        &'a self,
        rt: &R,
        kept: &mut HeldLock<'a, D, N>,
        pass: &mut Pass,
        command: Command,
    ) -> Underway
        requires pass { MayCall N.board pass.old }
        ensures pass { IsOf N.board pass.new }
        ensures counts { Counts N.board command N.format (part pass.old) result (part pass.new) }
        ensures steps { StepsWithout Kind.Sync (part pass.old) (part pass.new) }
    {
        self.invoke(rt, kept, pass, command, self.commits.come(false))
    }

    /// Plays the call on up to a stage. A Sync whose slot is covered calls no device, so it is played at once; before another, and
    /// before the Claim of a node that is taken, the call stops, and the lock is kept. No Sync that is played here failed, over whatever
    /// device: it calls none.
    pub fn go_on<'a, R: Wait>(
        &'a self,
        rt: &R,
        kept: &mut HeldLock<'a, D, N>,
        pass: &mut Pass,
        call: &mut Underway,
    ) -> Blocked
        requires pass { IsOf N.board pass.old }
        requires counted { IsCounted N.board call.old (part pass.old) }
        ensures pass { IsOf N.board pass.new }
        ensures counts { CountsOn N.board call.old (part pass.old) call.new (part pass.new) }
        ensures stands { StandsAt result call.new }
        ensures steps { StepsUnfailed Kind.Sync (part pass.old) (part pass.new) }
        ensures before { result ≢ Blocked.Answers → IsSomeAnd kept.new (λ l. StandsBefore l.yard result call.new) }
    {
        for _ in rt.forever() {
            self.walk(rt, kept, pass, call);
            if call.caller.reply().is_some() {
                return Blocked::Answers;
            }
            let event = call.caller.next();
            let asked = event;
            let played = event;
            let kind = played.kind();
            let mut locked = self.lock(rt, kept, &mut call.stay);
            if let Some(stage) = stop_before(&*locked, event) {
                kept.keep(locked);
                return stage;
            }
            locked.turn_on(&self.board, pass, &mut call.caller, asked);
            self.commits.played(kind);
            self.leave(rt, kept, pass.number(), kind, locked, &mut call.stay);
        }
        unreachable!()
    }

    /// Plays the Sync before which the call stands. Where another's sync has covered its slot, the device isn't called.
    pub fn sync<'a, R: Wait>(
        &'a self,
        rt: &R,
        kept: &mut HeldLock<'a, D, N>,
        pass: &mut Pass,
        call: &mut Underway,
    )
        requires pass { IsOf N.board pass.old }
        requires counted { IsCounted N.board call.old (part pass.old) }
        requires stands { StandsAt Blocked.Syncs call.old }
        ensures pass { IsOf N.board pass.new }
        ensures counts { CountsOn N.board call.old (part pass.old) call.new (part pass.new) }
        ensures played { HasPlayed Kind.Sync (part pass.old) (part pass.new) }
    {
        let sync = call.caller.next();
        let mut locked = self.lock(rt, kept, &mut call.stay);
        locked.turn_on(&self.board, pass, &mut call.caller, sync);
        self.leave(rt, kept, pass.number(), Kind::Sync, locked, &mut call.stay);
    }

    /// Answers the call: its pass may make the next one.
    pub fn answer<'a, R: Wait>(
        &'a self,
        rt: &R,
        kept: &mut HeldLock<'a, D, N>,
        pass: &mut Pass,
        call: Underway,
    ) -> Result<bool, Fault>
        requires pass { IsOf N.board pass.old }
        requires counted { IsCounted N.board call (part pass.old) }
        requires stands { StandsAt Blocked.Answers call }
        ensures pass { MayCall N.board pass.new }
        ensures steps { StepsWithout Kind.Sync (part pass.old) (part pass.new) }
        ensures answers { (c : Asked) (format : Format) (before : Part) → before.sizes ≡ N.board.sizes → Counts N.board c format before call (part pass.old) → Answers format c (reply_of result) before (part pass.new) }
        ensures plain { N.board.sizes.passes ≡ 1 → (c : Asked) (format : Format) (before : Part) → before.sizes ≡ N.board.sizes → Counts N.board c format before call (part pass.old)
            → IsPlainAnswer format N.board.sizes.slots c (reply_of result) (keys_in before.known) (keys_in (part pass.new).known) }
    {
        let mut call = call;
        self.end(rt, kept, pass, &mut call)
    }

    /// Plays a command to its answer, as `add`, `remove` and `has` do. Before a Sync it waits for the calls that run, and at a
    /// taken node until one is given back.
    pub fn call<R: Wait>(&self, rt: &R, pass: &mut Pass, command: Command) -> Result<bool, Fault>
        requires pass { MayCall N.board pass.old }
        ensures pass { MayCall N.board pass.new }
        ensures answers { Answers N.format command (reply_of result) (part pass.old) (part pass.new) }
        ensures plain { N.board.sizes.passes ≡ 1 → IsPlainAnswer N.format N.board.sizes.slots command (reply_of result) (keys_in (part pass.old).known) (keys_in (part pass.new).known) }
    {
        // A lookup writes nothing, so no sync waits for it.
        let stay = self.commits.come(!matches!(command, Command::Has(_)));
        let mut kept = self.keep();
        let mut call = self.invoke(rt, &mut kept, pass, command, stay);
        for _ in rt.forever() {
            match self.go_on(rt, &mut kept, pass, &mut call) {
                Blocked::Syncs => self.sync_for_all(rt, &mut kept, pass, &mut call),
                Blocked::Busy => {
                    let locked = self.lock(rt, &mut kept, &mut call.stay);
                    kept.keep(self.commits.await_node(rt, locked, &mut call.stay));
                }
                Blocked::Answers => {
                    let answer = self.end(rt, &mut kept, pass, &mut call);
                    kept.give_back();
                    self.commits.wake(&mut call.stay);
                    return answer;
                }
            }
        }
        unreachable!()
    }

    // The first hold of a call: it is made, and goes inside. One that the file's format refuses goes nowhere.
    fn invoke<'a, R: Wait>(
        &'a self,
        rt: &R,
        kept: &mut HeldLock<'a, D, N>,
        pass: &mut Pass,
        command: Command,
        stay: Stay,
    ) -> Underway
        requires pass { MayCall N.board pass.old }
        ensures pass { IsOf N.board pass.new }
        ensures counts { Counts N.board command N.format (part pass.old) result (part pass.new) }
        ensures steps { StepsWithout Kind.Sync (part pass.old) (part pass.new) }
    {
        let mut stay = stay;
        let mut locked = self.lock(rt, kept, &mut stay);
        let mut caller = locked.begin(&self.board, pass, command, self.buckets, self.passes);
        if caller.reply().is_some() {
            return Underway { caller, stay };
        }
        let event = caller.next();
        locked.turn_on(&self.board, pass, &mut caller, event);
        self.leave(rt, kept, pass.number(), Kind::Pin, locked, &mut stay);
        Underway { caller, stay }
    }

    // The loads that come next, up to an event that is none. They take no lock, so it is given back before the first.
    fn walk<R: Wait>(
        &self,
        rt: &R,
        kept: &mut HeldLock<'_, D, N>,
        pass: &mut Pass,
        call: &mut Underway,
    )
        requires pass { IsOf N.board pass.old }
        requires counted { IsCounted N.board call.old (part pass.old) }
        ensures pass { IsOf N.board pass.new }
        ensures counts { CountsOn N.board call.old (part pass.old) call.new (part pass.new) }
        ensures steps { (part pass.new).steps ≡ (part pass.old).steps }
        ensures loaded { hop_of (event_at (shape_with call.new) call.new.command call.new.progress) ≡ None }
    {
        let Some(first) = call.caller.wants() else {
            return;
        };
        kept.give_back();
        self.commits.wake(&mut call.stay);
        let mut word = first;
        for _ in rt.forever() {
            self.load(rt, pass, &mut call.caller, word);
            match call.caller.wants() {
                Some(next) => word = next,
                None => return,
            }
        }
        unreachable!()
    }

    // All loads of a walk, which is apart from its caller meanwhile; or the one of the halt word, before a call's first walk.
    fn load<R: Wait>(&self, rt: &R, pass: &mut Pass, caller: &mut Caller, word: Word)
        requires pass { IsOf N.board pass.old }
        requires counted { IsCounted N.board caller.old (part pass.old) }
        requires event { event_at (shape_with caller.old) caller.old.command caller.old.progress ≡ Hop word }
        ensures pass { IsOf N.board pass.new }
        ensures counts { CountsOn N.board caller.old (part pass.old) caller.new (part pass.new) }
        ensures steps { (part pass.new).steps ≡ (part pass.old).steps }
    {
        let Some(start) = caller.walking() else {
            load_next(&self.board, pass, caller, word);
            self.gate.after(rt, pass.number(), Kind::Hop);
            return;
        };
        let mut walk = start;
        for _ in rt.forever() {
            let goes_on = walk_on(&self.board, pass, caller, &mut walk);
            self.gate.after(rt, pass.number(), Kind::Hop);
            if !goes_on {
                return;
            }
        }
        unreachable!()
    }

    // The call's Sync, for all that wait for one, once it has to wait for others no more.
    fn sync_for_all<'a, R: Wait>(
        &'a self,
        rt: &R,
        kept: &mut HeldLock<'a, D, N>,
        pass: &mut Pass,
        call: &mut Underway,
    )
        requires pass { IsOf N.board pass.old }
        requires counted { IsCounted N.board call.old (part pass.old) }
        requires stands { StandsAt Blocked.Syncs call.old }
        ensures pass { IsOf N.board pass.new }
        ensures counts { CountsOn N.board call.old (part pass.old) call.new (part pass.new) }
    {
        let locked = self.lock(rt, kept, &mut call.stay);
        let mut locked = self
            .commits
            .await_sync(rt, locked, &mut call.stay, self.passes);
        let event = call.caller.next();
        locked.turn_on(&self.board, pass, &mut call.caller, event);
        self.commits.close(&mut call.stay);
        self.leave(rt, kept, pass.number(), Kind::Sync, locked, &mut call.stay);
    }

    // The last hold of a call, which gives its reply.
    fn end<'a, R: Wait>(
        &'a self,
        rt: &R,
        kept: &mut HeldLock<'a, D, N>,
        pass: &mut Pass,
        call: &mut Underway,
    ) -> Result<bool, Fault>
        requires pass { IsOf N.board pass.old }
        requires counted { IsCounted N.board call.old (part pass.old) }
        requires stands { StandsAt Blocked.Answers call.old }
        ensures pass { MayCall N.board pass.new }
        ensures steps { StepsWithout Kind.Sync (part pass.old) (part pass.new) }
        ensures answers { (c : Asked) (format : Format) (before : Part) → before.sizes ≡ N.board.sizes → Counts N.board c format before call.old (part pass.old) → Answers format c (reply_of result) before (part pass.new) }
        ensures plain { N.board.sizes.passes ≡ 1 → (c : Asked) (format : Format) (before : Part) → before.sizes ≡ N.board.sizes → Counts N.board c format before call.old (part pass.old)
            → IsPlainAnswer format N.board.sizes.slots c (reply_of result) (keys_in before.known) (keys_in (part pass.new).known) }
    {
        let Some(reply) = call.caller.reply() else {
            unreachable!();
        };
        let mut locked = self.lock(rt, kept, &mut call.stay);
        locked.answer(&self.board, pass, &call.caller, reply);
        self.commits.part(&mut call.stay, self.passes);
        self.leave(
            rt,
            kept,
            pass.number(),
            Kind::Answer,
            locked,
            &mut call.stay,
        );
        answer_of(reply)
    }
}

// At which stage a call stops before this event: where it would call the device, or claim what is taken.
fn stop_before<N: Named, D: Disk>(locked: &Locked<N, D>, event: Event) -> Option<Blocked>
    ensures stops { IfSome result (λ stage. StopsBefore locked.now.yard stage event) }
    ensures goes { result ≡ None → (slot : ℕ) → event ≡ Sync slot → is_sure locked.now.yard slot ≡ true }
{
    match event {
        Event::Sync(slot) if !locked.is_covered(slot) => Some(Blocked::Syncs),
        Event::Claim(pred, curr) if locked.is_taken(pred, curr) => Some(Blocked::Busy),
        _ => None,
    }
}

// The answer of a call that ended with this reply.
fn answer_of(reply: Reply) -> Result<bool, Fault>
    ensures { reply_of result ≡ reply }
{
    match reply {
        Reply::Yes => Ok(true),
        Reply::No => Ok(false),
        Reply::Full(counts) => Err(Fault::Full(counts)),
        Reply::Worn => Err(Fault::Worn),
        Reply::Halted => Err(Fault::Halted),
        Reply::Device => Err(Fault::Device),
        Reply::OldFile => Err(Fault::OldFile),
    }
}
