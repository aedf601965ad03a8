//! The set.
ghost use Rattle.std.specs.Prelude.{◌≡◌, ◌≢◌, ◌≤◌, Err, IfErr, IfNone, IfOk, IfSome, IsTrue, None, Some};
ghost use Rattle.lz_slot.specs.declared.command.Command.TheVariants as command;
ghost use Rattle.lz_slot.specs.Bytes.{Holds};
ghost use Rattle.lz_slot.specs.Limits.{most_buckets, most_passes};
ghost use Rattle.lz_vault.specs.Opens.{IsRefusedFor, MayOpen};
ghost use Rattle.lz_board.specs.Glances.{Glances, Turns};
ghost use Rattle.lz_board.specs.Listings.{Lists};
ghost use Rattle.lz_board.specs.Opened.{opened_by};
ghost use Rattle.lz_board.specs.Seats.{id_of, part, IsOf};
ghost use Rattle.lz_board.specs.Walkers.{KeepsCall};
ghost use Rattle.lz_refinement.specs.Answers.{Answers, Met};
ghost use Rattle.lz_refinement.specs.Holds.{sizes_of};
ghost use Rattle.lz_refinement.specs.OneCaller.{IsPlainAnswer, keys_in};
ghost use Rattle.lz_refinement.specs.RunningSets.{members_of};
ghost use Rattle.lz_yard.specs.Filling.{OpensYard};
ghost use Rattle.lz_set.specs.Answers.{reply_of};
ghost use Rattle.lz_set.specs.Counts.{CountsOpen};
ghost use Rattle.lz_set.specs.Blanks.{IsSized, MayBeNamed};
ghost use Rattle.lz_set.specs.Names.{MayCall};

use crate::blank::Blank;
use crate::fault::Fault;
use crate::gate::StepGate;
use crate::group_commit::GroupCommit;
use lz_board::{Board, Glance, GlanceFault, ListFault, Page, Pass};
use lz_disk::Disk;
use lz_refinement::{Locked, Named};
use lz_slot::{Command, Key, Slot};
use lz_vault::{OneThread, OpenFault, Refused, Sorter};
use lz_yard::Yard;
use std::alloc::Global;
use std::marker::Brand;
use std::sync::{Mutex, Wait};

/// A set that threads share, which N names.
#[derive(Drop)]
pub struct Set<D: Disk, G: StepGate, N: Named> {
    pub(crate) gate: G,
    pub(crate) board: Board,
    pub(crate) locked: Mutex<Locked<N, D>>,
    pub(crate) commits: GroupCommit,
    pub(crate) buckets: usize,
    pub(crate) passes: usize,
    pub ghost named: { id_of board ≡ N.board },
    pub ghost sized: { IsSized N.board buckets passes },
}

impl<D: Disk, G: StepGate> Set<D, G, Brand> {
    /// Opens a slot file with so many buckets for callers with so many passes. It is refused as the yard's open is, and with
    /// Memory where there is no room for the board. The members are sorted by the thread that opens.
    pub fn open(
        alloc: Global,
        disk: D,
        gate: G,
        buckets: usize,
        passes: usize,
    ) -> Result<Blank<D, G>, Refused<D>>
        requires disk { MayOpen (D.device disk) }
        requires buckets { (1 ≤ buckets) × (buckets ≤ most_buckets) }
        requires passes { (1 ≤ passes) × (passes ≤ most_passes) }
        ensures ok { IfOk result (λ blank. OpensYard (D.device disk) (D.device blank.disk) buckets passes blank.yard) }
        ensures board { IfOk result (λ blank. (blank.board.sizes ≡ sizes_of blank.yard.shape) × (blank.board.opened ≡ opened_by blank.yard.words)) }
        // It begins with the members that the text holds which is read.
        ensures begins { IfOk result (λ blank. IsTrue (D.device disk).honest → Holds (D.device disk).medium.seen blank.board.sizes.slots (members_of blank.board.opened)) }
        ensures named { IfOk result (λ blank. MayBeNamed D.device blank.board (D.device blank.disk) blank.yard.vault.format blank) }
        ensures err { IfErr result (λ refused. IsRefusedFor (D.device disk) (D.device refused.disk) refused.fault) }
    {
        Set::open_by(alloc, disk, gate, &OneThread, buckets, passes)
    }

    /// The same. This sorter sorts the members, which is a third of opening a large file.
    pub fn open_by<S: Sorter>(
        alloc: Global,
        disk: D,
        gate: G,
        sorter: &S,
        buckets: usize,
        passes: usize,
    ) -> Result<Blank<D, G>, Refused<D>>
        requires disk { MayOpen (D.device disk) }
        requires sorter { S.ready sorter.now }
        requires buckets { (1 ≤ buckets) × (buckets ≤ most_buckets) }
        requires passes { (1 ≤ passes) × (passes ≤ most_passes) }
        ensures ok { IfOk result (λ blank. OpensYard (D.device disk) (D.device blank.disk) buckets passes blank.yard) }
        ensures board { IfOk result (λ blank. (blank.board.sizes ≡ sizes_of blank.yard.shape) × (blank.board.opened ≡ opened_by blank.yard.words)) }
        ensures begins { IfOk result (λ blank. IsTrue (D.device disk).honest → Holds (D.device disk).medium.seen blank.board.sizes.slots (members_of blank.board.opened)) }
        ensures named { IfOk result (λ blank. MayBeNamed D.device blank.board (D.device blank.disk) blank.yard.vault.format blank) }
        ensures err { IfErr result (λ refused. IsRefusedFor (D.device disk) (D.device refused.disk) refused.fault) }
    {
        let yard = Yard::open_by(alloc, disk, sorter, buckets, passes)?;
        match Board::new(alloc, yard.words()) {
            Some((board, pen, passes)) => Ok(Blank {
                board,
                pen,
                yard,
                passes,
                buckets,
                gate,
            }),
            None => Err(Refused {
                disk: yard.close(),
                fault: OpenFault::Memory,
            }),
        }
    }
}

impl<D: Disk, G: StepGate, N: Named> Set<D, G, N> {
    pub(crate) fn of(
        board: Board,
        locked: Locked<N, D>,
        gate: G,
        buckets: usize,
        passes: usize,
    ) -> Set<D, G, N>
        requires named { id_of board ≡ N.board }
        requires sized { IsSized N.board buckets passes }
    {
        Set {
            gate,
            board,
            locked: Mutex::new(locked),
            commits: GroupCommit::new(),
            buckets,
            passes,
        }
    }

    /// How many passes the set has.
    pub fn passes(&self) -> usize
        ensures { result ≡ N.board.sizes.passes }
    {
        self.passes
    }

    /// Makes the key a member, and says whether it wasn't one. It may wait for the set or for a node.
    pub fn add<R: Wait>(&self, rt: &R, pass: &mut Pass, key: Key) -> Result<bool, Fault>
        requires pass { MayCall N.board pass.old }
        ensures pass { MayCall N.board pass.new }
        ensures answers { Answers N.format (command.Add key) (reply_of result) (part pass.old) (part pass.new) }
        ensures plain { N.board.sizes.passes ≡ 1 → IsPlainAnswer N.format N.board.sizes.slots (command.Add key) (reply_of result) (keys_in (part pass.old).known) (keys_in (part pass.new).known) }
    {
        self.call(rt, pass, Command::Add(key))
    }

    /// Makes the key no member, and says whether it was one. It may wait for the set or for a node.
    pub fn remove<R: Wait>(&self, rt: &R, pass: &mut Pass, key: Key) -> Result<bool, Fault>
        requires pass { MayCall N.board pass.old }
        ensures pass { MayCall N.board pass.new }
        ensures answers { Answers N.format (command.Remove key) (reply_of result) (part pass.old) (part pass.new) }
        ensures plain { N.board.sizes.passes ≡ 1 → IsPlainAnswer N.format N.board.sizes.slots (command.Remove key) (reply_of result) (keys_in (part pass.old).known) (keys_in (part pass.new).known) }
    {
        self.call(rt, pass, Command::Remove(key))
    }

    /// Whether the key is a member, where that is durable. It may wait for the set.
    pub fn has<R: Wait>(&self, rt: &R, pass: &mut Pass, key: Key) -> Result<bool, Fault>
        requires pass { MayCall N.board pass.old }
        ensures pass { MayCall N.board pass.new }
        ensures answers { Answers N.format (command.Has key) (reply_of result) (part pass.old) (part pass.new) }
        ensures plain { N.board.sizes.passes ≡ 1 → IsPlainAnswer N.format N.board.sizes.slots (command.Has key) (reply_of result) (keys_in (part pass.old).known) (keys_in (part pass.new).known) }
    {
        self.call(rt, pass, Command::Has(key))
    }

    /// Whether the key is a member, as far as that is durable. It waits for nobody.
    pub fn glance(&self, pass: &mut Pass, key: Key) -> Result<Glance, GlanceFault>
        requires pass { MayCall N.board pass.old }
        ensures pass { MayCall N.board pass.new }
        ensures outside { result ≢ Err GlanceFault.BusyPass }
        ensures glances { Glances key result (part pass.old) (part pass.new) }
        ensures turns { Turns result (part pass.old) (part pass.new) }
        ensures call { KeepsCall (part pass.old) (part pass.new) }
    {
        self.board.glance(pass, key)
    }

    /// Members by their slots, from this one on: up to `most` keys, of up to 4,096 slots, and the slot to go on from. It waits
    /// for nobody. Slots that are given up meanwhile are free again only afterwards.
    pub fn list(
        &self,
        alloc: Global,
        pass: &mut Pass,
        from: Slot,
        most: usize,
    ) -> Result<Page, ListFault>
        requires pass { MayCall N.board pass.old }
        requires most { 1 ≤ most }
        ensures pass { MayCall N.board pass.new }
        ensures outside { result ≢ Err (ListFault.Glance GlanceFault.BusyPass) }
        ensures lists { Lists N.board.sizes.slots from most result (part pass.old) (part pass.new) }
        ensures call { KeepsCall (part pass.old) (part pass.new) }
    {
        self.board.list(alloc, pass, from, most)
    }

    /// How many members are durable just now, and which the pass has then seen: those are none whose addition or removal is under way. It may
    /// wait for the set.
    pub fn count<R: Wait>(&self, rt: &R, pass: &mut Pass) -> usize
        requires pass { MayCall N.board pass.old }
        ensures pass { MayCall N.board pass.new }
        ensures counts { CountsOpen N.board (part pass.old) (part pass.new) result }
    {
        let mut locked = self.locked.lock(rt);
        locked.welcome(&self.board, pass);
        locked.holds();
        locked.opened()
    }

    /// Lets two passes see what either has seen. It waits for nobody.
    pub fn meet(&self, one: &mut Pass, other: &mut Pass)
        requires one { MayCall N.board one.old }
        requires other { MayCall N.board other.old }
        ensures one { MayCall N.board one.new }
        ensures other { MayCall N.board other.new }
        ensures met { Met (part one.old) (part other.old) (part one.new) (part other.new) }
        ensures alike { (part one.new).known ≡ (part other.new).known }
    {
        self.board.meet(one, other);
    }
}
