//! The yard: what callers share under one lock.
ghost use Rattle.std.specs.Prelude.{◌≡◌, ◌≤◌, true, IfErr, IfOk, IfSome};
ghost use Rattle.lz_slot.specs.Limits.{most_buckets, most_passes};
ghost use Rattle.lz_allot.specs.Uses.{counts};
ghost use Rattle.lz_list.specs.Words.{set};
ghost use Rattle.lz_list.specs.Lists.{IsWord};
ghost use Rattle.lz_vault.specs.Opens.{IsRefusedFor, MayOpen, open_count};
ghost use Rattle.lz_yard.specs.Filling.{OpensYard};
ghost use Rattle.lz_machine.specs.Ready.{IsEventOf};
ghost use Rattle.lz_machine.specs.Runs.{MayPlay, with_words};
ghost use Rattle.lz_yard.specs.Steps.{Played};
ghost use Rattle.lz_machine.specs.Table.{is_sure, is_taken, needs};

use crate::filling::Tables;
use crate::parts::Parts;
use crate::plays::played;
use crate::told::{Stepped, untold};
use lz_allot::Counts;
use lz_disk::Disk;
use lz_list::{Place, Word, Words};
use lz_machine::{Course, Event, Outcome};
use lz_slot::{Format, Slot};
use lz_vault::{OneThread, OpenFault, Opened, Refused, Sorter, Vault};
use std::alloc::{AllocError, Global};
use std::marker::Model;

/// What callers share under one lock: the words, the node locks, the vault, the slots that are free, and what each actor
/// has in hand. Actors count from 1, as their passes do.
#[derive(Drop)]
pub struct Yard<D: Disk> {
    pub(crate) parts: Parts<D>,
}

impl<D: Disk> Model for Yard<D> {
    ghost use Rattle.lz_yard.specs.Parts.{PartsFit, YardOver};

    ghost Value = { YardOver D };

    ghost view = { λ y. record { yard = y.parts.yard; disk = y.parts.disk } };

    ghost invariant = { λ y. PartsFit y.parts.yard y.parts.rows };
}

impl<D: Disk> Yard<D> {
    /// Opens a slot file, and links its members into so many buckets. It is refused as the vault's open is, and with Memory
    /// where there is no room for the tables.
    pub fn open(
        alloc: Global,
        disk: D,
        buckets: usize,
        passes: usize,
    ) -> Result<Yard<D>, Refused<D>>
        requires disk { MayOpen (D.device disk) }
        requires buckets { (1 ≤ buckets) × (buckets ≤ most_buckets) }
        requires passes { (1 ≤ passes) × (passes ≤ most_passes) }
        ensures ok { IfOk result (λ yard. OpensYard (D.device disk) (D.device yard.disk) buckets passes yard.yard) }
        ensures err { IfErr result (λ refused. IsRefusedFor (D.device disk) (D.device refused.disk) refused.fault) }
    {
        Yard::open_by(alloc, disk, &OneThread, buckets, passes)
    }

    /// The same. This sorter sorts the members.
    pub fn open_by<S: Sorter>(
        alloc: Global,
        disk: D,
        sorter: &S,
        buckets: usize,
        passes: usize,
    ) -> Result<Yard<D>, Refused<D>>
        requires disk { MayOpen (D.device disk) }
        requires sorter { S.ready sorter.now }
        requires buckets { (1 ≤ buckets) × (buckets ≤ most_buckets) }
        requires passes { (1 ≤ passes) × (passes ≤ most_passes) }
        ensures ok { IfOk result (λ yard. OpensYard (D.device disk) (D.device yard.disk) buckets passes yard.yard) }
        ensures err { IfErr result (λ refused. IsRefusedFor (D.device disk) (D.device refused.disk) refused.fault) }
    {
        let Opened { vault, members } = Vault::open_with_members(alloc, disk, sorter)?;
        match Tables::of(alloc, &vault, members, buckets, passes) {
            Ok(tables) => Ok(Yard {
                parts: Parts {
                    slots: vault.slots(),
                    buckets,
                    passes,
                    list: tables.list,
                    vault,
                    allot: tables.allot,
                    actors: tables.actors,
                },
            }),
            Err(AllocError) => Err(Refused {
                disk: vault.close(),
                fault: OpenFault::Memory,
            }),
        }
    }

    /// Plays one event of an actor, with one device call at most.
    ///
    /// Where what the event needs doesn't hold it answers NotNow, and on a dead vault most kinds answer Dead; either changes
    /// nothing. Fault where the event's device call failed; from then on the vault is dead.
    #[tactic(auto, using(crate::proofs::Events::PlayedLine::line_rules, crate::proofs::Events::KeptFit::fits_played))]
    #[inline(always)]
    pub fn step(&mut self, actor: usize, event: Event) -> Stepped
        requires actor { (1 ≤ actor) × (actor ≤ self.old.yard.shape.passes) }
        requires event { IsEventOf self.old.yard event }
        requires may { needs self.old.yard actor event ≡ true → MayPlay self.old.yard (D.device self.old.disk).honest (D.device self.old.disk).medium actor event }
        ensures played { Played self.old.yard actor event result.outcome self.new.yard result.told (D.device self.old.disk) (D.device self.new.disk) }
        ensures word { IfSome result.told.changed (IsWord self.new.yard.words) }
        ensures shape { self.new.yard.shape ≡ self.old.yard.shape }
    {
        let asked = event;
        let played = event;
        match self.parts.course(actor, asked) {
            Course::Refused(outcome) => untold(outcome),
            Course::Dies => {
                self.parts.die();
                untold(Outcome::Dead)
            }
            Course::Plays => {
                let told = self.parts.tell(actor, event);
                let done = played!(self.parts, actor, played);
                match done {
                    Ok(outcome) => Stepped { outcome, told },
                    Err(_) => untold(Outcome::Fault),
                }
            }
        }
    }

    /// Sets the yard's copy of a pin word that lives outside it.
    pub fn note_pin(&mut self, actor: usize, value: u64)
        requires { (1 ≤ actor) × (actor ≤ self.old.yard.shape.passes) }
        ensures yard { self.new.yard ≡ with_words self.old.yard (set self.old.yard.words (Word.Pin actor) value) }
        ensures disk { self.new.disk ≡ self.old.disk }
    {
        self.parts.set_pin(actor, value);
    }

    pub fn slots(&self) -> usize
        ensures { result ≡ self.now.yard.shape.slots }
    {
        self.parts.slots
    }

    /// Whether the last write of this slot is durable, so that its Sync calls no device. Where there is no such slot none is called either.
    pub fn is_covered(&self, slot: Slot) -> bool
        ensures { result ≡ is_sure self.now.yard slot }
    {
        slot.index() as usize >= self.parts.slots || self.parts.is_sure(slot)
    }

    /// Whether a Claim of this pair would find it taken. Over a dead vault no pair is: a Claim is answered that.
    pub fn is_taken(&self, pred: Place, curr: Option<Slot>) -> bool
        ensures { result ≡ is_taken self.now.yard pred curr }
    {
        !self.parts.is_dead() && !self.parts.list.is_free(pred, curr)
    }

    /// How many slots are surely open.
    pub fn opened(&self) -> usize
        ensures { result ≡ open_count self.now.yard.vault.cells }
    {
        self.parts.vault.opened()
    }

    /// How many slots are free, taken and in limbo.
    pub fn counts(&self) -> Counts
        ensures { result ≡ counts self.now.yard.uses }
    {
        self.parts.allot.counts()
    }

    pub fn words(&self) -> &Words
        ensures { result.now ≡ self.now.yard.words }
    {
        self.parts.list.words()
    }

    /// The format of its file.
    pub fn format(&self) -> Format
        ensures { result ≡ self.now.yard.vault.format }
    {
        self.parts.vault.format()
    }

    /// Ends the life, and hands the disk back as it is.
    pub fn close(self) -> D
        ensures { result ≡ self.disk }
    {
        self.parts.vault.close()
    }
}
