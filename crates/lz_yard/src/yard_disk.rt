//! What a rehearsal looks at of a yard.
ghost use Rattle.std.specs.Prelude.{◌≡◌, ◌↔◌, IsTrue, true};
ghost use Rattle.lz_list.specs.Lists.{IsMember};
ghost use Rattle.lz_machine.specs.Calls.{loaded};
ghost use Rattle.lz_machine.specs.Orders.{HasPass};

use crate::yard::Yard;
use lz_disk::{Disk, MemoryDisk};
use lz_list::Word;
use lz_machine::Event;
use lz_slot::Key;

impl<D: Disk> Yard<D> {
    /// Whether a key is a member.
    pub fn is_member(&self, key: Key) -> bool
        ensures { IsTrue result ↔ IsMember self.now.yard.words key }
    {
        self.parts.list.member(key)
    }

    /// An event, with the pin word that it looks at, if it looks at one.
    pub fn load(&self, event: Event) -> Event
        requires { HasPass self.now.yard.shape.passes event }
        ensures { result ≡ loaded self.now.yard.words event }
    {
        match event {
            Event::SeePin(pass, _) => {
                Event::SeePin(pass, self.parts.list.words().get(Word::Pin(pass)))
            }
            event => event,
        }
    }

    /// The disk on which it stands.
    pub fn disk(&self) -> &D
        ensures { result.now ≡ self.now.disk }
    {
        self.parts.vault.disk()
    }
}

impl Yard<MemoryDisk> {
    /// Trips the disk.
    pub fn trip(&mut self)
        ensures { self.new ≡ record self.old { disk = record self.old.disk { trip = Some 0 } } }
    {
        self.parts.vault.trip();
    }
}
