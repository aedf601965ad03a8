//! What a glance answers.
ghost use Rattle.std.specs.Prelude.{◌≡◌};
ghost use Rattle.lz_board.specs.Glances.{glance_fault_number};

use lz_slot::Slot;

/// What a pass saw of a key at a glance.
#[derive(Clone, Copy, Debug, PartialEq, Eq)]
pub enum Glance {
    Yes,
    No,
    /// The key's last change isn't durable yet; its node is in this slot.
    Unsettled(Slot),
}

/// Why a pass that has no call didn't look.
#[derive(Clone, Copy, Debug, PartialEq, Eq)]
pub enum GlanceFault {
    /// The service is over.
    Halted,
    /// Its pin word can't be counted up any more.
    Worn,
    /// It is inside already.
    BusyPass,
}

impl GlanceFault {
    /// The number by which a program tells the fault.
    pub fn number(self) -> u8
        ensures { result ≡ glance_fault_number self }
    {
        match self {
            GlanceFault::Halted => 1,
            GlanceFault::Worn => 2,
            GlanceFault::BusyPass => 3,
        }
    }
}
