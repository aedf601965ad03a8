//! Whether a place is to be tended to.
ghost use Rattle.std.specs.Prelude.{◌≡◌};

use crate::place::{Place, Wish};
use crate::stream::Stream;

impl<S: Stream> Place<S> {
    /// Notes that it is to be tended to, and says whether it wasn't.
    pub(crate) fn give_back(&mut self) -> bool
        ensures { self.new.client ≡ self.old.client }
    {
        let was_back = self.back;
        self.back = true;
        !was_back
    }

    /// Notes that it is to be tended to no more.
    pub(crate) fn take_back(&mut self)
        ensures { self.new.client ≡ self.old.client }
    {
        self.back = false;
    }

    // A wish, unless that is to be tended to in each turn, and it was noted.
    pub(super) fn note(&mut self, wish: Wish) -> Wish
        ensures { self.new.client ≡ self.old.client }
    {
        if wish == Wish::Again && !self.give_back() {
            return Wish::Nothing;
        }
        wish
    }
}
