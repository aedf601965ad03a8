//! What a frame finds.
ghost use Rattle.std.specs.Prelude.{◌≡◌};
ghost use Rattle.lz_resp.specs.Keys.{IsRoom, at_first};

use crate::naming::{Naming, Selected};

/// What is selected, and whether frames are refused, since they stand in a transaction.
#[derive(Clone, Copy, Debug)]
pub struct State {
    pub(crate) selected: Selected,
    pub(crate) refuses: bool,
}

impl State {
    /// No frame has come.
    pub fn at_first(naming: Naming) -> State
        ensures state { result ≡ at_first naming }
        ensures range { IsRoom result.selected }
    {
        State {
            selected: Selected::at_first(naming),
            refuses: false,
        }
    }
}
