//! Names of boards.
use std::marker::Brand;

/// Names one board, its disk as it was when the board's life began or before, and the format of its file, by values that
/// contracts alone see.
pub trait Named {
    ghost use Rattle.lz_slot.specs.declared.format.Format.{Format};
    ghost use Rattle.lz_disk.specs.Devices.{Device};
    ghost use Rattle.lz_board.specs.Seats.{BoardId};

    ghost board: { BoardId };

    ghost first: { Device };

    ghost format: { Format };
}

impl Named for Brand {
    ghost use Rattle.lz_slot.specs.declared.format.Format.TheVariants.{One};
    ghost use Rattle.lz_refinement.specs.Holds.{no_board};
    ghost use Rattle.lz_refinement.specs.Moments.{no_device};

    ghost board = { no_board };

    ghost first = { no_device };

    ghost format = { One };
}
