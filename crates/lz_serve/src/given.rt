//! Names of the passes that a service is given.
use std::marker::Brand;

/// Names some passes by what they are as a service begins, which contracts alone see.
pub trait Given {
    ghost use Rattle.std.specs.Prelude.{List};
    ghost use Rattle.lz_board.specs.declared.view.Part.{Part};

    ghost parts: { List Part };
}

impl Given for Brand {
    ghost use Rattle.std.specs.Prelude.{[]};

    ghost parts = { [] };
}
