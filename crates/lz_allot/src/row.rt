//! What the queue of slots in limbo knows of a pass.
ghost use Rattle.std.specs.Prelude.{◌≡◌, ◌≤◌, All};
ghost use Rattle.lz_allot.specs.Rows.{first_row, least_left, row_freed, row_seen, rows_freed};

/// What is known of a pass: the last pin value that was seen, and how far in the queue of slots in limbo it has come.
#[derive(Clone, Copy, Debug, PartialEq, Eq)]
pub struct Row {
    /// The pin value that was seen last, and 0 so long as none was.
    pub last: u64,
    /// How many of the first slots in the queue were there when the pass was last seen.
    pub met: usize,
    /// How many of the first slots in the queue the pass has left.
    pub left: usize,
}

impl Row {
    // Nothing was seen of the pass.
    pub(crate) const fn new() -> Row
        ensures { result ≡ first_row }
    {
        Row {
            last: 0,
            met: 0,
            left: 0,
        }
    }

    // The pin of the pass was seen with this value, while so many slots were in the queue.
    pub(crate) fn see(&mut self, pin: u64, queued: usize)
        ensures { self.new ≡ row_seen pin queued self.old }
    {
        if pin != self.last {
            self.left = self.met;
        }
        if pin % 2 == 0 {
            self.left = queued;
        }
        self.last = pin;
        self.met = queued;
    }

    // So many slots left the queue at its front.
    pub(crate) fn drop_first(&mut self, freed: usize)
        requires { (freed ≤ self.old.left) × (self.old.left ≤ self.old.met) }
        ensures { self.new ≡ row_freed freed self.old }
    {
        self.met -= freed;
        self.left -= freed;
    }
}

// How many of the first slots in limbo every pass has left.
pub(crate) fn least_left(rows: &[Row]) -> usize
    ensures { result ≡ least_left rows.now }
{
    let Some((first, others)) = rows.split_first() else {
        return 0;
    };
    others
        .iter()
        .fold(first.left, |least, row| least.min(row.left))
}

// So many slots left the queue at its front.
pub(crate) fn drop_first(rows: &mut [Row], freed: usize)
    requires { All (λ row. (freed ≤ row.left) × (row.left ≤ row.met)) rows.old }
    ensures { rows.new ≡ rows_freed freed rows.old }
{
    for row in rows.iter_mut() {
        row.drop_first(freed);
    }
}
