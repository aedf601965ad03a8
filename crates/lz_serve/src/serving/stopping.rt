//! The turns of a loop whose service stops.
ghost use Rattle.std.specs.Prelude.{◌≡◌};
ghost use Rattle.lz_serve.specs.Grants.{Promises};

use crate::desk::Desk;
use crate::given::Given;
use crate::limited::{Limit, Limited};
use crate::observer::Observer;
use crate::poller::{Poller, Ready};
use crate::serving::listen;
use lz_disk::Disk;
use lz_set::{Named, Set, StepGate};
use std::sync::Wait;
use std::sync::atomic::{AtomicBool, Ordering};
use std::time::{Clock, Duration};

/// For how many milliseconds what still comes is refused, unless all clients have left, and how long a turn is then at most. A client that was just
/// answered may have sent its next request.
const REFUSING_MS: u64 = 100;

const REFUSING_TURN_MS: u64 = 10;

/// Where the service stops, and hasn't halted: refuses what has come and wasn't begun, carries out what is left of frames that were, and refuses what
/// comes meanwhile.
pub(super) fn refuse_rest<D, G, N, B, L, R, O, P>(
    rt: &R,
    poller: &mut Limited<P, L>,
    set: &Set<D, G, N>,
    desk: &mut Desk<P::Stream, N, B>,
    ready: &mut Vec<Ready>,
    observer: &O,
    told: &AtomicBool,
    buffer: &mut [u8],
)
where
    D: Disk,
    G: StepGate,
    N: Named,
    B: Given,
    L: Limit,
    R: Wait + Clock + AllocGlobal,
    O: Observer,
    P: Poller,
    requires promised { Promises N.board N.format P.Stream.promised P.Stream.listed }
    requires asked { O.asked → P.Stream.asked }
    ensures given { desk.new.given ≡ desk.old.given }
{
    if told.load(Ordering::SeqCst) || desk.halted() || !observer.stops() {
        return;
    }
    desk.crowd.stop();
    desk.crowd.tell_refused(observer, buffer);
    let began = rt.monotonic().ok();
    'turns: for _ in rt.forever() {
        let is_over = desk.crowd.is_empty() || is_late(rt, began);
        if desk.halted() || is_over && desk.has_done_all() {
            break;
        }
        let patience = desk.patience().min(Duration::from_millis(REFUSING_TURN_MS));
        listen(
            rt,
            poller,
            &mut desk.crowd,
            patience,
            None,
            ready,
            observer,
            buffer,
        );
        desk.play_turn(rt, set, observer, buffer);
    }
}

// Whether it was long enough since then, as far as the clock can tell.
fn is_late<R: Clock>(rt: &R, began: Option<Duration>) -> bool {
    match (began, rt.monotonic()) {
        (Some(began), Ok(now)) => {
            now.saturating_sub(began) >= Duration::from_millis(REFUSING_MS)
        }
        _ => true,
    }
}
