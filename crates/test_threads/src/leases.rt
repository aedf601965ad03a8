//! The lease of a service, over a device and a clock that do as a test tells them.
use lz_serve::{Lease, Loss, Tether};
use std::alloc::{AllocError, Global};
use std::cell::Cell;
use std::io;
use std::io::ErrorKind;
use std::process::Abort;
use std::sync::Wait;
use std::test::Fail;

/// For how many milliseconds each lease here is.
const MILLIS: u64 = 500;

/// What a device and its clock are told to do.
#[derive(Drop)]
struct Bench {
    // The time in milliseconds. None where the clock can't be read.
    now: Cell<Option<u64>>,
    // How many milliseconds a device call takes. None where the clock can't be read after it.
    takes: Cell<Option<u64>>,
    // Whether a device call fails.
    fails: Cell<bool>,
    // How many device calls were made.
    calls: Cell<u64>,
}

impl Bench {
    // Device calls succeed at once, and the clock tells 1,000.
    fn new() -> Bench {
        Bench {
            now: Cell::new(Some(1_000)),
            takes: Cell::new(Some(0)),
            fails: Cell::new(false),
            calls: Cell::new(0),
        }
    }

    // So many milliseconds pass. Where that is None the clock can't be read any more.
    fn pass(&self, millis: Option<u64>) {
        self.now.set(later(self.now.get(), millis));
    }

    // From now on device calls succeed at once, and the clock can be read.
    fn mend(&self) {
        self.now.set(Some(100_000));
        self.takes.set(Some(0));
        self.fails.set(false);
    }
}

// The time so many milliseconds later, where both are told.
fn later(now: Option<u64>, millis: Option<u64>) -> Option<u64> {
    now?.checked_add(millis?)
}

/// The device and the clock of a bench.
#[derive(Drop)]
struct Tied<'a> {
    bench: &'a Bench,
}

impl<'a> Tether for Tied<'a> {
    ghost use Rattle.std.specs.Prelude.{true};

    ghost told = { λ _. true };

    ghost touched = { λ _. true };

    ghost told_since = { λ _ _. true };

    fn now(&self) -> Option<u64> {
        self.bench.now.get()
    }

    fn touch(&self, _began: u64) -> io::Result<()> {
        self.bench.calls.set(self.bench.calls.get().wrapping_add(1));
        self.bench.pass(self.bench.takes.get());
        if self.bench.fails.get() {
            return Err(io::Error::from(ErrorKind::StorageFull));
        }
        Ok(())
    }

    fn now_since(&self, _began: u64) -> Option<u64> {
        self.bench.now.get()
    }
}

// A lease on a new bench: one that gave no leave yet, or one whose first call began just as many milliseconds ago as it is for.
fn lease_on<'a, R: Wait + Abort>(rt: &R, bench: &'a Bench, is_used: bool) -> Lease<Tied<'a>> {
    let lease = Lease::new(Tied { bench }, MILLIS);
    if is_used {
        assert!(rt; lease.leave(rt).is_some());
        bench.pass(Some(MILLIS));
    }
    lease
}

// The next leave has to be refused, and the lease to be lost. It has to stay so, and to make no more calls, once all works again. Why it was
// lost, as the first who asked was told.
fn lose<R: Wait + Abort>(rt: &R, bench: &Bench, lease: &Lease<Tied<'_>>) -> Option<Loss> {
    assert!(rt; !lease.is_lost() && lease.take_loss(rt).is_none());
    assert!(rt; lease.leave(rt).is_none());
    assert!(rt; lease.is_lost());
    let loss = lease.take_loss(rt);
    let calls = bench.calls.get();
    bench.mend();
    for _ in 0..3 {
        assert!(rt; lease.leave(rt).is_none());
        assert!(rt; lease.is_lost());
        assert!(rt; lease.take_loss(rt).is_none());
        bench.pass(Some(MILLIS));
    }
    assert_eq!(rt; bench.calls.get(), calls);
    loss
}

// How many milliseconds a call took that was late.
fn late_by(loss: Option<Loss>) -> Option<u64> {
    match loss {
        Some(Loss::Late(millis)) => Some(millis),
        _ => None,
    }
}

// How a call failed.
fn failed_by(loss: Option<Loss>) -> Option<ErrorKind> {
    match loss {
        Some(Loss::Failed(error)) => Some(error.kind()),
        _ => None,
    }
}

// It has no device that it could call.
#[test]
fn without_a_lease_each_leave_is_given(rt: HostRuntime) -> Result<(), Fail> {
    let lease = Lease::<Tied<'_>>::none();
    for _ in 0..3 {
        assert!(rt; lease.leave(&rt).is_some());
        assert!(rt; !lease.is_lost());
        assert!(rt; lease.take_loss(&rt).is_none());
    }
    Ok(())
}

// When a leave is asked for, and how many calls were made once it is given. Each call takes no time.
const LEAVES: [(u64, u64); 9] = [
    (1_000, 1),
    (1_000, 1),
    (1_001, 1),
    (1_499, 1),
    (1_500, 2),
    (1_999, 2),
    (2_700, 3),
    (3_199, 3),
    (3_200, 4),
];

#[test]
fn a_call_gives_leave_for_some_milliseconds(rt: HostRuntime) -> Result<(), Fail> {
    let bench = Bench::new();
    let lease = lease_on(&rt, &bench, false);
    assert_eq!(rt; bench.calls.get(), 0);
    for (now, calls) in LEAVES {
        bench.now.set(Some(now));
        assert!(rt; lease.leave(&rt).is_some(), "at {now}");
        assert_eq!(rt; bench.calls.get(), calls, "at {now}");
    }
    assert!(rt; !lease.is_lost() && lease.take_loss(&rt).is_none());
    Ok(())
}

// A call that takes a millisecond less than the lease is for gives leave for the one that is left.
#[test]
fn leave_is_given_from_where_a_call_began(rt: HostRuntime) -> Result<(), Fail> {
    let bench = Bench::new();
    let lease = lease_on(&rt, &bench, false);
    bench.takes.set(Some(499));
    for calls in [1, 2, 3] {
        assert!(rt; lease.leave(&rt).is_some(), "call {calls}");
        assert!(rt; lease.leave(&rt).is_some(), "call {calls}");
        assert_eq!(rt; bench.calls.get(), calls);
        bench.pass(Some(1));
    }
    assert!(rt; !lease.is_lost() && lease.take_loss(&rt).is_none());
    Ok(())
}

// Whether a leave was given before the call that loses a lease, and how many calls were made with that one.
const CALLS: [(bool, u64); 2] = [(false, 1), (true, 2)];

#[test]
fn a_lease_is_lost_where_a_call_takes_too_long(rt: HostRuntime) -> Result<(), Fail> {
    for takes in [500, 501, 12_034] {
        for (is_used, calls) in CALLS {
            let bench = Bench::new();
            let lease = lease_on(&rt, &bench, is_used);
            bench.takes.set(Some(takes));
            let loss = lose(&rt, &bench, &lease);
            assert_eq!(rt; late_by(loss), Some(takes));
            assert_eq!(rt; bench.calls.get(), calls, "{takes} ms");
        }
    }
    Ok(())
}

#[test]
fn a_lease_is_lost_where_a_call_fails(rt: HostRuntime) -> Result<(), Fail> {
    for (is_used, calls) in CALLS {
        let bench = Bench::new();
        let lease = lease_on(&rt, &bench, is_used);
        bench.fails.set(true);
        let loss = lose(&rt, &bench, &lease);
        assert_eq!(rt; failed_by(loss), Some(ErrorKind::StorageFull));
        assert_eq!(rt; bench.calls.get(), calls);
    }
    Ok(())
}

// Either after the call, or already before it.
#[test]
fn a_lease_is_lost_where_the_clock_fails(rt: HostRuntime) -> Result<(), Fail> {
    for is_used in [false, true] {
        for is_called in [false, true] {
            let bench = Bench::new();
            let lease = lease_on(&rt, &bench, is_used);
            if is_called {
                bench.takes.set(None);
            } else {
                bench.now.set(None);
            }
            let loss = lose(&rt, &bench, &lease);
            assert!(rt; matches!(loss, Some(Loss::Timeless)), "called: {is_called}");
        }
    }
    Ok(())
}

// Why a lease is lost, in words.
fn words_of(alloc: Global, loss: Loss) -> Result<String, AllocError> {
    format!(in alloc; "{loss}")
}

#[test]
fn a_loss_is_told_in_words(rt: HostRuntime) -> Result<(), Fail> {
    for (millis, words) in [
        (500, "a sync took 500 ms"),
        (999, "a sync took 999 ms"),
        (1_000, "a sync took 1,000 ms"),
        (12_034, "a sync took 12,034 ms"),
    ] {
        let told = words_of(rt.alloc(), Loss::Late(millis))?;
        assert_eq!(rt; told.as_str(), words);
    }
    let full = io::Error::from(ErrorKind::StorageFull);
    let told = words_of(rt.alloc(), Loss::Failed(full))?;
    assert_eq!(rt; told.as_str(), "a sync failed: no storage space");
    let told = words_of(rt.alloc(), Loss::Timeless)?;
    assert_eq!(rt; told.as_str(), "the clock can't be read");
    Ok(())
}
