//! The lease of a service: nothing is sent to a client unless a device call that began a short while ago has succeeded.
ghost use Rattle.std.specs.Prelude.{◌≡◌, ◌<◌, ◌+◌, IfOk, IfSome, IsSomeAnd, None, false, true};

use std::marker::PhantomData;
use std::sync::atomic::{AtomicBool, Ordering};
use std::sync::{Mutex, Wait};
use std::{fmt, io};

/// What a lease holds on to: a device and a clock. What they have done and told is known by their calls alone.
pub trait Tether: Drop {
    ghost use Rattle.std.specs.Prelude.{Bool, ℕ};

    /// The clock has told this.
    ghost told: { ℕ → Bool };

    /// A device call has succeeded that began when the clock had told this, or later.
    ghost touched: { ℕ → Bool };

    /// Once such a call had succeeded for the first of them, the clock told the second.
    ghost told_since: { ℕ → ℕ → Bool };

    /// The time in milliseconds. None where the clock can't be read.
    fn now(&self) -> Option<u64>
        ensures { IfSome result (λ now. told now ≡ true) };

    /// Makes a device call.
    fn touch(&self, began: u64) -> io::Result<()>
        requires { told began ≡ true }
        ensures { IfOk result (λ _. touched began ≡ true) };

    /// The time in milliseconds, once a device call has succeeded.
    fn now_since(&self, began: u64) -> Option<u64>
        requires { touched began ≡ true }
        ensures { IfSome result (λ now. told_since began now ≡ true) };
}

/// Why a lease is lost.
#[derive(Debug, Drop)]
pub enum Loss {
    /// A device call had taken so many milliseconds once it was seen to have succeeded.
    Late(u64),
    Failed(io::Error),
    /// The clock can't be read.
    Timeless,
}

impl fmt::Display for Loss {
    fn fmt<W: fmt::Write>(&self, f: &mut fmt::Formatter<W>) -> fmt::Result {
        match self {
            Loss::Late(millis) if *millis < 1_000 => write!(f, "a sync took {millis} ms"),
            Loss::Late(millis) => {
                let (thousands, rest) = (millis / 1_000, millis % 1_000);
                write!(f, "a sync took {thousands},{rest:03} ms")
            }
            Loss::Failed(error) => write!(f, "a sync failed: {error}"),
            Loss::Timeless => f.write_str("the clock can't be read"),
        }
    }
}

// That a device call succeeded, and what the clock had told before it. It is made where the call is, and nowhere else.
#[derive(Drop)]
struct Renewed<T: Tether> {
    began: u64,
    of: PhantomData<T>,
    ghost touched: { T.touched began ≡ true },
}

impl<T: Tether> Renewed<T> {
    // Makes a device call.
    fn make(tether: &T) -> Result<Renewed<T>, Loss> {
        let Some(began) = tether.now() else {
            return Err(Loss::Timeless);
        };
        match tether.touch(began) {
            Ok(()) => Ok(Renewed {
                began,
                of: PhantomData,
            }),
            Err(error) => Err(Loss::Failed(error)),
        }
    }

    // The permission that this call gives, while less than so many milliseconds have passed.
    fn permit(&self, tether: &T, millis: u64) -> Result<Held<T>, Loss>
        ensures { IfOk result (λ held. held.millis ≡ millis) }
    {
        let Some(now) = tether.now_since(self.began) else {
            return Err(Loss::Timeless);
        };
        let age = now.saturating_sub(self.began);
        if age >= millis {
            return Err(Loss::Late(age));
        }
        Ok(Held {
            began: self.began,
            at: now,
            millis,
            of: PhantomData,
        })
    }
}

/// Permission for one send: as the clock was last read, less than so many milliseconds had passed since a device call began that has succeeded. It
/// can't be copied, and a send uses it up.
#[derive(Drop)]
pub struct Held<T: Tether> {
    began: u64,
    at: u64,
    millis: u64,
    of: PhantomData<T>,
    ghost touched: { T.touched began ≡ true },
    ghost told: { T.told_since began at ≡ true },
    ghost fresh: { at < began + millis },
}

// What the loops of a service have of its lease in turn.
#[derive(Drop)]
struct Past<T: Tether> {
    last: Option<Renewed<T>>,
    loss: Option<Loss>,
    is_lost: bool,
}

impl<T: Tether> Past<T> {
    // No device call was made yet.
    fn new() -> Past<T>
        ensures { result.is_lost ≡ false }
    {
        Past {
            last: None,
            loss: None,
            is_lost: false,
        }
    }

    // Permission for one send. Where no call began less than so many milliseconds ago, one is made first. There is none any more once that failed, or took
    // as long.
    fn look(&mut self, tether: &T, millis: u64) -> Option<Held<T>>
        ensures millis { IfSome result (λ held. held.millis ≡ millis) }
        ensures lost { self.old.is_lost ≡ true → (result ≡ None) × (self.new.is_lost ≡ true) }
        ensures loses { result ≡ None → self.new.is_lost ≡ true }
    {
        if self.is_lost {
            return None;
        }
        if let Some(held) = self.by_last(tether, millis) {
            return Some(held);
        }
        match self.renew(tether, millis) {
            Ok(held) => Some(held),
            Err(loss) => {
                self.loss = Some(loss);
                self.is_lost = true;
                None
            }
        }
    }

    // The permission that the last call gives, if it does.
    fn by_last(&self, tether: &T, millis: u64) -> Option<Held<T>>
        ensures { IfSome result (λ held. held.millis ≡ millis) }
    {
        match &self.last {
            Some(renewed) => renewed.permit(tether, millis).ok(),
            None => None,
        }
    }

    // Makes a call, and gives the permission that it gives.
    fn renew(&mut self, tether: &T, millis: u64) -> Result<Held<T>, Loss>
        ensures millis { IfOk result (λ held. held.millis ≡ millis) }
    {
        let renewed = match Renewed::make(tether) {
            Ok(renewed) => renewed,
            Err(loss) => return Err(loss),
        };
        let held = renewed.permit(tether, millis);
        self.last = Some(renewed);
        held
    }
}

// A lease of so many milliseconds. While one loop makes a device call, the others wait for that before they send.
#[derive(Drop)]
struct Hold<T: Tether> {
    tether: T,
    millis: u64,
    past: Mutex<Past<T>>,
    is_lost: AtomicBool,
}

impl<T: Tether> Hold<T> {
    // Permission for one send, unless the lease is lost.
    fn look<R: Wait>(&self, rt: &R) -> Option<Held<T>>
        ensures { IfSome result (λ held. held.millis ≡ self.now.millis) }
    {
        let held = self.past.lock(rt).look(&self.tether, self.millis);
        if held.is_none() {
            self.is_lost.store(true, Ordering::SeqCst);
        }
        held
    }
}

/// The lease of a service, which its loops share; or that it has none.
#[derive(Drop)]
pub struct Lease<T: Tether> {
    hold: Option<Hold<T>>,
}

/// The leave to send once: a permission, where the service has a lease.
#[derive(Drop)]
pub struct Leave<T: Tether> {
    pub(crate) held: Option<Held<T>>,
}

impl<T: Tether> Lease<T> {
    /// One of so many milliseconds.
    pub fn new(tether: T, millis: u64) -> Lease<T>
        ensures { IsSomeAnd result.hold (λ hold. hold.millis ≡ millis) }
    {
        Lease {
            hold: Some(Hold {
                tether,
                millis,
                past: Mutex::new(Past::new()),
                is_lost: AtomicBool::new(false),
            }),
        }
    }

    /// That of a service without one, which may send at any time.
    pub fn none() -> Lease<T>
        ensures { result.hold ≡ None }
    {
        Lease { hold: None }
    }

    /// The leave to send once. There is none where the lease is lost. It may make a device call.
    pub fn leave<R: Wait>(&self, rt: &R) -> Option<Leave<T>>
        ensures { IfSome result (λ leave. IfSome self.now.hold (λ hold. IsSomeAnd leave.held (λ held. held.millis ≡ hold.millis))) }
    {
        match &self.hold {
            Some(hold) => {
                let held = hold.look(rt)?;
                Some(Leave { held: Some(held) })
            }
            None => Some(Leave { held: None }),
        }
    }

    /// Whether it is lost: then there is no leave any more.
    pub fn is_lost(&self) -> bool {
        match &self.hold {
            Some(hold) => hold.is_lost.load(Ordering::SeqCst),
            None => false,
        }
    }

    /// Why it is lost, for the first who asks once it is.
    pub fn take_loss<R: Wait>(&self, rt: &R) -> Option<Loss> {
        let hold = self.hold.as_ref()?;
        hold.past.lock(rt).loss.take()
    }
}
