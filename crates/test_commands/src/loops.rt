//! Many clients that one loop serves by four passes: each is told what a set of its own keys would reply.
ghost use Rattle.std.specs.Prelude.{All};
ghost use Rattle.lz_set.specs.Names.{MayCall};
ghost use Rattle.lz_disk.specs.Records.{device_of};
ghost use Rattle.lz_set.specs.Blanks.{MayBeNamed};

use crate::network::{Network, Switch, side_of};
use crate::scripts::{Script, script_of};
use lz_disk::MemoryDisk;
use lz_proto::Reply;
use lz_resp::Figures;
use lz_serve::{Bounds, Clearings, Lack, Listener, Observer, Serving, Verb, serve_loop};
use lz_set::{Blank, Named, NoGate, Pass, Set};
use lz_vault::suit;
use std::alloc::Global;
use std::cell::{Cell, RefCell};
use std::io;
use std::marker::Brand;
use std::process::Abort;
use std::sync::Wait;
use std::sync::atomic::AtomicBool;
use std::test::Fail;
use std::time::{Clock, Duration};
use test_support::{keys_in, made};

/// How many clients there are, how many at once, and by how many passes they are served.
const CLIENTS: usize = 12;

const PLACES: usize = 7;

pub const PASSES: usize = 4;

/// Counts what it is told, and ends the service after so many replies.
#[derive(Drop)]
struct Counts {
    accepted: Cell<u64>,
    parted: Cell<u64>,
    answered: Cell<u64>,
    halted: Cell<u64>,
    most: u64,
    clearings: Clearings,
}

impl Observer for Counts {
    ghost use Rattle.std.specs.Prelude.{⊤};

    ghost asked = { ⊤ };

    fn serving(&self, _serving: Serving, _listener: &Listener) {}

    fn no_port(&self, error: io::Error) {
        drop(error);
    }

    fn unserved(&self, why: Lack) {
        drop(why);
    }

    fn threadless(&self) {}

    fn accepted(&self) {
        self.accepted.set(self.accepted.get().wrapping_add(1));
    }

    fn unaccepted(&self, error: io::Error) {
        drop(error);
    }

    fn crowded(&self) {}

    fn parted(&self) {
        self.parted.set(self.parted.get().wrapping_add(1));
    }

    fn answered(&self, _verb: Verb, _reply: Reply, _members: Option<usize>) {
        self.answered.set(self.answered.get().wrapping_add(1));
    }

    fn took(&self, _time: Duration) {}

    fn figures(&self) -> Figures {
        Figures::default()
    }

    fn clearings(&self) -> &Clearings {
        &self.clearings
    }

    fn shut_down(&self, _figures: &Figures) {}

    fn halted(&self) {
        self.halted.set(self.halted.get().wrapping_add(1));
    }

    fn stops(&self) -> bool {
        self.answered.get() >= self.most
    }
}

/// How a loop ended: how many passes it handed back, whether it halted, how often each was told, and the disk that was left.
#[derive(Drop)]
pub struct Ended {
    pub passes: usize,
    pub halted: bool,
    pub accepted: u64,
    pub parted: u64,
    pub answered: u64,
    pub halts: u64,
    pub disk: MemoryDisk,
}

// Serves the network's connections by the passes of a set.
fn serve_all<N: Named, R: Wait + Clock + AllocGlobal>(
    rt: &R,
    set: &Set<MemoryDisk, NoGate, N>,
    passes: Vec<Pass>,
    network: &RefCell<Network>,
    counts: &Counts,
) -> (usize, bool)
    requires { All (MayCall N.board) passes.items }
{
    let switch = Switch {
        network,
        next: 0,
        clients: CLIENTS,
        places: PLACES,
    };
    let bounds = Bounds {
        sessions: CLIENTS as u64,
        idle: None,
    };
    let told = AtomicBool::new(false);
    let (served, _switch) = serve_loop(rt, switch, set, passes, PLACES, bounds, counts, &told);
    (served.passes.len(), served.halted)
}

// The same on a set that was opened.
fn serve_blank<N: Named, R: Wait + Clock + AllocGlobal>(
    rt: &R,
    blank: Blank<MemoryDisk, NoGate>,
    network: &RefCell<Network>,
    most: u64,
) -> Ended
    requires { MayBeNamed device_of N.board N.first N.format blank }
{
    let (set, passes) = blank.start::<N>();
    let counts = Counts {
        accepted: Cell::new(0),
        parted: Cell::new(0),
        answered: Cell::new(0),
        halted: Cell::new(0),
        most,
        clearings: Clearings::new(),
    };
    let (passes, halted) = serve_all(rt, &set, passes, network, &counts);
    Ended {
        passes,
        halted,
        accepted: counts.accepted.get(),
        parted: counts.parted.get(),
        answered: counts.answered.get(),
        halts: counts.halted.get(),
        disk: set.close(),
    }
}

/// The same on the set that a disk holds, up to so many replies.
pub fn serve_on<R: Wait + Clock + AllocGlobal>(
    rt: &R,
    disk: MemoryDisk,
    network: &RefCell<Network>,
    most: u64,
) -> Option<Ended> {
    let mut disk = disk;
    suit(&mut disk);
    match Set::open(rt.alloc(), disk, NoGate, 3, PASSES) {
        Ok(blank) => Some(serve_blank::<Brand, R>(rt, blank, network, most)),
        Err(_) => None,
    }
}

/// The scripts of all clients, each of so many lines.
pub fn all_scripts(alloc: Global, lines: u64) -> Option<Vec<Script>> {
    let mut scripts = Vec::new(alloc);
    for client in 0..CLIENTS as u64 {
        scripts.push(script_of(alloc, client, lines)?).ok()?;
    }
    Some(scripts)
}

/// The network on which these scripts are sent.
pub fn network_of(alloc: Global, scripts: &[Script], seed: u64) -> Option<RefCell<Network>> {
    let mut sides = Vec::new(alloc);
    for script in scripts {
        let text = script.text.as_slice().to_vec(alloc).ok()?;
        sides.push(side_of(alloc, text)).ok()?;
    }
    Some(RefCell::new(Network { sides, seed }))
}

// Whether each client was told what its script says, and nothing else.
fn are_told(network: &RefCell<Network>, scripts: &[Script]) -> bool {
    let Ok(network) = network.try_borrow() else {
        return false;
    };
    let mut sides = network.sides.iter();
    for script in scripts {
        match sides.next() {
            Some(side) if side.told.as_slice() == script.replies.as_slice() => {}
            _ => return false,
        }
    }
    true
}

// The keys that the scripts leave, ascending.
fn keys_of(alloc: Global, scripts: &[Script]) -> Option<Vec<u64>> {
    let mut keys = Vec::new(alloc);
    let mut first = 0u64;
    for script in scripts {
        let mut key = first;
        for member in script.members {
            if member {
                keys.push(key).ok()?;
            }
            key = key.wrapping_add(1);
        }
        first = first.wrapping_add(10);
    }
    Some(keys)
}

// Many clients on a new set, in the order that a seed gives.
fn talk<R: Wait + Clock + AllocGlobal + Abort>(rt: &R, seed: u64) -> Option<()> {
    let alloc = rt.alloc();
    let scripts = all_scripts(alloc, 40)?;
    let network = network_of(alloc, scripts.as_slice(), seed)?;
    let ended = serve_on(rt, made(alloc, 64)?, &network, u64::MAX)?;
    let Ended {
        passes,
        halted,
        accepted,
        parted,
        answered: _,
        halts,
        disk,
    } = ended;
    assert!(rt;
        passes == PASSES
            && !halted
            && accepted == CLIENTS as u64
            && parted == accepted
            && halts == 0,
        "seed {seed}"
    );
    assert!(rt; are_told(&network, scripts.as_slice()), "seed {seed}");
    let keys = keys_of(alloc, scripts.as_slice())?;
    assert!(rt;
        keys_in(alloc, disk)?.as_slice() == keys.as_slice(),
        "seed {seed}"
    );
    Some(())
}

#[test]
fn each_client_is_told_what_its_own_set_would_reply(rt: HostRuntime) -> Result<(), Fail> {
    for seed in 1..20 {
        assert!(rt; talk(&rt, seed).is_some(), "seed {seed}");
    }
    Ok(())
}
