//! Pages that passes list.
ghost use Rattle.std.specs.Prelude.{◌≡◌, [], ◌∷◌, IfOk, IfSome, IsSomeAnd, true};
ghost use Rattle.lz_list.specs.Traces.{Begins, halt_word};
ghost use Rattle.lz_board.specs.Seats.{part};
ghost use Rattle.lz_board.specs.Walkers.{KeepsCall};
ghost use Rattle.lz_resp.specs.Replies.{text_of};
ghost use Rattle.lz_set.specs.Names.{MayCall};
ghost use Rattle.lz_serve.specs.Listings.{IsListing, fault_reply, listing_end, listing_text};

use crate::telling::end_by;
use lz_disk::Disk;
use lz_proto::{End, Reply};
use lz_resp::{Form, Scan, Text, push_reply};
use lz_set::{GlanceFault, ListFault, Named, Page, Pass, Set, StepGate};
use std::alloc::{AllocError, Global};
use std::marker::{Model, PhantomData};
use std::snapshot::Snapshot;

/// A page that a pass listed, of the set that N names, or why there is none. It is made where the pass lists, and nowhere else, and can't
/// be copied.
#[derive(Drop)]
pub struct Listed<N: Named> {
    scan: Scan,
    told: Result<Page, GlanceFault>,
    before: Snapshot<Pass>,
    after: Snapshot<Pass>,
    of: PhantomData<N>,
}

impl<N: Named> Model for Listed<N> {
    ghost use Rattle.lz_serve.specs.Listings.{IsListing, Listing};

    ghost Value = { Listing };

    ghost view = { λ l. record { scan = l.scan; told = l.told; before = l.before.value; after = l.after.value } };

    ghost invariant = { λ l. IsListing N.board (record { scan = l.scan; told = l.told; before = l.before.value; after = l.after.value }) };
}

impl<N: Named> Listed<N> {
    /// What was asked for.
    pub fn scan(&self) -> Scan
        ensures scan { result ≡ self.now.scan }
        ensures listed { IsListing N.board self.now }
    {
        self.scan
    }

    /// The reply.
    pub fn text(&self, alloc: Global) -> Result<Text, AllocError>
        ensures { IfOk result (λ text. text ≡ listing_text self.now) }
    {
        match &self.told {
            Ok(page) => self.scan.text(alloc, page.keys.as_slice(), page.next),
            Err(fault) => refusal(alloc, fault_reply(*fault)),
        }
    }

    /// How a conversation goes on after it.
    pub(crate) fn end(&self) -> End
        ensures { result ≡ listing_end self.now }
    {
        match &self.told {
            Ok(_) => End::Done,
            Err(fault) => end_by(&[fault_reply(*fault)]),
        }
    }
}

/// Whether the pass told no page since the service has halted.
pub(crate) fn has_halted<N: Named>(listed: &Option<Listed<N>>) -> bool
    ensures { result ≡ true → IsSomeAnd listed.now (λ l. halt_word (part l.after).known ≡ 1) }
{
    match listed {
        Some(listed) => matches!(listed.told, Err(GlanceFault::Halted)),
        None => false,
    }
}

/// Lists a page by this pass, which has no call open. There is none where memory is missing.
pub(crate) fn list_page<D: Disk, G: StepGate, N: Named>(
    alloc: Global,
    set: &Set<D, G, N>,
    pass: &mut Pass,
    scan: Scan,
) -> Option<Listed<N>>
    requires { MayCall N.board pass.old }
    ensures may_call { MayCall N.board pass.new }
    ensures listed { IfSome result (λ listed. (listed.scan ≡ scan) × (listed.before ≡ pass.old) × (listed.after ≡ pass.new)) }
    ensures call { KeepsCall (part pass.old) (part pass.new) }
    ensures grows { Begins (part pass.old).known (part pass.new).known }
{
    let before = Snapshot::of(&*pass);
    let told = match set.list(alloc, pass, scan.from, scan.most.max(1)) {
        Ok(page) => Ok(page),
        Err(ListFault::Glance(fault)) => Err(fault),
        Err(ListFault::Memory) => return None,
    };
    let after = Snapshot::of(&*pass);
    Some(Listed {
        scan,
        told,
        before,
        after,
        of: PhantomData,
    })
}

// What a client is told where there is no page.
fn fault_reply(fault: GlanceFault) -> Reply
    ensures { result ≡ fault_reply fault }
{
    match fault {
        GlanceFault::Worn => Reply::Worn,
        GlanceFault::Halted | GlanceFault::BusyPass => Reply::Halted,
    }
}

fn refusal(alloc: Global, reply: Reply) -> Result<Text, AllocError>
    ensures { IfOk result (λ text. text ≡ text_of Form.Each (reply ∷ [])) }
{
    let mut text = Vec::new(alloc);
    push_reply(&mut text, Form::Each, &[reply])?;
    Text::of(alloc, text.as_slice())
}
