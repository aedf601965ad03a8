//! The commands in a client's text.
ghost use Rattle.std.specs.Prelude.{◌≡◌, ◌≤◌, ◌<◌, ◌++◌, [], ◌∷◌, IfOk, OnOk, OnErr, Some, false, length, map, option_map};
ghost use Rattle.lz_resp.specs.Keys.{IsRoom, at_first};
ghost use Rattle.lz_forget.specs.Wants.{HasCount, claim_wanted, extra_in, by_time, left_by, left_in, lookup_wanted, other_time, time_in, time_of, wanted_by, wanted_in};
ghost use Rattle.lz_forget.specs.Commands.{taken, wanted_for};

use crate::wanted::Wanted;
use lz_resp::{
    Item, Naming, State, Stop, Text, argument, fault_text, is_name, item_in, push_plain, read_first,
};
use lz_slot::read_number;
use std::alloc::{AllocError, Global};
use std::marker::Model;

/// The most seconds after which a set forgets: some three years.
pub const MOST_SECONDS: u64 = 100_000_000;

/// What a frame asks that only a set takes which forgets.
#[derive(Clone, Copy, Debug, PartialEq, Eq)]
pub(crate) enum Extra {
    Nothing,
    /// A claim for the set's own time.
    Claim,
    /// A claim for another time.
    OtherTime,
    /// The time that is left, in units of so many milliseconds.
    Left(u64),
}

/// A client's text, of which each frame is taken by itself.
#[derive(Drop)]
pub struct Commands {
    alloc: Global,
    seconds: u64,
    state: State,
    // what has come, and how much of it was taken
    text: Vec<u8>,
    taken: usize,
    over: bool,
}

impl Model for Commands {
    ghost use Rattle.std.specs.Prelude.{◌≤◌, drop, length};
    ghost use Rattle.lz_resp.specs.Keys.{IsRoom};
    ghost use Rattle.lz_forget.specs.Commands.{Reader};

    ghost Value = { Reader };

    ghost view = { λ c. record { seconds = c.seconds; state = c.state; text = drop c.taken c.text.items; over = c.over } };

    ghost invariant = { λ c. IsRoom c.state.selected × (c.taken ≤ length c.text.items) × (c.seconds ≤ 100000000) };
}

impl Commands {
    /// Those of a client of a set that forgets after so many seconds. Its texts are hashed as the naming says.
    pub fn new(alloc: Global, seconds: u64, naming: Naming) -> Commands
        requires { seconds ≤ 100000000 }
        ensures { result ≡ record { seconds = seconds; state = at_first naming; text = []; over = false } }
    {
        Commands {
            alloc,
            seconds,
            state: State::at_first(naming),
            text: Vec::new(alloc),
            taken: 0,
            over: false,
        }
    }

    /// A piece more has come.
    pub fn feed(&mut self, piece: &[u8]) -> Result<(), AllocError>
        ensures ok { OnOk result (self.new ≡ record self.old { text = self.old.text ++ piece.now }) }
        ensures err { OnErr result (self.new ≡ self.old) }
    {
        self.drop_taken();
        self.text.extend_from_slice(piece)
    }

    /// What the next whole frame wants, if one has come. After a fault, or the client's last frame, none is read.
    pub fn next(&mut self) -> Result<Option<Wanted>, AllocError>
        ensures { IfOk result (λ next. (next, self.new) ≡ taken self.old) }
    {
        if self.over {
            return Ok(None);
        }
        let (wanted, count) = match read_first(self.alloc, &self.text[self.taken..]) {
            Ok(None) => return Ok(None),
            Ok(Some((arguments, count))) => (
                wanted_for(
                    self.alloc,
                    self.seconds,
                    &mut self.state,
                    arguments.as_slice(),
                )?,
                count,
            ),
            Err(Stop::Faulty(fault)) => (Wanted::Ends(fault_text(self.alloc, fault)?), 0),
            Err(Stop::Memory) => return Err(AllocError),
        };
        self.taken += count;
        self.over = matches!(wanted, Wanted::Ends(_));
        Ok(Some(wanted))
    }

    // What was taken needs no room any more.
    fn drop_taken(&mut self)
        ensures { self.new ≡ self.old }
    {
        let left = self.text.len() - self.taken;
        self.text.copy_within(self.taken.., 0);
        self.text.truncate(left);
        self.taken = 0;
    }
}

// What a frame of some arguments wants, or of none.
fn wanted_for(
    alloc: Global,
    seconds: u64,
    state: &mut State,
    arguments: &[&[u8]],
) -> Result<Wanted, AllocError>
    requires range { IsRoom state.old.selected }
    requires seconds { seconds ≤ 100000000 }
    ensures wanted { IfOk result (λ wanted. (wanted, state.new) ≡ wanted_for seconds state.old (map (λ argument. argument.now) arguments.now)) }
    ensures range { IsRoom state.new.selected }
{
    if arguments.is_empty() {
        return Ok(Wanted::Says(Text::of(alloc, b"")?));
    }
    match extra_in(seconds, arguments) {
        Extra::Nothing => Wanted::of(alloc, item_in(alloc, state, arguments)?),
        Extra::Claim => claim(alloc, state, arguments),
        Extra::OtherTime => Ok(Wanted::Says(other_time(alloc, seconds)?)),
        Extra::Left(unit) => lookup(alloc, unit, state, arguments),
    }
}

// What a claim wants, whose arguments name the set's own time.
fn claim(alloc: Global, state: &mut State, arguments: &[&[u8]]) -> Result<Wanted, AllocError>
    requires range { IsRoom state.old.selected }
    requires some { length arguments.now ≡ 6 }
    ensures wanted { IfOk result (λ wanted. (wanted, state.new) ≡ claim_wanted state.old (map (λ argument. argument.now) arguments.now)) }
    ensures range { IsRoom state.new.selected }
{
    let (name, key) = (argument(arguments, 0), argument(arguments, 1));
    let item = item_in(alloc, state, &[name, key, argument(arguments, 2), b"nx"])?;
    Wanted::of(alloc, item)
}

// What the question for the time wants that is left of a key.
fn lookup(
    alloc: Global,
    unit: u64,
    state: &mut State,
    arguments: &[&[u8]],
) -> Result<Wanted, AllocError>
    requires range { IsRoom state.old.selected }
    requires some { length arguments.now ≡ 2 }
    ensures wanted { IfOk result (λ wanted. (wanted, state.new) ≡ lookup_wanted unit state.old (map (λ argument. argument.now) arguments.now)) }
    ensures range { IsRoom state.new.selected }
{
    let item = item_in(alloc, state, &[b"exists", argument(arguments, 1)])?;
    left_by(alloc, unit, item)
}

// What the lookup of a key wants whose time is asked for.
fn left_by(alloc: Global, unit: u64, item: Item) -> Result<Wanted, AllocError>
    ensures { IfOk result (λ wanted. wanted ≡ left_by unit item) }
{
    match item {
        Item::Asks(_, requests) => Ok(Wanted::Left(unit, requests)),
        other => Wanted::of(alloc, other),
    }
}

// What is said of another time than the set's.
fn other_time(alloc: Global, seconds: u64) -> Result<Text, AllocError>
    ensures { IfOk result (λ text. text ≡ other_time seconds) }
{
    let mut text = Vec::from_slice(alloc, b"-ERR this service forgets after ")?;
    push_plain(&mut text, seconds)?;
    text.extend_from_slice(b" seconds\r\n")?;
    Text::of(alloc, text.as_slice())
}

// What arguments ask that only a set takes which forgets after so many seconds.
fn extra_in(seconds: u64, arguments: &[&[u8]]) -> Extra
    requires { seconds ≤ 100000000 }
    ensures extra { result ≡ extra_in seconds (map (λ argument. argument.now) arguments.now) }
    ensures count { HasCount result (length arguments.now) }
{
    if arguments.len() == 2 {
        return left_in(argument(arguments, 0));
    }
    if arguments.len() == 6 && is_name(b"set", argument(arguments, 0)) {
        let time = time_in(
            argument(arguments, 3),
            argument(arguments, 4),
            argument(arguments, 5),
        );
        return by_time(seconds, time);
    }
    Extra::Nothing
}

// What a command of this name asks of a key.
fn left_in(name: &[u8]) -> Extra
    ensures { result ≡ left_in name.now }
{
    if is_name(b"ttl", name) {
        return Extra::Left(1_000);
    }
    if is_name(b"pttl", name) {
        Extra::Left(1)
    } else {
        Extra::Nothing
    }
}

// What a claim asks with this time, the digits of so many units.
fn by_time(seconds: u64, time: Option<(u64, &[u8])>) -> Extra
    requires { seconds ≤ 100000000 }
    ensures { result ≡ by_time seconds (option_map (λ p. (p.0, p.1.now)) time.entry) }
{
    let Some((unit, digits)) = time else {
        return Extra::Nothing;
    };
    match read_number(digits, 0, u64::MAX) {
        Some(count) if count.checked_mul(unit) == Some(seconds * 1_000) => Extra::Claim,
        _ => Extra::OtherTime,
    }
}

// The time that options name of which one is NX, the first or the last.
fn time_in<'t>(a: &'t [u8], b: &'t [u8], c: &'t [u8]) -> Option<(u64, &'t [u8])>
    ensures { option_map (λ p. (p.0, p.1.now)) result ≡ time_in a.now b.now c.now }
{
    if is_name(b"nx", a) {
        return time_of(b, c);
    }
    if is_name(b"nx", c) {
        time_of(a, b)
    } else {
        None
    }
}

// The time that two options name.
fn time_of<'t>(name: &'t [u8], digits: &'t [u8]) -> Option<(u64, &'t [u8])>
    ensures { option_map (λ p. (p.0, p.1.now)) result ≡ time_of name.now digits.now }
{
    if is_name(b"ex", name) {
        return Some((1_000, digits));
    }
    if is_name(b"px", name) {
        Some((1, digits))
    } else {
        None
    }
}
