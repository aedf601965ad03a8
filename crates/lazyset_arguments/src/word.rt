//! What a word of a command is.

/// What a word may be.
#[derive(Clone, Copy)]
pub enum Form {
    /// It stands there or not.
    Flag,
    Text,
    /// One of these after a `=`, or nothing.
    Choice(&'static [&'static str]),
    Number,
    /// A number in the last place, which may be left out.
    LastNumber,
    Within(i64, i64),
    /// Within these bounds, or `-` where `--socket` stands. It may be left out where PASSES are.
    Port(i64, i64),
    /// A number that may be left out, as a service's PASSES.
    Passes,
}

/// What else may stand with an option.
#[derive(Clone, Copy)]
pub enum Beside {
    Anything,
    /// It needs this one.
    Needs(&'static str),
    /// It stands without this one.
    Excludes(&'static str),
    /// Where a service's PASSES stand it needs the first one, if there is one. It stands without the others.
    Serving(Option<&'static str>, &'static [&'static str]),
}

/// A word of a command.
#[derive(Clone, Copy)]
pub struct Word {
    pub id: &'static str,
    /// What the help calls the value of an option. A word without it stands in its place, and is required unless its form says otherwise.
    pub value_name: Option<&'static str>,
    pub form: Form,
    pub default: Option<&'static str>,
    pub beside: Beside,
    pub help: &'static str,
}
