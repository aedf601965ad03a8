//! Whether the keys of a file are numbers or texts, and what is said of that.
use lazyset_file_commands::secret_mark;
use lazyset_set_commands::Wanted;
use lz_resp::Naming;
use lz_serve::{Language, Loops};

/// What a service takes the keys of its file for. One of lines alone serves whatever they are.
pub fn wanted_by(loops: Option<Loops>, as_numbers: bool, adopts: bool) -> Wanted {
    // A service that forgets has seen them at its start.
    if loops.is_some_and(|loops| loops.forgetting.is_some()) {
        return Wanted::Anything;
    }
    let naming = match loops.map(|loops| loops.language) {
        Some(Language::Frames(naming) | Language::Either(naming)) => naming,
        Some(Language::Lines) | None => return Wanted::Anything,
    };
    match naming {
        Naming::Texts(Some(secret)) => match secret_mark(secret) {
            Some(mark) => Wanted::Secret(mark),
            None => unreachable!(),
        },
        Naming::Texts(None) if adopts => Wanted::OlderTexts,
        Naming::Texts(None) => Wanted::Texts,
        Naming::Rooms if as_numbers => Wanted::Anything,
        Naming::Rooms => Wanted::Numbers,
    }
}

/// What is said of texts that are served as they stand.
pub const ARE_TEXTS: &str = "its keys are texts, and are taken for numbers here";
