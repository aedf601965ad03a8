//! What the words of a command line tell before they are understood. On it depends what else may stand there.
use crate::ids::SOCKET_ID;
use crate::sheets::SERVICE;
use crate::word::Form;

/// Where a service listens.
#[derive(Clone, Copy)]
pub enum Listens {
    AtPort,
    AtPath,
}

/// What a command line gives.
#[derive(Clone, Copy)]
pub struct Given {
    pub listens: Listens,
    /// The service's PASSES stand there: it is the service that it names, and chooses nothing but buckets.
    pub has_passes: bool,
}

impl Given {
    pub fn of(words: &[String]) -> Given {
        Given {
            listens: Listens::of(words),
            has_passes: has_passes(words),
        }
    }
}

impl Listens {
    // At a path where one of the words, before a `--`, is the option for it.
    fn of(words: &[String]) -> Listens {
        for word in words {
            let Some(name) = word.as_str().strip_prefix("--") else {
                continue;
            };
            if name.is_empty() {
                break;
            }
            if let Some(rest) = name.strip_prefix(SOCKET_ID)
                && (rest.is_empty() || rest.starts_with('='))
            {
                return Listens::AtPath;
            }
        }
        Listens::AtPort
    }
}

// How many words stand in the places of a service: FILE, PORT and PASSES.
const PLACES: usize = 3;

// Whether PASSES stand behind the command that serves a file.
fn has_passes(words: &[String]) -> bool {
    let mut words = words.iter().skip(1);
    let is_service = match words.next() {
        Some(word) => word.as_str() == "serve",
        None => false,
    };
    if !is_service {
        return false;
    }
    let mut count = 0_usize;
    let mut are_places = false;
    let mut is_value = false;
    for word in words {
        let word = word.as_str();
        if is_value {
            is_value = false;
        } else if are_places || !is_option(word) {
            count = count.saturating_add(1);
        } else if word == "--" {
            are_places = true;
        } else {
            is_value = takes_next(word);
        }
    }
    count >= PLACES
}

// Whether it stands in no place of its own. `-` does, in that of a port.
fn is_option(word: &str) -> bool {
    word.starts_with('-') && word != "-"
}

// Whether the word after this option is its value.
fn takes_next(option: &str) -> bool {
    let Some(name) = option.strip_prefix("--") else {
        return false;
    };
    for word in SERVICE {
        if word.id == name && word.value_name.is_some() {
            return !matches!(word.form, Form::Choice(_));
        }
    }
    false
}
