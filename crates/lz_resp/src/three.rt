//! Frames of three arguments, as most are, where the lengths of the arguments are short. They take no memory, and are read faster than others.
ghost use Rattle.std.specs.Prelude.{◌≡◌, ◌≤◌, ◌<◌, ◌∷◌, [], IfSome, Ok, Some, drop, length, map};
ghost use Rattle.lz_resp.specs.Reading.{first_of, argument_at};

use crate::digits::read_short;
use crate::limits::MOST_FRAME;

/// The arguments of such a frame, and how many bytes it has.
#[derive(Drop)]
pub(crate) struct Three<'t> {
    pub(crate) arguments: [&'t [u8]; 3],
    pub(crate) count: usize,
}

/// The first frame of a text, if it is such a one.
#[inline(always)]
pub(crate) fn read_three(text: &[u8]) -> Option<Three<'_>>
    ensures gives { IfSome result (λ three. first_of text.now ≡ Ok (Some (map (λ argument. argument.now) three.arguments, drop three.count text.now))) }
    ensures inside { IfSome result (λ three. (0 < three.count) × (three.count ≤ length text.now)) }
{
    let window = &text[..text.len().min(MOST_FRAME)];
    let [b'*', b'3', b'\r', b'\n', front @ ..] = window else {
        return None;
    };
    let (first, after_first) = read_argument(front)?;
    let (second, after_second) = read_argument(after_first)?;
    let (third, rest) = read_argument(after_second)?;
    Some(Three {
        arguments: [first, second, third],
        count: window.len() - rest.len(),
    })
}

// A bulk string's bytes, and what follows it.
#[inline(always)]
fn read_argument(text: &[u8]) -> Option<(&[u8], &[u8])>
    ensures gives { IfSome result (λ p. argument_at text.now ≡ Ok (Some (p.0.now, p.1.now))) }
    ensures inside { IfSome result (λ p. length p.1.now ≤ length text.now) }
{
    let [b'$', line @ ..] = text else {
        return None;
    };
    let (count, front) = read_short(line)?;
    if front.len() < count {
        return None;
    }
    let (argument, ended) = front.split_at(count);
    let [b'\r', b'\n', rest @ ..] = ended else {
        return None;
    };
    Some((argument, rest))
}
