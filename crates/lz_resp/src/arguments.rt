//! The arguments of a frame.
ghost use Rattle.std.specs.Prelude.{◌≡◌, ◌≤◌, ◌<◌, drop, length, map};
ghost use Rattle.lz_resp.specs.Commands.{argument};

/// The argument at this place.
pub fn argument<'t>(arguments: &[&'t [u8]], index: usize) -> &'t [u8]
    requires { index < length arguments.now }
    ensures { result.now ≡ argument (map (λ argument. argument.now) arguments.now) index }
{
    arguments[index]
}

/// The arguments after so many.
pub(crate) fn after<'w, 't>(arguments: &'w [&'t [u8]], count: usize) -> &'w [&'t [u8]]
    requires { count ≤ length arguments.now }
    ensures { map (λ argument. argument.now) result.now ≡ drop count (map (λ argument. argument.now) arguments.now) }
{
    arguments.split_at(count).1
}
