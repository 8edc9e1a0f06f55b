//! The commands of HP's manuals behind which data stand.

ghost use Rattle.std.specs.Prelude.{◌≡◌};
ghost use Rattle.survey.specs.DataCommands.{has_data, has_image_data};

/// Whether the number of the command of an introducer, a group character and a termination
/// character counts bytes of data that stand behind it.
pub fn has_data(introducer: u8, group: u8, letter: u8) -> bool
    ensures { result ≡ has_data introducer group letter }
{
    match (introducer, letter) {
        (b'&', b'X') => group == b'p',
        (b'&', b'W') => group == b'b' || group == b'n',
        (b'(', b'W') => group == b'f' || group == b's',
        (b')', b'W') => group == b's',
        (b'*', b'V') => group == b'b',
        (b'*', b'W') => has_image_data(group),
        _ => false,
    }
}

/// The same of the introducer `*` and the termination character `W`.
fn has_image_data(group: u8) -> bool
    ensures { result ≡ has_image_data group }
{
    match group {
        b'b' | b'c' | b'g' | b'i' | b'l' | b'm' | b'o' | b'v' => true,
        _ => false,
    }
}
