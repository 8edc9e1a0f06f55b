//! The writing of a text.
ghost use Rattle.std.specs.Prelude.{◌≡◌, IfErr, IsFalse, is_err};
ghost use Rattle.streams.specs.Writing.{Writes};

use crate::error::Error;
use crate::outlet::Outlet;

/// Writes all of a text, or an error and a front of it.
pub fn write_text<W: Outlet>(outlet: &mut W, text: &[u8]) -> Result<(), Error>
    requires { IsFalse (W.state outlet.old).failed }
    ensures text { Writes (W.state outlet.old) (W.state outlet.new) text.now }
    ensures err { IfErr result (λ error. error ≡ Error.Write) }
    ensures status { (W.state outlet.new).failed ≡ is_err result }
{
    let mut rest = text;
    while !rest.is_empty() {
        match outlet.write(rest) {
            Ok(count) if count > 0 => rest = &rest[count..],
            _ => return Err(Error::Write),
        }
    }
    Ok(())
}
