//! Text that is kept until there is enough of it to be written.
ghost use Rattle.std.specs.Prelude.{◌≡◌, ◌<◌, [], IfErr, IsFalse, OnOk, is_err, length};
ghost use Rattle.streams.specs.Writing.{PutsKept, Writes};
ghost use Rattle.streams.specs.declared.error.Error.TheVariants.{Write};

use crate::error::Error;
use crate::outlet::Outlet;
use crate::writing::write_text;
use std::alloc::Allocator;

/// So many bytes of text are written at once.
const ENOUGH: usize = 8192;

/// Writes the text that is kept.
pub fn write_kept<W: Outlet, A: Allocator>(
    outlet: &mut W,
    kept: &mut Vec<u8, A>,
) -> Result<(), Error>
    requires { IsFalse (W.state outlet.old).failed }
    ensures text { Writes (W.state outlet.old) (W.state outlet.new) kept.old.items }
    ensures kept { IsFalse (W.state outlet.new).failed → kept.new.items ≡ [] }
    ensures err { IfErr result (λ error. error ≡ Write) }
    ensures status { (W.state outlet.new).failed ≡ is_err result }
{
    write_text(outlet, kept.as_slice())?;
    kept.clear();
    Ok(())
}

/// Writes the text that is kept, where there is enough of it.
pub fn write_enough<W: Outlet, A: Allocator>(
    outlet: &mut W,
    kept: &mut Vec<u8, A>,
) -> Result<(), Error>
    requires { IsFalse (W.state outlet.old).failed }
    ensures text { PutsKept (W.state outlet.old) (W.state outlet.new)
        kept.old.items kept.new.items result }
    ensures few { OnOk result (length kept.new.items < 8192) }
    ensures err { IfErr result (λ error. error ≡ Write) }
    ensures status { (W.state outlet.new).failed ≡ is_err result }
{
    if kept.len() < ENOUGH {
        return Ok(());
    }
    write_kept(outlet, kept)
}
