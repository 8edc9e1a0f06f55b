//! How many bytes are written.
ghost use Rattle.std.specs.Prelude.{◌≡◌, ◌+◌, ◌-◌};
ghost use Rattle.page_pdf.specs.Document.{capped};

/// How many bytes are written behind a text that was so long, and is longer now.
pub(crate) fn written_behind(written: u64, old_len: usize, new_len: usize) -> u64
    ensures { result ≡ capped (written + (new_len - old_len)) }
{
    written.saturating_add(new_len.saturating_sub(old_len) as u64)
}
