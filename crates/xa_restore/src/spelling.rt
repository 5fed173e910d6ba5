//! What is read of a line is written again, and has to be that line: so nothing has two spellings.

ghost use Rattle.std.specs.Prelude.{◌≡◌, ◌↔◌, IsTrue};
ghost use Rattle.std.specs.String.{string_bytes};

/// Whether a line is what was written.
pub(crate) fn is_written(line: &str, written: &String) -> bool
    ensures { IsTrue result ↔ (line.now ≡ string_bytes written.now) }
{
    line == written.as_str()
}
