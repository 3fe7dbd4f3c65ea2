//! Lines that are bytes, of any length.

ghost use Rattle.std.specs.Prelude.{◌≡◌, ◌<◌, ◌≤◌, IfOk};
ghost use Rattle.aim_script.specs.Headers.{HasName};
ghost use Rattle.aim_script.specs.Versions.{version_number};
ghost use Rattle.aim_text_session.specs.Sessions.{reads_text};

use aim_messages::Line;
use aim_script::{Kind, ScriptVersion};
use aim_text_lines::read_line;

// The most bytes of a line.
const MOST_BYTES: usize = 400;

/// Reads a line, without its byte 10, in a version.
pub(crate) fn read_text(words: &[u8], version: ScriptVersion) -> Result<Line, Kind>
    ensures line { result ≡ reads_text (version_number version) words.now }
    ensures name { IfOk result HasName }
{
    if words.len() > MOST_BYTES {
        return Err(Kind::Long);
    }
    match read_line(words, version.number()) {
        Ok(line) => Ok(line),
        Err(kind) => Err(Kind::Spelling(kind)),
    }
}
