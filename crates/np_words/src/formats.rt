//! The format of the histories of an infrastructure.

ghost use Rattle.std.specs.Prelude.{◌≡◌};
ghost use Rattle.np_words.specs.Formats as spec;

use super::modes::Infrastructure;
use history_text::Format;

/// The format in which the histories of an infrastructure are written.
pub fn format_for(infrastructure: Infrastructure) -> Format
    ensures { result ≡ spec.format_for infrastructure }
{
    match infrastructure {
        Infrastructure::Central => Format::Second,
        Infrastructure::Cache => Format::First,
    }
}
