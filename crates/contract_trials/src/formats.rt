//! Formats of fields.
ghost use Rattle.std.specs.Prelude.{chars};
ghost use Rattle.bw_format.specs.Lights.{IsLight};
ghost use Rattle.bw_format.specs.Formats.{Accepts};

use bw_format::format::Formats;
use bw_format::light::Light;

/// The light of a field's text.
pub fn light(formats: &Formats, field: &str, text: &str) -> Light
    ensures { IsLight (Accepts formats.now field.now) (chars text.now) result }
{
    formats.light(field, text)
}
