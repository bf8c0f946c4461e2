//! The form that a body sends.
ghost use Rattle.std.specs.Prelude.{◌≡◌, IfOk};
ghost use Rattle.bw_http.specs.Forms.{form_of};

use bw_lang::{Memory, Submission, Text};
use form_urlencoded::parse;
use std::alloc::Global;

/// The form that the body spells (HTML 4.01, section 17.13.4.1), with bytes that aren't UTF-8 replaced.
pub fn read_form(alloc: Global, body: &[u8]) -> Result<Submission, Memory>
    ensures { IfOk result (λ form. form ≡ form_of body.now) }
{
    let mut form = Submission::new(alloc);
    for pair in parse(alloc, body).into_owned() {
        let (name, value) = pair?;
        form.push(Text::from_string(name), Text::from_string(value))?;
    }
    Ok(form)
}
