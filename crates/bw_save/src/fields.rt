//! Writing of numbers, texts and lists of texts, each at the end of what was written.
ghost use Rattle.std.specs.Prelude.{◌≡◌, ◌<◌, ◌^◌, ◌++◌, length, OnOk};
ghost use Rattle.std.specs.Int.{w16, w32, w64, to_be_bytes};
ghost use Rattle.bw_save.specs.Fitting.{FitsList};
ghost use Rattle.bw_saved.specs.Fields.Spelling.{text, strings};

use bw_lang::{Memory, Text};

/// A number of two bytes.
pub(crate) fn put_u16(out: &mut Vec<u8>, n: u32) -> Result<(), Memory>
    requires { n < 2 ^ 16 }
    ensures { OnOk result (out.new.items ≡ out.old.items ++ to_be_bytes w16 n) }
{
    out.extend_from_slice(&(n as u16).to_be_bytes())?;
    Ok(())
}

/// A number of four bytes.
pub(crate) fn put_u32(out: &mut Vec<u8>, n: u32) -> Result<(), Memory>
    ensures { OnOk result (out.new.items ≡ out.old.items ++ to_be_bytes w32 n) }
{
    out.extend_from_slice(&n.to_be_bytes())?;
    Ok(())
}

/// A number of eight bytes.
pub(crate) fn put_u64(out: &mut Vec<u8>, n: u64) -> Result<(), Memory>
    ensures { OnOk result (out.new.items ≡ out.old.items ++ to_be_bytes w64 n) }
{
    out.extend_from_slice(&n.to_be_bytes())?;
    Ok(())
}

/// A text: its length, and its bytes.
pub(crate) fn put_text(out: &mut Vec<u8>, s: &[u8]) -> Result<(), Memory>
    requires { length s.now < 2 ^ 32 }
    ensures { OnOk result (out.new.items ≡ out.old.items ++ text s.now) }
{
    out.extend_from_slice(&(s.len() as u32).to_be_bytes())?;
    out.extend_from_slice(s)?;
    Ok(())
}

/// A list of texts: how many there are, and these.
pub(crate) fn put_strings(out: &mut Vec<u8>, ss: &[Text]) -> Result<(), Memory>
    requires { FitsList ss.now }
    ensures { OnOk result (out.new.items ≡ out.old.items ++ strings ss.now) }
{
    out.extend_from_slice(&(ss.len() as u32).to_be_bytes())?;
    for s in ss {
        put_text(out, s.as_bytes())?;
    }
    Ok(())
}
