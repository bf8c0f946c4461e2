//! Messages of a scripted user.
ghost use Rattle.std.specs.Prelude.{◌≡◌, ◌++◌, OnOk};
ghost use Rattle.bw_http.specs.Paths.{spelling};
ghost use Rattle.bw_http.specs.declared.request.Path.TheVariants.{Start};
ghost use Rattle.bw_user.specs.Messages as spec;

use bw_lang::Memory;
use itoa::Buffer;

/// Puts a GET of the start of the session of this name behind the other bytes.
pub(crate) fn put_get(name: &[u8], out: &mut Vec<u8>) -> Result<(), Memory>
    ensures { OnOk result (out.new.items ≡ out.old.items ++ spec.get (spelling (Start name.now))) }
{
    out.extend_from_slice(b"GET /")?;
    out.extend_from_slice(name)?;
    out.extend_from_slice(b" HTTP/1.1\r\nHost: a\r\n\r\n")?;
    Ok(())
}

/// Puts a POST of a form to a target behind the other bytes.
pub(crate) fn put_post(target: &[u8], body: &[u8], out: &mut Vec<u8>) -> Result<(), Memory>
    ensures { OnOk result (out.new.items ≡ out.old.items ++ spec.post target.now body.now) }
{
    let mut buffer = Buffer::new();
    out.extend_from_slice(b"POST ")?;
    out.extend_from_slice(target)?;
    out.extend_from_slice(
        b" HTTP/1.1\r\nHost: a\r\nContent-Type: application/x-www-form-urlencoded\r\nContent-Length: ",
    )?;
    out.extend_from_slice(buffer.format(body.len()).as_bytes())?;
    out.extend_from_slice(b"\r\n\r\n")?;
    out.extend_from_slice(body)?;
    Ok(())
}

/// What stands behind the first empty line.
pub(crate) fn body_in(bytes: &[u8]) -> &[u8]
    ensures { result.now ≡ spec.body_in bytes.now }
{
    let mut rest = bytes;
    while let [first, more @ ..] = rest {
        if *first == b'\r' && more.starts_with(b"\n\r\n") {
            return &more[3..];
        }
        rest = more;
    }
    b""
}
