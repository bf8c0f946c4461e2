//! When a client's first message is whole.
ghost use Rattle.bw_http.specs.Messages.{IsSettled};

use bw_door::{Lack, Settles};

/// A client's first message is whole where reading a request asks for no more.
#[derive(Drop)]
pub struct Messages;

impl Settles for Messages {
    ghost settled = { λ bytes. IsSettled bytes };

    fn lack(&mut self, bytes: &[u8]) -> Option<Lack> {
        match bw_http::lack(bytes)? {
            bw_http::Lack::Line => Some(Lack::Line),
            bw_http::Lack::Bytes(need) => Some(Lack::Bytes(need)),
        }
    }
}
