//! A door that lets many clients in at once. The bytes of each are read as they come, beside the others', and a link is
//! handed out only once its client's first message is whole or the client has ended. So each read of a link comes from
//! memory. What is written to a link is kept in memory and sent as its client takes it, again beside the others, once the
//! link was given back.
//!
//! One thread does all of it, over `mio` (epoll). The client that is let in waits for its message to be whole, is due, is
//! out as a link, gets its reply, and is let go; `Crowd` holds all clients and counts them. A client that is late is let
//! go by the door and never is a link. What a client sends and gets is beyond what can be proved where the stream is the
//! system's; of streams that tell their bytes it is proved.
#![tactic(auto)]

mod client;
mod crowd;
mod desk;
mod door;
mod leaving;
mod limits;
mod link;
mod peer;
mod port;
mod settles;
mod socket;
mod timed;

pub use door::PortDoor;
pub use limits::Limits;
pub use link::PortLink;
pub use settles::{Lack, Settles};
