//! What clients are granted.
ghost use Rattle.std.specs.Prelude.{◌≡◌, ◌-◌, nat_le};

/// What a door grants its clients. Times are in milliseconds.
#[derive(Clone, Copy)]
pub struct Limits {
    /// How many clients are in at once, at most 65,536. Where so many are in, the one that has sent nothing for the
    /// longest, of those whose message isn't whole, gives way to the next one.
    pub places: usize,

    /// How long a client whose message isn't whole may send nothing.
    pub silent: u64,

    /// How long it may take for its whole message.
    pub message: u64,

    /// How long it may take none of its reply.
    pub stuck: u64,

    /// How long it may take for its whole reply.
    pub reply: u64,

    /// How long it may take to end once it has its reply.
    pub ending: u64,

    /// How many bytes of memory replies may have before no further link is handed out.
    pub kept: usize,
}

impl Limits {
    /// The limits of the program: 1,000 clients; 5 seconds without a byte and 20 for a message; 5 seconds in which
    /// none of a reply is taken and 60 for all of it; one second to end; and 64 MiB of replies.
    pub fn usual() -> Limits {
        Limits {
            places: 1_000,
            silent: 5_000,
            message: 20_000,
            stuck: 5_000,
            reply: 60_000,
            ending: 1_000,
            kept: 67_108_864,
        }
    }
}

/// Whether so much time is over between two instants.
pub(crate) fn is_over(since: u64, now: u64, most: u64) -> bool
    ensures { result ≡ nat_le most (now - since) }
{
    now.saturating_sub(since) >= most
}
