//! How serving and answering end.

/// How serving beside a journal ended.
#[derive(Clone, Copy, PartialEq, Eq)]
pub enum Ended {
    /// No link is to come, or there were as many as may be.
    Done,
    /// The door failed.
    DoorFault,
    /// The journal failed.
    JournalFault,
}

/// How a stream that was answered beside a journal ended.
#[derive(Clone, Copy, PartialEq, Eq)]
pub enum StreamEnded {
    /// The stream has ended, or as many messages were answered as were to be, or one that can't be cut was refused. So
    /// many of the replies say that there was no memory.
    Ended(u32),
    /// A read failed. Each message that was whole in the bytes taken was answered before.
    ReadFault,
    /// A write failed. Each earlier reply was written whole, and a first part of this one.
    WriteFault,
    /// The journal failed. Each earlier reply was written whole, and no byte of this one.
    JournalFault,
}
