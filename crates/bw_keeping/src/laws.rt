//! The law of streams that are answered beside a journal. A law is the contract of an empty function.
ghost use Rattle.bw_keeping.specs.StreamsWithin.{StreamsKeepWithin};

/// However a stream was answered beside a journal, what sessions stored stays within the formats.
pub fn streams_keep_within()
    ensures { StreamsKeepWithin }
{}
