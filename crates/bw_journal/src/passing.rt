//! Bytes that are known to come.
ghost use Rattle.bw_journal.specs.Reading.{IsPassed, PassesNext};

/// What comes of bytes that are to begin in a known way.
#[derive(Clone, Copy)]
pub(crate) enum Passed<'a> {
    /// They don't, however they go on.
    Differs,
    /// They end before.
    Cut,
    /// They do, and this follows.
    Behind(&'a [u8]),
}

/// Whether the bytes begin with those that are to come.
pub(crate) fn pass<'a>(bytes: &'a [u8], want: &[u8]) -> Passed<'a>
    ensures { IsPassed want.now bytes.now result }
{
    if bytes.len() < want.len() {
        if bytes == &want[..bytes.len()] {
            Passed::Cut
        } else {
            Passed::Differs
        }
    } else {
        let (front, rest) = bytes.split_at(want.len());
        if front == want {
            Passed::Behind(rest)
        } else {
            Passed::Differs
        }
    }
}

/// Whether the bytes go on with those that are to come, behind what was passed of them.
pub(crate) fn pass_next<'a>(passed: Passed<'a>, want: &[u8]) -> Passed<'a>
    ensures { PassesNext want.now passed.entry result }
{
    match passed {
        Passed::Behind(rest) => pass(rest, want),
        stopped => stopped,
    }
}
