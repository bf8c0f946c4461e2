//! How the program ends.
ghost use Rattle.std.specs.Prelude.{◌≡◌};
ghost use Rattle.bw_command.specs.Codes.{code_of, status_for};

/// How the program ends. The numbers are its exit codes.
#[derive(Clone, Copy, PartialEq, Eq)]
pub enum Status {
    /// 0: all was done.
    Done,
    /// 2: the words of the command line are refused.
    Usage,
    /// 3: the service file is refused.
    ServiceRefused,
    /// 4: the schema file is refused.
    SchemaRefused,
    /// 5: a file could not be read.
    ReadFault,
    /// 6: standard output could not be written.
    WriteFault,
    /// 7: the port could not be listened on, or no link could be taken.
    DoorFault,
    /// 8: there was no memory.
    Memory,
    /// 9: the page file is no page, or isn't valid.
    PageRefused,
    /// 10: the file of formats is refused, or the file of texts.
    FormatsRefused,
    /// 11: the file of saved sessions is refused.
    LoadRefused,
    /// 12: what waits is too much to be saved.
    SaveRefused,
    /// 13: the script is refused, or an answer in it has no control.
    ScriptRefused,
    /// 15: a file that the words name isn't there.
    NoFile,
    /// 16: the journal is refused.
    JournalRefused,
    /// 17: the journal could not be opened, cut or kept.
    JournalFault,
}

impl Status {
    /// The exit code.
    pub fn code(self) -> u8
        ensures { result ≡ code_of self }
    {
        match self {
            Status::Done => 0,
            Status::Usage => 2,
            Status::ServiceRefused => 3,
            Status::SchemaRefused => 4,
            Status::ReadFault => 5,
            Status::WriteFault => 6,
            Status::DoorFault => 7,
            Status::Memory => 8,
            Status::PageRefused => 9,
            Status::FormatsRefused => 10,
            Status::LoadRefused => 11,
            Status::SaveRefused => 12,
            Status::ScriptRefused => 13,
            Status::NoFile => 15,
            Status::JournalRefused => 16,
            Status::JournalFault => 17,
        }
    }
}

/// What is refused, or isn't there.
#[derive(Clone, Copy, PartialEq, Eq)]
pub enum Refusal {
    /// A file that isn't there.
    File,
    /// What a service file holds.
    Service,
    /// What a schema file holds.
    Schema,
    /// What a page file holds.
    Page,
    /// What a file of formats holds, or one of texts.
    Formats,
    /// What a file of saved sessions holds.
    Load,
    /// What waits, since it is too much to be saved.
    Save,
    /// What a journal holds.
    Journal,
    /// What a script holds.
    Script,
}

impl Refusal {
    /// The status that the program ends with.
    pub fn status(self) -> Status
        ensures { result ≡ status_for self }
    {
        match self {
            Refusal::File => Status::NoFile,
            Refusal::Service => Status::ServiceRefused,
            Refusal::Schema => Status::SchemaRefused,
            Refusal::Page => Status::PageRefused,
            Refusal::Formats => Status::FormatsRefused,
            Refusal::Load => Status::LoadRefused,
            Refusal::Save => Status::SaveRefused,
            Refusal::Journal => Status::JournalRefused,
            Refusal::Script => Status::ScriptRefused,
        }
    }
}
