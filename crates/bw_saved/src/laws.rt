//! Laws of saved sessions. A law is the contract of an empty function.
ghost use Rattle.bw_saved.specs.Laws.{DocumentsReadBack, VariablesReadBack, SessionsReadBack, WaitingReadsBack};
ghost use Rattle.bw_saved.specs.FileLaws.{ReadsFiles, FilesAreRead, FilesAreShort};

/// What is read stands in front of the bytes, spelled so, and is allowed; and what is allowed, spelled in front of any
/// bytes, is read. So it is with documents, variables, sessions and all that waits.
pub fn values_read_back()
    ensures documents { DocumentsReadBack }
    ensures variables { VariablesReadBack }
    ensures sessions { SessionsReadBack }
    ensures waiting { WaitingReadsBack }
{}

/// What a file is read as, it is the file of; and the file of what may be saved is read as that. So no file is of two
/// contents. Where the values weigh no more than may be saved, the file isn't too long to be read.
pub fn files_read_back()
    ensures found { ReadsFiles }
    ensures again { FilesAreRead }
    ensures short { FilesAreShort }
{}
