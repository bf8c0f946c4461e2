//! Why bytes aren't read as a page.
ghost use Rattle.std.specs.Prelude.{◌≡◌};

use bw_tmpl::TmplFault;
use thiserror::Error;

/// Why bytes aren't read as a page.
#[derive(Clone, Copy, Debug, PartialEq, Eq, Error)]
pub enum PageFault {
    /// They are no page: this comes exactly where they read as no document.
    #[error("not a page")]
    NotAPage,
    /// There was no memory.
    #[error("out of memory")]
    Memory,
}

impl From<TmplFault> for PageFault {
    ghost use Rattle.bw_read.specs.Steps.Faults.{page_fault};

    ghost from_gives = { λ fault e. e ≡ page_fault fault };

    fn from(fault: TmplFault) -> PageFault {
        match fault {
            TmplFault::Memory => PageFault::Memory,
            _ => PageFault::NotAPage,
        }
    }
}
