//! The parts of a document.
ghost use Rattle.bw_doc.specs.Parts.{IsPart};

use crate::doc::{Doc, Kind};
use bw_lang::{GapId, TemplateId, Text};

/// A document's parts.
pub enum Part<'a> {
    /// The template of a service.
    Constant(TemplateId),
    /// A document with another in its gaps.
    Plug {
        base: &'a Doc,
        gap: GapId,
        arg: &'a Doc,
    },
    /// A document with a text in its gaps.
    PlugText {
        base: &'a Doc,
        gap: GapId,
        text: &'a Text,
    },
}

impl Doc {
    /// The parts that it is made of. It takes no memory.
    pub fn part(&self) -> Part<'_>
        ensures { IsPart result self.now }
    {
        match self.kind() {
            Kind::Constant(template, _) => Part::Constant(*template),
            Kind::Plug { base, gap, arg } => Part::Plug {
                base,
                gap: *gap,
                arg,
            },
            Kind::PlugText { base, gap, text } => Part::PlugText {
                base,
                gap: *gap,
                text,
            },
        }
    }
}
