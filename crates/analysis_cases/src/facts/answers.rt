//! Questions about the facts of a service, and what is answered.
ghost use Rattle.std.specs.Prelude.{◌≡◌};
ghost use Rattle.bw_flow.specs.Layout.{plan_of};
ghost use Rattle.bw_analyse.specs.Facts.{AreFacts};

use crate::values::{Names, put_summary, put_value};
use bw_analyse::{Abstract, Facts, gap_faults, page_graph};
use bw_faults::Faults;
use bw_flow::{Flow, PointId};
use bw_strings::Literals;
use bw_sum::Summary;
use bw_types::Typed;
use case_files::Fault;
use std::alloc::{AllocError, Global};

/// A service with its flow, its facts and its literals.
#[derive(Clone, Copy)]
pub struct Subject<'a> {
    pub typed: &'a Typed,
    pub flow: &'a Flow,
    pub facts: &'a Facts,
    pub literals: &'a Literals,
}

impl Subject<'_> {
    /// The question of a line with the answer that comes.
    pub fn answered(&self, alloc: Global, line: &str) -> Result<String, Fault>
        requires flow { self.now.flow.now ≡ plan_of self.now.typed.now.service }
        requires facts { AreFacts self.now.typed.now.service self.now.facts.now }
    {
        let (question, _) = line.split_once(" =").ok_or(Fault::Malformed)?;
        let mut answer = format!(in alloc; "{question} =")?;
        self.put_answer(alloc, question, &mut answer)?;
        Ok(answer)
    }

    /// Puts the answer to this question behind it.
    fn put_answer(&self, alloc: Global, question: &str, answer: &mut String) -> Result<(), Fault>
        requires flow { self.now.flow.now ≡ plan_of self.now.typed.now.service }
        requires facts { AreFacts self.now.typed.now.service self.now.facts.now }
    {
        let (word, rest) = question.split_once(' ').unwrap_or((question, ""));
        match word {
            "local" => self.put_local(answer, rest),
            "shared" => self.put_shared(answer, rest),
            "shown" => self.put_shown(answer, rest),
            "page" => self.put_page(alloc, answer, rest),
            "faults" if rest.is_empty() => self.put_all_faults(alloc, answer),
            _ => Err(Fault::Malformed),
        }
    }

    /// The plugs whose gap may be missing.
    fn put_all_faults(&self, alloc: Global, answer: &mut String) -> Result<(), Fault>
        requires flow { self.now.flow.now ≡ plan_of self.now.typed.now.service }
        requires facts { AreFacts self.now.typed.now.service self.now.facts.now }
    {
        let faults = gap_faults(alloc, self.typed, self.flow, self.facts)?;
        let put = put_faults(answer, &faults);
        drop(faults);
        put?;
        Ok(())
    }

    fn names(&self) -> Names<'_> {
        Names {
            typed: self.typed,
            literals: self.literals,
        }
    }

    /// What is known of a local in front of a statement, by the statement's number and the local's name.
    fn put_local(&self, answer: &mut String, place: &str) -> Result<(), Fault> {
        let (number, name) = place.split_once(' ').ok_or(Fault::Malformed)?;
        let point = self.point(number)?;
        let name = one_word(name)?;
        put_found(answer, &self.names(), self.facts.local(point, name))?;
        Ok(())
    }

    /// What is known of the shared variable of that name.
    fn put_shared(&self, answer: &mut String, name: &str) -> Result<(), Fault> {
        let name = one_word(name)?;
        put_found(answer, &self.names(), self.facts.shared(name))?;
        Ok(())
    }

    /// The documents that the statement of that number shows or ends with.
    fn put_shown(&self, answer: &mut String, number: &str) -> Result<(), Fault> {
        let point = self.point(number)?;
        put_document(answer, &self.names(), self.facts.shown(point))?;
        Ok(())
    }

    /// The graph of the page of the statement of that number.
    #[tactic(auto, using(bw_analyse::proofs::PageLaws::has_page))]
    fn put_page(&self, alloc: Global, answer: &mut String, number: &str) -> Result<(), Fault>
        requires flow { self.now.flow.now ≡ plan_of self.now.typed.now.service }
        requires facts { AreFacts self.now.typed.now.service self.now.facts.now }
    {
        let point = self.point(number)?;
        match self.facts.shown(point) {
            Some(_) => {
                let page = page_graph(alloc, self.typed, self.flow, self.facts, point)?;
                let put = put_summary(answer, &self.names(), &page);
                drop(page);
                put?;
            }
            None => answer.push_str(" none")?,
        }
        Ok(())
    }

    /// The point of the statement of that number.
    fn point(&self, number: &str) -> Result<PointId, Fault> {
        self.flow.find(number.parse()?).ok_or(Fault::Malformed)
    }
}

/// A text that is a single word.
fn one_word(text: &str) -> Result<&str, Fault> {
    match text.split_once(' ') {
        None => Ok(text),
        Some(_) => Err(Fault::Malformed),
    }
}

/// What is known, if there is something.
fn put_found(
    answer: &mut String,
    names: &Names<'_>,
    found: Option<&Abstract>,
) -> Result<(), AllocError> {
    match found {
        Some(value) => put_value(answer, names, value),
        None => answer.push_str(" none"),
    }
}

/// The summary of documents, if there is one.
fn put_document(
    answer: &mut String,
    names: &Names<'_>,
    document: Option<&Summary>,
) -> Result<(), AllocError> {
    match document {
        Some(summary) => put_summary(answer, names, summary),
        None => answer.push_str(" none"),
    }
}

/// The statement and the gap of each fault.
fn put_faults(answer: &mut String, faults: &Faults) -> Result<(), AllocError> {
    if faults.len() == 0 {
        return answer.push_str(" none");
    }
    for (i, fault) in faults.as_slice().iter().enumerate() {
        if i > 0 {
            answer.push_str(",")?;
        }
        write!(answer, " {} {}", fault.point, fault.detail.as_str())?;
    }
    Ok(())
}
