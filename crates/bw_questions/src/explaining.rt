//! Services that the check accepts; and of one that it doesn't a page that shows its first fault of an element.
ghost use Rattle.std.specs.Prelude.{◌≡◌, ◌≢◌, ◌<◌, ◌++◌, [], true, codes, find, option_map, IfOk, IfSome, IsErrOf, OnOk};
ghost use Rattle.bw_check.specs.Accepts.{HasNoList, IsCheckFault};
ghost use Rattle.bw_check.specs.Faults.{IsServiceFault};
ghost use Rattle.bw_check.specs.Findings.{AreFindings};
ghost use Rattle.bw_lang.specs.Document.Print.{print};
ghost use Rattle.bw_lang.specs.Service.Reads.{Reads};
ghost use Rattle.bw_out.specs.Causes.{Shows};
ghost use Rattle.bw_questions.specs.Asked.{check_work, examined};
ghost use Rattle.bw_questions.specs.Asked.Work.{prints};
ghost use Rattle.bw_questions.specs.Behind.{shown_of};
ghost use Rattle.bw_questions.specs.Explaining as spec;
ghost use Rattle.bw_questions.specs.Questions.{IsAnswer, IsStop, line};
ghost use Rattle.bw_command.specs.declared.status.Status.TheVariants.{ServiceRefused};

use crate::checking::page_names;
use crate::fault_lines::{check_stop, fault_lines};
use crate::loading::{Loaded, load_service, refused_text};
use crate::schemas::load_schema;
use crate::seen::Seen;
use crate::sight::{seen_as, sight_if};
use crate::stop::Stop;
use crate::tools::Tools;
use bw_analyse::page_graph;
use bw_check::laws::pages_are_graphs;
use bw_check::{CheckFault, Findings, find_faults};
use bw_command::{Judging, Refusal};
use bw_explain::{Explained, explain};
use bw_faults::{Fault, Faults};
use bw_lang::{Memory, Text, Tree};
use bw_out::{Files, Pulse};
use bw_page::Sheet;
use bw_schema::Schema;
use bw_types::Typed;
use std::alloc::Global;
use std::thread::Threads;

/// That the service of a file is accepted. Where it isn't, what explains its first fault of an element is shown behind its
/// faults; all of that is made here.
pub fn load_explained<R: Threads + Sync, F: Files, P: Pulse>(
    tools: &Tools<R, P>,
    files: &mut F,
    service: &Text,
    judging: &Judging,
) -> Result<(), Stop>
    ensures answers { IfSome (F.told files.old) (λ disk.
        IsAnswer (λ done. prints (line (codes "accepted"))) (check_work disk service.now judging.now true) result) }
    ensures told { F.told files.new ≡ F.told files.old }
    ensures read_fault { Shows (IsErrOf result Stop.ReadFault) (F.faults files.old) (F.faults files.new) }
{
    let name = service.as_str();
    let loaded = load_service(tools.alloc, files, name, judging.source)?;
    let Loaded { typed, text, told } = loaded;
    let how = seen_as(name, &text, &told);
    match load_schema(tools.alloc, files, &judging.schema) {
        Ok(schema) => {
            let answer = examine(tools, &typed, &schema, judging.workers, how);
            drop(schema);
            drop(told);
            drop(typed);
            drop(text);
            answer
        }
        Err(stop) => {
            drop(told);
            drop(typed);
            drop(text);
            Err(stop)
        }
    }
}

/// That a service is accepted by a schema, or why it isn't.
fn examine<R: Threads + Sync, P: Pulse>(
    tools: &Tools<R, P>,
    typed: &Typed,
    schema: &Schema,
    workers: u32,
    how: Option<Seen<'_>>,
) -> Result<(), Stop>
    requires reads { IfSome (shown_of how) (λ shown. Reads shown.text typed.now.service) }
    ensures answers { IsAnswer (λ done. prints (line (codes "accepted"))) (examined (shown_of how.entry) typed.now.service schema.now) result }
    ensures no_read { IsErrOf result Stop.ReadFault → ⊥ }
{
    match find_faults(tools.rt, tools.alloc, typed, schema, workers, tools.pulse) {
        Ok(found) => {
            let answer = answer_by(tools.alloc, typed, schema, &found, how);
            drop(found);
            answer
        }
        Err(fault) => Err(past_limits(tools.alloc, typed, schema, &fault, how)),
    }
}

/// Why a service isn't accepted that is past a limit of the check.
fn past_limits(
    alloc: Global,
    typed: &Typed,
    schema: &Schema,
    fault: &CheckFault,
    how: Option<Seen<'_>>,
) -> Stop
    requires reads { IfSome (shown_of how) (λ shown. Reads shown.text typed.now.service) }
    requires fault { IsCheckFault typed.now.service schema.now fault.now }
    requires limit { HasNoList fault.now }
    ensures stops { IsStop (examined (shown_of how.entry) typed.now.service schema.now) result }
    ensures no_read { result ≢ Stop.ReadFault }
{
    let Ok(names) = page_names(alloc, typed) else {
        return Stop::Memory;
    };
    let Ok(sight) = sight_if(alloc, typed.service(), how) else {
        return Stop::Memory;
    };
    check_stop(alloc, names.as_slice(), fault, &sight)
}

/// That a service is accepted of which this was found, or why it isn't.
fn answer_by(
    alloc: Global,
    typed: &Typed,
    schema: &Schema,
    found: &Findings,
    how: Option<Seen<'_>>,
) -> Result<(), Stop>
    requires reads { IfSome (shown_of how) (λ shown. Reads shown.text typed.now.service) }
    requires found { AreFindings typed.now.service schema.now found.now }
    ensures answers { IsAnswer (λ done. prints (line (codes "accepted"))) (examined (shown_of how.entry) typed.now.service schema.now) result }
    ensures no_read { IsErrOf result Stop.ReadFault → ⊥ }
{
    if found.faults.len() == 0 {
        return Ok(());
    }
    let text = explained_text(alloc, typed, schema, found, how);
    Err(refused_text(Refusal::Service, text))
}

/// The lines of the faults that were found, and behind them what explains the first of an element.
fn explained_text(
    alloc: Global,
    typed: &Typed,
    schema: &Schema,
    found: &Findings,
    how: Option<Seen<'_>>,
) -> Result<Vec<u8>, Memory>
    requires reads { IfSome (shown_of how) (λ shown. Reads shown.text typed.now.service) }
    requires found { AreFindings typed.now.service schema.now found.now }
    requires some { found.now.faults ≡ [] → ⊥ }
    ensures { IfOk result (λ text. (examined (shown_of how.entry) typed.now.service schema.now).says
        (record { status = ServiceRefused; text = text.items })) }
{
    let names = page_names(alloc, typed)?;
    let sight = sight_if(alloc, typed.service(), how)?;
    let mut text = fault_lines(alloc, names.as_slice(), &found.faults, &sight)?;
    match first_of_element(&found.faults) {
        Some(fault) => {
            let explained = explain_fault(alloc, typed, schema, found, fault)?;
            push_explained(&mut text, alloc, &explained)?;
            Ok(text)
        }
        None => Ok(text),
    }
}

/// The first fault of an element among some, if there is one.
fn first_of_element(faults: &Faults) -> Option<&Fault>
    ensures { option_map (λ f. f.now) result ≡ find spec.is_of_element faults.now }
{
    faults
        .as_slice()
        .iter()
        .find(|fault| 1 <= fault.number && fault.number < 8)
}

/// What explains a fault of an element, which was found: from the graph of the page at the fault's statement.
fn explain_fault(
    alloc: Global,
    typed: &Typed,
    schema: &Schema,
    found: &Findings,
    fault: &Fault,
) -> Result<Explained, Memory>
    requires found { AreFindings typed.now.service schema.now found.now }
    requires fault { IsServiceFault typed.now.service schema.now found.now.facts fault.now }
    requires element { fault.now.number < 8 }
    ensures { IfOk result (spec.Explains typed.now.service schema.now fault.now) }
{
    pages_are_graphs(typed);
    let Some(place) = found.flow.find(fault.point) else {
        unreachable!()
    };
    let page = page_graph(alloc, typed, &found.flow, &found.facts, place)?;
    let explained = explain(alloc, &page, typed, schema, fault);
    drop(page);
    explained
}

/// Lines more, of what explains a fault.
fn push_explained(text: &mut Vec<u8>, alloc: Global, explained: &Explained) -> Result<(), Memory>
    ensures { OnOk result (text.new.items ≡ text.old.items ++ spec.explanation_text explained.now) }
{
    match explained {
        Explained::Page(page) => push_page(text, alloc, page),
        Explained::NoUnfolding => push_line(text, b"no unfolding"),
        Explained::TooBig => push_line(text, b"too big"),
        Explained::Disjunction => push_line(text, b"disjunction"),
    }
}

/// A page as it prints, behind a line of its own.
fn push_page(text: &mut Vec<u8>, alloc: Global, page: &Tree) -> Result<(), Memory>
    ensures { OnOk result (text.new.items ≡ text.old.items ++ (line (codes "page") ++ line (print page.now.items))) }
{
    let sheet = Sheet::of(alloc, page)?;
    push_line(text, b"page")?;
    push_line(text, sheet.as_bytes())
}

/// One line more, with its end.
fn push_line(text: &mut Vec<u8>, words: &[u8]) -> Result<(), Memory>
    ensures { OnOk result (text.new.items ≡ text.old.items ++ line words.now) }
{
    text.extend_from_slice(words)?;
    text.push(b'\n')?;
    Ok(())
}
