//! Whether a page is valid: the page file is read first, then the schema.
ghost use Rattle.std.specs.Prelude.{◌≡◌, ◌<◌, ◌^◌, codes, IfOk, IfSome, IsErrOf};
ghost use Rattle.bw_lang.specs.Document.Documents.{elements};
ghost use Rattle.bw_out.specs.Causes.{Shows};
ghost use Rattle.bw_questions.specs.Asked.{page, page_file, judged, ruled, valid_work};
ghost use Rattle.bw_questions.specs.Asked.Work.{prints};
ghost use Rattle.bw_questions.specs.Questions.{IsAnswer, line};

use crate::lines::{breach_line, no_page_line};
use crate::loading::{fetch_bytes, refused};
use crate::schemas::load_schema;
use crate::stop::Stop;
use bw_command::Refusal;
use bw_lang::{Text, Tree};
use bw_out::Files;
use bw_read::{MAX_PAGE_BYTES, PageFault, read_page};
use bw_schema::Schema;
use bw_valid::valid;
use std::alloc::Global;

/// One byte more than a page file may have.
const PAGE_FRONT: usize = MAX_PAGE_BYTES + 1;

/// That a page is valid, by the schema of a file or by the built-in one.
pub fn load_valid<F: Files>(
    alloc: Global,
    files: &mut F,
    name: &str,
    named: &Option<Text>,
) -> Result<(), Stop>
    ensures answers { IfSome (F.told files.old) (λ disk.
        IsAnswer (λ done. prints (line (codes "valid"))) (valid_work disk name.now named.now) result) }
    ensures told { F.told files.new ≡ F.told files.old }
    ensures read_fault { Shows (IsErrOf result Stop.ReadFault) (F.faults files.old) (F.faults files.new) }
{
    match load_page(alloc, files, name) {
        Ok(tree) => rule(alloc, files, &tree, named),
        Err(stop) => Err(stop),
    }
}

/// The page of a file, which is closed again: of its first 4,195,329 bytes, which tell what all of them are.
fn load_page<F: Files>(alloc: Global, files: &mut F, name: &str) -> Result<Tree, Stop>
    ensures answers { IfSome (F.told files.old) (λ disk. IsAnswer (λ tree. tree.items) (page_file disk name.now) result) }
    ensures small { IfOk result (λ tree. elements tree.items < 2 ^ 32) }
    ensures told { F.told files.new ≡ F.told files.old }
    ensures read_fault { Shows (IsErrOf result Stop.ReadFault) (F.faults files.old) (F.faults files.new) }
{
    match fetch_bytes(alloc, files, name, PAGE_FRONT) {
        Ok(bytes) => page_of(alloc, &bytes),
        Err(stop) => Err(stop),
    }
}

/// The page that these bytes are.
fn page_of(alloc: Global, bytes: &[u8]) -> Result<Tree, Stop>
    ensures answers { IsAnswer (λ tree. tree.items) (page bytes.now) result }
    ensures small { IfOk result (λ tree. elements tree.items < 2 ^ 32) }
    ensures no_read { IsErrOf result Stop.ReadFault → ⊥ }
{
    match read_page(alloc, bytes) {
        Ok(tree) => Ok(tree),
        Err(PageFault::NotAPage) => Err(refused(Refusal::Page, no_page_line(alloc))),
        Err(PageFault::Memory) => Err(Stop::Memory),
    }
}

/// That a page is valid. The schema is read before.
fn rule<F: Files>(
    alloc: Global,
    files: &mut F,
    tree: &Tree,
    named: &Option<Text>,
) -> Result<(), Stop>
    requires { elements tree.now.items < 2 ^ 32 }
    ensures answers { IfSome (F.told files.old) (λ disk. IsAnswer (λ done. prints (line (codes "valid"))) (ruled disk named.now tree.now.items) result) }
    ensures told { F.told files.new ≡ F.told files.old }
    ensures read_fault { Shows (IsErrOf result Stop.ReadFault) (F.faults files.old) (F.faults files.new) }
{
    match load_schema(alloc, files, named) {
        Ok(schema) => {
            let judged = judge(alloc, &schema, tree);
            drop(schema);
            judged
        }
        Err(stop) => Err(stop),
    }
}

/// That a page is valid by a schema.
fn judge(alloc: Global, schema: &Schema, tree: &Tree) -> Result<(), Stop>
    requires { elements tree.now.items < 2 ^ 32 }
    ensures answers { IsAnswer (λ done. prints (line (codes "valid"))) (judged tree.now.items schema.now) result }
    ensures no_read { IsErrOf result Stop.ReadFault → ⊥ }
{
    match valid(schema, tree) {
        Ok(()) => Ok(()),
        Err(breach) => Err(refused(Refusal::Page, breach_line(alloc, breach))),
    }
}
