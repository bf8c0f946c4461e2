//! Loading of saved sessions.
ghost use Rattle.std.specs.Prelude.{◌≡◌, IfOk, OnOk, None};
ghost use Rattle.std.specs.List.{All};
ghost use Rattle.bw_load.specs.Loaded.{world_of};
ghost use Rattle.bw_load.specs.Loads as spec;
ghost use Rattle.bw_saved.specs.FileLaws.{IsFile};
ghost use Rattle.bw_saved.specs.Sessions.Demands.{IsSession, IsSaved};
ghost use Rattle.bw_sound.specs.Worlds.{IsSoundWorld};
ghost use Rattle.bw_strings.specs.Literals.{literals_of};

use crate::cells::{are_locals_below, are_shared_below, is_page_below};
use crate::laws::loaded_is_sound;
use bw_check::Checked;
use bw_lang::Memory;
use bw_saved::laws::files_read_back;
use bw_saved::{FileFault, Record, Saved, read_file};
use bw_strings::Literals;
use std::alloc::Global;

/// Why a file isn't loaded. What it begins with decides first, in this order, then whether what follows is what a file of the
/// version has, and then its sessions. `Memory` may come at any place.
#[derive(Drop)]
pub enum LoadFault {
    /// It has more than 69,206,016 bytes.
    TooLong,
    /// It doesn't begin with `BWSAVE`, a digit from 1 on and LF; or, behind them, it isn't what a file of the version has.
    Malformed,
    /// The layout is of this version, which is another one than 1.
    Version(u8),
    /// It was saved for another service.
    OtherService,
    /// The session of this number has a local or a document that the service can't have at its show; or, for 0, so has a
    /// shared variable.
    NotCovered(u32),
    /// There was no memory.
    Memory,
}

impl From<Memory> for LoadFault {
    ghost use Rattle.std.specs.Prelude.{◌≡◌};
    ghost use Rattle.bw_load.specs.declared.loading.LoadFault.TheVariants.{Memory as NoMemory};

    ghost from_gives = { λ _ e. e ≡ NoMemory };

    fn from(_error: Memory) -> LoadFault {
        LoadFault::Memory
    }
}

/// Whether the locals and the document of a session are below their cells.
fn is_session_below(
    alloc: Global,
    checked: &Checked,
    literals: &Literals,
    one: &Record,
    next: u64,
) -> Result<bool, Memory>
    requires session { IsSession checked.now.typed.service next one.now }
    requires literals { literals.now ≡ literals_of checked.now.typed.service }
    ensures { IfOk result (λ b. b ≡ spec.is_session_below checked.now.typed.service checked.now.facts one.now) }
{
    let Some(point) = checked.flow().point(one.frame.point) else {
        return Ok(false);
    };
    if !are_locals_below(
        alloc,
        checked.typed(),
        literals,
        checked.facts(),
        one.frame.point,
        point.scope.as_slice(),
        &one.frame.locals,
    )? {
        return Ok(false);
    }
    match checked.facts().shown(one.frame.point) {
        Some(cell) => is_page_below(alloc, checked.typed(), literals, &one.page, cell),
        None => Ok(false),
    }
}

/// The number of the first session that isn't covered.
fn first_uncovered(
    alloc: Global,
    checked: &Checked,
    literals: &Literals,
    records: &[Record],
    next: u64,
) -> Result<Option<u32>, Memory>
    requires sessions { All (IsSession checked.now.typed.service next) records.now }
    requires literals { literals.now ≡ literals_of checked.now.typed.service }
    ensures { IfOk result (λ o. o ≡ spec.first_uncovered checked.now.typed.service checked.now.facts records.now) }
{
    for record in records {
        if !is_session_below(alloc, checked, literals, record, next)? {
            return Ok(Some(record.number));
        }
    }
    Ok(None)
}

/// The number of the first session that isn't covered, or 0 where a shared variable isn't.
fn uncovered(
    alloc: Global,
    checked: &Checked,
    literals: &Literals,
    saved: &Saved,
) -> Result<Option<u32>, Memory>
    requires saved { IsSaved checked.now.typed.service saved.now }
    requires literals { literals.now ≡ literals_of checked.now.typed.service }
    ensures { IfOk result (λ o. o ≡ spec.uncovered checked.now.typed.service checked.now.facts saved.now) }
{
    let typed = checked.typed();
    let all = typed.service().shared.as_slice();
    if !are_shared_below(alloc, typed, literals, checked.facts(), all, &saved.shared)? {
        return Ok(Some(0));
    }
    first_uncovered(
        alloc,
        checked,
        literals,
        saved.records.as_slice(),
        saved.next,
    )
}

/// What a file gives for a service of that text, or its first refusal. What it gives, the bytes are the file of; and whatever
/// they were, the world of it is sound: it is covered by what the check knows, and its documents are made of the service's
/// templates.
pub fn load(alloc: Global, bytes: &[u8], text: &[u8], checked: &Checked) -> Result<Saved, LoadFault>
    ensures loaded { spec.IsLoaded result (spec.loaded checked.now.typed.service checked.now.facts text.now bytes.now) }
    ensures file { IfOk result (IsFile checked.now.typed.service text.now bytes.now) }
    ensures sound { IfOk result (λ s. ∥ IsSoundWorld checked.now.typed.service (world_of checked.now.typed.service s) ∥₁) }
{
    files_read_back();
    loaded_is_sound();
    let saved = match read_file(alloc, checked.typed(), checked.flow(), text, bytes) {
        Ok(saved) => saved,
        Err(FileFault::TooLong) => return Err(LoadFault::TooLong),
        Err(FileFault::Malformed) => return Err(LoadFault::Malformed),
        Err(FileFault::Version(n)) => return Err(LoadFault::Version(n)),
        Err(FileFault::OtherService) => return Err(LoadFault::OtherService),
        Err(FileFault::Memory) => return Err(LoadFault::Memory),
    };
    if_covered(alloc, checked, saved)
}

/// What was read, if it is covered.
fn if_covered(alloc: Global, checked: &Checked, saved: Saved) -> Result<Saved, LoadFault>
    requires { IsSaved checked.now.typed.service saved }
    ensures loaded { spec.IsLoaded result (spec.by_cells saved (spec.uncovered checked.now.typed.service checked.now.facts saved)) }
    ensures same { IfOk result (λ s. s ≡ saved) }
    ensures covered { OnOk result (spec.uncovered checked.now.typed.service checked.now.facts saved ≡ None) }
{
    let literals = Literals::of(alloc, checked.typed().service())?;
    match uncovered(alloc, checked, &literals, &saved)? {
        None => Ok(saved),
        Some(number) => Err(LoadFault::NotCovered(number)),
    }
}
