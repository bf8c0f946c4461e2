//! The lines that tell why saved sessions aren't loaded, and why none are saved, without their ends.
ghost use Rattle.std.specs.Prelude.{◌≡◌, ◌≢◌, IfOk};
ghost use Rattle.bw_load.specs.declared.loading.LoadFault.TheVariants as faults;
ghost use Rattle.bigwig.specs.Freezing as freezing;
ghost use Rattle.bigwig.specs.Loading as loading;

use bw_lang::Memory;
use bw_load::LoadFault;
use bw_questions::{paired, placed};
use itoa::Buffer;
use std::alloc::Global;

/// Why a file of saved sessions is refused. Want of memory has no line.
pub fn load_line(alloc: Global, fault: &LoadFault) -> Result<Vec<u8>, Memory>
    ensures line { IfOk result (λ line. line.items ≡ loading.load_line fault.now) }
    ensures reason { IfOk result (λ line. fault.now ≢ faults.Memory) }
{
    match fault {
        LoadFault::TooLong => paired(alloc, b"load too long", b""),
        LoadFault::Malformed => paired(alloc, b"load malformed", b""),
        LoadFault::Version(version) => { placed(alloc, b"load version ", usize::from(*version)) }
        LoadFault::OtherService => paired(alloc, b"load other service", b""),
        LoadFault::NotCovered(number) => { placed(alloc, b"load not covered ", *number as usize) }
        LoadFault::Memory => Err(Memory),
    }
}

/// That all values weigh so much, which is too much to be saved.
pub fn save_line(alloc: Global, weight: u64) -> Result<Vec<u8>, Memory>
    ensures { IfOk result (λ line. line.items ≡ freezing.save_line weight) }
{
    paired(
        alloc,
        b"save too long ",
        Buffer::new().format(weight).as_bytes(),
    )
}
