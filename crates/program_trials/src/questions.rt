//! What a command asks of its files.
ghost use Rattle.std.specs.Prelude.{true, codes, IfSome};
ghost use Rattle.bw_command.specs.Commands.{AreWorkers};
ghost use Rattle.bw_questions.specs.Asked.{check_work};
ghost use Rattle.bw_questions.specs.Asked.Work.{prints};
ghost use Rattle.bw_questions.specs.Questions.{IsAnswer, line};

use bw_command::Judging;
use bw_lang::Text;
use bw_out::{Files, Pulse};
use bw_questions::{Stop, Tools, load_explained};
use std::thread::Threads;

/// `load_explained`: the check alone, which asks for so many workers.
pub fn explained<R: Threads + Sync, F: Files, P: Pulse>(
    tools: &Tools<R, P>,
    files: &mut F,
    service: &Text,
    judging: &Judging,
) -> Result<(), Stop>
    requires { AreWorkers judging.now.workers }
    ensures answers { IfSome (F.told files.old) (λ disk.
        IsAnswer (λ done. prints (line (codes "accepted"))) (check_work disk service.now judging.now true) result) }
{
    load_explained(tools, files, service, judging)
}
