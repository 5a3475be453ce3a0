// The end of the program.
ghost use Rattle.std.specs.Prelude.{◌≡◌};
ghost use Rattle.std.specs.Process.{exit_status};
ghost use Rattle.wse_run.specs.declared.end.RunEnd.TheVariants as ends;
ghost use Rattle.wsedit.specs.Status.{TellsLine, line_of_end};

use crate::program::Ended;
use crate::status::Status;
use std::process::ExitCode;
use wse_disk::Place;
use wse_io::Sink;
use wse_run::RunEnd;

/// The status with which the program ends: that of its run.
pub fn exit_code<D: Place>(ended: &Ended<D>) -> ExitCode
    ensures { exit_status result ≡ ended.now.status }
{
    ExitCode::from(ended.status)
}

/// Tells at `errs` that there was no memory for the words, where nothing is run.
pub fn end_without_words<E: Sink, D: Place>(errs: &mut E, disk: D) -> Ended<D>
    ensures status { result.status ≡ 6 }
    ensures untouched { result.disk ≡ disk }
    ensures told { TellsLine (line_of_end ends.Memory) (E.pieces errs.old) (E.pieces errs.new) (E.faults errs.old) (E.faults errs.new) }
{
    let status = Status::Ran(RunEnd::Memory);
    // A fault of errs changes no status.
    let _ = status.tell(errs, &disk);
    Ended {
        status: status.code(),
        disk,
    }
}
