//! Histories that are read and judged, for the commands that do something with a good one.
ghost use Rattle.std.specs.Prelude.{◌≡◌, ◌≤◌, None, Some, Ok, IfOk, IfErr, IsErrOf};
ghost use Rattle.std.specs.Fn.{FnOnceReturnsAt};
ghost use Rattle.plat_history.specs.Shown.{seen};
ghost use Rattle.plat_base.specs.declared.statuses.Status.TheVariants as statuses;
ghost use Rattle.plat_cmd.specs.Inputs.{IsToldHistory, IfTold, TakesText, history_text, too_long};
ghost use Rattle.plat_cmd.specs.Judgings.{HasFailed, IsNotJudged};
ghost use Rattle.plat_cmd.specs.Works.{first_bad_of};

use crate::outcomes::stop_status;
use crate::readings::read_history_text;
use plat_base::{Bad, Config, OutOfMemory, Status};
use plat_history::History;
use plat_io::Source;
use plat_judge::Judge;
use std::alloc::Global;

/// A history that breaks no rule, and the memory that its command took before it was judged.
#[derive(Drop)]
pub struct Judged<T> {
    pub history: History,
    pub memory: T,
}

/// The first bad item of a history, with its rule. The judge takes its memory first.
fn first_bad(alloc: Global, history: &History) -> Result<Option<Bad>, OutOfMemory>
    ensures { IfOk result (λ bad. bad ≡ first_bad_of (seen history.now)) }
{
    let judge = Judge::new(alloc, &history.cfg)?;
    Ok(judge.judge(
        &history.cfg,
        history.items.as_slice(),
        history.ends.as_slice(),
    ))
}

/// Takes the memory of the command and of the judge, and then judges a history.
fn judge<T: Drop, F: FnOnce(&Config) -> Result<T, OutOfMemory>>(
    alloc: Global,
    prepare: F,
    history: History,
) -> Result<Judged<T>, Status>
    requires { F.IsAlwaysCallable prepare }
    ensures prepared { IfOk result
        (λ it. FnOnceReturnsAt F.FnOnce prepare it.history.cfg (Ok it.memory)) }
    ensures same { IfOk result (λ it. it.history ≡ history) }
    ensures good { IfOk result (λ it. first_bad_of (seen history) ≡ None) }
    ensures failed { IfErr result (IsNotJudged (seen history)) }
{
    let Ok(memory) = prepare(&history.cfg) else {
        return Err(Status::OutOfMemory);
    };
    match first_bad(alloc, &history) {
        Ok(None) => Ok(Judged { history, memory }),
        Ok(Some(bad)) => Err(Status::HistoryBad(bad)),
        Err(OutOfMemory) => Err(Status::OutOfMemory),
    }
}

/// Reads a history text and judges it. `prepare` takes the memory of the command for a machine, before the judging; nothing takes
/// any after it. Where the history is bad, or there is none, the command ends with the status that is given.
pub fn read_judged<S: Source, T: Drop, F: FnOnce(&Config) -> Result<T, OutOfMemory>>(
    alloc: Global,
    source: &mut S,
    prepare: F,
) -> Result<Judged<T>, Status>
    requires { F.IsAlwaysCallable prepare }
    ensures prepared { IfOk result
        (λ it. FnOnceReturnsAt F.FnOnce prepare it.history.cfg (Ok it.memory)) }
    ensures good { IfOk result (λ it. first_bad_of (seen it.history) ≡ None) }
    ensures read { IfOk result
        (λ it. IsToldHistory (S.left source.old) (S.left source.new) (seen it.history)) }
    ensures only { IfOk result
        (λ it. IfTold history_text (S.left source.old) (λ h. seen it.history ≡ h)) }
    ensures failed { IfErr result
        (HasFailed history_text S.Source (λ h bad. first_bad_of h ≡ Some bad) source.old source.new) }
    ensures taken { TakesText history_text (S.left source.old) (S.left source.new)
        (IsErrOf result (statuses.Refused too_long)) }
    ensures count { S.faults source.old ≤ S.faults source.new }
{
    match read_history_text(alloc, source) {
        Ok(history) => judge(alloc, prepare, history),
        Err(stop) => Err(stop_status(stop)),
    }
}
