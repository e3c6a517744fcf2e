//! What a source tells: a machine, or a history.
ghost use Rattle.std.specs.Prelude.{◌≡◌, ◌≤◌, IfOk, IfErr, IfSome, OnOk, Ok, IsErrOf};
ghost use Rattle.plat_base.specs.Seen.{machine};
ghost use Rattle.plat_grammar.specs.FirstFault.{text_at};
ghost use Rattle.plat_grammar.specs.Grammar.{IsTextOf};
ghost use Rattle.plat_io.specs.Streams.{IsAtEnd};
ghost use Rattle.plat_grammar.specs.HistoryFaults.{history_at};
ghost use Rattle.plat_grammar.specs.HistoryGrammar.{IsHistory, IsHistoryTextOf};
ghost use Rattle.plat_history.specs.Shown.{seen};
ghost use Rattle.plat_cmd.specs.Inputs.{IfTold, TakesText, machine_text, history_text, too_long};
ghost use Rattle.plat_cmd.specs.Steps.{IsStop, AcceptsAs, read_as};
ghost use Rattle.plat_cmd.specs.declared.outcomes.Stop.TheVariants as stops;

use crate::outcomes::Stop;
use plat_base::{Config, Refused, TextFault, Why};
use plat_history::{History, read_history};
use plat_io::{ReadStop, Source, read_all};
use plat_machine::parse;
use std::alloc::Global;

/// Reads a whole machine text: at most 1,048,576 bytes, and no byte after them.
pub fn read_machine<S: Source>(alloc: Global, source: &mut S) -> Result<Config, Stop>
    ensures found { IfOk result (λ cfg. IfSome (S.left source.old) (λ bytes. IsTextOf bytes (machine cfg))) }
    ensures exact { IfOk result
        (λ cfg. IfSome (S.left source.old) (λ bytes. text_at bytes ≡ Ok (machine cfg))) }
    ensures all { OnOk result (IsAtEnd (S.left source.new)) }
    ensures count { S.faults source.old ≤ S.faults source.new }
    ensures only { IfTold machine_text (S.left source.old) (λ m. AcceptsAs m (read_as machine result)) }
    ensures stopped { IfErr result
        (IsStop machine_text (S.left source.old) (S.faults source.old) (S.faults source.new)) }
    ensures taken { TakesText machine_text (S.left source.old) (S.left source.new)
        (IsErrOf result (stops.Refused too_long)) }
{
    match read_all(alloc, source, 1_048_576) {
        Ok(bytes) => match parse(alloc, bytes.as_slice()) {
            Ok(cfg) => Ok(cfg),
            Err(TextFault::Refused(refused)) => Err(Stop::Refused(refused)),
            Err(TextFault::OutOfMemory) => Err(Stop::OutOfMemory),
        },
        Err(ReadStop::TooLong) => Err(Stop::Refused(Refused {
            line: 0,
            column: 0,
            why: Why::TooLong,
        })),
        Err(ReadStop::ReadFault) => Err(Stop::ReadFault),
        Err(ReadStop::OutOfMemory) => Err(Stop::OutOfMemory),
    }
}

/// Reads a whole history text: at most 268,435,456 bytes, and no byte after them.
pub fn read_history_text<S: Source>(alloc: Global, source: &mut S) -> Result<History, Stop>
    ensures ranges { IfOk result (λ h. IsHistory (seen h)) }
    ensures found { IfOk result (λ h. IfSome (S.left source.old) (λ bytes. IsHistoryTextOf bytes (seen h))) }
    ensures exact { IfOk result (λ h. IfSome (S.left source.old) (λ bytes. history_at bytes ≡ Ok (seen h))) }
    ensures all { OnOk result (IsAtEnd (S.left source.new)) }
    ensures count { S.faults source.old ≤ S.faults source.new }
    ensures only { IfTold history_text (S.left source.old) (λ h. AcceptsAs h (read_as seen result)) }
    ensures stopped { IfErr result
        (IsStop history_text (S.left source.old) (S.faults source.old) (S.faults source.new)) }
    ensures taken { TakesText history_text (S.left source.old) (S.left source.new)
        (IsErrOf result (stops.Refused too_long)) }
{
    match read_all(alloc, source, 268_435_456) {
        Ok(bytes) => match read_history(alloc, bytes.as_slice()) {
            Ok(history) => Ok(history),
            Err(TextFault::Refused(refused)) => Err(Stop::Refused(refused)),
            Err(TextFault::OutOfMemory) => Err(Stop::OutOfMemory),
        },
        Err(ReadStop::TooLong) => Err(Stop::Refused(Refused {
            line: 0,
            column: 0,
            why: Why::TooLong,
        })),
        Err(ReadStop::ReadFault) => Err(Stop::ReadFault),
        Err(ReadStop::OutOfMemory) => Err(Stop::OutOfMemory),
    }
}
