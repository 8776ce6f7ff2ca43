// The call that prints a report.
ghost use Rattle.std.specs.Prelude.{◌≡◌};
ghost use Rattle.calls.specs.Done.{done_left};
ghost use Rattle.sheets.specs.Sheet.{printed_on};

use crate::asking::ask_sheet;
use crate::lines::put_sheet;
use calls::Completion;

// Prints a report on a sheet and answers its bytes, or refuses the call.
pub fn print_sheet(inputs: u64, report: &[u8], sheet: &mut [u8]) -> Completion
    ensures { done_left result sheet.new ≡ printed_on inputs report sheet }
{
    ask_sheet(inputs, report, sheet)?;
    let bytes = put_sheet(report, inputs as usize, sheet);
    Ok(bytes as u64)
}
