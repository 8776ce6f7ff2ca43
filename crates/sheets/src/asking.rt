// The sheet's length, and the questions 12 and 14; the first no decides.
ghost use Rattle.std.specs.Prelude.{◌≡◌, length};
ghost use Rattle.listing.specs.First.{first};
ghost use Rattle.calls.specs.Working.Asking.{refusal_in};
ghost use Rattle.calls.specs.Questions.{space_fits};
ghost use Rattle.sheets.specs.Sheet.{sheet_length, sheet_bytes, sheet_questions, sheet_call_lent};

use blocks::report::record_bytes;
use calls::Refusal;
use calls::questions::require;
use reports::asking::is_readable;
use words::MAX;

// 72 columns and a line feed.
pub(crate) const LINE_BYTES: usize = 73;

// MAX: no sheet has this length, which is no whole number of lines. It is document 02's number, which C is given.
const TOO_LONG: usize = MAX as usize;

// The length of a sheet, or MAX if it is no word.
pub fn sheet_bytes(inputs: u64, report_bytes: usize) -> usize
    ensures { result ≡ sheet_bytes inputs report_bytes }
{
    let n = inputs as usize;
    let records = report_bytes / record_bytes(n);
    if records == 0 {
        return 0;
    }
    if n < TOO_LONG / LINE_BYTES / records {
        return LINE_BYTES * ((1 + n) * records);
    }
    TOO_LONG
}

// Question 14; if the length is no word, no sheet is long enough.
fn sheet_fits(inputs: u64, report: &[u8], sheet: &[u8]) -> bool
    ensures { result ≡ space_fits (sheet_length inputs (length report.now)) (length sheet.now) }
{
    let bytes = sheet_bytes(inputs, report.len());
    bytes < TOO_LONG && bytes <= sheet.len()
}

// The first no of questions 12 and 14, or that both have the answer yes.
#[tactic(auto, unfolding(crate::specs::Sheet::sheet_questions, listing::specs::First::first))]
pub(crate) fn ask_sheet(inputs: u64, report: &[u8], sheet: &[u8]) -> Result<(), Refusal>
    ensures { refusal_in result ≡ first (sheet_questions (sheet_call_lent inputs report sheet)) }
{
    require(is_readable(inputs, report), Refusal::Records)?;
    require(sheet_fits(inputs, report, sheet), Refusal::Space)
}
