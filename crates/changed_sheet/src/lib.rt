// What an entry left of a sheet, printed: the sheet's bytes, or the line of a refusal.
#![tactic(auto)]

ghost use Rattle.std.specs.Prelude.{◌≡◌};
ghost use Rattle.rules.specs.Said.{said};

use rules::Refusal;
use std::io::Write;

// Of an entry that changes a sheet and writes no result. Its answer is handed on; what is printed is held to
// expected text.
pub fn print_after(
    rt: &impl Print,
    answer: Result<usize, Refusal>,
    sheet: &[u8],
) -> Result<usize, Refusal>
    ensures { said result ≡ said answer }
{
    match answer {
        Ok(_) => {
            let _ = rt.write_all(sheet);
        }
        Err(refusal) => {
            let _ = println!(rt; "{refusal}");
        }
    }
    answer
}
