// The result: its length, then the records of all consumers, each written from its own place.
ghost use Rattle.std.specs.Prelude.{◌≡◌, ◌*◌, ◌≤◌, length};
ghost use Rattle.rules.specs.Fields.{joined, over};
ghost use Rattle.rules.specs.Sheet.{month_under};
ghost use Rattle.rules.specs.Limits.{MonthLimits};
ghost use Rattle.rules.specs.Result2015.{length_2015, record_2015, result_2015};

use crate::figures::{line_of, write_line};
use sheet::Sheet;
use writing::{last_four, put};

// The records of all consumers, at the front of the part that is lent.
fn write_consumers(sheet: &Sheet<'_>, out: &mut [u8])
    requires limits { MonthLimits (month_under sheet.now.layout sheet.now.bytes.now) }
    requires room { 17 * sheet.now.layout.header.consumers ≤ length out.old }
    ensures { out.new ≡ over (joined (record_2015 (month_under sheet.now.layout sheet.now.bytes.now))
        sheet.now.layout.header.consumers) out.old }
{
    for c in 0..sheet.layout.header.consumers {
        let k = sheet.consumer(c);
        let f = line_of(k);
        let at = 17 * (c as usize);
        write_line(&mut out[at..], f);
    }
}

// The whole result of an accepted month.
#[tactic(auto, using(crate::proofs::Parts::stands), unfolding(rules::specs::Result2015::length_2015))]
pub(crate) fn write_result(sheet: &Sheet<'_>, count: usize, out: &mut [u8])
    requires limits { MonthLimits (month_under sheet.now.layout sheet.now.bytes.now) }
    requires counted { count ≡ length_2015 sheet.now.layout.header }
    requires room { count ≤ length out.old }
    ensures { out.new ≡ over (result_2015 (month_under sheet.now.layout sheet.now.bytes.now)) out.old }
{
    put(out, 0, last_four(count as u64));
    write_consumers(sheet, &mut out[4..]);
}
