// The contract volumes of a sheet: read into one record, moved by the entries of a list, and written back.
ghost use Rattle.std.specs.Prelude.{◌≡◌, ◌-◌, ◌≤◌, true, false, length, IfOk, IfErr, OnOk};
ghost use Rattle.rules.specs.declared.Refusal.{Refusal};
ghost use Rattle.rules.specs.Refusals.{first_of};
ghost use Rattle.rules.specs.Said.{number_or_none};
ghost use Rattle.rules.specs.Sheet.{sheet_length, with_contracts};
ghost use Rattle.rules.specs.TransferList.{entries};
ghost use Rattle.rules.specs.Transfers.{after_entries, turn_tests};
ghost use Rattle.laws.proofs.Arrays.{Agrees};
ghost use Rattle.laws.proofs.Transfers.{AllNamed};
ghost use Rattle.units.specs.Sums.{added, tenths};
ghost use Rattle.transfers.specs.Held.{stated_in, read, unmet, Within};

use places::contract_at;
use rules::{Layout, Refusal};
use sheet::Sheet;
use transfer_list::{entry, entry_count};
use units::Tenths;
use writing::{last_four, put};

// The contract volumes of 32 consumers; 0 for those that the sheet does not have.
#[derive(Clone, Copy)]
pub struct Volumes {
    pub of: [Tenths; 32],
}

impl Volumes {
    // Those that a sheet states.
    pub(crate) fn stated(sheet: &Sheet<'_>) -> Volumes
        requires { sheet.now.layout.header.consumers ≤ 32 }
        ensures { result ≡ stated_in sheet.now.layout sheet.now.bytes.now }
    {
        let mut volumes = Volumes {
            of: [Tenths(0); 32],
        };
        for c in 0..sheet.layout.header.consumers {
            let k = sheet.consumer(c);
            volumes.of[c as usize] = Tenths::stated(k.contract);
        }
        volumes
    }

    // Applies the entries of a list in their order, up to the first that cannot be met.
    pub(crate) fn apply(&mut self, list: &[u8]) -> Result<(), Refusal>
        requires { Within self.old × AllNamed 32 list.now }
        ensures number { number_or_none result ≡ first_of (turn_tests (read self.old) list.now) }
        ensures volumes { OnOk result
            (Agrees 32 (tenths 0) (λ c. tenths (after_entries (read self.old) list.now (entries list.now) c))
            self.new.of) }
    {
        let count = entry_count(list);
        for i in 0..count {
            let t = entry(list, i);
            let giver = t.giver as usize;
            let taker = t.taker as usize;
            let has = self.of[giver];
            let had = self.of[taker];
            let (left, raised) = turn(has, had, Tenths::stated(t.amount))?;
            self.of[giver] = left;
            self.of[taker] = raised;
        }
        Ok(())
    }

    // Writes them into a sheet. A `Sheet` only reads, so the bytes that are written come with their layout.
    pub(crate) fn write(&self, s: &mut [u8], layout: Layout)
        requires { (sheet_length layout ≤ length s.old) × (layout.header.consumers ≤ 32) }
        ensures { s.new ≡ with_contracts layout (read self.now) layout.header.consumers s.old }
    {
        for c in 0..layout.header.consumers {
            let v = self.of[c as usize];
            let at = contract_at(layout, c);
            put(s, at, last_four(v.0));
        }
    }
}

// What an entry leaves its giver and its taker, by what they have at its turn and the amount.
#[tactic(auto, unfolding(rules::specs::Refusals::too_high))]
fn turn(giver: Tenths, taker: Tenths, amount: Tenths) -> Result<(Tenths, Tenths), Refusal>
    ensures met { OnOk result (unmet giver taker amount ≡ false) }
    ensures refused { IfErr result
        (λ refusal. (unmet giver taker amount ≡ true) × (refusal ≡ Refusal.Overdrawn)) }
    ensures left { IfOk result (λ x. x.0.0 ≡ giver.0 - amount.0) }
    ensures raised { IfOk result (λ x. x.1.0 ≡ added taker.0 amount.0) }
{
    let raised = taker.plus(amount);
    if giver.0 < amount.0 || Tenths::CEILING < raised.0 {
        return Err(Refusal::Overdrawn);
    }
    Ok((giver.less(amount), raised))
}
