// The list of transfers: its entries, and numbers 13 and 14.
#![tactic(auto)]

ghost use Rattle.std.specs.Prelude.{◌≡◌, Bool};
ghost use Rattle.rules.specs.Said.{number_or_none};
ghost use Rattle.rules.specs.declared.Transfer.{Transfer};
ghost use Rattle.rules.specs.TransferList.{entries, entry};
ghost use Rattle.rules.specs.Transfers.{bad_entry, bad_front, late, list_tests, some_entry};
ghost use Rattle.rules.specs.Refusals.{first_of};

use fields::{byte, word};
use rules::{Refusal, Transfer};

// How many entries the length leaves room for.
#[tactic(auto, unfolding(rules::specs::TransferList::entries, rules::specs::TransferList::list_length))]
pub fn entry_count(list: &[u8]) -> u32
    ensures { result ≡ entries list.now }
{
    let length = word(list, 0);
    length.saturating_sub(5) / 7
}

// Entry i; bytes past the end count as 0.
#[tactic(auto, unfolding(rules::specs::TransferList::entry))]
pub fn entry(list: &[u8], i: u32) -> Transfer
    ensures { result ≡ entry list.now i }
{
    let at = 5 + 7 * (i as usize);
    Transfer {
        day: byte(list, at),
        giver: byte(list, at + 1),
        taker: byte(list, at + 2),
        amount: word(list, at + 3),
    }
}

// 13, before the entries.
#[tactic(auto, unfolding(rules::specs::Transfers::bad_front, rules::specs::Refusals::one_of, rules::specs::TransferList::list_length, rules::specs::TransferList::list_version))]
fn bad_front(list: &[u8]) -> bool
    ensures { result ≡ bad_front list.now }
{
    let length = word(list, 0) as usize;
    list.len() < 5 || length != list.len() || (length - 5) % 7 != 0 || byte(list, 4) != 1
}

// 13, of one entry.
#[tactic(auto, unfolding(rules::specs::Transfers::bad_entry, rules::specs::Refusals::one_of))]
fn bad_entry(consumers: u8, t: Transfer) -> bool
    ensures { result ≡ bad_entry consumers t }
{
    t.day < 1 || 31 < t.day || consumers <= t.giver || consumers <= t.taker || t.giver == t.taker
}

// 14, of one entry.
#[tactic(auto, unfolding(rules::specs::Transfers::late))]
fn filed_late(t: Transfer) -> bool
    ensures { result ≡ late t }
{
    20 < t.day
}

// Some entry of the list passes a test.
fn some_entry<F: Fn(Transfer) -> bool>(list: &[u8], test: F) -> bool
    requires { F.IsAlwaysCallable test }
    ensures { (P : Transfer → Bool) → ((t : Transfer) → (b : Bool) → F.post test t b → b ≡ P t)
        → result ≡ some_entry list.now P }
{
    let count = entry_count(list);
    for i in 0..count {
        if test(entry(list, i)) {
            return true;
        }
    }
    false
}

// Passes a list, for a sheet with so many consumers, to which none of the numbers 13 and 14 applies. The
// entries of such a list are read once; which number applies is asked only where one does.
#[tactic(auto, using(crate::proofs::Tried::none_wrong), unfolding(rules::specs::Transfers::list_tests, rules::specs::Refusals::first_of, rules::specs::Refusals::one_of))]
pub fn try_list(list: &[u8], consumers: u8) -> Result<(), Refusal>
    ensures { number_or_none result ≡ first_of (list_tests consumers list.now) }
{
    if !bad_front(list) && !some_entry(list, |t| filed_late(t) || bad_entry(consumers, t)) {
        return Ok(());
    }
    if bad_front(list) || some_entry(list, |t| bad_entry(consumers, t)) {
        return Err(Refusal::BadList);
    }
    if some_entry(list, filed_late) {
        return Err(Refusal::FiledLate);
    }
    Ok(())
}
