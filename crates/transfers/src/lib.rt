// Transfers of contract volume between consumers: every sheet and every list is answered.
#![tactic(auto)]

ghost use Rattle.std.specs.Prelude.{◌≡◌};
ghost use Rattle.rules.specs.Said.{said};
ghost use Rattle.rules.specs.Transfers.{transfer_outcome, transferred};

use refusals_sheet::try_sheet;
use rules::Refusal;
use transfer_list::try_list;

mod contracts;

use contracts::Volumes;

// Applies a list of transfers to the contract volumes of a sheet, in the list's order. A refusal changes no
// byte, since every number is decided before the first byte is written. Where the list is applied the count
// is 0.
#[tactic(auto, using(crate::proofs::Answered::applying))]
pub fn transfer(sheet: &mut [u8], list: &[u8]) -> Result<usize, Refusal>
    ensures answer { said result ≡ transfer_outcome sheet.old list.now }
    ensures sheet { sheet.new ≡ transferred sheet.old list.now }
{
    let own = try_sheet(sheet)?;
    let layout = own.layout;
    try_list(list, layout.header.consumers)?;
    let mut volumes = Volumes::stated(&own);
    volumes.apply(list)?;
    volumes.write(sheet, layout);
    Ok(0)
}
