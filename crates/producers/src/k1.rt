// k1: outside use beyond the deductible capacity, in hundredths of a megawatt; and what it leaves of a single
// row.
ghost use Rattle.std.specs.Prelude.{◌≡◌, ◌-◌, ◌*◌, ◌≤◌};
ghost use Rattle.rules.specs.Units.{tenths_ceiling, in_thousandths};
ghost use Rattle.rules.specs.Bands.{band_of, thousandths};
ghost use Rattle.rules.specs.Coefficients.{less_penalty, millionths_of};
ghost use Rattle.laws.specs.Bounds.{most_word};
ghost use Rattle.laws.specs.ShortForm.{kept};
ghost use Rattle.volumes.specs.Volumes.{most_volume};
ghost use Rattle.producers.specs.Terms.{penalty_from};

use bands::{factor, thousandths};
use units::{Hundredths, ONE, Tenths, nearest};

// Thousandths of a megawatt: n × D, and volumes beside it.
#[derive(Clone, Copy)]
pub(crate) struct Thousandths(pub(crate) u64);

impl Thousandths {
    #[tactic(auto, unfolding(rules::specs::Units::in_thousandths))]
    fn of_tenths(v: Tenths) -> Thousandths
        requires { v.0 ≤ most_volume }
        ensures { result.0 ≡ in_thousandths v.0 }
    {
        Thousandths(v.0 * 100)
    }

    // Not below 0.
    fn less(self, taken: Thousandths) -> Thousandths
        ensures { result.0 ≡ self.0 - taken.0 }
    {
        Thousandths(self.0.saturating_sub(taken.0))
    }
}

// n × D, of D and deductible capacity.
#[tactic(auto, unfolding(rules::specs::Bands::thousandths))]
fn penalty(over: Hundredths, deductible: Hundredths) -> Thousandths
    requires { over.0 ≤ 10 * most_word }
    ensures { result.0 ≡ band_of (thousandths over.0 deductible.0) * over.0 }
{
    Thousandths((factor(thousandths(over.0 * 1000, deductible.0)) as u64) * over.0)
}

// n × D, from the control average of outside use.
pub(crate) fn penalty_of(average: Hundredths, deductible: u32) -> Thousandths
    requires { average.0 ≤ 10 * most_word }
    ensures { result.0 ≡ penalty_from average.0 deductible }
{
    let own = Hundredths::of_tenths(deductible);
    penalty(average.less(own), own)
}

// k1: 1 - n × D / T, rounded. A hundred is taken out of T in thousandths and out of the million, so that the
// product fits.
pub(crate) fn less_penalty(support: Tenths, penalty: Thousandths) -> u64
    requires { support.0 ≤ most_volume }
    ensures { result ≡ millionths_of (less_penalty support.0 penalty.0) }
{
    if support.0 == 0 {
        if penalty.0 == 0 {
            return ONE;
        }
        return 0;
    }
    let left = Thousandths::of_tenths(support).less(penalty);
    nearest(left.0 * (ONE / 100), support.0)
}

// What n × D leaves of a single row with a volume after the cut: of a support row the volume less n × D; of a
// bilateral row, which has T 0, all or nothing.
pub(crate) fn kept(support: bool, volume: Tenths, penalty: Thousandths) -> Thousandths
    requires { volume.0 ≤ tenths_ceiling }
    ensures { (result.0 ≡ kept support volume.0 penalty.0) × (result.0 ≤ in_thousandths tenths_ceiling) }
{
    let all = Thousandths::of_tenths(volume);
    if support {
        return all.less(penalty);
    }
    if penalty.0 == 0 {
        return all;
    }
    Thousandths(0)
}
