// A producer of a sheet: what it states, what its rows come to, and the control days of the month.
ghost use Rattle.std.specs.Prelude.{◌≡◌, ℕ, ◌+◌, ◌-◌, ◌*◌, ◌<◌, ◌≤◌, true, false, MatchResult};
ghost use Rattle.rules.specs.Sheet.{producer_at, stated_of};
ghost use Rattle.rules.specs.ControlTable.{table_day, in_table};
ghost use Rattle.rules.specs.Cut.{excess};
ghost use Rattle.rules.specs.Coefficients.{penalty, exact_k4, support_after, capacity_after};
ghost use Rattle.laws.specs.ShortForm.{left_after_cut};
ghost use Rattle.sheet.specs.Month.{month_in};
ghost use Rattle.volumes.specs.Volumes.{most_volume, Fits, volumes_of};
ghost use Rattle.calendar.specs.Days.{day_on};
ghost use Rattle.producers.specs.Terms.{most_met, ks_from, high_in, HoursKnown, factors_of, terms_at};

use crate::cut::CutRows;
use crate::k1::{Thousandths, less_penalty, penalty_of};
use crate::{Terms, exact_k4, millionths_of, single_product};
use calendar::ControlDays;
use coefficients::{bids, plans};
use hours::{HourFigures, hour_figures};
use places::hour_series;
use row_figures::Factors;
use rules::{Ratio, Refusal, Stated};
use sheet::Sheet;
use units::{Millionths, ONE, Tenths};
use volumes::Volumes;

// Producer p of a whole sheet, in a month that the table of control weekdays has.
#[derive(Clone, Copy)]
pub(crate) struct Producer<'a> {
    pub(crate) sheet: Sheet<'a>,
    pub(crate) p: u8,
    pub(crate) stated: Stated,
    pub(crate) volumes: Volumes,
    pub(crate) control: ControlDays,
    ghost there: { p < sheet.layout.header.producers },
    ghost read: { stated ≡ stated_of sheet.bytes.now (producer_at sheet.layout p) },
    ghost counted: { volumes ≡ volumes_of (month_in sheet) p },
    ghost fits: { Fits volumes },
    ghost month: { in_table sheet.layout.header ≡ true },
    ghost days: { (d : ℕ) → day_on control.on d ≡ table_day sheet.layout.header d },
}

impl<'a> Producer<'a> {
    // T + B.
    fn sold(&self) -> Tenths
        ensures sum { result.0 ≡ self.now.volumes.support.0 + self.now.volumes.bilateral.0 }
        ensures fits { result.0 ≤ 2 * most_volume }
    {
        self.volumes.support.plus(self.volumes.bilateral)
    }

    // S of what is sold: it and the deductible capacity.
    fn summed(&self, sold: Tenths) -> Tenths
        requires { sold.0 ≤ 2 * most_volume }
        ensures { result.0 ≡ sold.0 + self.now.stated.deductible }
    {
        sold.plus(Tenths::stated(self.stated.deductible))
    }

    // The excess: S less own needs, less attested capacity.
    fn excess(&self) -> Tenths
        ensures { result.0 ≡ excess (month_in self.now.sheet) self.now.p }
    {
        self.summed(self.sold())
            .less(Tenths::stated(self.stated.needs))
            .less(Tenths::stated(self.stated.attested))
    }

    // k1 to k10, by its stated figures, k1 and k4.
    fn ks(&self, k1: u64, k4: u64) -> [u64; 10]
        ensures { result ≡ ks_from self.now.sheet.layout.header self.now.stated k1 k4 }
    {
        let x = self.stated;
        let hours = 24 * (self.sheet.layout.header.days as u32);
        [
            k1,
            bids(hours, x.upward, x.downward),
            x.k3 as u64,
            k4,
            plans(hours, x.plan),
            x.k6 as u64,
            x.k7 as u64,
            x.k8 as u64,
            x.k9 as u64,
            x.k10 as u64,
        ]
    }

    // What its hours give, for a summed capacity S; refused where one has a power above the ceiling.
    fn hours(&self, summed: Tenths) -> Result<HourFigures, Refusal>
        ensures { let high = high_in self.now.sheet.layout self.now.sheet.bytes.now self.now.p in
            MatchResult result
            (λ f. (high ≡ false)
            × HoursKnown self.now.sheet.layout self.now.sheet.bytes.now self.now.p summed.0 f)
            (λ refusal. (high ≡ true) × (refusal ≡ Refusal.AboveCeiling)) }
    {
        let layout = self.sheet.layout;
        let hours = self.sheet.hours(self.p);
        let of = hour_series(layout);
        hour_figures(hours, of, layout.header.days, summed, self.control)
    }

    // T after the cut: the excess is cut from its rows in sheet order.
    fn support_by_rows(&self, over: Tenths) -> Tenths
        requires { over.0 ≡ excess (month_in self.now.sheet) self.now.p }
        ensures { result.0 ≡ support_after (month_in self.now.sheet) self.now.p }
    {
        let mut c = CutRows {
            left: over,
            support: Tenths(0),
        };
        for j in 0..self.sheet.layout.header.rows {
            let r = self.sheet.row(j);
            if r.producer == self.p {
                c = c.with_row(r);
            }
        }
        c.support
    }

    // The same; where nothing is cut it is the T of the sheet's volumes.
    fn support_after(&self, over: Tenths) -> Tenths
        requires { over.0 ≡ excess (month_in self.now.sheet) self.now.p }
        ensures { result.0 ≡ support_after (month_in self.now.sheet) self.now.p }
    {
        if over.0 == 0 {
            return self.volumes.support;
        }
        self.support_by_rows(over)
    }

    // What its rows are multiplied by, from the excess, what it leaves of them, n × D and k4.
    fn factors(&self, over: Tenths, left: Tenths, taken: Thousandths, k4: Ratio) -> Factors
        requires over { over.0 ≡ excess (month_in self.now.sheet) self.now.p }
        requires left { left.0 ≡ left_after_cut (month_in self.now.sheet) self.now.p }
        requires taken { let m = month_in self.now.sheet in
            taken.0 ≡ penalty m.header (m.producer self.now.p) }
        requires k4 { let m = month_in self.now.sheet in
            k4 ≡ exact_k4 m.header (m.producer self.now.p) (capacity_after m self.now.p) }
        requires few { k4.part ≤ most_met }
        ensures { result ≡ factors_of (month_in self.now.sheet) self.now.p }
    {
        // Without bilateral volume the single row is a support row, or has no volume: then both kinds give
        // nothing.
        if self.volumes.rows == 1 {
            let support = self.volumes.bilateral.0 == 0;
            return Factors {
                first: Some(single_product(support, left, taken, k4)),
                ks: self.ks(ONE, ONE),
            };
        }
        let k1 = less_penalty(self.support_after(over), taken);
        let ks = self.ks(k1, millionths_of(k4));
        Factors { first: None, ks }
    }

    // Its excess and what its rows are multiplied by, before the first row; refused where an hour has a power
    // above the ceiling.
    pub(crate) fn terms(&self) -> Result<Terms, Refusal>
        ensures { let high = high_in self.now.sheet.layout self.now.sheet.bytes.now self.now.p in
            MatchResult result
            (λ t. (high ≡ false) × (t ≡ terms_at (month_in self.now.sheet) self.now.p 0))
            (λ refusal. (high ≡ true) × (refusal ≡ Refusal.AboveCeiling)) }
    {
        let excess = self.excess();
        let left = self.sold().less(excess);
        let f = self.hours(self.summed(left))?;
        let penalty = penalty_of(f.average, self.stated.deductible);
        let by = self.factors(excess, left, penalty, exact_k4(f.sums));
        Ok(Terms { excess, by })
    }
}
