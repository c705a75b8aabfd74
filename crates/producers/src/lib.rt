// What a producer's rows are settled by: its excess and what they are multiplied by, from any bytes under any
// header.
#![tactic(auto)]

mod cut;
mod k1;
mod producer;

ghost use Rattle.std.specs.Prelude.{◌≡◌, ◌≤◌, cond};
ghost use Rattle.rules.specs.Coefficients.{met_over, millionths_of};
ghost use Rattle.rules.specs.Range.{listed};
ghost use Rattle.rules.specs.Said.{number_or_none};
ghost use Rattle.refusals_sheet.specs.Numbers.{high_hours};
ghost use Rattle.producers.specs.Terms.{most_part, most_met, single_product, terms_of, with_terms};

use crate::k1::{Thousandths, kept};
use crate::producer::Producer;
use calendar::{control_days, in_table};
use hours::K4;
use row_figures::Factors;
use rules::{Layout, Ratio, Refusal};
use sheet::Sheet;
use units::{Millionths, ONE, Tenths, nearest};
use volumes::{Volumes, row_volumes};

// What is left to cut of a producer's rows, and what they are multiplied by.
#[derive(Clone, Copy)]
pub struct Terms {
    pub excess: Tenths,
    pub by: Factors,
}

impl Terms {
    // Nothing to cut, and coefficients of 0.
    pub const NONE: Terms = Terms {
        excess: Tenths(0),
        by: Factors {
            first: None,
            ks: [0; 10],
        },
    };
}

// k4 before it is rounded; 1 where nothing is asked.
fn exact_k4(sums: K4) -> Ratio
    ensures { result ≡ met_over sums.met.0 sums.asked.0 }
{
    let met = sums.met;
    let asked = sums.asked;
    if asked.0 == 0 {
        return Ratio { part: 1, whole: 1 };
    }
    Ratio {
        part: met.0,
        whole: asked.0,
    }
}

// A ratio as a coefficient, rounded.
fn millionths_of(r: Ratio) -> u64
    requires { r.part ≤ most_part }
    ensures { result ≡ millionths_of r }
{
    nearest(r.part * ONE, r.whole)
}

// A single row's volume after the cut × k1 × k4, in its short form: no product passes 64 bits. A volume above
// the ceiling, which no accepted sheet has, gives nothing.
fn single_product(support: bool, volume: Tenths, penalty: Thousandths, k4: Ratio) -> Millionths
    requires { k4.part ≤ most_met }
    ensures { result.0 ≡ single_product support volume.0 penalty.0 k4 }
{
    if Tenths::CEILING < volume.0 {
        return Millionths(0);
    }
    let left = kept(support, volume, penalty);
    Millionths(nearest(left.0 * 1000 * k4.part, k4.whole))
}

// The excess and the factors of six producers, as many as a sheet may have, before the first row; refused
// where some hour of theirs has a power above the ceiling. There are none in a month that the table of
// control weekdays does not have or in a sheet that ends too soon: so it takes bytes and a layout.
pub fn all_terms(s: &[u8], layout: Layout, all: &mut [Terms; 6]) -> Result<(), Refusal>
    ensures terms { all.new ≡ listed (terms_of layout s.now) 6 }
    ensures number { number_or_none result ≡ cond (high_hours layout s.now (with_terms layout s.now)) 9 0 }
{
    *all = [Terms::NONE; 6];
    let Some(sheet) = Sheet::of(s, layout) else {
        return Ok(());
    };
    let header = sheet.layout.header;
    if !in_table(header) {
        return Ok(());
    }
    let control = control_days(header);
    let mut volumes = [Volumes::NONE; 6];
    row_volumes(sheet.bytes, sheet.layout, &mut volumes);
    // No `?`: the clause `terms` says what all six hold after a refusal too.
    let mut tried = Ok(());
    let n = header.producers.min(6);
    for p in 0..n {
        let i = p as usize;
        let producer = Producer {
            sheet,
            p,
            stated: sheet.producer(p),
            volumes: volumes[i],
            control,
        };
        match producer.terms() {
            Ok(terms) => all[i] = terms,
            Err(refusal) => tried = Err(refusal),
        }
    }
    tried
}
