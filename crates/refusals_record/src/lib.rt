// The limits that one figure, producer, row or consumer keeps to: numbers 8 to 12 and 18, each of one record.
#![tactic(auto)]

ghost use Rattle.std.specs.Prelude.{◌≡◌, ltb};
ghost use Rattle.rules.specs.Units.{one};
ghost use Rattle.rules.specs.Refusals.{
  bad_share,
  too_high,
  high_consumer,
  bad_reference,
  too_dear,
  bad_factor,
  bad_days,
};
ghost use Rattle.refusals_record.specs.Stated.{without_power, high_stated};

use rules::{Consumer, Header, Row, Stated};
use units::{ONE, Tenths, Tiyn};

// 9, of one figure.
#[tactic(auto, unfolding(rules::specs::Refusals::too_high))]
pub fn too_high(tenths: u32) -> bool
    ensures { result ≡ too_high tenths }
{
    Tenths::new(tenths as u64).is_err()
}

// 11, of one price.
#[tactic(auto, unfolding(rules::specs::Refusals::too_dear))]
pub fn too_dear(price: u32) -> bool
    ensures { result ≡ too_dear price }
{
    Tiyn::new(price as u64).is_err()
}

// 8, of one coefficient.
pub fn above_one(k: u32) -> bool
    ensures { result ≡ ltb one k }
{
    ONE < k as u64
}

// 8, of one producer.
#[tactic(auto, unfolding(rules::specs::Refusals::bad_share, rules::specs::Refusals::one_of))]
pub fn bad_share(h: Header, x: Stated) -> bool
    ensures { result ≡ bad_share h (without_power x) }
{
    let hours = 24 * (h.days as u16);
    hours < x.upward
        || hours < x.downward
        || hours < x.plan
        || above_one(x.k3)
        || above_one(x.k6)
        || above_one(x.k7)
        || above_one(x.k8)
        || above_one(x.k9)
        || above_one(x.k10)
}

// 9, of one producer without its hours.
#[tactic(auto, unfolding(crate::specs::Stated::high_stated))]
pub fn high_stated(x: Stated) -> bool
    ensures { result ≡ high_stated x }
{
    too_high(x.attested) || too_high(x.deductible) || too_high(x.needs)
}

// 10, of one row.
#[tactic(auto, unfolding(rules::specs::Refusals::bad_reference, rules::specs::Refusals::one_of))]
pub fn bad_reference(h: Header, r: Row) -> bool
    ensures { result ≡ bad_reference h r }
{
    h.producers <= r.producer || (r.consumer != 255 && h.consumers <= r.consumer)
}

// 18, of one row.
#[tactic(auto, unfolding(rules::specs::Refusals::bad_days, rules::specs::Refusals::one_of))]
pub fn bad_days(h: Header, r: Row) -> bool
    ensures { result ≡ bad_days h r }
{
    r.first < 1 || r.last < r.first || h.days < r.last
}

// 9, of one consumer.
#[tactic(auto, unfolding(rules::specs::Refusals::high_consumer, rules::specs::Refusals::one_of))]
pub fn high_consumer(c: Consumer) -> bool
    ensures { result ≡ high_consumer c }
{
    too_high(c.contract) || too_high(c.peak)
}

// 12, of one consumer.
#[tactic(auto, unfolding(rules::specs::Refusals::bad_factor, rules::specs::Refusals::one_of))]
pub fn bad_factor(h: Header, c: Consumer) -> bool
    ensures { result ≡ bad_factor h c }
{
    h.days < c.supplier || h.days < c.grid || c.z < 10 || 100 < c.z
}
