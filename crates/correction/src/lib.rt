// The financial correction (document 02, 5): the gaps between amounts and balanced energies at their prices, in cents.
#![tactic(auto)]

ghost use Rattle.std.specs.Prelude.{◌≡◌, true, cond, ◌&&◌, ◌<◌, ◌^◌, ◌+ℤ◌, length};
ghost use Rattle.std.specs.Int.Signed.{mag};
ghost use Rattle.std.specs.List.{list_all};
ghost use Rattle.rules.specs.Refusals.{bad_energies, bad_price};
ghost use Rattle.rules.specs.Correction.{gaps_of, is_energy, is_price, energies_allowed, price_allowed, cost_of, money_of, correction_over, correction, corrected_of};
ghost use Rattle.rules.specs.Promises.{Corrects};
ghost use Rattle.rules.specs.Results.{number, outcome};
ghost use Rattle.correction.specs.Gaps.{meant};

use rules::{Corrected, MillionthCent, Money, Price, Refusal};
use units::WattHour;

// ---- one quarter

fn is_energy(energy: WattHour) -> bool
    ensures { result ≡ is_energy energy.0 }
{
    (-1000000000..=1000000000).contains(&energy.0)
}

fn is_price(price: Price) -> bool
    ensures { result ≡ is_price price }
{
    (-1000000..=1000000).contains(&price.0)
}

// A quarter's amount and balanced energy, and its price.
#[derive(Clone, Copy)]
struct Gap {
    amount: WattHour,
    balanced: WattHour,
    price: Price,
}

fn is_allowed(gap: Gap) -> bool
    ensures { result ≡ (energies_allowed (meant gap) && price_allowed (meant gap)) }
{
    is_energy(gap.amount) & is_energy(gap.balanced) & is_price(gap.price)
}

// (amount - balanced) × price: at most 2 × 10^15 either way.
#[tactic(auto, using(crate::proofs::Costs::cost_fits, crate::proofs::Costs::cost_is))]
fn cost_of(gap: Gap) -> MillionthCent
    requires price_value { energies_allowed (meant gap) ≡ true }
    requires price_value_2 { price_allowed (meant gap) ≡ true }
    ensures { result ≡ cost_of (meant gap) }
{
    MillionthCent((gap.amount.0 - gap.balanced.0) * gap.price.0)
}

// A function, since MillionthCent is a type of crate rules: only there could an impl of Add for it stand.
fn plus(a: MillionthCent, b: MillionthCent) -> MillionthCent
    requires { mag (a.0 +ℤ b.0) < 2 ^ 63 }
    ensures { result.0 ≡ a.0 +ℤ b.0 }
{
    MillionthCent(a.0 + b.0)
}

// ---- whole cents

// Rounded down.
fn money_of(exact: MillionthCent) -> Money
    ensures { result ≡ money_of exact }
{
    Money {
        cents: exact.0.div_euclid(1000000),
        remainder: exact.0.rem_euclid(1000000) as u64,
    }
}

// ---- the lists

// By their places, where all() would do: so that a place which is passed over is refused at what the loop keeps, and not for its form.
fn all_energies(energies: &[i64]) -> bool
    ensures { result ≡ list_all is_energy energies.now }
{
    for place in 0..energies.len() {
        if !is_energy(WattHour(energies[place])) {
            return false;
        }
    }
    true
}

// Asked where a quarter isn't allowed, of the energies from it on: 20 where one of these is beyond its range, else 21, for the price.
fn refusal_from(amounts: &[i64], balanced: &[i64]) -> Refusal
    ensures { number result ≡ cond (list_all is_energy amounts.now && list_all is_energy balanced.now) bad_price bad_energies }
{
    if all_energies(amounts) && all_energies(balanced) {
        return Refusal::BadPrice;
    }
    Refusal::BadEnergies
}

// Lists that are equally long, in one pass up to the first quarter that isn't allowed.
fn correction_over(amounts: &[i64], balanced: &[i64], prices: &[i64]) -> Result<Money, Refusal>
    requires { (length balanced.now ≡ length amounts.now) × (length prices.now ≡ length amounts.now) }
    ensures { outcome result ≡ correction_over (gaps_of amounts.now balanced.now prices.now) }
{
    if 2976 < amounts.len() {
        return Err(Refusal::BadEnergies);
    }
    let mut exact = MillionthCent(0);
    // A zip of the three lists would look for an end once more in every quarter.
    for (i, amount) in amounts.iter().enumerate() {
        let gap = Gap {
            amount: WattHour(*amount),
            balanced: WattHour(balanced[i]),
            price: Price(prices[i]),
        };
        if !is_allowed(gap) {
            return Err(refusal_from(&amounts[i..], &balanced[i..]));
        }
        exact = plus(exact, cost_of(gap));
    }
    Ok(money_of(exact))
}

// Amounts and balanced energies in Wh, prices in cents per MWh, a place of each list for every quarter.
pub fn correction(amounts: &[i64], balanced: &[i64], prices: &[i64]) -> Result<Money, Refusal>
    ensures is { outcome result ≡ correction amounts.now balanced.now prices.now }
    ensures corrects { Corrects amounts.now balanced.now prices.now (corrected_of (outcome result)) }
{
    if balanced.len() != amounts.len() || prices.len() != amounts.len() {
        return Err(Refusal::UnequalLists);
    }
    correction_over(amounts, balanced, prices)
}

// As document 01 has every call tell it: the number of its refusal or 0, and zero for both results where it is refused.
pub fn corrected(answer: Result<Money, Refusal>) -> Corrected
    ensures { result ≡ corrected_of (outcome answer) }
{
    match answer {
        Ok(money) => Corrected { refusal: 0, money },
        Err(refusal) => Corrected {
            refusal: refusal.number() as u64,
            money: Money {
                cents: 0,
                remainder: 0,
            },
        },
    }
}
