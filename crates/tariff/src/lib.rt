// The lending tariff (document 02, P14): what lending an object costs, in cents.
#![tactic(auto)]

ghost use Rattle.std.specs.Prelude.{◌≡◌, ◌≤◌};
ghost use Rattle.tariff.specs.Tariff.{addends, payable, fee_of, fee_charged, fee_told, lending_fee};

use part_counts::count_parts;
use units::Refusal;

// The most words of an object that is lent.
const MOST_WORDS: u64 = 16_777_216;

// What lending an object costs, and its three addends before the reduction.
#[derive(Clone, Copy)]
pub struct Fee {
    pub fee: u64,
    pub base: u64,
    pub words: u64,
    pub labels: u64,
}

// "A member college pays 70 percent of the sum, rounded to the nearest cent, halves up."
fn payable(sum: u64, member: bool) -> u64
    requires { sum ≤ 0x1_0000_0000 }
    ensures { result ≡ payable member sum }
{
    if member {
        return (70 * sum + 50) / 100;
    }
    sum
}

// "150, plus 4 for each started 256 words of the holding, plus 1 per label", of so many words and labels.
fn charge(words: u64, labels: u64, member: bool) -> Fee
    requires { (words ≤ 16_777_216) × (labels ≤ words) }
    ensures { fee_charged result ≡ fee_of member (addends words labels) }
{
    let started = 4 * ((words + 255) / 256);
    Fee {
        fee: payable(150 + started + labels, member),
        base: 150,
        words: started,
        labels,
    }
}

// What lending an object costs a member college, or another one.
pub fn lending_fee(object: &[u32], member: bool) -> Result<Fee, Refusal>
    ensures { fee_told result ≡ lending_fee object.now member }
{
    well_formed::check(object)?;
    let words = object.len() as u64;
    if MOST_WORDS < words {
        return Err(Refusal::TooManyWords);
    }
    let counts = count_parts(object);
    Ok(charge(words, counts.labels, member))
}
