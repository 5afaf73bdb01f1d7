ghost use Rattle.std.specs.Prelude.{◌≡◌, ◌<◌, ◌≤◌, ◌^◌, ◌-◌, min, IfSome};
ghost use Rattle.ct_types.specs.Answers.{Gives};
ghost use Rattle.ct_bind_names.specs.Numbers as spec;

use ct_types::{ColType, Refusal, Retention, Text, TimeUnit, TypeName};

/// The number that digits spell, or the last one of 64 bits where it is above that.
#[tactic(auto, unfolding(crate::specs::Numbers::number_of))]
fn capped(digits: &[u8]) -> u64
    ensures { result ≡ min (spec.number_of digits.now) u64.MAX }
{
    let mut number: u64 = 0;
    for digit in digits {
        let digit = u64::from(digit.saturating_sub(48));
        number = number.saturating_mul(10).saturating_add(digit);
    }
    number
}

/// The number that digits of any width spell, if it is in the range.
#[tactic(auto, unfolding(crate::specs::Numbers::within))]
fn within(least: u64, most: u64, digits: &Text) -> Option<u64>
    requires { most < u64.MAX }
    ensures value { result ≡ spec.within least most digits.now }
    ensures least { IfSome result (λ n. least ≤ n) }
    ensures most { IfSome result (λ n. n ≤ most) }
{
    let number = capped(digits.as_str().as_bytes());
    if least <= number && number <= most {
        Some(number)
    } else {
        None
    }
}

/// The number of an expression: 8115 where it is above 9,223,372,036,854,775,807.
#[tactic(auto, unfolding(crate::specs::Numbers::literal))]
pub fn literal(digits: &Text) -> Result<i64, Refusal>
    ensures { result ≡ spec.literal digits.now }
{
    match within(0, 9_223_372_036_854_775_807, digits) {
        Some(number) => Ok(number as i64),
        None => Err(Refusal::Overflow),
    }
}

/// The type that is written: rule 4 of bad tables where NVARCHAR is not of 1 to 4,000 code points, or VARBINARY not of
/// 1 to 8,000 bytes.
#[tactic(auto, unfolding(crate::specs::Numbers::column_type))]
pub fn column_type(name: &TypeName) -> Result<ColType, Refusal>
    ensures { result ≡ spec.column_type name.now }
{
    match name {
        TypeName::Int => Ok(ColType::Int),
        TypeName::BigInt => Ok(ColType::BigInt),
        TypeName::NVarChar(digits) => match within(1, 4000, digits) {
            Some(most) => Ok(ColType::NVarChar(most as u16)),
            None => Err(Refusal::BadTable { rule: 4 }),
        },
        TypeName::VarBinary(digits) => match within(1, 8000, digits) {
            Some(most) => Ok(ColType::VarBinary(most as u16)),
            None => Err(Refusal::BadTable { rule: 4 }),
        },
    }
}

fn seconds_in(unit: TimeUnit) -> u64
    ensures value { result ≡ spec.seconds_in unit }
    ensures most { result ≤ 86400 }
{
    match unit {
        TimeUnit::Days => 86_400,
        TimeUnit::Hours => 3_600,
        TimeUnit::Minutes => 60,
    }
}

/// A retention in seconds: BadRetention where its number is not from 1 to 2,147,483,647.
#[tactic(auto, unfolding(crate::specs::Numbers::retention_of))]
pub fn retention_of(retention: &Retention) -> Result<u64, Refusal>
    ensures { result ≡ spec.retention_of retention.now }
{
    match within(1, 2_147_483_647, &retention.amount) {
        Some(number) => Ok(number * seconds_in(retention.unit)),
        None => Err(Refusal::BadRetention),
    }
}
