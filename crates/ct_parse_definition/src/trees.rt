//! What the rules make of their parts.

ghost use Rattle.std.specs.Prelude.{◌≡◌};
ghost use Rattle.ct_parse_definition.specs.Grammar as spec;

use ct_grammar::Kind;
use ct_types::{ObjectName, Stmt, TimeUnit, TrackingOptions};

/// A unit of a retention, by its word.
pub fn unit_of(word: Kind) -> TimeUnit
    ensures { result ≡ spec.unit_of word }
{
    match word {
        Kind::Days => TimeUnit::Days,
        Kind::Hours => TimeUnit::Hours,
        _ => TimeUnit::Minutes,
    }
}

/// Whether the word is ON.
pub fn is_on(word: Kind) -> bool
    ensures { result ≡ spec.is_on word }
{
    match word {
        Kind::On => true,
        _ => false,
    }
}

/// The options that are written, or none.
pub fn options_in(options: Option<TrackingOptions>) -> TrackingOptions
    ensures { result ≡ spec.options_in options }
{
    match options {
        None => TrackingOptions {
            retention: None,
            cleanup: None,
        },
        Some(options) => options,
    }
}

/// The switch that is written, or off.
pub fn on_in(switch: Option<bool>) -> bool
    ensures { result ≡ spec.on_in switch }
{
    match switch {
        None => false,
        Some(on) => on,
    }
}

/// ALTER TABLE, by whether ENABLE is written, and its switch.
pub fn tracking_of(table: ObjectName, enabled: Option<bool>) -> Stmt
    ensures { result ≡ spec.tracking_of table enabled }
{
    match enabled {
        None => Stmt::DisableTracking { table },
        Some(columns_updated) => Stmt::EnableTracking {
            table,
            columns_updated,
        },
    }
}
