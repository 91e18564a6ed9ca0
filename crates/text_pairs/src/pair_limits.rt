//! The tests of two scripts all of whose lines are right: of each by itself, and of both together.
ghost use Rattle.std.specs.Prelude.{◌≡◌};
ghost use Rattle.law_model.specs.Common.{IsValid};
ghost use Rattle.text_scripts.specs.script_read.ScriptInPieces.{IsUntested};
ghost use Rattle.text_pairs.specs.PairOfText.{alone_fault, limits_fault, unlike_fault};

use crate::script_pair::{PairFault, ScriptPair};
use law_model::Script;
use law_pair::Way;
use text_scripts::script_read::{least_lag, limit_fault};

/// What one of two scripts has that a script of a pair doesn't.
fn alone_fault(there: &Script, back: &Script) -> Option<PairFault>
    ensures { result ≡ alone_fault there.now back.now }
{
    if !there.config.lost.0.is_empty() {
        return Some(PairFault::Lost { way: Way::There });
    }
    if !back.config.lost.0.is_empty() {
        return Some(PairFault::Lost { way: Way::Back });
    }
    if !there.events.0.is_empty() {
        return Some(PairFault::Events { way: Way::There });
    }
    if !back.events.0.is_empty() {
        return Some(PairFault::Events { way: Way::Back });
    }
    None
}

/// What keeps two scripts from going together.
fn unlike_fault(there: &Script, back: &Script) -> Option<PairFault>
    requires there { IsValid there.now }
    requires back { IsValid back.now }
    ensures { result ≡ unlike_fault there.now back.now }
{
    if there.config.lag != back.config.lag || there.config.lag > 256 {
        return Some(PairFault::Lag {
            there: there.config.lag,
            back: back.config.lag,
            least: least_lag(there).max(least_lag(back)),
        });
    }
    if there.config.ticks != back.config.ticks {
        return Some(PairFault::Ticks {
            there: there.config.ticks,
            back: back.config.ticks,
        });
    }
    None
}

/// What is wrong with the scripts of a pair as a whole: with the first, with the second, and then with both together.
pub fn limits_fault(pair: &ScriptPair) -> Option<PairFault>
    requires there { IsUntested pair.now.there }
    requires back { IsUntested pair.now.back }
    ensures { result ≡ limits_fault pair.now }
{
    if let Some(fault) = limit_fault(&pair.there) {
        return Some(PairFault::Limit {
            way: Way::There,
            fault,
        });
    }
    if let Some(fault) = limit_fault(&pair.back) {
        return Some(PairFault::Limit {
            way: Way::Back,
            fault,
        });
    }
    if let Some(fault) = alone_fault(&pair.there, &pair.back) {
        return Some(fault);
    }
    unlike_fault(&pair.there, &pair.back)
}
