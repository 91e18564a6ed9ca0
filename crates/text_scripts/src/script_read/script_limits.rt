//! The tests of a script all of whose lines are right: slips, the spread of the lines, and the lag.
ghost use Rattle.std.specs.Prelude.{◌≡◌, ◌+◌, ◌/◌, ◌≤◌, length, All, max, None, Some};
ghost use Rattle.law_model.specs.Common.{AreWindows, greatest, least, greatest_slip as greatest_slip_of};
ghost use Rattle.law_model.specs.Common.{most_lines, IsValid};
ghost use Rattle.text_scripts.specs.script_read.Script.{windows_fault, slip_fault, least_lag, config_fault};
ghost use Rattle.text_scripts.specs.script_read.Drafts.{AreFailures};
ghost use Rattle.text_scripts.specs.script_read.ScriptInPieces.{IsUntested};
ghost use Rattle.law_model.specs.Common.{most_windows};

use crate::script_read::script_fault::ScriptFault;
use law_model::{Config, Delays, Script, WindowList, WindowLists};
use member_path::failure_window::greatest_slip;

/// The first window of line `m` that slips too far.
fn fault_of_windows(m: u8, list: &WindowList) -> Option<ScriptFault>
    requires { length list.now ≤ most_windows }
    ensures { result ≡ windows_fault m 0 list.now }
{
    let mut i = 0u16;
    for window in &list.0 {
        if window.end.saturating_sub(window.first) <= u32::from(window.slip) {
            return Some(ScriptFault::Slip {
                line: m,
                window: i,
                slip: window.slip,
            });
        }
        i += 1;
    }
    None
}

/// The first window of all lines that slips too far.
fn fault_of_slips(lists: &WindowLists) -> Option<ScriptFault>
    requires few { length lists.now ≤ most_lines }
    requires each { All (λ list. length list ≤ most_windows) lists.now }
    ensures { result ≡ slip_fault 0 lists.now }
{
    let mut m = 0u8;
    for list in &lists.0 {
        if let Some(fault) = fault_of_windows(m, list) {
            return Some(fault);
        }
        m += 1;
    }
    None
}

/// The greatest slip of a line.
fn greatest_of_slips(lists: &WindowLists) -> u32
    requires { All (λ list. AreWindows 0 list) lists.now }
    ensures { result ≡ greatest_slip_of lists.now }
{
    let mut most = 0;
    for list in &lists.0 {
        most = most.max(greatest_slip(&list.0));
    }
    most
}

/// The greatest delay.
fn greatest_delay(delays: &Delays) -> u16
    ensures { result ≡ greatest delays.now }
{
    let mut most = 0;
    for delay in &delays.0 {
        most = most.max(*delay);
    }
    most
}

/// The least delay.
fn least_delay(delays: &Delays) -> u16
    ensures { result ≡ least delays.now }
{
    let Some((first, others)) = delays.0.split_first() else {
        return 0;
    };
    let mut low = *first;
    for delay in others {
        low = low.min(*delay);
    }
    low
}

/// The least lag in packets of a greatest delay and a greatest slip.
fn lag_for(slow: u16, slip: u32) -> u32
    ensures { result ≡ (16 + slow + slip + 15) / 16 }
{
    ((16 + u64::from(slow) + u64::from(slip) + 15) / 16) as u32
}

/// The least lag in packets that the delays and slips of a script allow.
pub fn least_lag(script: &Script) -> u32
    requires { IsValid script.now }
    ensures { result ≡ least_lag script.now.config }
{
    lag_for(
        greatest_delay(&script.config.delays),
        greatest_of_slips(&script.config.windows),
    )
}

/// What is wrong with the slips, the spread or the lag of a network, in this order.
pub(super) fn fault_of_config(config: &Config) -> Option<ScriptFault>
    requires few { length config.now.windows ≤ most_lines }
    requires each { All (AreFailures config.now.ticks) config.now.windows }
    ensures { result ≡ config_fault config.now }
{
    if let Some(fault) = fault_of_slips(&config.windows) {
        return Some(fault);
    }
    let slow = greatest_delay(&config.delays);
    let fast = least_delay(&config.delays);
    let slip = greatest_of_slips(&config.windows);
    let ring = config.ring;
    if u64::from(ring) < u64::from(slow.saturating_sub(fast)) + u64::from(slip) + 1 {
        return Some(ScriptFault::Spread {
            slow,
            fast,
            slip,
            ring,
        });
    }
    let lag = config.lag;
    let least = lag_for(slow, slip);
    if u32::from(lag) < least {
        return Some(ScriptFault::Lag {
            lag,
            least,
            slow,
            slip,
        });
    }
    None
}

/// What is wrong with the slips, the spread or the lag of a script whose lines have no fault, in this order.
pub fn limit_fault(script: &Script) -> Option<ScriptFault>
    requires { IsUntested script.now }
    ensures { result ≡ config_fault script.now.config }
{
    fault_of_config(&script.config)
}
