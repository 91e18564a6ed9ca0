//! The script of one way of a pair: what the other way loses of its return packets stands in it as lost lines.
ghost use Rattle.std.specs.Prelude.{◌≡◌, ◌⊎◌, ℕ, ◌<◌, ◌≤◌, true, false, length, [], ◌∷◌};
ghost use Rattle.std.specs.Prelude.{IfNone, IfSome, IfOk, IfErr, Ok, Err};
ghost use Rattle.law_model.specs.Common.{most_packets, most_windows};
ghost use Rattle.law_pair.specs.Common.{IsPair, IsWay, is_unheard, unheard, way_config};
ghost use Rattle.text_pairs.specs.Pieces.{no_memory};
ghost use Rattle.pair_walk.specs.OneWay.{few_runs, one_way_of, runs_left, way_script_of};

use fate_engine::fate_core::is_heard;
use law_model::{LostList, Script};
use law_pair::Way;
use std::alloc::{AllocError, Global};
use text_pairs::{PairFault, ScriptPair};
use text_scripts::script_read::ScriptFault;

/// Whether a return packet is lost since no line of the other way has the packet that carries it.
fn is_unheard(other: &Script, packet: u32) -> bool
    requires other { IsWay other.now }
    requires packet { packet ≤ most_packets }
    ensures { result ≡ is_unheard other.now packet }
{
    !is_heard(&other.config.windows, packet + u32::from(other.config.lag))
}

/// The return packet behind a run of lost ones: the first that is heard from one on, or how many packets there are.
fn run_end(other: &Script, from: u32, packets: u32) -> u32
    requires other { IsWay other.now }
    requires within { from ≤ packets }
    requires packets { packets ≤ most_packets }
    ensures within { (from ≤ result) × (result ≤ packets) }
    ensures lost { (k : ℕ) → from ≤ k → k < result → is_unheard other.now k ≡ true }
    ensures heard { result < packets → is_unheard other.now result ≡ false }
{
    for packet in from..packets {
        if !is_unheard(other, packet) {
            return packet;
        }
    }
    packets
}

/// The next longest run of lost return packets from one on that isn't within a run.
fn next_run(other: &Script, from: u32, packets: u32) -> Option<(u32, u32)>
    requires other { IsWay other.now }
    requires packets { packets ≤ most_packets }
    ensures none { IfNone result (runs_left other.now from packets ≡ []) }
    ensures some { IfSome result (λ run. runs_left other.now from packets
        ≡ run ∷ runs_left other.now run.1 packets) }
    ensures rises { IfSome result (λ run. (from < run.1) × (run.1 ≤ packets)) }
{
    for packet in from..packets {
        if is_unheard(other, packet) {
            return Some((packet, run_end(other, packet + 1, packets)));
        }
    }
    None
}

/// How many longest runs of lost ones there are among some first return packets.
fn run_count(other: &Script, packets: u32) -> u32
    requires other { IsWay other.now }
    requires packets { packets ≤ most_packets }
    ensures { result ≡ length (unheard other.now packets) }
{
    let mut runs = 0;
    let mut from = 0;
    while let Some((_, end)) = next_run(other, from, packets) {
        runs += 1;
        from = end;
    }
    runs
}

/// These runs.
fn all_runs(alloc: Global, other: &Script, packets: u32) -> Result<Vec<(u32, u32)>, AllocError>
    requires other { IsWay other.now }
    requires packets { packets ≤ most_packets }
    ensures { IfOk result (λ runs. runs.items ≡ unheard other.now packets) }
{
    let mut runs = Vec::new(alloc);
    let mut from = 0;
    while let Some((first, end)) = next_run(other, from, packets) {
        runs.push((first, end))?;
        from = end;
    }
    Ok(runs)
}

/// The script of a way beside the script of the other one.
fn one_way(alloc: Global, mut script: Script, other: &Script) -> Result<Script, PairFault>
    requires way { IsWay script }
    requires other { IsWay other.now }
    ensures script { IfOk result (λ own. few_runs (one_way_of script other.now) ≡ Ok own) }
    ensures fault { IfErr result (λ fault. (fault ≡ no_memory) ⊎
        (few_runs (one_way_of script other.now) ≡ Err fault)) }
{
    let packets = script.config.ticks.saturating_sub(8) / 16;
    let runs = run_count(other, packets);
    if runs > 256 {
        return Err(PairFault::Runs { runs });
    }
    match all_runs(alloc, other, packets) {
        Ok(runs) => {
            script.config.lag *= 2;
            script.config.lost = LostList(runs);
            Ok(script)
        }
        Err(AllocError) => Err(PairFault::Script(ScriptFault::Memory)),
    }
}

/// The script of one way of a pair: its own script with twice the lag, and with the longest runs of its return packets
/// that no line of the other way carries as lost lines. It is refused where these are more than 256.
pub fn way_script(alloc: Global, pair: ScriptPair, way: Way) -> Result<Script, PairFault>
    requires { IsPair pair.there pair.back }
    ensures script { IfOk result (λ script. way_script_of way pair ≡ Ok script) }
    ensures fault { IfErr result (λ fault. (fault ≡ no_memory) ⊎
        (way_script_of way pair ≡ Err fault)) }
{
    let ScriptPair { there, back } = pair;
    match way {
        Way::There => one_way(alloc, there, &back),
        Way::Back => one_way(alloc, back, &there),
    }
}
