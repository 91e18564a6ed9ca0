//! The script of a load.
ghost use Rattle.std.specs.Prelude.{◌≡◌, ◌≤◌, ◌++◌, length, IfOk, OnOk};
ghost use Rattle.law_model.specs.Common.{IsValid, IsWithin, most_drawn_ticks, longest_offer};
ghost use Rattle.text_scripts.specs.make_load.Load.{frame_of, after_frame, additions, frames, frame_count, load};

use crate::make_load::load_draws::{draw_delays, draw_octets};
use crate::window_lists::no_windows;
use law_model::{Config, EventList, Item, ItemKind, ItemList, LostList, Octets, Options, Script};
use law_rates::Draws;
use std::alloc::{AllocError, Global};

/// A frame: its length, and its octets.
#[tactic(auto, using(crate::proofs::DrawnLoadLaws::short_frame))]
fn frame(alloc: Global, draws: &mut Draws) -> Result<Octets, AllocError>
    ensures octets { IfOk result (λ octets. octets ≡ frame_of draws.old.state) }
    ensures short { IfOk result (λ octets. length octets ≤ longest_offer) }
    ensures state { OnOk result (draws.new.state ≡ after_frame draws.old.state) }
{
    let count = 64 + draws.below(1455) as usize;
    draw_octets(alloc, draws, count)
}

/// The addition of each line.
#[tactic(auto, using(crate::proofs::DrawnLoadLaws::additions_next))]
fn add_lines(alloc: Global, lines: u8) -> Result<ItemList, AllocError>
    ensures items { IfOk result (λ items. items ≡ additions lines) }
    ensures few { IfOk result (λ items. length items ≤ lines) }
{
    let mut items = ItemList::new(alloc);
    for line in 0..lines {
        items.push(Item {
            due: 0,
            kind: ItemKind::Add(line),
        })?;
    }
    Ok(items)
}

/// Appends a frame for each eight ticks that are begun.
#[tactic(auto, using(crate::proofs::DrawnLoadLaws::frames_next, crate::proofs::DrawnLoadLaws::frames_end))]
fn add_frames(
    alloc: Global,
    items: &mut ItemList,
    ticks: u32,
    draws: &mut Draws,
) -> Result<(), AllocError>
    requires ticks { ticks ≤ most_drawn_ticks }
    requires few { length items.old ≤ 255 }
    ensures { OnOk result
        (items.new ≡ items.old ++ frames (frame_count ticks) 0 draws.old.state) }
{
    for k in 0..ticks.div_ceil(8) {
        let octets = frame(alloc, draws)?;
        items.push(Item {
            due: 8 * k,
            kind: ItemKind::Frame(octets),
        })?;
    }
    Ok(())
}

/// The script that is drawn from a number.
fn draw(alloc: Global, number: u64, lines: u8, ticks: u32) -> Result<Script, AllocError>
    requires { ticks ≤ most_drawn_ticks }
    ensures { IfOk result (λ script. script ≡ load number lines ticks) }
{
    let mut draws = Draws::new(number);
    let delays = draw_delays(alloc, &mut draws, lines)?;
    let windows = no_windows(alloc, lines)?;
    let mut items = add_lines(alloc, lines)?;
    add_frames(alloc, &mut items, ticks, &mut draws)?;
    Ok(Script {
        config: Config {
            lines,
            delays,
            windows,
            lost: LostList(Vec::new(alloc)),
            ring: 64,
            lag: 4,
            ticks,
            size: 2340,
            options: Options::default(),
        },
        items,
        events: EventList(Vec::new(alloc)),
    })
}

/// The script that is drawn from a number, for 1 to 64 lines and 1 to 1,000,000 ticks: VC-4, rings of 64
/// cells, a lag of 4 packets, no failures and no event lines. Each line has a delay of up to 40 frames and is
/// added at once. A frame of 64 to 1,518 octets is due at each eighth tick from 0 on.
#[tactic(auto, using(crate::proofs::DrawnLoadLaws::is_valid))]
pub fn make(alloc: Global, number: u64, lines: u8, ticks: u32) -> Result<Script, AllocError>
    requires lines { IsWithin 1 64 lines }
    requires ticks { IsWithin 1 most_drawn_ticks ticks }
    ensures load { IfOk result (λ script. script ≡ load number lines ticks) }
    ensures valid { IfOk result IsValid }
{
    draw(alloc, number, lines, ticks)
}
