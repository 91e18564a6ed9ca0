//! The text of all lines.
ghost use Rattle.std.specs.Prelude.{◌≡◌, ◌<◌, ◌≤◌, ◌↔◌, ℕ, List, length, codes, decimal, slice_get, Some};
ghost use Rattle.std.specs.Prelude.{OnOk, OnErr, IsTrue};
ghost use Rattle.std.specs.List.{flat_map};
ghost use Rattle.law_model.specs.Common.{Appends, AppendsPart, longest_input};
ghost use Rattle.law_model.specs.declared.script_types.Item.{Item};
ghost use Rattle.law_model.specs.declared.script_types.ItemKind.TheVariants.{Frame};
ghost use Rattle.text_scripts.specs.script_text.TextOuts.{Adds};
ghost use Rattle.text_scripts.specs.script_text.ScriptText.{spaced, number_line, line_if, network_text, timer_text};
ghost use Rattle.text_scripts.specs.script_text.ScriptText.{options_text, fail_line, failures_from, lost_line};
ghost use Rattle.text_scripts.specs.script_text.ScriptText.{item_line, script_text};

use crate::rate_load::LONGEST;
use crate::script_text::text_out::{TextOut, TextSize, TextWriter};
use law_model::{Config, FrameRoom, ItemList, ItemSort, Options, Script, Window, WindowLists};
use octet_io::{ByteSink, Failed, take_back};
use text_got::GotLines;
use text_report::TextCursor;

/// Adds a number behind a space.
fn add_number<T: TextOut>(number: u64, out: &mut T)
    ensures { Adds T.stands_for out.old out.new (spaced (decimal number)) }
{
    let mut room = [0u8; 32];
    let mut word = TextCursor::new(&mut room);
    word.number(b" ", number);
    let end = word.end();
    out.piece(&room[..end]);
}

/// Adds the line of some numbers.
fn add_numbers<T: TextOut>(keyword: &[u8], numbers: &[u64], out: &mut T)
    requires { length keyword.now ≤ 64 }
    ensures { Adds T.stands_for out.old out.new (number_line keyword.now numbers.now) }
{
    out.piece(keyword);
    for number in numbers {
        add_number(*number, out);
    }
    out.piece(b"\n");
}

/// Adds the line of the delays.
fn add_delays<T: TextOut>(delays: &[u16], out: &mut T)
    ensures { Adds T.stands_for out.old out.new (number_line (codes "delays") delays.now) }
{
    out.piece(b"delays");
    for delay in delays {
        add_number(*delay as u64, out);
    }
    out.piece(b"\n");
}

/// Adds a line where it stands.
fn add_if<T: TextOut>(stands: bool, line: &[u8], out: &mut T)
    requires { length line.now ≤ 64 }
    ensures { Adds T.stands_for out.old out.new (line_if stands line.now) }
{
    if stands {
        out.piece(line);
    }
}

/// Adds the lines of the network.
fn add_network<T: TextOut>(config: &Config, out: &mut T)
    ensures { Adds T.stands_for out.old out.new (network_text config.now) }
{
    add_if(config.size == 756, b"container vc3\n", out);
    add_numbers(b"lines", &[config.lines as u64], out);
    add_delays(&config.delays.0, out);
    add_numbers(b"ring", &[config.ring as u64], out);
    add_numbers(b"lag", &[config.lag as u64], out);
    add_numbers(b"ticks", &[config.ticks as u64], out);
}

/// Adds the line of a timer that isn't 0.
fn add_timer<T: TextOut>(keyword: &[u8], packets: u16, out: &mut T)
    requires { length keyword.now ≤ 64 }
    ensures { Adds T.stands_for out.old out.new (timer_text keyword.now packets) }
{
    if packets != 0 {
        add_numbers(keyword, &[packets as u64], out);
    }
}

/// Adds the lines of the options.
fn add_options<T: TextOut>(options: &Options, out: &mut T)
    ensures { Adds T.stands_for out.old out.new (options_text options.now) }
{
    add_if(options.infers, b"sink infers\n", out);
    add_timer(b"holdoff", options.holdoff, out);
    add_timer(b"restore", options.restore, out);
    add_if(options.statuses == 32, b"statuses 32\n", out);
}

/// Adds the lines of the windows of a line.
fn add_windows<T: TextOut>(line: usize, windows: &[Window], out: &mut T)
    ensures { Adds T.stands_for out.old out.new (flat_map (fail_line line) windows.now) }
{
    for window in windows {
        let (first, end) = (window.first as u64, window.end as u64);
        add_numbers(b"fail", &[line as u64, first, end, window.slip as u64], out);
    }
}

/// Adds those of all lines.
fn add_failures<T: TextOut>(lists: &WindowLists, out: &mut T)
    ensures { Adds T.stands_for out.old out.new (failures_from 0 lists.now) }
{
    for (line, windows) in lists.0.iter().enumerate() {
        add_windows(line, &windows.0, out);
    }
}

/// Adds the lines of the return windows.
fn add_losses<T: TextOut>(lost: &[(u32, u32)], out: &mut T)
    ensures { Adds T.stands_for out.old out.new (flat_map lost_line lost.now) }
{
    for window in lost {
        add_numbers(b"lost", &[window.0 as u64, window.1 as u64], out);
    }
}

/// Adds the line of the frame that is the item of a number.
fn add_frame<T: TextOut>(due: u32, items: &ItemList, number: u32, out: &mut T)
    requires { number < length items.now }
    ensures { (octets : List ℕ) →
        slice_get items.now number ≡ Some (record { due = due; kind = Frame octets }) →
        Adds T.stands_for out.old out.new (item_line (record { due = due; kind = Frame octets })) }
{
    out.piece(b"frame");
    add_number(due as u64, out);
    out.piece(b" ");
    out.digits(items, number);
    out.piece(b"\n");
}

/// Adds the line of the item of a number.
fn add_item<T: TextOut>(items: &ItemList, number: u32, out: &mut T)
    requires { number < length items.now }
    ensures { (item : Item) → slice_get items.now number ≡ Some item →
        Adds T.stands_for out.old out.new (item_line item) }
{
    let head = items.head(number);
    let due = head.due as u64;
    match head.sort {
        ItemSort::Frame(_) => add_frame(head.due, items, number, out),
        ItemSort::Add(line) => add_numbers(b"add", &[due, line as u64], out),
        ItemSort::Remove(line) => add_numbers(b"remove", &[due, line as u64], out),
    }
}

/// Adds the lines of all items.
fn add_items<T: TextOut>(items: &ItemList, out: &mut T)
    ensures { Adds T.stands_for out.old out.new (flat_map item_line items.now) }
{
    for number in 0..items.len() {
        if out.is_done() {
            return;
        }
        add_item(items, number, out);
    }
}

/// Adds all lines.
fn add_script<T: TextOut>(script: &Script, out: &mut T)
    ensures { Adds T.stands_for out.old out.new (script_text script.now) }
{
    add_network(&script.config, out);
    add_options(&script.config.options, out);
    add_failures(&script.config.windows, out);
    add_losses(&script.config.lost.0, out);
    add_items(&script.items, out);
}

/// Whether the text has more than 67,108,864 octets. No frame is drawn, and behind the item that exceeds them none is
/// looked at.
pub fn is_too_long(script: &Script) -> bool
    ensures { IsTrue result ↔ (longest_input < length (script_text script.now)) }
{
    let mut size = TextSize { octets: 0 };
    add_script(script, &mut size);
    size.octets > LONGEST
}

/// Writes the text of a script. The frames of its streams are drawn in the room.
pub fn write_script<K: ByteSink>(
    script: &Script,
    room: &mut FrameRoom,
    out: &mut K,
) -> Result<(), Failed>
    ensures ok { OnOk result (Appends K.written K.faults out.old out.new (script_text script.now)) }
    ensures err { OnErr result
        (AppendsPart K.written K.faults out.old out.new (script_text script.now)) }
{
    let mut writer = TextWriter {
        got: GotLines::new(out),
        room,
    };
    add_script(script, &mut writer);
    let TextWriter { got, room: _ } = writer;
    let (back, end) = got.finish();
    take_back(back);
    end
}
