//! The channels with a frame, by rising number: whose turn it is costs as much as the number of these has digits,
//! however many channels are silent.

ghost use Rattle.std.specs.Prelude.{◌≡◌, ◌≤◌, ◌<◌, All, length, take, drop, insert, vec_len, vec_capacity};
ghost use Rattle.gfp_channels.specs.gfp_linear.Queue.{IsRising};

/// How many of rising numbers are below another one.
pub(super) fn count_below(busy: &[u8], least: u16) -> usize
    requires { IsRising busy.now }
    ensures within { result ≤ length busy.now }
    ensures below { All (λ cid. cid < least) (take result busy.now) }
    ensures from { All (λ cid. least ≤ cid) (drop result busy.now) }
{
    let mut low = 0;
    let mut high = busy.len();
    while low < high {
        let middle = low + (high - low) / 2;
        if u16::from(busy[middle]) < least {
            low = middle + 1;
        } else {
            high = middle;
        }
    }
    low
}

/// Puts a number among others, where there is room.
pub(super) fn add(busy: &mut Vec<u8>, at: usize, cid: u8)
    requires place { at ≤ vec_len busy.old }
    requires room { vec_len busy.old < vec_capacity busy.old }
    ensures items { busy.new.items ≡ insert busy.old.items at cid }
    ensures capacity { vec_capacity busy.old ≤ vec_capacity busy.new }
{
    match busy.insert(at, cid) {
        Ok(()) => {}
        Err(_) => unreachable!(),
    }
}
