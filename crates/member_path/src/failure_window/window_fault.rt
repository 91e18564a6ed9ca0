//! What can be wrong with a list of windows, and the test that finds it.
ghost use Rattle.std.specs.Prelude.{◌≡◌, ◌≤◌, length};
ghost use Rattle.member_path.specs.failure_window.FaultOfList.{fault_of, window_fault};
ghost use Rattle.law_model.specs.Common.{most_windows};

use law_model::Window;
use thiserror::Error;

/// Why a list of windows is refused. Windows are counted from 0.
#[derive(Clone, Copy, Debug, PartialEq, Eq, Error)]
pub enum WindowFault {
    /// The end of window `i` isn't above its first container.
    #[error("window {i} is empty")]
    Empty { i: u16 },
    /// Window `i` begins below the end of the window before it.
    #[error("window {i} begins before the end of the one before it")]
    Overlap { i: u16 },
    /// Window `i` lets as many containers vanish as it damages, or more.
    #[error("window {i} lets all its containers vanish")]
    SlipTooLong { i: u16 },
    /// There was no memory for the list.
    #[error("no memory for the windows")]
    Memory,
}

/// The fault of window `i`, where the window before it ends at `end`.
fn fault_of_window(i: u16, end: u32, window: &Window) -> Option<WindowFault>
    ensures { result ≡ fault_of i end window.now }
{
    if window.first >= window.end {
        Some(WindowFault::Empty { i })
    } else if window.first < end {
        Some(WindowFault::Overlap { i })
    } else if u32::from(window.slip) >= window.end - window.first {
        Some(WindowFault::SlipTooLong { i })
    } else {
        None
    }
}

// The first fault of a list.
pub(super) fn first_fault(list: &[Window]) -> Option<WindowFault>
    requires { length list.now ≤ most_windows }
    ensures { result ≡ window_fault list.now }
{
    let mut end = 0;
    for (i, window) in list.iter().enumerate() {
        if let Some(fault) = fault_of_window(i as u16, end, window) {
            return Some(fault);
        }
        end = window.end;
    }
    None
}
