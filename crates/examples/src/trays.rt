// The tray.
use crate::page;
use tray::Tray;

// The sixteen entries 10, 20, .. 160.
fn full_tray() -> Tray {
    Tray {
        count: 16,
        entries: [
            10, 20, 30, 40, 50, 60, 70, 80, 90, 100, 110, 120, 130, 140, 150, 160,
        ],
    }
}

// The entries 10, 20 and 40, and what stands behind them.
fn tray_of_three(behind: u64) -> Tray {
    Tray {
        count: 3,
        entries: [10, 20, 40, behind, 0, 0, 0, 0, 0, 0, 0, 0, 0, 0, 0, 0],
    }
}

// What the tray answers, and holds afterwards.
fn handed_in(tray: Tray, entry: u64) {
    let after = page::answer(tray::with_entry(tray, entry), tray);
    page::numbers(&after.entries, after.count);
}

pub(crate) fn all() {
    // A held entry into a full tray is 5.
    handed_in(full_tray(), 30);
    // A seventeenth entry is 6.
    handed_in(full_tray(), 35);
    // An unsound tray is 2: the place behind the three is in use, and not counted.
    handed_in(tray_of_three(50), 30);
    // An entry goes to its place.
    handed_in(tray_of_three(0), 30);
}
