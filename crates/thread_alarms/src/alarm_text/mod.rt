//! Alarms as lines of text, those of line 0 first, of each line in their order. From what alarms come, and to
//! what output their lines go, is not its matter. Begin with `write_alarms`.

mod alarms_report;
mod text_of_alarm;

pub use alarms_report::write_alarms;
