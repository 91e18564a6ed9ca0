//! Tests of single parts of several sections by their calls: check sums, headers and places of cells, the two ends of a
//! stream, the tables of source and sink and their terminals, rows over lines that fail, the gates that workers pass, a
//! queue of alarms, a group for a lock, and readers and writers that fail. Nothing is here but tests; those of what a
//! command shows are in `command_walk_tests` and `command_live_tests`. Begin with `gfp_streams`, which has whole
//! streams.
#![tactic(auto)]

#[cfg(test)]
mod alarm_queue;
#[cfg(test)]
mod cell_in_hand;
#[cfg(test)]
mod drawn_sources;
#[cfg(test)]
mod gates_of_workers;
#[cfg(test)]
mod gfp_streams;
#[cfg(test)]
mod group_state;
#[cfg(test)]
mod realignment;
#[cfg(test)]
mod sink_groups;
#[cfg(test)]
mod sink_table;
#[cfg(test)]
mod std_streams;
#[cfg(test)]
mod worked_octets;
