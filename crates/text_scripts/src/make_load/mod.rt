//! Makes the script of a load from a number: lines whose delays are drawn, all added at once, and a frame for
//! each eight ticks, whose length and octets are drawn. The same number gives the same script, which meets
//! `IsValid` as one that was read does. Nothing is run here. Begin with `make`.

mod drawn_script;
mod load_draws;

pub use drawn_script::make;
