//! The commands, each in a room of its own: what it reads, runs and writes, and how it ends. Of those of both ways only
//! the words are here.

pub(super) mod au4;
pub(super) mod capture;
pub(super) mod channels;
pub(super) mod check;
pub(super) mod decode;
pub(super) mod fates;
pub(super) mod frames;
pub(super) mod gfp;
pub(super) mod h4;
pub(super) mod live;
pub(super) mod make;
pub(super) mod noise;
pub(super) mod service;
pub(super) mod stream;
pub(super) mod trace;
pub(super) mod walk;
pub(super) mod words_of_pairs;
