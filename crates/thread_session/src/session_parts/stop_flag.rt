//! Flags that tell threads to come back, and the evidence with which they do.
ghost use Rattle.std.specs.Prelude.{◌≡◌};
ghost use Rattle.thread_session.specs.session_parts.Flags.{flag_of, heeded, stored_flag};

use crate::session_parts::thread_bell::Bell;
use std::snapshot::Snapshot;
use std::sync::{OnceLock, OnceToken, Wait};
use std::thread::Promise;

/// A flag that tells a thread to come back, and the bell at which is rung for that thread. Once the flag is
/// stored it stays so.
#[derive(Drop)]
pub struct Flag {
    stored: OnceLock<()>,
    /// The bell of the thread. Storing rings it too.
    pub bell: Bell,
}

/// What a thread has of its flag: it can look at it and wait for it, also at its bell, but not store it.
#[derive(Clone, Copy)]
pub struct Heed<'s> {
    flag: &'s Flag,
}

/// Evidence that a flag was stored, for one that outlives the flag. It is made of a token of that flag alone.
#[derive(Drop)]
pub struct Stored(Snapshot<Flag>);

/// What a thread promises that comes back with nothing else: evidence that its flag was stored.
#[derive(Drop)]
pub struct Comes(Snapshot<Flag>);

impl<'s> Promise<OnceToken<'s, ()>> for Comes {
    ghost use Rattle.std.specs.Prelude.{◌≡◌};
    ghost use Rattle.thread_session.specs.session_parts.Flags.{flag_of};

    ghost kept_by = { λ comes told. told.of ≡ flag_of comes.0.value };
}

impl Comes {
    ghost use Rattle.std.specs.Prelude.{◌≡◌};
    ghost use Rattle.thread_session.specs.session_parts.Flags.{flag_of, comes_by};

    /// The promise to come back by this flag.
    pub fn by(flag: &Flag) -> Comes
        ensures { comes_by result ≡ flag_of flag.now }
    {
        Comes(Snapshot::of(flag))
    }
}

impl Flag {
    ghost use Rattle.std.specs.Prelude.{◌≡◌};
    ghost use Rattle.thread_session.specs.session_parts.Flags.{flag_of, heeded};

    /// A flag that isn't stored.
    pub fn new() -> Flag {
        Flag {
            stored: OnceLock::new(),
            bell: Bell::new(),
        }
    }

    /// Stores it, if it isn't stored yet, rings, and gives the evidence.
    pub fn store<R: Wait>(&self, rt: &R) -> OnceToken<'_, ()>
        ensures { result.of ≡ flag_of self.now }
    {
        let told = match self.stored.try_insert(rt, ()) {
            Ok(told) => told,
            Err((told, ())) => told,
        };
        self.bell.ring();
        told
    }

    /// What its thread has of it.
    pub(crate) fn heed(&self) -> Heed<'_>
        ensures { heeded result ≡ flag_of self.now }
    {
        Heed { flag: self }
    }
}

impl<'s> Heed<'s> {
    ghost use Rattle.std.specs.Prelude.{◌≡◌, IfSome};
    ghost use Rattle.thread_session.specs.session_parts.Flags.{heeded, stored_flag};

    /// The evidence that it was stored, if it was.
    pub fn told(self) -> Option<OnceToken<'s, ()>>
        ensures { IfSome result (λ told. told.of ≡ heeded self.entry) }
    {
        self.flag.stored.witness()
    }

    /// Takes note of all rings so far, and then gives the evidence that it was stored, if it was. What is
    /// stored after the look is rung after the note.
    pub fn note(self) -> Option<OnceToken<'s, ()>>
        ensures { IfSome result (λ told. told.of ≡ heeded self.entry) }
    {
        self.flag.bell.note();
        self.told()
    }

    /// The bell at which is rung for its thread.
    pub(crate) fn bell(self) -> &'s Bell {
        &self.flag.bell
    }

    /// Sleeps until it is stored.
    pub fn wait<R: Wait>(self, rt: &R) -> OnceToken<'s, ()>
        ensures { result.of ≡ heeded self.entry }
    {
        for _ in rt.forever() {
            if let Some(told) = self.told() {
                return told;
            }
            self.flag.stored.wait(rt);
        }
        unreachable!()
    }

    /// The evidence of a token that it was stored.
    pub fn stored(self, told: &OnceToken<'_, ()>) -> Stored
        requires { told.now.of ≡ heeded self }
        ensures { stored_flag result ≡ heeded self.entry }
    {
        let _ = told;
        Stored(Snapshot::of(self.flag))
    }
}
