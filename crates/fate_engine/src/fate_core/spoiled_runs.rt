//! The runs of rows that aren't whole for one cause.
ghost use Rattle.std.specs.Prelude.{◌≡◌, ◌+◌, ◌<◌, ◌==◌, ◌&&◌, [], ◌∷◌, ◌++◌, List, OnOk, OnErr, Option};
ghost use Rattle.fate_engine.specs.declared.fate_law.Cause.{Cause as CauseData};
ghost use Rattle.fate_engine.specs.fate_law.RowCauses.{same_cause, spoiled_runs};
ghost use Rattle.fate_engine.specs.fate_core.Runs.{AreRuns, with_row};

use crate::fate_law::{Cause, SpoiledRun};
use std::alloc::{AllocError, Global};
use std::marker::Model;

/// Whether a row goes on with a run: it comes behind it, and isn't whole for the same cause.
fn goes_on(run: &SpoiledRun, row: u32, cause: Cause) -> bool
    ensures { result ≡ (run.now.end == row && same_cause run.now.cause cause) }
{
    run.end == row && run.cause == cause
}

/// A row behind runs of rows before it: it goes on with the last run, where that ends there and has its cause.
fn add_row(runs: &mut Vec<SpoiledRun>, row: u32, cause: Cause) -> Result<(), AllocError>
    requires { row < 4294967295 }
    ensures ok { OnOk result (runs.new.items ≡ with_row row cause runs.old.items) }
    ensures err { OnErr result (runs.new.items ≡ runs.old.items) }
{
    let n = runs.len();
    if n > 0 && goes_on(&runs[n - 1], row, cause) {
        runs[n - 1].end = row + 1;
        return Ok(());
    }
    runs.push(SpoiledRun {
        first: row,
        end: row + 1,
        cause,
    })?;
    Ok(())
}

/// The longest runs of rows that aren't whole for one cause, of as many rows as were told.
#[derive(Drop)]
pub struct SpoiledRuns {
    rows: u32,
    runs: Vec<SpoiledRun>,
}

impl Model for SpoiledRuns {
    ghost use Rattle.fate_engine.specs.fate_core.Runs.{RunList};

    ghost Value = { RunList };

    ghost view = { λ s. record { rows = s.rows; runs = s.runs.items } };
}

impl SpoiledRuns {
    /// Before any row.
    pub fn new(alloc: Global) -> SpoiledRuns
        ensures { AreRuns result [] }
    {
        SpoiledRuns {
            rows: 0,
            runs: Vec::new(alloc),
        }
    }

    /// Takes the next row: why it isn't whole, or `None` where it is. Where memory is short nothing changes.
    pub fn row(&mut self, cause: Option<Cause>) -> Result<(), AllocError>
        requires { self.old.rows < 4294967295 }
        ensures ok { (causes : List (Option CauseData)) → AreRuns self.old causes →
            OnOk result (AreRuns self.new (causes ++ cause ∷ [])) }
        ensures rows { OnOk result (self.new.rows ≡ self.old.rows + 1) }
        ensures err { OnErr result (self.new ≡ self.old) }
    {
        if let Some(cause) = cause {
            add_row(&mut self.runs, self.rows, cause)?;
        }
        self.rows += 1;
        Ok(())
    }

    /// The runs, in order.
    pub fn runs(&self) -> &[SpoiledRun]
        ensures { (causes : List (Option CauseData)) → AreRuns self.now causes →
            result.now ≡ spoiled_runs 0 causes }
    {
        &self.runs
    }
}
