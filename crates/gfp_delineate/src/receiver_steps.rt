//! The steps of a receiver: what it takes of a piece in one go.

ghost use Rattle.std.specs.Prelude.{◌≡◌, ◌≢◌, ◌+◌, ◌-◌, ◌<◌, ◌≤◌, ◌⊎◌, [], ◌∷◌, ◌++◌, length, take, drop};
ghost use Rattle.std.specs.Prelude.{false, IfSome};
ghost use Rattle.gfp_delineate.specs.ReceivedAreas.{Goes, Adds, ends_told, reader};

use crate::area_octets::{keep, pass_over};
use crate::corrected_header::read_near;
use crate::hunt_presync_sync::{AreaReceiver, AreaStep, AreaWhy, Phase};
use crate::idle_runs::idle_run;
use gfp_headers::read_core;

impl AreaReceiver {
    /// Takes octets of one part of the stream, at least one.
    #[inline]
    pub(crate) fn step(&mut self, piece: &[u8]) -> (usize, AreaStep)
        requires { 0 < length piece.now }
        ensures within { result.0 ≤ length piece.now }
        ensures some { 0 < result.0 }
        ensures takes { Goes self.old self.new (take result.0 piece.now) ×
            Adds self.old (take result.0 piece.now) (ends_told self.new.area result.1) }
        ensures first { result.1 ≢ AreaStep.Nothing →
            Adds self.old (take (result.0 - 1) piece.now) [] }
        ensures least { result.1 ≡ AreaStep.Area → 4 ≤ length self.new.area }
        ensures greatest { result.1 ≡ AreaStep.Area →
            length self.new.area ≤ self.new.longest }
    {
        match self.phase {
            Phase::Hunt { have } => {
                self.hunt(have, piece[0]);
                (1, AreaStep::Nothing)
            }
            Phase::PresyncArea { left } => (self.skip(left, piece), AreaStep::Nothing),
            Phase::PresyncHeader { have } => {
                self.confirm(have, piece[0]);
                (1, AreaStep::Nothing)
            }
            Phase::SyncHeader { have } => (self.follow(have, piece), AreaStep::Nothing),
            Phase::SyncArea { left } => self.keep(left, piece),
            Phase::SyncPassing { left, why } => self.pass(left, why, piece),
        }
    }

    /// HUNT: an octet, at the fourth of which a header may be whole.
    #[inline]
    fn hunt(&mut self, have: u8, octet: u8)
        requires { self.old.phase ≡ Phase.Hunt have }
        ensures { Goes self.old self.new (octet ∷ []) × Adds self.old (octet ∷ []) [] }
    {
        self.window = shifted(self.window, octet);
        if have < 3 {
            self.phase = Phase::Hunt { have: have + 1 };
            return;
        }
        match read_core(&self.window) {
            None => self.phase = Phase::Hunt { have: 3 },
            Some(0) => self.phase = Phase::PresyncHeader { have: 0 },
            Some(pli) => self.phase = Phase::PresyncArea { left: pli },
        }
    }

    /// PRESYNC: octets of the area after a header.
    #[inline]
    fn skip(&mut self, left: u16, piece: &[u8]) -> usize
        requires phase { self.old.phase ≡ Phase.PresyncArea left }
        requires some { 0 < length piece.now }
        ensures within { result ≤ length piece.now }
        ensures some { 0 < result }
        ensures takes { Goes self.old self.new (take result piece.now)
            × Adds self.old (take result piece.now) [] }
    {
        let rest = usize::from(left);
        if piece.len() < rest {
            self.phase = Phase::PresyncArea {
                left: left - piece.len() as u16,
            };
            return piece.len();
        }
        self.phase = Phase::PresyncHeader { have: 0 };
        rest
    }

    /// PRESYNC: an octet of the header that confirms.
    #[inline]
    fn confirm(&mut self, have: u8, octet: u8)
        requires { self.old.phase ≡ Phase.PresyncHeader have }
        ensures { Goes self.old self.new (octet ∷ []) × Adds self.old (octet ∷ []) [] }
    {
        if have < 3 {
            self.window = shifted(self.window, octet);
            self.phase = Phase::PresyncHeader { have: have + 1 };
            return;
        }
        self.take_header(octet, false);
    }

    /// SYNC: the headers of idles, a header, or an octet of one.
    #[inline]
    fn follow(&mut self, have: u8, piece: &[u8]) -> usize
        requires phase { self.old.phase ≡ Phase.SyncHeader have }
        requires some { 0 < length piece.now }
        ensures within { result ≤ length piece.now }
        ensures some { 0 < result }
        ensures takes { Goes self.old self.new (take result piece.now)
            × Adds self.old (take result piece.now) [] }
    {
        if have == 0 && piece.len() >= 4 {
            let idles = idle_run(piece);
            if idles > 0 {
                return 4 * idles;
            }
            self.take_three(piece[0], piece[1], piece[2]);
            self.take_header(piece[3], self.corrects);
            return 4;
        }
        self.follow_octet(have, piece[0]);
        1
    }

    /// SYNC: an octet of a header.
    #[inline]
    fn follow_octet(&mut self, have: u8, octet: u8)
        requires { self.old.phase ≡ Phase.SyncHeader have }
        ensures { Goes self.old self.new (octet ∷ []) × Adds self.old (octet ∷ []) [] }
    {
        if have < 3 {
            self.window = shifted(self.window, octet);
            self.phase = Phase::SyncHeader { have: have + 1 };
            return;
        }
        self.take_header(octet, self.corrects);
    }

    /// SYNC: the first three octets of a header.
    #[inline]
    fn take_three(&mut self, a: u8, b: u8, c: u8)
        requires { self.old.phase ≡ Phase.SyncHeader 0 }
        ensures phase { self.new.phase ≡ Phase.SyncHeader 3 }
        ensures takes { Goes self.old self.new (a ∷ b ∷ c ∷ [])
            × Adds self.old (a ∷ b ∷ c ∷ []) [] }
    {
        self.window = shifted(shifted(shifted(self.window, a), b), c);
        self.phase = Phase::SyncHeader { have: 3 };
    }

    /// The last octet of a header that confirms, or of one in SYNC, which may be corrected. Where it is no header, the
    /// receiver is in HUNT, one octet after its first; a run has ended.
    fn take_header(&mut self, octet: u8, corrects: bool)
        requires { ((self.old.phase ≡ Phase.PresyncHeader 3) × (corrects ≡ false))
            ⊎ ((self.old.phase ≡ Phase.SyncHeader 3) × (corrects ≡ self.old.corrects)) }
        ensures { Goes self.old self.new (octet ∷ []) × Adds self.old (octet ∷ []) [] }
    {
        self.window = shifted(self.window, octet);
        let Some(pli) = read_header(&self.window, corrects) else {
            self.descrambler.forget();
            self.phase = Phase::Hunt { have: 3 };
            return;
        };
        self.area.clear();
        if pli == 0 {
            self.phase = Phase::SyncHeader { have: 0 };
        } else if !self.descrambler.known() {
            self.phase = Phase::SyncPassing {
                left: pli,
                why: AreaWhy::Unsettled,
            };
        } else if pli > self.longest {
            self.phase = Phase::SyncPassing {
                left: pli,
                why: AreaWhy::TooLong { pli },
            };
        } else {
            self.phase = Phase::SyncArea { left: pli };
        }
    }

    /// SYNC: octets of an area that is kept.
    #[inline]
    fn keep(&mut self, left: u16, piece: &[u8]) -> (usize, AreaStep)
        requires phase { self.old.phase ≡ Phase.SyncArea left }
        requires some { 0 < length piece.now }
        ensures within { result.0 ≤ length piece.now }
        ensures some { 0 < result.0 }
        ensures takes { Goes self.old self.new (take result.0 piece.now) ×
            Adds self.old (take result.0 piece.now) (ends_told self.new.area result.1) }
        ensures first { result.1 ≢ AreaStep.Nothing →
            Adds self.old (take (result.0 - 1) piece.now) [] }
        ensures least { result.1 ≡ AreaStep.Area → 4 ≤ length self.new.area }
        ensures greatest { result.1 ≡ AreaStep.Area →
            length self.new.area ≤ self.new.longest }
    {
        let rest = usize::from(left);
        if piece.len() < rest {
            keep(&mut self.area, &mut self.descrambler, piece);
            self.phase = Phase::SyncArea {
                left: left - piece.len() as u16,
            };
            return (piece.len(), AreaStep::Nothing);
        }
        keep(&mut self.area, &mut self.descrambler, &piece[..rest]);
        self.phase = Phase::SyncHeader { have: 0 };
        (rest, AreaStep::Area)
    }

    /// SYNC: octets of an area that is dropped.
    #[inline]
    fn pass(&mut self, left: u16, why: AreaWhy, piece: &[u8]) -> (usize, AreaStep)
        requires phase { self.old.phase ≡ Phase.SyncPassing left why }
        requires some { 0 < length piece.now }
        ensures within { result.0 ≤ length piece.now }
        ensures some { 0 < result.0 }
        ensures takes { Goes self.old self.new (take result.0 piece.now) ×
            Adds self.old (take result.0 piece.now) (ends_told self.new.area result.1) }
        ensures first { result.1 ≢ AreaStep.Nothing →
            Adds self.old (take (result.0 - 1) piece.now) [] }
        ensures none { result.1 ≢ AreaStep.Area }
    {
        let rest = usize::from(left);
        if piece.len() < rest {
            pass_over(&mut self.descrambler, piece);
            self.phase = Phase::SyncPassing {
                left: left - piece.len() as u16,
                why,
            };
            return (piece.len(), AreaStep::Nothing);
        }
        pass_over(&mut self.descrambler, &piece[..rest]);
        self.phase = Phase::SyncHeader { have: 0 };
        (rest, AreaStep::Dropped(why))
    }
}

/// The last four octets with one more octet.
#[inline]
fn shifted(window: [u8; 4], octet: u8) -> [u8; 4]
    ensures { result ≡ drop 1 window ++ octet ∷ [] }
{
    let [_, second, third, fourth] = window;
    [second, third, fourth, octet]
}

/// The PLI of the header that four octets are, or, where headers are corrected, from which they differ in one bit.
#[inline]
fn read_header(octets: &[u8; 4], corrects: bool) -> Option<u16>
    ensures value { result ≡ reader corrects octets.now }
    ensures some { IfSome result (λ pli. (pli ≡ 0) ⊎ (4 ≤ pli)) }
{
    if corrects {
        read_near(octets)
    } else {
        read_core(octets)
    }
}
