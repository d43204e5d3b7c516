//! The head of what is kept.
ghost use Rattle.std.specs.Prelude.{◌≡◌, ◌≢◌, ◌≤◌, ◌∷◌, ◌++◌, [], ℕ, Bool, List, MatchOption, Option};
ghost use Rattle.bayou_base.specs.declared.asks.Asks.{Asks as AsksSaid};
ghost use Rattle.bayou_base.specs.declared.limits.TheConstants.{MAX_PLACES};
ghost use Rattle.bayou_base.specs.declared.server.ServerId.{ServerId as Server};
ghost use Rattle.bayou_remember.specs.Inner.Heads.{BeginsWithHead};
ghost use Rattle.bayou_remember.specs.Spelling.{asks_bytes, flag_byte, head_bytes, server_bytes};

use crate::layout::{A_WRITE, ASKED, KEPT_VERSION, NOT_ASKED, NOTHING};
use bayou_base::{Asks, ServerId, SessionId};

// What stands before the frames: whose it is, what it asks for, how many places it began, and where a Write may be asked again.
#[derive(Clone, Copy, Debug, PartialEq, Eq)]
pub struct Head {
    pub session: SessionId,
    pub asks: Asks,
    pub begun: u32,
    pub server: Option<ServerId>,
    pub ghost within: { begun ≤ MAX_PLACES },
}

fn flag_of(byte: u8) -> Option<bool>
    ensures { MatchOption result ((flag : Bool) → byte ≢ flag_byte flag) (λ flag. byte ≡ flag_byte flag) }
{
    match byte {
        NOT_ASKED => Some(false),
        ASKED => Some(true),
        _ => None,
    }
}

fn asks_of(ryw: u8, mr: u8, wfr: u8, mw: u8) -> Option<Asks>
    ensures { MatchOption result ((asks : AsksSaid) → ryw ∷ mr ∷ wfr ∷ mw ∷ [] ≢ asks_bytes asks) (λ asks. ryw ∷ mr ∷ wfr ∷ mw ∷ [] ≡ asks_bytes asks) }
{
    Some(Asks {
        ryw: flag_of(ryw)?,
        mr: flag_of(mr)?,
        wfr: flag_of(wfr)?,
        mw: flag_of(mw)?,
    })
}

// Where a Write may be asked again, if anywhere, and the bytes after that.
fn server_of(bytes: &[u8]) -> Option<(Option<ServerId>, &[u8])>
    ensures { MatchOption result ((server : Option Server) (rest : List ℕ) → bytes.now ≢ server_bytes server ++ rest) (λ given. bytes.now ≡ server_bytes given.0 ++ given.1.now) }
{
    match bytes {
        [NOTHING, rest @ ..] => Some((None, rest)),
        [A_WRITE, index, rest @ ..] => Some((Some(ServerId::new(*index)?), rest)),
        _ => None,
    }
}

pub fn head_of(bytes: &[u8]) -> Option<(Head, &[u8])>
    ensures { MatchOption result (¬ BeginsWithHead bytes.now) (λ given. bytes.now ≡ head_bytes given.0.session.index given.0.asks given.0.begun given.0.server ++ given.1.now) }
{
    let [version, session, ryw, mr, wfr, mw, a, b, c, d, rest @ ..] = bytes else {
        return None;
    };
    if *version != KEPT_VERSION {
        return None;
    }
    let session = SessionId::new(*session)?;
    let asks = asks_of(*ryw, *mr, *wfr, *mw)?;
    let (server, rest) = server_of(rest)?;
    let head = Head {
        session,
        asks,
        begun: u32::from_be_bytes([*a, *b, *c, *d]),
        server,
    };
    Some((head, rest))
}
