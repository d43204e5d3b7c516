//! What a request may want, and why one may want nothing.
ghost use Rattle.std.specs.Prelude.{◌≡◌, ◌<◌, ◌≤◌};
ghost use Rattle.bayou_web.specs.Reply.{status_for, text_for};

use http::StatusCode;

/// What a person learns who reads a refusal.
pub const ELSEWHERE: &str =
    "Open the address that `bayou web` printed, with 127.0.0.1 and not with a name.\n";

pub const MISSING: &str = "Nothing is here.\n";

pub const ONLY_GET: &str = "This is asked by GET.\n";

pub const ONLY_POST: &str = "This is asked by POST.\n";

pub const UNKNOWN: &str =
    "The token is missing or wrong: open the whole address that `bayou web` printed.\n";

pub const FOREIGN: &str = "This is asked by the page itself alone.\n";

pub const MALFORMED: &str = "This says nothing that can be shown or done.\n";

/// Why a request may want nothing.
#[derive(Clone, Copy, Debug, PartialEq, Eq)]
pub enum RequestRefusal {
    /// It was sent to another name.
    Elsewhere,
    /// Nothing is there.
    Missing,
    /// It may be asked by GET alone.
    OnlyGet,
    /// It may be asked by POST alone.
    OnlyPost,
    /// It doesn't have the token.
    Unknown,
    /// It comes from a page of somebody else.
    Foreign,
    /// It says nothing that can be shown or done.
    Malformed,
}

/// What a request may want.
#[derive(Clone, Copy, Debug, PartialEq, Eq)]
pub enum PageWish {
    Page,
    /// What is to be seen.
    State,
    /// That a line is done.
    Do,
    /// Nothing.
    Refused(RequestRefusal),
}

impl RequestRefusal {
    /// The status that says so.
    pub fn status(self) -> StatusCode
        ensures value { result ≡ status_for self }
        ensures wrong { (400 ≤ result) × (result < 500) }
    {
        match self {
            RequestRefusal::Elsewhere => StatusCode::MISDIRECTED_REQUEST,
            RequestRefusal::Missing => StatusCode::NOT_FOUND,
            RequestRefusal::OnlyGet | RequestRefusal::OnlyPost => StatusCode::METHOD_NOT_ALLOWED,
            RequestRefusal::Unknown => StatusCode::UNAUTHORIZED,
            RequestRefusal::Foreign => StatusCode::FORBIDDEN,
            RequestRefusal::Malformed => StatusCode::BAD_REQUEST,
        }
    }

    /// What a person learns who reads it.
    pub fn text(self) -> &'static str
        ensures { result.now ≡ text_for self }
    {
        match self {
            RequestRefusal::Elsewhere => ELSEWHERE,
            RequestRefusal::Missing => MISSING,
            RequestRefusal::OnlyGet => ONLY_GET,
            RequestRefusal::OnlyPost => ONLY_POST,
            RequestRefusal::Unknown => UNKNOWN,
            RequestRefusal::Foreign => FOREIGN,
            RequestRefusal::Malformed => MALFORMED,
        }
    }
}
