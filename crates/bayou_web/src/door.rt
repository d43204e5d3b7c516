//! Who may ask what.
ghost use Rattle.std.specs.Prelude.{◌≡◌, ◌↔◌, IfOk, IsTrue};
ghost use Rattle.http.specs.Request.{head_of};
ghost use Rattle.http_header.specs.Token.{lowercase};
ghost use Rattle.bayou_web.specs.Head.{HasField};
ghost use Rattle.bayou_web.specs.declared.wish.PageWish.TheVariants.{Page, State, Do};

use crate::wish::{PageWish, RequestRefusal};
use bytes::Bytes;
use http::{HeaderMap, Request};
use std::alloc::{AllocError, Global};

/// What may come in, by the address that is listened at and a word that one person alone knows.
#[derive(Debug, Drop)]
pub struct PageDoor {
    /// `127.0.0.1:8080`, as `Host` has to have it.
    host: String,
    /// `http://127.0.0.1:8080`, as `Origin` has to have it.
    origin: String,
    /// `Bearer` and the token, as `Authorization` has to have it.
    bearer: String,
}

// Whether the first value of this name is this.
fn has_field(headers: &HeaderMap, name: &str, value: &str) -> bool
    ensures { IsTrue result ↔ HasField headers.now (lowercase name.now) value.now }
{
    match headers.get(name) {
        Some(found) => found.as_bytes() == value.as_bytes(),
        None => false,
    }
}

impl PageDoor {
    ghost use Rattle.bayou_web.specs.Door.{AsksPage, IsDoorOf, IsHere, IsOwn, IsWhy, Knows, MayDo, MayLook};

    /// The door of who listens at this address and has told this token.
    pub fn new(alloc: Global, address: &str, token: &str) -> Result<Self, AllocError>
        ensures { IfOk result (IsDoorOf address.now token.now) }
    {
        Ok(PageDoor {
            host: address.to_string(alloc)?,
            origin: format!(in alloc; "http://{address}")?,
            bearer: format!(in alloc; "Bearer {token}")?,
        })
    }

    // Whether it was sent to this address, and in no other form than browsers send it.
    fn is_here(&self, request: &Request<Bytes>) -> bool
        ensures { IsTrue result ↔ IsHere self.now (head_of request.now) }
    {
        request.uri().authority().is_none()
            && has_field(request.headers(), "host", self.host.as_str())
    }

    fn knows(&self, request: &Request<Bytes>) -> bool
        ensures { IsTrue result ↔ Knows self.now (head_of request.now) }
    {
        has_field(request.headers(), "authorization", self.bearer.as_str())
    }

    fn is_own(&self, request: &Request<Bytes>) -> bool
        ensures { IsTrue result ↔ IsOwn self.now (head_of request.now) }
    {
        has_field(request.headers(), "origin", self.origin.as_str())
    }

    /// What the request may want.
    pub fn wish_of(&self, request: &Request<Bytes>) -> PageWish
        ensures page { result ≡ Page ↔ AsksPage self.now (head_of request.now) }
        ensures state { result ≡ State ↔ MayLook self.now (head_of request.now) }
        ensures does { result ≡ Do ↔ MayDo self.now (head_of request.now) }
        ensures why { IsWhy self.now (head_of request.now) result }
    {
        if !self.is_here(request) {
            return PageWish::Refused(RequestRefusal::Elsewhere);
        }
        let (path, method) = (request.uri().path(), request.method().as_str());
        if path == "/" {
            if method != "GET" {
                return PageWish::Refused(RequestRefusal::OnlyGet);
            }
            return PageWish::Page;
        }
        if path == "/state" {
            if method != "GET" {
                return PageWish::Refused(RequestRefusal::OnlyGet);
            }
            if !self.knows(request) {
                return PageWish::Refused(RequestRefusal::Unknown);
            }
            return PageWish::State;
        }
        if path == "/do" {
            if method != "POST" {
                return PageWish::Refused(RequestRefusal::OnlyPost);
            }
            if !self.knows(request) {
                return PageWish::Refused(RequestRefusal::Unknown);
            }
            if !self.is_own(request) {
                return PageWish::Refused(RequestRefusal::Foreign);
            }
            return PageWish::Do;
        }
        PageWish::Refused(RequestRefusal::Missing)
    }
}
