//! The service.
ghost use Rattle.std.specs.Prelude.{◌≡◌, [], MatchResult, None, Some, codes};
ghost use Rattle.http_server.specs.Response.{IsResponse};
ghost use Rattle.bayou_web.specs.Reply.{Tells, fields_for};

use crate::asked::prefix_of;
use crate::body::{BodyFault, line_of};
use crate::desk::PageDesk;
use crate::door::PageDoor;
use crate::reply::{begin_text, fail, put_page, put_text, refuse};
use crate::wish::{PageWish, RequestRefusal};
use bytes::Bytes;
use http::Request;
use http_server::{Response, Service};
use std::alloc::{AllocError, Global};

/// What is answered at one address.
#[derive(Drop)]
pub struct Site<D: Drop> {
    alloc: Global,
    door: PageDoor,
    desk: D,
}

// Puts the text that was given, or else says that there was no memory for it.
fn tell(response: &mut Response, told: Result<Vec<u8>, AllocError>)
    requires { IsResponse 200 (fields_for (codes "application/json")) [] response.old }
    ensures { MatchResult told (λ text. Tells (Some text.items) response.new) (λ _. Tells None response.new) }
{
    let is_told = match told {
        Ok(text) => put_text(response, text).is_ok(),
        Err(_) => false,
    };
    if !is_told {
        fail(response);
    }
}

impl<D: PageDesk + Drop> Site<D> {
    ghost use Rattle.std.specs.Prelude.{OnErr, OnOk};
    ghost use Rattle.http.specs.Request.{body_of, head_of};
    ghost use Rattle.http_server.specs.Response.{IsBlank};
    ghost use Rattle.bayou_web.specs.Site.{Acts, Shows};

    /// What this desk shows and does to whoever may come in.
    pub fn new(alloc: Global, door: PageDoor, desk: D) -> Self
        ensures { (result.door ≡ door) × (result.desk ≡ desk) }
    {
        Site { alloc, door, desk }
    }

    // Shows what is to be seen. Where it ends for want of memory, nothing was looked for.
    fn show(&mut self, request: &Request<Bytes>, response: &mut Response) -> Result<(), AllocError>
        requires { IsBlank response.old }
        ensures door { self.new.door ≡ self.old.door }
        ensures shown { OnOk result (Shows D.shows self.old.desk (head_of request.now) response.new self.new.desk) }
        ensures err { OnErr result (self.new ≡ self.old) }
    {
        let prefix = match prefix_of(self.alloc, request.uri().query()) {
            Ok(prefix) => prefix,
            Err(BodyFault::OutOfMemory) => return Err(AllocError),
            Err(BodyFault::Malformed) => return refuse(response, RequestRefusal::Malformed),
        };
        begin_text(response)?;
        let told = self.desk.show(self.alloc, prefix.as_str());
        tell(response, told);
        Ok(())
    }

    // Does the line of the body. Where it ends for want of memory, nothing was done.
    fn act(&mut self, request: &Request<Bytes>, response: &mut Response) -> Result<(), AllocError>
        requires { IsBlank response.old }
        ensures door { self.new.door ≡ self.old.door }
        ensures done { OnOk result (Acts D.does self.old.desk (body_of request.now) response.new self.new.desk) }
        ensures err { OnErr result (self.new ≡ self.old) }
    {
        let line = match line_of(self.alloc, request.body().as_slice()) {
            Ok(line) => line,
            Err(BodyFault::OutOfMemory) => return Err(AllocError),
            Err(BodyFault::Malformed) => return refuse(response, RequestRefusal::Malformed),
        };
        begin_text(response)?;
        let told = self.desk.act(self.alloc, line.as_str());
        tell(response, told);
        Ok(())
    }
}

impl<D: PageDesk + Drop> Service for Site<D> {
    ghost use Rattle.bayou_web.specs.Site.{Answers};

    ghost answers = { Answers D.shows D.does };

    fn call(
        &mut self,
        request: &Request<Bytes>,
        response: &mut Response,
    ) -> Result<(), AllocError> {
        match self.door.wish_of(request) {
            PageWish::Page => put_page(response),
            PageWish::State => self.show(request, response),
            PageWish::Do => self.act(request, response),
            PageWish::Refused(refusal) => refuse(response, refusal),
        }
    }
}
