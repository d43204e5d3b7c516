//! The responses.
ghost use Rattle.std.specs.Prelude.{◌≡◌, ◌++◌, [], OnOk, codes};
ghost use Rattle.http_server.specs.Response.{IsBlank, IsResponse, fields_of};
ghost use Rattle.bayou_web.specs.Reply.{IsFailure, IsPage, IsRefusal, IsText, fields_for};

use crate::wish::RequestRefusal;
use bayou_web_page::{PAGE, POLICY};
use bytes::Bytes;
use http::header::{
    ALLOW, CACHE_CONTROL, CONNECTION, CONTENT_SECURITY_POLICY, CONTENT_TYPE, REFERRER_POLICY,
    X_CONTENT_TYPE_OPTIONS,
};
use http::{HeaderValue, StatusCode};
use http_server::Response;
use std::alloc::AllocError;

// The fields of each response: it is kept nowhere, and taken for nothing else. One connection has one request.
fn put_fields(response: &mut Response, kind: HeaderValue) -> Result<(), AllocError>
    ensures fields { OnOk result (fields_of response.new ≡ fields_of response.old ++ fields_for kind.bytes) }
    ensures status { response.new.status ≡ response.old.status }
    ensures body { response.new.body ≡ response.old.body }
{
    response.add_header(CONNECTION, HeaderValue::from_static("close"))?;
    response.add_header(CACHE_CONTROL, HeaderValue::from_static("no-store"))?;
    response.add_header(X_CONTENT_TYPE_OPTIONS, HeaderValue::from_static("nosniff"))?;
    response.add_header(CONTENT_TYPE, kind)
}

/// The page, with the policy that lets nothing but its own script run.
pub(crate) fn put_page(response: &mut Response) -> Result<(), AllocError>
    requires { IsBlank response.old }
    ensures { OnOk result (IsPage response.new) }
{
    put_fields(
        response,
        HeaderValue::from_static("text/html; charset=utf-8"),
    )?;
    response.add_header(REFERRER_POLICY, HeaderValue::from_static("no-referrer"))?;
    response.add_header(CONTENT_SECURITY_POLICY, HeaderValue::from_static(POLICY))?;
    response.body.push(Bytes::from_static(PAGE.as_bytes()))
}

/// The fields of a text of JSON, before there is one.
pub(crate) fn begin_text(response: &mut Response) -> Result<(), AllocError>
    requires { IsBlank response.old }
    ensures { OnOk result (IsResponse 200 (fields_for (codes "application/json")) [] response.new) }
{
    put_fields(response, HeaderValue::from_static("application/json"))
}

/// The text after its fields. Where there is no memory for that, nothing but a status says so.
pub(crate) fn put_text(response: &mut Response, text: Vec<u8>) -> Result<(), AllocError>
    requires { IsResponse 200 (fields_for (codes "application/json")) [] response.old }
    ensures { OnOk result (IsText text.items response.new) }
{
    response.body.push(Bytes::from_vec(text)?)
}

/// Says why nothing is done, and nothing else.
pub(crate) fn refuse(response: &mut Response, refusal: RequestRefusal) -> Result<(), AllocError>
    requires { IsBlank response.old }
    ensures { OnOk result (IsRefusal refusal response.new) }
{
    put_fields(
        response,
        HeaderValue::from_static("text/plain; charset=utf-8"),
    )?;
    match refusal {
        RequestRefusal::OnlyGet => response.add_header(ALLOW, HeaderValue::from_static("GET"))?,
        RequestRefusal::OnlyPost => response.add_header(ALLOW, HeaderValue::from_static("POST"))?,
        _ => {}
    }
    response.status = refusal.status();
    response
        .body
        .push(Bytes::from_static(refusal.text().as_bytes()))
}

/// Says that memory ran out after what was done, for which none is needed.
pub(crate) fn fail(response: &mut Response)
    ensures { IsFailure response.new }
{
    response.clear();
    response.status = StatusCode::INTERNAL_SERVER_ERROR;
}
