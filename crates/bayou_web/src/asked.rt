//! Of which keys a request asks what is to be seen.
ghost use Rattle.std.specs.Prelude.{◌≡◌, Err, IfOk, option_map, string_bytes};
ghost use Rattle.std.specs.Option.{option_copied};
ghost use Rattle.bayou_web.specs.Asked.{AsksNothing, AsksOf};
ghost use Rattle.bayou_web.specs.declared.body.BodyFault.TheVariants.{Malformed};

use crate::body::BodyFault;
use form_urlencoded::decode;
use std::alloc::Global;

/// What the query of a request has before the beginning of keys.
pub const PREFIX: &str = "prefix=";

/// What the keys begin with that the query of a request asks for, as `prefix=mon%2F`; each key does where there is none.
pub fn prefix_of(alloc: Global, query: Option<&str>) -> Result<String, BodyFault>
    ensures prefix { IfOk result (λ prefix. AsksOf (option_copied query.entry) (string_bytes prefix)) }
    ensures none { result ≡ Err Malformed → AsksNothing (option_copied query.entry) }
{
    let Some(query) = query else {
        return Ok(String::new(alloc));
    };
    let Some(spelled) = query.strip_prefix(PREFIX) else {
        return Err(BodyFault::Malformed);
    };
    let decoded = decode(alloc, spelled.as_bytes())?;
    Ok(decoded.as_str().to_string(alloc)?)
}
