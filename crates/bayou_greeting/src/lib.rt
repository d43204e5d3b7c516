//! Who is at the other end, and whether both are of one store.
//!
//! Callers see a [`StoreKey`] as the name of a store and its secret, and its line as `specs/StoreKeys` spells it. Who has the key makes proofs by
//! [`server_proof`] and [`client_proof`], which are HMACs of RFC 2104 over SHA-256 (FIPS 180-4), as `specs/Hmac` and `specs/Proofs` say. [`admits`]
//! judges who greets, and [`greet`] who is greeted: it has a row for each way in which the other end may be a [`Stranger`]. [`OriginDigests`] is a
//! digest for each count of an origin's Writes, so that two servers can tell whether they hold the same Writes under the same names.
//!
//! Callers owe a nonce that was drawn at random for each greeting. The crate doesn't promise that nobody else can make a proof, nor that a digest
//! is never met by chance; nothing here is a cipher. It knows neither streams nor files.
#![tactic(auto)]

pub mod hmac;
pub mod laws;
pub mod origin_digests;
pub mod proofs_of_key;
pub mod secret;
pub mod store_key;
pub mod stranger;

pub use hmac::hmac_sha256;
pub use origin_digests::OriginDigests;
pub use proofs_of_key::{Nonces, admits, client_proof, is_same_proof, server_proof};
pub use secret::Secret;
pub use store_key::StoreKey;
pub use stranger::{Stranger, greet};
