//! What the definitions come to: each law is the contract of a function that does nothing.
ghost use Rattle.std.specs.Prelude.{◌≡◌, ◌≢◌, ◌⊎◌, ◌++◌, ℕ, List, length};
ghost use Rattle.bayou_base.specs.declared.server.ServerId.{ServerId};
ghost use Rattle.bayou_wire.specs.declared.greeting.ServerCount.{ServerCount};
ghost use Rattle.bayou_greeting.specs.declared.proofs_of_key.Nonces.{Nonces};
ghost use Rattle.bayou_greeting.specs.OriginDigests.{Collision, digest_of, short};
ghost use Rattle.bayou_greeting.specs.Proofs.{AreNonces, client_text, server_text};

/// What a server proves is nothing that a client proves, in no greeting: a proof that is sent back is none.
pub fn no_text_is_of_both_ends()
    ensures { (nonces others : Nonces) (id : ServerId) (servers : ServerCount) → server_text nonces id servers ≢ client_text others }
{}

/// What a client proves is of one greeting.
pub fn a_client_s_text_is_of_one_greeting()
    ensures { (nonces others : Nonces) → AreNonces nonces → AreNonces others → client_text nonces ≡ client_text others → nonces ≡ others }
{}

/// What a server proves is of one greeting, one server and one count.
pub fn a_server_s_text_is_of_one_greeting()
    ensures { (nonces others : Nonces) (id other_id : ServerId) (servers other_servers : ServerCount) → AreNonces nonces → AreNonces others
        → server_text nonces id servers ≡ server_text others other_id other_servers → (nonces ≡ others) × (id ≡ other_id) × (servers ≡ other_servers) }
{}

/// So many Writes have one digest only where they are the same, or two messages are at hand that SHA-256 tells apart by none of the bytes sent.
pub fn equal_digests_are_of_equal_writes()
    ensures { (writes others : List (List ℕ)) → length writes ≡ length others → short (digest_of writes) ≡ short (digest_of others)
        → (writes ≡ others) ⊎ Collision }
{}

/// Where digests are equal at a count, they are at each smaller one, or such messages are at hand: so the first Write that differs is found by halves.
pub fn a_difference_stays()
    ensures { (writes others later later_others : List (List ℕ)) → length writes ≡ length others → length later ≡ length later_others
        → short (digest_of (writes ++ later)) ≡ short (digest_of (others ++ later_others)) → (writes ≡ others) ⊎ Collision }
{}
