//! What a pull makes of what another server sends it.
ghost use Rattle.std.specs.Prelude.{◌≡◌, ◌*◌, ◌<◌, ◌≤◌, ◌^◌, ℕ, List, Option, Result, Some, All, IfErr, length};
ghost use Rattle.bayou_base.specs.declared.limits.TheConstants.{MAX_TURNS, MAX_WRITES, READ_BYTES};
ghost use Rattle.bayou_lang.specs.declared.write.Write.{Write};
ghost use Rattle.bayou_lang.specs.Ranges.{IsWrite};
ghost use Rattle.bayou_peer.specs.Meeting.{Meets, cut_answer};
ghost use Rattle.bayou_peer.specs.Pulls.{EndsInMemory, EndsOf};
ghost use Rattle.bayou_peer.specs.declared.pulling.PullStopped.{PullStopped};
ghost use Rattle.bayou_peer.specs.declared.pulling.Pulled.{Pulled};
ghost use Rattle.bayou_frames.specs.Spelled.{answer_bytes};

use crate::replica::Replica;
use bayou_wire::frame_len;
use bayou_wire::laws::a_write_is_spelled_by_a_body;

/// The front of an answer with so many Items, without an End. It is all of the answer where fewer come.
pub fn cut_after(answer: &[u8], items: u32) -> &[u8]
    ensures { (sent : List Write) → All IsWrite sent → length sent < 2 ^ 32 → answer.now ≡ answer_bytes sent → result.now ≡ cut_answer (Some items) sent }
{
    let mut rest = answer;
    for _ in 0..items {
        match frame_len(rest) {
            Some(len) if len <= rest.len() => rest = &rest[len..],
            _ => return answer,
        }
    }
    &answer[..answer.len() - rest.len()]
}

/// How a pull ends, and what it leaves, whose input is in memory, and is what another server answers, cut or not.
pub fn a_pull_takes_what_is_sent<P: Replica>()
    ensures { (sent : List Write) (cut : Option ℕ) (start now : P) (result : Result Pulled PullStopped)
        → All IsWrite sent → length sent < 2 ^ 32
        → EndsOf (record { list = P.list; takes = P.takes }) start now (cut_answer cut sent) result → IfErr result (λ stopped. EndsInMemory stopped.fault)
        → Meets (record { list = P.list; takes = P.takes }) sent cut start result now }
{}

/// What a server may hold is answered in no more bytes than a stream brings in its turns.
pub fn an_answer_is_short()
    ensures { (sent : List Write) (cut : Option ℕ) → All IsWrite sent → length sent ≤ MAX_WRITES → length (cut_answer cut sent) ≤ READ_BYTES * MAX_TURNS }
{
    a_write_is_spelled_by_a_body();
}
