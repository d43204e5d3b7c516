//! What the clauses of a pull come to: a law is the contract of a function that does nothing.
ghost use Rattle.std.specs.Prelude.{◌≡◌, ◌+◌, ◌<◌, ◌^◌, ℕ, List, Ok, Err};
ghost use Rattle.bayou_frames.specs.declared.fault.ChannelFault.TheVariants.{BadFrame, Cut};
ghost use Rattle.bayou_peer.specs.declared.fault.PullFault.TheVariants.{Stream};
ghost use Rattle.bayou_peer.specs.declared.pulling.PullStopped.{PullStopped as Stopped};
ghost use Rattle.bayou_peer.specs.declared.pulling.Pulled.{Pulled as Told};
ghost use Rattle.bayou_peer.specs.Pulls.{EndsOf};

use crate::replica::Replica;

/// What the input holds decides how a pull may end, whoever pulls: where one pull of it came to its End, every other that did so
/// was given as many Writes, and none found the input cut or met a bad frame. No input that is cut has a bad frame.
pub fn the_input_decides<P: Replica, Q: Replica>()
    ensures as_many { (start now : P) (other after : Q) (input : List ℕ) (first second : Told)
        → EndsOf (record { list = P.list; takes = P.takes }) start now input (Ok first)
        → EndsOf (record { list = Q.list; takes = Q.takes }) other after input (Ok second)
        → first.taken + first.had ≡ second.taken + second.had }
    ensures not_cut { (start now : P) (other after : Q) (input : List ℕ) (pulled : Told) (stopped : Stopped) → stopped.fault ≡ Stream Cut
        → EndsOf (record { list = P.list; takes = P.takes }) start now input (Ok pulled)
        → ¬ (EndsOf (record { list = Q.list; takes = Q.takes }) other after input (Err stopped)) }
    ensures not_bad { (start now : P) (other after : Q) (input : List ℕ) (pulled : Told) (stopped : Stopped) → stopped.fault ≡ Stream BadFrame
        → pulled.taken + pulled.had < 2 ^ 32
        → EndsOf (record { list = P.list; takes = P.takes }) start now input (Ok pulled)
        → ¬ (EndsOf (record { list = Q.list; takes = Q.takes }) other after input (Err stopped)) }
    ensures cut_not_bad { (start now : P) (other after : Q) (input : List ℕ) (cut stopped : Stopped) → cut.fault ≡ Stream Cut → stopped.fault ≡ Stream BadFrame
        → EndsOf (record { list = P.list; takes = P.takes }) start now input (Err cut)
        → ¬ (EndsOf (record { list = Q.list; takes = Q.takes }) other after input (Err stopped)) }
{}
