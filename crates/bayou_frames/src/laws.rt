//! What a read of an Offer comes to: a law is the contract of a function that does nothing.
ghost use Rattle.std.specs.Prelude.{◌≡◌, ℕ, List, Ok, Err};
ghost use Rattle.bayou_frames.specs.declared.fault.ChannelFault.TheVariants.{BadFrame, Cut};
ghost use Rattle.bayou_frames.specs.First.{OfferOf};

/// What the input holds decides whether an Offer is read, and which, whoever reads it.
pub fn the_input_decides_the_offer()
    ensures one { (input counts others : List ℕ) → OfferOf input (Ok counts) → OfferOf input (Ok others) → counts ≡ others }
    ensures not_cut { (input counts : List ℕ) → OfferOf input (Ok counts) → ¬ (OfferOf input (Err Cut)) }
    ensures not_bad { (input counts : List ℕ) → OfferOf input (Ok counts) → ¬ (OfferOf input (Err BadFrame)) }
    ensures cut_not_bad { (input : List ℕ) → OfferOf input (Err Cut) → ¬ (OfferOf input (Err BadFrame)) }
{}
