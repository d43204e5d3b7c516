//! What the grammar comes to: each law is the contract of a function that does nothing.
ghost use Rattle.std.specs.Prelude.{◌≡◌, ℕ, ◌+◌, ◌<◌, ◌≤◌, List, [], Option, Some, Result, Err, ◌++◌, length};
ghost use Rattle.bayou_base.specs.declared.limits.TheConstants.{MAX_BODY_BYTES};
ghost use Rattle.bayou_lang.specs.declared.write.Write.{Write};
ghost use Rattle.bayou_wire.specs.declared.frame.Frame.{Frame};
ghost use Rattle.bayou_wire.specs.declared.fault.DecodeFault.{DecodeFault};
ghost use Rattle.bayou_wire.specs.declared.fault.DecodeFault.TheVariants.{BadKind};
ghost use Rattle.bayou_wire.specs.declared.greeting.Greeting.{Greeting};
ghost use Rattle.bayou_wire.specs.declared.layout.TheConstants.{LENGTH_BYTES};
ghost use Rattle.bayou_wire.specs.declared.record.Form.{Form};
ghost use Rattle.bayou_wire.specs.declared.record.Record.{Record};
ghost use Rattle.bayou_wire.specs.declared.stream.FeedFault.{FeedFault};
ghost use Rattle.bayou_lang.specs.Ranges.{IsWrite};
ghost use Rattle.bayou_wire.specs.Greetings.{GreetingAnswer, IsGreeting, greeting_bytes};
ghost use Rattle.bayou_wire.specs.Records.{SpellsRecord};
ghost use Rattle.bayou_wire.specs.Spelling.{IsFrame, WriteAnswer, frame_bytes, write_bytes};
ghost use Rattle.bayou_wire.specs.Stream.{Feeds, FrameAnswer, HasLength, IsFaulty, IsLeft, IsPartial, Splits, bytes_fed, frames_given};

/// No Write's spelling begins another's, so each spelling is of one Write.
pub fn no_write_begins_another()
    ensures { (a b : Write) (x y : List ℕ) → IsWrite a → IsWrite b → write_bytes a ++ x ≡ write_bytes b ++ y → (a ≡ b) × (x ≡ y) }
{}

/// The bytes of a Write are the body of a journal's entry: they are one at the least, and no more than a body has.
pub fn a_write_is_spelled_by_a_body()
    ensures { (write : Write) → IsWrite write → (0 < length (write_bytes write)) × (length (write_bytes write) ≤ MAX_BODY_BYTES) }
{}

/// In each form bytes are the spelling of one record at the most.
pub fn bytes_are_of_one_record()
    ensures { (form : Form) (bytes : List ℕ) (a b : Record) → SpellsRecord form bytes a → SpellsRecord form bytes b → a ≡ b }
{}

/// In each form a record has one spelling at the most.
pub fn a_record_has_one_spelling()
    ensures { (form : Form) (a b : List ℕ) (given : Record) → SpellsRecord form a given → SpellsRecord form b given → a ≡ b }
{}

/// The bytes of a record are the body of a journal's entry: they are one at the least, and no more than a body has.
pub fn a_record_is_spelled_by_a_body()
    ensures { (form : Form) (bytes : List ℕ) (given : Record) → SpellsRecord form bytes given → (0 < length bytes) × (length bytes ≤ MAX_BODY_BYTES) }
{}

/// No frame's spelling begins another's, so each spelling is of one frame.
pub fn no_frame_begins_another()
    ensures { (a b : Frame) (x y : List ℕ) → IsFrame a → IsFrame b → frame_bytes a ++ x ≡ frame_bytes b ++ y → (a ≡ b) × (x ≡ y) }
{}

/// Of each input there is one answer to whoever decodes a Write.
pub fn one_write_answer()
    ensures { (bytes : List ℕ) (a b : Result Write DecodeFault) → WriteAnswer bytes a → WriteAnswer bytes b → a ≡ b }
{}

/// Of each input there is one answer to whoever decodes a frame.
pub fn one_frame_answer()
    ensures { (bytes : List ℕ) (a b : Result Frame DecodeFault) → FrameAnswer bytes a → FrameAnswer bytes b → a ≡ b }
{}

/// A stream is read in one way: its frames, and the rest that is no whole frame, are determined.
pub fn one_reading()
    ensures { (stream : List ℕ) (frames others : List Frame) (rest left : List ℕ) → Splits stream frames rest → Splits stream others left
        → (frames ≡ others) × (rest ≡ left) }
{}

/// After any calls the stream is the frames given, and then a rest that is no whole frame, however the stream was cut:
/// what is held back is that rest, or the front of it that has a fault, or the fault that stands there was reported.
pub fn feeds_read_the_stream()
    ensures { (pieces : List (List ℕ)) (answers : List (Result (List Frame) FeedFault)) (new : Option (List ℕ)) → Feeds (Some []) pieces answers new
        → (rest : List ℕ) × Splits (bytes_fed pieces answers) (frames_given answers) rest × IsLeft new rest }
{}

/// Less than a whole frame has no fault.
pub fn partial_bytes_have_no_fault()
    ensures { (bytes : List ℕ) (fault : DecodeFault) → IsPartial bytes → ¬ (IsFaulty bytes fault) }
{}

/// Where a whole frame stands, there is no less than one, and no fault.
pub fn a_whole_frame_has_no_fault()
    ensures partial { (frame : Frame) (behind : List ℕ) → IsFrame frame → ¬ (IsPartial (frame_bytes frame ++ behind)) }
    ensures faulty { (frame : Frame) (behind : List ℕ) (fault : DecodeFault) → IsFrame frame → ¬ (IsFaulty (frame_bytes frame ++ behind) fault) }
{}

/// What comes after bytes that have a fault doesn't change it.
pub fn a_fault_stays()
    ensures { (bytes more : List ℕ) (fault : DecodeFault) → IsFaulty bytes fault → IsFaulty (bytes ++ more) fault }
{}

/// The length in front of a frame counts what comes after the length.
pub fn a_frame_has_its_length()
    ensures { (frame : Frame) (behind : List ℕ) (len : ℕ) → IsFrame frame → HasLength (frame_bytes frame ++ behind) len
        → length (frame_bytes frame) ≡ LENGTH_BYTES + len }
{}

/// No greeting's spelling begins another's, so each spelling is of one greeting.
pub fn no_greeting_begins_another()
    ensures { (a b : Greeting) (x y : List ℕ) → IsGreeting a → IsGreeting b → greeting_bytes a ++ x ≡ greeting_bytes b ++ y → (a ≡ b) × (x ≡ y) }
{}

/// Of each input there is one answer to whoever decodes a greeting.
pub fn one_greeting_answer()
    ensures { (bytes : List ℕ) (a b : Result Greeting DecodeFault) → GreetingAnswer bytes a → GreetingAnswer bytes b → a ≡ b }
{}

/// Who knows frames alone finds a kind that it doesn't know where a greeting stands.
pub fn a_greeting_is_no_frame()
    ensures { (greeting : Greeting) (behind : List ℕ) → IsGreeting greeting → IsFaulty (greeting_bytes greeting ++ behind) BadKind }
{}

/// A frame is no greeting: its kind is none of theirs.
pub fn a_frame_is_no_greeting()
    ensures { (frame : Frame) (behind : List ℕ) → IsFrame frame → GreetingAnswer (frame_bytes frame ++ behind) (Err BadKind) }
{}
