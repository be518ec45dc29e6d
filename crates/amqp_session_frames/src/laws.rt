//! Laws of frames and their bytes. A function here does nothing: its contract is the law.
ghost use Rattle.std.specs.Prelude.{◌≡◌, ◌<◌, ◌^◌, ◌++◌, [], ℕ, List, Some, drop, take};
ghost use Rattle.amqp_session_frames.specs.Cutting.{Cut, IsPartial, IsPiece};
ghost use Rattle.amqp_session_frames.specs.Text.{AllWithinCaps, FrameText, IsWithinCaps, Reads, frame_text, texts};
ghost use Rattle.amqp_session_frames.specs.declared.frame.Frame.{Frame};

/// Bytes are at most one frame.
pub fn bytes_are_one_frame()
    ensures { (bytes : List ℕ) (f g : Frame) → FrameText bytes f → FrameText bytes g → f ≡ g }
{}

/// The bytes of a frame are as long as their size field says.
pub fn frame_is_as_long_as_it_says()
    ensures { (bytes : List ℕ) (f : Frame) → FrameText bytes f → IsPiece bytes }
{}

/// What a frame is written as is this frame, where no list in it is longer than may be read.
pub fn written_frame_is_read_back()
    ensures { (f : Frame) (bytes : List ℕ) → f.channel < 2 ^ 16 → IsWithinCaps f.body →
        frame_text f ≡ Some bytes → FrameText bytes f }
{}

/// Frames that are written one behind the other are read as these frames.
pub fn written_frames_are_read_back()
    ensures { (fs : List Frame) (bytes : List ℕ) → AllWithinCaps fs → texts fs ≡ Some bytes →
        Reads bytes fs [] }
{}

/// A stream is read in one way, up to less than a frame.
pub fn stream_is_read_in_one_way()
    ensures { (bytes : List ℕ) (a b : List Frame) (l m : List ℕ) → Reads bytes a l →
        Reads bytes b m → IsPartial l → IsPartial m → (a ≡ b) × (l ≡ m) }
{}

/// Reading goes on where it stopped, when more bytes have come.
pub fn reading_goes_on()
    ensures { (bytes : List ℕ) (a b : List Frame) (mid rest more : List ℕ) → Reads bytes a mid →
        Reads (mid ++ more) b rest → Reads (bytes ++ more) (a ++ b) rest }
{}

/// The first so many of the frames that are read are read first, and then the others.
pub fn reading_may_stop()
    ensures { (bytes : List ℕ) (fs : List Frame) (rest : List ℕ) (n : ℕ) → Reads bytes fs rest →
        (left : List ℕ) × Reads bytes (take n fs) left × Reads left (drop n fs) rest }
{}

/// What is read of a front of a stream is a front of what is read of the stream.
pub fn front_reads_a_front()
    ensures { (bytes more : List ℕ) (taken all : List Frame) (rest left : List ℕ) →
        Reads bytes taken rest → Reads (bytes ++ more) all left → IsPartial left →
        (others : List Frame) × (all ≡ taken ++ others) × Reads (rest ++ more) others left }
{}

/// What is read of a front of sent frames is a front of these frames, and the bytes that are left belong to the others.
pub fn taken_frames_were_sent()
    ensures { (bytes more : List ℕ) (taken sent : List Frame) (rest : List ℕ) → AllWithinCaps sent →
        Reads bytes taken rest → texts sent ≡ Some (bytes ++ more) →
        (others : List Frame) × (sent ≡ taken ++ others) × (texts others ≡ Some (rest ++ more)) }
{}

/// Less than a frame is the text of no frames, where it is a text.
pub fn part_of_a_frame_is_no_text()
    ensures { (rest : List ℕ) (others : List Frame) → AllWithinCaps others → IsPartial rest →
        texts others ≡ Some rest → others ≡ [] }
{}

/// A stream is cut in one way.
pub fn stream_is_cut_in_one_way()
    ensures { (bytes a b : List ℕ) (ps qs : List (List ℕ)) (x y : List ℕ) → Cut bytes a ps x →
        Cut bytes b qs y → (a ≡ b) × (ps ≡ qs) × (x ≡ y) }
{}
