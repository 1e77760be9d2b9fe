// Laws of the definitions, each as the contract of a function that does nothing.
ghost use Rattle.std.specs.Prelude.{◌≡◌, ◌++◌, List, ℕ, map};
ghost use Rattle.std.specs.List.{AllByRecursion};
ghost use Rattle.va_lang.specs.Reply.{LendsLine, Reply, reply_text};
ghost use Rattle.va_core.specs.Texts.{IsOneLine};
ghost use Rattle.va_model.specs.Least.{ReadsLeast, SnapshotsStood};
ghost use Rattle.va_model.specs.Lines.{Line, parts};
ghost use Rattle.va_model.specs.Runs.{AreReplies, reply_lines};
ghost use Rattle.va_model.specs.State.{State, StandsFor};

/// What the reply to a line lends is one line, so that each reply is.
pub fn replies_lend_lines()
    ensures { (start : State) (lines : List Line) (replies : List Reply) → AreReplies start lines replies →
        AllByRecursion LendsLine replies }
{}

/// The bytes that are given are cut into replies in one way: at their newlines.
pub fn cut_in_one_way()
    ensures { (replies : List Reply) (more : List ℕ) → AllByRecursion LendsLine replies → IsOneLine more →
        parts (reply_lines replies ++ more) ≡ record { ended = map reply_text replies; rest = more } }
{}

/// The bytes that are given tell the replies: of the replies that the lines may have from one state, those that make
/// these bytes are one list. So what is said apart of the state, of the reads and of crashes is said of the same
/// replies.
pub fn told_in_one_way()
    ensures { (start : State) (lines : List Line) (replies others : List Reply) (part other_part : List ℕ) →
        AreReplies start lines replies → AreReplies start lines others → IsOneLine part → IsOneLine other_part →
        reply_lines replies ++ part ≡ reply_lines others ++ other_part → replies ≡ others }
{}

/// The same where a run stopped: of the lines before the one at which it did, and of their replies, there is one list
/// that makes these bytes.
pub fn stopped_in_one_way()
    ensures { (start : State) (all before later other_before other_later : List Line) (replies others : List Reply)
        (part other_part : List ℕ) → all ≡ before ++ later → all ≡ other_before ++ other_later →
        AreReplies start before replies → AreReplies start other_before others → IsOneLine part → IsOneLine other_part → reply_lines replies ++ part ≡ reply_lines others ++ other_part →
        (before ≡ other_before) × (replies ≡ others) }
{}

/// In a state that an image stands for, the vectors that a search reads are the least set that determines its answer.
/// The next pair of a cursor is determined by what is read for it and by what was read for those before, where an image
/// stood for the snapshot. A certificate is accepted, and shows of each vector that was read that it had to be.
pub fn searches_read_least_sets()
    ensures { (state : State) (image : List ℕ) → StandsFor state image → SnapshotsStood state → (line : Line) →
        ReadsLeast state line }
{}
