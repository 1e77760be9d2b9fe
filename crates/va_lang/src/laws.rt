//! What holds of the language as such.
ghost use Rattle.std.specs.Prelude.{◌≡◌, List, ℕ, Some};
ghost use Rattle.va_core.specs.Texts.{IsOneLine};
ghost use Rattle.va_lang.specs.Command as asked;
ghost use Rattle.va_lang.specs.Grammar.{command_of};
ghost use Rattle.va_lang.specs.Reply as replies;
ghost use Rattle.va_lang.specs.Spelling.{command_text, IsCommand};

/// The line of a command is its only spelling, and its numbers are in their ranges.
pub fn one_spelling()
    ensures line { (line : List ℕ) (command : asked.Command) → command_of line ≡ Some command → line ≡ command_text command }
    ensures ranges { (line : List ℕ) (command : asked.Command) → command_of line ≡ Some command → IsCommand command }
{}

/// A command whose numbers are in their ranges is read back from its line.
pub fn read_back()
    ensures { (command : asked.Command) → IsCommand command → command_of (command_text command) ≡ Some command }
{}

/// No reply holds a newline where none is in the text that it is lent, so that each is one line.
pub fn one_line()
    ensures { (reply : replies.Reply) → replies.LendsLine reply → IsOneLine (replies.reply_text reply) }
{}
