// The sends of a schedule, one after the other.
ghost use Rattle.std.specs.Prelude.{◌≡◌, [], ◌∷◌, length, MatchOption};
ghost use Rattle.std.specs.Iterator.{at_most};
ghost use Rattle.text.specs.Lines.{lines_of};
ghost use Rattle.contents.specs.Contents.{sends_in, sends_of, sent};

use crate::header_of;
use header::HEADER_SIZE;
use schedule::Send;

// The sends of the lines that are left, up to the first line that is none; each with the text of its message.
#[derive(Drop)]
pub(crate) struct Sends<'a> {
    rest: &'a [u8],
}

impl<'a> Iterator for Sends<'a> {
    type Item = (Send, &'a [u8]);

    ghost remaining = { λ left. at_most (length left.rest.now) };

    ghost next_gives = { λ left item after. MatchOption item (sends_in (lines_of left.rest.now) ≡ []) (λ x. sends_in (lines_of left.rest.now) ≡ sent x.0 x.1.now ∷ sends_in (lines_of after.rest.now)) };

    fn next(&mut self) -> Option<(Send, &'a [u8])> {
        let line = text::first_line(self.rest);
        let send = schedule::read_send(line)?;
        self.rest = &self.rest[line.len()..];
        Some((send, schedule::message_text(line)))
    }
}

impl<'a> Sends<'a> {
    // All of a schedule: they follow the header and the tray lines.
    pub(crate) fn of(s: &'a [u8]) -> Sends<'a>
        ensures { sends_of s.now ≡ sends_in (lines_of result.rest.now) }
    {
        let rest = text::past_lines(text::past_lines(s, HEADER_SIZE), header_of(s).n);
        Sends { rest }
    }
}
