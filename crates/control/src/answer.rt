// An operation's answer: the next record of either chip, with a value and a reply. A reply is no error: most of them answer what was done.
ghost use Rattle.std.specs.Prelude.{◌≡◌};
ghost use Rattle.control.specs.declared.reply.Reply.TheVariants.{Done};
ghost use Rattle.control.specs.Reply.{row_of};
ghost use Rattle.control.specs.Told.{told, told_row};

use super::reply::Reply;

#[derive(Clone, Copy, PartialEq, Eq)]
pub struct Answer<C> {
    pub chip: C,
    pub value: u64,
    pub reply: Reply,
}

impl<C> Answer<C> {
    // Done, with a value.
    pub fn done(chip: C, value: u64) -> Answer<C>
        ensures { told result ≡ told_row (row_of Done value) chip }
    {
        Answer {
            chip,
            value,
            reply: Reply::Done,
        }
    }

    // This chip, with another reply.
    pub fn replied(chip: C, reply: Reply) -> Answer<C>
        ensures { told result ≡ told_row (row_of reply 0) chip }
    {
        Answer {
            chip,
            value: reply.value(),
            reply,
        }
    }
}
