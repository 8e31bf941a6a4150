// A queue of up to eight messages that keeps order. In a clause it is the list of its messages, oldest first.
ghost use Rattle.std.specs.Prelude.{◌≡◌, ◌≤◌, ◌<◌, List, [], ◌∷◌, ◌++◌, take, drop, length, MatchOption, MatchResult};
ghost use Rattle.host.specs.declared.message.Message.{Message};

use crate::message::Message;
use std::fmt;
use std::marker::Model;

const PLACES: usize = 8;

// There are eight messages already.
#[derive(Clone, Copy)]
pub struct Full;

impl fmt::Display for Full {
    fn fmt<W: fmt::Write>(&self, f: &mut fmt::Formatter<W>) -> fmt::Result {
        write!(f, "a message that the queue cannot take")
    }
}

// The oldest message is first; what is behind the first `count` is not read.
#[derive(Drop)]
pub struct Queue {
    messages: [Message; PLACES],
    count: usize,
}

impl Model for Queue {
    ghost Value = { List Message };

    ghost view = { λ q. take q.count q.messages };

    ghost invariant = { λ q. q.count ≤ 8 };
}

impl Queue {
    pub fn new() -> Queue
        ensures { result ≡ [] }
    {
        Queue {
            messages: [Message::new(); PLACES],
            count: 0,
        }
    }

    pub fn push(&mut self, message: Message) -> Result<(), Full>
        ensures { MatchResult result
            (λ _. (length self.old < 8) × (self.new ≡ self.old ++ message ∷ []))
            (λ _. (length self.old ≡ 8) × (self.new ≡ self.old)) }
    {
        if self.count == PLACES {
            return Err(Full);
        }
        self.messages[self.count] = message;
        self.count += 1;
        Ok(())
    }

    // The oldest message, which stays.
    pub fn front(&self) -> Option<&Message>
        ensures { MatchOption result (self.now ≡ []) (λ oldest. self.now ≡ oldest.now ∷ drop 1 self.now) }
    {
        self.messages[..self.count].first()
    }

    // The oldest message leaves.
    pub fn pop(&mut self) -> Option<Message>
        ensures { MatchOption result
            ((self.old ≡ []) × (self.new ≡ []))
            (λ oldest. self.old ≡ oldest ∷ self.new) }
    {
        if self.count == 0 {
            return None;
        }
        let oldest = self.messages[0];
        self.messages.rotate_left(1);
        self.count -= 1;
        Some(oldest)
    }
}
