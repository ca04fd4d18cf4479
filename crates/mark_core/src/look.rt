//! The head and the link that an account last loaded of a stack.

ghost use Rattle.std.specs.Prelude.{◌≡◌, ◌≢◌, ◌↔◌, ℕ, IsTrue, MatchOption};
ghost use Rattle.mark_core.specs.Account.{blank};
ghost use Rattle.tagged_index.specs.Head.{Head};

use std::marker::Model;
use tagged_index::HeadWord;

/// What an account last loaded of a stack: the head, if any, and the link of the buffer that the head names, if the
/// account loaded this link after the head.
#[derive(Clone, Copy)]
pub struct Look {
    head: Option<HeadWord>,
    link: Option<Option<u32>>,
}

impl Model for Look {
    ghost use Rattle.mark_core.specs.Account.{Look};

    ghost Value = { Look };

    ghost view = { λ l. record { head = l.head; link = l.link } };

    ghost inverse = { λ l. record { head = l.head; link = l.link } };
}

impl Look {
    /// Creates the look of an account that has loaded nothing of the stack.
    pub fn blank() -> Self
        ensures { result ≡ blank }
    {
        Look {
            head: None,
            link: None,
        }
    }

    /// Creates the look of an account that has loaded `head`, and no link after it.
    pub fn of(head: HeadWord) -> Self
        ensures { result ≡ record { head = Some head; link = None } }
    {
        Look {
            head: Some(head),
            link: None,
        }
    }

    /// Returns the look after `link` was loaded too.
    pub fn with_link(self, link: Option<u32>) -> Self
        ensures { result ≡ record { head = self.head; link = Some link } }
    {
        Look {
            head: self.head,
            link: Some(link),
        }
    }

    /// Returns the link, or `None` if no link was loaded after the head. The link of the last buffer is itself `None`.
    pub fn link(self) -> Option<Option<u32>>
        ensures { result ≡ self.link }
    {
        self.link
    }

    /// Returns the buffer that the head names, or `None` if no head was loaded or the head names no buffer.
    pub fn buffer(self) -> Option<u32>
        ensures { MatchOption result
            (¬ ((h : Head) × (i : ℕ) × (self.head ≡ Some h) × (h.index ≡ Some i)))
            (λ i. (h : Head) × (self.head ≡ Some h) × (h.index ≡ Some i)) }
    {
        self.head?.index()
    }

    /// Tests whether `now` is the head that was loaded.
    pub fn shows(self, now: HeadWord) -> bool
        ensures { IsTrue result ↔ (self.head ≡ Some now) }
    {
        self.head == Some(now)
    }

    /// Tests whether a head was loaded that differs from `now`.
    pub fn shows_another(self, now: HeadWord) -> bool
        ensures { IsTrue result ↔ ((h : Head) × (self.head ≡ Some h) × (now ≢ h)) }
    {
        match self.head {
            Some(head) => now != head,
            None => false,
        }
    }
}
