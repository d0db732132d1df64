ghost use Rattle.std.specs.Prelude.{◌≡◌, ◌↔◌, ◌+◌, IsTrue, [], length};
ghost use Rattle.std.specs.Iterator.{at_most};
ghost use Rattle.watch_events.specs.Events.{Gives, left};

/// An event, with the name lent from the message: 0 that the directory is gone, 1 that a name came, 2 that one went, 3 that one is
/// there, 4 that these were all.
#[derive(Clone, Copy, Debug)]
pub struct Seen<'a> {
    pub event: u8,
    pub name: &'a [u8],
}

/// The events of a message to a watcher that weren't given yet, in order.
#[derive(Clone, Copy, Debug)]
pub struct Events<'a> {
    bytes: &'a [u8],
}

impl<'a> Events<'a> {
    /// Whether the events that were given used the bytes up.
    pub fn whole(&self) -> bool
        ensures { IsTrue result ↔ (left self.now ≡ []) }
    {
        self.bytes.is_empty()
    }
}

impl<'a> Iterator for Events<'a> {
    type Item = Seen<'a>;

    ghost next_gives = { Gives };

    ghost remaining = { λ events. at_most (length (left events)) };

    fn next(&mut self) -> Option<Seen<'a>> {
        let [event, len, rest @ ..] = self.bytes else {
            return None;
        };
        let (name, others) = rest.split_at_checked(*len as usize)?;
        self.bytes = others;
        Some(Seen {
            event: *event,
            name,
        })
    }
}

/// The events of a message to a watcher: those of the longest front of the bytes that is whole events.
pub fn read_events(bytes: &[u8]) -> Events<'_>
    ensures { left result ≡ bytes.now }
{
    Events { bytes }
}
