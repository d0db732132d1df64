//! Messages to watchers, also such that no server writes, and the events that are read in them.
use std::alloc::Global;
use std::test::Fail;
use test_rows::{Row, Table, all_hold};
use watch_events::read_events;

/// A name, the bytes of a message, its first three events, and whether those that it has use it up.
/// The first three are what watchers of a directory get.
const MESSAGES: &[u8] = b"
a snapshot of two names | 03012e030166 | (Some(Seen { event: 3, name: '.' }), Some(Seen { event: 3, name: 'f' }), None, true)
these were all | 0400 | (Some(Seen { event: 4, name: '' }), None, None, true)
a name came | 010162 | (Some(Seen { event: 1, name: 'b' }), None, None, true)
nothing | - | (None, None, None, true)
an event without a length | 09 | (None, None, None, false)
an event without its name | 0001 | (None, None, None, false)
an event whose name is cut off | 00012e02036162 | (Some(Seen { event: 0, name: '.' }), None, None, false)
a third event without a length | 0700070007 | (Some(Seen { event: 7, name: '' }), Some(Seen { event: 7, name: '' }), None, false)
";

#[derive(Drop)]
struct Watched;

impl Table for Watched {
    fn holds(&mut self, alloc: Global, row: &Row<'_>) -> bool {
        let Some(bytes) = row.bytes(alloc, 1) else {
            return false;
        };
        let mut events = read_events(&bytes);
        let (first, second, third) = (events.next(), events.next(), events.next());
        row.says(alloc, 2, &(first, second, third, events.whole()))
    }
}

#[test]
fn messages_have_their_events(rt: HostRuntime) -> Result<(), Fail> {
    all_hold(rt.alloc(), MESSAGES, &mut Watched)
}
