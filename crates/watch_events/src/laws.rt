ghost use Rattle.watch_events.specs.Events.{EventsAreReadOnce};

/// A law: any bytes are one list of events and one rest.
pub fn events_are_read_once()
    ensures { EventsAreReadOnce }
{}
