//! A law of queues. It computes nothing: what it says is in its clause.

ghost use Rattle.message_queues.specs.Laws.{QueuesCountTheirList};

/// Where the queue of each endpoint is what a list has of it, as many wait as the list has.
pub fn queues_count_their_list()
    ensures { QueuesCountTheirList }
{}
