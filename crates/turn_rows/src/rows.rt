//! The row. It computes nothing: what it says is in its clause.

ghost use Rattle.fidl_wire.specs.Names.{AreDistinct};
ghost use Rattle.turn_rows.specs.Rows.{EachMessageIsTold};

/// An Open over two mounts is told on its object that it is a directory, and a Query there is answered until a Close. One that asks for more
/// than the last mount lets through is told so, by an epitaph on its object. Frames on an endpoint that was refused or closed, and one
/// that carries the first connection, are told nothing; where no two names have equal ordinals.
pub fn each_message_is_told()
    ensures { AreDistinct → EachMessageIsTold }
{}
