ghost use Rattle.std.specs.Prelude.{◌≡◌};
ghost use Rattle.io_messages.specs.Failing.{failing_of};

use crate::replies::{Shape, shape_of};
use fidl_names::Method;

/// How a request of a method fails.
#[derive(Clone, Copy, Debug, PartialEq, Eq)]
pub enum Failing {
    /// Its reply has a status, or the number of one.
    Reply,
    /// The endpoint that it carries ends with an epitaph: its method has no reply.
    Epitaph,
    /// It doesn't: its reply has no place for a status.
    Never,
}

/// How a request of this method fails.
pub fn failing_of(method: Method) -> Failing
    ensures { result ≡ failing_of method }
{
    match shape_of(method) {
        None => Failing::Epitaph,
        Some(Shape::Vector) | Some(Shape::Text) => Failing::Never,
        Some(_) => Failing::Reply,
    }
}
