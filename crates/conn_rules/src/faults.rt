ghost use Rattle.std.specs.Prelude.{◌≡◌, ◌≢◌};
ghost use Rattle.conn_rules.specs.Refusals.{fault_status};

use fidl_names::Status;
use node_graph::GraphFault;

/// What a request fails with where the graph refuses what it asks for.
pub fn fault_status(fault: GraphFault) -> Status
    ensures value { result ≡ fault_status fault }
    ensures failure { result ≢ Status.Ok }
{
    match fault {
        GraphFault::NotFound => Status::NotFound,
        GraphFault::Exists => Status::AlreadyExists,
        GraphFault::NotDir => Status::NotDir,
        GraphFault::NotFile => Status::NotFile,
        GraphFault::NotEmpty => Status::NotEmpty,
        GraphFault::Loop => Status::InvalidArgs,
        GraphFault::Removed => Status::BadState,
        GraphFault::Unsupported => Status::NotSupported,
        GraphFault::NoSpace => Status::NoSpace,
        GraphFault::FileBig => Status::FileBig,
        GraphFault::NoMemory => Status::NoMemory,
    }
}
